//! Verdicts of which memory is refused: the program comes back word for word, and a further verdict
//! on it is that of the first.
//!
//! Run these also with each allocation refused in turn, by `rt try --test --fail-alloc N` for N
//! from 1 on: what is asked for besides a verdict is asked for once more, and then each test passes
//! whichever allocation was refused.
use super::*;
use bpf_insn::{Program, encode};
use bpf_text::AsmError;
use std::alloc::AllocError;
use std::fmt;
use std::fmt::Write;

/// What is found of a program: its length where it is accepted, or the slot and the rule of its
/// fault.
type Verdict = Result<u64, (u64, CodeRule)>;

/// A program with the verdict on it.
struct Judged {
    name: &'static str,
    text: &'static str,
    kind: Kind,
    verdict: Verdict,
}

/// Programs with their verdicts.
const JUDGED: [Judged; 7] = [
    Judged {
        name: "two slots",
        text: "
            mov64 r0, 0
            exit
        ",
        kind: Kind::Unary,
        verdict: Ok(2),
    },
    Judged {
        name: "a wide load",
        text: "
            wide r0, -1148998387548438801
            exit
        ",
        kind: Kind::Binary,
        verdict: Ok(2),
    },
    Judged {
        name: "stored and loaded",
        text: "
            stx64 r10, -8, r1
            ldx64 r0, r10, -8
            exit
        ",
        kind: Kind::Index,
        verdict: Ok(3),
    },
    Judged {
        name: "an index alone",
        text: "
            mov64 r0, r3
            exit
        ",
        kind: Kind::Index,
        verdict: Ok(2),
    },
    Judged {
        name: "not an operand",
        text: "
            mov64 r0, r3
            exit
        ",
        kind: Kind::Binary,
        verdict: Err((0, CodeRule::UnsetRead)),
    },
    Judged {
        name: "loaded alone",
        text: "
            mov64 r0, 0
            ldx64 r0, r10, -8
            exit
        ",
        kind: Kind::Unary,
        verdict: Err((1, CodeRule::UnstoredRead)),
    },
    Judged {
        name: "a jump back",
        text: "
            mov64 r0, 0
            ja -1
            exit
        ",
        kind: Kind::Unary,
        verdict: Err((1, CodeRule::JumpsBack)),
    },
];

/// The program of a text, asked for once more where memory was refused.
fn program_again(alloc: Global, text: &str) -> Result<Program, AsmError> {
    match assemble(alloc, text.as_bytes()) {
        Ok(program) => Ok(program),
        Err(_) => assemble(alloc, text.as_bytes()),
    }
}

/// The code of a program, asked for once more where memory was refused.
fn words_of(alloc: Global, program: &Program) -> Result<Vec<u8>, AllocError> {
    match encode(alloc, program) {
        Ok(code) => Ok(code),
        Err(AllocError) => encode(alloc, program),
    }
}

/// The verdict on a program; or the program, where memory was refused. Whatever comes back is the
/// program, word for word.
fn first_verdict(
    rt: &impl Abort,
    alloc: Global,
    program: Program,
    kind: Kind,
) -> Result<Result<Verdict, Program>, AllocError> {
    let words = words_of(alloc, &program)?;
    match verify(alloc, program, kind) {
        Ok(operator) => {
            assert_eq!(rt; words_of(alloc, operator.program())?, words);
            Ok(Ok(Ok(operator.len())))
        }
        Err((program, error)) => {
            assert_eq!(rt; words_of(alloc, &program)?, words);
            match error {
                VerifyError::Fault(fault) => Ok(Ok(Err((fault.slot, fault.rule)))),
                VerifyError::Memory => Ok(Err(program)),
            }
        }
    }
}

/// The verdict on a program, by a second call where memory was refused to the first.
fn verdict_again(
    rt: &impl Abort,
    alloc: Global,
    program: Program,
    kind: Kind,
) -> Result<Verdict, AllocError> {
    match first_verdict(rt, alloc, program, kind)? {
        Ok(verdict) => Ok(verdict),
        Err(program) => match first_verdict(rt, alloc, program, kind)? {
            Ok(verdict) => Ok(verdict),
            Err(_) => Err(AllocError),
        },
    }
}

#[test]
fn the_same_verdict_after_a_refusal(rt: HostRuntime) -> Result<(), Fail> {
    for judged in &JUDGED {
        let program = program_again(rt.alloc(), judged.text)?;
        let verdict = verdict_again(&rt, rt.alloc(), program, judged.kind)?;
        assert_eq!(rt; verdict, judged.verdict, "{}", judged.name);
    }
    Ok(())
}

/// The places that the longest program stores into.
const PLACES: [i16; 4] = [-8, -16, -24, -512];

/// 2,047 branches, each over a store into one of four places: 2^2047 ways.
fn branches(alloc: Global) -> Result<String, fmt::Error> {
    let mut text = String::new(alloc);
    for i in 0..2047 {
        let place = PLACES[i % 4];
        write!(text, "jeq64 r1, {i}, 1\nst64 r10, {place}, 0\n")?;
    }
    write!(text, "mov64 r0, 0\nexit")?;
    Ok(text)
}

/// The text of the longest program, asked for once more where memory was refused.
fn branches_again(alloc: Global) -> Result<String, fmt::Error> {
    match branches(alloc) {
        Ok(text) => Ok(text),
        Err(_) => branches(alloc),
    }
}

#[test]
fn the_longest_program_after_a_refusal(rt: HostRuntime) -> Result<(), Fail> {
    let program = program_again(rt.alloc(), &branches_again(rt.alloc())?)?;
    let verdict = verdict_again(&rt, rt.alloc(), program, Kind::Unary)?;
    assert_eq!(rt; verdict, Ok(4096));
    Ok(())
}
