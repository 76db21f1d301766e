//! The machine with tags: what a run comes to, and where it is stuck on programs that the verifier
//! refuses.
mod faults;

use bpf_insn::{CodeRule, Fault, Kind, Operands, Ran, Stepped, Tagged, run_tagged};
use bpf_text::assemble;
use std::alloc::Global;
use std::process::Abort;
use std::test::Fail;

fn done(value: u64, steps: u64) -> Ran {
    Ran::Done { value, steps }
}

fn stuck_at(slot: u64, rule: CodeRule) -> Ran {
    Ran::Stuck(Fault { slot, rule })
}

/// That the program of a text comes to this end.
fn expect_end(
    rt: &impl Abort,
    alloc: Global,
    name: &str,
    text: &str,
    operands: Operands,
    end: Ran,
) -> Result<(), Fail> {
    let program = assemble(alloc, text.as_bytes())?;
    let ran = run_tagged(&program, operands.kind(), &operands);
    assert_eq!(rt; ran, end, "{name}");
    Ok(())
}

/// A program that comes to its end on some operands.
struct Given {
    name: &'static str,
    text: &'static str,
    operands: Operands,
    value: u64,
    steps: u64,
}

/// Programs with what they give. The verifier refuses the last two, for a way that these operands
/// don't go.
const GIVEN: [Given; 4] = [
    Given {
        name: "add 1",
        text: "
            mov64 r0, r1
            add64 r0, 1
            exit
        ",
        operands: Operands::Unary { x: 41 },
        value: 42,
        steps: 3,
    },
    Given {
        name: "diagonal",
        text: "
            mov64 r0, 1
            jeq64 r2, r3, 1
            mov64 r0, 0
            exit
        ",
        operands: Operands::Index {
            x: 7,
            row: 3,
            column: 4,
            thunk: 0,
        },
        value: 0,
        steps: 4,
    },
    Given {
        name: "jump not taken",
        text: "
            jeq64 r1, 0, 1
            mov64 r0, 1
            exit
        ",
        operands: Operands::Unary { x: 5 },
        value: 1,
        steps: 3,
    },
    Given {
        name: "two ways",
        text: "
            jeq64 r1, 0, 2
            mov64 r3, r10
            ja 1
            mov64 r3, r2
            mov64 r0, r3
            exit
        ",
        operands: Operands::Binary { x: 0, y: 9 },
        value: 9,
        steps: 4,
    },
];

#[test]
fn programs_give_values(rt: HostRuntime) -> Result<(), Fail> {
    for given in &GIVEN {
        let end = done(given.value, given.steps);
        expect_end(&rt, rt.alloc(), given.name, given.text, given.operands, end)?;
    }
    Ok(())
}

/// A jump over `exit` where R1 is not 5, to a read of R5, which is unset.
const BY_HAND: &str = "
    mov64 r0, 1
    jne64 r1, 5, 1
    exit
    mov64 r0, r5
    exit
";

/// A machine that is stepped by hand tells its slot, and at the end of the program none.
#[test]
fn steps_by_hand(rt: HostRuntime) -> Result<(), Fail> {
    let program = assemble(rt.alloc(), BY_HAND.as_bytes())?;
    assert!(rt; program.insn_at(0).is_some());
    let mut tagged = Tagged::enter(Kind::Unary, &Operands::Unary { x: 5 });
    assert_eq!(rt; tagged.slot(), Some(0));
    assert!(rt; matches!(tagged.step(&program), Stepped::Went));
    assert_eq!(rt; tagged.slot(), Some(1));
    assert!(rt; matches!(tagged.step(&program), Stepped::Went));
    assert_eq!(rt; tagged.slot(), Some(2));
    assert!(rt; matches!(tagged.step(&program), Stepped::Done(1)));
    assert_eq!(rt; tagged.slot(), None);
    Ok(())
}

/// And it stays where it is stuck.
#[test]
fn stuck_by_hand(rt: HostRuntime) -> Result<(), Fail> {
    let program = assemble(rt.alloc(), BY_HAND.as_bytes())?;
    assert!(rt; program.insn_at(0).is_some());
    let mut tagged = Tagged::enter(Kind::Unary, &Operands::Unary { x: 6 });
    assert!(rt; matches!(tagged.step(&program), Stepped::Went));
    assert!(rt; matches!(tagged.step(&program), Stepped::Went));
    assert_eq!(rt; tagged.slot(), Some(3));
    assert!(rt; is_unset_read(tagged.step(&program)));
    assert_eq!(rt; tagged.slot(), Some(3));
    Ok(())
}

fn is_unset_read(stepped: Stepped) -> bool {
    matches!(
        stepped,
        Stepped::Stuck(Fault {
            slot: 3,
            rule: CodeRule::UnsetRead
        })
    )
}
