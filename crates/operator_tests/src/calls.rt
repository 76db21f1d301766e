//! Calls of flat code against the machine that knows of each register what stands in it: values and
//! steps.
mod lanes;

use bpf_insn::{Kind, Operands, Program, Ran, run_tagged};
use bpf_run::{Calls, MOST_CALLS, Outcome, call};
use bpf_text::assemble;
use bpf_verify::Operator;
use std::alloc::Global;
use std::process::Abort;
use std::test::Fail;
use test_operators::assembled;

/// The words of which operands consist.
const WORDS: [u64; 12] = [
    0,
    1,
    u64::MAX,
    0x8000_0000,
    0xffff_ffff_8000_0000,
    i64::MAX as u64,
    0x8000_0000_0000_0000,
    2,
    63,
    0x1_0000_0007,
    0x0102_0304_0506_0708,
    0xf1e2_d3c4_b5a6_9788,
];

fn operands_of(kind: Kind, x: u64, y: u64) -> Operands {
    match kind {
        Kind::Unary => Operands::Unary { x },
        Kind::Binary => Operands::Binary { x, y },
        Kind::Index => Operands::Index {
            x,
            row: y,
            column: x ^ y,
            thunk: 7,
        },
    }
}

/// That calls of the operator of a text, alone and together, give and cost what the tagged machine
/// says, on all pairs of words.
fn expect_alike(rt: &impl Abort, alloc: Global, text: &str, kind: Kind) -> Result<(), Fail> {
    let tagged = assemble(alloc, text.as_bytes())?;
    let operator = assembled(alloc, kind, text)?;
    assert_eq!(rt; operator.len(), tagged.len());
    lanes::expect_together_in_all_counts(rt, alloc, &tagged, &operator)?;
    for x in WORDS {
        for y in WORDS {
            let operands = operands_of(operator.kind(), x, y);
            if operands.kind() == operator.kind() {
                let Outcome { value, steps } = call(&operator, &operands);
                let ran = run_tagged(&tagged, operands.kind(), &operands);
                assert_eq!(rt; ran, Ran::Done { value, steps });
            }
        }
    }
    Ok(())
}

/// Each of four jumps parts the lanes; those that go on store, load, compute and exit while the
/// others wait.
const PARTED: &str = "
    stx64 r10, -8, r1
    stx64 r10, -16, r2
    mov64 r0, r1
    jsgt64 r1, r2, 6
    stx32 r10, -8, r2
    ldx64 r0, r10, -8
    jset64 r2, 1, 6
    st32 r10, -16, -3
    jeq64 r1, 0, 3
    exit
    xor32 r0, r2
    jge32 r0, r1, 1
    neg64 r0
    ldx16 r3, r10, -16
    add64 r0, r3
    ldx64 r3, r10, -8
    xor64 r0, r3
    exit
";

#[test]
fn parted_lanes_are_alike(rt: HostRuntime) -> Result<(), Fail> {
    expect_alike(&rt, rt.alloc(), PARTED, Kind::Binary)
}
