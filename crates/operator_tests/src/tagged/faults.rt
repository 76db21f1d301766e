//! Where programs get stuck, and by which rule.
use super::*;

/// A program that gets stuck on some operands.
struct Stuck {
    name: &'static str,
    text: &'static str,
    operands: Operands,
    slot: u64,
    rule: CodeRule,
}

/// Programs with where they get stuck.
const STUCK: [Stuck; 21] = [
    Stuck {
        name: "no value",
        text: "exit",
        operands: Operands::Unary { x: 5 },
        slot: 0,
        rule: CodeRule::UnsetRead,
    },
    Stuck {
        name: "into a wide load",
        text: "
            ja 1
            wide r0, 1
            exit
        ",
        operands: Operands::Unary { x: 5 },
        slot: 0,
        rule: CodeRule::JumpsNowhere,
    },
    Stuck {
        name: "back",
        text: "
            mov64 r0, 0
            ja -1
            exit
        ",
        operands: Operands::Unary { x: 5 },
        slot: 1,
        rule: CodeRule::JumpsBack,
    },
    Stuck {
        name: "below the stack",
        text: "
            stx64 r10, -513, r1
            ldx64 r0, r10, -512
            exit
        ",
        operands: Operands::Unary { x: 5 },
        slot: 0,
        rule: CodeRule::OutsideStack,
    },
    Stuck {
        name: "past the top",
        text: "
            stx64 r10, -7, r1
            ldx64 r0, r10, -512
            exit
        ",
        operands: Operands::Unary { x: 5 },
        slot: 0,
        rule: CodeRule::OutsideStack,
    },
    Stuck {
        name: "no value on one way",
        text: "
            jeq64 r1, 0, 1
            mov64 r0, 1
            exit
        ",
        operands: Operands::Unary { x: 0 },
        slot: 2,
        rule: CodeRule::UnsetRead,
    },
    Stuck {
        name: "two ways",
        text: "
            jeq64 r1, 0, 2
            mov64 r3, r10
            ja 1
            mov64 r3, r2
            mov64 r0, r3
            exit
        ",
        operands: Operands::Binary { x: 1, y: 9 },
        slot: 5,
        rule: CodeRule::NumberWanted,
    },
    Stuck {
        name: "a place as the value",
        text: "
            mov64 r0, r10
            exit
        ",
        operands: Operands::Unary { x: 5 },
        slot: 1,
        rule: CodeRule::NumberWanted,
    },
    Stuck {
        name: "a number as a base",
        text: "
            ldx64 r0, r1, 0
            exit
        ",
        operands: Operands::Unary { x: 5 },
        slot: 0,
        rule: CodeRule::PlaceWanted,
    },
    Stuck {
        name: "R10 written",
        text: "
            mov64 r10, 0
            exit
        ",
        operands: Operands::Unary { x: 5 },
        slot: 0,
        rule: CodeRule::StackTopWritten,
    },
    Stuck {
        name: "off the end",
        text: "mov64 r0, 0",
        operands: Operands::Unary { x: 5 },
        slot: 0,
        rule: CodeRule::JumpsNowhere,
    },
    Stuck {
        name: "off the end, unset read",
        text: "add64 r0, r5",
        operands: Operands::Unary { x: 5 },
        slot: 0,
        rule: CodeRule::JumpsNowhere,
    },
    Stuck {
        name: "a place above the top",
        text: "
            mov64 r1, r10
            add64 r1, 1
            mov64 r0, 0
            exit
        ",
        operands: Operands::Unary { x: 5 },
        slot: 1,
        rule: CodeRule::OutsideStack,
    },
    Stuck {
        name: "a place compared",
        text: "
            jeq64 r10, r1, 1
            mov64 r0, 0
            exit
        ",
        operands: Operands::Unary { x: 5 },
        slot: 0,
        rule: CodeRule::NumberWanted,
    },
    Stuck {
        name: "R2 of a unary call",
        text: "
            mov64 r0, r2
            exit
        ",
        operands: Operands::Unary { x: 5 },
        slot: 0,
        rule: CodeRule::UnsetRead,
    },
    Stuck {
        name: "R3 of a binary call",
        text: "
            mov64 r0, r3
            exit
        ",
        operands: Operands::Binary { x: 1, y: 2 },
        slot: 0,
        rule: CodeRule::UnsetRead,
    },
    Stuck {
        name: "R5 of an index call",
        text: "
            mov64 r0, r5
            exit
        ",
        operands: Operands::Index {
            x: 1,
            row: 2,
            column: 3,
            thunk: 4,
        },
        slot: 0,
        rule: CodeRule::UnsetRead,
    },
    Stuck {
        name: "a byte that was never stored",
        text: "
            ldx64 r0, r10, -8
            exit
        ",
        operands: Operands::Unary { x: 5 },
        slot: 0,
        rule: CodeRule::UnstoredRead,
    },
    Stuck {
        name: "half of the bytes stored",
        text: "
            stx32 r10, -4, r1
            ldx64 r0, r10, -8
            exit
        ",
        operands: Operands::Unary { x: 5 },
        slot: 1,
        rule: CodeRule::UnstoredRead,
    },
    Stuck {
        name: "a store jumped over",
        text: "
            jeq64 r1, 0, 1
            stx64 r10, -8, r1
            ldx64 r0, r10, -8
            exit
        ",
        operands: Operands::Unary { x: 0 },
        slot: 2,
        rule: CodeRule::UnstoredRead,
    },
    Stuck {
        name: "a load below the stack",
        text: "
            ldx8 r0, r10, -513
            exit
        ",
        operands: Operands::Unary { x: 5 },
        slot: 0,
        rule: CodeRule::OutsideStack,
    },
];

#[test]
fn programs_get_stuck(rt: HostRuntime) -> Result<(), Fail> {
    for stuck in &STUCK {
        let end = stuck_at(stuck.slot, stuck.rule);
        expect_end(&rt, rt.alloc(), stuck.name, stuck.text, stuck.operands, end)?;
    }
    Ok(())
}

/// An instruction that breaks several rules, with the one that is named.
struct Lowest {
    name: &'static str,
    line: &'static str,
    rule: CodeRule,
}

/// Such instructions.
const LOWEST: [Lowest; 14] = [
    Lowest {
        name: "R10 from an unset register",
        line: "mov64 r10, r5",
        rule: CodeRule::StackTopWritten,
    },
    Lowest {
        name: "a place stored through a number",
        line: "stx64 r1, 0, r10",
        rule: CodeRule::NumberWanted,
    },
    Lowest {
        name: "a place stored through an unset base",
        line: "stx64 r5, 0, r10",
        rule: CodeRule::UnsetRead,
    },
    Lowest {
        name: "a store through an unset base",
        line: "stx64 r5, 0, r1",
        rule: CodeRule::UnsetRead,
    },
    Lowest {
        name: "an unset register stored below the stack",
        line: "stx64 r10, -513, r5",
        rule: CodeRule::UnsetRead,
    },
    Lowest {
        name: "ja32 beyond 16 bits",
        line: "ja32 65536",
        rule: CodeRule::JumpsNowhere,
    },
    Lowest {
        name: "ja32 back beyond 16 bits",
        line: "ja32 -65536",
        rule: CodeRule::JumpsBack,
    },
    Lowest {
        name: "mov32 of a place",
        line: "mov32 r0, r10",
        rule: CodeRule::NumberWanted,
    },
    Lowest {
        name: "movs8_64 of a place",
        line: "movs8_64 r0, r10",
        rule: CodeRule::NumberWanted,
    },
    Lowest {
        name: "add64 of a place",
        line: "add64 r1, r10",
        rule: CodeRule::NumberWanted,
    },
    Lowest {
        name: "a place compared with imm",
        line: "jeq64 r10, 0, 1",
        rule: CodeRule::NumberWanted,
    },
    Lowest {
        name: "ldsx8 at the top",
        line: "ldsx8 r0, r10, 0",
        rule: CodeRule::OutsideStack,
    },
    Lowest {
        name: "ldsx16 over the top",
        line: "ldsx16 r0, r10, -1",
        rule: CodeRule::OutsideStack,
    },
    Lowest {
        name: "ldsx32 over the top",
        line: "ldsx32 r0, r10, -3",
        rule: CodeRule::OutsideStack,
    },
];

/// Where an instruction breaks several rules, the lowest is named; an access at the edge of the
/// stack, and a place where a number is wanted, in each form.
#[test]
fn the_lowest_rule_is_named(rt: HostRuntime) -> Result<(), Fail> {
    let operands = Operands::Unary { x: 5 };
    for lowest in &LOWEST {
        let text = format!(in rt.alloc(); "{}\nmov64 r0, 0\nexit", lowest.line)?;
        let end = stuck_at(0, lowest.rule);
        expect_end(&rt, rt.alloc(), lowest.name, &text, operands, end)?;
    }
    let last = "mov64 r0, 0\nmov64 r10, 0";
    let end = stuck_at(1, CodeRule::JumpsNowhere);
    expect_end(&rt, rt.alloc(), "R10 in the last slot", last, operands, end)
}
