//! Calls that run together, in all counts of lanes that differ in kind.
ghost use Rattle.std.specs.Prelude.{◌≡◌, []};

use super::*;
use test_operators::SUBTRACT;

/// How many calls are gathered: below the counts from which on they run in lanes, and above.
const COUNTS: [u64; 27] = [
    0, 1, 8, 9, 10, 11, 12, 13, 14, 15, 16, 17, 18, 19, 20, 21, 22, 23, 24, 25, 26, 27, 28, 29, 30,
    63, 64,
];

/// The operands of the lane of this number, among all pairs of words; or the same ones, where all
/// are alike.
fn operands_at(kind: Kind, lane: u64, alike: bool) -> Operands {
    if alike {
        return operands_of(kind, 5, 6);
    }
    let x = WORDS[(lane % 12) as usize];
    let y = WORDS[((lane / 12).wrapping_add(lane) % 12) as usize];
    operands_of(kind, x, y)
}

/// Gathers those operands that are of this kind.
fn gather_all(calls: &mut Calls, kind: Kind, operands: &[Operands])
    ensures { calls.new.kind ≡ kind }
{
    calls.begin(kind);
    for one in operands {
        if calls.len() < MOST_CALLS && one.kind() == kind {
            calls.gather(*one);
        }
    }
}

/// That these values are what the tagged machine gives on these operands. Returns the sum of its
/// steps.
fn expect_values(rt: &impl Abort, tagged: &Program, operands: &[Operands], values: &[u64]) -> u64 {
    assert_eq!(rt; values.len(), operands.len());
    let mut sum = 0u64;
    for (one, given) in operands.iter().zip(values) {
        let Ran::Done { value, steps } = run_tagged(tagged, one.kind(), one) else {
            panic!(rt; "an accepted operator is stuck");
        };
        assert_eq!(rt; *given, value);
        sum = sum.wrapping_add(steps);
    }
    sum
}

/// That calls run together give and cost what the tagged machine says of each.
fn expect_together(
    rt: &impl Abort,
    tagged: &Program,
    operator: &Operator,
    calls: &mut Calls,
    operands: &[Operands],
) {
    gather_all(calls, operator.kind(), operands);
    assert_eq!(rt; calls.len(), operands.len());
    let steps = calls.make(operator);
    assert_eq!(rt; calls.len(), 0);
    let expected = expect_values(rt, tagged, operands, calls.values());
    assert_eq!(rt; steps, expected);
}

/// The operands of so many lanes, all alike or all different.
fn lanes_of(alloc: Global, kind: Kind, count: u64, alike: bool) -> Result<Vec<Operands>, Fail> {
    let mut operands = Vec::new(alloc);
    for lane in 0..count {
        let number = lane.wrapping_mul(7).wrapping_add(count);
        operands.push(operands_at(kind, number, alike))?;
    }
    Ok(operands)
}

/// The same in each count, of lanes all alike and of lanes that differ.
pub(super) fn expect_together_in_all_counts(
    rt: &impl Abort,
    alloc: Global,
    tagged: &Program,
    operator: &Operator,
) -> Result<(), Fail> {
    let mut calls = Calls::new(alloc)?;
    for count in COUNTS {
        for alike in [false, true] {
            let operands = lanes_of(alloc, operator.kind(), count, alike)?;
            expect_together(rt, tagged, operator, &mut calls, &operands);
        }
    }
    Ok(())
}

/// Cells, each a column with a word.
const CELLS: [(u64, u64); 3] = [(1, 10), (4, 40), (7, 70)];

/// More of them.
const SIX_CELLS: [(u64, u64); 6] = [(0, 1), (1, 2), (2, 3), (3, 4), (5, 5), (9, 6)];

/// That the calls that were gathered cost and give this.
fn expect_made(rt: &impl Abort, calls: &mut Calls, operator: &Operator, steps: u64, values: &[u64])
    requires { calls.old.kind ≡ operator.now.kind }
    ensures kind { calls.new.kind ≡ calls.old.kind }
    ensures none { calls.new.operands ≡ [] }
{
    assert_eq!(rt; calls.make(operator), steps);
    assert_eq!(rt; calls.values(), values);
}

/// Words that are gathered in bulk stand behind those that were gathered before.
#[test]
fn words_in_bulk(rt: HostRuntime) -> Result<(), Fail> {
    let operator = assembled(rt.alloc(), Kind::Unary, "mov64 r0, r1\nexit")?;
    let mut calls = Calls::new(rt.alloc())?;
    calls.begin(Kind::Unary);
    calls.gather(Operands::Unary { x: 9 });
    calls.gather_words(&CELLS);
    if operator.kind() == Kind::Unary {
        expect_made(&rt, &mut calls, &operator, 8, &[9, 10, 40, 70]);
    }
    Ok(())
}

/// x + y
const SUM: &str = "
    mov64 r0, r1
    add64 r0, r2
    exit
";

/// And so do pairs of one word with each of many.
#[test]
fn pairs_in_bulk(rt: HostRuntime) -> Result<(), Fail> {
    let operator = assembled(rt.alloc(), Kind::Binary, SUM)?;
    let mut calls = Calls::new(rt.alloc())?;
    calls.begin(Kind::Binary);
    calls.gather_pair(1, 2);
    calls.gather_with(100, &CELLS);
    if operator.kind() == Kind::Binary {
        expect_made(&rt, &mut calls, &operator, 12, &[3, 110, 140, 170]);
    }
    Ok(())
}

/// x, row, column and thunk as the digits of a number
const DIGITS: &str = "
    mov64 r0, r1
    mul64 r0, 10
    add64 r0, r2
    mul64 r0, 10
    add64 r0, r3
    mul64 r0, 10
    add64 r0, r4
    exit
";

/// Cells of rows are called with their positions and a number.
#[test]
fn entries_in_bulk(rt: HostRuntime) -> Result<(), Fail> {
    let operator = assembled(rt.alloc(), Kind::Index, DIGITS)?;
    let mut calls = Calls::new(rt.alloc())?;
    calls.begin(Kind::Index);
    calls.gather_entries(&CELLS, 2, 5);
    calls.gather_entries(&SIX_CELLS, 3, 5);
    let values = [10215, 40245, 70275, 1305, 2315, 3325, 4335, 5355, 6395];
    if operator.kind() == Kind::Index {
        expect_made(&rt, &mut calls, &operator, 72, &values);
    }
    Ok(())
}

/// Cells of a row of its own, each a column with its square.
fn squares(alloc: Global) -> Result<Vec<(u64, u64)>, Fail> {
    let mut cells = Vec::new(alloc);
    for column in 0..23u64 {
        cells.push((column, column.wrapping_mul(column)))?;
    }
    Ok(cells)
}

/// Adds the operands of cells of a row.
fn push_entries(
    operands: &mut Vec<Operands>,
    cells: &[(u64, u64)],
    row: u64,
    thunk: u64,
) -> Result<(), Fail> {
    for (column, x) in cells {
        operands.push(Operands::Index {
            x: *x,
            row,
            column: *column,
            thunk,
        })?;
    }
    Ok(())
}

/// Cells that fill all lanes.
const OTHERS: [(u64, u64); 64] = [(3000, 1000); 64];

/// That calls of cells that are gathered where other words stood in the lanes give and cost what
/// the tagged machine says of each: of a few cells, one call after the other, and of more, in
/// lanes.
fn expect_entries(rt: &impl Abort, alloc: Global, text: &str) -> Result<(), Fail> {
    let tagged = assemble(alloc, text.as_bytes())?;
    let operator = assembled(alloc, Kind::Index, text)?;
    let long = squares(alloc)?;
    let mut calls = Calls::new(alloc)?;
    for more in [false, true] {
        let mut operands = Vec::new(alloc);
        calls.begin(Kind::Index);
        calls.gather_entries(&OTHERS, 2000, 4000);
        calls.begin(Kind::Index);
        calls.gather_entries(&CELLS, 2, 5);
        push_entries(&mut operands, &CELLS, 2, 5)?;
        if more && calls.len() + long.len() <= MOST_CALLS {
            calls.gather_entries(&long, 3, 5);
            push_entries(&mut operands, &long, 3, 5)?;
        }
        if operator.kind() == Kind::Index {
            let steps = calls.make(&operator);
            assert_eq!(rt;
                steps,
                expect_values(rt, &tagged, &operands, calls.values())
            );
        }
    }
    Ok(())
}

/// 100 row + column
const POSITION: &str = "
    mov64 r0, r2
    mul64 r0, 100
    add64 r0, r3
    exit
";

/// row, or x where that is below the column
const WORD: &str = "
    mov64 r0, r2
    jge64 r1, r3, 1
    mov64 r0, r1
    exit
";

/// column - thunk
const NUMBER: &str = "
    mov64 r0, r3
    sub64 r0, r4
    exit
";

/// 1 where x is above the thunk, else 0
const BOTH: &str = "
    mov64 r0, 1
    jgt64 r1, r4, 1
    mov64 r0, 0
    exit
";

/// thunk + x, by the stack
const STORED: &str = "
    stx64 r10, -8, r1
    stx64 r10, -16, r4
    ldx64 r0, r10, -16
    ldx64 r5, r10, -8
    add64 r0, r5
    exit
";

/// Cells are called with their own words, whichever of them the operator reads.
#[test]
fn entries_where_others_stood(rt: HostRuntime) -> Result<(), Fail> {
    expect_entries(&rt, rt.alloc(), POSITION)?;
    expect_entries(&rt, rt.alloc(), WORD)?;
    expect_entries(&rt, rt.alloc(), NUMBER)?;
    expect_entries(&rt, rt.alloc(), BOTH)?;
    expect_entries(&rt, rt.alloc(), STORED)
}

/// Pairs of two lists are called in their order, and values stay until the next calls run.
#[test]
fn pairs_of_lists(rt: HostRuntime) -> Result<(), Fail> {
    let operator = assembled(rt.alloc(), Kind::Binary, SUBTRACT)?;
    let mut calls = Calls::new(rt.alloc())?;
    calls.begin(Kind::Binary);
    calls.gather_pair(9, 2);
    calls.gather_pairs(&[10, 20], &[3, 4]);
    if operator.kind() == Kind::Binary {
        expect_made(&rt, &mut calls, &operator, 9, &[7, 7, 16]);
        calls.gather_pairs(&[100], &[1]);
        assert_eq!(&rt; calls.values(), [7, 7, 16].as_slice());
        assert_eq!(&rt; calls.len(), 1);
    }
    Ok(())
}
