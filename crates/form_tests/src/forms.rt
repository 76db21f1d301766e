//! All forms against a slow reference: a map of positions, and one call at a time by the machine
//! with tags.
ghost use Rattle.std.specs.Prelude.{◌≡◌, ◌≤◌, ◌-◌, ◌*◌, [], IsTrue, length, IfSome, IfOk};
ghost use Rattle.csr_store.specs.Mask.{HasShape, mask_of};
ghost use Rattle.form_tests.specs.inner.Pieces.{IsPiece};

mod ranges;
mod sizes;
mod small;

use crate::masks::{has_shape, passes};
use bpf_insn::{Kind, Operands, Ran, run_tagged};
use bpf_run::Calls;
use bpf_verify::Operator;
use csr_store::{Builder, Matrix, Rows, join_rows};
use entry_ops::{apply_region, both_region, reduce_region, select_region, union_region};
use job_forms::{Chunk, Region};
use std::alloc::{AllocError, Global};
use std::ops::Range;
use std::process::Abort;
use std::test::Fail;
use test_operators::{NoOperator, assembled};

/// The most rows, columns and entries of a matrix.
const LIMIT: u64 = 16_777_216;

/// 3 x + 1
const TRIPLE: &str = "
    mov64 r0, r1
    mul64 r0, 3
    add64 r0, 1
    exit
";

/// (2 (x + row) xor column) + thunk
const PLACED: &str = "
    mov64 r0, r1
    add64 r0, r2
    lsh64 r0, 1
    xor64 r0, r3
    add64 r0, r4
    exit
";

/// 7 where row + thunk is not below column, and else 0, a step sooner
const BELOW: &str = "
    mov64 r0, 0
    add64 r2, r4
    jlt64 r2, r3, 1
    mov64 r0, 7
    exit
";

/// 2 x - y, and that xor 5 where x is not above y: neither associative nor commutative
const UNEVEN: &str = "
    mov64 r0, r1
    lsh64 r0, 1
    sub64 r0, r2
    jgt64 r1, r2, 1
    xor64 r0, 5
    exit
";

/// What is asked of a matrix, or of two.
#[derive(Clone, Copy)]
enum Job {
    Apply(Option<u64>),
    Select(u64),
    Union,
    Both,
    Reduce,
}

/// A row, a column and a value.
type Triple = (u64, u64, u64);

/// The operator that the tests take for a job.
fn operator_for(alloc: Global, job: Job) -> Result<Operator, NoOperator> {
    match job {
        Job::Apply(None) => assembled(alloc, Kind::Unary, TRIPLE),
        Job::Apply(Some(_)) => assembled(alloc, Kind::Index, PLACED),
        Job::Select(_) => assembled(alloc, Kind::Index, BELOW),
        Job::Union | Job::Both | Job::Reduce => assembled(alloc, Kind::Binary, UNEVEN),
    }
}

/// The matrix of these entries.
fn matrix(alloc: Global, shape: (u64, u64), entries: &[Triple]) -> Result<Matrix, Fail> {
    if shape.0 > LIMIT || shape.1 > LIMIT {
        return Err(AllocError.into());
    }
    let mut builder = Builder::new(alloc, shape.0, shape.1);
    for entry in entries {
        builder.put(entry.0, entry.1, entry.2)?;
    }
    match builder.finish() {
        Ok(matrix) => Ok(matrix),
        Err(_) => Err(AllocError.into()),
    }
}

/// The columns of a job's result.
fn columns_of(job: Job, a: &Matrix) -> u64 {
    match job {
        Job::Reduce => 1,
        _ => a.columns(),
    }
}

/// A range of rows of a job's result of so many columns, where operator, shapes and range fit.
fn rows_of<'m>(
    alloc: Global,
    calls: &mut Calls,
    job: Job,
    operator: &Operator,
    a: &'m Matrix,
    b: &'m Matrix,
    mask: Option<&'m Matrix>,
    columns: u64,
    range: Range<u64>,
) -> Option<Chunk>
    ensures { IfSome result (λ c. IfOk c.result (λ r. IsPiece range.start columns (range.end - range.start) r)) }
{
    if range.start > range.end || range.end > a.rows() || !has_shape(mask, a.rows(), columns) {
        return None;
    }
    let region = Region { range, mask };
    if columns == 1 && operator.kind() == Kind::Binary {
        if let Job::Reduce = job {
            return Some(reduce_region(alloc, calls, a, operator, region));
        }
    }
    if columns != a.columns() || b.rows() != a.rows() || b.columns() != columns {
        return None;
    }
    match (job, operator.kind()) {
        (Job::Apply(None), Kind::Unary) => Some(apply_region(
            alloc, calls, a, operator, None, region,
        )),
        (Job::Apply(Some(thunk)), Kind::Index) => {
            Some(apply_region(alloc, calls, a, operator, Some(thunk), region))
        }
        (Job::Select(thunk), Kind::Index) => {
            Some(select_region(alloc, calls, a, operator, thunk, region))
        }
        (Job::Union, Kind::Binary) => Some(union_region(alloc, calls, a, b, operator, region)),
        (Job::Both, Kind::Binary) => Some(both_region(alloc, calls, a, b, operator, region)),
        _ => None,
    }
}

/// The whole result of a job, done in two chunks, and its steps; or nothing where something doesn't
/// fit.
fn whole<'m>(
    alloc: Global,
    calls: &mut Calls,
    job: Job,
    operator: &Operator,
    (a, b, mask): (&'m Matrix, &'m Matrix, Option<&'m Matrix>),
    middle: u64,
) -> Result<Option<(Matrix, u64)>, Fail> {
    let (rows, columns) = (a.rows(), columns_of(job, a));
    if middle > rows || rows > LIMIT || columns > LIMIT || rows.saturating_mul(columns) > LIMIT {
        return Ok(None);
    }
    let Some(first) = rows_of(alloc, calls, job, operator, a, b, mask, columns, 0..middle) else {
        return Ok(None);
    };
    let rest = middle..rows;
    let Some(second) = rows_of(alloc, calls, job, operator, a, b, mask, columns, rest) else {
        return Ok(None);
    };
    let steps = first.steps.wrapping_add(second.steps);
    let result = joined(
        alloc,
        (rows, columns),
        first.result?,
        second.result?,
        middle,
    )?;
    Ok(Some((result, steps)))
}

/// The matrix of two runs of rows.
fn joined(
    alloc: Global,
    shape: (u64, u64),
    first: Rows,
    second: Rows,
    middle: u64,
) -> Result<Matrix, AllocError>
    requires middle { middle ≤ shape.0 }
    requires rows { shape.0 ≤ 16777216 }
    requires columns { shape.1 ≤ 16777216 }
    requires small { shape.0 * shape.1 ≤ 16777216 }
    requires first { IsPiece 0 shape.1 middle first }
    requires second { IsPiece middle shape.1 (shape.0 - middle) second }
{
    let pieces: Vec<Rows> = vec![in alloc; first, second]?;
    join_rows(alloc, shape.0, shape.1, pieces)
}

/// What a call gives, and the steps so far with its own.
fn called(operator: &Operator, operands: Operands, steps: &mut u64) -> Option<u64> {
    match run_tagged(operator.program(), operands.kind(), &operands) {
        Ran::Done { value, steps: more } => {
            *steps = steps.wrapping_add(more);
            Some(value)
        }
        Ran::Stuck(_) => None,
    }
}

/// What a binary operator gives for two words.
fn called_with(operator: &Operator, x: u64, y: u64, steps: &mut u64) -> Option<u64> {
    called(operator, Operands::Binary { x, y }, steps)
}

/// What an operator with a thunk gives for a word at a position.
fn called_at(
    operator: &Operator,
    x: u64,
    (row, column): (u64, u64),
    thunk: u64,
    steps: &mut u64,
) -> Option<u64> {
    let operands = Operands::Index {
        x,
        row,
        column,
        thunk,
    };
    called(operator, operands, steps)
}

/// The word at a position, unless the operator gives 0 for it.
fn selected(
    operator: &Operator,
    x: u64,
    position: (u64, u64),
    thunk: u64,
    steps: &mut u64,
) -> Option<u64> {
    match called_at(operator, x, position, thunk, steps) {
        Some(0) => None,
        _ => Some(x),
    }
}

/// What stands where two words may be met.
fn united(operator: &Operator, x: Option<u64>, y: Option<u64>, steps: &mut u64) -> Option<u64> {
    match (x, y) {
        (Some(x), Some(y)) => called_with(operator, x, y, steps),
        (Some(x), None) => Some(x),
        (None, y) => y,
    }
}

/// A row folded from its first word on.
fn folded(operator: &Operator, a: &Matrix, row: u64, steps: &mut u64) -> Option<u64> {
    let mut so_far = None;
    for k in 0..a.columns() {
        if let Some(y) = a.get(row, k) {
            so_far = match so_far {
                None => Some(y),
                Some(x) => called_with(operator, x, y, steps),
            };
        }
    }
    so_far
}

/// What stands at a position of a job's result.
fn value_at(
    job: Job,
    operator: &Operator,
    (a, b): (&Matrix, &Matrix),
    (row, column): (u64, u64),
    steps: &mut u64,
) -> Option<u64> {
    let (x, y) = (a.get(row, column), b.get(row, column));
    match job {
        Job::Apply(None) => called(operator, Operands::Unary { x: x? }, steps),
        Job::Apply(Some(thunk)) => called_at(operator, x?, (row, column), thunk, steps),
        Job::Select(thunk) => selected(operator, x?, (row, column), thunk, steps),
        Job::Union => united(operator, x, y, steps),
        Job::Both => called_with(operator, x?, y?, steps),
        Job::Reduce => folded(operator, a, row, steps),
    }
}

/// A position of a matrix has this value, or none.
fn assert_value(rt: &impl Abort, matrix: &Matrix, row: u64, column: u64, wanted: Option<u64>) {
    assert_eq!(rt; matrix.get(row, column), wanted, "at {row}, {column}");
}

/// A matrix has so many entries, and took so many steps.
fn assert_totals(rt: &impl Abort, matrix: &Matrix, spent: u64, entries: u64, steps: u64) {
    assert_eq!(rt; (matrix.entries(), spent), (entries, steps));
}

/// What the reference says of a position, where it passes a mask.
fn value_under(
    job: Job,
    operator: &Operator,
    (a, b, mask): (&Matrix, &Matrix, Option<&Matrix>),
    (row, column): (u64, u64),
    steps: &mut u64,
) -> Option<u64> {
    match passes(mask, row, column) {
        true => value_at(job, operator, (a, b), (row, column), steps),
        false => None,
    }
}

/// Each position of a matrix has the value of the reference. How many have one, and the steps that
/// they took.
fn assert_values(
    rt: &impl Abort,
    matrix: &Matrix,
    job: Job,
    operator: &Operator,
    sources: (&Matrix, &Matrix, Option<&Matrix>),
) -> (u64, u64) {
    let mut steps = 0;
    let mut entries: u64 = 0;
    for row in 0..sources.0.rows() {
        for column in 0..columns_of(job, sources.0) {
            let wanted = value_under(job, operator, sources, (row, column), &mut steps);
            assert_value(rt, matrix, row, column, wanted);
            entries = entries.wrapping_add(wanted.is_some() as u64);
        }
    }
    (entries, steps)
}

/// The whole result of a job and its steps, where everything fits.
fn done<'m>(
    alloc: Global,
    job: Job,
    operator: &Operator,
    sources: (&'m Matrix, &'m Matrix, Option<&'m Matrix>),
    middle: u64,
) -> Result<(Matrix, u64), Fail> {
    let mut calls = Calls::new(alloc)?;
    match whole(alloc, &mut calls, job, operator, sources, middle)? {
        Some(done) => Ok(done),
        None => Err(AllocError.into()),
    }
}

/// The same by the operator that the tests take for the job.
fn done_for<'m>(
    alloc: Global,
    job: Job,
    sources: (&'m Matrix, &'m Matrix, Option<&'m Matrix>),
    middle: u64,
) -> Result<(Matrix, u64), Fail> {
    let operator = operator_for(alloc, job)?;
    done(alloc, job, &operator, sources, middle)
}

/// What an operator makes is what the slow reference says, with its steps.
fn assert_done<'m>(
    rt: &impl Abort,
    alloc: Global,
    job: Job,
    operator: &Operator,
    sources: (&'m Matrix, &'m Matrix, Option<&'m Matrix>),
    middle: u64,
) -> Result<(), Fail> {
    let (result, spent) = done(alloc, job, operator, sources, middle)?;
    let (entries, steps) = assert_values(rt, &result, job, operator, sources);
    assert_totals(rt, &result, spent, entries, steps);
    Ok(())
}

/// A job's result is that of the slow reference, with its steps, wherever the range is cut in two.
fn assert_job<'m>(
    rt: &impl Abort,
    alloc: Global,
    job: Job,
    sources: (&'m Matrix, &'m Matrix, Option<&'m Matrix>),
    middle: u64,
) -> Result<(), Fail> {
    let operator = operator_for(alloc, job)?;
    assert_done(rt, alloc, job, &operator, sources, middle)
}

/// The jobs of the tests.
const JOBS: [Job; 8] = [
    Job::Apply(None),
    Job::Apply(Some(11)),
    Job::Select(0),
    Job::Select(2),
    Job::Select(u64::MAX),
    Job::Union,
    Job::Both,
    Job::Reduce,
];
