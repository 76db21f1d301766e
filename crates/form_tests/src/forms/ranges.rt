//! The functions for any range of rows against the slow reference, also where a range crosses runs
//! of 256 rows. A call that was refused memory has spent no more than the reference, and is asked
//! once more.
use super::*;
use entry_ops::{apply_rows, both_rows, reduce_rows, select_rows, union_rows};

/// The rows of the matrices: two runs and some more.
const ROWS: u64 = 600;

/// Ranges across runs, within one, of a whole one, of one row and of none.
const RANGES: [(u64, u64); 7] = [
    (0, 600),
    (200, 590),
    (255, 257),
    (256, 512),
    (300, 310),
    (599, 600),
    (256, 256),
];

/// A range of rows of a job's result.
fn range_of<'m>(
    rt: &impl Abort,
    alloc: Global,
    job: Job,
    operator: &Operator,
    (a, b, mask): (&'m Matrix, &'m Matrix, Option<&'m Matrix>),
    range: Range<u64>,
) -> Chunk {
    assert!(rt; range.start <= range.end);
    assert!(rt; range.end <= a.rows());
    if let Job::Reduce = job {
        assert!(rt; operator.kind() == Kind::Binary);
        assert!(rt; has_shape(mask, a.rows(), 1));
        return reduce_rows(alloc, a, operator, mask, range);
    }
    assert!(rt; b.rows() == a.rows());
    assert!(rt; b.columns() == a.columns());
    assert!(rt; has_shape(mask, a.rows(), a.columns()));
    match (job, operator.kind()) {
        (Job::Apply(None), Kind::Unary) => apply_rows(alloc, a, operator, None, mask, range),
        (Job::Apply(Some(thunk)), Kind::Index) => {
            apply_rows(alloc, a, operator, Some(thunk), mask, range)
        }
        (Job::Select(thunk), Kind::Index) => select_rows(alloc, a, operator, thunk, mask, range),
        (Job::Union, Kind::Binary) => union_rows(alloc, a, b, operator, mask, range),
        (Job::Both, Kind::Binary) => both_rows(alloc, a, b, operator, mask, range),
        _ => panic!(rt; "an operator of another kind"),
    }
}

/// The cells of these rows by the slow reference, row by row, with the steps of its calls added to
/// others.
fn reference_cells(
    alloc: Global,
    job: Job,
    operator: &Operator,
    sources: (&Matrix, &Matrix, Option<&Matrix>),
    range: Range<u64>,
    steps: &mut u64,
) -> Result<Vec<(u64, u64)>, AllocError> {
    let mut cells = Vec::new(alloc);
    for row in range.start..range.end {
        for column in 0..columns_of(job, sources.0) {
            if let Some(word) = value_under(job, operator, sources, (row, column), steps) {
                cells.push((column, word))?;
            }
        }
    }
    Ok(cells)
}

/// A range of rows has the cells of the slow reference, and takes its steps.
fn assert_range<'m>(
    rt: &impl Abort,
    alloc: Global,
    job: Job,
    operator: &Operator,
    sources: (&'m Matrix, &'m Matrix, Option<&'m Matrix>),
    (first, end): (u64, u64),
) -> Result<(), Fail> {
    let mut steps = 0;
    let wanted = reference_cells(alloc, job, operator, sources, first..end, &mut steps)?;
    let mut chunk = range_of(rt, alloc, job, operator, sources, first..end);
    if chunk.result.is_err() {
        assert!(rt; chunk.steps <= steps);
        chunk = range_of(rt, alloc, job, operator, sources, first..end);
    }
    let spent = chunk.steps;
    let rows = chunk.result?;
    assert_eq!(rt;
        (rows.first(), rows.len(), spent),
        (first, end.wrapping_sub(first), steps)
    );
    assert_eq!(rt; rows.cells(), wanted.as_slice());
    Ok(())
}

/// The same of each range.
fn assert_all_ranges<'m>(
    rt: &impl Abort,
    alloc: Global,
    job: Job,
    operator: &Operator,
    sources: (&'m Matrix, &'m Matrix, Option<&'m Matrix>),
) -> Result<(), Fail> {
    for range in &RANGES {
        assert_range(rt, alloc, job, operator, sources, *range)?;
    }
    Ok(())
}

/// A matrix of so many columns with a word at all positions but one of so many, and none in rows
/// 400 to 449.
fn patterned(alloc: Global, columns: u64, one_of: u64) -> Result<Matrix, Fail> {
    let mut entries: Vec<Triple> = Vec::new(alloc);
    for row in 0..ROWS {
        for column in 0..columns {
            let index = row.wrapping_mul(5).wrapping_add(column);
            if index.checked_rem(one_of) != Some(0) && (row < 400 || row >= 450) {
                entries.push((row, column, index ^ column))?;
            }
        }
    }
    matrix(alloc, (ROWS, columns), &entries)
}

/// The same of two matrices without a mask and with one, and of the first with itself.
fn assert_masked<'m>(
    rt: &impl Abort,
    alloc: Global,
    job: Job,
    operator: &Operator,
    a: &'m Matrix,
    b: &'m Matrix,
    mask: &'m Matrix,
) -> Result<(), Fail> {
    assert_all_ranges(rt, alloc, job, operator, (a, b, None))?;
    assert_all_ranges(rt, alloc, job, operator, (a, b, Some(mask)))?;
    assert_all_ranges(rt, alloc, job, operator, (a, a, None))
}

/// The rows of a job's result, in any range, are those of the reference.
fn assert_ranges(rt: &impl Abort, alloc: Global, job: Job) -> Result<(), Fail> {
    let operator = operator_for(alloc, job)?;
    let a = patterned(alloc, 3, 4)?;
    let b = patterned(alloc, 3, 7)?;
    let mask = patterned(alloc, columns_of(job, &a), 2)?;
    assert_masked(rt, alloc, job, &operator, &a, &b, &mask)
}

#[test]
fn apply_rows_of_any_range(rt: HostRuntime) -> Result<(), Fail> {
    assert_ranges(&rt, rt.alloc(), Job::Apply(None))?;
    assert_ranges(&rt, rt.alloc(), Job::Apply(Some(11)))
}

#[test]
fn select_rows_of_any_range(rt: HostRuntime) -> Result<(), Fail> {
    assert_ranges(&rt, rt.alloc(), Job::Select(2))
}

#[test]
fn union_rows_of_any_range(rt: HostRuntime) -> Result<(), Fail> {
    assert_ranges(&rt, rt.alloc(), Job::Union)
}

#[test]
fn both_rows_of_any_range(rt: HostRuntime) -> Result<(), Fail> {
    assert_ranges(&rt, rt.alloc(), Job::Both)
}

#[test]
fn reduce_rows_of_any_range(rt: HostRuntime) -> Result<(), Fail> {
    assert_ranges(&rt, rt.alloc(), Job::Reduce)
}
