//! Long rows, and many rows.
use super::*;

/// The entries of the long row.
const COUNT: u64 = 100_000;

/// A matrix whose second row is long, with a word in every column, or in every third.
fn long(alloc: Global, thirds: bool) -> Result<Matrix, Fail> {
    let mut entries: Vec<Triple> = Vec::new(alloc);
    for k in 0..COUNT {
        match thirds {
            false => entries.push((1, k, k ^ 5))?,
            true if k % 3 == 0 => entries.push((1, k, 0))?,
            true => {}
        }
    }
    matrix(alloc, (2, COUNT), &entries)
}

#[test]
fn long_row(rt: HostRuntime) -> Result<(), Fail> {
    let a = long(rt.alloc(), false)?;
    let third = long(rt.alloc(), true)?;
    assert_job(
        &rt,
        rt.alloc(),
        Job::Apply(Some(1)),
        (&a, &third, Some(&third)),
        2,
    )?;
    assert_job(&rt, rt.alloc(), Job::Select(50_000), (&a, &third, None), 2)?;
    assert_job(&rt, rt.alloc(), Job::Union, (&third, &a, None), 1)
}

/// The last rows of a job on a matrix with itself, from one on.
fn last_rows<'m>(alloc: Global, a: &'m Matrix, job: Job, first: u64) -> Result<Chunk, Fail> {
    let operator = operator_for(alloc, job)?;
    let mut calls = Calls::new(alloc)?;
    match chunk_of(
        alloc,
        &mut calls,
        job,
        &operator,
        (a, a, None),
        first..LIMIT,
    ) {
        Some(chunk) => Ok(chunk),
        None => Err(AllocError.into()),
    }
}

/// These rows are there, and took so many steps.
fn assert_last_rows<'m>(
    rt: &impl Abort,
    alloc: Global,
    a: &'m Matrix,
    job: Job,
    first: u64,
    spent: u64,
) -> Result<(), Fail> {
    let chunk = last_rows(alloc, a, job, first)?;
    let done = chunk.result?;
    assert_eq!(rt;
        (done.first(), done.len(), chunk.steps),
        (first, LIMIT.wrapping_sub(first), spent)
    );
    Ok(())
}

#[test]
fn most_rows_with_nothing(rt: HostRuntime) -> Result<(), Fail> {
    let a = matrix(rt.alloc(), (LIMIT, 1), &[(LIMIT - 1, 0, 3)])?;
    assert_last_rows(&rt, rt.alloc(), &a, Job::Union, LIMIT - 256, 6)?;
    assert_last_rows(&rt, rt.alloc(), &a, Job::Both, LIMIT - 256, 6)?;
    assert_last_rows(&rt, rt.alloc(), &a, Job::Reduce, LIMIT - 256, 0)
}

/// A range of rows of the result, which has one column.
fn chunk_of<'m>(
    alloc: Global,
    calls: &mut Calls,
    job: Job,
    operator: &Operator,
    (a, b, mask): (&'m Matrix, &'m Matrix, Option<&'m Matrix>),
    range: Range<u64>,
) -> Option<Chunk> {
    rows_of(alloc, calls, job, operator, a, b, mask, 1, range)
}
