//! Copies of the columns of a batch.
use super::*;

/// A row of ones, whose product with a column multiplies once for each of the column's entries.
fn row_of_ones(alloc: Global, columns: u64) -> Result<Version, Fail> {
    full(alloc, 1, columns)
}

/// A column of so many rows, of which the first ones have a value.
fn column(alloc: Global, rows: u64, entries: u64, value: u64) -> Result<Version, Fail> {
    let mut builder = Builder::new(alloc, rows.min(16_777_216), 1);
    for i in 0..entries {
        builder.put(i, 0, value)?;
    }
    Ok(version(alloc, builder)?)
}

/// Submits a product of two versions, whose owners stay.
fn multiply(alloc: Global, queue: &mut Queue, left: &Version, right: &Version) -> Result<(), Fail> {
    let form = multiplying(alloc, Arc::try_clone(left)?, Arc::try_clone(right)?)?;
    submit(alloc, queue, form, None)?;
    Ok(())
}

/// So many copies exist.
fn assert_copies(rt: &impl Abort, plan: &Plan, wanted: u64) {
    assert_count(rt, plan.copies().len() as u64, wanted);
}

/// A job has a copy, or has none.
fn assert_lent(rt: &impl Abort, plan: &Plan, job: u64, wanted: bool) {
    assert_eq!(rt; plan.column(job).is_some(), wanted);
}

#[test]
fn one_for_64_jobs_by_a_column(rt: HostRuntime) -> Result<(), Fail> {
    let mut queue = Queue::open(rt.alloc())?;
    let ones = row_of_ones(rt.alloc(), 100)?;
    let by = column(rt.alloc(), 100, 100, 7)?;
    for _ in 0..64 {
        multiply(rt.alloc(), &mut queue, &ones, &by)?;
    }
    let plan = queue.take()?;
    assert_copies(&rt, &plan, 1);
    for job in 0..64 {
        assert_lent(&rt, &plan, job, true);
    }
    Ok(())
}

#[test]
fn one_for_each_of_several_versions(rt: HostRuntime) -> Result<(), Fail> {
    let mut queue = Queue::open(rt.alloc())?;
    let ones = row_of_ones(rt.alloc(), 100)?;
    let sevens = column(rt.alloc(), 100, 100, 7)?;
    let nines = column(rt.alloc(), 100, 100, 9)?;
    multiply(rt.alloc(), &mut queue, &ones, &sevens)?;
    multiply(rt.alloc(), &mut queue, &ones, &nines)?;
    multiply(rt.alloc(), &mut queue, &ones, &sevens)?;
    multiply(rt.alloc(), &mut queue, &ones, &nines)?;
    let plan = queue.take()?;
    assert_copies(&rt, &plan, 2);
    for job in 0..4 {
        assert_lent(&rt, &plan, job, true);
    }
    Ok(())
}

#[test]
fn one_for_equal_columns(rt: HostRuntime) -> Result<(), Fail> {
    let mut queue = Queue::open(rt.alloc())?;
    let ones = row_of_ones(rt.alloc(), 100)?;
    for _ in 0..3 {
        let by = column(rt.alloc(), 100, 100, 7)?;
        multiply(rt.alloc(), &mut queue, &ones, &by)?;
    }
    let plan = queue.take()?;
    assert_copies(&rt, &plan, 1);
    assert_lent(&rt, &plan, 2, true);
    Ok(())
}

/// A column of a hundred ones, but for its last value.
fn ending_in(alloc: Global, last: u64) -> Result<Version, Fail> {
    let mut builder = Builder::new(alloc, 100, 1);
    for i in 0..99 {
        builder.put(i, 0, 1)?;
    }
    builder.put(99, 0, last)?;
    Ok(version(alloc, builder)?)
}

#[test]
fn none_where_many_differ_late(rt: HostRuntime) -> Result<(), Fail> {
    let mut queue = Queue::open(rt.alloc())?;
    let ones = row_of_ones(rt.alloc(), 100)?;
    for last in 0..8 {
        multiply(rt.alloc(), &mut queue, &ones, &ending_in(rt.alloc(), last)?)?;
    }
    let plan = queue.take()?;
    assert_copies(&rt, &plan, 5);
    assert_lent(&rt, &plan, 4, true);
    assert_lent(&rt, &plan, 5, false);
    Ok(())
}

#[test]
fn none_for_a_cheap_product(rt: HostRuntime) -> Result<(), Fail> {
    let mut queue = Queue::open(rt.alloc())?;
    let one = matrix(rt.alloc(), 1, 100, &[(0, 0, 1)])?;
    let by = column(rt.alloc(), 100, 100, 7)?;
    multiply(rt.alloc(), &mut queue, &one, &by)?;
    let plan = queue.take()?;
    assert_copies(&rt, &plan, 0);
    assert_lent(&rt, &plan, 0, false);
    Ok(())
}

#[test]
fn those_behind_the_first_are_no_larger_than_their_cells(rt: HostRuntime) -> Result<(), Fail> {
    let mut queue = Queue::open(rt.alloc())?;
    let ones = full(rt.alloc(), 4, 128)?;
    for entries in [64, 65, 64, 63] {
        let by = column(rt.alloc(), 128, entries, entries)?;
        multiply(rt.alloc(), &mut queue, &ones, &by)?;
    }
    let plan = queue.take()?;
    assert_copies(&rt, &plan, 2);
    assert_lent(&rt, &plan, 2, true);
    assert_lent(&rt, &plan, 3, false);
    Ok(())
}
