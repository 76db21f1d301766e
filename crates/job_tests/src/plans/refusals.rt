//! What comes back with a refusal.
use super::*;

/// A product of a matrix with itself, whose shapes don't fit.
fn unfit(alloc: Global) -> Result<Job, Fail> {
    let a = matrix(alloc, 1, 2, &[(0, 0, 1)])?;
    let mask = matrix(alloc, 1, 2, &[])?;
    let product = multiplying(alloc, Arc::try_clone(&a)?, a)?;
    job(alloc, product, Some(mask))
}

/// A job is the one that was handed in.
fn assert_unfit(rt: &impl Abort, job: &Job) {
    assert_eq!(rt; job.output(), "C");
    assert!(rt; job.mask().is_some());
    let is_product = matches!(job.form(), Form::Product { .. });
    assert!(rt; is_product);
}

#[test]
fn job_comes_back_with_its_fault(rt: HostRuntime) -> Result<(), Fail> {
    let Err(refused) = Priced::of(unfit(rt.alloc())?) else {
        assert!(rt; false);
        return Ok(());
    };
    let (job, error) = refused;
    assert_eq!(rt; error.name(), "J5");
    assert_unfit(&rt, &job);
    Ok(())
}
