//! The queue.
use super::*;

/// A form of price 3, which can't be refused.
fn small(alloc: Global) -> Result<Form, Fail> {
    let a = matrix(alloc, 1, 1, &[(0, 0, 1)])?;
    incrementing(alloc, a)
}

/// Puts such jobs into a queue, from one number up to another.
fn assert_numbers(
    rt: &impl Abort,
    alloc: Global,
    queue: &mut Queue,
    from: u64,
    to: u64,
) -> Result<(), Fail> {
    for number in from..to {
        assert_count(rt, submit(alloc, queue, small(alloc)?, None)?, number);
    }
    Ok(())
}

/// A plan has 64 such jobs, each in a chunk.
fn assert_jobs(rt: &impl Abort, plan: &Plan) {
    assert_count(rt, plan.jobs().len() as u64, 64);
    assert_count(rt, plan.chunks(), 64);
    for c in 0..plan.chunks() {
        assert_eq!(rt; plan.chunk(c), (c, 0..1, 3));
    }
}

#[test]
fn has_room_for_64_jobs(rt: HostRuntime) -> Result<(), Fail> {
    let mut queue = Queue::open(rt.alloc())?;
    assert_numbers(&rt, rt.alloc(), &mut queue, 1, 65)?;
    assert!(rt; !queue.has_room());
    assert_count(&rt, queue.len(), 64);
    let plan = queue.take()?;
    assert_jobs(&rt, &plan);
    assert_count(&rt, queue.len(), 0);
    assert!(rt; queue.has_room());
    Ok(())
}

/// The plan of a queue of one job, asked for once more where memory was refused: the job is then
/// still there.
fn take_again(rt: &impl Abort, queue: &mut Queue) -> Result<Plan, AllocError> {
    match queue.take() {
        Ok(plan) => Ok(plan),
        Err(_) => {
            assert_count(rt, queue.jobs().len() as u64, 1);
            queue.take()
        }
    }
}

#[test]
fn refused_take_leaves_the_jobs(rt: HostRuntime) -> Result<(), Fail> {
    let mut queue = Queue::open(rt.alloc())?;
    submit(rt.alloc(), &mut queue, small(rt.alloc())?, None)?;
    let plan = take_again(&rt, &mut queue)?;
    assert_count(&rt, plan.chunks(), 1);
    assert_count(&rt, queue.take()?.chunks(), 0);
    Ok(())
}

#[test]
fn clear_forgets_the_jobs(rt: HostRuntime) -> Result<(), Fail> {
    let mut queue = Queue::open(rt.alloc())?;
    assert_numbers(&rt, rt.alloc(), &mut queue, 1, 3)?;
    assert_count(&rt, queue.len(), 2);
    queue.clear();
    assert_count(&rt, queue.len(), 0);
    assert_count(&rt, queue.take()?.jobs().len() as u64, 0);
    Ok(())
}
