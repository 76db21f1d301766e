//! How jobs are cut.
use super::*;

/// The plan of one job, an apply on a matrix.
fn plan_of(alloc: Global, operand: Version) -> Result<Plan, Fail> {
    let mut queue = Queue::open(alloc)?;
    submit(alloc, &mut queue, incrementing(alloc, operand)?, None)?;
    Ok(queue.take()?)
}

/// A chunk: its job, its rows from one up to another, and their price.
#[derive(Clone, Copy, Debug, PartialEq)]
struct Piece {
    job: u64,
    first: u64,
    end: u64,
    price: u64,
}

/// The first 256 rows of an apply on a diagonal.
const FIRST: Piece = Piece {
    job: 0,
    first: 0,
    end: 256,
    price: 768,
};

/// The next 256 rows.
const SECOND: Piece = Piece {
    job: 0,
    first: 256,
    end: 512,
    price: 768,
};

/// A plan has these chunks.
fn assert_chunks(rt: &impl Abort, plan: &Plan, wanted: &[Piece]) {
    assert_count(rt, plan.chunks(), wanted.len() as u64);
    for c in 0..plan.chunks() {
        let (job, rows, price) = plan.chunk(c);
        let piece = Piece {
            job,
            first: rows.start,
            end: rows.end,
            price,
        };
        assert_eq!(rt; Some(&piece), wanted.get(c as usize));
    }
}

/// The chunks of 600 rows.
const SHORTER: [Piece; 3] = [
    FIRST,
    SECOND,
    Piece {
        job: 0,
        first: 512,
        end: 600,
        price: 264,
    },
];

#[test]
fn last_chunk_is_shorter(rt: HostRuntime) -> Result<(), Fail> {
    let plan = plan_of(rt.alloc(), diagonal(rt.alloc(), 600)?)?;
    assert_chunks(&rt, &plan, &SHORTER);
    Ok(())
}

/// The chunks of 512 rows.
const WHOLE: [Piece; 2] = [FIRST, SECOND];

/// The chunks of 257 rows.
const WITH_ONE_MORE: [Piece; 2] = [
    FIRST,
    Piece {
        job: 0,
        first: 256,
        end: 257,
        price: 3,
    },
];

#[test]
fn whole_chunks_alone(rt: HostRuntime) -> Result<(), Fail> {
    let plan = plan_of(rt.alloc(), diagonal(rt.alloc(), 512)?)?;
    assert_chunks(&rt, &plan, &WHOLE);
    let plan = plan_of(rt.alloc(), diagonal(rt.alloc(), 257)?)?;
    assert_chunks(&rt, &plan, &WITH_ONE_MORE);
    Ok(())
}

#[test]
fn no_rows_no_chunk(rt: HostRuntime) -> Result<(), Fail> {
    let plan = plan_of(rt.alloc(), matrix(rt.alloc(), 0, 5, &[])?)?;
    assert_count(&rt, plan.chunks(), 0);
    assert_count(&rt, plan.jobs().len() as u64, 1);
    Ok(())
}

/// The plan of three jobs: an apply, one of no rows, and the product of the first's operand with
/// itself.
fn plan_of_three(alloc: Global) -> Result<Plan, Fail> {
    let mut queue = Queue::open(alloc)?;
    let a = diagonal(alloc, 300)?;
    let whole = incrementing(alloc, Arc::try_clone(&a)?)?;
    submit(alloc, &mut queue, whole, None)?;
    let none = matrix(alloc, 0, 0, &[])?;
    submit(alloc, &mut queue, incrementing(alloc, none)?, None)?;
    let product = multiplying(alloc, Arc::try_clone(&a)?, a)?;
    let mask = matrix(alloc, 300, 300, &[(299, 0, 0)])?;
    submit(alloc, &mut queue, product, Some(mask))?;
    Ok(queue.take()?)
}

/// The chunks of these jobs.
const OF_THREE: [Piece; 4] = [
    FIRST,
    Piece {
        job: 0,
        first: 256,
        end: 300,
        price: 132,
    },
    Piece {
        job: 2,
        first: 0,
        end: 256,
        price: 0,
    },
    Piece {
        job: 2,
        first: 256,
        end: 300,
        price: 6,
    },
];

#[test]
fn chunks_of_several_jobs_follow_one_another(rt: HostRuntime) -> Result<(), Fail> {
    let plan = plan_of_three(rt.alloc())?;
    assert_chunks(&rt, &plan, &OF_THREE);
    Ok(())
}
