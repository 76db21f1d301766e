//! Small matrices, at random and by hand.
use super::*;

/// A sequence of numbers that looks like chance.
#[derive(Drop)]
struct Chance {
    state: u64,
}

impl Chance {
    /// A number below a bound, which is not 0.
    fn below(&mut self, bound: u64) -> u64 {
        self.state = self
            .state
            .wrapping_mul(6_364_136_223_846_793_005)
            .wrapping_add(1_442_695_040_888_963_407);
        (self.state >> 33) % bound.max(1)
    }
}

/// A matrix with a word at about so many of eight positions, 0 among the words.
fn random(
    alloc: Global,
    chance: &mut Chance,
    (rows, columns): (u64, u64),
    eighths: u64,
) -> Result<Matrix, Fail> {
    let mut entries: Vec<Triple> = Vec::new(alloc);
    for row in 0..rows {
        for column in 0..columns {
            if chance.below(8) < eighths {
                entries.push((row, column, chance.below(5)))?;
            }
        }
    }
    matrix(alloc, (rows, columns), &entries)
}

/// A job's result is that of the reference, without a mask and with one.
fn assert_masked<'m>(
    rt: &impl Abort,
    alloc: Global,
    job: Job,
    a: &'m Matrix,
    b: &'m Matrix,
    mask: &'m Matrix,
    middle: u64,
) -> Result<(), Fail> {
    assert_job(rt, alloc, job, (a, b, None), middle)?;
    assert_job(rt, alloc, job, (a, b, Some(mask)), middle)
}

/// The sizes of the random matrices.
const SHAPES: [(u64, u64); 8] = [
    (1, 1),
    (5, 1),
    (1, 9),
    (6, 7),
    (3, 70),
    (40, 3),
    (0, 4),
    (4, 0),
];

/// All jobs have the results of the reference; a reduction has a mask of its own, of one column.
fn assert_jobs<'m>(
    rt: &impl Abort,
    alloc: Global,
    a: &'m Matrix,
    b: &'m Matrix,
    mask: &'m Matrix,
    column: &'m Matrix,
    middle: u64,
) -> Result<(), Fail> {
    for job in &JOBS {
        match job {
            Job::Reduce => assert_masked(rt, alloc, *job, a, b, column, middle)?,
            _ => assert_masked(rt, alloc, *job, a, b, mask, middle)?,
        }
    }
    Ok(())
}

/// The same of random matrices of these sizes, with a word at about so many of eight positions.
fn assert_random(
    rt: &impl Abort,
    alloc: Global,
    chance: &mut Chance,
    shape: (u64, u64),
    eighths: u64,
) -> Result<(), Fail> {
    let a = random(alloc, chance, shape, eighths)?;
    let b = random(alloc, chance, shape, 4)?;
    let mask = random(alloc, chance, shape, 3)?;
    let column = random(alloc, chance, (shape.0, 1), 4)?;
    let middle = chance.below(shape.0.saturating_add(1));
    assert_jobs(rt, alloc, &a, &b, &mask, &column, middle)
}

#[test]
fn random_matrices(rt: HostRuntime) -> Result<(), Fail> {
    let mut chance = Chance { state: 7 };
    for shape in &SHAPES {
        for eighths in &[0, 2, 5, 8] {
            assert_random(&rt, rt.alloc(), &mut chance, *shape, *eighths)?;
        }
    }
    Ok(())
}

/// A job with or without a mask, the entries that it gives, and its steps.
struct Case {
    job: Job,
    is_masked: bool,
    entries: &'static [Triple],
    steps: u64,
}

/// Jobs on the first matrix. With the thunk 9 the values are (2 (4 + 0) xor 0) + 9, (2 (1 + 0) xor
/// 2) + 9 and (2 (6 + 1) xor 1) + 9.
const APPLIED: [Case; 4] = [
    Case {
        job: Job::Apply(None),
        is_masked: false,
        entries: &[(0, 0, 13), (0, 2, 4), (1, 1, 19)],
        steps: 12,
    },
    Case {
        job: Job::Apply(None),
        is_masked: true,
        entries: &[(0, 0, 13), (1, 1, 19)],
        steps: 8,
    },
    Case {
        job: Job::Apply(Some(9)),
        is_masked: false,
        entries: &[(0, 0, 17), (0, 2, 9), (1, 1, 24)],
        steps: 18,
    },
    Case {
        job: Job::Select(0),
        is_masked: false,
        entries: &[(0, 0, 4), (1, 1, 6)],
        steps: 14,
    },
];

/// What stands where both matrices have a word: 2 * 1 - 10 is -8, and that xor 5 is -3.
const MET: Triple = (0, 2, u64::MAX - 2);

/// Jobs on both matrices.
const JOINED: [Case; 4] = [
    Case {
        job: Job::Union,
        is_masked: false,
        entries: &[(0, 0, 4), MET, (1, 0, 3), (1, 1, 6)],
        steps: 6,
    },
    Case {
        job: Job::Union,
        is_masked: true,
        entries: &[(0, 0, 4), (1, 1, 6)],
        steps: 0,
    },
    Case {
        job: Job::Both,
        is_masked: false,
        entries: &[MET],
        steps: 6,
    },
    Case {
        job: Job::Both,
        is_masked: true,
        entries: &[],
        steps: 0,
    },
];

/// A case's result has its entries and no others, and takes its steps.
fn assert_entries<'m>(
    rt: &impl Abort,
    alloc: Global,
    sources: (&'m Matrix, &'m Matrix, Option<&'m Matrix>),
    case: &Case,
) -> Result<(), Fail> {
    let (result, spent) = done_for(alloc, case.job, sources, 1)?;
    for (row, column, value) in case.entries {
        assert_value(rt, &result, *row, *column, Some(*value));
    }
    assert_totals(rt, &result, spent, case.entries.len() as u64, case.steps);
    Ok(())
}

/// A case comes out on two small matrices, or under a mask with the value 0 at two positions.
fn assert_by_hand(rt: &impl Abort, alloc: Global, case: &Case) -> Result<(), Fail> {
    let a = matrix(alloc, (2, 3), &[(0, 0, 4), (0, 2, 1), (1, 1, 6)])?;
    let b = matrix(alloc, (2, 3), &[(0, 2, 10), (1, 0, 3)])?;
    let mask = matrix(alloc, (2, 3), &[(0, 0, 0), (1, 1, 0)])?;
    match case.is_masked {
        false => assert_entries(rt, alloc, (&a, &b, None), case),
        true => assert_entries(rt, alloc, (&a, &b, Some(&mask)), case),
    }
}

/// Each of these jobs has its entries and takes its steps.
fn assert_all_by_hand(rt: &impl Abort, alloc: Global, cases: &[Case]) -> Result<(), Fail> {
    for case in cases {
        assert_by_hand(rt, alloc, case)?;
    }
    Ok(())
}

#[test]
fn applied_by_hand(rt: HostRuntime) -> Result<(), Fail> {
    assert_all_by_hand(&rt, rt.alloc(), &APPLIED)
}

#[test]
fn joined_by_hand(rt: HostRuntime) -> Result<(), Fail> {
    assert_all_by_hand(&rt, rt.alloc(), &JOINED)
}

/// A reduction gives 24, nothing and this in ten steps.
fn assert_folded<'m>(
    rt: &impl Abort,
    alloc: Global,
    sources: (&'m Matrix, &'m Matrix, Option<&'m Matrix>),
    last: Option<u64>,
) -> Result<(), Fail> {
    let (result, spent) = done_for(alloc, Job::Reduce, sources, 2)?;
    assert_value(rt, &result, 0, 0, Some(24));
    assert_value(rt, &result, 1, 0, None);
    assert_value(rt, &result, 2, 0, last);
    assert_eq!(rt; (result.columns(), spent), (1, 10));
    Ok(())
}

/// A matrix of three rows is folded so, without a mask or under one.
fn assert_fold(
    rt: &impl Abort,
    alloc: Global,
    masked: bool,
    last: Option<u64>,
) -> Result<(), Fail> {
    let entries = [(0, 0, 9), (0, 1, 5), (0, 3, 2), (2, 2, 8)];
    let a = matrix(alloc, (3, 4), &entries)?;
    let mask = matrix(alloc, (3, 1), &[(0, 0, 0), (1, 0, 7)])?;
    match masked {
        false => assert_folded(rt, alloc, (&a, &a, None), last),
        true => assert_folded(rt, alloc, (&a, &a, Some(&mask)), last),
    }
}

#[test]
fn folds_from_the_left(rt: HostRuntime) -> Result<(), Fail> {
    // 2 * 9 - 5 = 13, and 2 * 13 - 2 = 24; each call takes 5 steps, since its first operand is
    // above the second
    assert_fold(&rt, rt.alloc(), false, Some(8))?;
    assert_fold(&rt, rt.alloc(), true, None)
}
