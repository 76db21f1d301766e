//! Batches with their matrices and steps worked out by hand.
use bpf_insn::Kind;
use bpf_verify::Operator;
use csr_store::{Builder, Matrix, Version};
use job_plan::{Form, Job, Plan, Priced, Queue};
use job_runner::{BatchAnswer, Open, run_batch};
use race_board::Board;
use std::alloc::{AllocError, Global};
use std::process::Abort;
use std::sync::{Arc, Wait};
use std::test::Fail;
use std::thread::Threads;
use test_operators::{INCREMENT, MULTIPLY, SUBTRACT, assembled};

mod passes;
mod seats;
mod workers;

/// What workers share: a plan, and the board on which its chunks are drawn.
#[derive(Clone, Copy)]
struct Task<'a> {
    plan: &'a Plan,
    board: &'a Board,
}

/// A row and a column, from 0, and the value that stands there.
type Entry = (u64, u64, u64);

/// The operator of a text that is right, with several owners.
fn operator(alloc: Global, kind: Kind, text: &str) -> Result<Arc<Operator>, AllocError> {
    let operator = assembled(alloc, kind, text).map_err(|_| AllocError)?;
    Ok(Arc::new(alloc, operator)?)
}

/// A matrix of these entries.
fn matrix(alloc: Global, rows: u32, columns: u32, entries: &[Entry]) -> Result<Version, Fail> {
    let mut builder = Builder::new(alloc, u64::from(rows) % 4096, u64::from(columns) % 4096);
    for (row, column, value) in entries {
        builder.put(*row, *column, *value)?;
    }
    Ok(version(alloc, builder)?)
}

/// The matrix of a builder, with several owners.
fn version(alloc: Global, builder: Builder) -> Result<Version, AllocError> {
    match builder.finish() {
        Ok(matrix) => Ok(Arc::new(alloc, matrix)?),
        Err(_) => Err(AllocError),
    }
}

/// The matrix with 1, 2 and so on down its diagonal.
fn diagonal(alloc: Global, rows: u32) -> Result<Version, AllocError> {
    let rows = u64::from(rows) % 4096;
    let mut builder = Builder::new(alloc, rows, rows);
    for row in 0..rows {
        put(&mut builder, row, row + 1)?;
    }
    version(alloc, builder)
}

/// Puts a value on the diagonal.
fn put(builder: &mut Builder, row: u64, value: u64) -> Result<(), AllocError> {
    match builder.put(row, row, value) {
        Ok(()) => Ok(()),
        Err(_) => Err(AllocError),
    }
}

/// Puts a job into a queue.
fn submit(
    rt: &impl Abort,
    alloc: Global,
    queue: &mut Queue,
    form: Form,
    mask: Option<Version>,
) -> Result<(), AllocError> {
    match Priced::of(Job::new(form, mask, String::new(alloc))) {
        Ok(priced) => {
            assert!(rt; queue.has_room());
            queue.submit(priced);
            Ok(())
        }
        Err(_) => panic!(rt; "refused"),
    }
}

/// The plan of one job.
fn plan_of(rt: &impl Abort, alloc: Global, form: Form) -> Result<Plan, AllocError> {
    let mut queue = Queue::open(alloc)?;
    submit(rt, alloc, &mut queue, form, None)?;
    queue.take()
}

/// A batch that isn't refused, on the calling thread alone.
fn answer<H: Threads + Wait + Abort>(rt: &H, alloc: Global, plan: &Plan) -> BatchAnswer {
    match run_batch(rt, alloc, plan, 1, &Open) {
        Ok(answer) => answer,
        Err(_) => panic!(rt; "no memory"),
    }
}

/// Whether a job has these entries, and took so many steps.
fn is(answer: &BatchAnswer, job: usize, entries: &[Entry], steps: u64) -> bool {
    let Some(result) = answer.results.get(job) else {
        return false;
    };
    let matrix: &Matrix = &result.version;
    for (row, column, value) in entries {
        if matrix.get(*row, *column) != Some(*value) {
            return false;
        }
    }
    matrix.entries() == entries.len() as u64 && result.steps == steps
}

/// The plan of one job that adds one to each entry of a diagonal.
fn increments(rt: &impl Abort, alloc: Global, rows: u32) -> Result<Plan, AllocError> {
    let form = Form::Apply {
        operator: operator(alloc, Kind::Unary, INCREMENT)?,
        thunk: None,
        operand: diagonal(alloc, rows)?,
    };
    plan_of(rt, alloc, form)
}

/// Whether such a job gave its matrix and its steps, each call at this cost.
fn is_incremented(answer: &BatchAnswer, rows: u64, cost: u64) -> bool {
    let Some(result) = answer.results.get(0) else {
        return false;
    };
    for row in 0..rows {
        if result.version.get(row, row) != Some(row.wrapping_add(2)) {
            return false;
        }
    }
    answer.results.len() == 1
        && result.version.entries() == rows
        && result.steps == rows.wrapping_mul(cost)
}

#[test]
fn three_chunks_of_a_diagonal(rt: HostRuntime) -> Result<(), Fail> {
    let plan = increments(&rt, rt.alloc(), 600)?;
    assert_eq!(rt; plan.chunks(), 3);
    let answer = answer(&rt, rt.alloc(), &plan);
    assert!(rt; is_incremented(&answer, 600, 3));
    Ok(())
}

#[test]
fn no_jobs(rt: HostRuntime) -> Result<(), Fail> {
    let plan = Queue::open(rt.alloc())?.take()?;
    assert_eq!(rt; plan.chunks(), 0);
    assert!(rt; answer(&rt, rt.alloc(), &plan).results.is_empty());
    Ok(())
}

/// The plan of a reduction of no rows.
fn reduction_of_nothing(rt: &impl Abort, alloc: Global) -> Result<Plan, AllocError> {
    let form = Form::Reduce {
        operator: operator(alloc, Kind::Binary, SUBTRACT)?,
        operand: diagonal(alloc, 0)?,
    };
    plan_of(rt, alloc, form)
}

#[test]
fn no_rows(rt: HostRuntime) -> Result<(), Fail> {
    let plan = reduction_of_nothing(&rt, rt.alloc())?;
    assert_eq!(rt; plan.chunks(), 0);
    assert!(rt; is(&answer(&rt, rt.alloc(), &plan), 0, &[], 0));
    Ok(())
}

/// The operators and the operands that jobs of each form share.
#[derive(Drop)]
struct Common {
    sub: Arc<Operator>,
    index: Arc<Operator>,
    a: Version,
    b: Version,
}

/// These operators and operands.
fn shared(alloc: Global) -> Result<Common, Fail> {
    let a = [(0, 0, 10), (0, 1, 3), (0, 2, 2), (1, 1, 1)];
    let b = [(0, 0, 4), (1, 0, 5), (1, 1, 1)];
    Ok(Common {
        sub: operator(alloc, Kind::Binary, SUBTRACT)?,
        index: operator(alloc, Kind::Index, SUBTRACT)?,
        a: matrix(alloc, 2, 3, &a)?,
        b: matrix(alloc, 2, 3, &b)?,
    })
}

/// An apply with a thunk.
fn apply(shared: &Common) -> Result<Form, Fail> {
    Ok(Form::Apply {
        operator: Arc::try_clone(&shared.index)?,
        thunk: Some(0),
        operand: Arc::try_clone(&shared.a)?,
    })
}

/// A selection.
fn select(shared: &Common) -> Result<Form, Fail> {
    Ok(Form::Select {
        operator: Arc::try_clone(&shared.index)?,
        thunk: 0,
        operand: Arc::try_clone(&shared.a)?,
    })
}

/// A union.
fn union_of(shared: &Common) -> Result<Form, Fail> {
    Ok(Form::Union {
        operator: Arc::try_clone(&shared.sub)?,
        left: Arc::try_clone(&shared.a)?,
        right: Arc::try_clone(&shared.b)?,
    })
}

/// What stands in both.
fn both(shared: &Common) -> Result<Form, Fail> {
    Ok(Form::Both {
        operator: Arc::try_clone(&shared.sub)?,
        left: Arc::try_clone(&shared.a)?,
        right: Arc::try_clone(&shared.b)?,
    })
}

/// A product with a column.
fn product(alloc: Global, shared: &Common) -> Result<Form, Fail> {
    let right = matrix(alloc, 3, 1, &[(0, 0, 1), (1, 0, 2)])?;
    Ok(Form::Product {
        add: Arc::try_clone(&shared.sub)?,
        mul: operator(alloc, Kind::Binary, MULTIPLY)?,
        left: Arc::try_clone(&shared.a)?,
        right,
    })
}

/// A reduction.
fn reduce(shared: &Common) -> Result<Form, Fail> {
    Ok(Form::Reduce {
        operator: Arc::try_clone(&shared.sub)?,
        operand: Arc::try_clone(&shared.a)?,
    })
}

/// The plan of a job of each form, of which one has a mask.
fn each(rt: &impl Abort, alloc: Global, shared: &Common) -> Result<Plan, Fail> {
    let mut queue = Queue::open(alloc)?;
    submit(rt, alloc, &mut queue, apply(shared)?, None)?;
    submit(rt, alloc, &mut queue, select(shared)?, None)?;
    submit(rt, alloc, &mut queue, union_of(shared)?, None)?;
    let mask = matrix(alloc, 2, 3, &[(0, 0, 0), (1, 0, 0)])?;
    submit(rt, alloc, &mut queue, both(shared)?, Some(mask))?;
    submit(rt, alloc, &mut queue, product(alloc, shared)?, None)?;
    submit(rt, alloc, &mut queue, reduce(shared)?, None)?;
    Ok(queue.take()?)
}

/// What a job gives: its entries, and the steps that they took.
struct Given {
    entries: &'static [Entry],
    steps: u64,
}

/// What the jobs give, in their order.
const EACH: [Given; 6] = [
    Given {
        entries: &[(0, 0, 10), (0, 1, 3), (0, 2, 2), (1, 1, 0)],
        steps: 12,
    },
    Given {
        entries: &[(0, 0, 10), (0, 1, 3), (0, 2, 2)],
        steps: 12,
    },
    Given {
        entries: &[(0, 0, 6), (0, 1, 3), (0, 2, 2), (1, 0, 5), (1, 1, 0)],
        steps: 6,
    },
    Given {
        entries: &[(0, 0, 6)],
        steps: 3,
    },
    Given {
        entries: &[(0, 0, 4), (1, 0, 2)],
        steps: 12,
    },
    Given {
        entries: &[(0, 0, 5), (1, 0, 1)],
        steps: 6,
    },
];

/// Each job gives what is wanted of it.
fn assert_each(rt: &impl Abort, answer: &BatchAnswer, wanted: &[Given]) {
    for (job, given) in wanted.iter().enumerate() {
        assert!(rt; is(answer, job, given.entries, given.steps));
    }
}

#[test]
fn each_form(rt: HostRuntime) -> Result<(), Fail> {
    let shared = shared(rt.alloc())?;
    let plan = each(&rt, rt.alloc(), &shared)?;
    let answer = answer(&rt, rt.alloc(), &plan);
    assert_eq!(rt; answer.results.len(), 6);
    assert_each(&rt, &answer, &EACH);
    Ok(())
}
