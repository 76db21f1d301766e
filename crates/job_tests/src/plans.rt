//! Prices, refusals, the queue and chunks, by examples done by hand.
mod chunks;
mod copies;
mod prices;
mod refusals;
mod waiting;

use bpf_insn::Kind;
use bpf_verify::Operator;
use csr_store::{Builder, Version};
use job_plan::{Form, Job, JobError, Plan, Priced, Queue, price};
use std::alloc::{AllocError, Global};
use std::process::Abort;
use std::sync::Arc;
use std::test::Fail;
use test_operators::{INCREMENT, MULTIPLY, SUBTRACT, assembled};

/// Whether the row is the column, in four instructions.
const DIAGONAL: &str = "
    mov64 r0, 1
    jeq64 r2, r3, 1
    mov64 r0, 0
    exit
";

/// 2 ^ 32 + 1, in two instructions and three slots.
const WIDE: &str = "
    wide r0, 4294967297
    exit
";

/// A row and a column, from 0, and the value that stands there.
type Entry = (u64, u64, u64);

/// The operator of a text, with several owners.
fn operator(alloc: Global, kind: Kind, text: &str) -> Result<Arc<Operator>, Fail> {
    Ok(Arc::new(alloc, assembled(alloc, kind, text)?)?)
}

/// The matrix of entries.
fn matrix(alloc: Global, rows: u64, columns: u64, entries: &[Entry]) -> Result<Version, Fail> {
    let mut builder = Builder::new(alloc, rows.min(16_777_216), columns.min(16_777_216));
    for (row, column, value) in entries {
        builder.put(*row, *column, *value)?;
    }
    Ok(version(alloc, builder)?)
}

/// The matrix of a builder, with several owners.
fn version(alloc: Global, builder: Builder) -> Result<Version, AllocError> {
    match builder.finish() {
        Ok(matrix) => Ok(Arc::new(alloc, matrix)?),
        Err(_) => Err(AllocError),
    }
}

/// A square matrix with an entry at each of the first positions of its diagonal.
fn diagonal(alloc: Global, size: u64) -> Result<Version, Fail> {
    let mut builder = Builder::new(alloc, size.min(16_777_216), size.min(16_777_216));
    for i in 0..size {
        builder.put(i, i, 1)?;
    }
    Ok(version(alloc, builder)?)
}

/// A matrix that has an entry everywhere.
fn full(alloc: Global, rows: u64, columns: u64) -> Result<Version, Fail> {
    let mut builder = Builder::new(alloc, rows.min(16_777_216), columns.min(16_777_216));
    for i in 0..rows {
        for j in 0..columns {
            builder.put(i, j, 1)?;
        }
    }
    Ok(version(alloc, builder)?)
}

/// A job of a form, for the name `C`.
fn job(alloc: Global, form: Form, mask: Option<Version>) -> Result<Job, Fail> {
    Ok(Job::new(form, mask, String::from_str(alloc, "C")?))
}

/// The price of a job of a form, or its fault.
fn priced(alloc: Global, form: Form, mask: Option<Version>) -> Result<Result<u64, JobError>, Fail> {
    match Priced::of(job(alloc, form, mask)?) {
        Ok(priced) => Ok(Ok(price(&priced))),
        Err((_, error)) => Ok(Err(error)),
    }
}

/// The job of a form, which can't be refused.
fn accepted(alloc: Global, form: Form, mask: Option<Version>) -> Result<Priced, Fail> {
    match Priced::of(job(alloc, form, mask)?) {
        Ok(priced) => Ok(priced),
        Err(_) => Err(AllocError.into()),
    }
}

/// Puts such a job into a queue, if it is not full. Its number, or 0.
fn submit(
    alloc: Global,
    queue: &mut Queue,
    form: Form,
    mask: Option<Version>,
) -> Result<u64, Fail> {
    let job = accepted(alloc, form, mask)?;
    match queue.has_room() {
        true => Ok(queue.submit(job)),
        false => Ok(0),
    }
}

/// A count is this.
fn assert_count(rt: &impl Abort, count: u64, wanted: u64) {
    assert_eq!(rt; count, wanted);
}

/// An apply of x + 1.
fn incrementing(alloc: Global, operand: Version) -> Result<Form, Fail> {
    applying(alloc, Kind::Unary, INCREMENT, None, operand)
}

/// An apply of any operator, with a thunk or without.
fn applying(
    alloc: Global,
    kind: Kind,
    text: &str,
    thunk: Option<u64>,
    operand: Version,
) -> Result<Form, Fail> {
    let operator = operator(alloc, kind, text)?;
    Ok(Form::Apply {
        operator,
        thunk,
        operand,
    })
}

/// A selection of what stands on the diagonal, with the thunk 0.
fn selecting(alloc: Global, operand: Version) -> Result<Form, Fail> {
    let operator = operator(alloc, Kind::Index, DIAGONAL)?;
    Ok(Form::Select {
        operator,
        thunk: 0,
        operand,
    })
}

/// A union by subtraction.
fn uniting(alloc: Global, left: Version, right: Version) -> Result<Form, Fail> {
    let operator = operator(alloc, Kind::Binary, SUBTRACT)?;
    Ok(Form::Union {
        operator,
        left,
        right,
    })
}

/// What stands in both, by subtraction.
fn meeting(alloc: Global, left: Version, right: Version) -> Result<Form, Fail> {
    let operator = operator(alloc, Kind::Binary, SUBTRACT)?;
    Ok(Form::Both {
        operator,
        left,
        right,
    })
}

/// A product by multiplication and subtraction.
fn multiplying(alloc: Global, left: Version, right: Version) -> Result<Form, Fail> {
    let add = operator(alloc, Kind::Binary, SUBTRACT)?;
    let mul = operator(alloc, Kind::Binary, MULTIPLY)?;
    Ok(Form::Product {
        add,
        mul,
        left,
        right,
    })
}

/// A reduction by subtraction.
fn reducing(alloc: Global, operand: Version) -> Result<Form, Fail> {
    let operator = operator(alloc, Kind::Binary, SUBTRACT)?;
    Ok(Form::Reduce { operator, operand })
}

/// A matrix that jobs are tried with.
#[derive(Clone, Copy)]
enum Given {
    /// So many rows and columns, and these entries.
    Of(u64, u64, &'static [Entry]),
    /// So many rows and columns, and an entry everywhere.
    Full(u64, u64),
}

use Given::{Full, Of};

/// A form that is tried. An apply is of any operator.
#[derive(Clone, Copy)]
enum Tried {
    Apply {
        kind: Kind,
        text: &'static str,
        thunk: Option<u64>,
    },
    Select,
    Union,
    Both,
    Product,
    Reduce,
}

/// A form with its matrices, of which the one on the right stands where it takes two, its mask, and
/// its price or its fault.
#[derive(Clone, Copy)]
struct Case {
    tried: Tried,
    left: Given,
    right: Option<Given>,
    mask: Option<Given>,
    wanted: Result<u64, JobError>,
}

/// The matrix that is given.
fn version_of(alloc: Global, given: Given) -> Result<Version, Fail> {
    match given {
        Of(rows, columns, entries) => matrix(alloc, rows, columns, entries),
        Full(rows, columns) => full(alloc, rows, columns),
    }
}

/// The matrix that is given, if any.
fn maybe_made(alloc: Global, maybe: Option<Given>) -> Result<Option<Version>, Fail> {
    match maybe {
        None => Ok(None),
        Some(some) => Ok(Some(version_of(alloc, some)?)),
    }
}

/// A form on one matrix, or on two.
fn form_on(
    alloc: Global,
    tried: Tried,
    left: Version,
    right: Option<Version>,
) -> Result<Form, Fail> {
    match (tried, right) {
        (Tried::Apply { kind, text, thunk }, _) => applying(alloc, kind, text, thunk, left),
        (Tried::Select, _) => selecting(alloc, left),
        (Tried::Reduce, _) => reducing(alloc, left),
        (Tried::Union, Some(right)) => uniting(alloc, left, right),
        (Tried::Both, Some(right)) => meeting(alloc, left, right),
        (Tried::Product, Some(right)) => multiplying(alloc, left, right),
        (_, None) => Err("the form takes two matrices".into()),
    }
}

/// A job has this price, or this fault.
fn assert_priced(
    rt: &impl Abort,
    alloc: Global,
    form: Form,
    mask: Option<Version>,
    wanted: Result<u64, JobError>,
) -> Result<(), Fail> {
    assert_eq!(rt; priced(alloc, form, mask)?, wanted);
    Ok(())
}

/// A case has its price, or its fault.
fn assert_case(rt: &impl Abort, alloc: Global, case: &Case) -> Result<(), Fail> {
    let right = maybe_made(alloc, case.right)?;
    let form = form_on(alloc, case.tried, version_of(alloc, case.left)?, right)?;
    assert_priced(rt, alloc, form, maybe_made(alloc, case.mask)?, case.wanted)
}

/// Each case has its price, or its fault.
fn assert_cases(rt: &impl Abort, alloc: Global, cases: &[Case]) -> Result<(), Fail> {
    for case in cases {
        assert_case(rt, alloc, case)?;
    }
    Ok(())
}
