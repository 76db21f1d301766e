//! One chunk of a batch.
ghost use Rattle.std.specs.Prelude.{◌<◌, ◌≤◌, ◌-◌, [], length};
ghost use Rattle.job_forms.specs.Region.{IsMade};
ghost use Rattle.job_plan.specs.Chunks.{plan_chunks};
ghost use Rattle.job_plan.specs.Copies.{IsCopyFor};
ghost use Rattle.job_plan.specs.Meaning.{row_count, column_count, rows_in, calls_in};
ghost use Rattle.job_plan.specs.Refusal.{IsPriced};
ghost use Rattle.job_runner.specs.Chunk.{run_of, calls_of};

use bpf_run::Calls;
use csr_store::Column;
use entry_ops::{apply_region, both_region, reduce_region, select_region, union_region};
use job_forms::{Chunk, Region};
use job_plan::{Form, Job, Plan};
use row_product::{Factors, product_region};
use std::alloc::{AllocError, Global};
use std::ops::Range;

/// A worker's buffers, which serve for all its chunks, so that no call of an operator takes memory:
/// its lanes, and a product's row.
#[derive(Drop)]
pub struct Scratch {
    calls: Calls,
    row: row_product::Scratch,
}

impl Scratch {
    /// Memory for the work on any chunk; a product's row grows with the first product.
    pub fn new(alloc: Global) -> Result<Scratch, AllocError> {
        Ok(Scratch {
            calls: Calls::new(alloc)?,
            row: row_product::Scratch::new(),
        })
    }
}

/// The row of a product of more columns is freed after its batch, so that an idle session holds some
/// megabytes at most.
const SPARE_COLUMNS: u64 = 262_144;

/// The buffers of the worker on the calling thread, for the next batch. The first batch allocates
/// them.
#[derive(Drop)]
pub struct SpareScratch {
    scratch: Option<Scratch>,
}

impl SpareScratch {
    /// Nothing yet. Takes no memory.
    pub fn new() -> SpareScratch {
        SpareScratch { scratch: None }
    }

    /// The buffers of the last batch, or new ones.
    pub(crate) fn take(&mut self, alloc: Global) -> Result<Scratch, AllocError> {
        match self.scratch.take() {
            Some(scratch) => Ok(scratch),
            None => Scratch::new(alloc),
        }
    }

    /// Stores a worker's buffers for the next batch.
    pub(crate) fn put(&mut self, scratch: Scratch) {
        self.scratch = Some(scratch);
    }

    /// Frees the row of products, if the plan has a product of more than `SPARE_COLUMNS` columns.
    pub(crate) fn trim(&mut self, plan: &Plan) {
        if let Some(scratch) = &mut self.scratch {
            if is_wide(plan) {
                scratch.row = row_product::Scratch::new();
            }
        }
    }
}

/// Whether a plan has a product of more than `SPARE_COLUMNS` columns.
fn is_wide(plan: &Plan) -> bool {
    for priced in plan.jobs() {
        if let Form::Product { right, .. } = priced.job().form() {
            if right.columns() > SPARE_COLUMNS {
                return true;
            }
        }
    }
    false
}

/// The rows of a chunk of a plan, with the steps of the calls for them. If memory is refused, the
/// steps are those of some of these calls.
pub fn compute(alloc: Global, scratch: &mut Scratch, plan: &Plan, chunk: u64) -> Chunk
    requires { chunk < length (plan_chunks plan.now) }
    ensures { IsMade (run_of plan.now chunk) (calls_of plan.now chunk) result }
{
    let (job, range) = plan.chunk_rows(chunk);
    let jobs = plan.jobs();
    let priced = &jobs[job as usize];
    compute_rows(alloc, scratch, priced.job(), plan.column(job), range)
}

/// Some rows of a job's matrix: the six forms, each by its operation. A copy may be lent of the
/// column of a product by one.
fn compute_rows(
    alloc: Global,
    scratch: &mut Scratch,
    job: &Job,
    column: Option<&Column>,
    range: Range<u64>,
) -> Chunk
    requires priced { IsPriced job.now }
    requires column { IsCopyFor job.now.form column }
    requires range { range.start ≤ range.end }
    requires within { range.end ≤ row_count job.now }
    ensures { IsMade (record {
      first = range.start;
      columns = column_count job.now;
      ended = rows_in job.now range.start (range.end - range.start);
      opened = [];
    }) (calls_in job.now range.start (range.end - range.start)) result }
{
    let Scratch { calls, row } = scratch;
    let region = Region {
        range,
        mask: job.mask(),
    };
    match job.form() {
        Form::Apply {
            operator,
            thunk,
            operand,
        } => apply_region(alloc, calls, operand, operator, *thunk, region),
        Form::Select {
            operator,
            thunk,
            operand,
        } => select_region(alloc, calls, operand, operator, *thunk, region),
        Form::Union {
            operator,
            left,
            right,
        } => union_region(alloc, calls, left, right, operator, region),
        Form::Both {
            operator,
            left,
            right,
        } => both_region(alloc, calls, left, right, operator, region),
        Form::Product {
            add,
            mul,
            left,
            right,
        } => {
            let factors = Factors {
                add,
                mul,
                a: left,
                b: right,
                column,
            };
            product_region(alloc, row, &factors, region)
        }
        Form::Reduce { operator, operand } => reduce_region(
            alloc, calls, operand, operator, region,
        ),
    }
}
