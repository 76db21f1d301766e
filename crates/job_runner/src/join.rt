//! The pieces of a batch as the matrices of its jobs.
ghost use Rattle.std.specs.Prelude.{◌≡◌, ◌≤◌, map, IfOk, OnOk};
ghost use Rattle.std.specs.Vec.Iter.{into_iter_items};
ghost use Rattle.csr_store.specs.Grid.{limit};
ghost use Rattle.job_plan.specs.Meaning.{row_count, column_count};
ghost use Rattle.job_plan.specs.Price.{IsWithinPrice};
ghost use Rattle.job_plan.specs.Refusal.{IsPriced};
ghost use Rattle.job_runner.specs.Batch.{AreResultsOf, IsResultOf, result_of};
ghost use Rattle.job_runner.specs.Chunk.{chunks_in};
ghost use Rattle.job_runner.specs.inner.Pieces.{AreAll, AreBehind, BeginWith};

use crate::answer::JobResult;
use crate::piece::Piece;
use csr_store::{Matrix, RUN_ROWS, Stack};
use job_plan::{Job, Plan, Priced, price};
use std::alloc::{AllocError, Global};
use std::sync::Arc;
use std::vec::IntoIter;

/// The result of each job of a plan, from the pieces of all chunks in order of their numbers. The
/// cells stay where the pieces have them.
pub(crate) fn join_jobs(
    alloc: Global,
    plan: &Plan,
    completed_pieces: Vec<Option<Piece>>,
) -> Result<Vec<JobResult>, AllocError>
    requires all { AreAll plan.now completed_pieces.items }
    ensures { IfOk result (λ rs. AreResultsOf plan.now (map result_of rs.items)) }
{
    plan.recall();
    let jobs = plan.jobs();
    let mut results = Vec::with_capacity(alloc, jobs.len())?;
    let mut completed_pieces = completed_pieces.into_iter();
    for job in jobs {
        results.push(join_job(alloc, plan, job, &mut completed_pieces)?)?;
    }
    Ok(results)
}

/// The result of a job, from the pieces of its chunks, which are next.
fn join_job(
    alloc: Global,
    plan: &Plan,
    job: &Priced,
    completed_pieces: &mut IntoIter<Option<Piece>>,
) -> Result<JobResult, AllocError>
    requires { BeginWith job.now (chunks_in job.now) (into_iter_items completed_pieces.old) }
    ensures result { IfOk result (λ r. IsResultOf job.now (result_of r)) }
    ensures left { OnOk result
        (AreBehind (chunks_in job.now) (into_iter_items completed_pieces.old) (into_iter_items completed_pieces.new)) }
{
    plan.recall();
    let for_proof_price = price(job);
    let job = job.job();
    let (rows, columns) = sizes(job);
    let mut stack = Stack::begin(alloc, rows, columns, first_operand(job))?;
    let mut steps = 0;
    for _next in 0..rows.div_ceil(RUN_ROWS) {
        let Some(nth) = completed_pieces.next() else {
            unreachable!()
        };
        let Some(piece) = nth else { unreachable!() };
        steps += piece.steps;
        stack = stack.add(piece.rows)?;
    }
    let matrix = stack.finish()?;
    matrix.recall();
    let version = Arc::new(alloc, matrix)?;
    Ok(JobResult { version, steps })
}

/// How many rows and columns a job's matrix has.
fn sizes(job: &Job) -> (u64, u64)
    requires { IsPriced job.now }
    ensures rows { result.0 ≡ row_count job.now }
    ensures few { result.0 ≤ limit }
    ensures columns { result.1 ≡ column_count job.now }
{
    let form = job.form();
    (form.rows(), form.columns())
}

/// The first operand of a job. What apply makes of it without a mask has its entries at the same
/// positions.
fn first_operand(job: &Job) -> &Matrix {
    let (first, _) = job.form().matrices();
    first
}
