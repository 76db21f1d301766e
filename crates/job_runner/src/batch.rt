//! A batch on workers.
ghost use Rattle.std.specs.Prelude.{◌≡◌, ◌<◌, ◌≤◌, map, IfOk, IfErr};
ghost use Rattle.bpf_run.specs.Calls.{Charges};
ghost use Rattle.job_runner.specs.Batch.{AreResultsOf, all_calls, result_of};
ghost use Rattle.job_runner.specs.Answers.{IsBatch, MaySay, said_of};
ghost use Rattle.job_runner.specs.Crew.{crew_of};
ghost use Rattle.job_runner.specs.Theorem.{BatchTheorem};
ghost use Rattle.job_runner.specs.Whole.{IsRaced};

use crate::answer::{BatchAnswer, BatchFault, Cause, JobResult};
use crate::board::open_board;
use crate::chunk::SpareScratch;
use crate::crew::{BatchContext, work_all};
use crate::gate::Gate;
use crate::join::join_jobs;
use crate::size::crew_size;
use crate::task::Task;
use crate::worker_outputs::WorkerOutputs;
use job_plan::Plan;
use std::alloc::{AllocError, Global};
use std::sync::Wait;
use std::thread::Threads;

/// Runs a plan on up to so many workers: no more than the plan has chunks, and no more than its
/// price and its rows feed. One of them is on the calling thread, each other in a thread of its
/// own. They draw chunks from one board, and share the plan's operators and matrices.
///
/// # Errors
///
/// There is no memory; or, with more than one worker, a thread could not be started, which takes
/// precedence if a worker also ran out of memory. The workers that had started run to their ends;
/// the steps are those of all their calls, each counted once.
pub fn run_batch<H: Threads + Wait, G: Gate + Sync>(
    rt: &H,
    alloc: Global,
    plan: &Plan,
    workers: u64,
    gate: &G,
) -> Result<BatchAnswer, BatchFault>
    requires some { 1 ≤ workers }
    requires few { workers ≤ 64 }
    ensures theorem { IfOk result (λ a. BatchTheorem plan.now (map result_of a.results.items)) }
    ensures results { IfOk result (λ a. AreResultsOf plan.now (map result_of a.results.items)) }
    ensures raced { IfOk result (λ a. IsRaced (crew_of workers plan.now) plan.now (map result_of a.results.items)) }
    ensures spent { IfErr result (λ f. Charges (all_calls plan.now) 0 f.spent) }
    ensures thread { IfErr result (λ f. f.cause ≡ Cause.Thread → 1 < workers) }
    ensures reported { MaySay workers plan.now (said_of result) }
{
    let mut spare = SpareScratch::new();
    run_batch_with(rt, alloc, plan, workers, gate, &mut spare)
}

/// As `run_batch`, with the buffers that the worker on the calling thread had in earlier batches. If
/// it is the only worker, it takes no memory for itself, and no thread is started.
///
/// # Errors
///
/// As those of `run_batch`.
pub fn run_batch_with<H: Threads + Wait, G: Gate + Sync>(
    rt: &H,
    alloc: Global,
    plan: &Plan,
    workers: u64,
    gate: &G,
    spare: &mut SpareScratch,
) -> Result<BatchAnswer, BatchFault>
    requires some { 1 ≤ workers }
    requires few { workers ≤ 64 }
    ensures { IsBatch workers plan.now result }
{
    plan.recall();
    let count = crew_size(plan, workers);
    let mut spent = 0;
    let outcome = compute_results(
        BatchContext { rt, alloc, gate },
        plan,
        count,
        spare,
        &mut spent,
    );
    spare.trim(plan);
    match outcome {
        Ok(results) => Ok(BatchAnswer { results }),
        Err(cause) => Err(BatchFault { cause, spent }),
    }
}

impl From<AllocError> for Cause {
    ghost use Rattle.job_runner.specs.declared.answer.Cause.TheVariants.{Memory};

    ghost from_gives = { λ _ cause. cause ≡ Memory };

    fn from(_refused: AllocError) -> Cause {
        Cause::Memory
    }
}

/// Computes the result of each job with so many workers. `spent` becomes the steps of all calls,
/// also where the batch is refused.
fn compute_results<H: Threads + Wait, G: Gate + Sync>(
    context: BatchContext<'_, H, G>,
    plan: &Plan,
    count: u64,
    spare: &mut SpareScratch,
    spent: &mut u64,
) -> Result<Vec<JobResult>, Cause>
    requires { (1 ≤ count) × (count ≤ 64) }
    ensures results { IfOk result (λ rs. AreResultsOf plan.now (map result_of rs.items)
        × IsRaced count plan.now (map result_of rs.items)) }
    ensures spent { Charges (all_calls plan.now) 0 spent.new }
    ensures thread { IfErr result (λ why. why ≡ Cause.Thread → 1 < count) }
{
    plan.recall();
    *spent = 0;
    let alloc = context.alloc;
    let outputs = WorkerOutputs::new(alloc, plan, count)?;
    let (board, seats) = open_board(alloc, plan, count)?;
    let task = Task {
        plan,
        board: &board,
    };
    let (outputs, refused) = work_all(context, task, seats, outputs, spare);
    let WorkerOutputs {
        seats,
        completed_pieces,
        failed,
    } = outputs;
    *spent = board.close(seats).spent;
    // A refused thread is named even if a worker ran out of memory as well.
    if let Some(cause) = refused {
        return Err(cause);
    }
    if failed {
        return Err(Cause::Memory);
    }
    Ok(join_jobs(alloc, plan, completed_pieces)?)
}
