//! The command `run`.
//!
//! Before the first job runs, each output's name is declared. So once all jobs have results nothing
//! can fail any more: the prices are settled, the reply is written and the outputs are bound, with
//! no further memory. A batch that breaks off binds no name.
ghost use Rattle.std.specs.Prelude.{◌≡◌, ◌≤◌, ◌+◌, ◌++◌, List, ℕ, map, length, vec_len, []};
ghost use Rattle.std.specs.Prelude.{IfOk, OnOk, OnErr};
ghost use Rattle.workspace.specs.Names.{value_at};
ghost use Rattle.workspace.specs.inner.Outputs.{AreDeclared, grid_at};
ghost use Rattle.job_plan.specs.Price.{total_price};
ghost use Rattle.job_runner.specs.Answers.{said_of};
ghost use Rattle.job_runner.specs.Batch.{AreResultsOf, result_of, total_steps};
ghost use Rattle.workspace.specs.Queued.{AreNamed};
ghost use Rattle.workspace.specs.inner.Queued.{AreCheap, AreWithin, steps_sum};
ghost use Rattle.step_budget.specs.Budget.{Deals};
ghost use Rattle.step_purse.specs.declared.dealings.Dealing.{Dealing};
ghost use Rattle.command_text.specs.Replies.{job_text, run_text, refusal_text};
ghost use Rattle.command_text.specs.ReplyText.{whole};
ghost use Rattle.workspace.specs.Turn.{RunTurn, settled, charged, all_bound, batch_refusal, job_line, job_lines, released};
ghost use Rattle.workspace.specs.Workspace.{state_of};
ghost use Rattle.workspace.specs.inner.Concluding.{dealings_of, text_of, state_after};

use crate::names::Names;
use crate::workspace::Workspace;
use command_text::{JobLine, Refusal, Reply, add_job, begin_run, refuse};
use csr_store::Version;
use job_plan::{Plan, Priced, price};
use job_runner::{BatchAnswer, BatchFault, Cause, JobResult, Open, run_batch_with};
use std::alloc::{AllocError, Global};
use std::sync::Wait;
use std::thread::Threads;
use step_budget::Steps;

/// Declares the output of each job, so that to bind it later takes no memory.
///
/// # Errors
///
/// There is no memory for it. Some names are then declared. No value is changed.
fn declare_outputs(matrices: &mut Names<Version>, jobs: &[Priced]) -> Result<(), AllocError>
    ensures declared { IfOk result (λ _. AreDeclared matrices.new.declared jobs.now) }
    ensures same { (name : List ℕ) → value_at matrices.new.declared name ≡ value_at matrices.old.declared name }
{
    for job in jobs {
        matrices.declare(job.job().output())?;
    }
    Ok(())
}

/// Settles the price of each job with the steps that it took.
fn settle_all<T: Steps, H: Wait>(rt: &H, steps: &mut T, jobs: &[Priced], results: &[JobResult])
    requires results { (length jobs.now ≡ length results.now) × AreWithin jobs.now (map result_of results.now) }
    requires owed { total_price jobs.now ≤ T.owes steps.old }
    ensures dealt { Deals T.leads steps.old
        (settled jobs.now (map result_of results.now)) steps.new }
    ensures owed { T.owes steps.new + total_price jobs.now ≡ T.owes steps.old }
{
    for (job, result) in jobs.iter().zip(results) {
        steps.settle(rt, price(job), result.steps);
    }
}

/// Charges steps to the jobs in order, to each up to its price, and settles each price with the
/// steps charged.
fn charge_all<T: Steps, H: Wait>(rt: &H, steps: &mut T, jobs: &[Priced], spent: u64)
    requires owed { total_price jobs.now ≤ T.owes steps.old }
    ensures dealt { Deals T.leads steps.old (charged jobs.now spent) steps.new }
    ensures owed { T.owes steps.new + total_price jobs.now ≡ T.owes steps.old }
{
    let mut left = spent;
    for job in jobs {
        let amount = price(job);
        let charge = left.min(amount);
        steps.settle(rt, amount, charge);
        left -= charge;
    }
}

/// Binds the output of each job, in order, to its matrix. Each is declared, so that this takes no
/// memory.
fn bind_all(matrices: &mut Names<Version>, jobs: &[Priced], results: Vec<JobResult>)
    requires declared { AreDeclared matrices.old.declared jobs.now }
    requires same { length jobs.now ≡ vec_len results }
    ensures { (name : List ℕ) → grid_at matrices.new.declared name ≡
        all_bound (grid_at matrices.old.declared) jobs.now (map result_of results.items)
        name }
{
    for (job, result) in jobs.iter().zip(results) {
        matrices.bind(job.job().output(), result.version);
    }
}

/// The steps of all jobs.
fn total(results: &[JobResult]) -> u64
    requires few { length results.now ≤ 64 }
    requires cheap { AreCheap (map result_of results.now) }
    ensures { result ≡ steps_sum (map result_of results.now) }
{
    let mut steps = 0;
    for result in results {
        steps += result.steps;
    }
    steps
}

/// Says that a batch was run, with a line for each job.
fn report(reply: &mut Reply, jobs: &[Priced], results: &[JobResult], spent: u64)
    requires same { length jobs.now ≡ length results.now }
    requires few { length jobs.now ≤ 64 }
    requires named { AreNamed jobs.now }
    ensures { whole reply.new ≡ run_text spent (job_lines jobs.now (map result_of results.now)) }
{
    begin_run(reply, jobs.len() as u64, spent);
    for (job, result) in jobs.iter().zip(results) {
        add_line(reply, job, result);
    }
}

/// Adds the line of a job.
fn add_line(reply: &mut Reply, job: &Priced, what: &JobResult)
    requires name { length job.now.output ≤ 32 }
    requires capacity { length reply.old.line + 117 ≤ 8192 }
    ensures value { reply.new ≡ record reply.old
        { line = reply.old.line ++ job_text (job_line job.now (result_of what.now)) } }
    ensures short { length reply.new.line ≤ length reply.old.line + 117 }
{
    let line = JobLine {
        output: job.job().output(),
        rows: what.version.rows(),
        columns: what.version.columns(),
        entries: what.version.entries(),
        steps: what.steps,
    };
    add_job(reply, &line);
}

/// Ends a batch of which each job came to its end: settles the prices, says so, and binds the
/// outputs.
fn finish<T: Steps, H: Wait>(
    rt: &H,
    workspace: &mut Workspace,
    plan: &Plan,
    answer: BatchAnswer,
    steps: &mut T,
    reply: &mut Reply,
)
    requires plan { AreDeclared workspace.old.matrices.declared plan.now × AreNamed plan.now ×
        AreResultsOf plan.now (map result_of answer.results.items) }
    requires owed { total_price plan.now ≤ T.owes steps.old }
    ensures settled { Deals T.leads steps.old (settled plan.now (map result_of answer.results.items)) steps.new ×
        (T.owes steps.new + total_price plan.now ≡ T.owes steps.old) }
    ensures turn { (whole reply.new ≡ run_text (total_steps plan.now)
        (job_lines plan.now (map result_of answer.results.items))) ×
        (state_of workspace.new ≡ record (state_of workspace.old)
        { matrices = all_bound (state_of workspace.old).matrices plan.now (map result_of answer.results.items) }) }
{
    let jobs = plan.jobs();
    settle_all(rt, steps, jobs, &answer.results);
    report(reply, jobs, &answer.results, total(&answer.results));
    bind_all(&mut workspace.matrices, jobs, answer.results);
}

/// Ends a batch that broke off: charges the steps that were spent to the jobs in order, and says
/// why. No name is bound.
fn break_off<T: Steps, H: Wait>(
    rt: &H,
    steps: &mut T,
    reply: &mut Reply,
    jobs: &[Priced],
    fault: BatchFault,
)
    requires owed { total_price jobs.now ≤ T.owes steps.old }
    ensures said { whole reply.new ≡ refusal_text (batch_refusal fault.cause fault.spent) }
    ensures dealt { Deals T.leads steps.old (charged jobs.now fault.spent) steps.new }
    ensures owed { T.owes steps.new + total_price jobs.now ≡ T.owes steps.old }
{
    charge_all(rt, steps, jobs, fault.spent);
    refuse(reply, refusal_of(fault));
}

/// Why a batch that broke off is refused.
fn refusal_of(fault: BatchFault) -> Refusal
    ensures { result ≡ batch_refusal fault.cause fault.spent }
{
    let spent = fault.spent;
    match fault.cause {
        Cause::Memory => Refusal::BatchMemory { spent },
        Cause::Thread => Refusal::BatchThread { spent },
    }
}

/// Ends a batch as it was answered, and in no other way: where it gave results, with these; where
/// it broke off, for its cause and with its steps.
fn conclude<T: Steps, H: Wait>(
    rt: &H,
    workspace: &mut Workspace,
    plan: &Plan,
    answer: Result<BatchAnswer, BatchFault>,
    steps: &mut T,
    reply: &mut Reply,
)
    requires plan { AreDeclared workspace.old.matrices.declared plan.now × AreNamed plan.now }
    requires results { IfOk answer (λ a. AreResultsOf plan.now (map result_of a.results.items)) }
    requires owed { total_price plan.now ≤ T.owes steps.old }
    ensures dealt { Deals T.leads steps.old (dealings_of plan.now (said_of answer)) steps.new }
    ensures owed { T.owes steps.new + total_price plan.now ≡ T.owes steps.old }
    ensures said { whole reply.new ≡ text_of plan.now (said_of answer) }
    ensures left { state_of workspace.new ≡ state_after (state_of workspace.old) plan.now (said_of answer) }
{
    match answer {
        Ok(answer) => finish(rt, workspace, plan, answer, steps, reply),
        Err(fault) => break_off(rt, steps, reply, plan.jobs(), fault),
    }
}

/// Declares the outputs of the jobs that wait, and takes them out of the queue as a plan.
///
/// # Errors
///
/// There is no memory for it. Nothing that is bound changes, and the jobs still wait.
fn begin(workspace: &mut Workspace) -> Result<Plan, AllocError>
    ensures plan { IfOk result (λ p. (p ≡ (state_of workspace.old).queue) × AreDeclared workspace.new.matrices.declared p) }
    ensures named { AreNamed (state_of workspace.old).queue }
    ensures taken { OnOk result (state_of workspace.new ≡ record (state_of workspace.old) { queue = [] }) }
    ensures unchanged { OnErr result (state_of workspace.new ≡ state_of workspace.old) }
{
    declare_outputs(&mut workspace.matrices, workspace.queue.jobs())?;
    workspace.queue.take()
}

/// Runs the jobs that wait: each output is bound, in order of submission, each price is settled,
/// and the reply has a line for each job. Where memory or a thread is refused, no name is bound,
/// and the steps that were taken are charged to the jobs in order. No job waits any longer.
pub fn run<T: Steps, H: Threads + Wait>(
    rt: &H,
    alloc: Global,
    workspace: &mut Workspace,
    steps: &mut T,
    reply: &mut Reply,
)
    requires owed { total_price (state_of workspace.old).queue ≤ T.owes steps.old }
    ensures turn { (dealings : List Dealing) ×
        RunTurn (state_of workspace.old) dealings (whole reply.new) (state_of workspace.new) ×
        Deals T.leads steps.old dealings steps.new }
    ensures owed { T.owes steps.new + total_price (state_of workspace.old).queue ≡ T.owes steps.old }
{
    let Ok(plan) = begin(workspace) else {
        let fault = BatchFault {
            cause: Cause::Memory,
            spent: 0,
        };
        break_off(rt, steps, reply, workspace.queue.jobs(), fault);
        workspace.queue.clear();
        return;
    };
    let workers = workspace.workers;
    let answer = run_batch_with(rt, alloc, &plan, workers, &Open, &mut workspace.scratch);
    conclude(rt, workspace, &plan, answer, steps, reply);
}

/// Settles the price of each job with 0.
fn settle_with_nothing<T: Steps, H: Wait>(rt: &H, steps: &mut T, jobs: &[Priced])
    requires owed { total_price jobs.now ≤ T.owes steps.old }
    ensures dealt { Deals T.leads steps.old (released jobs.now) steps.new }
    ensures owed { T.owes steps.new + total_price jobs.now ≡ T.owes steps.old }
{
    for job in jobs {
        steps.settle(rt, price(job), 0);
    }
}

/// Settles each reservation that is still held with 0, in order of submission.
pub fn release<T: Steps, H: Wait>(rt: &H, workspace: &Workspace, steps: &mut T)
    requires owed { total_price (state_of workspace.now).queue ≤ T.owes steps.old }
    ensures dealt { Deals T.leads steps.old (released (state_of workspace.now).queue) steps.new }
    ensures owed { T.owes steps.new + total_price (state_of workspace.now).queue ≡ T.owes steps.old }
{
    settle_with_nothing(rt, steps, workspace.queue.jobs());
}
