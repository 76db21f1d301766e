//! The commands that submit a job, and `budget`.
ghost use Rattle.std.specs.Prelude.{◌≡◌, ◌≤◌, ◌<◌, ◌+◌, [], List, length, None};
ghost use Rattle.command_text.specs.ReplyText.{whole};
ghost use Rattle.command_text.specs.Readings.{submission_of};
ghost use Rattle.job_plan.specs.Job.{Job};
ghost use Rattle.job_plan.specs.Price.{total_price};
ghost use Rattle.job_plan.specs.Refusal.{job_fault};
ghost use Rattle.step_budget.specs.Budget.{Deals};
ghost use Rattle.step_purse.specs.declared.dealings.Dealing.{Dealing};
ghost use Rattle.workspace.specs.State.{State};
ghost use Rattle.workspace.specs.Workspace.{state_of};
ghost use Rattle.workspace.specs.Turn.{SubmitTurn, BudgetTurn, Prices, Submits};

use crate::found::find;
use crate::share::share;
use crate::workspace::Workspace;
use bpf_run::{reads_first, reads_second};
use command_text::{Refusal, Reply, SessionRule, Submission, queued, refuse, tell_budget};
use job_plan::{Form, Job, Priced, price};
use std::alloc::Global;
use std::sync::Wait;
use step_budget::{Reply as BudgetReply, Steps};

/// `budget`: what the budget holds, whatever the session holds.
pub fn budget<T: Steps, H: Wait>(rt: &H, steps: &mut T, reply: &mut Reply)
    ensures turn { (state : State) → (dealings : List Dealing) ×
        BudgetTurn state dealings (whole reply.new) state ×
        Deals T.leads steps.old dealings steps.new }
    ensures owed { T.owes steps.new ≡ T.owes steps.old }
{
    let totals = steps.totals(rt);
    tell_budget(reply, totals.left, totals.reserved, totals.spent);
}

/// Reserves the price of a job, and puts it last in the queue.
fn reserve<T: Steps, H: Wait>(
    rt: &H,
    workspace: &mut Workspace,
    job: Priced,
    steps: &mut T,
    reply: &mut Reply,
)
    requires capacity { length (state_of workspace.old).queue < 64 }
    requires named { length job.output ≤ 32 }
    ensures turn { (dealings : List Dealing) ×
        Submits (state_of workspace.old) job dealings (whole reply.new)
        (state_of workspace.new) × Deals T.leads steps.old dealings steps.new }
    ensures owed { total_price (state_of workspace.new).queue + T.owes steps.old ≡
        total_price (state_of workspace.old).queue + T.owes steps.new }
{
    let amount = price(&job);
    match steps.reserve(rt, amount) {
        BudgetReply::Took(_) => {
            let position = workspace.submit(job);
            queued(reply, position, amount);
        }
        BudgetReply::NotEnough(left) => refuse(
            reply,
            Refusal::Budget {
                price: amount,
                left,
            },
        ),
    }
}

/// Prices a job, and submits it.
fn submit_job<T: Steps, H: Wait>(
    rt: &H,
    workspace: &mut Workspace,
    job: Job,
    steps: &mut T,
    reply: &mut Reply,
)
    requires capacity { length (state_of workspace.old).queue < 64 }
    requires named { length job.output ≤ 32 }
    ensures turn { (dealings : List Dealing) ×
        Prices (state_of workspace.old) job (job_fault job) dealings (whole reply.new)
        (state_of workspace.new) × Deals T.leads steps.old dealings steps.new }
    ensures owed { total_price (state_of workspace.new).queue + T.owes steps.old ≡
        total_price (state_of workspace.old).queue + T.owes steps.new }
{
    match Priced::of(job) {
        Ok(job) => reserve(rt, workspace, job, steps, reply),
        Err((_, fault)) => refuse(reply, Refusal::Job(fault)),
    }
}

/// Notes which rows a product is to walk: those of its first matrix where the second one is a full
/// column, and else those of the second one.
fn expect_walks(alloc: Global, workspace: &mut Workspace, submission: &Submission<'_>)
    ensures { state_of workspace.new ≡ state_of workspace.old }
{
    let Form::Product {
        mul,
        left,
        right,
        ..
    } = submission.form
    else {
        return;
    };
    let (Some(operator), Some(a), Some(b)) = (
        workspace.operator(mul),
        workspace.matrix(left),
        workspace.matrix(right),
    ) else {
        return;
    };
    let entries = a.entries();
    if b.columns() != 1 {
        // As many rows as A has entries, each as long as they are on average.
        let walked = entries.saturating_mul(b.entries()) / b.rows().max(1);
        let reads_words = reads_second(operator);
        workspace.expect_walk(alloc, right, walked, reads_words);
    } else if b.entries() == b.rows() {
        let reads_words = reads_first(operator);
        workspace.expect_walk(alloc, left, entries, reads_words);
    }
}

/// Submits a job, with the operators and matrices that its names stand for now.
fn submit_found<T: Steps, H: Wait>(
    rt: &H,
    alloc: Global,
    workspace: &mut Workspace,
    submission: &Submission<'_>,
    steps: &mut T,
    reply: &mut Reply,
)
    ensures turn { (dealings : List Dealing) ×
        SubmitTurn (state_of workspace.old) (submission_of submission.now) dealings (whole reply.new)
        (state_of workspace.new) × Deals T.leads steps.old dealings steps.new }
    ensures owed { total_price (state_of workspace.new).queue + T.owes steps.old ≡
        total_price (state_of workspace.old).queue + T.owes steps.new }
{
    let Some(found) = find(workspace, submission) else {
        return refuse(reply, Refusal::Session(SessionRule::UnknownName));
    };
    if !workspace.queue.has_room() {
        return refuse(reply, Refusal::QueueFull);
    }
    match share(alloc, found, submission.output.as_str()) {
        Ok(job) => submit_job(rt, workspace, job, steps, reply),
        Err(_) => refuse(reply, Refusal::Memory),
    }
}

/// `apply`, `select`, `union`, `both`, `product` and `reduce`: a job, with the operators and
/// matrices that its names stand for now.
pub fn submit<T: Steps, H: Wait>(
    rt: &H,
    alloc: Global,
    workspace: &mut Workspace,
    submission: &Submission<'_>,
    steps: &mut T,
    reply: &mut Reply,
)
    ensures turn { (dealings : List Dealing) ×
        SubmitTurn (state_of workspace.old) (submission_of submission.now) dealings (whole reply.new)
        (state_of workspace.new) × Deals T.leads steps.old dealings steps.new }
    ensures owed { total_price (state_of workspace.new).queue + T.owes steps.old ≡
        total_price (state_of workspace.old).queue + T.owes steps.new }
{
    // Before the job has its matrices: one with two owners is left as it is.
    expect_walks(alloc, workspace, submission);
    submit_found(rt, alloc, workspace, submission, steps, reply);
}
