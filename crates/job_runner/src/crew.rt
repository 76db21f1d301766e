//! Workers in threads.
ghost use Rattle.std.specs.Prelude.{◌≡◌, ◌≤◌, ◌+◌, []};
ghost use Rattle.std.specs.Prelude.{vec_len, vec_capacity};
ghost use Rattle.std.specs.List.{AllByRecursion};
ghost use Rattle.race_board.specs.Race.{MayDrawAt};
ghost use Rattle.job_plan.specs.Chunks.{prices_of};
ghost use Rattle.job_runner.specs.inner.Crew.{AreFresh, IsEnded, AreWorkerOutputs, IsRoomFor, IsStarted, IsWorked};

use crate::answer::Cause;
use crate::chunk::SpareScratch;
use crate::gate::Gate;
use crate::task::Task;
use crate::worker::work_with_spare;
use crate::worker_outputs::{Ended, WorkerOutputs};
use race_board::BoardSeat;
use std::alloc::Global;
use std::sync::Wait;
use std::thread;
use std::thread::{Promise, PromisedHandle, Scope, Threads};

impl<'a> Promise<Ended> for Task<'a> {
    ghost use Rattle.job_runner.specs.inner.Crew.{IsEnded};

    ghost kept_by = { λ t e. IsEnded t.board.now t.plan.now e };
}

/// What workers run by: threads, memory, and what is called around the work on a chunk.
#[derive(Drop)]
pub(crate) struct BatchContext<'a, H, G> {
    pub rt: &'a H,
    pub alloc: Global,
    pub gate: &'a G,
}

/// A worker's thread.
pub type Handle<'a> = PromisedHandle<Ended, Task<'a>>;

/// A worker from a fresh seat to its end.
fn work_to_end<G: Gate>(
    alloc: Global,
    spare: &mut SpareScratch,
    task: Task<'_>,
    seat: BoardSeat,
    gate: &G,
) -> Ended
    requires ready { MayDrawAt task.board.now seat }
    requires fresh { seat.worker.done ≡ [] }
    requires prices { task.board.now.prices ≡ prices_of task.plan.now }
    ensures { IsEnded task.entry.board.now task.entry.plan.now result }
{
    let mut seat = seat;
    let worked = work_with_spare(alloc, spare, task, &mut seat, gate);
    Ended { seat, worked }
}

/// As `work_to_end`, in a thread of its own. The thread's buffers go when it ends.
fn work_in_thread<G: Gate>(alloc: Global, task: Task<'_>, seat: BoardSeat, gate: &G) -> Ended
    requires ready { MayDrawAt task.board.now seat }
    requires fresh { seat.worker.done ≡ [] }
    requires prices { task.board.now.prices ≡ prices_of task.plan.now }
    ensures { IsEnded task.entry.board.now task.entry.plan.now result }
{
    let mut spare = SpareScratch::new();
    work_to_end(alloc, &mut spare, task, seat, gate)
}

/// Starts a thread for each of these seats, and answers whether the start of one was refused, whose
/// seat is then lost.
fn start<'s, 'a, H, G: Gate + Sync>(
    context: BatchContext<'a, H, G>,
    scope: &Scope<'s, &'a ()>,
    task: Task<'a>,
    seats: Vec<BoardSeat>,
    handles: &mut Vec<Handle<'a>>,
) -> bool
    requires fresh { AreFresh task.board.now task.plan.now seats.items }
    requires capacity { (vec_len handles.old ≡ 0) × (vec_len seats ≤ vec_capacity handles.old) }
    ensures promised { AllByRecursion (λ h. h.promise ≡ task.entry) handles.new.items }
    ensures started { IsStarted (vec_len seats) (vec_len handles.new) result }
{
    let BatchContext { rt: _, alloc, gate } = context;
    let Task { plan, board } = task;
    let mut seats = seats;
    let mut refused = false;
    while let Some(seat) = seats.pop() {
        match scope.spawn_with(task, move || {
            work_in_thread(alloc, Task { plan, board }, seat, gate)
        }) {
            Ok(handle) => {
                handles.push(handle).unwrap();
            }
            // The seat has gone into the closure, and is lost with it.
            Err(_) => {
                refused = true;
            }
        }
    }
    refused
}

/// Joins these threads, one after another, and gathers what their workers did.
fn join_all<H: Threads>(
    rt: &H,
    task: Task<'_>,
    handles: Vec<Handle<'_>>,
    outputs: &mut WorkerOutputs,
)
    requires promised { AllByRecursion (λ h. h.promise ≡ task) handles.items }
    requires capacity { vec_len outputs.old.seats + vec_len handles ≤ vec_capacity outputs.old.seats }
    requires outputs { AreWorkerOutputs task.board.now task.plan.now outputs.old }
    ensures outputs { AreWorkerOutputs task.entry.board.now task.entry.plan.now outputs.new }
    ensures len { vec_len outputs.new.seats ≡ vec_len outputs.old.seats + vec_len handles.entry }
{
    let mut handles = handles;
    while let Some(handle) = handles.pop() {
        outputs.add(task, handle.join(rt));
    }
}

/// A worker at each of these seats: the last on the calling thread, with the spare buffers, the
/// others in threads of their own. Returns what they did, and what was refused: the start of a
/// thread, or memory for the threads' handles. Then the workers that had started went on to their
/// ends, and the calling thread's did nothing.
fn work_in_scope<'s, 'a, H: Threads, G: Gate + Sync>(
    context: BatchContext<'a, H, G>,
    scope: &Scope<'s, &'a ()>,
    task: Task<'a>,
    seats: Vec<BoardSeat>,
    outputs: WorkerOutputs,
    spare: &mut SpareScratch,
) -> (WorkerOutputs, Option<Cause>)
    requires fresh { AreFresh task.board.now task.plan.now seats.items }
    requires capacity { IsRoomFor task.board.now task.plan.now (vec_len seats) outputs }
    ensures { IsWorked task.entry.board.now task.entry.plan.now (vec_len seats) result.0 result.1 }
{
    let BatchContext { rt, alloc, gate } = context;
    let mut outputs = outputs;
    let mut seats = seats;
    let Some(own) = seats.pop() else {
        return (outputs, None);
    };
    // Before the first thread starts: a handle that finds no memory would be a thread nobody joins.
    let Ok(mut handles) = Vec::with_capacity(alloc, seats.len()) else {
        return (outputs, Some(Cause::Memory));
    };
    let refused = start(
        BatchContext { rt, alloc, gate },
        scope,
        task,
        seats,
        &mut handles,
    );
    if refused {
        join_all(rt, task, handles, &mut outputs);
        return (outputs, Some(Cause::Thread));
    }
    outputs.add(task, work_to_end(alloc, spare, task, own, gate));
    join_all(rt, task, handles, &mut outputs);
    (outputs, None)
}

/// A worker at each of these seats: the last on the calling thread, the others in threads of their
/// own. Returns what they did, and what was refused, as `work_in_scope` does. One worker starts no
/// thread.
pub(crate) fn work_all<H: Threads + Wait, G: Gate + Sync>(
    context: BatchContext<'_, H, G>,
    task: Task<'_>,
    seats: Vec<BoardSeat>,
    outputs: WorkerOutputs,
    spare: &mut SpareScratch,
) -> (WorkerOutputs, Option<Cause>)
    requires fresh { AreFresh task.board.now task.plan.now seats.items }
    requires capacity { IsRoomFor task.board.now task.plan.now (vec_len seats) outputs }
    ensures { IsWorked task.entry.board.now task.entry.plan.now (vec_len seats) result.0 result.1 }
{
    let BatchContext { rt, alloc, gate } = context;
    if seats.len() > 1 {
        let Task { plan, board } = task;
        return thread::scope(
            thread::scope_env(),
            rt,
            move |scope| -> (WorkerOutputs, Option<Cause>)
                requires fresh { AreFresh board.now plan.now seats.items }
                requires capacity { IsRoomFor board.now plan.now (vec_len seats) outputs }
                ensures { IsWorked board.entry.now plan.entry.now (vec_len seats) result.0 result.1 }
            {
                let context = BatchContext { rt, alloc, gate };
                let task = Task { plan, board };
                work_in_scope(context, scope, task, seats, outputs, spare)
            },
        );
    }
    let mut seats = seats;
    let Some(own) = seats.pop() else {
        return (outputs, None);
    };
    let mut outputs = outputs;
    outputs.add(task, work_to_end(alloc, spare, task, own, gate));
    (outputs, None)
}
