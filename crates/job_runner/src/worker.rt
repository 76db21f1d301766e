//! One worker.
ghost use Rattle.std.specs.Prelude.{◌≡◌, ◌++◌, ◌∷◌, [], OnOk, OnErr};
ghost use Rattle.csr_store.specs.Run.{Run};
ghost use Rattle.race_board.specs.Race.{MayDrawAt};
ghost use Rattle.job_plan.specs.Chunks.{prices_of};
ghost use Rattle.job_runner.specs.Worked.{HasWorked};
ghost use Rattle.job_runner.specs.inner.Worked.{IsHolding, IsMadeFor, IsRecorded};

use crate::chunk::{Scratch, SpareScratch, compute};
use crate::gate::Gate;
use crate::piece::Piece;
use crate::task::Task;
use job_forms::Chunk;
use job_plan::Plan;
use race_board::{Board, BoardSeat};
use std::alloc::{AllocError, Global};

/// What a worker did: the pieces of the chunks that it completed, in order of its draws, the steps
/// of all its calls, and whether it failed a chunk by running out of memory.
#[derive(Drop)]
pub struct Worked {
    pub pieces: Vec<Piece>,
    pub spent: u64,
    pub failed: bool,
}

/// Draws chunks of a plan, computes them and completes them, until the seat is told the end or a
/// chunk runs out of memory.
pub fn work<G: Gate>(
    alloc: Global,
    plan: &Plan,
    board: &Board,
    seat: &mut BoardSeat,
    gate: &G,
) -> Worked
    requires ready { MayDrawAt board.now seat.old }
    requires prices { board.now.prices ≡ prices_of plan.now }
    ensures { HasWorked board.now plan.now seat.old seat.new result }
{
    let mut spare = SpareScratch::new();
    work_with_spare(alloc, &mut spare, Task { plan, board }, seat, gate)
}

/// As `work`, with the buffers of an earlier batch, where there are any.
pub(crate) fn work_with_spare<G: Gate>(
    alloc: Global,
    spare: &mut SpareScratch,
    task: Task<'_>,
    seat: &mut BoardSeat,
    gate: &G,
) -> Worked
    requires ready { MayDrawAt task.board.now seat.old }
    requires prices { task.board.now.prices ≡ prices_of task.plan.now }
    ensures { HasWorked task.entry.board.now task.entry.plan.now seat.old seat.new result }
{
    match spare.take(alloc) {
        Ok(mut scratch) => {
            let worked = draw_chunks(alloc, &mut scratch, task, seat, gate);
            spare.put(scratch);
            worked
        }
        Err(AllocError) => fail_first(alloc, task, seat, gate),
    }
}

/// Draws chunks, computes and completes them, all with the same buffers.
fn draw_chunks<G: Gate>(
    alloc: Global,
    scratch: &mut Scratch,
    task: Task<'_>,
    seat: &mut BoardSeat,
    gate: &G,
) -> Worked
    requires ready { MayDrawAt task.board.now seat.old }
    requires prices { task.board.now.prices ≡ prices_of task.plan.now }
    ensures { HasWorked task.entry.board.now task.entry.plan.now seat.old seat.new result }
{
    task.plan.recall();
    let mut pieces = Vec::new(alloc);
    let mut spent = 0;
    let mut for_proof_next = 0;
    while let Some(chunk) = task.board.draw(seat) {
        gate.enter(chunk);
        let computed = compute(alloc, scratch, task.plan, chunk);
        match record_chunk(task, seat, chunk, computed, &mut pieces) {
            ChunkEnd::Completed(steps) => spent += steps,
            ChunkEnd::Failed(steps) => {
                return Worked {
                    pieces,
                    spent: spent + steps,
                    failed: true,
                };
            }
        }
        gate.leave(chunk);
        for_proof_next = chunk + 1;
    }
    Worked {
        pieces,
        spent,
        failed: false,
    }
}

/// Fails the next chunk before the first call of an operator, if there is a chunk.
fn fail_first<G: Gate>(alloc: Global, task: Task<'_>, seat: &mut BoardSeat, gate: &G) -> Worked
    requires ready { MayDrawAt task.board.now seat.old }
    requires prices { task.board.now.prices ≡ prices_of task.plan.now }
    ensures { HasWorked task.entry.board.now task.entry.plan.now seat.old seat.new result }
{
    let Some(chunk) = task.board.draw(seat) else {
        return Worked {
            pieces: Vec::new(alloc),
            spent: 0,
            failed: false,
        };
    };
    gate.enter(chunk);
    task.board.fail(seat, chunk, 0);
    Worked {
        pieces: Vec::new(alloc),
        spent: 0,
        failed: true,
    }
}

/// How the work on a chunk ended, with the steps of its calls. A chunk fails if memory runs out;
/// then the steps are those of the calls before.
#[derive(Clone, Copy)]
pub(crate) enum ChunkEnd {
    Completed(u64),
    Failed(u64),
}

/// Records the chunk that the seat holds: as complete, with its piece after the others, or, where
/// memory was refused, as failed.
fn record_chunk(
    task: Task<'_>,
    seat: &mut BoardSeat,
    chunk: u64,
    computed: Chunk,
    pieces: &mut Vec<Piece>,
) -> ChunkEnd
    requires holds { IsHolding task.board.now chunk seat.old }
    requires computed { IsMadeFor task.plan.now chunk computed }
    requires prices { task.board.now.prices ≡ prices_of task.plan.now }
    ensures { IsRecorded task.entry.board.now task.entry.plan.now chunk result seat.old seat.new pieces.old.items pieces.new.items }
{
    task.plan.recall();
    let steps = computed.steps;
    match add_piece(chunk, computed, pieces) {
        Ok(()) => {
            task.board.complete(seat, chunk, steps);
            ChunkEnd::Completed(steps)
        }
        Err(AllocError) => {
            task.board.fail(seat, chunk, steps);
            ChunkEnd::Failed(steps)
        }
    }
}

/// Appends the rows of a chunk to other pieces.
///
/// # Errors
///
/// Memory was refused, here or for the rows.
fn add_piece(chunk: u64, computed: Chunk, pieces: &mut Vec<Piece>) -> Result<(), AllocError>
    ensures put { OnOk result ((rows : Run) × (computed.result ≡ Ok rows) × (pieces.new.items ≡ pieces.old.items ++
        record { chunk = chunk; rows = rows; steps = computed.steps } ∷ [])) }
    ensures unchanged { OnErr result (pieces.new.items ≡ pieces.old.items) }
{
    let Chunk { result, steps } = computed;
    let rows = result?;
    pieces.push(Piece { chunk, rows, steps })?;
    Ok(())
}
