//! What came back of the workers that have ended.
ghost use Rattle.std.specs.Prelude.{◌≡◌, ◌<◌, ◌≤◌, ◌+◌, [], IfOk, vec_len, vec_capacity};
ghost use Rattle.race_board.specs.Race.{BoardState};
ghost use Rattle.job_runner.specs.inner.Crew.{IsEnded, AreWorkerOutputs};

use crate::completed_pieces::{no_pieces, put};
use crate::piece::Piece;
use crate::task::Task;
use crate::worker::Worked;
use job_plan::Plan;
use race_board::BoardSeat;
use std::alloc::{AllocError, Global};

/// A worker that has ended: its seat, and what it did.
#[derive(Drop)]
pub struct Ended {
    pub seat: BoardSeat,
    pub worked: Worked,
}

/// The seats of workers that have ended, the pieces of all chunks that they completed, each in the
/// slot of its number, and whether one of them failed.
#[derive(Drop)]
pub struct WorkerOutputs {
    pub seats: Vec<BoardSeat>,
    pub completed_pieces: Vec<Option<Piece>>,
    pub failed: bool,
}

impl WorkerOutputs {
    /// For so many workers, of whom none has ended.
    pub fn new(alloc: Global, plan: &Plan, workers: u64) -> Result<WorkerOutputs, AllocError>
        ensures outputs { IfOk result (λ g. (board : BoardState) → AreWorkerOutputs board plan.now g) }
        ensures capacity { IfOk result (λ g. (vec_len g.seats ≡ 0) × (vec_capacity g.seats ≡ workers)) }
    {
        Ok(WorkerOutputs {
            seats: Vec::with_capacity(alloc, workers as usize)?,
            completed_pieces: no_pieces(alloc, plan)?,
            failed: false,
        })
    }

    /// Takes in a worker that has ended.
    pub fn add(&mut self, task: Task<'_>, ended: Ended)
        requires ended { IsEnded task.board.now task.plan.now ended }
        requires outputs { AreWorkerOutputs task.board.now task.plan.now self.old
            × (vec_len self.old.seats < vec_capacity self.old.seats) }
        ensures outputs { AreWorkerOutputs task.entry.board.now task.entry.plan.now self.new }
        ensures capacity { (vec_len self.new.seats ≡ vec_len self.old.seats + 1)
            × (vec_capacity self.old.seats ≤ vec_capacity self.new.seats) }
    {
        let Ended { seat, worked } = ended;
        let Worked {
            pieces,
            spent: _,
            failed,
        } = worked;
        put(task.plan, &mut self.completed_pieces, pieces);
        self.failed |= failed;
        self.seats.push(seat).unwrap();
    }
}
