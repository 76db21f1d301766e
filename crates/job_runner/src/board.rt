//! The board of a batch.
ghost use Rattle.std.specs.Prelude.{◌≡◌, ◌≤◌, [], All, IfOk, vec_len};
ghost use Rattle.race_board.specs.Race.{MayDrawAt, SeatState};
ghost use Rattle.job_plan.specs.Chunks.{prices_of};

use job_plan::Plan;
use race_board::{Board, BoardSeat, PricedChunks};
use std::alloc::{AllocError, Global};

/// The chunks of a plan. A batch has no list of their prices: a chunk of a product has to be counted
/// for its price.
#[derive(Clone, Copy)]
pub(crate) struct PlanChunks<'a> {
    plan: &'a Plan,
}

impl<'a> PricedChunks for PlanChunks<'a> {
    ghost use Rattle.job_plan.specs.Chunks.{prices_of};

    ghost prices = { λ chunks. prices_of chunks.plan.now };

    fn count(self) -> u64 {
        self.plan.recall();
        self.plan.chunks()
    }
}

/// A board on which so many workers draw the chunks of a plan, with a seat for each.
pub fn open_board(
    alloc: Global,
    plan: &Plan,
    workers: u64,
) -> Result<(Board, Vec<BoardSeat>), AllocError>
    requires { (1 ≤ workers) × (workers ≤ 64) }
    ensures board { IfOk result (λ r. (r.0.prices ≡ prices_of plan.now) × (r.0.workers ≡ workers)
        × (vec_len r.1 ≡ workers)) }
    ensures ready { IfOk result (λ r. All (MayDrawAt r.0) r.1.items) }
    ensures fresh { IfOk result (λ r. All (λ (s : SeatState). s.worker.done ≡ []) r.1.items) }
{
    plan.recall();
    let (board, seats) = Board::open(alloc, PlanChunks { plan }, workers)?;
    Ok((board, seats))
}
