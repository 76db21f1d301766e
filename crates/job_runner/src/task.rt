//! What the workers of a batch share.

use job_plan::Plan;
use race_board::Board;

/// A plan, and the board on which its chunks are drawn.
#[derive(Clone, Copy)]
pub struct Task<'a> {
    pub plan: &'a Plan,
    pub board: &'a Board,
}
