//! Pieces of a batch, each in the slot of its chunk's number.
ghost use Rattle.std.specs.Prelude.{◌<◌, ◌⊎◌, ℕ, IfOk};
ghost use Rattle.std.specs.List.{AllByRecursion};
ghost use Rattle.race_board.specs.Chunks.{times_in};
ghost use Rattle.job_runner.specs.Worked.{recorded, IsPieceOf};
ghost use Rattle.job_runner.specs.inner.CompletedPieces.{AreCompletedPieces, IsFull};

use crate::piece::Piece;
use job_plan::Plan;
use std::alloc::{AllocError, Global};

/// A slot for each chunk, all of them empty.
pub(crate) fn no_pieces(alloc: Global, plan: &Plan) -> Result<Vec<Option<Piece>>, AllocError>
    ensures { IfOk result (λ v. AreCompletedPieces plan.now v.items) }
{
    let count = plan.chunks();
    let mut completed_pieces = Vec::with_capacity(alloc, count as usize)?;
    for _nth in 0..count {
        completed_pieces.push(None)?;
    }
    Ok(completed_pieces)
}

/// Moves pieces into the slots of their chunks.
pub(crate) fn put(plan: &Plan, completed_pieces: &mut Vec<Option<Piece>>, pieces: Vec<Piece>)
    requires completed_pieces { AreCompletedPieces plan.now completed_pieces.old.items }
    requires right { AllByRecursion (IsPieceOf plan.now) pieces.items }
    ensures completed_pieces { AreCompletedPieces plan.now completed_pieces.new.items }
    ensures full { (c : ℕ) → IsFull completed_pieces.old.items c ⊎ (0 < times_in c (recorded pieces.items))
        → IsFull completed_pieces.new.items c }
{
    let _ = plan;
    let mut pieces = pieces;
    while let Some(piece) = pieces.pop() {
        let nth = piece.chunk as usize;
        completed_pieces[nth] = Some(piece);
    }
}
