//! Cells that are selected by the results of calls, in a small buffer before they are added to
//! rows.
ghost use Rattle.std.specs.Prelude.{◌≡◌, ◌<◌, ◌≤◌, ◌+◌, ◌++◌, ◌∷◌, [], nat_eq, if◌then◌else◌, take, IfOk, OnOk};
ghost use Rattle.entry_ops.specs.inner.Standing.{FollowIn, with_cells, with_end};

use crate::emitter::push_all;
use crate::operand_rows::Cell;
use csr_store::Rows;
use std::alloc::AllocError;

/// How many cells the buffer holds.
pub const MOST_KEPT: usize = 64;

/// Writes a cell after those that are selected, and counts it if its result is not 0. It is written
/// in any case, so that no branch depends on the result: no processor predicts which cells are
/// selected.
#[inline(always)]
pub fn keep_if(selected: &mut [Cell; MOST_KEPT], many: usize, cell: Cell, answer: u64) -> usize
    requires { many < 64 }
    ensures few { result ≤ 64 }
    ensures selected { take result selected.new
        ≡ (if nat_eq answer 0 then take many selected.old else take many selected.old ++ cell ∷ []) }
{
    selected[many] = cell;
    // The next cell overwrites one that isn't counted.
    many + usize::from(answer != 0)
}

/// Makes the buffer hold another cell: if it is full, its cells are added to the rows. Returns how
/// many it then has.
#[inline(always)]
pub fn make_place(
    rows: &mut Rows,
    selected: &[Cell; MOST_KEPT],
    many: usize,
) -> Result<usize, AllocError>
    requires few { many ≤ 64 }
    requires follow { FollowIn (take many selected.now) rows.old }
    ensures few_left { IfOk result (λ left. left < 64) }
    ensures follow { IfOk result (λ left. FollowIn (take left selected.now) rows.new) }
    ensures same { IfOk result (λ left. with_cells (take left selected.now) rows.new
        ≡ with_cells (take many selected.now) rows.old) }
{
    if many < MOST_KEPT {
        return Ok(many);
    }
    push_all(rows, selected)?;
    Ok(0)
}

/// Adds the cells of the buffer, and ends the open row.
pub fn end_kept(rows: &mut Rows, selected: &[Cell]) -> Result<(), AllocError>
    requires { FollowIn selected.now rows.old }
    ensures { OnOk result (rows.new ≡ with_end (with_cells selected.now rows.old)) }
{
    push_all(rows, selected)?;
    rows.end_row()
}
