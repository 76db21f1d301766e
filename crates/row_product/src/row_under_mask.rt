//! A row of B read alongside the mask's row, for the cells that pass.
ghost use Rattle.std.specs.Prelude.{◌≡◌, ◌≤◌, ◌<◌, ◌++◌, ℕ, List, length, take};
ghost use Rattle.csr_store.specs.Grid.{Cell};
ghost use Rattle.row_product.specs.inner.Adding.{taking};
ghost use Rattle.row_product.specs.inner.RowUnderMask.{stores, IsRowUnderMask};

use bpf_run::MOST_CALLS;
use job_forms::RowCursor;

/// What is left of a row of B, and of the mask's row.
#[derive(Drop)]
pub(crate) struct RowUnderMask<'r> {
    pub(crate) cells: &'r [(u64, u64)],
    pub(crate) mask: RowCursor<'r>,
}

/// Copies the next cells that pass, up to 64, to the front. Returns what is left, and how many they
/// are. Each cell is copied, and the next overwrites one that doesn't pass.
pub(crate) fn list_passing<'r>(
    row: RowUnderMask<'r>,
    passing: &mut [(u64, u64)],
) -> (RowUnderMask<'r>, usize)
    requires { 64 ≤ length passing.old }
    ensures listed { (whole : List Cell) (n : ℕ) → IsRowUnderMask whole n row.entry.cells.now row.entry.mask
        → IsRowUnderMask whole n result.0.cells.now result.0.mask
        × (take result.1 passing.new ++ taking (stores whole) result.0.cells.now ≡ taking (stores whole) row.entry.cells.now) }
    ensures few { result.1 ≤ 64 }
    ensures capacity { length passing.new ≡ length passing.old }
    ensures fewer { 0 < length row.entry.cells.now → length result.0.cells.now < length row.entry.cells.now }
{
    let RowUnderMask {
        mut cells,
        mut mask,
    } = row;
    let mut count = 0;
    while count < MOST_CALLS {
        let Some((cell, more)) = cells.split_first() else {
            break;
        };
        // Both rows ascend, so the mask's is read once.
        mask.advance_to(cell.0);
        passing[count] = *cell;
        // Added, not branched on: no processor predicts which cells pass.
        count += usize::from(mask.word_at(cell.0).is_some());
        cells = more;
    }
    (RowUnderMask { cells, mask }, count)
}
