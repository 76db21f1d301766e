//! Words of a matrix of one column, by their rows.
ghost use Rattle.std.specs.Prelude.{◌≡◌, ◌<◌, ◌≤◌, None, Some, length, slice_range, if◌then◌else◌, IfSome};
ghost use Rattle.std.specs.FinMap as fin;
ghost use Rattle.csr_store.specs.inner.Column.{first_word, HaveOneEach};

use super::{Cell, Matrix};
use crate::cells::Cells;
use crate::limits::RUN_ROWS;
use std::ops::Range;

impl Matrix {
    /// The word at row `k` of a matrix of one column, and whether there is one. Where there is none it is any word, so that a
    /// caller may go on with it before the answer is known. Of rows that all have a word no start is read: of a whole column, or of
    /// the 256 rows of a run.
    #[inline(always)]
    pub fn word_in_column(&self, k: u64) -> (u64, bool)
        requires column { self.now.columns ≡ 1 }
        requires row { k < self.now.rows }
        ensures { fin.get self.now.cells (k, 0) ≡ (if result.1 then Some result.0 else None) }
    {
        let starts = self.starts.list();
        match &self.cells {
            Cells::Whole(cells) => {
                if cells.len() as u64 == self.rows {
                    return (cells[k as usize].1, true);
                }
                let from = starts[k as usize];
                let to = starts[k as usize + 1];
                first_between(cells, from as usize, to as usize)
            }
            Cells::Runs(runs) => {
                let run = k / RUN_ROWS;
                let cells = &runs[run as usize];
                if cells.len() as u64 == RUN_ROWS {
                    return (cells[(k % RUN_ROWS) as usize].1, true);
                }
                let before = starts[(run * RUN_ROWS) as usize];
                let from = starts[k as usize] - before;
                let to = starts[k as usize + 1] - before;
                first_between(cells, from as usize, to as usize)
            }
        }
    }

    /// The cells of rows of one column, all of one run, if each of the rows has one.
    pub(crate) fn one_each(&self, range: Range<u64>) -> Option<&[Cell]>
        requires range { range.start ≤ range.end }
        requires within { range.end ≤ self.now.rows }
        ensures { IfSome result (λ cells. HaveOneEach self.now range.start range.end cells.now) }
    {
        let in_run = range.end - range.start / RUN_ROWS * RUN_ROWS <= RUN_ROWS;
        if self.columns() != 1 || !in_run {
            return None;
        }
        let many = (range.end - range.start) as usize;
        let cells = self.cells_of(range.start..range.end);
        if cells.len() == many {
            Some(cells)
        } else {
            None
        }
    }
}

/// The word of the first of the cells between two places, and whether there is one. Where there is none it is the word of some
/// cell: no jump waits for the places.
#[inline(always)]
fn first_between(cells: &[Cell], from: usize, to: usize) -> (u64, bool)
    requires order { from ≤ to }
    requires within { to ≤ length cells.now }
    ensures { first_word (slice_range cells.now from to) ≡ (if result.1 then Some result.0 else None) }
{
    if cells.is_empty() {
        return (0, false);
    }
    let nth = from.min(cells.len() - 1);
    (cells[nth].1, from < to)
}
