//! The cells of a matrix: in one list, or in runs of rows.
ghost use Rattle.std.specs.Prelude.{◌≡◌, ◌<◌, ◌*◌, length, get_or, slice_range};
ghost use Rattle.csr_store.specs.inner.Cells.{IsPart, joined_cells};

use crate::limits::RUN_ROWS;
use crate::matrix::Cell;
use crate::row::cells_between;

/// The cells of a matrix, row after row.
#[derive(Drop)]
pub enum Cells {
    /// All in one list, as they were read.
    Whole(Vec<Cell>),
    /// Each run's cells in a list of their own, as they were computed.
    Runs(Vec<Vec<Cell>>),
}

impl Cells {
    /// The cells from one index up to another, both counted from the first cell of the matrix. If
    /// the cells are in runs, one run has all of these; its first row says how many cells come
    /// before.
    #[inline(always)]
    pub fn part(&self, starts: &[u64], run: u64, from: u64, to: u64) -> &[Cell]
        requires start { run * 256 < length starts.now }
        requires part { IsPart self.now run (get_or starts.now (run * 256) 0) from to }
        ensures { result.now ≡ slice_range (joined_cells self.now) from to }
    {
        match self {
            Cells::Whole(cells) => cells_between(cells, from as usize, to as usize),
            Cells::Runs(runs) => {
                let before = starts[(run * RUN_ROWS) as usize];
                cells_between(
                    &runs[run as usize],
                    (from - before) as usize,
                    (to - before) as usize,
                )
            }
        }
    }
}
