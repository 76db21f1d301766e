//! The words of a column, row by row, read without a branch on which rows have one.
ghost use Rattle.std.specs.Prelude.{◌≡◌, ◌<◌, ◌≤◌, ◌+◌, length, slice_index_or};
ghost use Rattle.csr_store.specs.Run.{IsInRun};
ghost use Rattle.entry_ops.specs.inner.ColumnPairs.{word_in, word_if};

use crate::operand_rows::Cell;
use csr_store::Matrix;
use std::marker::Model;
use std::ops::Range;

/// Reads the words of rows of a column, all in one run. A contract sees the matrix, which row comes
/// next, and where the rows end.
#[derive(Drop)]
pub struct ColumnReader<'m> {
    matrix: &'m Matrix,
    starts: &'m [u64],
    cells: &'m [Cell],
    row: u64,
    end: u64,
    /// How many of the cells were read.
    read: usize,
}

impl<'m> Model for ColumnReader<'m> {
    ghost use Rattle.std.specs.Prelude.{◌≡◌, ◌≤◌, ◌-◌, ◌+◌, drop, length, map};
    ghost use Rattle.std.specs.List.{range_with_len};
    ghost use Rattle.csr_store.specs.Along.{along};
    ghost use Rattle.csr_store.specs.Grid.{IsGrid, row_of, row_start};
    ghost use Rattle.entry_ops.specs.inner.ColumnPairs.{ColumnReading, reading_code};

    ghost Value = { ColumnReading };

    ghost coded = { reading_code };

    ghost view = { λ r. record { grid = r.matrix.now; row = r.row; end = r.end } };

    ghost invariant = { λ r. IsGrid r.matrix.now × (r.matrix.now.columns ≡ 1)
        × (r.starts.now ≡ map (row_start r.matrix.now) (range_with_len 0 (r.matrix.now.rows + 1)))
        × (r.row ≤ r.end) × (r.end ≤ r.matrix.now.rows) × (r.read ≤ length r.cells.now)
        × (drop r.read r.cells.now ≡ along (row_of r.matrix.now) r.row (r.end - r.row)) };
}

impl<'m> ColumnReader<'m> {
    /// The rows of a range.
    pub fn of_rows(column: &'m Matrix, range: Range<u64>) -> Self
        requires column { column.now.columns ≡ 1 }
        requires range { (range.start ≤ range.end) × IsInRun range.start range.end }
        requires within { range.end ≤ column.now.rows }
        ensures { result ≡ record { grid = column.now; row = range.start; end = range.end } }
    {
        column.recall();
        ColumnReader {
            matrix: column,
            starts: column.starts(),
            cells: column.cells_of(range.start..range.end),
            row: range.start,
            end: range.end,
            read: 0,
        }
    }

    /// The word of the next row, and whether the row has one. If not, the word may be any.
    #[inline(always)]
    pub fn next_word(&mut self) -> (u64, bool)
        requires { self.old.row < self.old.end }
        ensures word { word_in self.old.grid self.old.row ≡ word_if result }
        ensures next { self.new ≡ record self.old { row = self.old.row + 1 } }
    {
        let nth = self.row as usize;
        let stands = self.starts[nth + 1] != self.starts[nth];
        // Whether it is this row's or not, so that no branch depends on which rows have a word.
        let word = word_at(self.cells, self.read);
        self.read += usize::from(stands);
        self.row += 1;
        (word, stands)
    }
}

/// The word of a cell, or 0 behind the last.
#[inline(always)]
fn word_at(cells: &[Cell], nth: usize) -> u64
    ensures { nth < length cells.now → result ≡ (slice_index_or cells.now nth (0, 0)).1 }
{
    if nth < cells.len() { cells[nth].1 } else { 0 }
}
