//! Rows of a matrix that are read one after the other.
ghost use Rattle.std.specs.Prelude.{◌≡◌, ◌<◌, ◌≤◌, ◌+◌, ◌-◌, map};
ghost use Rattle.std.specs.List.{range_with_len};
ghost use Rattle.csr_store.specs.Along.{along};
ghost use Rattle.csr_store.specs.Grid.{row_of, row_start};

use crate::matrix::{Cell, Matrix};
use std::marker::Model;

/// Reads rows one after the other. Only the list that their cells stand in is looked up, and that
/// once for 256 rows. A contract sees the matrix, and which row comes next.
#[derive(Drop)]
pub struct RowReader<'m> {
    matrix: &'m Matrix,
    starts: &'m [u64],
    row: u64,
    /// The cells of the next row, and of those behind it up to `end`.
    cells: &'m [Cell],
    end: u64,
}

impl<'m> Model for RowReader<'m> {
    ghost use Rattle.std.specs.Prelude.{◌≡◌, ◌≤◌, ◌-◌};
    ghost use Rattle.csr_store.specs.Along.{along};
    ghost use Rattle.csr_store.specs.Grid.{limit, row_of};
    ghost use Rattle.csr_store.specs.Reading.{Reading, reading_code};
    ghost use Rattle.csr_store.specs.inner.Starts.{starts_of};

    ghost Value = { Reading };

    ghost coded = { reading_code };

    ghost view = { λ r. record { grid = r.matrix.now; row = r.row } };

    ghost invariant = { λ r. (r.starts.now ≡ starts_of r.matrix.now) × (r.matrix.now.rows ≤ limit)
        × (r.row ≤ r.end) × (r.end ≤ r.matrix.now.rows)
        × (r.cells.now ≡ along (row_of r.matrix.now) r.row (r.end - r.row)) };
}

impl<'m> RowReader<'m> {
    /// Reads a matrix from a row on.
    pub(crate) fn begin(matrix: &'m Matrix, row: u64) -> Self
        requires { row ≤ matrix.now.rows }
        ensures { result ≡ record { grid = matrix.now; row = row } }
    {
        matrix.recall();
        RowReader {
            matrix,
            starts: matrix.starts(),
            row,
            cells: &[],
            end: row,
        }
    }

    /// The number of the next row.
    #[inline(always)]
    pub fn row(&self) -> u64
        ensures { result ≡ self.now.row }
    {
        self.row
    }

    /// The entries of the next row, by ascending column.
    #[inline(always)]
    pub fn next_row(&mut self) -> &'m [Cell]
        requires { self.old.row < self.old.grid.rows }
        ensures row { result.now ≡ row_of self.old.grid self.old.row }
        ensures next { self.new ≡ record self.old { row = self.old.row + 1 } }
    {
        let (cells, end) = self.list();
        let starts = self.starts;
        let nth = self.row as usize;
        let many = starts[nth + 1] - starts[nth];
        let (row, later) = cells.split_at(many as usize);
        self.cells = later;
        self.end = end;
        self.row += 1;
        row
    }

    /// The cells of the next row and of those behind it that stand in one list, up to a row.
    #[inline(always)]
    fn list(&self) -> (&'m [Cell], u64)
        requires { self.now.row < self.now.grid.rows }
        ensures end { (self.now.row < result.1) × (result.1 ≤ self.now.grid.rows) }
        ensures cells { result.0.now ≡ along (row_of self.now.grid) self.now.row (result.1 - self.now.row) }
    {
        if self.row < self.end {
            (self.cells, self.end)
        } else {
            self.matrix.list_from(self.row)
        }
    }
}
