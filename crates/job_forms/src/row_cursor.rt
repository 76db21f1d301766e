//! Reading a row alongside another.
ghost use Rattle.std.specs.Prelude.{◌≡◌, ◌≤◌, ℕ};
ghost use Rattle.csr_store.specs.Ascending.{Ascends, at};
ghost use Rattle.job_forms.specs.inner.Cursor.{first_column};

use std::marker::Model;

/// A position in a row, by ascending columns. A contract sees the cells that are left.
#[derive(Drop)]
pub struct RowCursor<'r> {
    cells: &'r [(u64, u64)],
    /// The column of the first of them, or the greatest number if none is left.
    next: u64,
}

impl<'r> Model for RowCursor<'r> {
    ghost use Rattle.std.specs.Prelude.{◌≡◌, List};
    ghost use Rattle.csr_store.specs.Grid.{Cell};
    ghost use Rattle.job_forms.specs.inner.Cursor.{first_column};

    ghost Value = { List Cell };

    ghost view = { λ c. c.cells.now };

    ghost invariant = { λ c. c.next ≡ first_column c.cells.now };
}

/// The column of the first of some cells.
#[inline(always)]
fn first_column(cells: &[(u64, u64)]) -> u64
    ensures { result ≡ first_column cells.now }
{
    match cells.first() {
        Some(cell) => cell.0,
        // Greater than any column, so that the end needs no test of its own.
        None => u64::MAX,
    }
}

impl<'r> RowCursor<'r> {
    /// At the first cell of a row.
    #[inline(always)]
    pub fn new(row: &'r [(u64, u64)]) -> Self
        ensures { result ≡ row.now }
    {
        RowCursor {
            cells: row,
            next: first_column(row),
        }
    }

    /// Skips the cells before a column.
    #[inline(always)]
    pub fn advance_to(&mut self, column: u64)
        ensures { (n : ℕ) → Ascends 0 n self.old → Ascends column n self.new
            × ((j : ℕ) → column ≤ j → at self.old j ≡ at self.new j) }
    {
        // In locals, so that the loop doesn't write through `self`.
        let mut cells = self.cells;
        let mut next = self.next;
        while next < column {
            let Some((_, more)) = cells.split_first() else {
                break;
            };
            cells = more;
            next = first_column(cells);
        }
        self.cells = cells;
        self.next = next;
    }

    /// The word at a column, if what is left begins there or later.
    #[inline(always)]
    pub fn word_at(&self, column: u64) -> Option<u64>
        ensures { (n : ℕ) → Ascends column n self.now → result ≡ at self.now column }
    {
        // Compared without a look at the cells, which are read on a hit alone.
        if self.next != column {
            return None;
        }
        match self.cells.first() {
            Some(cell) => Some(cell.1),
            None => None,
        }
    }
}
