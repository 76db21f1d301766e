//! Rows of a matrix that are copied with other values: each cell is written once.
ghost use Rattle.std.specs.Prelude.{◌≡◌, ◌≤◌, ◌+◌, ◌++◌, [], length, slice_range, vec_capacity};
ghost use Rattle.csr_store.specs.Valued.{AreAlike, all_cells, entries_of, valued_from};
ghost use Rattle.csr_store.specs.inner.Copied.{run_by_ends};
ghost use Rattle.csr_store.specs.inner.Run.{AreRows};

use crate::matrix::Cell;
use crate::row::cells_between;
use crate::rows::Rows;
use std::marker::Model;
use std::mem;

/// Rows of a matrix of which the first entries were written with other values; the others are still
/// the matrix's own.
#[derive(Drop)]
pub struct RowCopy<'m> {
    first: u64,
    columns: u64,
    ends: Vec<u64>,
    written: Vec<Cell>,
    /// All entries, as the matrix has them.
    source: &'m [Cell],
}

impl<'m> Model for RowCopy<'m> {
    ghost use Rattle.std.specs.Prelude.{◌≤◌, length, vec_capacity};
    ghost use Rattle.csr_store.specs.Copied.{Copied, copied_code};
    ghost use Rattle.csr_store.specs.inner.Copied.{copied_cells, run_by_ends};
    ghost use Rattle.csr_store.specs.inner.Run.{AreRows};

    ghost Value = { Copied };

    ghost coded = { copied_code };

    ghost view = { λ c. record {
      run = run_by_ends c.first c.columns c.ends.items (copied_cells c.written.items c.source.now);
      written = length c.written.items;
    } };

    ghost invariant = { λ c. AreRows c.columns c.ends.items (copied_cells c.written.items c.source.now)
        × (length c.written.items ≤ length c.source.now)
        × (length c.source.now ≤ vec_capacity c.written) };
}

impl<'m> RowCopy<'m> {
    /// Rows by where each ends among cells, of which none was written, with capacity for all.
    pub(crate) fn of_ends(
        first: u64,
        columns: u64,
        ends: Vec<u64>,
        written: Vec<Cell>,
        source: &'m [Cell],
    ) -> Self
        requires rows { AreRows columns ends.items source.now }
        requires none { written.items ≡ [] }
        requires capacity { length source.now ≤ vec_capacity written }
        ensures { result ≡ record { run = run_by_ends first columns ends.items source.now; written = 0 } }
    {
        RowCopy {
            first,
            columns,
            ends,
            written,
            source,
        }
    }

    /// How many entries the rows have.
    pub fn entries(&self) -> usize
        ensures { result ≡ entries_of self.now.run }
    {
        self.source.len()
    }

    /// How many of them were written.
    pub fn written(&self) -> usize
        ensures { result ≡ self.now.written }
    {
        self.written.len()
    }

    /// The next `many` entries that were not written.
    #[inline(always)]
    pub fn next_cells(&self, many: usize) -> &[Cell]
        requires { self.now.written + many ≤ entries_of self.now.run }
        ensures { result.now ≡ slice_range (all_cells self.now.run) self.now.written (self.now.written + many) }
    {
        let from = self.written.len();
        &self.source[from..from + many]
    }

    /// Writes the next entries with other values, as many as there are values.
    pub fn write_values(&mut self, values: &[u64])
        requires { self.old.written + length values.now ≤ entries_of self.old.run }
        ensures alike { AreAlike self.old.run self.new.run }
        ensures values { all_cells self.new.run ≡ valued_from self.old.written values.now (all_cells self.old.run) }
        ensures written { self.new.written ≡ self.old.written + length values.now }
    {
        let from = self.written.len();
        let columns = cells_between(self.source, from, from + values.len());
        // a list of its own, so that its length and its address are not looked up for each cell
        let none = Vec::new(*self.written.allocator());
        let mut written = mem::replace(&mut self.written, none);
        push_valued(&mut written, columns, values);
        self.written = written;
    }

    /// The rows, when all their entries were written.
    pub fn finish(self) -> Rows
        requires { self.written ≡ entries_of self.run }
        ensures { result ≡ self.entry.run }
    {
        Rows::of_ends(self.first, self.columns, self.ends, self.written)
    }
}

/// Adds cells with other values to a list that has capacity for them.
#[inline(always)]
fn push_valued(written: &mut Vec<Cell>, columns: &[Cell], values: &[u64])
    requires same { length columns.now ≡ length values.now }
    requires capacity { length written.old.items + length values.now ≤ vec_capacity written.old }
    ensures pushed { written.new.items ≡ valued_from (length written.old.items) values.now (written.old.items ++ columns.now) }
    ensures capacity { vec_capacity written.old ≤ vec_capacity written.new }
{
    let mut next = 0;
    for value in values {
        written.push_reserved((columns[next].0, *value));
        next += 1;
    }
}
