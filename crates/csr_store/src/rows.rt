//! Runs of rows.
ghost use Rattle.std.specs.Prelude.{◌≡◌, ◌<◌, ◌≤◌, ◌+◌, ◌-◌, ◌++◌, ◌∷◌, [], length, replicate, IfOk, OnOk, OnErr};
ghost use Rattle.std.specs.List.{AllByRecursion};
ghost use Rattle.csr_store.specs.Grid.{Cell, limit, row_of};
ghost use Rattle.csr_store.specs.Added.{kept_rows};
ghost use Rattle.csr_store.specs.Along.{along};
ghost use Rattle.csr_store.specs.Ascending.{Ascends};
ghost use Rattle.csr_store.specs.Shown.{cells_shown};
ghost use Rattle.csr_store.specs.ByRows.{ends_of};
ghost use Rattle.csr_store.specs.Valued.{entries_in, entries_of, with_value, all_cells, valued_from, AreAlike};
ghost use Rattle.csr_store.specs.inner.Column.{HaveOneEach};
ghost use Rattle.csr_store.specs.inner.Run.{AreClosed, AreRows, IsRow, ended_rows, open_row};

use crate::ends::RowEnds;
use crate::matrix::{Cell, Matrix};
use crate::row::{append, put_values};
use crate::selected::{add_shown, add_where, push_if, room_for};
use std::alloc::{AllocError, Global};
use std::marker::Model;
use std::ops::Range;

/// A run of rows that follow one another: the ended ones, and the one that is open.
#[derive(Drop)]
pub struct Rows {
    first: u64,
    columns: u64,
    ends: RowEnds,
    cells: Vec<Cell>,
}

impl Model for Rows {
    ghost use Rattle.csr_store.specs.Run.{Run, run_code};
    ghost use Rattle.csr_store.specs.inner.Run.{ended_rows, open_row, AreRows};

    ghost Value = { Run };

    ghost coded = { run_code };

    ghost view = { λ r. record {
      first = r.first;
      columns = r.columns;
      ended = ended_rows 0 r.ends r.cells.items;
      opened = open_row 0 r.ends r.cells.items;
    } };

    ghost invariant = { λ r. AreRows r.columns r.ends r.cells.items };
}

impl Rows {
    /// Rows by where each ends among cells.
    pub(crate) fn of_ends(first: u64, columns: u64, ends: Vec<u64>, cells: Vec<Cell>) -> Self
        requires { AreRows columns ends.items cells.items }
        ensures { result ≡ record {
          first = first;
          columns = columns;
          ended = ended_rows 0 ends.items cells.items;
          opened = open_row 0 ends.items cells.items;
        } }
    {
        Rows {
            first,
            columns,
            ends: RowEnds::of(ends),
            cells,
        }
    }

    /// No row yet, of those from `first` on. Takes no memory.
    pub fn begin(alloc: Global, first: u64, columns: u64) -> Self
        ensures { result ≡ record { first = first; columns = columns; ended = []; opened = [] } }
    {
        Rows {
            first,
            columns,
            ends: RowEnds::none(alloc),
            cells: Vec::new(alloc),
        }
    }

    /// The rows of a range of a matrix, with those of their cells whose answer is not 0. Takes
    /// memory for these, and for one cell more.
    pub fn selected(
        alloc: Global,
        a: &Matrix,
        range: Range<u64>,
        answers: &[u64],
    ) -> Result<Self, AllocError>
        requires range { range.start ≤ range.end }
        requires within { range.end ≤ a.now.rows }
        requires answers { length answers.now ≡ length (along (row_of a.now) range.start (range.end - range.start)) }
        ensures { IfOk result (λ r. r ≡ record {
          first = range.start;
          columns = a.now.columns;
          ended = kept_rows a.now answers.now range.start (range.end - range.start);
          opened = [];
        }) }
    {
        if let Some(cells) = a.one_each(range.start..range.end) {
            return Rows::selected_each(alloc, a, range, cells, answers);
        }
        let mut ends = Vec::with_capacity(alloc, (range.end - range.start) as usize)?;
        let mut cells = Vec::with_capacity(alloc, room_for(answers))?;
        let mut reader = a.rows_from(range.start);
        let mut left = answers;
        a.recall();
        while reader.row() < range.end {
            let here = reader.next_row();
            let (now, later) = left.split_at(here.len());
            add_where(&mut cells, here, now);
            ends.push_reserved(cells.len() as u64);
            left = later;
        }
        Ok(Rows {
            first: range.start,
            columns: a.columns(),
            ends: RowEnds::of(ends),
            cells,
        })
    }

    /// The same of rows that have one cell each: one loop over the cells, without a branch.
    fn selected_each(
        alloc: Global,
        a: &Matrix,
        range: Range<u64>,
        cells: &[Cell],
        answers: &[u64],
    ) -> Result<Self, AllocError>
        requires each { HaveOneEach a.now range.start range.end cells.now }
        requires answers { length answers.now ≡ length cells.now }
        ensures { IfOk result (λ r. r ≡ record {
          first = range.start;
          columns = a.now.columns;
          ended = kept_rows a.now answers.now range.start (range.end - range.start);
          opened = [];
        }) }
    {
        let mut ends = Vec::with_capacity(alloc, cells.len())?;
        let mut selected = Vec::with_capacity(alloc, room_for(answers))?;
        a.recall();
        let mut next = 0;
        for (column, word) in cells {
            push_if(&mut selected, *column, *word, answers[next]);
            ends.push_reserved(selected.len() as u64);
            next += 1;
        }
        Ok(Rows::of_ends(range.start, a.columns(), ends, selected))
    }

    /// Reserves memory for `entries` more entries. If it grows, it at least doubles.
    #[inline]
    pub fn reserve(&mut self, entries: usize) -> Result<(), AllocError>
        ensures { self.new ≡ self.old }
    {
        if self.cells.capacity() - self.cells.len() >= entries {
            return Ok(());
        }
        self.widen(entries)
    }

    /// Reserves memory for the ends of `rows` more rows.
    pub fn reserve_rows(&mut self, rows: usize) -> Result<(), AllocError>
        ensures { self.new ≡ self.old }
    {
        self.ends.reserve(rows)
    }

    /// Moves the entries into a list with capacity for `entries` more, and for at least twice as
    /// many.
    #[inline(never)]
    fn widen(&mut self, entries: usize) -> Result<(), AllocError>
        ensures { self.new ≡ self.old }
    {
        let len = self.cells.len();
        let capacity = len.saturating_add(entries.max(len));
        let mut wider = Vec::with_capacity(*self.cells.allocator(), capacity)?;
        append(&mut wider, &self.cells)?;
        self.cells = wider;
        Ok(())
    }

    /// Gives back the memory that was taken for entries beyond those it has.
    pub fn trim(&mut self)
        ensures { self.new ≡ self.old }
    {
        self.cells.shrink_to_fit();
    }

    /// Appends an entry to the open row. On a refusal the run is as before.
    pub fn push(&mut self, column: u64, value: u64) -> Result<(), AllocError>
        requires within { column < self.old.columns }
        requires above { AllByRecursion (λ (c : Cell). c.0 < column) self.old.opened }
        ensures pushed { OnOk result
            (self.new ≡ record self.old { opened = self.old.opened ++ (column, value) ∷ [] }) }
        ensures unchanged { OnErr result (self.new ≡ self.old) }
    {
        self.cells.push((column, value))?;
        Ok(())
    }

    /// Appends the cells of a row at whose columns a mask's row has one, where the open row has no
    /// entry yet. On a refusal the run is as before.
    #[inline]
    pub fn push_shown(&mut self, cells: &[Cell], mask: &[Cell]) -> Result<(), AllocError>
        requires none_open { self.old.opened ≡ [] }
        requires ascends { Ascends 0 self.old.columns cells.now × Ascends 0 self.old.columns mask.now }
        ensures pushed { OnOk result (self.new ≡ record self.old { opened = cells_shown mask.now cells.now }) }
        ensures unchanged { OnErr result (self.new ≡ self.old) }
    {
        let most = cells.len().min(mask.len());
        self.reserve(most)?;
        // For the prover, which isn't told what was reserved: it takes no memory.
        self.cells.reserve(most)?;
        add_shown(&mut self.cells, cells, mask);
        Ok(())
    }

    /// The entries, row after row, with those of the open row.
    pub fn cells(&self) -> &[Cell]
        ensures { result.now ≡ all_cells self.now }
    {
        &self.cells
    }

    /// Gives other values to as many entries as there are values, from an index on.
    pub fn set_values(&mut self, from: usize, values: &[u64])
        requires { from + length values.now ≤ entries_of self.old }
        ensures alike { AreAlike self.old self.new }
        ensures values { all_cells self.new ≡ valued_from from values.now (all_cells self.old) }
    {
        put_values(&mut self.cells, from, values);
    }

    /// Ends the open row, and opens the next. On a refusal the run is as before.
    pub fn end_row(&mut self) -> Result<(), AllocError>
        ensures ended { OnOk result
            (self.new ≡ record self.old { ended = self.old.ended ++ self.old.opened ∷ []; opened = [] }) }
        ensures unchanged { OnErr result (self.new ≡ self.old) }
    {
        self.ends.push(self.cells.len() as u64)?;
        Ok(())
    }

    /// Ends `count` rows without an entry. Before the first entry that takes no memory, and no time
    /// per row. On a refusal the run is as before.
    pub fn end_blank(&mut self, count: u64) -> Result<(), AllocError>
        requires none_open { self.old.opened ≡ [] }
        ensures ended { OnOk result (self.new ≡ record self.old { ended = self.old.ended ++ replicate count [] }) }
        ensures unchanged { OnErr result (self.new ≡ self.old) }
    {
        self.ends.push_alike(count, self.cells.len() as u64)?;
        Ok(())
    }

    /// The number of the first row.
    pub fn first(&self) -> u64
        ensures { result ≡ self.now.first }
    {
        self.first
    }

    /// How many rows are ended.
    pub fn len(&self) -> u64
        ensures { result ≡ length self.now.ended }
    {
        self.ends.len()
    }

    /// How many entries the run has, with those of its open row.
    pub fn entries(&self) -> usize
        ensures { result ≡ entries_of self.now }
    {
        self.cells.len()
    }

    /// Gives an entry another value. Entries are numbered from 0, in the order in which they were
    /// added.
    #[inline(always)]
    pub fn set_value(&mut self, entry: usize, value: u64)
        requires { entry < entries_of self.old }
        ensures { self.new ≡ with_value entry value self.old }
    {
        self.cells[entry].1 = value;
    }

    /// Where each ended row ends among the cells, and the cells, with those of the open row.
    pub(crate) fn into_parts(self) -> (RowEnds, Vec<Cell>)
        ensures rows { AreRows self.columns result.0 result.1.items }
        ensures ended { ended_rows 0 result.0 result.1.items ≡ self.ended }
        ensures opened { open_row 0 result.0 result.1.items ≡ self.opened }
    {
        (self.ends, self.cells)
    }

    /// Appends the ended rows to compressed rows.
    pub(crate) fn append_to(
        &self,
        starts: &mut Vec<u64>,
        cells: &mut Vec<Cell>,
    ) -> Result<(), AllocError>
        requires closed { AreClosed starts.old.items cells.old.items }
        requires none_open { self.now.opened ≡ [] }
        ensures joined { OnOk result (AreClosed starts.new.items cells.new.items
            × (ended_rows 0 (ends_of starts.new.items) cells.new.items
            ≡ ended_rows 0 (ends_of starts.old.items) cells.old.items ++ self.now.ended)) }
        ensures rows { AllByRecursion (λ r. IsRow self.now.columns r) self.now.ended }
    {
        self.ends.add_to(starts, cells.len() as u64)?;
        append(cells, &self.cells)?;
        Ok(())
    }
}
