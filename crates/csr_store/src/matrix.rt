//! A finished matrix.
ghost use Rattle.std.specs.Prelude.{◌≡◌, ◌<◌, ◌≤◌, ◌+◌, ◌-◌, ◌*◌, ◌↔◌, [], length, map, IfOk, IfSome, IsTrue};
ghost use Rattle.std.specs.List.{range_with_len};
ghost use Rattle.std.specs.FinMap as fin;
ghost use Rattle.csr_store.specs.Along.{along};
ghost use Rattle.csr_store.specs.Grid.{IsGrid, limit, row_of, row_start};
ghost use Rattle.csr_store.specs.ByRows.{grid, by_rows, ends_of};
ghost use Rattle.csr_store.specs.Columns.{AreColumnsOf, IsOnlyWord};
ghost use Rattle.csr_store.specs.Run.{IsInRun};
ghost use Rattle.csr_store.specs.inner.ByRows.{AreStarts};
ghost use Rattle.csr_store.specs.Valued.{rows_of};
ghost use Rattle.csr_store.specs.inner.Cells.{AreStacked, joined};

mod column;

use crate::cells::Cells;
use crate::limits::RUN_ROWS;
use crate::moving::push_moved;
use crate::narrow::Narrow;
use crate::reader::RowReader;
use crate::row::value_at;
use crate::row_copy::RowCopy;
use crate::starts::RowStarts;
use std::alloc::{AllocError, Global};
use std::marker::Model;
use std::ops::Range;
use std::sync::Arc;

/// The fewest entries whose columns are listed by themselves.
const LEAST_LISTED: u64 = 4096;

/// A column with its value, in a row that is known.
pub type Cell = (u64, u64);

/// A sparse matrix of 64-bit words: its two sizes, and at most one value at each position.
///
/// It is stored as compressed rows: where each row starts, and behind the last row where it ends,
/// and the cells of all rows. So it takes 16 bytes an entry and 8 a row. The cells stand in one
/// list where they were read, and in the runs of rows that they were computed in where they are a
/// result. Matrices whose rows start alike may share where they do. A matrix that products walk has
/// the columns of its entries by themselves, too, which take four bytes an entry.
#[derive(Drop)]
pub struct Matrix {
    rows: u64,
    columns: u64,
    entries: u64,
    starts: RowStarts,
    cells: Cells,
    /// The columns of all entries by themselves, once products walked enough of them.
    narrow: Option<Narrow>,
    /// About how many entries products walked before.
    walked: u64,
}

impl Model for Matrix {
    ghost use Rattle.csr_store.specs.Grid.{Grid, grid_code, IsGrid};
    ghost use Rattle.csr_store.specs.ByRows.{grid, by_rows, ends_of};
    ghost use Rattle.std.specs.Prelude.{◌≡◌, length, IfSome};
    ghost use Rattle.csr_store.specs.inner.ByRows.{AreStarts};
    ghost use Rattle.csr_store.specs.inner.Cells.{AreParts, joined_cells};
    ghost use Rattle.csr_store.specs.inner.Narrow.{IsNarrow};

    ghost Value = { Grid };

    ghost coded = { grid_code };

    ghost view = { λ m. grid m.rows m.columns (by_rows (ends_of m.starts) (joined_cells m.cells)) };

    ghost invariant = { λ m. IsGrid (grid m.rows m.columns (by_rows (ends_of m.starts) (joined_cells m.cells)))
        × AreStarts m.rows m.starts (joined_cells m.cells)
        × AreParts m.rows m.starts m.cells
        × (m.entries ≡ length (joined_cells m.cells))
        × IfSome m.narrow (IsNarrow (joined_cells m.cells)) };
}

impl Matrix {
    /// The matrix of compressed rows whose cells stand in one list.
    pub(crate) fn from_rows(rows: u64, columns: u64, starts: RowStarts, cells: Vec<Cell>) -> Self
        requires is_grid { IsGrid (grid rows columns (by_rows (ends_of starts) cells.items)) }
        requires starts { AreStarts rows starts cells.items }
        ensures { result ≡ grid rows columns (by_rows (ends_of starts) cells.items) }
    {
        Matrix {
            rows,
            columns,
            entries: cells.len() as u64,
            starts,
            cells: Cells::Whole(cells),
            narrow: None,
            walked: 0,
        }
    }

    /// The matrix of compressed rows of which each 256 have a list of their own.
    pub(crate) fn from_lists(
        rows: u64,
        columns: u64,
        entries: u64,
        starts: RowStarts,
        lists: Vec<Vec<Cell>>,
    ) -> Self
        requires stacked { AreStacked columns entries starts lists.items }
        requires rows { (rows ≡ length (ends_of starts)) × (rows ≤ limit) }
        requires columns { columns ≤ limit }
        ensures { result ≡ grid rows columns (by_rows (ends_of starts) (joined lists.items)) }
    {
        Matrix {
            rows,
            columns,
            entries,
            starts,
            cells: Cells::Runs(lists),
            narrow: None,
            walked: 0,
        }
    }

    /// What holds of any matrix. Only the prover looks at it.
    pub fn recall(&self)
        ensures { IsGrid self.now }
    {
        let _ = &self.rows;
    }

    /// The number of rows.
    pub fn rows(&self) -> u64
        ensures rows { result ≡ self.now.rows }
        ensures is_grid { IsGrid self.now }
    {
        self.rows
    }

    /// The number of columns.
    pub fn columns(&self) -> u64
        ensures columns { result ≡ self.now.columns }
        ensures is_grid { IsGrid self.now }
    {
        self.columns
    }

    /// The number of entries, those with the value 0 among them.
    pub fn entries(&self) -> u64
        ensures entries { result ≡ fin.len self.now.cells }
        ensures is_grid { IsGrid self.now }
    {
        self.entries
    }

    /// How many entries the rows before each row have, counted from 0, and at last those before the
    /// end: one number more than there are rows.
    pub fn starts(&self) -> &[u64]
        ensures { result.now ≡ map (row_start self.now) (range_with_len 0 (self.now.rows + 1)) }
    {
        self.starts.list()
    }

    /// The starts of another matrix whose rows start as these do; both then share one list.
    pub(crate) fn share_starts(&self) -> Result<RowStarts, AllocError>
        ensures { IfOk result (λ s. s ≡ map (row_start self.now) (range_with_len 0 (self.now.rows + 1))) }
    {
        self.starts.share()
    }

    /// Whether the rows from one up to another have no entry. Their starts tell, however many rows
    /// they are.
    pub fn is_blank(&self, range: Range<u64>) -> bool
        requires { range.end ≤ self.now.rows }
        ensures { IsTrue result ↔ (along (row_of self.now) range.start (range.end - range.start) ≡ []) }
    {
        if range.end <= range.start {
            return true;
        }
        self.recall();
        let starts = self.starts();
        starts[range.start as usize] == starts[range.end as usize]
    }

    /// The entries of row `i`, counted from 0, by ascending column.
    pub fn row(&self, i: u64) -> &[Cell]
        requires { i < self.now.rows }
        ensures { result.now ≡ row_of self.now i }
    {
        let starts = self.starts.list();
        let from = starts[i as usize];
        let to = starts[i as usize + 1];
        self.cells.part(starts, i / RUN_ROWS, from, to)
    }

    /// Notes that a product is to walk about so many entries, and whether it reads their words. Once
    /// those were half of all, the columns of all entries are listed by themselves: unless there is no
    /// memory for them, or the words are read and differ. Contracts see no difference.
    ///
    /// The list takes four bytes an entry, and as long to make as to read all entries twice.
    pub fn expect_walk(&mut self, alloc: Global, entries: u64, reads_words: bool)
        ensures { self.new ≡ self.old }
    {
        // Neither a vector nor a small matrix: those are read from a near cache in either form.
        let is_short = self.entries < LEAST_LISTED || self.rows < 2 || self.columns < 2;
        if is_short || self.narrow.is_some() {
            return;
        }
        self.walked = self.walked.saturating_add(entries);
        if self.walked >= self.entries / 2 {
            // What is refused isn't tried again before as many.
            self.walked = 0;
            self.narrow = Narrow::of(alloc, &self.cells, self.entries, reads_words);
        }
    }

    /// The columns of row `i`, counted from 0, if they are listed by themselves.
    #[inline(always)]
    pub fn columns_in(&self, i: u64) -> Option<&[u32]>
        requires { i < self.now.rows }
        ensures { AreColumnsOf (row_of self.now i) result }
    {
        match &self.narrow {
            Some(narrow) => {
                let starts = self.starts.list();
                let from = starts[i as usize];
                let to = starts[i as usize + 1];
                Some(narrow.between(from as usize, to as usize))
            }
            None => None,
        }
    }

    /// The word that all entries have, if their columns are listed and they have one.
    pub fn only_word(&self) -> Option<u64>
        ensures { IfSome result (IsOnlyWord self.now) }
    {
        match &self.narrow {
            Some(narrow) => narrow.only,
            None => None,
        }
    }

    /// The cells of the rows from one up to another, all of one run, counted from 0: these stand in
    /// one list.
    pub fn cells_of(&self, range: Range<u64>) -> &[Cell]
        requires range { range.start ≤ range.end }
        requires within { range.end ≤ self.now.rows }
        requires one_run { IsInRun range.start range.end }
        ensures { result.now ≡ along (row_of self.now) range.start (range.end - range.start) }
    {
        if range.start == range.end {
            return &[];
        }
        let run = range.start / RUN_ROWS;
        let starts = self.starts.list();
        let from = starts[range.start as usize];
        let to = starts[range.end as usize];
        self.cells.part(starts, run, from, to)
    }

    /// The cells of row `i`, counted from 0, and of those behind it that stand in one list with it;
    /// and the row behind these.
    #[inline(never)]
    pub(crate) fn list_from(&self, i: u64) -> (&[Cell], u64)
        requires { i < self.now.rows }
        ensures end { (i < result.1) × (result.1 ≤ self.now.rows) }
        ensures cells { result.0.now ≡ along (row_of self.now) i (result.1 - i) }
    {
        let rows = self.rows();
        let end = (i / RUN_ROWS * RUN_ROWS + RUN_ROWS).min(rows);
        (self.cells_of(i..end), end)
    }

    /// The rows one after the other, from one on.
    pub fn rows_from(&self, row: u64) -> RowReader<'_>
        requires { row ≤ self.now.rows }
        ensures { result ≡ record { grid = self.now; row = row } }
    {
        RowReader::begin(self, row)
    }

    /// The rows from one up to another, all of one run, to be copied with other values. Takes the
    /// copy's memory.
    pub fn copying(&self, alloc: Global, range: Range<u64>) -> Result<RowCopy<'_>, AllocError>
        requires range { range.start ≤ range.end }
        requires within { range.end ≤ self.now.rows }
        requires one_run { IsInRun range.start range.end }
        ensures { IfOk result (λ c. c ≡ record {
          run = rows_of self.now range.start (range.end - range.start);
          written = 0;
        }) }
    {
        let from = range.start as usize;
        let to = range.end as usize;
        let source = self.cells_of(range.start..range.end);
        let starts = self.starts.list();
        let mut ends = Vec::with_capacity(alloc, to - from)?;
        push_moved(
            &mut ends,
            &starts[from + 1..to + 1],
            starts[from].wrapping_neg(),
        )?;
        let written = Vec::with_capacity(alloc, source.len())?;
        Ok(RowCopy::of_ends(range.start, self.columns, ends, written, source))
    }

    /// The value at a position, where it has one.
    pub fn get(&self, i: u64, j: u64) -> Option<u64>
        ensures { result ≡ fin.get self.now.cells (i, j) }
    {
        if i < self.rows {
            value_at(self.row(i), j)
        } else {
            None
        }
    }
}

/// A matrix with several owners. `Arc::try_clone` makes a further one.
pub type Version = Arc<Matrix>;
