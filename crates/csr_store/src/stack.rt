//! Runs of 256 rows as a matrix, without a copy of their cells.
ghost use Rattle.std.specs.Prelude.{◌≡◌, ◌≤◌, ◌++◌, [], length, IfOk};
ghost use Rattle.csr_store.specs.Grid.{limit};
ghost use Rattle.csr_store.specs.ByRows.{grid};
ghost use Rattle.csr_store.specs.Run.{numbered};
ghost use Rattle.csr_store.specs.Stacked.{IsNext};

use crate::growing::Growing;
use crate::limits::RUN_ROWS;
use crate::matrix::{Cell, Matrix};
use crate::rows::Rows;
use std::alloc::{AllocError, Global};
use std::marker::Model;

/// Runs of rows, stacked on one another from row 0 on: 256 rows in each but the last, which has no
/// more. Contracts see one run of all these rows.
///
/// The cells stay where the runs have them, so a run takes no time for an entry. Where all rows
/// start as those of a matrix that the stack is like, as a result of apply is like its operand,
/// both keep one list of starts: then a run takes no memory for a row, and no time for one in front
/// of all its entries.
#[derive(Drop)]
pub struct Stack<'m> {
    columns: u64,
    entries: u64,
    starts: Growing<'m>,
    lists: Vec<Vec<Cell>>,
}

impl<'m> Model for Stack<'m> {
    ghost use Rattle.std.specs.Prelude.{[]};
    ghost use Rattle.csr_store.specs.Run.{Run, run_code};
    ghost use Rattle.csr_store.specs.ByRows.{ends_of};
    ghost use Rattle.csr_store.specs.inner.Run.{ended_rows};
    ghost use Rattle.csr_store.specs.inner.Cells.{AreStacked, joined};

    ghost Value = { Run };

    ghost coded = { run_code };

    ghost view = { λ s. record {
      first = 0;
      columns = s.columns;
      ended = ended_rows 0 (ends_of s.starts) (joined s.lists.items);
      opened = [];
    } };

    ghost invariant = { λ s. AreStacked s.columns s.entries s.starts s.lists.items };
}

impl<'m> Stack<'m> {
    /// No row yet, with capacity for the lists of so many. The matrix is one that the result may be
    /// like.
    pub fn begin(
        alloc: Global,
        rows: u64,
        columns: u64,
        like: &'m Matrix,
    ) -> Result<Self, AllocError>
        requires { rows ≤ limit }
        ensures { IfOk result (λ s. s ≡ record { first = 0; columns = columns; ended = []; opened = [] }) }
    {
        Ok(Stack {
            columns,
            entries: 0,
            starts: Growing::begin(alloc, like, rows as usize + 1),
            lists: Vec::with_capacity(alloc, rows.div_ceil(RUN_ROWS) as usize)?,
        })
    }

    /// Adds the next run, which has no more than 256 rows. All runs before it have 256.
    pub fn add(self, run: Rows) -> Result<Self, AllocError>
        requires { IsNext run self }
        ensures { IfOk result (λ s. s ≡ record self.entry { ended = self.entry.ended ++ run.ended }) }
    {
        let Stack {
            columns,
            entries,
            mut starts,
            mut lists,
        } = self;
        let (ends, cells) = run.into_parts();
        let count = cells.len() as u64;
        starts.add(&ends, entries)?;
        lists.push(cells)?;
        Ok(Stack {
            columns,
            entries: entries + count,
            starts,
            lists,
        })
    }

    /// The matrix of these rows.
    pub fn finish(self) -> Result<Matrix, AllocError>
        requires rows { length self.ended ≤ limit }
        requires columns { self.columns ≤ limit }
        ensures { IfOk result (λ m. m ≡ grid (length self.entry.ended) self.entry.columns (numbered 0 self.entry.ended)) }
    {
        let starts = self.starts.finish()?;
        let rows = starts.list().len() as u64 - 1;
        Ok(Matrix::from_lists(rows, self.columns, self.entries, starts, self.lists))
    }
}
