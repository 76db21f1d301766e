//! The entries of rows that an index operator is called on, 64 at a time, regardless of row
//! boundaries.
ghost use Rattle.std.specs.Prelude.{◌≡◌, ◌≤◌, ◌-◌, length, nat_lt};
ghost use Rattle.bpf_insn.specs.declared.operands.Kind.TheVariants as kinds;
ghost use Rattle.entry_ops.specs.inner.IndexCalls.{entries_along, NoneWaits, Gathers};

use crate::operand_rows::Cell;
use bpf_run::{Calls, MOST_CALLS};
use csr_store::{Matrix, RowReader};
use std::marker::Model;
use std::ops::Range;

/// The entries that are still to be called, with their positions and a thunk: those that are left
/// of a row, and those of the rows after it up to an end. A contract sees the operands of their
/// calls.
#[derive(Drop)]
pub struct IndexCalls<'m> {
    thunk: u64,
    row: u64,
    /// What is left of `row`.
    left: &'m [Cell],
    reader: RowReader<'m>,
    end: u64,
}

impl<'m> Model for IndexCalls<'m> {
    ghost use Rattle.std.specs.Prelude.{◌≤◌, List};
    ghost use Rattle.bpf_insn.specs.declared.operands.Operands.{Operands};
    ghost use Rattle.entry_ops.specs.inner.IndexCalls.{index_calls};

    ghost Value = { List Operands };

    ghost view = { λ c. index_calls c.reader.grid c.thunk c.row c.left.now c.reader.row c.end };

    ghost invariant = { λ c. c.end ≤ c.reader.grid.rows };
}

impl<'m> IndexCalls<'m> {
    /// The entries of a range of rows.
    pub fn of_rows(a: &'m Matrix, thunk: u64, range: Range<u64>) -> Self
        requires range { range.start ≤ range.end }
        requires within { range.end ≤ a.now.rows }
        ensures { result ≡ entries_along a.now thunk range.start (range.end - range.start) }
    {
        IndexCalls {
            thunk,
            row: range.start,
            left: &[],
            reader: a.rows_from(range.start),
            end: range.end,
        }
    }

    /// Gathers the calls on the entries that come next, as many as fit in. Returns whether there
    /// are any.
    #[inline(always)]
    pub fn gather(&mut self, calls: &mut Calls) -> bool
        requires { NoneWaits kinds.Index calls.old }
        ensures gathers { Gathers self.old calls.old self.new calls.new result }
        ensures some { result ≡ nat_lt 0 (length calls.new.operands) }
    {
        // In locals, so that the loop doesn't write through `self`.
        let mut row = self.row;
        let mut left = self.left;
        while left.len() <= MOST_CALLS - calls.len() {
            calls.gather_entries(left, row, self.thunk);
            // The number of the row that the reader returns next.
            row = self.reader.row();
            if row >= self.end {
                self.left = &[];
                return calls.len() > 0;
            }
            left = self.reader.next_row();
        }
        // The rest of a row that doesn't fit waits for the next calls.
        let (now, later) = left.split_at(MOST_CALLS - calls.len());
        calls.gather_entries(now, row, self.thunk);
        self.row = row;
        self.left = later;
        true
    }
}
