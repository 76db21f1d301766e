//! Rows whose cells are added at once, and whose values are written when gathered calls run.
ghost use Rattle.std.specs.Prelude.{◌≡◌, ◌<◌, ◌+◌, ◌^◌, ◌∷◌, [], length, OnOk, OnErr};
ghost use Rattle.bpf_insn.specs.Machine.{kind_of};
ghost use Rattle.bpf_run.specs.Meaning.{value_of};
ghost use Rattle.bpf_run.specs.Calls.{call_of, calls_on, steps_of};
ghost use Rattle.csr_store.specs.Valued.{entries_of};
ghost use Rattle.job_forms.specs.Region.{finished};
ghost use Rattle.entry_ops.specs.inner.Standing.{CanPush, FollowIn, with_cell, with_cells, with_end};
ghost use Rattle.entry_ops.specs.inner.Placing.{placed, HavePlaces, Holds, Does, CanAdd, Puts, IsFlushed};

use crate::operand_rows::Cell;
use bpf_insn::Operands;
use bpf_run::{Calls, MOST_CALLS};
use bpf_verify::Operator;
use csr_store::Rows;
use job_forms::{Chunk, Making};
use std::alloc::{AllocError, Global};
use std::marker::Model;

/// Rows, the entries whose values are those of gathered calls, and the steps of the calls that
/// ran.
#[derive(Drop)]
pub struct Emitter {
    rows: Rows,
    /// The entry of each gathered call, in the order of the operands.
    indices: [usize; MOST_CALLS],
    steps: u64,
}

impl Model for Emitter {
    ghost use Rattle.std.specs.Prelude.{◌≡◌, length};
    ghost use Rattle.entry_ops.specs.inner.Placing.{Emission};

    ghost Value = { Emission };

    ghost view = { λ e. record { rows = e.rows; indices = e.indices; steps = e.steps } };

    ghost invariant = { λ e. length e.indices ≡ 64 };
}

impl Emitter {
    /// No row yet, of those from `first` on, and no call. Takes no memory.
    pub fn begin(alloc: Global, first: u64, columns: u64) -> Self
        ensures rows { result.rows ≡ record { first = first; columns = columns; ended = []; opened = [] } }
        ensures steps { result.steps ≡ 0 }
    {
        Emitter {
            rows: Rows::begin(alloc, first, columns),
            indices: [0; MOST_CALLS],
            steps: 0,
        }
    }

    /// Reserves memory for so many rows and cells.
    pub fn reserve(&mut self, rows: usize, cells: usize) -> Result<(), AllocError>
        ensures { self.new ≡ self.old }
    {
        self.rows.reserve_rows(rows)?;
        self.rows.reserve(cells)
    }

    /// The finished chunk: the rows, unless memory was refused, and the steps. Reserved memory that
    /// wasn't used is freed.
    pub fn finish(self, filled: Result<(), AllocError>) -> Chunk
        ensures { result ≡ finished (record { rows = self.rows; steps = self.steps }) filled }
    {
        let Emitter {
            mut rows,
            steps,
            ..
        } = self;
        // Memory was reserved for the most cells that could come.
        rows.trim();
        Making { rows, steps }.finish(filled)
    }

    /// Makes the calls that were gathered, and writes their values.
    pub fn flush(&mut self, operator: &Operator, calls: &mut Calls)
        requires holds { Holds operator.now self.old calls.old }
        requires capacity { self.old.steps + steps_of (calls_on operator.now calls.old.operands) < 2 ^ 64 }
        ensures { IsFlushed operator.now self.old calls.old self.new calls.new }
    {
        // Charged whatever comes after: the calls ran.
        self.steps += calls.make(operator);
        put_values(&self.indices, calls.values(), &mut self.rows);
    }

    /// Flushes if no further call fits in.
    #[inline(always)]
    fn make_room(&mut self, operator: &Operator, calls: &mut Calls)
        requires holds { Holds operator.now self.old calls.old }
        requires capacity { self.old.steps + steps_of (calls_on operator.now calls.old.operands) < 2 ^ 64 }
        ensures does { Does operator.now [] (λ run. run) self.old calls.old self.new calls.new }
        ensures calls { length calls.new.operands < 64 }
    {
        if calls.len() == MOST_CALLS {
            self.flush(operator, calls);
        }
    }

    /// Adds a cell whose value is that of a call.
    #[inline(always)]
    pub fn call(
        &mut self,
        operator: &Operator,
        calls: &mut Calls,
        column: u64,
        operands: Operands,
    ) -> Result<(), AllocError>
        requires kind { kind_of operands ≡ operator.now.kind }
        requires can { CanAdd operator.now column self.old calls.old }
        ensures { Puts operator.now (call_of operator.now operands ∷ []) (with_cell column (value_of operator.now operands))
            self.old calls.old self.new calls.new result }
    {
        self.make_room(operator, calls);
        // The index of the cell that is pushed below.
        self.indices[calls.len()] = self.rows.entries();
        calls.gather(operands);
        // 0 until the call runs. If memory is refused here, the gathered calls neither run, nor are
        // they charged.
        self.rows.push(column, 0)?;
        Ok(())
    }

    /// Adds a cell whose value is known.
    #[inline(always)]
    pub fn copy(&mut self, column: u64, value: u64) -> Result<(), AllocError>
        requires { CanPush column self.old.rows }
        ensures copied { OnOk result (self.new ≡ record self.old { rows = with_cell column value self.old.rows }) }
        ensures unchanged { OnErr result (self.new.steps ≡ self.old.steps) }
    {
        self.rows.push(column, value)
    }

    /// Adds cells whose values are known.
    pub fn copy_all(&mut self, cells: &[Cell]) -> Result<(), AllocError>
        requires { FollowIn cells.now self.old.rows }
        ensures copied { OnOk result (self.new ≡ record self.old { rows = with_cells cells.now self.old.rows }) }
        ensures unchanged { OnErr result (self.new.steps ≡ self.old.steps) }
    {
        push_all(&mut self.rows, cells)
    }

    /// Ends the open row.
    pub fn end_row(&mut self) -> Result<(), AllocError>
        ensures ended { OnOk result (self.new ≡ record self.old { rows = with_end self.old.rows }) }
        ensures unchanged { OnErr result (self.new.steps ≡ self.old.steps) }
    {
        self.rows.end_row()
    }
}

/// Writes values to their entries.
fn put_values(indices: &[usize], values: &[u64], rows: &mut Rows)
    requires { HavePlaces indices.now values.now (entries_of rows.old) }
    ensures { rows.new ≡ placed indices.now values.now rows.old }
{
    for next in 0..values.len() {
        rows.set_value(indices[next], values[next]);
    }
}

/// Adds cells to an open row.
pub fn push_all(rows: &mut Rows, cells: &[Cell]) -> Result<(), AllocError>
    requires { FollowIn cells.now rows.old }
    ensures { OnOk result (rows.new ≡ with_cells cells.now rows.old) }
{
    for (column, value) in cells {
        rows.push(*column, *value)?;
    }
    Ok(())
}
