//! Rows whose last cells wait for the values of gathered calls, and are added if those are not 0.
ghost use Rattle.std.specs.Prelude.{◌≡◌, ◌<◌, ◌≤◌, ◌+◌, ◌^◌, ◌∷◌, [], length, vec_capacity, OnOk, OnErr, IfOk};
ghost use Rattle.bpf_insn.specs.Machine.{kind_of};
ghost use Rattle.bpf_run.specs.Meaning.{value_of};
ghost use Rattle.bpf_run.specs.Calls.{call_of, calls_on, steps_of};
ghost use Rattle.job_forms.specs.Region.{finished};
ghost use Rattle.entry_ops.specs.inner.Standing.{with_end};
ghost use Rattle.entry_ops.specs.inner.SelectBuffer.{placed, Fits, Holds, with_kept, CanAdd, Puts, IsFlushed};

use crate::emitter::push_all;
use crate::kept_cells::{MOST_KEPT, end_kept, keep_if, make_place};
use bpf_insn::Operands;
use bpf_run::{Calls, MOST_CALLS};
use bpf_verify::Operator;
use csr_store::Rows;
use job_forms::{Chunk, Making};
use std::alloc::{AllocError, Global};
use std::marker::Model;

/// The most marks that wait.
// More than calls, since the ends of rows are marks too: many rows may have few cells.
const MOST_MARKS: usize = 256;

/// What is still to be added to some rows.
#[derive(Clone, Copy)]
pub enum Mark {
    /// The end of the open row.
    End,
    /// A cell that is added if the value of the next call is not 0.
    Selected { column: u64, word: u64 },
}

/// Rows, the marks that wait for calls after them, and the steps of the calls that ran.
#[derive(Drop)]
pub struct SelectBuffer {
    rows: Rows,
    marks: Vec<Mark>,
    steps: u64,
}

impl Model for SelectBuffer {
    ghost use Rattle.std.specs.Prelude.{◌≤◌, length, vec_capacity};
    ghost use Rattle.entry_ops.specs.inner.SelectBuffer.{SelectState};

    ghost Value = { SelectState };

    ghost view = { λ e. record { rows = e.rows; marks = e.marks.items; steps = e.steps } };

    ghost invariant = { λ e. (256 ≤ vec_capacity e.marks) × (length e.marks.items ≤ 256) };
}

impl SelectBuffer {
    /// No row yet, of those from `first` on, and no call.
    pub fn begin(alloc: Global, first: u64, columns: u64) -> Result<Self, AllocError>
        ensures { IfOk result (λ e. e ≡ record {
          rows = record { first = first; columns = columns; ended = []; opened = [] };
          marks = [];
          steps = 0;
        }) }
    {
        Ok(SelectBuffer {
            rows: Rows::begin(alloc, first, columns),
            marks: Vec::with_capacity(alloc, MOST_MARKS)?,
            steps: 0,
        })
    }

    /// The finished chunk: the rows, unless memory was refused, and the steps.
    pub fn finish(self, filled: Result<(), AllocError>) -> Chunk
        ensures { result ≡ finished (record { rows = self.rows; steps = self.steps }) filled }
    {
        let SelectBuffer { rows, steps, .. } = self;
        Making { rows, steps }.finish(filled)
    }

    /// Makes the calls that were gathered, and adds what is marked.
    pub fn flush(&mut self, operator: &Operator, calls: &mut Calls) -> Result<(), AllocError>
        requires holds { Holds operator.now self.old calls.old }
        requires capacity { self.old.steps + steps_of (calls_on operator.now calls.old.operands) < 2 ^ 64 }
        ensures flushed { OnOk result (IsFlushed operator.now self.old calls.old self.new calls.new) }
        ensures spent { OnErr result (self.new.steps ≡ self.old.steps + steps_of (calls_on operator.now calls.old.operands)) }
    {
        // Charged first: adding cells may be refused memory.
        self.steps += calls.make(operator);
        put_values(&self.marks, calls.values(), &mut self.rows)?;
        self.marks.clear();
        Ok(())
    }

    /// Flushes if no further mark or call fits in.
    #[inline(always)]
    pub fn make_room(&mut self, operator: &Operator, calls: &mut Calls) -> Result<(), AllocError>
        requires holds { Holds operator.now self.old calls.old }
        requires capacity { self.old.steps + steps_of (calls_on operator.now calls.old.operands) < 2 ^ 64 }
        ensures puts { Puts operator.now [] (λ run. run) self.old calls.old self.new calls.new result }
        ensures fits { OnOk result ((length self.new.marks < 256) × (length calls.new.operands < 64)) }
    {
        if self.marks.len() < MOST_MARKS && calls.len() < MOST_CALLS {
            return Ok(());
        }
        self.flush(operator, calls)?;
        Ok(())
    }

    /// Adds a cell with a word if the value of a call is not 0.
    #[inline(always)]
    pub fn keep(
        &mut self,
        operator: &Operator,
        calls: &mut Calls,
        column: u64,
        word: u64,
        operands: Operands,
    ) -> Result<(), AllocError>
        requires kind { kind_of operands ≡ operator.now.kind }
        requires can { CanAdd operator.now column self.old calls.old }
        ensures { Puts operator.now (call_of operator.now operands ∷ []) (with_kept column word (value_of operator.now operands))
            self.old calls.old self.new calls.new result }
    {
        self.make_room(operator, calls)?;
        // After `make_room` this can't be refused.
        self.marks.push(Mark::Selected { column, word }).unwrap();
        calls.gather(operands);
        Ok(())
    }

    /// Ends the open row.
    pub fn end_row(&mut self, operator: &Operator, calls: &mut Calls) -> Result<(), AllocError>
        requires holds { Holds operator.now self.old calls.old }
        requires capacity { self.old.steps + steps_of (calls_on operator.now calls.old.operands) < 2 ^ 64 }
        ensures { Puts operator.now [] with_end self.old calls.old self.new calls.new result }
    {
        self.make_room(operator, calls)?;
        self.marks.push(Mark::End).unwrap();
        Ok(())
    }
}

/// Adds what is marked to rows, each call with its value. Selected cells wait for the end of their
/// row.
fn put_values(marks: &[Mark], values: &[u64], rows: &mut Rows) -> Result<(), AllocError>
    requires fits { Fits marks.now values.now rows.old }
    requires few { length marks.now ≤ 256 }
    ensures { OnOk result (rows.new ≡ placed marks.now values.now rows.old) }
{
    let mut selected = [(0, 0); MOST_KEPT];
    let mut many = 0;
    let mut next: usize = 0;
    for mark in marks {
        match *mark {
            Mark::End => {
                end_kept(rows, &selected[..many])?;
                many = 0;
            }
            Mark::Selected { column, word } => {
                // Before the cell is written, which happens whether it is selected or not.
                many = make_place(rows, &selected, many)?;
                many = keep_if(&mut selected, many, (column, word), values[next]);
                next += 1;
            }
        }
    }
    push_all(rows, &selected[..many])
}
