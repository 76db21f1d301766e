//! The result of each form at a position.
ghost use Rattle.std.specs.Prelude.{◌≡◌};
ghost use Rattle.csr_store.specs.Along.{cell_at};
ghost use Rattle.job_forms.specs.Forms.{operands_at};
ghost use Rattle.entry_ops.specs.inner.Forms.{form_of};
ghost use Rattle.entry_ops.specs.inner.Standing.{with_cells};
ghost use Rattle.entry_ops.specs.inner.Placing.{CanAdd, Puts};
ghost use Rattle.entry_ops.specs.inner.Walking.{Suits, form_at, form_calls};

use crate::emitter::Emitter;
use bpf_insn::Operands;
use bpf_run::Calls;
use bpf_verify::Operator;
use std::alloc::AllocError;

/// An operation entry by entry.
#[derive(Clone, Copy)]
pub enum EntryForm {
    /// The operator on each word, and with a thunk on its position too.
    Apply(Option<u64>),
    /// The operator where both have a word, otherwise a copy.
    Union,
    /// The operator where both have a word.
    Both,
}

/// The words of the operands at a position.
#[derive(Clone, Copy)]
pub struct WordPair {
    pub row: u64,
    pub column: u64,
    pub left: Option<u64>,
    pub right: Option<u64>,
}

/// Adds the result of a form at a position: a copy, the value of a call, or nothing.
#[inline(always)]
pub fn emit(
    form: EntryForm,
    operator: &Operator,
    calls: &mut Calls,
    emitter: &mut Emitter,
    pair: WordPair,
) -> Result<(), AllocError>
    requires form { Suits (form_of form) operator.now }
    requires can { CanAdd operator.now pair.column emitter.old calls.old }
    ensures { Puts operator.now (form_calls (form_of form) operator.now (pair.row, pair.column) pair.left pair.right)
        (with_cells (cell_at pair.column (form_at (form_of form) operator.now (pair.row, pair.column) pair.left pair.right)))
        emitter.old calls.old emitter.new calls.new result }
{
    let column = pair.column;
    match form {
        EntryForm::Apply(thunk) => {
            let Some(x) = pair.left else {
                return Ok(());
            };
            let operands = operands_of(thunk, pair.row, column, x);
            emitter.call(operator, calls, column, operands)
        }
        EntryForm::Union => match (pair.left, pair.right) {
            (Some(x), Some(y)) => emitter.call(operator, calls, column, Operands::Binary { x, y }),
            // A copy is known at once. It may end up between cells that still wait.
            (Some(x), None) => emitter.copy(column, x),
            (None, Some(y)) => emitter.copy(column, y),
            (None, None) => Ok(()),
        },
        EntryForm::Both => match (pair.left, pair.right) {
            (Some(x), Some(y)) => emitter.call(operator, calls, column, Operands::Binary { x, y }),
            _ => Ok(()),
        },
    }
}

/// The operands of a call: a word, and with a thunk its position too.
#[inline(always)]
pub fn operands_of(thunk: Option<u64>, row: u64, column: u64, x: u64) -> Operands
    ensures { result ≡ operands_at thunk (row, column) x }
{
    match thunk {
        None => Operands::Unary { x },
        Some(thunk) => Operands::Index {
            x,
            row,
            column,
            thunk,
        },
    }
}
