//! Reading rows along the row of a mask.
ghost use Rattle.std.specs.Prelude.{◌≡◌, ℕ, List, Some};
ghost use Rattle.bpf_verify.specs.Accepted.{Accepted};
ghost use Rattle.csr_store.specs.Ascending.{Ascends};
ghost use Rattle.entry_ops.specs.inner.Forms.{form_of};
ghost use Rattle.entry_ops.specs.inner.Standing.{with_cells};
ghost use Rattle.entry_ops.specs.inner.Placing.{IsReady, Fills};
ghost use Rattle.entry_ops.specs.inner.Walking.{Suits, AreOperandRows, row_cells, row_calls, cells_along, calls_along};

use crate::emitter::Emitter;
use crate::form::{EntryForm, WordPair, emit};
use crate::operand_rows::{Cell, OperandRows};
use bpf_run::Calls;
use bpf_verify::Operator;
use job_forms::RowCursor;
use std::alloc::AllocError;

/// The row of the second operand, if a form has one.
#[inline(always)]
fn second_for<'a>(form: EntryForm, right: &'a [Cell]) -> &'a [Cell]
    ensures ascends { (n : ℕ) → Ascends 0 n right.now → Ascends 0 n result.now }
    ensures cells { (f : Accepted) (i n : ℕ) (left mask : List (ℕ × ℕ)) → row_cells (form_of form) f i n left right.now (Some mask)
        ≡ row_cells (form_of form) f i n left result.now (Some mask) }
    ensures calls { (f : Accepted) (i n : ℕ) (left mask : List (ℕ × ℕ)) → row_calls (form_of form) f i n left right.now (Some mask)
        ≡ row_calls (form_of form) f i n left result.now (Some mask) }
{
    match form {
        EntryForm::Apply(_) => &[],
        _ => right,
    }
}

/// Adds the cells of a row, at those positions that a mask's row stores.
#[inline(always)]
pub fn fill_masked(
    form: EntryForm,
    operator: &Operator,
    calls: &mut Calls,
    emitter: &mut Emitter,
    sides: OperandRows,
    mask: &[Cell],
) -> Result<(), AllocError>
    requires form { Suits (form_of form) operator.now }
    requires sides { AreOperandRows (record sides { mask = Some mask }) }
    requires ready { IsReady operator.now sides.columns
        (calls_along (form_of form) operator.now (record sides { mask = Some mask }))
        emitter.old calls.old }
    ensures { Fills operator.now (calls_along (form_of form) operator.now (record sides.entry { mask = Some mask.entry }))
        (with_cells (cells_along (form_of form) operator.now (record sides.entry { mask = Some mask.entry })))
        emitter.old calls.old emitter.new calls.new result }
{
    let mut lefts = RowCursor::new(sides.left);
    let mut rights = RowCursor::new(second_for(form, sides.right));
    let mut masks = mask;
    // Along the mask's row: only its positions may have a result.
    while let Some((shown, rest)) = masks.split_first() {
        let column = shown.0;
        // All three rows ascend, so each is read once.
        lefts.advance_to(column);
        rights.advance_to(column);
        let pair = WordPair {
            row: sides.row,
            column,
            left: lefts.word_at(column),
            right: rights.word_at(column),
        };
        emit(form, operator, calls, emitter, pair)?;
        masks = rest;
    }
    Ok(())
}
