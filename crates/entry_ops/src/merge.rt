//! Union and both of two rows read side by side.
ghost use Rattle.std.specs.Prelude.{◌≡◌, None, Some, OnOk, OnErr};
ghost use Rattle.entry_ops.specs.inner.Forms.{form_of};
ghost use Rattle.entry_ops.specs.inner.Standing.{FollowIn, with_cells};
ghost use Rattle.entry_ops.specs.inner.Placing.{IsReady, Fills};
ghost use Rattle.entry_ops.specs.inner.Walking.{Joins, IsWhole, left_over, cells_along, calls_along};

use crate::emitter::Emitter;
use crate::form::{EntryForm, WordPair, emit};
use crate::operand_rows::{Cell, OperandRows};
use bpf_run::Calls;
use bpf_verify::Operator;
use std::alloc::AllocError;

/// Adds the result of a form for the cells that are left of one row when the other has ended.
#[inline(always)]
fn add_rest(form: EntryForm, emitter: &mut Emitter, cells: &[Cell]) -> Result<(), AllocError>
    requires { FollowIn cells.now emitter.old.rows }
    ensures copied { OnOk result
        (emitter.new ≡ record emitter.old { rows = with_cells (left_over (form_of form) cells.now) emitter.old.rows }) }
    ensures unchanged { OnErr result (emitter.new.steps ≡ emitter.old.steps) }
{
    match form {
        EntryForm::Union => emitter.copy_all(cells),
        EntryForm::Both => Ok(()),
        // Not reached with two operands, as apply has one.
        EntryForm::Apply(_) => Ok(()),
    }
}

/// The pair of a cell of the first operand, if the second has none.
#[inline(always)]
fn left_alone(row: u64, cell: &Cell) -> WordPair
    ensures { result ≡ record { row = row; column = cell.now.0; left = Some cell.now.1; right = None } }
{
    WordPair {
        row,
        column: cell.0,
        left: Some(cell.1),
        right: None,
    }
}

/// The pair of a cell of the second operand, if the first has none.
#[inline(always)]
fn right_alone(row: u64, cell: &Cell) -> WordPair
    ensures { result ≡ record { row = row; column = cell.now.0; left = None; right = Some cell.now.1 } }
{
    WordPair {
        row,
        column: cell.0,
        left: None,
        right: Some(cell.1),
    }
}

/// Adds the cells of a row of a union, or of positions that both operands have, all of which pass.
#[inline(always)]
pub fn fill_merged(
    form: EntryForm,
    operator: &Operator,
    calls: &mut Calls,
    emitter: &mut Emitter,
    sides: OperandRows,
) -> Result<(), AllocError>
    requires form { Joins (form_of form) operator.now }
    requires sides { IsWhole sides }
    requires ready { IsReady operator.now sides.columns (calls_along (form_of form) operator.now sides) emitter.old calls.old }
    ensures { Fills operator.now (calls_along (form_of form) operator.now sides.entry)
        (with_cells (cells_along (form_of form) operator.now sides.entry)) emitter.old calls.old emitter.new calls.new result }
{
    let mut lefts = sides.left;
    let mut rights = sides.right;
    while let Some((x, xs)) = lefts.split_first() {
        let Some((y, ys)) = rights.split_first() else {
            return add_rest(form, emitter, lefts);
        };
        if x.0 < y.0 {
            emit(form, operator, calls, emitter, left_alone(sides.row, x))?;
            lefts = xs;
        } else if y.0 < x.0 {
            emit(form, operator, calls, emitter, right_alone(sides.row, y))?;
            rights = ys;
        } else {
            let pair = WordPair {
                row: sides.row,
                column: x.0,
                left: Some(x.1),
                right: Some(y.1),
            };
            emit(form, operator, calls, emitter, pair)?;
            lefts = xs;
            rights = ys;
        }
    }
    // The first operand has ended. `both` has nothing to add then.
    add_rest(form, emitter, rights)
}
