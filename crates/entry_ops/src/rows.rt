//! The rows of a range, of forms whose cells are copies and values of calls.
ghost use Rattle.std.specs.Prelude.{◌-◌};
ghost use Rattle.csr_store.specs.Mask.{mask_of};
ghost use Rattle.entry_ops.specs.inner.Forms.{form_of};
ghost use Rattle.entry_ops.specs.inner.Standing.{with_cells};
ghost use Rattle.entry_ops.specs.inner.Placing.{IsReady, Fills};
ghost use Rattle.entry_ops.specs.inner.Walking.{
  Suits,
  AreOperandRows,
  HaveRows,
  cells_along,
  calls_along,
  rows_from,
  calls_from,
  with_rows,
  IsFormMade,
};

use crate::emitter::Emitter;
use crate::form::EntryForm::{self, Apply, Both, Union};
use crate::masked::fill_masked;
use crate::merge::fill_merged;
use crate::operand_rows::{MOST_ROOM, OperandReader, OperandRows, Sources, entries_between};
use bpf_run::Calls;
use bpf_verify::Operator;
use job_forms::Chunk;
use std::alloc::{AllocError, Global};
use std::ops::Range;

/// Adds the cells of a row, each form by a loop of its own.
fn fill_operands(
    form: EntryForm,
    operator: &Operator,
    calls: &mut Calls,
    emitter: &mut Emitter,
    sides: OperandRows,
) -> Result<(), AllocError>
    requires form { Suits (form_of form) operator.now }
    requires sides { AreOperandRows sides }
    requires ready { IsReady operator.now sides.columns (calls_along (form_of form) operator.now sides) emitter.old calls.old }
    ensures { Fills operator.now (calls_along (form_of form) operator.now sides.entry)
        (with_cells (cells_along (form_of form) operator.now sides.entry)) emitter.old calls.old emitter.new calls.new result }
{
    // The form is a constant in each arm, so that each inlined loop is compiled for it.
    match (form, sides.mask) {
        (Apply(thunk), Some(mask)) => {
            fill_masked(Apply(thunk), operator, calls, emitter, sides, mask)
        }
        (Apply(thunk), None) => {
            // Without a mask the row is its own: each of its positions passes.
            fill_masked(Apply(thunk), operator, calls, emitter, sides, sides.left)
        }
        (Union, Some(mask)) => fill_masked(Union, operator, calls, emitter, sides, mask),
        (Union, None) => fill_merged(Union, operator, calls, emitter, sides),
        (Both, Some(mask)) => fill_masked(Both, operator, calls, emitter, sides, mask),
        (Both, None) => fill_merged(Both, operator, calls, emitter, sides),
    }
}

/// Adds the rows of a range.
fn fill(
    form: EntryForm,
    operator: &Operator,
    calls: &mut Calls,
    emitter: &mut Emitter,
    sources: Sources,
    range: Range<u64>,
) -> Result<(), AllocError>
    requires form { Suits (form_of form) operator.now }
    requires rows { HaveRows sources range.start range.end }
    requires ready { IsReady operator.now sources.left.now.columns
        (calls_from (form_of form) operator.now sources range.start range.end) emitter.old calls.old }
    ensures { Fills operator.now (calls_from (form_of form) operator.now sources.entry range.start range.end)
        (with_rows (rows_from (form_of form) operator.now sources.entry range.start range.end))
        emitter.old calls.old emitter.new calls.new result }
{
    let mut operand_reader = OperandReader::begin(sources, range.start);
    // Readers keep their list of cells, so only every 256th row is looked up.
    for row in range.start..range.end {
        let sides = operand_reader.next_operands(sources, row);
        fill_operands(form, operator, calls, emitter, sides)?;
        emitter.end_row()?;
    }
    Ok(())
}

/// How many cells memory is reserved for: all that there may be, unless these are very many. A
/// union without a mask has at least half of them.
fn room_for(form: EntryForm, sources: Sources, first: u64, end: u64) -> usize {
    let left = entries_between(sources.left, first, end);
    let right = match sources.right {
        None => 0,
        Some(right) => entries_between(right, first, end),
    };
    let most = match form {
        EntryForm::Apply(_) => left,
        EntryForm::Union => left.saturating_add(right),
        EntryForm::Both => left.min(right),
    };
    match (form, sources.mask) {
        // No limit: at least half of the cells come, whatever the positions.
        (EntryForm::Union, None) => most,
        (_, None) => most.min(MOST_ROOM),
        (_, Some(mask)) => most.min(MOST_ROOM).min(entries_between(mask, first, end)),
    }
}

/// The rows of a range of a form's result.
pub fn fill_region(
    alloc: Global,
    calls: &mut Calls,
    form: EntryForm,
    operator: &Operator,
    sources: Sources,
    range: Range<u64>,
) -> Chunk
    requires form { Suits (form_of form) operator.now }
    requires rows { HaveRows sources range.start range.end }
    ensures { IsFormMade (form_of form) operator.now sources.entry.left.now (mask_of sources.entry.right)
        (mask_of sources.entry.mask) range.start (range.end - range.start) result }
{
    operator.recall();
    let mut emitter = Emitter::begin(alloc, range.start, sources.left.columns());
    let rows = (range.end - range.start) as usize;
    // Before the first call: if memory is refused here, nothing is charged.
    match emitter.reserve(rows, room_for(form, sources, range.start, range.end)) {
        Ok(()) => {}
        Err(error) => return emitter.finish(Err(error)),
    }
    calls.begin(operator.kind());
    match fill(form, operator, calls, &mut emitter, sources, range) {
        Ok(()) => {}
        Err(error) => return emitter.finish(Err(error)),
    }
    // The calls of the last rows still wait.
    emitter.flush(operator, calls);
    emitter.finish(Ok(()))
}
