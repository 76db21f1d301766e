//! The words at positions of a mask for which an index operator doesn't return 0, row by row.
ghost use Rattle.std.specs.Prelude.{◌≡◌, ◌<◌, ◌-◌, None, Some};
ghost use Rattle.bpf_insn.specs.declared.operands.Kind.TheVariants as kinds;
ghost use Rattle.csr_store.specs.Mask.{HasShape};
ghost use Rattle.entry_ops.specs.inner.Forms as forms;
ghost use Rattle.entry_ops.specs.inner.Standing.{with_cells};
ghost use Rattle.entry_ops.specs.inner.SelectBuffer.{IsReady, Fills};
ghost use Rattle.entry_ops.specs.inner.Masked.{HasMaskedRows, rows_kept, calls_kept};
ghost use Rattle.entry_ops.specs.inner.Walking.{with_rows, form_row, form_row_calls, IsFormMade};

use crate::form::operands_of;
use crate::select_buffer::SelectBuffer;
use bpf_run::Calls;
use bpf_verify::Operator;
use csr_store::Matrix;
use job_forms::{Chunk, RowCursor};
use std::alloc::{AllocError, Global};
use std::ops::Range;

/// A matrix with a mask of its shape.
#[derive(Clone, Copy)]
pub struct Masked<'a> {
    pub a: &'a Matrix,
    pub mask: &'a Matrix,
}

/// Adds the words of a row that the operator selects, at those positions that the mask's row
/// stores.
fn keep_row(
    thunk: u64,
    operator: &Operator,
    calls: &mut Calls,
    sieve: &mut SelectBuffer,
    masked: Masked,
    row: u64,
) -> Result<(), AllocError>
    requires kind { operator.now.kind ≡ kinds.Index }
    requires row { HasShape masked.a.now.rows masked.a.now.columns (Some masked.mask.now) × (row < masked.a.now.rows) }
    requires ready { IsReady operator.now masked.a.now.columns
        (form_row_calls (forms.Select thunk) operator.now masked.a.now None (Some masked.mask.now) row) sieve.old calls.old }
    ensures { Fills operator.now
        (form_row_calls (forms.Select thunk) operator.now masked.entry.a.now None (Some masked.entry.mask.now) row)
        (with_cells (form_row (forms.Select thunk) operator.now masked.entry.a.now None (Some masked.entry.mask.now) row))
        sieve.old calls.old sieve.new calls.new result }
{
    // For the prover: rows ascend, so the cursor misses no cell.
    masked.a.recall();
    masked.mask.recall();
    let mut cells = RowCursor::new(masked.a.row(row));
    let mut masks = masked.mask.row(row);
    while let Some((shown, rest)) = masks.split_first() {
        let column = shown.0;
        cells.advance_to(column);
        if let Some(word) = cells.word_at(column) {
            let operands = operands_of(Some(thunk), row, column, word);
            sieve.keep(operator, calls, column, word, operands)?;
        }
        masks = rest;
    }
    Ok(())
}

/// Adds the rows of a range.
fn keep_rows(
    thunk: u64,
    operator: &Operator,
    calls: &mut Calls,
    sieve: &mut SelectBuffer,
    masked: Masked,
    range: Range<u64>,
) -> Result<(), AllocError>
    requires kind { operator.now.kind ≡ kinds.Index }
    requires rows { HasMaskedRows masked range.start range.end }
    requires ready { IsReady operator.now masked.a.now.columns (calls_kept thunk operator.now masked range.start range.end)
        sieve.old calls.old }
    ensures { Fills operator.now (calls_kept thunk operator.now masked.entry range.start range.end)
        (with_rows (rows_kept thunk operator.now masked.entry range.start range.end))
        sieve.old calls.old sieve.new calls.new result }
{
    for row in range.start..range.end {
        keep_row(thunk, operator, calls, sieve, masked, row)?;
        sieve.end_row(operator, calls)?;
    }
    Ok(())
}

/// The rows of a range of what an operator selects, under a mask.
pub fn sift_region(
    alloc: Global,
    calls: &mut Calls,
    operator: &Operator,
    thunk: u64,
    masked: Masked,
    range: Range<u64>,
) -> Chunk
    requires kind { operator.now.kind ≡ kinds.Index }
    requires rows { HasMaskedRows masked range.start range.end }
    ensures { IsFormMade (forms.Select thunk) operator.now masked.entry.a.now None (Some masked.entry.mask.now) range.start
        (range.end - range.start) result }
{
    operator.recall();
    let mut sieve = match SelectBuffer::begin(alloc, range.start, masked.a.columns()) {
        Ok(sieve) => sieve,
        Err(error) => return Chunk::refused(error),
    };
    calls.begin(operator.kind());
    match keep_rows(thunk, operator, calls, &mut sieve, masked, range) {
        Ok(()) => {}
        Err(error) => return sieve.finish(Err(error)),
    }
    // The last calls. Adding their cells may be refused memory, after they were charged.
    let flushed = sieve.flush(operator, calls);
    sieve.finish(flushed)
}
