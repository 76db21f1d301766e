//! One row of a product.
ghost use Rattle.row_product.specs.inner.Masked.{IsNext, AddsCharged};
ghost use Rattle.row_product.specs.inner.Progress.{IsReady, AllForbidden, stands};
ghost use Rattle.row_product.specs.inner.Rows.{IsRowOfA, AreSummed};

use crate::factors::MaskedFactors;
use crate::mask_flags::{allow, forbid};
use crate::progress::Progress;
use crate::row_accumulator::RowAccumulator;
use crate::single::{fill_sole, sole_entry};
use job_forms::{Making, is_open};
use std::alloc::AllocError;

/// Sums row `i` of the product at the columns that pass the mask.
fn sum_under(factors: &MaskedFactors, i: u64, progress: &mut Progress) -> u64
    requires row { IsRowOfA factors.now i }
    requires ready { IsReady factors.now.b.now.columns progress.old × AllForbidden progress.old }
    ensures summed { AreSummed factors.now i (stands progress.new) result }
    ensures ready { IsReady factors.now.b.now.columns progress.new × AllForbidden progress.new }
{
    // Clears the sums of the last row.
    progress.sums.begin();
    match factors.mask {
        None => progress.add_rows(factors, i, false),
        Some(mask) => {
            allow(mask, i, &mut progress.allowed);
            let steps = progress.add_rows(factors, i, true);
            // Undone before the next row, so that the flags are false between rows.
            forbid(mask, i, &mut progress.allowed);
            steps
        }
    }
}

/// Adds row `i` of the product, by its sums. All its calls run, and are charged, before memory may
/// be refused.
fn fill_summed(
    factors: &MaskedFactors,
    i: u64,
    progress: &mut Progress,
    making: &mut Making,
) -> Result<(), AllocError>
    requires next { IsNext factors.now i making.old }
    requires ready { IsReady factors.now.b.now.columns progress.old × AllForbidden progress.old }
    ensures added { AddsCharged factors.now i making.old making.new result }
    ensures ready { IsReady factors.now.b.now.columns progress.new × AllForbidden progress.new }
{
    let columns = factors.b.columns();
    // Charged first: emitting the sums may be refused memory.
    making.steps += sum_under(factors, i, progress);
    progress.sums.emit(columns, &mut making.rows)?;
    making.rows.end_row()
}

impl RowAccumulator for Progress {
    ghost is_ready = { λ columns p. IsReady columns p × AllForbidden p };

    ghost may_fill = { λ f i. Unit {0} };

    /// Work linear in the row's multiplications, the words of A's row and of the mask's, and its
    /// own entries, apart from sorting these.
    fn fill_row(
        &mut self,
        factors: &MaskedFactors,
        i: u64,
        making: &mut Making,
    ) -> Result<(), AllocError> {
        // A row that the mask stops isn't read, so it costs nothing.
        if !is_open(factors.mask, i) {
            return making.rows.end_row();
        }
        // No sums, and no clearing of them: the row of B is the result.
        if let Some(cell) = sole_entry(factors, i) {
            return fill_sole(factors, i, cell, self, making);
        }
        fill_summed(factors, i, self, making)
    }
}
