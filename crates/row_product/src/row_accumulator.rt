//! Rows of a product in sequence, with buffers for the sums of each.
ghost use Rattle.std.specs.Prelude.{◌≤◌, ◌<◌, ℕ};
ghost use Rattle.row_product.specs.declared.factors.MaskedFactors.{MaskedFactors as Those};
ghost use Rattle.row_product.specs.inner.Masked.{IsBegun, IsNext, AddsRow, AddsRows};

use crate::factors::MaskedFactors;
use job_forms::Making;
use std::alloc::AllocError;
use std::ops::Range;

/// The buffers in which a row of a product is summed: of all columns (`row`), or in lists of its
/// terms alone (`sorted_accumulator`).
pub(crate) trait RowAccumulator {
    /// The buffers hold so many columns, as far as that is needed before a row is begun.
    ghost is_ready: { ℕ → Self → Type 0 };

    /// The terms of a row aren't too many for it.
    ghost may_fill: { Those → ℕ → Type 0 };

    /// Adds row `i` of the product to rows.
    fn fill_row(
        &mut self,
        factors: &MaskedFactors,
        i: u64,
        making: &mut Making,
    ) -> Result<(), AllocError>
        requires next { IsNext factors.now i making.old }
        requires ready { is_ready factors.now.b.now.columns self.old }
        requires may { may_fill factors.now i }
        ensures row { AddsRow factors.now i making.old making.new result }
        ensures ready { is_ready factors.now.b.now.columns self.new };
}

/// Adds the rows of a range in sequence, with the same buffers.
pub(crate) fn fill_rows<R: RowAccumulator>(
    factors: &MaskedFactors,
    range: Range<u64>,
    accumulator: &mut R,
    making: &mut Making,
) -> Result<(), AllocError>
    requires begun { IsBegun factors.now range.start range.end making.old }
    requires ready { R.is_ready factors.now.b.now.columns accumulator.old }
    requires may { (i : ℕ) → range.start ≤ i → i < range.end → R.may_fill factors.now i }
    ensures rows { AddsRows factors.now range.start range.end making.old making.new result }
    ensures ready { R.is_ready factors.now.b.now.columns accumulator.new }
{
    for i in range.start..range.end {
        accumulator.fill_row(factors, i, making)?;
    }
    // Rows that grew by doubling give back what they don't use: they become the result.
    making.rows.trim();
    Ok(())
}
