//! Rows of A with one entry: a row of B, as far as it passes, with each word multiplied. There is
//! nothing to sum or to sort.
ghost use Rattle.std.specs.Prelude.{◌≡◌, ◌≤◌, ◌+◌, ◌*◌, ◌++◌, ◌∷◌, []};
ghost use Rattle.std.specs.Prelude.{length, IfSome, OnOk};
ghost use Rattle.bpf_run.specs.Calls.{calls_on, pairs_with};
ghost use Rattle.csr_store.specs.Grid.{limit, row_of};
ghost use Rattle.job_forms.specs.Region.{Adds};
ghost use Rattle.row_product.specs.inner.Adding.{taking};
ghost use Rattle.row_product.specs.inner.RowUnderMask.{stores};
ghost use Rattle.row_product.specs.inner.Masked.{AddsRow};
ghost use Rattle.row_product.specs.inner.Progress.{IsReady, AllForbidden};
ghost use Rattle.row_product.specs.inner.Rows.{IsRowOfA};
ghost use Rattle.row_product.specs.inner.Single.{multiplied, with_words, IsBehind, IsSole, IsNextSole, MayPush, MayPushUnder};

use crate::dense_accumulator::DenseAccumulator;
use crate::factors::MaskedFactors;
use crate::progress::Progress;
use crate::row_under_mask::{RowUnderMask, list_passing};
use bpf_run::MOST_CALLS;
use csr_store::Rows;
use job_forms::{Making, RowCursor};
use std::alloc::AllocError;

/// The one entry of row `i` of A, if it has no other.
pub(crate) fn sole_entry(factors: &MaskedFactors, i: u64) -> Option<(u64, u64)>
    requires { IsRowOfA factors.now i }
    ensures { IfSome result (IsSole factors.now i) }
{
    let row = factors.a.row(i);
    if row.len() == 1 { Some(row[0]) } else { None }
}

/// Appends cells with other words to the open row.
pub(crate) fn push_words(
    cells: &[(u64, u64)],
    words: &[u64],
    rows: &mut Rows,
) -> Result<(), AllocError>
    requires words { length words.now ≡ length cells.now }
    requires behind { IsBehind rows.old.columns rows.old.opened cells.now }
    ensures { OnOk result (rows.new ≡ record rows.old { opened = rows.old.opened ++ with_words cells.now words.now }) }
{
    for k in 0..cells.len() {
        rows.push(cells[k].0, words[k])?;
    }
    Ok(())
}

/// Adds a row: a word times each of row `k` of B.
fn push_row(
    factors: &MaskedFactors,
    x: u64,
    k: u64,
    sums: &mut DenseAccumulator,
    making: &mut Making,
) -> Result<(), AllocError>
    requires { MayPush factors.now k making.old }
    ensures row { Adds (multiplied factors.now.mul.now x (row_of factors.now.b.now k) ∷ [])
        (calls_on factors.now.mul.now (pairs_with x (row_of factors.now.b.now k))) making.old making.new result }
    ensures little { making.new.steps ≤ making.old.steps + 8192 * limit }
    ensures sums { sums.new ≡ sums.old }
{
    let mut cells = factors.b.row(k);
    // Reserve first: once calls ran, nothing may run out of memory.
    making.rows.reserve(cells.len())?;
    while !cells.is_empty() {
        let (now, rest) = cells.split_at(cells.len().min(MOST_CALLS));
        sums.push_products(factors, x, now, making)?;
        cells = rest;
    }
    making.rows.end_row()
}

/// Adds a row: a word times each of those of a row of B whose columns are in a mask's row.
fn push_row_under(
    factors: &MaskedFactors,
    cell: (u64, u64),
    stored: &[(u64, u64)],
    progress: &mut Progress,
    making: &mut Making,
) -> Result<(), AllocError>
    requires { MayPushUnder factors.now cell.0 stored.now progress.old making.old }
    ensures row { Adds (multiplied factors.now.mul.now cell.1 (taking (stores stored.now) (row_of factors.now.b.now cell.0)) ∷ [])
        (calls_on factors.now.mul.now (pairs_with cell.1 (taking (stores stored.now) (row_of factors.now.b.now cell.0))))
        making.old making.new result }
    ensures little { making.new.steps ≤ making.old.steps + 8192 * limit }
    ensures unchanged { (progress.new.sums ≡ progress.old.sums) × (progress.new.allowed ≡ progress.old.allowed)
        × (64 ≤ length progress.new.passing.items) × (progress.new.passing_columns ≡ progress.old.passing_columns) }
{
    let (k, x) = cell;
    let cells = factors.b.row(k);
    // Reserve first: once calls ran, nothing may run out of memory.
    // No more cells pass than the shorter of the two rows has.
    making.rows.reserve(cells.len().min(stored.len()))?;
    let mut row = RowUnderMask {
        cells,
        mask: RowCursor::new(stored),
    };
    while !row.cells.is_empty() {
        let (rest, count) = list_passing(row, &mut progress.passing);
        row = rest;
        progress
            .sums
            .push_products(factors, x, &progress.passing[..count], making)?;
    }
    making.rows.end_row()
}

/// Adds row `i` of the product, if row `i` of A has one entry.
pub(crate) fn fill_sole(
    factors: &MaskedFactors,
    i: u64,
    cell: (u64, u64),
    progress: &mut Progress,
    making: &mut Making,
) -> Result<(), AllocError>
    requires next { IsNextSole factors.now i cell making.old }
    requires ready { IsReady factors.now.b.now.columns progress.old × AllForbidden progress.old }
    ensures row { AddsRow factors.now i making.old making.new result }
    ensures ready { IsReady factors.now.b.now.columns progress.new × AllForbidden progress.new }
{
    match factors.mask {
        None => push_row(factors, cell.1, cell.0, &mut progress.sums, making),
        Some(mask) => {
            // For the prover: the mask's row ascends.
            mask.recall();
            push_row_under(factors, cell, mask.row(i), progress, making)
        }
    }
}
