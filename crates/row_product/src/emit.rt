//! Appending the sums of a row to the open row of the result.
ghost use Rattle.std.specs.Prelude.{◌≡◌, ◌≤◌, ◌<◌, ◌*◌, ◌++◌, true, false, length, OnOk};
ghost use Rattle.std.specs.List.{AllByRecursion};
ghost use Rattle.csr_store.specs.Along.{cell_at, row_by};
ghost use Rattle.csr_store.specs.Grid.{Cell};
ghost use Rattle.row_product.specs.inner.Emitting.{MayEmit, AreInOrder};
ghost use Rattle.row_product.specs.inner.DenseSums.{AreMarked};
ghost use Rattle.row_product.specs.inner.Sums.{slot};

use crate::dense_sums::DenseSums;
use csr_store::Rows;
use std::alloc::AllocError;

/// Appends the sum of a column, if there is one, to the open row.
#[inline(always)]
fn put_sum(column: u64, dense: &DenseSums, rows: &mut Rows) -> Result<(), AllocError>
    requires dense { column < length dense.now }
    requires within { column < rows.old.columns }
    requires above { AllByRecursion (λ (c : Cell). c.0 < column) rows.old.opened }
    ensures { OnOk result (rows.new ≡ record rows.old { opened = rows.old.opened ++ cell_at column (slot dense.now column) }) }
{
    match dense.get(column) {
        Some(sum) => rows.push(column, sum),
        None => Ok(()),
    }
}

/// Whether next <= column < columns.
#[inline(always)]
fn is_due(column: u64, next: u64, columns: u64) -> bool
    ensures due { result ≡ true → (next ≤ column) × (column < columns) }
    ensures other { result ≡ false → next ≤ column → columns ≤ column }
{
    column >= next && column < columns
}

/// Appends the sums of the listed columns, which do not descend and are all that have one, to the
/// open row.
pub(crate) fn emit_listed(
    columns: u64,
    listed: &[u64],
    dense: &DenseSums,
    rows: &mut Rows,
) -> Result<(), AllocError>
    requires capacity { MayEmit columns dense.now rows.old }
    requires listed { AreInOrder listed.now dense.now }
    ensures { OnOk result (rows.new ≡ record rows.old { opened = row_by rows.old.columns (slot dense.now) }) }
{
    let mut next = 0;
    for column in listed {
        // A column that is listed twice is skipped the second time, so nobody has to show that none
        // is.
        if is_due(*column, next, columns) {
            put_sum(*column, dense, rows)?;
            next = *column + 1;
        }
    }
    Ok(())
}

/// Appends the sums of the columns whose bit is set to the open row: for rows in which many columns
/// have one.
pub(crate) fn emit_marked(
    columns: u64,
    bits: &[u64],
    dense: &DenseSums,
    rows: &mut Rows,
) -> Result<(), AllocError>
    requires capacity { MayEmit columns dense.now rows.old }
    requires long { columns ≤ 64 * length bits.now }
    requires covers { AreMarked bits.now dense.now }
    ensures { OnOk result (rows.new ≡ record rows.old { opened = row_by rows.old.columns (slot dense.now) }) }
{
    let mut next = 0;
    while next < columns {
        // The last word may belong to the columns in part.
        let end = next + (columns - next).min(64);
        let mut left = bits[(next / 64) as usize];
        // A word of 0 has 64 trailing zeros, which ends the walk.
        while (left.trailing_zeros() as u64) < end - next {
            let skip = left.trailing_zeros();
            next += skip as u64;
            put_sum(next, dense, rows)?;
            // In two steps: `skip` may be 63, and a shift by 64 isn't defined.
            left = left >> skip >> 1;
            next += 1;
        }
        next = end;
    }
    Ok(())
}
