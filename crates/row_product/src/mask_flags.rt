//! The columns in which the mask's row has an entry.
ghost use Rattle.std.specs.Prelude.{◌≡◌, ◌≤◌, ◌<◌, ℕ, false, length};
ghost use Rattle.std.specs.FinMap as fin;
ghost use Rattle.row_product.specs.inner.Sums.{flag};

use csr_store::Matrix;

/// Allows the columns in which row `i` of a mask has an entry.
pub(crate) fn allow(mask: &Matrix, i: u64, allowed: &mut [bool])
    requires row { i < mask.now.rows }
    requires width { mask.now.columns ≤ length allowed.old }
    requires none { (j : ℕ) → flag allowed.old j ≡ false }
    ensures { (j : ℕ) → flag allowed.new j ≡ fin.contains_key mask.now.cells (i, j) }
{
    // For the prover: the columns of a matrix's entries are below its width.
    mask.recall();
    let row = mask.row(i);
    for cell in row {
        allowed[cell.0 as usize] = true;
    }
}

/// Disallows the columns in which row `i` of a mask has an entry.
pub(crate) fn forbid(mask: &Matrix, i: u64, allowed: &mut [bool])
    requires row { i < mask.now.rows }
    requires width { mask.now.columns ≤ length allowed.old }
    requires those { (j : ℕ) → flag allowed.old j ≡ fin.contains_key mask.now.cells (i, j) }
    ensures { (j : ℕ) → flag allowed.new j ≡ false }
{
    mask.recall();
    let row = mask.row(i);
    // By its entries, not all columns: a row of a wide matrix may have few.
    for cell in row {
        allowed[cell.0 as usize] = false;
    }
}
