//! What passes a mask, or all where there is none.
ghost use Rattle.std.specs.Prelude.{IsTrue};
ghost use Rattle.csr_store.specs.Mask.{HasShape, mask_of};

use csr_store::Matrix;

/// Whether a mask has this shape, or there is none.
pub fn has_shape(mask: Option<&Matrix>, rows: u64, columns: u64) -> bool
    ensures { IsTrue result → HasShape rows columns (mask_of mask.entry) }
{
    match mask {
        None => true,
        Some(mask) => mask.rows() == rows && mask.columns() == columns,
    }
}

/// Whether a mask has an entry at a position, or there is none.
pub fn passes(mask: Option<&Matrix>, row: u64, column: u64) -> bool {
    match mask {
        None => true,
        Some(mask) => mask.get(row, column).is_some(),
    }
}
