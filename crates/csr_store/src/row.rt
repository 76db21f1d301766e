//! Parts of a list of cells, searches in a row, and cells copied behind others.
ghost use Rattle.std.specs.Prelude.{◌≡◌, ◌<◌, ◌≤◌, ◌+◌, ◌++◌, ℕ, IsTrue, OnOk, length, slice_index, slice_range, nat_eq};
ghost use Rattle.std.specs.Ordering.{nat_cmp};
ghost use Rattle.std.specs.FinMap as map;
ghost use Rattle.std.specs.Map.{lookup};
ghost use Rattle.csr_store.specs.Columns.{columns_of};
ghost use Rattle.csr_store.specs.Valued.{valued_from};

use crate::matrix::Cell;
use std::alloc::AllocError;

/// The cells between two places.
#[inline(always)]
pub fn cells_between(cells: &[Cell], from: usize, to: usize) -> &[Cell]
    requires order { from ≤ to }
    requires within { to ≤ length cells.now }
    ensures { result.now ≡ slice_range cells.now from to }
{
    &cells[from..to]
}

/// How many cells of a row are before column `j`.
pub fn cells_before(row: &[Cell], j: u64) -> usize
    requires { IsTrue (map.is_sorted nat_cmp row.now) }
    ensures within { result ≤ length row.now }
    ensures before { (k : ℕ) → k < result → slice_index (columns_of row.now) k < j }
    ensures behind { (k : ℕ) → result ≤ k → k < length row.now
        → j ≤ slice_index (columns_of row.now) k }
{
    row.partition_point(|cell| cell.0 < j)
}

/// The value that stands in a row at column `j`, where one does.
pub fn value_at(row: &[Cell], j: u64) -> Option<u64>
    requires { IsTrue (map.is_sorted nat_cmp row.now) }
    ensures { result ≡ lookup (nat_eq j) row.now }
{
    match row.get(cells_before(row, j)) {
        Some(cell) if cell.0 == j => Some(cell.1),
        _ => None,
    }
}

/// The most cells that are copied at once. The C library copies this many in vector registers, and
/// a good many more byte by byte, by one instruction of which tools count each byte.
const PART: usize = 240;

/// Appends cells to a list.
pub fn append(cells: &mut Vec<Cell>, more: &[Cell]) -> Result<(), AllocError>
    ensures { OnOk result (cells.new.items ≡ cells.old.items ++ more.now) }
{
    cells.reserve(more.len())?;
    let mut rest = more;
    while !rest.is_empty() {
        let (part, behind) = rest.split_at(rest.len().min(PART));
        cells.extend_from_slice(part)?;
        rest = behind;
    }
    Ok(())
}

/// The number of cells to which code without a loop gives values.
const BLOCK: usize = 16;

/// Gives other values to as many cells as there are values, from an index on.
pub fn put_values(cells: &mut [Cell], from: usize, values: &[u64])
    requires { from + length values.now ≤ length cells.old }
    ensures { cells.new ≡ valued_from from values.now cells.old }
{
    let mut entry = from;
    let mut rest = values;
    while rest.len() >= BLOCK {
        let (block, behind) = rest.split_at(BLOCK);
        put_each(cells, entry, block);
        entry += BLOCK;
        rest = behind;
    }
    put_each(cells, entry, rest);
}

/// The same, one value after the other.
#[inline(always)]
fn put_each(cells: &mut [Cell], from: usize, values: &[u64])
    requires { from + length values.now ≤ length cells.old }
    ensures { cells.new ≡ valued_from from values.now cells.old }
{
    let mut entry = from;
    for value in values {
        cells[entry].1 = *value;
        entry += 1;
    }
}
