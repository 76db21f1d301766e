//! Rising positions in parts of their range: a table says where each part starts, so that a search
//! looks at one part.
ghost use Rattle.std.specs.Prelude.{◌≡◌, ◌<◌, ◌≤◌, ◌/◌, ◌^◌, ℕ, IsTrue, length, slice_index};
ghost use Rattle.std.specs.Ordering.{nat_cmp};
ghost use Rattle.std.specs.FinMap as map;
ghost use Rattle.csr_store.specs.Columns.{columns_of};
ghost use Rattle.csr_store.specs.inner.Parts.{ArePartStarts};
ghost use Rattle.csr_store.specs.inner.Repeated.{number_at};

use crate::matrix::Cell;
use crate::row::cells_before;

/// How many low bits of a position don't tell its part, so that the last position is in one of
/// `parts` parts.
pub fn part_bits(last: u64, parts: usize) -> u32
    requires { 0 < parts }
    ensures { result < 64 }
{
    let width = last / parts as u64;
    // a shift by 64 would be none at all
    (64 - width.leading_zeros()).min(63)
}

/// Writes where each part starts among positions.
pub fn write_starts(positions: &[Cell], starts: &mut [Cell], bits: u32)
    requires bits { bits < 64 }
    requires rise { IsTrue (map.is_sorted nat_cmp positions.now) }
    ensures { ArePartStarts positions.now bits starts.new }
{
    let mut next = 0;
    for part in 0..starts.len() {
        while next < positions.len() && positions[next].0 >> bits < part as u64 {
            next += 1;
        }
        starts[part].0 = next as u64;
    }
}

/// How many positions are before this one.
pub fn positions_before(positions: &[Cell], starts: &[Cell], bits: u32, position: u64) -> usize
    requires bits { bits < 64 }
    requires rise { IsTrue (map.is_sorted nat_cmp positions.now) }
    requires starts { ArePartStarts positions.now bits starts.now }
    ensures within { result ≤ length positions.now }
    ensures before { (k : ℕ) → k < result → slice_index (columns_of positions.now) k < position }
    ensures behind { (k : ℕ) → result ≤ k → k < length positions.now → position ≤ slice_index (columns_of positions.now) k }
{
    let part = (position >> bits) as usize;
    if part >= starts.len() {
        return cells_before(positions, position);
    }
    let from = starts[part].0 as usize;
    let to = end_of(positions, starts, bits, part);
    from + cells_before(&positions[from..to], position)
}

/// Where a part of the table ends.
fn end_of(positions: &[Cell], starts: &[Cell], bits: u32, part: usize) -> usize
    requires part { part < length starts.now }
    requires starts { ArePartStarts positions.now bits starts.now }
    ensures within { result ≤ length positions.now }
    ensures behind { (k : ℕ) → result ≤ k → k < length positions.now → part < number_at positions.now k / 2 ^ bits }
{
    match starts.get(part + 1) {
        Some(start) => start.0 as usize,
        None => positions.len(),
    }
}
