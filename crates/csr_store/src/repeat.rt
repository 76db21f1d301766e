//! The positions that entries of a list repeat.
ghost use Rattle.std.specs.Prelude.{◌≡◌, ◌<◌, ◌≤◌, true, false, [], length, map, take, IfNone, IfSome, IsTrue};
ghost use Rattle.std.specs.Ordering.{nat_cmp};
ghost use Rattle.std.specs.FinMap as fin;
ghost use Rattle.std.specs.List.Sorted.{IsNonDecreasingBy};
ghost use Rattle.csr_store.specs.Grid.{Position, limit};
ghost use Rattle.csr_store.specs.Listed.{NoneTwice};
ghost use Rattle.csr_store.specs.Packed.{unpacked};
ghost use Rattle.csr_store.specs.Repeated.{AreRepeats, is_met, mark_of, met_at, times};
ghost use Rattle.csr_store.specs.inner.Parts.{IsIndexed};
ghost use Rattle.csr_store.specs.inner.Repeated.{BeginsRepeat, GoesOn, found_in, place_of};

use crate::limits::MOST_SIDE;
use crate::matrix::Cell;
use crate::parts::{part_bits, positions_before, write_starts};
use std::marker::Model;

/// The positions that two or more entries of a list have, and which of them were met so far.
///
/// They are stored where the entries stood, so they take no memory of their own. Each has two
/// entries or more, so behind them is memory for a table of where to look for a position.
#[derive(Drop)]
pub struct RepeatedPositions {
    /// The positions, rising, and behind them where each part of their range starts.
    cells: Vec<Cell>,
    /// How many positions there are.
    count: usize,
    /// How many low bits of a position don't tell its part.
    bits: u32,
}

impl Model for RepeatedPositions {
    ghost use Rattle.std.specs.Prelude.{map, take};
    ghost use Rattle.std.specs.FinMap as fin;
    ghost use Rattle.csr_store.specs.Packed.{unpacked};
    ghost use Rattle.csr_store.specs.Repeated.{Marks, marks_code};
    ghost use Rattle.csr_store.specs.inner.Parts.{IsIndexed};

    ghost Value = { Marks };

    ghost coded = { marks_code };

    ghost view = { λ r. fin.from_entries (map unpacked (take r.count r.cells.items)) };

    ghost invariant = { λ r. IsIndexed r.count r.bits r.cells.items };
}

impl RepeatedPositions {
    /// Meets an entry at a position, and tells whether the position is a repeated one that was met
    /// before.
    ///
    /// Costs a search in one part of the range of the repeated positions, which has some 32 of them
    /// where they stand evenly.
    pub fn meet(&mut self, row: u64, column: u64) -> bool
        requires row { row < limit }
        requires column { column < limit }
        ensures met { result ≡ is_met (fin.get self.old (row, column)) }
        ensures marked { (p : Position) → fin.get self.new p ≡ met_at (row, column) p (fin.get self.old p) }
    {
        mark(
            &mut self.cells,
            self.count,
            self.bits,
            row * MOST_SIDE + column,
        )
    }
}

/// About how many positions a part has. With fewer, the table of parts doesn't stay in a cache near
/// the processor; with more, a search in a part takes longer.
const POSITIONS_A_PART: usize = 32;

/// The positions that two or more of these cells have, if there are any. The cells' positions don't
/// fall.
pub fn repeats_of(cells: Vec<Cell>) -> Option<RepeatedPositions>
    requires { IsNonDecreasingBy (λ c. c.0) cells.items }
    ensures once { IfNone result (NoneTwice (map unpacked cells.items)) }
    ensures twice { IfSome result (λ _. NoneTwice (map unpacked cells.items) → ⊥) }
    ensures repeats { IfSome result (AreRepeats (map unpacked cells.items) []) }
{
    let mut cells = cells;
    let count = keep_repeats(&mut cells);
    if count == 0 {
        return None;
    }
    let parts = count / POSITIONS_A_PART + 1;
    cells.truncate(count + parts);
    let (positions, starts) = cells.split_at_mut(count);
    let bits = part_bits(positions[count - 1].0, parts);
    write_starts(positions, starts, bits);
    Some(RepeatedPositions { cells, count, bits })
}

/// Brings a cell without a mark to the front for each position that two or more cells have, and
/// answers how many they are. The cells' positions don't fall.
fn keep_repeats(cells: &mut Vec<Cell>) -> usize
    requires { IsNonDecreasingBy (λ c. c.0) cells.old.items }
    ensures within { result ≤ length cells.new.items }
    ensures sorted { fin.is_sorted nat_cmp (take result cells.new.items) ≡ true }
    ensures marked { (p : Position) → found_in (take result cells.new.items) p
        ≡ mark_of (times p (map unpacked cells.old.items)) 0 }
{
    let mut repeats = 0;
    for nth in 1..cells.len() {
        if begins_repeat(cells, repeats, nth) {
            cells[repeats] = (cells[nth].0, 0);
            repeats += 1;
        }
    }
    repeats
}

/// Whether a cell has the position of the one before it, and the last of the first so many cells
/// has another.
fn begins_repeat(cells: &[Cell], repeats: usize, nth: usize) -> bool
    requires order { repeats < nth }
    requires within { nth < length cells.now }
    ensures yes { result ≡ true → BeginsRepeat cells.now repeats nth }
    ensures no { result ≡ false → GoesOn cells.now repeats nth }
{
    let position = cells[nth].0;
    if cells[nth - 1].0 != position {
        return false;
    }
    if repeats == 0 {
        return true;
    }
    cells[repeats - 1].0 != position
}

/// Marks the cell of a position, if there is one, and tells whether it had its mark before.
fn mark(cells: &mut Vec<Cell>, count: usize, bits: u32, position: u64) -> bool
    requires { IsIndexed count bits cells.old.items }
    ensures indexed { IsIndexed count bits cells.new.items }
    ensures met { result ≡ is_met (found_in (take count cells.old.items) (place_of position)) }
    ensures marked { (p : Position) → found_in (take count cells.new.items) p
        ≡ met_at (place_of position) p (found_in (take count cells.old.items) p) }
{
    let (positions, starts) = cells.split_at(count);
    let nth = positions_before(positions, starts, bits, position);
    if nth >= count || cells[nth].0 != position {
        return false;
    }
    let met = cells[nth].1 == 1;
    cells[nth].1 = 1;
    met
}
