//! What rows count for in a price, by the numbers of their entries. If a matrix has none in the
//! rows, its row starts tell without a visit to each row.
ghost use Rattle.std.specs.Prelude.{◌≡◌, ◌≤◌, ◌<◌, ◌-◌, min, Some};
ghost use Rattle.csr_store.specs.Along.{summed};
ghost use Rattle.csr_store.specs.Grid.{limit};
ghost use Rattle.job_plan.specs.Costing.{count, if_passing};

use csr_store::Matrix;
use job_forms::is_open;
use std::ops::Range;

/// How many entries row `i` has.
fn count(a: &Matrix, i: u64) -> u64
    requires { i < a.now.rows }
    ensures { result ≡ count a.now i }
{
    // For the prover: starts ascend, so the difference can't underflow.
    a.recall();
    let starts = a.starts();
    starts[i as usize + 1] - starts[i as usize]
}

/// How many entries some rows have.
pub(crate) fn count_in(a: &Matrix, range: Range<u64>) -> u64
    requires { range.end ≤ a.now.rows }
    ensures { result ≡ summed (count a.now) range.start (range.end - range.start) }
{
    // The definition counts nothing in such a range. The difference below would underflow.
    if range.end <= range.start {
        return 0;
    }
    a.recall();
    let starts = a.starts();
    starts[range.end as usize] - starts[range.start as usize]
}

/// The entries of the shorter of two rows, added up over some rows.
pub(crate) fn lesser_in(a: &Matrix, b: &Matrix, range: Range<u64>) -> u64
    requires left { range.end ≤ a.now.rows }
    requires right { range.end ≤ b.now.rows }
    ensures { result ≡ summed (λ i. min (count a.now i) (count b.now i)) range.start (range.end - range.start) }
{
    a.recall();
    // Two row starts of each matrix tell, before any row is visited.
    if a.is_blank(range.start..range.end) || b.is_blank(range.start..range.end) {
        return 0;
    }
    let mut entries = 0;
    for i in range.start..range.end {
        entries += count(a, i).min(count(b, i));
    }
    entries
}

/// The entries of the shortest of three rows, added up over some rows.
pub(crate) fn least_in(a: &Matrix, b: &Matrix, mask: &Matrix, range: Range<u64>) -> u64
    requires left { range.end ≤ a.now.rows }
    requires right { range.end ≤ b.now.rows }
    requires mask { range.end ≤ mask.now.rows }
    ensures { result ≡ summed (λ i. min (min (count a.now i) (count b.now i)) (count mask.now i)) range.start
        (range.end - range.start) }
{
    a.recall();
    if mask.is_blank(range.start..range.end) {
        return 0;
    }
    let mut entries = 0;
    for i in range.start..range.end {
        entries += count(a, i).min(count(b, i)).min(count(mask, i));
    }
    entries
}

/// How many of some rows have entries.
fn filled_in(a: &Matrix, range: Range<u64>) -> u64
    requires within { range.end ≤ a.now.rows }
    requires few { summed (λ i. min (count a.now i) 1) range.start (range.end - range.start) ≤ limit }
    ensures { result ≡ summed (λ i. min (count a.now i) 1) range.start (range.end - range.start) }
{
    let mut filled = 0;
    for i in range.start..range.end {
        // A row counts once, however many entries it has.
        filled += count(a, i).min(1);
    }
    filled
}

/// How many calls fold some rows.
pub(crate) fn folds_in(a: &Matrix, range: Range<u64>) -> u64
    requires { range.end ≤ a.now.rows }
    ensures { result ≡ summed (λ i. count a.now i - 1) range.start (range.end - range.start) }
{
    a.recall();
    // By two row starts. The rows are visited only if there are entries.
    let entries = count_in(a, range.start..range.end);
    if entries == 0 {
        return 0;
    }
    // A row with entries takes a call less than it has entries.
    entries - filled_in(a, range)
}

/// How many calls fold those of some rows in which a mask has an entry.
pub(crate) fn folds_under(a: &Matrix, mask: &Matrix, range: Range<u64>) -> u64
    requires within { range.end ≤ a.now.rows }
    requires mask { range.end ≤ mask.now.rows }
    ensures { result ≡ summed (λ i. if_passing (Some mask.now) i (count a.now i - 1)) range.start (range.end - range.start) }
{
    a.recall();
    if a.is_blank(range.start..range.end) || mask.is_blank(range.start..range.end) {
        return 0;
    }
    let mut folds = 0;
    for i in range.start..range.end {
        folds += folds_of(a, mask, i);
    }
    folds
}

/// How many calls fold row `i`, if a mask has an entry in it.
fn folds_of(a: &Matrix, mask: &Matrix, i: u64) -> u64
    requires within { i < a.now.rows }
    requires mask { i < mask.now.rows }
    ensures { result ≡ if_passing (Some mask.now) i (count a.now i - 1) }
{
    if is_open(Some(mask), i) {
        // Saturating: a row without entries takes no call.
        count(a, i).saturating_sub(1)
    } else {
        0
    }
}
