//! The cells that answers select, those whose answer is not 0, and the cells of a row that a mask
//! shows.
ghost use Rattle.std.specs.Prelude.{◌≡◌, ◌<◌, ◌≤◌, ◌+◌, ◌^◌, ◌++◌, ◌∷◌, ℕ, [], length, min, nat_eq, if◌then◌else◌, vec_capacity};
ghost use Rattle.std.specs.List.{AllByRecursion};
ghost use Rattle.csr_store.specs.Grid.{Cell};
ghost use Rattle.csr_store.specs.Added.{kept_where};
ghost use Rattle.csr_store.specs.Ascending.{Ascends};
ghost use Rattle.csr_store.specs.Shown.{cells_shown};
ghost use Rattle.csr_store.specs.inner.Selected.{kept_count};

use crate::matrix::Cell;

/// The capacity for the cells that some answers select. With any answers it is one more, which
/// holds a cell until its answer is looked at.
pub fn room_for(answers: &[u64]) -> usize
    ensures { 0 < length answers.now → kept_count answers.now < result }
{
    if answers.is_empty() {
        return 0;
    }
    count_selected(answers) + 1
}

/// How many of some answers are not 0.
fn count_selected(answers: &[u64]) -> usize
    ensures count { result ≡ kept_count answers.now }
    ensures few { result ≤ length answers.now }
{
    let mut selected = 0;
    for answer in answers {
        if *answer != 0 {
            selected += 1;
        }
    }
    selected
}

/// Appends the cells whose answer is not 0 to a list that has capacity for them and for one more.
#[inline(always)]
pub fn add_where(selected: &mut Vec<Cell>, cells: &[Cell], answers: &[u64])
    requires { (length answers.now ≡ length cells.now)
        × (0 < length answers.now → length selected.old.items + kept_count answers.now < vec_capacity selected.old) }
    ensures added { selected.new.items ≡ selected.old.items ++ kept_where cells.now answers.now }
    ensures words { AllByRecursion (λ (c : Cell). c.1 < 2 ^ 64) cells.now }
    ensures capacity { vec_capacity selected.old ≤ vec_capacity selected.new }
{
    let mut next = 0;
    for (column, word) in cells {
        push_if(selected, *column, *word, answers[next]);
        next += 1;
    }
}

/// Appends the cells of a row at whose columns a mask's row has one to a list with capacity for as
/// many as the shorter row has.
#[inline(always)]
pub fn add_shown(shown: &mut Vec<Cell>, cells: &[Cell], mask: &[Cell])
    requires { length shown.old.items + min (length cells.now) (length mask.now) ≤ vec_capacity shown.old }
    ensures added { (n : ℕ) → Ascends 0 n cells.now → Ascends 0 n mask.now
        → (shown.new.items ≡ shown.old.items ++ cells_shown mask.now cells.now)
        × AllByRecursion (λ (c : Cell). c.1 < 2 ^ 64) (cells_shown mask.now cells.now) }
    ensures capacity { vec_capacity shown.old ≤ vec_capacity shown.new }
{
    let mut next = 0;
    let mut beside = 0;
    // Each step leaves the lower of the two columns behind, and both where they are equal. Flags
    // are added, so that no branch depends on which cells are shown.
    while next < cells.len() && beside < mask.len() {
        let (column, word) = cells[next];
        let other = mask[beside].0;
        push_if(shown, column, word, u64::from(column == other));
        next += usize::from(column <= other);
        beside += usize::from(other <= column);
    }
}

/// Appends a cell to a list that has capacity for it, and removes it if its answer is 0. A branch
/// on the answer would be mispredicted often, since nothing foretells which cells are selected.
#[inline(always)]
pub fn push_if(selected: &mut Vec<Cell>, column: u64, word: u64, answer: u64)
    requires capacity { length selected.old.items < vec_capacity selected.old }
    ensures added { selected.new.items
        ≡ (if nat_eq answer 0 then selected.old.items else selected.old.items ++ (column, word) ∷ []) }
    ensures capacity { vec_capacity selected.old ≤ vec_capacity selected.new }
    ensures word { word < 2 ^ 64 }
{
    selected.push_reserved((column, word));
    if answer == 0 {
        let _ = selected.take_last();
    }
}
