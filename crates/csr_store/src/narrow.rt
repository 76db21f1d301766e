//! The columns of all entries of a matrix by themselves, in four bytes each. Loops that read no
//! values read a quarter of the memory by them.
ghost use Rattle.std.specs.Prelude.{◌≡◌, ◌≤◌, ◌++◌, true, length, slice_range, IfSome};
ghost use Rattle.csr_store.specs.Columns.{columns_of};
ghost use Rattle.csr_store.specs.inner.Cells.{joined_cells};
ghost use Rattle.csr_store.specs.inner.Narrow.{HaveWord, IsNarrow};

use crate::cells::Cells;
use crate::matrix::Cell;
use std::alloc::Global;

/// The columns of all entries, row after row.
#[derive(Drop)]
pub(crate) struct Narrow {
    pub(crate) columns: Vec<u32>,
    /// A word that all entries have, if there is one.
    pub(crate) only: Option<u64>,
}

impl Narrow {
    /// The columns of the cells of a matrix, unless there is no memory for them; where their words
    /// are read, only if all of them are one.
    pub(crate) fn of(alloc: Global, cells: &Cells, entries: u64, reads_words: bool) -> Option<Self>
        ensures { IfSome result (λ n. IsNarrow (joined_cells cells.now) n) }
    {
        let only = only_word(cells);
        if reads_words && only.is_none() {
            return None;
        }
        let mut columns = Vec::with_capacity(alloc, entries as usize).ok()?;
        match cells {
            Cells::Whole(cells) => push_columns(&mut columns, cells)?,
            Cells::Runs(runs) => {
                for run in runs {
                    push_columns(&mut columns, run)?;
                }
            }
        }
        Some(Narrow { columns, only })
    }

    /// The columns between two places.
    #[inline(always)]
    pub(crate) fn between(&self, from: usize, to: usize) -> &[u32]
        requires order { from ≤ to }
        requires within { to ≤ length self.now.columns.items }
        ensures { result.now ≡ slice_range self.now.columns.items from to }
    {
        &self.columns[from..to]
    }
}

/// Appends the columns of cells, unless one takes more than four bytes, or there is no memory.
fn push_columns(columns: &mut Vec<u32>, cells: &[Cell]) -> Option<()>
    ensures { IfSome result (λ _. columns.new.items ≡ columns.old.items ++ columns_of cells.now) }
{
    for cell in cells {
        let column = u32::try_from(cell.0).ok()?;
        columns.push(column).ok()?;
    }
    Some(())
}

/// The word that all cells of a matrix have, if they have one.
fn only_word(cells: &Cells) -> Option<u64>
    ensures { IfSome result (λ w. HaveWord w (joined_cells cells.now)) }
{
    match cells {
        Cells::Whole(cells) => {
            let word = cells.first()?.1;
            if have_word(cells, word) {
                Some(word)
            } else {
                None
            }
        }
        Cells::Runs(runs) => {
            let word = runs.iter().find_map(|run| run.first())?.1;
            for run in runs {
                if !have_word(run, word) {
                    return None;
                }
            }
            Some(word)
        }
    }
}

/// Whether all cells have a word.
fn have_word(cells: &[Cell], word: u64) -> bool
    ensures { result ≡ true → HaveWord word cells.now }
{
    for cell in cells {
        if cell.1 != word {
            return false;
        }
    }
    true
}
