//! Runs of rows as a matrix.
ghost use Rattle.std.specs.Prelude.{◌≡◌, ◌≤◌, length, IfOk};
ghost use Rattle.csr_store.specs.Grid.{limit};
ghost use Rattle.csr_store.specs.ByRows.{grid};
ghost use Rattle.csr_store.specs.Run.{Follow, all_ended, numbered};

use crate::matrix::Matrix;
use crate::rows::Rows;
use crate::starts::RowStarts;
use std::alloc::{AllocError, Global};

/// The matrix of runs of rows that follow one another from row 0 to the last, each with these
/// columns and without an entry in its open row. All memory is taken before the first cell is
/// copied.
pub fn join_rows(
    alloc: Global,
    rows: u64,
    columns: u64,
    pieces: Vec<Rows>,
) -> Result<Matrix, AllocError>
    requires rows { rows ≤ limit }
    requires columns { columns ≤ limit }
    requires follow { Follow columns 0 rows pieces.items }
    requires small { length (numbered 0 (all_ended pieces.items)) ≤ limit }
    ensures { IfOk result (λ m. m ≡ grid rows columns (numbered 0 (all_ended pieces.items))) }
{
    let mut shared = RowStarts::empty(alloc)?;
    let mut starts: Vec<u64> = Vec::with_capacity(alloc, rows as usize + 1)?;
    let mut cells = Vec::with_capacity(alloc, count_entries(&pieces))?;
    starts.push(0)?;
    for piece in &pieces {
        piece.append_to(&mut starts, &mut cells)?;
    }
    shared.give(starts)?;
    Ok(Matrix::from_rows(rows, columns, shared, cells))
}

/// How many entries runs have.
fn count_entries(pieces: &[Rows]) -> usize {
    let mut count: usize = 0;
    for piece in pieces {
        count = count.saturating_add(piece.entries());
    }
    count
}
