//! Runs of rows: joined, cells many at a time, rows copied from a matrix, and entries that get
//! other values.
ghost use Rattle.std.specs.Prelude.{◌≡◌, ◌≤◌, ◌+◌, ◌∷◌, [], length, IfOk, OnOk};

use super::{Triple, assert_count, assert_holds, assert_starts, finish_again, put_again};
use csr_store::{Builder, Matrix, RUN_ROWS, RowCopy, Rows, join_rows};
use std::alloc::{AllocError, Global};
use std::process::Abort;
use std::test::Fail;

/// How many entries each row has: none, one, and about as many as are copied at once.
const LENGTHS: [u64; 8] = [0, 1, 127, 128, 0, 129, 300, 2];

/// A matrix of such rows. The value at a position is 1,000 times its row, and its column.
fn uneven(rt: &HostRuntime) -> Result<Matrix, Fail> {
    let mut builder = Builder::new(rt.alloc(), 8, 300);
    for row in 0..8usize {
        for column in 0..LENGTHS[row] {
            put_again(
                &mut builder,
                (row as u64, column, row as u64 * 1000 + column),
            )?;
        }
    }
    Ok(finish_again(builder)?)
}

/// A run of rows has this cell at an index.
fn assert_cell(rt: &impl Abort, rows: &Rows, index: u64, column: u64, value: u64) {
    assert_eq!(rt;
        rows.cells().get(index as usize),
        Some(&(column, value)),
        "entry {index}"
    );
}

/// A run of rows has the cells of a row from an index on. The index behind them.
fn assert_row_at(rt: &impl Abort, rows: &Rows, index: u64, cells: &[(u64, u64)]) -> u64 {
    let mut next = index;
    for (column, value) in cells {
        assert_cell(rt, rows, next, *column, *value);
        next = next.wrapping_add(1);
    }
    next
}

/// A run of rows has the rows of a matrix from one up to another.
fn assert_copied(rt: &impl Abort, copied: &Rows, matrix: &Matrix, from: u64, to: u64) {
    assert_count(rt, copied.first(), from);
    assert_count(rt, copied.len(), to.wrapping_sub(from));
    let mut next = 0;
    for row in from..to.min(matrix.rows()) {
        next = assert_row_at(rt, copied, next, matrix.row(row));
    }
    assert_count(rt, copied.entries() as u64, next);
}

/// Rows of a matrix from one up to another, copied with the values that they have.
fn copy_of(
    rt: &impl Abort,
    alloc: Global,
    matrix: &Matrix,
    from: u64,
    to: u64,
) -> Result<Rows, AllocError>
    requires range { from ≤ to }
    requires within { to ≤ matrix.now.rows }
{
    assert!(rt; to - from / RUN_ROWS * RUN_ROWS <= RUN_ROWS);
    let mut copy = matrix.copying(alloc, from..to)?;
    for row in from..to {
        write_again(&mut copy, matrix.row(row));
    }
    assert!(rt; copy.written() == copy.entries());
    Ok(copy.finish())
}

/// Writes the next entries of a copy with the values of these cells, as far as there are entries.
fn write_again(copy: &mut RowCopy, cells: &[(u64, u64)]) {
    for (_, value) in cells {
        if copy.written() < copy.entries() {
            copy.write_values(&[*value]);
        }
    }
}

#[test]
fn rows_are_copied(rt: HostRuntime) -> Result<(), Fail> {
    let matrix = uneven(&rt)?;
    let rows = matrix.rows();
    for from in 0..rows {
        for to in from..rows {
            let copied = copy_of(&rt, rt.alloc(), &matrix, from, to)?;
            assert_copied(&rt, &copied, &matrix, from, to);
        }
    }
    Ok(())
}

/// Rows and columns, each with its index among all cells and its value behind `other_values`.
const CHANGED: [(u64, u64, u64, u64); 7] = [
    (1, 0, 0, 1000),
    (2, 0, 1, 2000),
    (2, 126, 127, 7),
    (3, 0, 128, 8),
    (3, 1, 129, 9),
    (3, 2, 130, 3002),
    (5, 0, 256, 5000),
];

/// Three values from the index 127 on, and one at the index 500.
fn other_values(rt: &impl Abort, alloc: Global, matrix: &Matrix) -> Result<Rows, AllocError> {
    let mut copied = copy_of(rt, alloc, matrix, 0, matrix.rows())?;
    if 130 <= copied.entries() {
        copied.set_values(127, &[7, 8, 9]);
    }
    if 500 < copied.entries() {
        copied.set_value(500, 5);
    }
    Ok(copied)
}

/// A run of rows has these cells, each with its row, its column, its index and its value.
fn assert_cells(rt: &impl Abort, rows: &Rows, cells: &[(u64, u64, u64, u64)]) {
    for (_, column, index, value) in cells {
        assert_cell(rt, rows, *index, *column, *value);
    }
}

/// The value of the cell at an index.
fn value_at(rows: &Rows, index: usize) -> Option<u64> {
    match rows.cells().get(index) {
        Some(cell) => Some(cell.1),
        None => None,
    }
}

#[test]
fn entries_get_other_values(rt: HostRuntime) -> Result<(), Fail> {
    let matrix = uneven(&rt)?;
    let copied = other_values(&rt, rt.alloc(), &matrix)?;
    assert_count(&rt, copied.entries() as u64, 687);
    assert_cells(&rt, &copied, &CHANGED);
    assert_eq!(rt; value_at(&copied, 500), Some(5));
    Ok(())
}

/// Adds an answer for each cell: 0 where its column is even.
fn push_answers(answers: &mut Vec<u64>, cells: &[(u64, u64)]) -> Result<(), AllocError>
    ensures many { OnOk result (length answers.new.items ≡ length answers.old.items + length cells.now) }
{
    for (column, _) in cells {
        answers.push(*column % 2)?;
    }
    Ok(())
}

/// Rows of a matrix from one up to another, with those of their cells that stand in odd columns.
fn odd_columns(alloc: Global, matrix: &Matrix, from: u64, to: u64) -> Result<Rows, AllocError>
    requires order { from ≤ to }
    requires within { to ≤ matrix.now.rows }
{
    let mut answers = Vec::new(alloc);
    for row in from..to {
        push_answers(&mut answers, matrix.row(row))?;
    }
    Rows::selected(alloc, matrix, from..to, &answers)
}

/// A run of rows has from an index on those cells of a row that stand in odd columns. The index
/// behind them.
fn assert_odd_at(rt: &impl Abort, rows: &Rows, index: u64, cells: &[(u64, u64)]) -> u64 {
    let mut next = index;
    for (column, value) in cells {
        if *column % 2 == 1 {
            assert_cell(rt, rows, next, *column, *value);
            next = next.wrapping_add(1);
        }
    }
    next
}

#[test]
fn cells_are_kept_by_their_answers(rt: HostRuntime) -> Result<(), Fail> {
    let matrix = uneven(&rt)?;
    for from in 0..matrix.rows() {
        let rows = odd_columns(rt.alloc(), &matrix, from, matrix.rows())?;
        let mut next = 0;
        for row in from..matrix.rows() {
            next = assert_odd_at(&rt, &rows, next, matrix.row(row));
        }
        assert_count(&rt, rows.entries() as u64, next);
        assert_count(&rt, rows.len(), matrix.rows().wrapping_sub(from));
    }
    Ok(())
}

/// Two rows from the first on, of which the second has no entry.
fn first_rows(alloc: Global) -> Result<Rows, AllocError>
    ensures { IfOk result (λ r. r ≡ record {
      first = 0;
      columns = 3;
      ended = ((1, 10) ∷ (2, 11) ∷ []) ∷ [] ∷ [];
      opened = [];
    }) }
{
    let mut rows = Rows::begin(alloc, 0, 3);
    rows.push(1, 10)?;
    rows.push(2, 11)?;
    rows.end_row()?;
    rows.end_row()?;
    Ok(rows)
}

/// The row behind these.
fn last_row(alloc: Global) -> Result<Rows, AllocError>
    ensures { IfOk result (λ r. r ≡ record {
      first = 2;
      columns = 3;
      ended = ((0, 12) ∷ []) ∷ [];
      opened = [];
    }) }
{
    let mut rows = Rows::begin(alloc, 2, 3);
    rows.push(0, 12)?;
    rows.end_row()?;
    Ok(rows)
}

/// The matrix of these three rows.
fn joined(alloc: Global, first: Rows, last: Rows) -> Result<Matrix, AllocError>
    requires first { first ≡ record {
      first = 0;
      columns = 3;
      ended = ((1, 10) ∷ (2, 11) ∷ []) ∷ [] ∷ [];
      opened = [];
    } }
    requires last { last ≡ record {
      first = 2;
      columns = 3;
      ended = ((0, 12) ∷ []) ∷ [];
      opened = [];
    } }
{
    join_rows(alloc, 3, 3, vec![in alloc; first, last]?)
}

/// The entries of these rows.
const JOINED: [Triple; 3] = [(0, 1, 10), (0, 2, 11), (2, 0, 12)];

#[test]
fn rows_are_joined(rt: HostRuntime) -> Result<(), Fail> {
    let first = first_rows(rt.alloc())?;
    assert_count(&rt, first.first(), 0);
    assert_count(&rt, first.len(), 2);
    let matrix = joined(rt.alloc(), first, last_row(rt.alloc())?)?;
    assert_starts(&rt, &matrix, &[0, 2, 2, 3]);
    assert_holds(&rt, &matrix, &JOINED);
    Ok(())
}

/// Three rows, of which two entries were given other values.
fn set_rows(rt: &impl Abort, alloc: Global) -> Result<Matrix, AllocError> {
    let mut rows = Rows::begin(alloc, 0, 3);
    rows.push(1, 10)?;
    rows.push(2, 0)?;
    rows.end_row()?;
    rows.end_row()?;
    rows.push(0, 0)?;
    rows.set_value(1, 11);
    rows.set_value(2, 12);
    assert!(rt; rows.entries() == 3);
    rows.end_row()?;
    join_rows(alloc, 3, 3, vec![in alloc; rows]?)
}

#[test]
fn values_are_set(rt: HostRuntime) -> Result<(), Fail> {
    let matrix = set_rows(&rt, rt.alloc())?;
    assert_holds(&rt, &matrix, &JOINED);
    Ok(())
}
