//! The entries of a matrix, copied into arrays.
ghost use Rattle.std.specs.Prelude.{◌≡◌, ◌<◌, ◌≤◌, ◌+◌, ◌++◌, length, map, take};
ghost use Rattle.std.specs.FinMap as fin;
ghost use Rattle.csr_store.specs.Grid.{at_row};
ghost use Rattle.spmat_lib.specs.Answer.{AreCopied, HasPart, part_of};

use csr_store::Matrix;
use csr_store::matrix::Cell;

/// One of the three numbers of an entry.
#[derive(Clone, Copy)]
pub enum Part {
    Row,
    Column,
    Value,
}

/// Copies all entries into three arrays. One that is too short for them is left as it is.
pub fn copy_all(matrix: &Matrix, rows: &mut [u64], columns: &mut [u64], values: &mut [u64])
    ensures { AreCopied matrix.now rows.new columns.new values.new }
{
    copy(matrix, Part::Row, rows);
    copy(matrix, Part::Column, columns);
    copy(matrix, Part::Value, values);
}

/// Copies one number of each entry into an array, unless it is too short for all.
#[inline(always)]
fn copy(matrix: &Matrix, part: Part, out: &mut [u64])
    ensures { HasPart part matrix.now out.new }
{
    if matrix.entries() > out.len() as u64 {
        return;
    }
    let mut at = 0;
    for row in 0..matrix.rows() {
        at = copy_row(row, matrix.row(row), part, out, at);
    }
}

/// Copies one number of each entry of a row to the places from `at` on. The place behind them.
#[inline(always)]
fn copy_row(row: u64, cells: &[Cell], part: Part, out: &mut [u64], at: usize) -> usize
    requires { at + length cells.now ≤ length out.old }
    ensures end { result ≡ at + length cells.now }
    ensures copied { take result out.new ≡ take at out.old ++ map (part_of part) (at_row row cells.now) }
{
    for i in 0..cells.len() {
        let (column, value) = cells[i];
        out[at + i] = match part {
            Part::Row => row,
            Part::Column => column,
            Part::Value => value,
        };
    }
    at + cells.len()
}
