//! Matrices to text.
ghost use Rattle.std.specs.Prelude.{◌≡◌, ◌<◌, ◌≤◌, ◌+◌, ◌++◌, All, IfOk, OnOk};
ghost use Rattle.csr_store.specs.Grid.{Cell, at_row, limit};
ghost use Rattle.matrix_market.specs.CanonicalText.{canonical_text, entry_lines, size_line};
ghost use Rattle.matrix_market.specs.Market.{IsTextOf};
ghost use Rattle.matrix_market.specs.Refusal.{IsOnlyMatrix};

use crate::line_writer::{BUFFER_BYTES, MOST_LINES, label_of, write_lines};
use csr_store::Matrix;
use csr_store::matrix::Cell;
use itoa::Buffer;
use std::alloc::{AllocError, Global};

/// The first line.
const BANNER: &[u8] = b"%%MatrixMarket matrix coordinate integer general\n";

/// Appends the size line.
fn push_sizes(out: &mut Vec<u8>, rows: u64, columns: u64, entries: u64) -> Result<(), AllocError>
    ensures { OnOk result (out.new.items ≡ out.old.items ++ size_line rows columns entries) }
{
    let mut buffer = Buffer::new();
    // One buffer in turn: its text is appended before the next number is written.
    out.extend_from_slice(buffer.format(rows).as_bytes())?;
    out.push(b' ')?;
    out.extend_from_slice(buffer.format(columns).as_bytes())?;
    out.push(b' ')?;
    out.extend_from_slice(buffer.format(entries).as_bytes())?;
    out.push(b'\n')?;
    Ok(())
}

/// Appends the lines of the entries of a row. `buffer` is one that rows share.
fn push_row(
    out: &mut Vec<u8>,
    buffer: &mut [u8; BUFFER_BYTES],
    row: u64,
    cells: &[Cell],
) -> Result<(), AllocError>
    requires row { row < limit }
    requires columns { All (λ (c : Cell). c.0 < limit) cells.now }
    ensures { OnOk result (out.new.items ≡ out.old.items ++ entry_lines (at_row row cells.now)) }
{
    // Most rows of a sparse column have no entry, and formatting a label takes time.
    if cells.is_empty() {
        return Ok(());
    }
    // Formatted once a row, and copied to each of its lines.
    let label = label_of(row);
    let mut left = cells;
    // The buffer holds 64 lines.
    while left.len() > 0 {
        let (now, later) = left.split_at(left.len().min(MOST_LINES));
        let start = write_lines(&label, now, buffer);
        // The lines are at its end, as they were written backwards.
        out.extend_from_slice(&buffer[start..])?;
        left = later;
    }
    Ok(())
}

/// The canonical text of a matrix: the first line, the size line, and a line for each entry by
/// ascending row and column.
pub fn write(alloc: Global, matrix: &Matrix) -> Result<Vec<u8>, AllocError>
    ensures text { IfOk result (λ text. text.items ≡ canonical_text matrix.now) }
    ensures read_back { IfOk result (λ text. IsTextOf text.items matrix.now) }
    ensures only { IfOk result (λ text. IsOnlyMatrix text.items matrix.now) }
{
    let mut out = Vec::from_slice(alloc, BANNER)?;
    push_sizes(&mut out, matrix.rows(), matrix.columns(), matrix.entries())?;
    // On the stack: 2.5 KB, used for all rows.
    let mut buffer = [0; BUFFER_BYTES];
    for row in 0..matrix.rows() {
        push_row(&mut out, &mut buffer, row, matrix.row(row))?;
    }
    Ok(out)
}
