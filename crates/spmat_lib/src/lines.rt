//! Lines of entries, written from the last to the first, so that they end with the buffer and no
//! digit is moved.
ghost use Rattle.std.specs.Prelude.{◌≡◌, ◌<◌, ◌≤◌, ◌+◌, ◌*◌, ◌↔◌, ◌++◌, ◌∷◌, All, IsTrue, decimal, drop, length};
ghost use Rattle.csr_store.specs.Grid.{limit};
ghost use Rattle.matrix_market.specs.CanonicalText.{value_text};
ghost use Rattle.spmat_lib.specs.Lines.{Fit, line, lines};
ghost use Rattle.spmat_lib.specs.inner.LineEnd.{line_end};

use csr_store::MOST_SIDE;
use itoa::{Buffer, write_digits};

/// The bytes of the longest line: two indices of eight digits, a value of twenty characters, two
/// spaces and LF are 39.
const LINE: usize = 40;

/// Whether arrays have one length, indices that a matrix may have, and lines for which there is
/// room.
pub fn fit(rows: &[u64], columns: &[u64], values: &[u64], out: &[u8]) -> bool
    ensures { IsTrue result ↔ Fit rows.now columns.now values.now out.now }
{
    columns.len() == rows.len()
        && (values.is_empty() || values.len() == rows.len())
        && rows.len() <= out.len() / LINE
        && are_small(rows)
        && are_small(columns)
}

/// Whether indices, counted from 0, are those that a matrix may have.
fn are_small(indices: &[u64]) -> bool
    ensures { IsTrue result ↔ All (λ n. n < limit) indices.now }
{
    indices.iter().all(|index| *index < MOST_SIDE)
}

/// Writes the lines of entries so that they end with `out`, and returns where they start.
pub fn write(rows: &[u64], columns: &[u64], values: &[u64], out: &mut [u8]) -> usize
    requires { Fit rows.now columns.now values.now out.old }
    ensures { drop result out.new ≡ lines rows.now columns.now values.now }
{
    let mut start = out.len();
    let mut left = rows.len();
    while left > 0 {
        left -= 1;
        let value = values.get(left).copied();
        start = write_line(rows[left], columns[left], value, out, start);
    }
    start
}

/// Writes the line of an entry so that it ends at `end`, and returns where it starts.
#[inline(always)]
fn write_line(row: u64, column: u64, value: Option<u64>, out: &mut [u8], end: usize) -> usize
    requires small { (row < limit) × (column < limit) }
    requires capacity { (40 ≤ end) × (end ≤ length out.old) }
    ensures start { (result ≤ end) × (end ≤ result + 40) }
    ensures written { drop result out.new ≡ line row column value ++ drop end out.old }
{
    let behind = write_line_end(value, out, end);
    let space = write_index(column, out, behind) - 1;
    out[space] = b' ';
    write_index(row, out, space)
}

/// Writes what stands behind the place of an entry.
#[inline(always)]
fn write_line_end(value: Option<u64>, out: &mut [u8], end: usize) -> usize
    requires { (22 ≤ end) × (end ≤ length out.old) }
    ensures start { (result ≤ end) × (end ≤ result + 22) }
    ensures written { drop result out.new ≡ line_end value ++ drop end out.old }
{
    out[end - 1] = b'\n';
    match value {
        None => end - 1,
        Some(word) => {
            let space = write_value(word, out, end - 1) - 1;
            out[space] = b' ';
            space
        }
    }
}

/// Writes a value.
#[inline(always)]
fn write_value(word: u64, out: &mut [u8], end: usize) -> usize
    requires { (20 ≤ end) × (end ≤ length out.old) }
    ensures start { (result ≤ end) × (end ≤ result + 20) }
    ensures written { drop result out.new ≡ value_text word ++ drop end out.old }
{
    let mut buffer = Buffer::new();
    let text = buffer.format(word.cast_signed()).as_bytes();
    let start = end - text.len();
    out[start..end].copy_from_slice(text);
    start
}

/// Writes an index, which counts from 1 in text.
#[inline(always)]
fn write_index(index: u64, out: &mut [u8], end: usize) -> usize
    requires small { index < limit }
    requires capacity { (8 ≤ end) × (end ≤ length out.old) }
    ensures start { (result ≤ end) × (end ≤ result + 8) }
    ensures written { drop result out.new ≡ decimal (index + 1) ++ drop end out.old }
{
    write_digits(index + 1, out, end)
}
