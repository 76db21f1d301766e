//! Lines of entries, written from the last to the first, so that each digit is written once and in
//! its final position.
ghost use Rattle.std.specs.Prelude.{◌≡◌, ◌<◌, ◌≤◌, ◌+◌, ◌++◌, ◌∷◌, [], All, decimal, drop, length};
ghost use Rattle.csr_store.specs.Grid.{Cell, at_row, limit};
ghost use Rattle.matrix_market.specs.CanonicalText.{entry_lines, value_text};
ghost use Rattle.matrix_market.specs.inner.Labels.{label_text, rest_of_line};

use csr_store::matrix::Cell;
use itoa::write_digits;

/// How many lines are written at a time.
pub const MOST_LINES: usize = 64;

/// The buffer for these lines: 40 bytes hold any line, and a label is copied whole.
// Two indices of eight digits, a value of twenty characters, two spaces and an LF are 39 bytes.
pub const BUFFER_BYTES: usize = MOST_LINES * 40 + LABEL;

/// The bytes of a label: a row has at most eight digits.
const LABEL: usize = 16;

/// What each line of a row begins with: the row's number, which counts from 1, and a space. They
/// are at the end of the bytes.
#[derive(Clone, Copy)]
pub struct Label {
    row: u64,
    bytes: [u8; LABEL],
    start: usize,
    ghost within: { (start ≤ 15) × (6 ≤ start) },
    ghost text: { drop start bytes ≡ decimal (row + 1) ++ 32 ∷ [] },
}

/// The label of a row.
#[inline(always)]
pub fn label_of(row: u64) -> Label
    requires { row < limit }
    ensures { result.row ≡ row }
{
    let mut bytes = [b' '; LABEL];
    // Digits end one byte early: the last byte stays a space.
    let start = write_digits(row + 1, &mut bytes, LABEL - 1);
    Label { row, bytes, start }
}

/// Writes a label so that it ends at `end`. The bytes before it are overwritten too.
#[inline(always)]
fn write_label(label: &Label, buffer: &mut [u8], end: usize) -> usize
    requires { (16 ≤ end) × (end ≤ length buffer.old) }
    ensures start { (result ≤ end) × (end ≤ result + 10) }
    ensures written { drop result buffer.new ≡ label_text label.now.row ++ drop end buffer.old }
{
    // All 16 bytes. Those before the label are free, as lines are written backwards.
    buffer[end - LABEL..end].copy_from_slice(&label.bytes);
    end - LABEL + label.start
}

/// Writes a value so that it ends at `end`, and returns where it starts.
#[inline(always)]
fn write_value(word: u64, buffer: &mut [u8], end: usize) -> usize
    requires { (20 ≤ end) × (end ≤ length buffer.old) }
    ensures start { (result ≤ end) × (end ≤ result + 20) }
    ensures written { drop result buffer.new ≡ value_text word ++ drop end buffer.old }
{
    // A word of 2^63 or more is a negative number.
    if word < 1 << 63 {
        return write_digits(word, buffer, end);
    }
    // Exact for -2^63 as well, whose magnitude is the word itself.
    let start = write_digits(word.wrapping_neg(), buffer, end);
    buffer[start - 1] = b'-';
    start - 1
}

/// Writes what follows the label in an entry's line, and returns where it starts.
#[inline(always)]
fn write_rest(column: u64, word: u64, buffer: &mut [u8], end: usize) -> usize
    requires column { column < limit }
    requires capacity { (40 ≤ end) × (end ≤ length buffer.old) }
    ensures start { (result ≤ end) × (end ≤ result + 30) }
    ensures written { drop result buffer.new ≡ rest_of_line column word ++ drop end buffer.old }
{
    buffer[end - 1] = b'\n';
    let space = write_value(word, buffer, end - 1) - 1;
    buffer[space] = b' ';
    // Columns count from 1 in text.
    write_digits(column + 1, buffer, space)
}

/// Writes the lines of some cells of a row so that they end with the buffer, and returns where they
/// start.
pub fn write_lines(label: &Label, cells: &[Cell], buffer: &mut [u8; BUFFER_BYTES]) -> usize
    requires few { length cells.now ≤ 64 }
    requires columns { All (λ (c : Cell). c.0 < limit) cells.now }
    ensures within { result ≤ 2576 }
    ensures written { drop result buffer.new ≡ entry_lines (at_row label.now.row cells.now) }
{
    let mut start = BUFFER_BYTES;
    let mut left = cells.len();
    // Backwards, since the length of a number is known only once it is written.
    while left > 0 {
        left -= 1;
        let (column, word) = cells[left];
        let end = write_rest(column, word, buffer, start);
        start = write_label(label, buffer, end);
    }
    start
}
