//! The rows of operands and mask that are read for a row of a result.
ghost use Rattle.std.specs.Prelude.{◌≡◌, ◌<◌, ◌≤◌, ◌+◌, IfSome};
ghost use Rattle.std.specs.Option.{option_map};
ghost use Rattle.csr_store.specs.Grid.{IsGrid, row_of};
ghost use Rattle.csr_store.specs.Mask.{mask_of};
ghost use Rattle.csr_store.specs.Reading.{Reading};
ghost use Rattle.entry_ops.specs.inner.Walking.{cells_of, cells_or_none, reading_at, AreAlike, AreRead, AreOperandRowsOf};

use csr_store::{Matrix, RowReader};

/// A column with its value.
pub type Cell = (u64, u64);

/// A row of each operand, and of the mask if there is one.
#[derive(Clone, Copy)]
pub struct OperandRows<'a> {
    pub row: u64,
    pub columns: u64,
    pub left: &'a [Cell],
    pub right: &'a [Cell],
    pub mask: Option<&'a [Cell]>,
}

/// The operands of an operation, of which the second may be missing, and a mask if there is one.
#[derive(Clone, Copy)]
pub struct Sources<'a> {
    pub left: &'a Matrix,
    pub right: Option<&'a Matrix>,
    pub mask: Option<&'a Matrix>,
}

/// Readers of the operands and the mask, row by row.
#[derive(Drop)]
pub struct OperandReader<'a> {
    left: RowReader<'a>,
    right: Option<RowReader<'a>>,
    mask: Option<RowReader<'a>>,
}

/// A reader of a matrix from a row on, if there is one.
fn reader_of<'a>(matrix: Option<&'a Matrix>, row: u64) -> Option<RowReader<'a>>
    requires within { IfSome (mask_of matrix) (λ g. row ≤ g.rows) }
    ensures reads { result ≡ reading_at (mask_of matrix.entry) row }
    ensures grid { IfSome (mask_of matrix.entry) (λ g. IsGrid g) }
{
    match matrix {
        None => None,
        Some(matrix) => {
            matrix.recall();
            Some(matrix.rows_from(row))
        }
    }
}

/// The next row of a matrix, if there is one.
#[inline(always)]
fn next_of<'a>(reader: &mut Option<RowReader<'a>>) -> Option<&'a [Cell]>
    requires within { IfSome reader.old (λ r. r.row < r.grid.rows) }
    ensures cells { cells_of result ≡ option_map (λ (r : Reading). row_of r.grid r.row) reader.old }
    ensures next { reader.new ≡ option_map (λ (r : Reading). record r { row = r.row + 1 }) reader.old }
{
    match reader {
        None => None,
        Some(reader) => Some(reader.next_row()),
    }
}

/// The cells of a row, if there is one.
#[inline(always)]
fn cells_or_none(row: Option<&[Cell]>) -> &[Cell]
    ensures { result.now ≡ cells_or_none (cells_of row.entry) }
{
    match row {
        None => &[],
        Some(cells) => cells,
    }
}

impl<'a> OperandReader<'a> {
    /// Readers of the rows from one on.
    pub fn begin(sources: Sources<'a>, row: u64) -> Self
        requires alike { AreAlike sources }
        requires within { row ≤ sources.left.now.rows }
        ensures { AreRead sources.entry row result }
    {
        // For the prover: a matrix has rows that ascend and lie within its columns.
        sources.left.recall();
        OperandReader {
            left: sources.left.rows_from(row),
            right: reader_of(sources.right, row),
            mask: reader_of(sources.mask, row),
        }
    }

    /// The rows of the same operands and mask for the next row of the result.
    #[inline(always)]
    pub fn next_operands(&mut self, sources: Sources<'a>, row: u64) -> OperandRows<'a>
        requires read { AreRead sources row self.old }
        requires within { row < sources.left.now.rows }
        ensures sides { AreOperandRowsOf sources.entry row result }
        ensures read { AreRead sources.entry (row + 1) self.new }
    {
        OperandRows {
            row,
            columns: sources.left.columns(),
            left: self.left.next_row(),
            right: cells_or_none(next_of(&mut self.right)),
            mask: next_of(&mut self.mask),
        }
    }
}

/// The most cells for which memory is reserved before it is known that they come. More is reserved
/// as they come.
pub const MOST_ROOM: usize = 65_536;

/// How many entries the rows of a matrix have from one on up to another.
pub fn entries_between(matrix: &Matrix, first: u64, end: u64) -> usize {
    let starts = matrix.starts();
    // By `get`, and saturating: the number is only an amount to reserve, so no contract bounds the
    // rows.
    match (starts.get(first as usize), starts.get(end as usize)) {
        (Some(from), Some(to)) => to.saturating_sub(*from) as usize,
        _ => 0,
    }
}
