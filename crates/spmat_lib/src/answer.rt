//! What is told of a text.
ghost use Rattle.std.specs.Prelude.{◌≡◌, Err, Ok};
ghost use Rattle.spmat_lib.specs.Answer.{answer_of, number_of};

use csr_store::Matrix;
use matrix_market::{MarketError, MarketRule};

/// What is told of a text: its sizes, or why it was refused.
#[repr(C)]
#[derive(Clone, Copy)]
pub struct Answer {
    /// 0 of a text that was read, k of one that breaks rule Mk, and 13 where memory was refused.
    pub rule: u64,
    /// The line that breaks the rule, from 1; otherwise 0.
    pub line: u64,
    pub rows: u64,
    pub columns: u64,
    pub entries: u64,
}

/// The answer for a text that was read as this matrix.
pub fn of_matrix(matrix: &Matrix) -> Answer
    ensures { result ≡ answer_of (Ok matrix.now) }
{
    Answer {
        rule: 0,
        line: 0,
        rows: matrix.rows(),
        columns: matrix.columns(),
        entries: matrix.entries(),
    }
}

/// The answer for a text that was refused.
pub fn refused(error: MarketError) -> Answer
    ensures { result ≡ answer_of (Err error) }
{
    let (rule, line) = match error {
        MarketError::Fault { rule, line } => (number(rule), line),
        MarketError::NoRoom(_) | MarketError::Memory(_) => (13, 0),
    };
    Answer {
        rule,
        line,
        rows: 0,
        columns: 0,
        entries: 0,
    }
}

/// The number of a rule, 1 of M1.
fn number(rule: MarketRule) -> u64
    ensures { result ≡ number_of rule }
{
    match rule {
        MarketRule::MalformedBanner => 1,
        MarketRule::OutsideProfile => 2,
        MarketRule::MalformedSize => 3,
        MarketRule::SizeAboveLimit => 4,
        MarketRule::MalformedEntry => 5,
        MarketRule::IndexOutsideMatrix => 6,
        MarketRule::ValueOutOfRange => 7,
        MarketRule::PositionGivenTwice => 8,
        MarketRule::TooFewEntries => 9,
        MarketRule::LineAfterLastEntry => 10,
        MarketRule::LineTooLong => 11,
        MarketRule::SymmetricNotSquare => 12,
    }
}
