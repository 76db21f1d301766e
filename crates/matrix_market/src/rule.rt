//! The rules for the text of a matrix.
ghost use Rattle.std.specs.Prelude.{◌≡◌};

use csr_store::RefusedGrowth;
use std::fmt;
use thiserror::Error;

/// What can be wrong with the text of a matrix, in the order in which a line is checked, except
/// that `LineTooLong` comes first. The rule of the first faulty line is reported.
///
/// The names, `M1` to `M12`, are part of the interface.
#[derive(Clone, Copy, Debug, PartialEq, Eq)]
pub enum MarketRule {
    /// `M1`: line 1 is missing, is not five fields, or does not begin with `%%MatrixMarket`.
    MalformedBanner,
    /// `M2`: line 1 has another word that is outside what is read here.
    OutsideProfile,
    /// `M3`: the size line is missing, or is not three numbers.
    MalformedSize,
    /// `M4`: there are more rows, columns or entries than a matrix may have.
    SizeAboveLimit,
    /// `M5`: a line of an entry has too few or too many fields, or a malformed number.
    MalformedEntry,
    /// `M6`: an index is 0 or above its size.
    IndexOutsideMatrix,
    /// `M7`: a value is no signed number of 64 bits.
    ValueOutOfRange,
    /// `M8`: the position, or its mirror, was given before.
    PositionGivenTwice,
    /// `M9`: there are fewer entries than the size line says.
    TooFewEntries,
    /// `M10`: a line follows the last entry.
    LineAfterLastEntry,
    /// `M11`: a line has more than 1,024 bytes.
    LineTooLong,
    /// `M12`: the matrix is `symmetric` and not square.
    SymmetricNotSquare,
}

impl MarketRule {
    ghost use Rattle.matrix_market.specs.Rule.{rule_name};

    /// The name of the rule, `M1` to `M12`.
    pub fn name(self) -> &'static str
        ensures { result.now ≡ rule_name self }
    {
        match self {
            MarketRule::MalformedBanner => "M1",
            MarketRule::OutsideProfile => "M2",
            MarketRule::MalformedSize => "M3",
            MarketRule::SizeAboveLimit => "M4",
            MarketRule::MalformedEntry => "M5",
            MarketRule::IndexOutsideMatrix => "M6",
            MarketRule::ValueOutOfRange => "M7",
            MarketRule::PositionGivenTwice => "M8",
            MarketRule::TooFewEntries => "M9",
            MarketRule::LineAfterLastEntry => "M10",
            MarketRule::LineTooLong => "M11",
            MarketRule::SymmetricNotSquare => "M12",
        }
    }
}

impl fmt::Display for MarketRule {
    ghost use Rattle.std.specs.Prelude.{Some};
    ghost use Rattle.matrix_market.specs.Rule.{rule_name};

    ghost output = { λ rule. Some (rule_name rule) };

    fn fmt<W: fmt::Write>(&self, f: &mut fmt::Formatter<W>) -> fmt::Result {
        f.write_str(self.name())
    }
}

/// Why a text was not read as a matrix.
#[derive(Clone, Copy, Debug, PartialEq, Eq, Error)]
pub enum MarketError {
    /// The rule that the text breaks, and the number of the first line that breaks one, from 1.
    #[error("line {line}: {rule}")]
    Fault { rule: MarketRule, line: u64 },
    /// There was no room for the entries, so lines may be left that weren't read.
    #[error("no memory for the matrix")]
    NoRoom(RefusedGrowth),
    /// There was no memory for the matrix of a text that breaks no rule.
    #[error("no memory for the matrix")]
    Memory(RefusedGrowth),
}
