//! Values on their own.
ghost use Rattle.std.specs.Prelude.{◌≡◌};
ghost use Rattle.matrix_market.specs.Values.{value_word};

use crate::kinds::{value, word_in_range};

/// The word that a value of an entry line writes (an optional `+` or `-`, and decimal digits), if
/// it is one and from -2^63 to 2^63 - 1.
pub fn parse_value(word: &[u8]) -> Option<u64>
    ensures { result ≡ value_word word.now }
{
    let (negative, magnitude) = value(word)?;
    word_in_range(negative, magnitude)
}
