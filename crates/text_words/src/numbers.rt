//! The number that a word writes.
ghost use Rattle.std.specs.Prelude.{◌≡◌, ◌+◌, ◌*◌, ◌^◌, ℕ, Some};
ghost use Rattle.std.specs.Char.{is_ascii_digit};
ghost use Rattle.std.specs.List.{list_all};
ghost use Rattle.std.specs.Option.{option_map};
ghost use Rattle.text_words.specs.Numbers.{below, decimal_in, held_number};
ghost use Rattle.text_words.specs.inner.Numbers.{in_word};

/// A number with another digit, if it fits 64 bits.
#[inline]
fn with_digit(number: u64, digit: u8) -> Option<u64>
    ensures { result ≡ in_word (number * 10 + digit) }
{
    number.checked_mul(10)?.checked_add(u64::from(digit))
}

/// Whether a text has only digits.
fn are_digits(text: &[u8]) -> bool
    ensures { result ≡ list_all is_ascii_digit text.now }
{
    text.iter().all(|byte| byte.is_ascii_digit())
}

/// The number that one or more decimal digits write, if a word is such: Some(None) if it doesn't
/// fit 64 bits.
#[inline]
fn digits(word: &[u8]) -> Option<Option<u64>>
    ensures { result ≡ option_map in_word (decimal_in word.now) }
{
    // No digits aren't 0.
    if word.is_empty() {
        return None;
    }
    let mut number = 0;
    for (i, byte) in word.iter().enumerate() {
        if !byte.is_ascii_digit() {
            return None;
        }
        // By checked steps, not by length: leading zeros may make a small number long.
        match with_digit(number, *byte - b'0') {
            Some(next) => number = next,
            // Too large, but only if the rest are digits: otherwise it is no number at all.
            None => return are_digits(&word[i + 1..]).then_some(None),
        }
    }
    Some(Some(number))
}

/// The number that a word of decimal digits writes, if it is below 2^64.
pub fn decimal(word: &[u8]) -> Option<u64>
    ensures { result ≡ below (2 ^ 64) (decimal_in word.now) }
{
    digits(word)?
}

/// The number that a word of decimal digits writes, or 2^64 - 1 if it is larger.
pub fn held_decimal(word: &[u8]) -> Option<u64>
    ensures { result ≡ held_number (decimal_in word.now) }
{
    // The limits of all callers are lower, so a number that is too large stays so.
    Some(digits(word)?.unwrap_or(u64::MAX))
}
