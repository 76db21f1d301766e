//! What a line of each kind says, or the rule that it breaks.
ghost use Rattle.std.specs.Prelude.{true, ◌≡◌, ◌≢◌, ◌≤◌, ◌∷◌, [], length, MatchOption, Some};
ghost use Rattle.std.specs.Str.{str_to_ascii_lowercase};
ghost use Rattle.text_words.specs.Words.{words};
ghost use Rattle.text_words.specs.Numbers.{held_number};
ghost use Rattle.matrix_market.specs.Market as market;
ghost use Rattle.matrix_market.specs.Market.{is_skipped, size_words, entry_words, same_text};
ghost use Rattle.matrix_market.specs.inner.Answers.{held_value, banner_answer, size_answer, size_checked, entry_checked};
ghost use Rattle.matrix_market.specs.inner.Answers.{entry_answer};
ghost use Rattle.matrix_market.specs.Values.{in_range};

use crate::rule::MarketRule;
use crate::words::{Fields, fields_of};
use csr_store::{MOST_ENTRIES, MOST_SIDE};
use text_words::{first_word, held_decimal};

/// The magnitude of the least number of 64 bits.
const LEAST_MAGNITUDE: u64 = 1 << 63;

/// What the first line says.
#[derive(Clone, Copy)]
pub struct Banner {
    pub pattern: bool,
    pub symmetric: bool,
}

/// What the size line says.
#[derive(Clone, Copy)]
pub struct Size {
    pub rows: u64,
    pub columns: u64,
    pub entries: u64,
}

/// What the lines before the entries say.
#[derive(Clone, Copy)]
pub struct Header {
    pub banner: Banner,
    pub size: Size,
    // Proved when the header is read, so that no sum over entries overflows later.
    ghost rows_small: { size.rows ≤ 16777216 },
    ghost columns_small: { size.columns ≤ 16777216 },
    ghost entries_small: { size.entries ≤ 16777216 },
    ghost halved: { banner.symmetric ≡ true → size.entries ≤ 8388608 },
    ghost square: { banner.symmetric ≡ true → size.rows ≡ size.columns },
}

/// What an entry line says, with its position counted from 0.
#[derive(Clone, Copy)]
pub struct Found {
    pub row: u64,
    pub column: u64,
    pub word: u64,
}

/// Whether a line is blank or a comment.
pub fn skipped(line: &[u8]) -> bool
    ensures { result ≡ is_skipped line.now }
{
    match first_word(line) {
        None => true,
        Some((word, _)) => match word {
            [b'%', ..] => true,
            _ => false,
        },
    }
}

/// The number that a word writes in decimal digits after an optional `+`, or 2^64 - 1 if it is
/// larger.
fn number(word: &[u8]) -> Option<u64>
    ensures { result ≡ held_number (market.number word.now) }
{
    match word {
        // Held, not refused: a number too large is well formed, and breaks the rule on its range
        // (M4, M6 or M7), not M3 or M5.
        [b'+', rest @ ..] => held_decimal(rest),
        _ => held_decimal(word),
    }
}

/// Whether a value has a `-`, and its number.
pub fn value(word: &[u8]) -> Option<(bool, u64)>
    ensures { result ≡ held_value (market.value word.now) }
{
    match word {
        [b'-', rest @ ..] => match held_decimal(rest) {
            Some(n) => Some((true, n)),
            None => None,
        },
        _ => match number(word) {
            Some(n) => Some((false, n)),
            None => None,
        },
    }
}

/// The word of a value's sign and magnitude, if it is from -2^63 to 2^63 - 1.
pub fn word_in_range(negative: bool, magnitude: u64) -> Option<u64>
    ensures { result ≡ in_range (Some (negative, magnitude)) }
{
    if negative {
        // Greater only: -2^63 is in range.
        if magnitude > LEAST_MAGNITUDE {
            return None;
        }
        // Two's complement. -0 is 0.
        return Some(0u64.wrapping_sub(magnitude));
    }
    if magnitude >= LEAST_MAGNITUDE {
        return None;
    }
    Some(magnitude)
}

fn check_size(symmetric: bool, rows: u64, columns: u64, entries: u64) -> Result<Size, MarketRule>
    ensures { result ≡ size_checked symmetric rows columns entries }
{
    // M4 before M12.
    if rows > MOST_SIDE
        || columns > MOST_SIDE
        || entries > MOST_ENTRIES
        // A symmetric matrix may store each entry twice.
        || symmetric && entries > MOST_ENTRIES / 2
    {
        return Err(MarketRule::SizeAboveLimit);
    }
    if symmetric && rows != columns {
        return Err(MarketRule::SymmetricNotSquare);
    }
    Ok(Size {
        rows,
        columns,
        entries,
    })
}

fn check_entry(
    size: Size,
    i: u64,
    j: u64,
    negative: bool,
    magnitude: u64,
) -> Result<Found, MarketRule>
    ensures { result ≡ entry_checked size i j (negative, magnitude) }
{
    // M6 before M7.
    if i == 0 || i > size.rows || j == 0 || j > size.columns {
        return Err(MarketRule::IndexOutsideMatrix);
    }
    match word_in_range(negative, magnitude) {
        Some(word) => Ok(Found {
            row: i - 1,
            column: j - 1,
            word,
        }),
        None => Err(MarketRule::ValueOutOfRange),
    }
}

/// The words of a text, if there are four.
fn four_words(text: &[u8]) -> Option<(&[u8], &[u8], &[u8], &[u8])>
    ensures { MatchOption result (length (words text.now) ≢ 4)
        (λ p. words text.now ≡ p.0.now ∷ p.1.now ∷ p.2.now ∷ p.3.now ∷ []) }
{
    let (a, rest) = first_word(text)?;
    let (b, rest) = first_word(rest)?;
    let (c, rest) = first_word(rest)?;
    let (d, rest) = first_word(rest)?;
    // A fifth word is one too many.
    match first_word(rest) {
        None => Some((a, b, c, d)),
        Some(_) => None,
    }
}

/// Whether a word equals another, ignoring the case of its letters.
fn same(word: &[u8], wanted: &[u8]) -> bool
    requires { str_to_ascii_lowercase wanted.now ≡ wanted.now }
    ensures { result ≡ same_text (str_to_ascii_lowercase word.now) wanted.now }
{
    word.eq_ignore_ascii_case(wanted)
}

/// Which of two words a word is.
fn flag(plain: &[u8], other: &[u8], word: &[u8]) -> Option<bool>
    requires plain { str_to_ascii_lowercase plain.now ≡ plain.now }
    requires other { str_to_ascii_lowercase other.now ≡ other.now }
    ensures { result ≡ market.flag plain.now other.now word.now }
{
    if same(word, plain) {
        return Some(false);
    }
    if same(word, other) {
        return Some(true);
    }
    None
}

/// What the first line says.
pub fn read_banner(line: &[u8]) -> Result<Banner, MarketRule>
    ensures { result ≡ banner_answer (words line.now) }
{
    let (head, rest) = match first_word(line) {
        None => return Err(MarketRule::MalformedBanner),
        Some(p) => p,
    };
    // In exact case: the words after the first may have any.
    if head != b"%%MatrixMarket".as_slice() {
        return Err(MarketRule::MalformedBanner);
    }
    // M1 is the number of words, M2 the words themselves.
    let (o, f, p, s) = match four_words(rest) {
        None => return Err(MarketRule::MalformedBanner),
        Some(q) => q,
    };
    if !same(o, b"matrix") || !same(f, b"coordinate") {
        return Err(MarketRule::OutsideProfile);
    }
    let pattern = match flag(b"integer", b"pattern", p) {
        None => return Err(MarketRule::OutsideProfile),
        Some(b) => b,
    };
    let symmetric = match flag(b"general", b"symmetric", s) {
        None => return Err(MarketRule::OutsideProfile),
        Some(b) => b,
    };
    Ok(Banner { pattern, symmetric })
}

/// What the size line says.
pub fn read_size(symmetric: bool, line: &[u8]) -> Result<Size, MarketRule>
    ensures { result ≡ size_answer symmetric (size_words (words line.now)) }
{
    // M3 is the form of the line, M4 and M12 its numbers.
    match fields_of(line) {
        Fields::Three(a, b, c) => match number(a) {
            None => Err(MarketRule::MalformedSize),
            Some(rows) => match number(b) {
                None => Err(MarketRule::MalformedSize),
                Some(columns) => match number(c) {
                    None => Err(MarketRule::MalformedSize),
                    Some(entries) => check_size(symmetric, rows, columns, entries),
                },
            },
        },
        _ => Err(MarketRule::MalformedSize),
    }
}

/// What an entry line says.
pub fn read_entry(header: Header, line: &[u8]) -> Result<Found, MarketRule>
    ensures { result ≡ entry_answer header.size (entry_words header.banner.pattern (words line.now)) }
{
    let pattern = header.banner.pattern;
    let size = header.size;
    match fields_of(line) {
        Fields::Two(a, b) => {
            // A value that the banner doesn't announce, or one that is missing, is M5.
            if !pattern {
                return Err(MarketRule::MalformedEntry);
            }
            match number(a) {
                None => Err(MarketRule::MalformedEntry),
                Some(i) => match number(b) {
                    None => Err(MarketRule::MalformedEntry),
                    // An entry of a pattern has the value 1.
                    Some(j) => check_entry(size, i, j, false, 1),
                },
            }
        }
        Fields::Three(a, b, c) => {
            if pattern {
                return Err(MarketRule::MalformedEntry);
            }
            match number(a) {
                None => Err(MarketRule::MalformedEntry),
                Some(i) => match number(b) {
                    None => Err(MarketRule::MalformedEntry),
                    Some(j) => match value(c) {
                        None => Err(MarketRule::MalformedEntry),
                        Some((negative, magnitude)) => check_entry(size, i, j, negative, magnitude),
                    },
                },
            }
        }
        Fields::Other => Err(MarketRule::MalformedEntry),
    }
}
