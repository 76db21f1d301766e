//! A fast reader of entry lines in their usual form. Any other line is left to the reader that
//! knows all rules.
ghost use Rattle.std.specs.Prelude.{true, false, ◌≡◌, ◌<◌, ◌≤◌, ◌+◌, length, slice_index, slice_range, drop};
ghost use Rattle.std.specs.Prelude.{IfSome};
ghost use Rattle.matrix_market.specs.inner.Usual.{Scanned, IsIndex, IsNumber, IsValue, IsLineEnd, IsEntryLine};

/// What an entry line says, its indices as written, and where the next line starts.
#[derive(Clone, Copy)]
pub struct UsualLine {
    pub row: u64,
    pub column: u64,
    pub word: u64,
    pub next: usize,
}

/// The digits from a position on: their number in 64 bits, and where they end.
///
/// Few numbers have more than eight digits. The compiler unrolls a loop over so many, which then
/// counts nothing.
#[inline(always)]
fn digits(text: &[u8], from: usize, last: usize) -> (u64, usize)
    requires within { last < length text.now }
    requires stop { slice_index text.now last ≡ 10 }
    requires before { from ≤ last }
    ensures stays { from ≤ result.1 }
    ensures stops { result.1 ≤ last }
    ensures scanned { Scanned (slice_range text.now from result.1) result.0 }
{
    let mut value = 0u64;
    let mut count = 0;
    while count < 8 {
        // A byte below `0` wraps to more than 9, so one test finds every byte that is no digit.
        let digit = text[from + count].wrapping_sub(48);
        if digit > 9 {
            return (value, from + count);
        }
        // Wrapping: callers refuse a number of too many digits by its length.
        value = value.wrapping_mul(10).wrapping_add(u64::from(digit));
        count += 1;
    }
    more_digits(text, from, from + count, last, value)
}

/// The same, where the first digits have been read. It isn't inlined into the loop over lines,
/// which stays short.
#[inline(never)]
fn more_digits(text: &[u8], from: usize, start: usize, last: usize, read: u64) -> (u64, usize)
    requires within { last < length text.now }
    requires stop { slice_index text.now last ≡ 10 }
    requires before { (from ≤ start) × (start ≤ last) }
    requires scanned { Scanned (slice_range text.now from start) read }
    ensures stays { from ≤ result.1 }
    ensures stops { result.1 ≤ last }
    ensures scanned { Scanned (slice_range text.now from result.1) result.0 }
{
    let mut value = read;
    let mut at = start;
    // It ends at the LF at `last`, if not before.
    loop {
        let digit = text[at].wrapping_sub(48);
        if digit > 9 {
            return (value, at);
        }
        value = value.wrapping_mul(10).wrapping_add(u64::from(digit));
        at += 1;
    }
}

/// An index of at most eight digits, and where it ends.
#[inline(always)]
fn index(text: &[u8], from: usize, last: usize) -> Option<(u64, usize)>
    requires within { last < length text.now }
    requires stop { slice_index text.now last ≡ 10 }
    requires before { from ≤ last }
    ensures { IfSome result (λ p. (p.1 ≤ last) × IsNumber text.now from p.1 p.0) }
{
    let (value, to) = digits(text, from, last);
    // An index has at most eight digits. Longer ones, as with leading zeros, are left to the rules.
    if !matches!(to - from, 1..=8) {
        return None;
    }
    Some((value, to))
}

/// An index that a space follows, and where it ends.
#[inline(always)]
fn spaced_index(text: &[u8], from: usize, last: usize) -> Option<(u64, usize)>
    requires within { last < length text.now }
    requires stop { slice_index text.now last ≡ 10 }
    requires before { from ≤ last }
    ensures { IfSome result (λ p. (p.1 < last) × IsIndex text.now from p.1 p.0) }
{
    let (value, to) = index(text, from, last)?;
    // In bounds: the digits end at `last` at the latest.
    if text[to] != b' ' {
        return None;
    }
    Some((value, to))
}

/// A value of at most nineteen digits, as its word, and where it ends.
#[inline(always)]
fn value(text: &[u8], from: usize, last: usize) -> Option<(u64, usize)>
    requires within { last < length text.now }
    requires stop { slice_index text.now last ≡ 10 }
    requires before { from ≤ last }
    ensures { IfSome result (λ p. (p.1 ≤ last) × IsValue text.now from p.1 p.0) }
{
    let negative = text[from] == b'-';
    // No branch: a processor can't predict which values have a sign.
    let start = from + usize::from(negative);
    let (magnitude, to) = digits(text, start, last);
    // Nineteen digits are below 2^64, so nothing has wrapped.
    if !matches!(to - start, 1..=19) {
        return None;
    }
    // 2^63 has a negative only.
    if magnitude >= (1 << 63) + u64::from(negative) {
        return None;
    }
    if negative {
        Some((magnitude.wrapping_neg(), to))
    } else {
        Some((magnitude, to))
    }
}

/// Where the next line starts, if the line ends here.
#[inline(always)]
fn line_end(text: &[u8], at: usize, last: usize) -> Option<usize>
    requires within { last < length text.now }
    requires stop { slice_index text.now last ≡ 10 }
    requires before { at ≤ last }
    ensures { IfSome result (λ next. (next ≤ last + 1) × IsLineEnd text.now at next) }
{
    if text[at] == b'\n' {
        return Some(at + 1);
    }
    // In bounds: a CR isn't the LF at `last`, so another byte follows.
    if text[at] == b'\r' && text[at + 1] == b'\n' {
        return Some(at + 2);
    }
    None
}

/// The entry line at a position, if it has the usual form: at most 38 bytes, single spaces, no `+`.
///
/// `last` is the index of an LF that isn't before the line.
#[inline(always)]
pub fn entry_line(text: &[u8], at: usize, last: usize, pattern: bool) -> Option<UsualLine>
    requires within { last < length text.now }
    requires stop { slice_index text.now last ≡ 10 }
    requires before { at ≤ last }
    ensures { IfSome result (λ l. (at < l.next) × (l.next ≤ last + 1)
        × IsEntryLine pattern (drop at text.now) l (drop l.next text.now)) }
{
    if pattern {
        pattern_line(text, at, last)
    } else {
        integer_line(text, at, last)
    }
}

/// The same for a text with values.
#[inline(always)]
fn integer_line(text: &[u8], at: usize, last: usize) -> Option<UsualLine>
    requires within { last < length text.now }
    requires stop { slice_index text.now last ≡ 10 }
    requires before { at ≤ last }
    ensures { IfSome result (λ l. (at < l.next) × (l.next ≤ last + 1)
        × IsEntryLine false (drop at text.now) l (drop l.next text.now)) }
{
    // Spaces are single here. A tab, or two spaces, makes the line another one for the rules.
    let (row, row_end) = spaced_index(text, at, last)?;
    let (column, column_end) = spaced_index(text, row_end + 1, last)?;
    let (word, end) = value(text, column_end + 1, last)?;
    let next = line_end(text, end, last)?;
    Some(UsualLine {
        row,
        column,
        word,
        next,
    })
}

/// The same for a text without values, where each is 1.
#[inline(always)]
fn pattern_line(text: &[u8], at: usize, last: usize) -> Option<UsualLine>
    requires within { last < length text.now }
    requires stop { slice_index text.now last ≡ 10 }
    requires before { at ≤ last }
    ensures { IfSome result (λ l. (at < l.next) × (l.next ≤ last + 1)
        × IsEntryLine true (drop at text.now) l (drop l.next text.now)) }
{
    let (row, row_end) = spaced_index(text, at, last)?;
    let (column, end) = index(text, row_end + 1, last)?;
    let next = line_end(text, end, last)?;
    Some(UsualLine {
        row,
        column,
        word: 1,
        next,
    })
}

/// The length of a text from its last LF on, or of all of it if there is no LF.
pub fn behind_feeds(text: &[u8]) -> usize {
    // From the end, where the last LF usually is.
    for at in (0..text.len()).rev() {
        if text[at] == b'\n' {
            return text.len() - at;
        }
    }
    text.len()
}

/// The index so many bytes before the end of a text, if there is an LF.
pub fn feed_before(text: &[u8], behind: usize) -> Option<usize>
    ensures within { IfSome result (λ n. n < length text.now) }
    ensures stop { IfSome result (λ n. slice_index text.now n ≡ 10) }
{
    // A run may have gone past that LF.
    let at = text.len().checked_sub(behind)?;
    match text.get(at) {
        Some(b'\n') => Some(at),
        _ => None,
    }
}
