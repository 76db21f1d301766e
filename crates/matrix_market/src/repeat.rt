//! The line that repeats a position.
ghost use Rattle.std.specs.Prelude.{◌≡◌, ◌<◌, ◌++◌, ◌&&◌, List, true, false, not, nat_eq, IfNone, IfSome};
ghost use Rattle.csr_store.specs.Grid.{Entry};
ghost use Rattle.csr_store.specs.Listed.{NoneTwice};
ghost use Rattle.matrix_market.specs.inner.Gathering.{IsRepeatAt};
ghost use Rattle.matrix_market.specs.inner.Repeating.{HaveMet, IsEntry, IsRepeating, LacksEntry, own_entries};

use crate::cursor::Cursor;
use crate::gather::text_behind;
use crate::kinds::{Found, Header, read_entry};
use crate::lines::{Content, next_content};
use crate::usual::{behind_feeds, entry_line, feed_before};
use csr_store::RepeatedPositions;

/// The number of the first line that repeats a position. A list of entries was read from here on,
/// in which these positions repeat.
///
/// Reads the lines once more, up to that one, and allocates nothing.
pub fn line_of_repeat(header: Header, start: Cursor<'_>, repeats: RepeatedPositions) -> u64
    requires { IsRepeating header start repeats }
    ensures { IsRepeatAt header start.entry result }
{
    let mut repeats = repeats;
    let mut cursor = start;
    let behind = behind_feeds(start.rest);
    loop {
        let Some((found, next)) = next_entry(header, cursor, behind) else {
            // Every line up to the repeat was read before, and there is a repeat.
            unreachable!();
        };
        if meets(&mut repeats, header, found) {
            return next.at;
        }
        cursor = next;
    }
}

/// Meets the entry of a line and, in a symmetric matrix, its mirror, and returns whether one of
/// them has a position that was met before.
#[inline(always)]
fn meets(repeats: &mut RepeatedPositions, header: Header, found: Found) -> bool
    requires row { found.row < header.size.rows }
    requires column { found.column < header.size.columns }
    ensures again { result ≡ true → (entries done left : List Entry) →
        HaveMet entries done (own_entries header found ++ left) repeats.old → NoneTwice (done ++ own_entries header found) → ⊥ }
    ensures first { result ≡ false → (entries done left : List Entry) →
        HaveMet entries done (own_entries header found ++ left) repeats.old →
        HaveMet entries (done ++ own_entries header found) left repeats.new }
{
    if repeats.meet(found.row, found.column) {
        return true;
    }
    // In the order in which the list took them.
    if has_mirror(header, found) {
        return repeats.meet(found.column, found.row);
    }
    false
}

/// Whether a line gives a mirror as well as its entry.
#[inline(always)]
fn has_mirror(header: Header, found: Found) -> bool
    ensures { result ≡ (header.banner.symmetric && not (nat_eq found.row found.column)) }
{
    header.banner.symmetric && found.row != found.column
}

/// What the next entry line says, and the position after it, unless the line breaks a rule.
///
/// `behind` is the length of the text from its last LF on.
#[inline(always)]
fn next_entry<'a>(header: Header, cursor: Cursor<'a>, behind: usize) -> Option<(Found, Cursor<'a>)>
    ensures entry { IfSome result (λ p. IsEntry header cursor.entry p.0 p.1) }
    ensures none { IfNone result (LacksEntry header cursor.entry) }
{
    match usual_entry(header, cursor, behind) {
        Some(entry) => Some(entry),
        None => any_entry(header, cursor),
    }
}

/// The same for a line in its usual form.
#[inline(always)]
fn usual_entry<'a>(header: Header, cursor: Cursor<'a>, behind: usize) -> Option<(Found, Cursor<'a>)>
    ensures { IfSome result (λ p. IsEntry header cursor.entry p.0 p.1) }
{
    let last = feed_before(cursor.rest, behind)?;
    let line = entry_line(cursor.rest, 0, last, header.banner.pattern)?;
    let found = Found {
        // As in `gather_run`: 0 becomes an index that is too large.
        row: line.row.wrapping_sub(1),
        column: line.column.wrapping_sub(1),
        word: line.word,
    };
    if found.row >= header.size.rows || found.column >= header.size.columns {
        return None;
    }
    let rest = text_behind(cursor.rest, line.next);
    let at = cursor.at + 1;
    Some((found, Cursor { rest, at }))
}

/// The same for a line of any form.
fn any_entry<'a>(header: Header, cursor: Cursor<'a>) -> Option<(Found, Cursor<'a>)>
    ensures entry { IfSome result (λ p. IsEntry header cursor.entry p.0 p.1) }
    ensures none { IfNone result (LacksEntry header cursor.entry) }
{
    match next_content(cursor) {
        Content::Line(line, behind) => match read_entry(header, line) {
            Ok(found) => Some((found, behind)),
            Err(_) => None,
        },
        Content::End(_) => None,
        Content::TooLong(_) => None,
    }
}
