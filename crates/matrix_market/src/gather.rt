//! Entries gathered in any order, up to the first line that breaks a rule; a position that is given
//! again doesn't count as breaking one.
ghost use Rattle.std.specs.Prelude.{◌≡◌, ◌<◌, ◌≤◌, ◌+◌, [], length, drop, IfErr, IfOk, OnErr, OnOk};
ghost use Rattle.matrix_market.specs.inner.Gathering.{Adds, HasRoom, IsEnd, IsFaultAt, IsRead, Takes, Tells};

use crate::cursor::Cursor;
use crate::kinds::{Found, Header, read_entry};
use crate::lines::{Content, next_content};
use crate::rule::{MarketError, MarketRule};
use crate::usual::{behind_feeds, entry_line, feed_before};
use csr_store::{EntryList, RefusedGrowth};
use std::alloc::Global;

/// The entries of a text in their order, and its first fault, apart from positions that are given
/// again.
#[derive(Drop)]
pub struct Gathering {
    pub list: EntryList,
    pub fault: Option<MarketError>,
}

/// How far a run of entry lines goes: how many there are, and where the next line begins.
#[derive(Clone, Copy)]
struct Run {
    given: u64,
    next: usize,
}

/// Gathers as many entries as the size line declares.
pub fn gather(alloc: Global, header: Header, start: Cursor<'_>) -> Result<Gathering, RefusedGrowth>
    ensures read { IfOk result (λ g. IsRead header start.entry g.list) }
    ensures reported { IfOk result (λ g. Tells header start.entry g.list g.fault) }
{
    let size = header.size;
    let mut list = EntryList::new(alloc, size.rows, size.columns);
    // One allocation, so that pushing an entry doesn't move the others.
    list.reserve(room_for(header, start.rest.len()))?;
    let fault = gather_lines(&mut list, header, start)?;
    Ok(Gathering { list, fault })
}

/// How many entries to allocate for: a line of one has at least four bytes.
fn room_for(header: Header, bytes: usize) -> usize {
    // A size line may declare anything, so the text's length bounds the allocation. The last line
    // may have three bytes, as its LF may be missing.
    let entries = (header.size.entries as usize).min(bytes / 4 + 1);
    if header.banner.symmetric {
        // Off the diagonal a line is two entries.
        entries.saturating_mul(2)
    } else {
        entries
    }
}

/// Gathers the entry lines into an empty list, and returns the fault of the first line that breaks
/// a rule.
fn gather_lines(
    list: &mut EntryList,
    header: Header,
    start: Cursor<'_>,
) -> Result<Option<MarketError>, RefusedGrowth>
    requires { list.old ≡ record { rows = header.size.rows; columns = header.size.columns; entries = [] } }
    ensures read { OnOk result (IsRead header start.entry list.new) }
    ensures reported { IfOk result (Tells header start.entry list.new) }
{
    let mut cursor = start;
    // Once: searching for the last LF again after each odd line would be quadratic.
    let behind = behind_feeds(cursor.rest);
    let mut given = 0;
    while given < header.size.entries {
        // Lines of the usual form first, many at a time. `?` is a refused allocation.
        let run = gather_run(
            list,
            header,
            cursor.rest,
            behind,
            header.size.entries - given,
        )?;
        cursor = cursor_behind(cursor, run);
        given += run.given;
        // The run ended early, at a line of another form or at one that breaks a rule.
        if given < header.size.entries {
            match gather_line(list, header, cursor)? {
                Ok(behind) => {
                    cursor = behind;
                    given += 1;
                }
                Err(fault) => return Ok(Some(fault)),
            }
        }
    }
    // All declared entries are there. Anything else that isn't skipped is a fault.
    Ok(fault_behind(cursor))
}

/// Gathers the entries of the lines that a text begins with, up to a number of them, until the
/// first line that doesn't have the usual form.
///
/// `behind` is the length of the text from its last LF on. It isn't searched for again here: a long
/// last line would be scanned again after each line of another form.
///
/// It is a function of its own in the compiled program too, so that the loop over bytes has the
/// registers to itself.
#[inline(never)]
fn gather_run(
    list: &mut EntryList,
    header: Header,
    rest: &[u8],
    behind: usize,
    most: u64,
) -> Result<Run, RefusedGrowth>
    requires { HasRoom header list.old most }
    ensures added { IfOk result (λ r. Adds header list.old list.new rest.now 0 r.given (drop r.next rest.now) r.given) }
    ensures few { IfOk result (λ r. r.given ≤ most) }
    ensures within { IfOk result (λ r. (r.given ≤ r.next) × (r.next ≤ length rest.now)) }
{
    let mut given = 0;
    let mut next = 0;
    // No LF is left, so the last line goes through the rules.
    let Some(last) = feed_before(rest, behind) else {
        return Ok(Run { given, next });
    };
    // The LF at `last` stops every scan, so none of them tests for the end of the text.
    while given < most && next <= last {
        let Some(line) = entry_line(rest, next, last, header.banner.pattern) else {
            return Ok(Run { given, next });
        };
        let found = Found {
            // 0 wraps to the greatest number, so the test below finds it together with indices that
            // are too large.
            row: line.row.wrapping_sub(1),
            column: line.column.wrapping_sub(1),
            word: line.word,
        };
        // The rules decide what is wrong with it.
        if found.row >= header.size.rows || found.column >= header.size.columns {
            return Ok(Run { given, next });
        }
        push_entry(list, header, found)?;
        given += 1;
        next = line.next;
    }
    Ok(Run { given, next })
}

/// Gathers the next entry line, whatever its form, and returns what follows it. If it breaks a
/// rule, nothing is added, and its fault is returned.
fn gather_line<'a>(
    list: &mut EntryList,
    header: Header,
    cursor: Cursor<'a>,
) -> Result<Result<Cursor<'a>, MarketError>, RefusedGrowth>
    requires { HasRoom header list.old 1 }
    ensures added { IfOk result (λ r. IfOk r (λ p.
        Adds header list.old list.new cursor.entry.rest.now cursor.entry.at 1 p.rest.now p.at)) }
    ensures unchanged { IfOk result (λ r. OnErr r (list.new ≡ list.old)) }
    ensures fault { IfOk result (λ r. IfErr r (IsFaultAt header cursor.entry)) }
{
    // The outer error is a refused allocation, the inner one the text's fault.
    match next_content(cursor) {
        Content::End(line) => Ok(Err(MarketError::Fault {
            rule: MarketRule::TooFewEntries,
            // M9 is reported for the line after the last.
            line: line + 1,
        })),
        Content::TooLong(line) => Ok(Err(MarketError::Fault {
            rule: MarketRule::LineTooLong,
            line,
        })),
        Content::Line(content, behind) => match read_entry(header, content) {
            Ok(found) => {
                push_entry(list, header, found)?;
                Ok(Ok(behind))
            }
            Err(rule) => Ok(Err(MarketError::Fault {
                rule,
                line: behind.at,
            })),
        },
    }
}

/// Adds an entry and, in a symmetric matrix, its mirror.
#[inline(always)]
fn push_entry(list: &mut EntryList, header: Header, found: Found) -> Result<(), RefusedGrowth>
    requires capacity { HasRoom header list.old 1 }
    requires row { found.row < header.size.rows }
    requires column { found.column < header.size.columns }
    ensures { OnOk result (Takes list.old header.banner.symmetric found list.new) }
{
    list.add(found.row, found.column, found.word)?;
    // An entry on the diagonal is its own mirror.
    if header.banner.symmetric && found.row != found.column {
        list.add(found.column, found.row, found.word)?;
    }
    Ok(())
}

/// The fault of what follows the last entry, if it has one.
fn fault_behind(cursor: Cursor<'_>) -> Option<MarketError>
    ensures { IsEnd cursor.entry result }
{
    match next_content(cursor) {
        Content::End(_) => None,
        Content::TooLong(line) => Some(MarketError::Fault {
            rule: MarketRule::LineTooLong,
            line,
        }),
        Content::Line(_, behind) => Some(MarketError::Fault {
            rule: MarketRule::LineAfterLastEntry,
            line: behind.at,
        }),
    }
}

/// The position after a run of lines.
fn cursor_behind<'a>(cursor: Cursor<'a>, run: Run) -> Cursor<'a>
    requires lines { run.given ≤ run.next }
    requires within { run.next ≤ length cursor.rest.now }
    ensures rest { result.rest.now ≡ drop run.next cursor.entry.rest.now }
    ensures at { result.at ≡ cursor.entry.at + run.given }
{
    // Each line of a run is one entry, so lines are counted by entries.
    let rest = text_behind(cursor.rest, run.next);
    Cursor {
        rest,
        at: cursor.at + run.given,
    }
}

/// A text from a position on.
pub fn text_behind(text: &[u8], from: usize) -> &[u8]
    requires { from ≤ length text.now }
    ensures rest { result.now ≡ drop from text.now }
    ensures shorter { from + length result.now ≡ length text.now }
{
    &text[from..]
}
