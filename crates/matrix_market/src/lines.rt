//! The lines of a text.
ghost use Rattle.matrix_market.specs.inner.Answers.{ContentOf};

use crate::cursor::Cursor;
use crate::kinds::skipped;
use text_words::first_line;

/// The most bytes that a line has, not counting its line end.
pub const MOST_BYTES: usize = 1024;

/// What follows blank lines and comments.
#[derive(Clone, Copy)]
pub enum Content<'a> {
    /// A line, and the position after it.
    Line(&'a [u8], Cursor<'a>),
    /// The end, and the number of the last line.
    End(u64),
    /// A line that is too long, by its number.
    TooLong(u64),
}

/// What follows blank lines and comments.
pub fn next_content(cursor: Cursor<'_>) -> Content<'_>
    ensures { ContentOf result cursor.entry }
{
    let mut rest = cursor.rest;
    let mut at = cursor.at;
    while let Some((line, more)) = first_line(rest) {
        at += 1;
        // Before the line is skipped: comments are measured too.
        if line.len() > MOST_BYTES {
            return Content::TooLong(at);
        }
        if !skipped(line) {
            return Content::Line(line, Cursor { rest: more, at });
        }
        rest = more;
    }
    Content::End(at)
}
