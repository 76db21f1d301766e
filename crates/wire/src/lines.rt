//! Lines in the bytes of a stream.
ghost use Rattle.std.specs.Prelude.{◌≡◌, ◌<◌, ◌+◌, length, take, drop, MatchOption, Some, None};
ghost use Rattle.std.specs.Str.Lines.{strip_carriage_return};
ghost use Rattle.wire.specs.Lines.{Uncut, At, cut_line, first};
ghost use Rattle.wire.specs.inner.Found.{Matches};

/// The most bytes that a line has, not counting its line end.
pub const LINE: usize = 1024;

/// What the bytes of a stream begin with.
#[derive(Clone, Copy, Debug, PartialEq, Eq)]
pub enum Found {
    /// Less than a line, and more may come.
    Partial,
    /// A line that is too long.
    Over,
    /// A line of so many bytes, and how many it takes with its line end.
    Line { length: usize, taken: usize },
    /// Nothing, and nothing more comes.
    Nothing,
}

/// The index of the first LF.
pub fn line_end(bytes: &[u8]) -> Option<usize>
    ensures { MatchOption result (cut_line bytes.now ≡ Uncut)
        (λ n. (n < length bytes.now) × (cut_line bytes.now ≡ At (take n bytes.now) (drop (n + 1) bytes.now))) }
{
    for (i, b) in bytes.iter().enumerate() {
        if *b == b'\n' {
            return Some(i);
        }
    }
    None
}

/// A line without the CR at its end.
pub fn strip_cr(line: &[u8]) -> &[u8]
    ensures { result.now ≡ strip_carriage_return line.now }
{
    match line {
        [front @ .., b'\r'] => front,
        _ => line,
    }
}

/// Finds the first line of a stream, which has `ended` after these bytes or may go on.
pub fn find_first(bytes: &[u8], ended: bool) -> Found
    ensures { Matches bytes.now result (first ended bytes.now) }
{
    match line_end(bytes) {
        Some(n) => {
            // Measured without the CR: the limit is on the line.
            let length = strip_cr(&bytes[..n]).len();
            if length > LINE {
                Found::Over
            } else {
                Found::Line {
                    length,
                    taken: n + 1,
                }
            }
        }
        None => {
            if ended {
                if bytes.is_empty() {
                    Found::Nothing
                } else if bytes.len() > LINE {
                    Found::Over
                } else {
                    // A CR in front of no LF is part of the line.
                    Found::Line {
                        length: bytes.len(),
                        taken: bytes.len(),
                    }
                }
            } else if bytes.len() < LINE + 2 {
                // 1,024 bytes and a CR may still get their LF. Anything longer is too long already.
                Found::Partial
            } else {
                Found::Over
            }
        }
    }
}
