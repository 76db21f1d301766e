//! The lines of a text.
ghost use Rattle.std.specs.Prelude.{◌≡◌, ◌<◌, ◌∷◌, [], length, MatchOption, IfSome};
ghost use Rattle.std.specs.Str.Lines.{lines, strip_carriage_return};

/// A line without the CR at its end.
fn strip_cr(line: &[u8]) -> &[u8]
    ensures { result.now ≡ strip_carriage_return line.now }
{
    match line {
        // One CR only: a second belongs to the line.
        [front @ .., b'\r'] => front,
        _ => line,
    }
}

/// The first line of a text, without its LF or CR LF, and what follows it. Lines are those of std's
/// `lines`.
#[inline]
pub fn first_line(text: &[u8]) -> Option<(&[u8], &[u8])>
    ensures lines { MatchOption result (lines text.now ≡ []) (λ p. lines text.now ≡ p.0.now ∷ lines p.1.now) }
    ensures shorter { IfSome result (λ p. length p.1.now < length text.now) }
{
    // Nothing after the last LF is no line, not an empty one.
    if text.is_empty() {
        return None;
    }
    for (i, byte) in text.iter().enumerate() {
        if *byte == b'\n' {
            return Some((strip_cr(&text[..i]), &text[i + 1..]));
        }
    }
    // A CR is dropped before an LF alone, so the last line keeps its own.
    Some((text, &[]))
}
