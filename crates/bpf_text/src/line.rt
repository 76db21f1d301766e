//! How a line is split into its parts.
ghost use Rattle.std.specs.Prelude.{◌≡◌, ◌∷◌, [], MatchOption};
ghost use Rattle.std.specs.List.{before_first, after_first, slice_split};
ghost use Rattle.bpf_text.specs.Lines as spec;
ghost use Rattle.bpf_text.specs.inner.Cuts.{separates};

use text_words::{is_blank, unindented};

/// The most bytes that a line has, not counting its line end.
pub const MOST_BYTES: usize = 1024;

/// Where a text is split.
#[derive(Clone, Copy)]
pub enum Separator {
    /// `;` or `#`, which begin a comment.
    CommentMark,
    /// A space or a tab.
    Blank,
    Comma,
}

impl Separator {
    fn is(self, byte: u8) -> bool
        ensures { result ≡ separates self byte }
    {
        match self {
            Separator::CommentMark => byte == b';' || byte == b'#',
            Separator::Blank => is_blank(byte),
            Separator::Comma => byte == b',',
        }
    }
}

/// The text before the first separator, and the text after it, if there is one.
pub fn cut(text: &[u8], at: Separator) -> (&[u8], Option<&[u8]>)
    ensures front { result.0.now ≡ before_first (separates at) text.now }
    ensures behind { MatchOption result.1
        (after_first (separates at) text.now ≡ [])
        (λ rest. rest.now ≡ after_first (separates at) text.now) }
    ensures parts { MatchOption result.1
        (slice_split (separates at) text.now ≡ result.0.now ∷ [])
        (λ rest. slice_split (separates at) text.now ≡ result.0.now ∷ slice_split (separates at) rest.now) }
{
    for (i, byte) in text.iter().enumerate() {
        if at.is(*byte) {
            // None, where there is no separator, differs from an empty rest: `exit,` has an operand
            // too many.
            return (&text[..i], Some(&text[i + 1..]));
        }
    }
    (text, None)
}

/// Whether a text has only blanks.
pub fn is_blank_text(text: &[u8]) -> bool
    ensures { result ≡ spec.is_blank_text text.now }
{
    text.iter().all(|byte| is_blank(*byte))
}

/// The first word of a text, and what follows the blank after it.
pub fn first_word(text: &[u8]) -> (&[u8], &[u8])
    ensures word { result.0.now ≡ spec.first_word text.now }
    ensures behind { result.1.now ≡ spec.behind_word text.now }
{
    let (word, behind) = cut(unindented(text), Separator::Blank);
    (word, behind.unwrap_or(&[]))
}
