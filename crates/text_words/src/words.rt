//! The words of a line.
ghost use Rattle.std.specs.Prelude.{◌≡◌, ◌<◌, ◌≤◌, ◌∷◌, [], length, take, drop, MatchOption};
ghost use Rattle.text_words.specs.Words as spec;
ghost use Rattle.text_words.specs.Words.{words};
ghost use Rattle.text_words.specs.inner.Words.{IsAtWord};

/// Whether a byte is a space or a tab.
#[inline]
pub fn is_blank(byte: u8) -> bool
    ensures { result ≡ spec.is_blank byte }
{
    byte == b' ' || byte == b'\t'
}

/// A text without the blanks at its start.
#[inline]
pub fn unindented(text: &[u8]) -> &[u8]
    ensures { result.now ≡ spec.unindented text.now }
{
    for (i, byte) in text.iter().enumerate() {
        if !is_blank(*byte) {
            return &text[i..];
        }
    }
    // Blanks alone are no word, so nothing is left.
    &[]
}

/// The length of the word that a text begins with.
#[inline]
fn word_length(text: &[u8]) -> usize
    requires { IsAtWord text.now }
    ensures within { result ≤ length text.now }
    ensures word { 0 < length text.now → words text.now ≡ take result text.now ∷ words (drop result text.now) }
{
    for (i, byte) in text.iter().enumerate() {
        if is_blank(*byte) {
            return i;
        }
    }
    // The last word ends with the text.
    text.len()
}

/// The first word of a text, and what follows it.
#[inline]
pub fn first_word(text: &[u8]) -> Option<(&[u8], &[u8])>
    ensures { MatchOption result (words text.now ≡ []) (λ p. words text.now ≡ p.0.now ∷ words p.1.now) }
{
    let text = unindented(text);
    // Tested after the blanks: trailing ones begin no word.
    if text.is_empty() {
        return None;
    }
    // The rest keeps the blank before the next word, which that call skips.
    Some(text.split_at(word_length(text)))
}
