//! The words of a command line.
ghost use Rattle.std.specs.Prelude.{◌≡◌, ◌∷◌, [], MatchOption};
ghost use Rattle.text_words.specs.Words.{words};
ghost use Rattle.command_text.specs.Words as spec;
ghost use Rattle.command_text.specs.inner.Words.{IsNotOne, IsNotTwo, IsNotThree};

use bpf_insn::Kind;
use text_words::first_word;

/// How many bytes a name has at most.
const LONGEST_NAME: usize = 32;

/// The word of a text that has just one.
pub fn only_word(text: &[u8]) -> Option<&[u8]>
    ensures { MatchOption result (IsNotOne (words text.now)) (λ word. words text.now ≡ word.now ∷ []) }
{
    let (word, rest) = first_word(text)?;
    match first_word(rest) {
        None => Some(word),
        Some(_) => None,
    }
}

/// The words of a text that has just two.
pub fn two_words(text: &[u8]) -> Option<(&[u8], &[u8])>
    ensures { MatchOption result (IsNotTwo (words text.now)) (λ w. words text.now ≡ w.0.now ∷ w.1.now ∷ []) }
{
    let (first, rest) = first_word(text)?;
    let (second, rest) = first_word(rest)?;
    match first_word(rest) {
        None => Some((first, second)),
        Some(_) => None,
    }
}

/// The words of a text that has just three.
pub fn three_words(text: &[u8]) -> Option<(&[u8], &[u8], &[u8])>
    ensures { MatchOption result (IsNotThree (words text.now))
        (λ w. words text.now ≡ w.0.now ∷ w.1.now ∷ w.2.now ∷ []) }
{
    let (first, rest) = first_word(text)?;
    let (second, rest) = first_word(rest)?;
    let (third, rest) = first_word(rest)?;
    match first_word(rest) {
        None => Some((first, second, third)),
        Some(_) => None,
    }
}

/// Whether a byte may stand in a name: a letter or digit of ASCII, or an underscore.
fn is_name_byte(byte: u8) -> bool
    ensures { result ≡ spec.is_name_byte byte }
{
    byte.is_ascii_alphanumeric() || byte == b'_'
}

/// Whether a word is a name: 1 to 32 letters, digits and underscores.
pub fn is_name(word: &[u8]) -> bool
    ensures { result ≡ spec.is_name word.now }
{
    if word.is_empty() || word.len() > LONGEST_NAME {
        return false;
    }
    word.iter().all(|byte| is_name_byte(*byte))
}

/// The kind of operator that a word names: `unary`, `binary` or `index`.
pub fn parse_kind(word: &[u8]) -> Option<Kind>
    ensures { result ≡ spec.kind_of_word word.now }
{
    if word == b"unary".as_slice() {
        Some(Kind::Unary)
    } else if word == b"binary".as_slice() {
        Some(Kind::Binary)
    } else if word == b"index".as_slice() {
        Some(Kind::Index)
    } else {
        None
    }
}
