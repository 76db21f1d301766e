//! The words of a line, if they are few.
ghost use Rattle.text_words.specs.Words.{words};
ghost use Rattle.matrix_market.specs.inner.Answers.{FieldsOf};

use text_words::first_word;

/// The words of a line, if there are two or three.
#[derive(Clone, Copy)]
pub enum Fields<'a> {
    Two(&'a [u8], &'a [u8]),
    Three(&'a [u8], &'a [u8], &'a [u8]),
    Other,
}

/// The words of a line, if there are two or three.
pub fn fields_of(line: &[u8]) -> Fields<'_>
    ensures { FieldsOf result (words line.now) }
{
    match first_word(line) {
        None => Fields::Other,
        Some((a, rest)) => match first_word(rest) {
            None => Fields::Other,
            Some((b, rest)) => match first_word(rest) {
                None => Fields::Two(a, b),
                Some((c, rest)) => match first_word(rest) {
                    None => Fields::Three(a, b, c),
                    Some(_) => Fields::Other,
                },
            },
        },
    }
}
