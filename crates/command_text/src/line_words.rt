//! The words behind the command of a job, which are read once.
ghost use Rattle.std.specs.Prelude.{◌≡◌, ◌<◌, ◌≤◌, length, map, MatchOption};
ghost use Rattle.text_words.specs.Words.{words};
ghost use Rattle.command_text.specs.inner.Lent.{lent};

use text_words::first_word;

/// The most words behind the command of a job: five, and `mask M`.
const MOST_WORDS: usize = 7;

/// The words behind the command of a job. They stand in front, in their order.
#[derive(Clone, Copy)]
pub struct LineWords<'a> {
    words: [&'a [u8]; MOST_WORDS],
    count: usize,
    ghost short: { count ≤ 7 },
}

impl<'a> LineWords<'a> {
    ghost use Rattle.command_text.specs.inner.Words.{words_read};

    /// The words of a text, if no job has more.
    pub fn read(text: &'a [u8]) -> Option<Self>
        ensures { MatchOption result (7 < length (words text.now)) (λ line. words_read line ≡ words text.now) }
    {
        let mut words: [&[u8]; MOST_WORDS] = [&[]; MOST_WORDS];
        let mut rest = text;
        for count in 0..MOST_WORDS {
            let Some((word, behind)) = first_word(rest) else {
                return Some(LineWords { words, count });
            };
            words[count] = word;
            rest = behind;
        }
        match first_word(rest) {
            None => Some(LineWords {
                words,
                count: MOST_WORDS,
            }),
            Some(_) => None,
        }
    }

    /// The words.
    pub fn as_slice(&self) -> &[&'a [u8]]
        ensures { map lent result.now ≡ words_read self.now }
    {
        &self.words[..self.count]
    }
}
