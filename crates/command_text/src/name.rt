//! Names, as text.
ghost use Rattle.std.specs.Prelude.{◌≡◌, true, false, MatchOption};
ghost use Rattle.command_text.specs.Words as spec;

use crate::words::is_name;
use std::str;

/// A name: 1 to 32 letters, digits and underscores.
#[derive(Clone, Copy)]
pub struct Name<'a> {
    text: &'a str,
    ghost named: { spec.is_name text.now ≡ true },
}

impl<'a> Name<'a> {
    ghost use Rattle.std.specs.Option.{option_map};
    ghost use Rattle.command_text.specs.Readings.{name_of};
    ghost use Rattle.command_text.specs.Requests.{named};

    /// A word as a name, if it is one.
    pub fn new(word: &'a [u8]) -> Option<Self>
        ensures { option_map name_of result ≡ named word.now }
    {
        let text = as_name(word)?;
        Some(Name { text })
    }

    /// Its text.
    pub fn as_str(self) -> &'a str
        ensures text { result.now ≡ name_of self.entry }
        ensures named { spec.is_name result.now ≡ true }
    {
        self.text
    }
}

/// A word as the text of a name, if it is one.
pub fn as_name(word: &[u8]) -> Option<&str>
    ensures { MatchOption result (spec.is_name word.now ≡ false)
        (λ name. (spec.is_name word.now ≡ true) × (name.now ≡ word.now)) }
{
    if !is_name(word) {
        return None;
    }
    match str::from_utf8(word) {
        Ok(name) => Some(name),
        // The bytes of a name are ASCII.
        Err(_) => unreachable!(),
    }
}
