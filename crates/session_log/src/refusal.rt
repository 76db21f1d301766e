//! What a session was refused, by the reply that tells it.

use std::{fmt, str};

/// A refusal that whoever runs a server may want to hear of.
#[derive(Clone, Copy, Debug, PartialEq, Eq)]
pub enum Refusal {
    /// `S8`: a job of this price, where no more than this may still be reserved.
    Steps { price: u64, left: u64 },
    /// There was no memory for a command.
    Memory,
    /// There was no thread for a worker of a batch.
    Thread,
    /// Another rule of the protocol: its letter and its number, as of `V12`.
    Rule { letter: char, number: u8 },
}

/// The longest reply that is looked at.
pub const LONGEST: usize = 64;

/// The rule that a word names: its letter, which is one of the protocol's, and its number.
fn rule_of(word: &str) -> Option<Refusal> {
    let letter = word.chars().next()?;
    if !matches!(letter, 'A' | 'J' | 'M' | 'S' | 'V') {
        return None;
    }
    let number = word.strip_prefix(letter)?.parse().ok()?;
    Some(Refusal::Rule { letter, number })
}

impl Refusal {
    /// The refusal that a reply tells, if it is one.
    pub fn of(reply: &[u8]) -> Option<Refusal> {
        if reply.len() > LONGEST || !reply.starts_with(b"no ") {
            return None;
        }
        let text = str::from_utf8(reply).ok()?;
        let mut words = text.split_ascii_whitespace();
        let _no = words.next()?;
        match words.next()? {
            "S8" => Some(Refusal::Steps {
                price: words.next()?.parse().ok()?,
                left: words.next()?.parse().ok()?,
            }),
            "memory" => Some(Refusal::Memory),
            "thread" => Some(Refusal::Thread),
            word => rule_of(word),
        }
    }
}

impl fmt::Display for Refusal {
    /// The rule of the refusal.
    fn fmt<W: fmt::Write>(&self, f: &mut fmt::Formatter<W>) -> fmt::Result {
        match *self {
            Refusal::Steps { .. } => f.write_str("S8"),
            Refusal::Memory => f.write_str("memory"),
            Refusal::Thread => f.write_str("thread"),
            Refusal::Rule { letter, number } => write!(f, "{letter}{number}"),
        }
    }
}
