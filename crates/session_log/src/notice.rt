//! The written side of a connection, by which refusals come to the log.

ghost use Rattle.std.specs.Prelude.{◌≡◌};

use crate::account::OpenAccount;
use crate::refusal::{LONGEST, Refusal};
use std::io;
use std::io::Write;
use std::sync::Wait;
use std::time::Clock;

/// The line that a client is being sent: as much of it as a refusal may be long.
#[derive(Clone, Copy)]
struct SentLine {
    front: [u8; LONGEST],
    length: usize,
}

impl SentLine {
    /// Nothing of it was sent.
    fn new() -> Self {
        SentLine {
            front: [0; LONGEST],
            length: 0,
        }
    }

    /// So much more of it was sent.
    fn add(&mut self, piece: &[u8]) {
        for byte in piece {
            if self.length < LONGEST {
                self.front[self.length] = *byte;
            }
            self.length = self.length.saturating_add(1);
        }
    }

    /// The refusal that the line tells, if it tells one.
    fn refusal(&self) -> Option<Refusal> {
        if self.length <= LONGEST {
            Refusal::of(&self.front[..self.length])
        } else {
            None
        }
    }
}

/// Looks at what was sent, line by line. Each refusal is counted, and reported to the log.
fn look<R: Wait + Clock>(
    rt: &R,
    account: &OpenAccount<'_>,
    line: &mut SentLine,
    refused: &mut u64,
    sent: &[u8],
) {
    for piece in sent.split_inclusive(|byte| *byte == b'\n') {
        line.add(piece);
        if piece.ends_with(b"\n") {
            if let Some(refusal) = line.refusal() {
                *refused = refused.saturating_add(1);
                account.note_refusal(rt, refusal);
            }
            *line = SentLine::new();
        }
    }
}

/// The written side of a connection: each line that refuses something is counted, and reported to
/// the log; so is a batch, before its reply is sent. No line of a text that follows a reply begins
/// as a refusal does. Its bytes are those of the side below.
#[derive(Drop)]
pub struct Noticing<'s, W: Drop, R> {
    side: W,
    rt: &'s R,
    account: Option<&'s OpenAccount<'s>>,
    refused: &'s mut u64,
    line: SentLine,
}

impl<'s, W: Drop, R: Wait + Clock> Noticing<'s, W, R> {
    /// This side, with a session's account if it has one, and where refusals are counted.
    pub fn new(
        side: W,
        rt: &'s R,
        account: Option<&'s OpenAccount<'s>>,
        refused: &'s mut u64,
    ) -> Self
        ensures { result.side ≡ side }
    {
        Noticing {
            side,
            rt,
            account,
            refused,
            line: SentLine::new(),
        }
    }
}

impl<W: Write + Drop, R: Wait + Clock> Write for Noticing<'_, W, R> {
    ghost contents = { λ s. W.contents s.side };

    fn write(&mut self, buf: &[u8]) -> io::Result<usize> {
        if let Some(account) = self.account {
            account.note_batch(self.rt);
        }
        let outcome = self.side.write(buf);
        if let (Ok(count), Some(account)) = (&outcome, self.account) {
            look(
                self.rt,
                account,
                &mut self.line,
                self.refused,
                &buf[..*count],
            );
        }
        outcome
    }

    fn flush(&mut self) -> io::Result<()> {
        Ok(())
    }
}
