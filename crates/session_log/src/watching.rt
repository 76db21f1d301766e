//! Sides of a connection whose calls a roster observes.

ghost use Rattle.std.specs.Prelude.{◌≡◌};

use crate::roster::{Note, Watch};
use std::io;
use std::io::{Read, Write};
use std::sync::Wait;

/// A side of a connection: that a call of it waits, and how many bytes it moved, is noted, where
/// there is a watch. Its bytes are those of the side below.
#[derive(Drop)]
pub struct Watching<'s, D: Drop, R> {
    side: D,
    rt: &'s R,
    watch: Option<Watch<'s>>,
}

impl<'s, D: Drop, R: Wait> Watching<'s, D, R> {
    /// This side, with a watch if there is one.
    pub fn new(side: D, rt: &'s R, watch: Option<Watch<'s>>) -> Self
        ensures { result.side ≡ side }
    {
        Watching { side, rt, watch }
    }

    /// Notes something, where there is a watch.
    fn note(&self, note: Note) {
        if let Some(watch) = &self.watch {
            watch.note(self.rt, note);
        }
    }
}

impl<D: Read + Drop, R: Wait> Read for Watching<'_, D, R> {
    ghost remaining = { λ s. D.remaining s.side };

    fn read(&mut self, buf: &mut [u8]) -> io::Result<usize> {
        self.note(Note::Reads);
        let outcome = self.side.read(buf);
        if let Ok(count) = &outcome {
            self.note(Note::Read(*count as u64));
        }
        outcome
    }
}

impl<D: Write + Drop, R: Wait> Write for Watching<'_, D, R> {
    ghost contents = { λ s. D.contents s.side };

    fn write(&mut self, buf: &[u8]) -> io::Result<usize> {
        self.note(Note::Writes);
        let outcome = self.side.write(buf);
        if let Ok(count) = &outcome {
            self.note(Note::Wrote(*count as u64));
        }
        outcome
    }

    fn flush(&mut self) -> io::Result<()> {
        Ok(())
    }
}
