//! Devices over any reader and any writer, which count their calls.
ghost use Rattle.std.specs.Prelude.{◌≡◌, ◌+◌, false};
ghost use Rattle.wire.specs.Devices.{IsNewCount};

use crate::device::{Sink, Source};
use std::io;
use std::io::{Read, Write};
use std::marker::Model;
use std::sync::ledger::{Blank, Book, Ledger, Share};

/// A count that only grows. It occupies no memory and takes no time, and is seen by contracts
/// alone.
#[derive(Drop)]
pub struct Count<L: Ledger> {
    book: Book<L>,
    share: Share<L>,
}

impl<L: Ledger> Model for Count<L> {
    ghost use Rattle.std.specs.Prelude.{ℕ, ◌<◌};

    ghost Value = { ℕ };

    ghost view = { λ c. c.book.total };

    ghost invariant = { λ c. 0 < c.share.parts };
}

impl<L: Ledger> Count<L> {
    /// A count of 0, by a ledger that counts nothing else.
    pub fn new(blank: Blank) -> Self
        requires { IsNewCount blank L.name L.parts }
        ensures { result ≡ 0 }
    {
        let (book, share) = blank.open();
        Count { book, share }
    }

    /// Adds 1.
    pub fn tick(&mut self)
        ensures { self.new ≡ self.old + 1 }
    {
        self.book.add(&mut self.share, 1);
    }
}

/// A source over any reader.
#[derive(Drop)]
pub struct FromRead<R: Read + Drop, C: Ledger, F: Ledger> {
    inner: R,
    reads: Count<C>,
    failures: Count<F>,
    // For contracts: a reader may not claim to need more input once the end was reported.
    told_end: bool,
}

impl<R: Read + Drop, C: Ledger, F: Ledger> FromRead<R, C, F> {
    /// A source of what the reader has left. `reads` and `failures` are new ledgers of at least one
    /// part (`Blank::new(1)`), and the types `C` and `F` are theirs.
    pub fn new(inner: R, reads: Blank, failures: Blank) -> Self
        requires reads { IsNewCount reads C.name C.parts }
        requires failures { IsNewCount failures F.name F.parts }
        ensures { ⟦<FromRead<R, C, F> as Source>⟧.state result ≡
            record { remaining = R.remaining inner; reads = 0; failures = 0; told_end = false } }
    {
        FromRead {
            inner,
            reads: Count::new(reads),
            failures: Count::new(failures),
            told_end: false,
        }
    }
}

impl<R: Read + Drop, C: Ledger, F: Ledger> Source for FromRead<R, C, F> {
    ghost state = { λ s. record {
      remaining = R.remaining s.inner;
      reads = s.reads;
      failures = s.failures;
      told_end = s.told_end;
    } };

    fn read(&mut self, buf: &mut [u8]) -> io::Result<usize> {
        // A read into an empty buffer asks for nothing. If it counted, a server could use up its
        // reads without reading.
        if !buf.is_empty() {
            self.reads.tick();
        }
        let result = self.inner.read(buf);
        match &result {
            // Only then are 0 bytes the end of the stream.
            Ok(0) if !buf.is_empty() => self.told_end = true,
            Ok(_) => {}
            Err(_) => self.failures.tick(),
        }
        result
    }
}

/// A sink over any writer. A writer that buffers bytes until it is flushed does so here too: give
/// it one that passes each piece on, as `std::io::writer` of a runtime does.
#[derive(Drop)]
pub struct ToWrite<W: Write + Drop, C: Ledger, F: Ledger> {
    inner: W,
    writes: Count<C>,
    failures: Count<F>,
}

impl<W: Write + Drop, C: Ledger, F: Ledger> ToWrite<W, C, F> {
    /// A sink that adds to the contents of the writer. `writes` and `failures` are new ledgers of
    /// at least one part (`Blank::new(1)`), and the types `C` and `F` are theirs.
    pub fn new(inner: W, writes: Blank, failures: Blank) -> Self
        requires writes { IsNewCount writes C.name C.parts }
        requires failures { IsNewCount failures F.name F.parts }
        ensures { ⟦<ToWrite<W, C, F> as Sink>⟧.state result ≡
            record { contents = W.contents inner; writes = 0; failures = 0 } }
    {
        ToWrite {
            inner,
            writes: Count::new(writes),
            failures: Count::new(failures),
        }
    }
}

impl<W: Write + Drop, C: Ledger, F: Ledger> Sink for ToWrite<W, C, F> {
    ghost state = { λ s. record { contents = W.contents s.inner; writes = s.writes; failures = s.failures } };

    fn write(&mut self, buf: &[u8]) -> io::Result<usize> {
        self.writes.tick();
        let result = self.inner.write(buf);
        let failed = match &result {
            // A device that takes none of some bytes has failed, though it reports no error.
            Ok(n) => *n == 0 && !buf.is_empty(),
            Err(_) => true,
        };
        if failed {
            self.failures.tick();
        }
        result
    }
}
