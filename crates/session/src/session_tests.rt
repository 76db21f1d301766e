//! Whole sessions over memory: what is written, how each ends, and what the budget holds then, on
//! values from outside.
ghost use Rattle.wire.specs.Devices.{IsNewCount};

mod endings;
mod runs;

use crate::conversation::{serve, serve_turns};
use crate::end::{End, ServeFault};
use std::alloc::Global;
use std::io;
use std::io::{ErrorKind, Read, Write};
use std::marker::Brand;
use std::process::Abort;
use std::sync::Wait;
use std::sync::ledger::{Blank, Ledger};
use std::test::Fail;
use std::thread::Threads;
use step_budget::{Steps, Tally, Totals};
use wire::{FromRead, ToWrite};

/// Commands that bind `A` to a matrix of the one entry 41, and `inc` to an operator of three
/// instructions that adds 1.
const SETUP: &str = "matrix A 62
%%MatrixMarket matrix coordinate integer general
1 1 1
1 1 41
op inc unary 48
bf1000000000000007000000010000009500000000000000
";

const SETUP_TEXT: &str = "ok matrix 1 1 1
ok op 3 3
";

/// The session of the case first-run, of 169 bytes.
const FIRST_RUN: &str = "matrix A 62
%%MatrixMarket matrix coordinate integer general
1 1 1
1 1 41
op inc unary 48
bf1000000000000007000000010000009500000000000000
apply B inc A
run
show B
quit
";

/// Its replies end after 16, 26, 40, 61, 134 (the line alone: 72) and 142 bytes.
const FIRST_RUN_TEXT: &str = "ok matrix 1 1 1
ok op 3 3
ok queued 1 3
ok run 1 3
B 1 1 1 3
ok show 62
%%MatrixMarket matrix coordinate integer general
1 1 1
1 1 42
ok quit
";

/// How a device works: it moves so many bytes a call at most, and after so many calls one fails.
/// Then it works again, so that a session that goes on shows.
#[derive(Clone, Copy)]
struct Pace {
    piece: usize,
    calls: u64,
    /// How many reads a session may make, where that is bounded here.
    most: Option<u64>,
}

/// All that is asked for, and no failure.
const AMPLE: Pace = Pace {
    piece: 8192,
    calls: u64::MAX,
    most: None,
};

/// A reader over bytes.
#[derive(Drop)]
struct Pieces<'a> {
    bytes: &'a [u8],
    pace: Pace,
}

impl Read for Pieces<'_> {
    fn read(&mut self, buf: &mut [u8]) -> io::Result<usize> {
        if self.pace.calls == 0 {
            self.pace.calls = u64::MAX;
            return Err(io::Error::from(ErrorKind::BrokenPipe));
        }
        self.pace.calls -= 1;
        let most = self.pace.piece.min(buf.len());
        self.bytes.read(&mut buf[..most])
    }
}

/// A writer to a text.
#[derive(Drop)]
struct Trickle<'a> {
    text: &'a mut Vec<u8>,
    pace: Pace,
}

impl Write for Trickle<'_> {
    fn write(&mut self, buf: &[u8]) -> io::Result<usize> {
        if self.pace.calls == 0 {
            self.pace.calls = u64::MAX;
            return Err(io::Error::from(ErrorKind::BrokenPipe));
        }
        self.pace.calls -= 1;
        let count = self.pace.piece.min(buf.len());
        self.text.extend_from_slice(&buf[..count])?;
        Ok(count)
    }

    fn flush(&mut self) -> io::Result<()> {
        Ok(())
    }
}

/// Serves a session over a reader and a writer, whose calls and failures are counted by these
/// blanks.
fn serve_over<C: Ledger, F: Ledger, W: Ledger, D: Ledger, H: Threads + Wait>(
    rt: &H,
    alloc: Global,
    reader: Pieces<'_>,
    writer: Trickle<'_>,
    steps: &mut Tally,
    reads: Option<u64>,
    blanks: (Blank, Blank, Blank, Blank),
) -> Result<End, ServeFault>
    requires reads { IsNewCount blanks.0 C.name C.parts × IsNewCount blanks.1 F.name F.parts }
    requires writes { IsNewCount blanks.2 W.name W.parts × IsNewCount blanks.3 D.name D.parts }
{
    let (calls, failures, writes, stuck) = blanks;
    let mut source = FromRead::<Pieces, C, F>::new(reader, calls, failures);
    let mut sink = ToWrite::<Trickle, W, D>::new(writer, writes, stuck);
    match reads {
        None => serve(rt, alloc, &mut source, &mut sink, steps, 1),
        Some(reads) => serve_turns(rt, alloc, &mut source, &mut sink, steps, 1, reads),
    }
}

/// Serves a session over an input, and adds what it writes to a text.
fn talk<H: Threads + Wait>(
    rt: &H,
    alloc: Global,
    (bytes, reads): (&[u8], Pace),
    (text, writes): (&mut Vec<u8>, Pace),
    steps: &mut Tally,
) -> Result<End, ServeFault> {
    let reader = Pieces { bytes, pace: reads };
    let writer = Trickle { text, pace: writes };
    let blanks = (Blank::new(1), Blank::new(1), Blank::new(1), Blank::new(1));
    serve_over::<Brand, Brand, Brand, Brand, H>(
        rt, alloc, reader, writer, steps, reads.most, blanks,
    )
}

/// What is to come of a session: how it ends, what it writes, and how many steps it spends.
#[derive(Drop)]
struct Want<'a> {
    outcome: Result<End, ServeFault>,
    text: &'a str,
    spent: u64,
}

/// A session with so many steps does what is wanted, and leaves no step reserved.
fn assert_talk<H: Threads + Wait + Abort>(
    rt: &H,
    alloc: Global,
    input: (&[u8], Pace),
    writes: Pace,
    allowance: u64,
    want: Want<'_>,
) -> Result<(), Fail> {
    let mut steps = Tally::open(allowance);
    let mut text = Vec::new(alloc);
    let outcome = talk(rt, alloc, input, (&mut text, writes), &mut steps);
    assert_eq!(rt; str::from_utf8(&text)?, want.text);
    assert_eq!(rt; outcome, want.outcome);
    let totals = Totals {
        left: allowance.saturating_sub(want.spent),
        reserved: 0,
        spent: want.spent,
    };
    assert_eq!(rt; steps.totals(rt), totals);
    Ok(())
}
