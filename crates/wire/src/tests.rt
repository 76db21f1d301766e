//! Devices, lines and bodies, on values from outside.
ghost use Rattle.wire.specs.Devices.{IsNewCount};

use crate::device::{Sink, Source, WriteFailed, put};
use crate::fault::ReadFault;
use crate::fetch::{Body, Lined, next_line, read_body};
use crate::input::Input;
use crate::lines::{Found, find_first};
use crate::output::Output;
use crate::wrap::{FromRead, ToWrite};
use std::alloc::Global;
use std::io;
use std::io::{ErrorKind, Read};
use std::marker::Brand;
use std::sync::ledger::{Blank, Ledger};
use std::test::Fail;

/// Bytes, at most so many a read, and then a failure or the end.
#[derive(Drop)]
struct Pieces<'a> {
    bytes: &'a [u8],
    size: usize,
    torn: bool,
}

impl Read for Pieces<'_> {
    fn read(&mut self, buf: &mut [u8]) -> io::Result<usize> {
        if self.bytes.is_empty() && self.torn {
            return Err(io::Error::from(ErrorKind::BrokenPipe));
        }
        let size = self.size.min(buf.len());
        self.bytes.read(&mut buf[..size])
    }
}

#[test]
fn lines_are_found(rt: HostRuntime) {
    let line = |length, taken| Found::Line { length, taken };
    let short: [(&[u8], bool, Found); 9] = [
        (b"quit\r\nrest", false, line(4, 6)),
        (b"quit\r\r\n", false, line(5, 7)),
        (b"quit\r", true, line(5, 5)),
        (b"quit", false, Found::Partial),
        (b"quit", true, line(4, 4)),
        (b"\nquit", false, line(0, 1)),
        (b"\r\n", false, line(0, 2)),
        (b"", false, Found::Partial),
        (b"", true, Found::Nothing),
    ];
    for (bytes, ended, want) in short {
        assert_eq!(rt; find_first(bytes, ended), want);
    }
    let blanks = [b' '; 1026];
    assert_eq!(rt; find_first(&blanks[..1025], false), Found::Partial);
    assert_eq!(rt; find_first(&blanks[..1025], true), Found::Over);
    assert_eq!(rt; find_first(&blanks[..1024], true), line(1024, 1024));
    assert_eq!(rt; find_first(&blanks, false), Found::Over);
}

/// Reads a line and then a body of so many bytes, and answers both with a `|` between them.
fn line_and_body<S: Source, W: Sink>(
    alloc: Global,
    source: &mut S,
    sink: &W,
    reads: u64,
    length: u64,
) -> Result<Vec<u8>, Fail> {
    let mut input = Input::new(alloc, reads)?;
    let mut line = Vec::with_capacity(alloc, 1026)?;
    if !matches!(
        next_line(&mut input, source, sink, &mut line),
        Ok(Lined::Whole)
    ) {
        return Err(Fail::from("no line"));
    }
    let mut both = Vec::from_slice(alloc, &line)?;
    both.push(b'|')?;
    match read_body(alloc, &mut input, source, sink, length) {
        Ok(Body::Whole(body)) => both.extend_from_slice(&body)?,
        Ok(Body::Dropped) => return Err(Fail::from("dropped")),
        Ok(Body::Cut) => both.extend_from_slice(b"cut")?,
        Err(ReadFault::Failed) => both.extend_from_slice(b"failed")?,
        Err(ReadFault::OutOfReads) => both.extend_from_slice(b"out of reads")?,
    }
    Ok(both)
}

fn read_from<C: Ledger, F: Ledger, W: Ledger, D: Ledger>(
    alloc: Global,
    pieces: Pieces<'_>,
    counts: (Blank, Blank, Blank, Blank),
    reads: u64,
    length: u64,
) -> Result<Vec<u8>, Fail>
    requires reads { IsNewCount counts.0 C.name C.parts × IsNewCount counts.1 F.name F.parts }
    requires writes { IsNewCount counts.2 W.name W.parts × IsNewCount counts.3 D.name D.parts }
{
    let mut source = FromRead::<Pieces, C, F>::new(pieces, counts.0, counts.1);
    let mut nothing = [0; 0];
    let sink = ToWrite::<&mut [u8], W, D>::new(&mut nothing, counts.2, counts.3);
    line_and_body(alloc, &mut source, &sink, reads, length)
}

#[test]
fn a_line_and_a_body_come_in_pieces(rt: HostRuntime) -> Result<(), Fail> {
    let text: &[u8] = b"line\r\nbody and more";
    for size in [1, 2, 7, 8192] {
        let cases: [(bool, u64, u64, &[u8]); 5] = [
            (false, 100, 4, b"line|body"),
            (false, 100, 0, b"line|"),
            (false, 100, 14, b"line|cut"),
            (true, 100, 14, b"line|failed"),
            (true, 100, 13, b"line|body and more"),
        ];
        for (torn, reads, length, want) in cases {
            let pieces = Pieces {
                bytes: text,
                size,
                torn,
            };
            let counts = (Blank::new(1), Blank::new(1), Blank::new(1), Blank::new(1));
            let got = read_from::<Brand, Brand, Brand, Brand>(
                rt.alloc(),
                pieces,
                counts,
                reads,
                length,
            )?;
            assert!(rt; got.as_slice() == want);
        }
    }
    let pieces = Pieces {
        bytes: text,
        size: 1,
        torn: false,
    };
    let counts = (Blank::new(1), Blank::new(1), Blank::new(1), Blank::new(1));
    let got = read_from::<Brand, Brand, Brand, Brand>(rt.alloc(), pieces, counts, 9, 4)?;
    assert!(rt; got.as_slice() == b"line|out of reads".as_slice());
    Ok(())
}

/// Some bytes, and 300,000 more after them.
fn with_large_body(alloc: Global, front: &[u8]) -> Result<Vec<u8>, Fail> {
    let mut text = Vec::from_slice(alloc, front)?;
    for _ in 0..100_000 {
        text.extend_from_slice(b"abc")?;
    }
    Ok(text)
}

#[test]
fn a_large_body_is_kept_whole(rt: HostRuntime) -> Result<(), Fail> {
    let alloc = rt.alloc();
    let text = with_large_body(alloc, b"line\n")?;
    let pieces = Pieces {
        bytes: &text,
        size: 5_000,
        torn: false,
    };
    let counts = (Blank::new(1), Blank::new(1), Blank::new(1), Blank::new(1));
    let got = read_from::<Brand, Brand, Brand, Brand>(alloc, pieces, counts, 100, 300_000)?;
    assert!(rt; got.as_slice() == with_large_body(alloc, b"line|")?.as_slice());
    Ok(())
}

fn write_to<W: io::Write + Drop, C: Ledger, F: Ledger>(
    writer: W,
    text: &[u8],
    writes: Blank,
    failures: Blank,
) -> Result<(), WriteFailed>
    requires writes { IsNewCount writes C.name C.parts }
    requires failures { IsNewCount failures F.name F.parts }
{
    let mut sink = ToWrite::<W, C, F>::new(writer, writes, failures);
    put(&mut sink, text)
}

#[test]
fn a_text_is_written_whole_or_not(rt: HostRuntime) {
    let mut buffer = [0; 4];
    let whole = write_to::<&mut [u8], Brand, Brand>(
        &mut buffer,
        b"text",
        Blank::new(1),
        Blank::new(1),
    );
    assert!(rt; whole.is_ok() && buffer == *b"text");
    let cut = write_to::<&mut [u8], Brand, Brand>(
        &mut buffer[..3],
        b"text",
        Blank::new(1),
        Blank::new(1),
    );
    assert!(rt; cut.is_err());
}

/// Says two texts to a writer, and writes them where that is wanted. Returns whether all went well.
fn say_two<W: io::Write + Drop, C: Ledger, F: Ledger>(
    alloc: Global,
    writer: W,
    flushes: bool,
    blanks: (Blank, Blank),
) -> Result<bool, Fail>
    requires writes { IsNewCount blanks.0 C.name C.parts }
    requires failures { IsNewCount blanks.1 F.name F.parts }
{
    let mut sink = ToWrite::<W, C, F>::new(writer, blanks.0, blanks.1);
    let mut output = Output::new(alloc)?;
    let said = output.say(&mut sink, b"one ").is_ok() && output.say(&mut sink, b"two").is_ok();
    Ok(said && (!flushes || output.flush(&mut sink).is_ok()))
}

#[test]
fn what_is_said_waits_until_it_is_written(rt: HostRuntime) -> Result<(), Fail> {
    let alloc = rt.alloc();
    let mut buffer = [0; 7];
    for (flushes, want) in [(false, [0; 7]), (true, *b"one two")] {
        let blanks = (Blank::new(1), Blank::new(1));
        let well = say_two::<&mut [u8], Brand, Brand>(alloc, &mut buffer, flushes, blanks)?;
        assert!(rt; well && buffer == want);
    }
    let blanks = (Blank::new(1), Blank::new(1));
    let well = say_two::<&mut [u8], Brand, Brand>(alloc, &mut buffer[..3], true, blanks)?;
    assert!(rt; !well);
    Ok(())
}
