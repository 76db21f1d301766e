//! Sessions within a purse that another pass draws on too, over memory: what the other finds after
//! each end and each fault.
ghost use Rattle.std.specs.Prelude.{◌≡◌, ◌<◌};
ghost use Rattle.step_purse.specs.Passes.{IsPassOf};

use crate::talk::{PRODUCT, SET_UP, SETUP};
use metered_session::{Served, serve_pass};
use session::{End, FatalRule, ServeFault, Session};
use std::alloc::Global;
use std::io;
use std::io::{ErrorKind, Read, Write};
use std::marker::Brand;
use std::process::Abort;
use std::sync::Wait;
use std::sync::ledger::{Blank, Ledger};
use std::test::Fail;
use std::thread::Threads;
use step_purse::{Pass, Purse, Totals};
use wire::{FromRead, ToWrite};

/// A reader that gives bytes, and then ends or fails.
#[derive(Drop)]
struct Given<'a> {
    bytes: &'a [u8],
    fails: bool,
}

impl Read for Given<'_> {
    fn read(&mut self, buf: &mut [u8]) -> io::Result<usize> {
        if self.bytes.is_empty() && self.fails {
            return Err(io::Error::from(ErrorKind::BrokenPipe));
        }
        self.bytes.read(buf)
    }
}

/// A writer that takes so many bytes, and then fails.
#[derive(Drop)]
struct Taking<'a> {
    text: &'a mut Vec<u8>,
    capacity: usize,
}

impl Write for Taking<'_> {
    fn write(&mut self, buf: &[u8]) -> io::Result<usize> {
        if self.capacity == 0 {
            return Err(io::Error::from(ErrorKind::BrokenPipe));
        }
        let count = self.capacity.min(buf.len());
        self.capacity -= count;
        self.text.extend_from_slice(&buf[..count])?;
        Ok(count)
    }

    fn flush(&mut self) -> io::Result<()> {
        Ok(())
    }
}

/// As `serve_pass`, over a reader and a writer whose calls are counted by ledgers of the caller's.
fn serve_counted<A: Ledger, B: Ledger, C: Ledger, D: Ledger, H: Threads + Wait>(
    rt: &H,
    reader: Given<'_>,
    writer: Taking<'_>,
    purse: &Purse,
    given: (Session, Pass),
    blanks: (Blank, Blank, Blank, Blank),
) -> Served
    requires own { IsPassOf purse.now given.1 }
    requires reads { (blanks.0.name ≡ A.name) × (blanks.0.parts ≡ A.parts) × (0 < blanks.0.parts) }
    requires failed_reads { (blanks.1.name ≡ B.name) × (blanks.1.parts ≡ B.parts) × (0 < blanks.1.parts) }
    requires writes { (blanks.2.name ≡ C.name) × (blanks.2.parts ≡ C.parts) × (0 < blanks.2.parts) }
    requires failed_writes { (blanks.3.name ≡ D.name) × (blanks.3.parts ≡ D.parts) × (0 < blanks.3.parts) }
{
    let (session, pass) = given;
    let (reads, failed_reads, writes, failed_writes) = blanks;
    let mut source = FromRead::<Given, A, B>::new(reader, reads, failed_reads);
    let mut sink = ToWrite::<Taking, C, D>::new(writer, writes, failed_writes);
    serve_pass(rt, session, &mut source, &mut sink, purse, pass)
}

/// As `serve_pass`, over memory.
fn serve_over<H: Threads + Wait>(
    rt: &H,
    reader: Given<'_>,
    writer: Taking<'_>,
    purse: &Purse,
    given: (Session, Pass),
) -> Served
    requires { IsPassOf purse.now given.1 }
{
    let blanks = (Blank::new(1), Blank::new(1), Blank::new(1), Blank::new(1));
    serve_counted::<Brand, Brand, Brand, Brand, H>(rt, reader, writer, purse, given, blanks)
}

/// A way by which a session ends while it holds a job of 12 steps: what it reads last, and which of
/// its devices fail.
#[derive(Clone, Copy)]
struct Last<'a> {
    text: &'a str,
    read_fails: bool,
    /// Whether nothing is taken behind the replies to what went before.
    write_fails: bool,
    reads: u64,
    outcome: Result<End, ServeFault>,
    /// How many commands it takes beside those that went before.
    commands: u64,
}

/// A session that has run the product once, queued it again, and then ends so, leaves nothing
/// reserved to another pass.
fn assert_settled<H: Threads + Wait + Abort>(
    rt: &H,
    alloc: Global,
    last: Last<'_>,
) -> Result<(), Fail> {
    let (purse, pass) = Purse::open(alloc, 24)?;
    let (mut other, pass) = purse.split(rt, pass);
    let said = format!(in alloc; "{SETUP}{PRODUCT}run\n{PRODUCT}{}", last.text)?;
    let reader = Given {
        bytes: said.as_bytes(),
        fails: last.read_fails,
    };
    let queued = format!(in alloc;
        "{SET_UP}ok queued 1 12\nok run 1 9\nC 1 1 1 9\nok queued 1 12\n"
    )?;
    let mut text = Vec::new(alloc);
    let writer = Taking {
        text: &mut text,
        capacity: if last.write_fails {
            queued.len()
        } else {
            usize::MAX
        },
    };
    let session = Session::with_reads(alloc, 2, last.reads)?;
    let served = serve_over(rt, reader, writer, &purse, (session, pass));
    assert_eq!(rt; served.outcome, last.outcome);
    assert_eq!(rt; served.spent, 9);
    assert_eq!(rt; served.commands, last.commands.wrapping_add(7));
    assert!(rt; text.starts_with(queued.as_bytes()));
    let totals = Totals {
        left: 15,
        reserved: 0,
        spent: 9,
    };
    assert_eq!(rt; purse.totals(rt, &mut other), totals);
    Ok(())
}

/// Ends and faults, each of a session whose last words these are.
const LAST: Last<'static> = Last {
    text: "",
    read_fails: false,
    write_fails: false,
    reads: 4,
    outcome: Ok(End::InputEnd),
    commands: 0,
};

#[test]
fn each_end_settles(rt: HostRuntime) -> Result<(), Fail> {
    let refused = [
        ("matrix X\n", FatalRule::MalformedWords),
        ("matrix X 5\n1234", FatalRule::InputEndsInBody),
        ("matrix X 268435457\n", FatalRule::BodyTooLong),
    ];
    for (text, rule) in refused {
        let outcome = Ok(End::Refused(rule));
        assert_settled(
            &rt,
            rt.alloc(),
            Last {
                text,
                outcome,
                commands: 1,
                ..LAST
            },
        )?;
    }
    let outcome = Ok(End::Quit);
    let text = "quit\n";
    assert_settled(
        &rt,
        rt.alloc(),
        Last {
            text,
            outcome,
            commands: 1,
            ..LAST
        },
    )?;
    assert_settled(&rt, rt.alloc(), LAST)
}

#[test]
fn each_fault_settles(rt: HostRuntime) -> Result<(), Fail> {
    let faults = [
        Last {
            read_fails: true,
            outcome: Err(ServeFault::Read),
            ..LAST
        },
        Last {
            text: "budget\n",
            write_fails: true,
            commands: 1,
            outcome: Err(ServeFault::Write),
            ..LAST
        },
        Last {
            reads: 1,
            outcome: Err(ServeFault::Turns),
            ..LAST
        },
    ];
    for last in faults {
        assert_settled(&rt, rt.alloc(), last)?;
    }
    Ok(())
}
