//! `spmat`, a server for jobs over sparse matrices whose operators are BPF code.
//!
//! The program is thin: `command_line` reads its words and reports its end; `solo` has one session
//! on any two devices, `standard` makes sides of standard input and output, `logged` has the log of
//! such a session, and `serving` has sessions over TCP. `system` says what they ask of the system.
//!
//! `answer` does what the words ask for, over two devices that it is lent; its contract says what
//! they gave and took, and which server was served (`specs/inner/Running.antt`). The functions above
//! it make these devices of the standard streams, which no contract sees. The contract for one of
//! many sessions is that of `metered_session::serve_within`. Which server settings ask for is the
//! contract of `open_server` (`specs/inner/Serving.antt`), and how serving a listener ends that of
//! `listener::serve_on_terms`.
#![tactic(auto)]

ghost use Rattle.std.specs.Prelude.{◌≡◌, is_some, IfOk};
ghost use Rattle.std.specs.Process.{exit_status};
ghost use Rattle.wire.specs.Devices.{IsNewCount};
ghost use Rattle.command_line.specs.Endings.{code_of, status_of};
ghost use Rattle.command_line.specs.InRange.{HasRoom, IsInRange};
ghost use Rattle.spmat.specs.inner.Running.{IsAccounted, IsAnswer, IsVersionTold, MayAskFor, MayEnd, idle_in, told_as};

mod ended;
mod logged;
mod serving;
mod solo;
mod standard;
mod system;

use crate::ended::{Ended, told_as};
use crate::logged::{Alone, Noted, explain, run_logged};
use crate::serving::{log_of, open_server, serve};
use crate::standard::Side;
use crate::system::System;
use command_line::{Failure, Settings, SettingsFault, VERSION, ending_of, finish, settings};
use session_log::{Cause, Journal, Noticing, Origin, Watch, Watching, open_account};
use std::io::{ErrorKind, Read, Write};
use std::marker::Brand;
use std::process::ExitCode;
use std::rt::Env;
use std::sync::Wait;
use std::sync::ledger::{Blank, Ledger};
use std::thread::Threads;
use std::{env, io};
use wire::{Asked, FromRead, Sink, ToWrite};

const NOT_TEXT: &str = "error: the command line is not text\n";

/// Reads the words of the command line. Words that are not text are refused.
fn read_settings<H: Env + AllocGlobal>(rt: &H) -> Result<Settings, SettingsFault>
    ensures { IfOk result (λ s. IsInRange s) }
{
    let words: Vec<String> = match env::args(rt) {
        Ok(words) => words.collect(rt.alloc())?,
        // Out of memory has a status and words of its own.
        Err(error) if error.kind() == ErrorKind::OutOfMemory => return Err(SettingsFault::Memory),
        Err(_) => return Err(SettingsFault::Words(String::from_str(rt.alloc(), NOT_TEXT)?)),
    };
    settings(rt.alloc(), words.as_slice())
}

/// Prints the version on standard output.
fn tell_version<H: Print>(rt: &H) -> Result<Ended, Failure>
    ensures { IsVersionTold result }
{
    match println!(rt; "spmat {VERSION}") {
        Ok(()) => Ok(Ended::Version),
        Err(error) => Err(Failure::Output(Cause::of(&error))),
    }
}

/// Does what the words of the command line ask for: one session on these devices; or a server's
/// sessions, which have sockets, and the line that reports it is written on the sink.
#[tactic(auto, using(crate::proofs::Running::served_of))]
fn answer<I: Asked<O>, O: Sink, H: System + Threads + Wait>(
    rt: &H,
    asked: Result<Settings, SettingsFault>,
    source: &mut I,
    sink: &mut O,
    watch: Option<Watch<'_>>,
) -> Result<Ended, Failure>
    requires range { IfOk asked (λ s. IsInRange s) }
    requires asked { IfOk asked (λ s. MayAskFor I.may_ask s (record { source = I.state source.old; sink = O.state sink.old })) }
    ensures { IsAnswer asked (record { source = I.state source.old; sink = O.state sink.old })
        (record { source = I.state source.new; sink = O.state sink.new }) result }
{
    match asked {
        Ok(settings) => match settings {
            Settings::Run { steps, workers, .. } => {
                let spoken = solo::run(rt, source, sink, steps, workers, watch);
                Ok(Ended::Session(spoken))
            }
            Settings::Serve { .. } => {
                let server = open_server(rt, settings, sink)?;
                match serve(rt, server) {
                    Ok(sessions) => Ok(Ended::Sessions(sessions)),
                    Err(fault) => Err(Failure::Listening(fault)),
                }
            }
        },
        Err(SettingsFault::Version) => tell_version(rt),
        Err(fault) => Err(Failure::Settings(fault)),
    }
}

/// As `answer`, over a reader and a writer, which are dropped when it returns. The caller's ledgers
/// count their calls.
fn answer_over<R, W, H, A: Ledger, B: Ledger, C: Ledger, D: Ledger>(
    rt: &H,
    asked: Result<Settings, SettingsFault>,
    reader: R,
    writer: W,
    watch: Option<Watch<'_>>,
    blanks: (Blank, Blank, Blank, Blank),
) -> Result<Ended, Failure>
where
    R: Read + Drop,
    W: Write + Drop,
    H: System + Threads + Wait,
    requires range { IfOk asked (λ s. IsInRange s) }
    requires reads { IsNewCount blanks.0 A.name A.parts × IsNewCount blanks.1 B.name B.parts }
    requires writes { IsNewCount blanks.2 C.name C.parts × IsNewCount blanks.3 D.name D.parts }
    ensures { MayEnd asked result }
{
    // The types A to D are the names of these ledgers, so that the contracts of `answer` can speak
    // of them.
    let (reads, failed_reads, writes, failed_writes) = blanks;
    let mut source = FromRead::<R, A, B>::new(reader, reads, failed_reads);
    let mut sink = ToWrite::<W, C, D>::new(writer, writes, failed_writes);
    answer(rt, asked, &mut source, &mut sink, watch)
}

/// How long a call of a standard stream may wait, if a number of seconds is given.
fn idle_of(asked: &Result<Settings, SettingsFault>) -> Option<u64>
    ensures { result ≡ idle_in asked.now }
{
    match asked {
        Ok(Settings::Run { idle, .. }) => *idle,
        // A server waits for its sockets, not for the standard streams.
        Ok(Settings::Serve { .. }) | Err(_) => None,
    }
}

/// Does what the words of the command line ask for, with a session on standard input and output. A
/// log gets an account of it, if there is one.
fn respond_on<H: System + Input + Threads + Wait>(
    rt: &H,
    asked: Result<Settings, SettingsFault>,
    journal: Option<&Journal>,
) -> Result<Ended, Failure>
    requires { IfOk asked (λ s. IsInRange s) }
    ensures ended { MayEnd asked result }
    ensures accounted { IsAccounted (is_some journal.entry) result }
{
    let idle = idle_of(&asked);
    let account = open_account(rt, journal, Origin::Streams);
    let watch = account.as_ref().map(|account| account.watch());
    // Written by the devices below, and read after `answer_over` has dropped them.
    let (mut unread, mut unwritten, mut refused) = (None, None, 0);
    let reader = Watching::new(Side::input(rt.reader(), idle, &mut unread), rt, watch);
    let writing = Watching::new(
        // Unbuffered: `Output` of wire collects replies, and a second buffer would hold them back.
        Side::output(io::writer(rt), idle, &mut unwritten),
        rt,
        watch,
    );
    // Outermost: it finds refusals in the bytes of the replies.
    let writer = Noticing::new(writing, rt, account.as_ref(), &mut refused);
    // A ledger of one part each, and a fresh name for each type.
    let blanks = (Blank::new(1), Blank::new(1), Blank::new(1), Blank::new(1));
    let outcome = answer_over::<_, _, H, Brand, Brand, Brand, Brand>(
        rt, asked, reader, writer, watch, blanks,
    );
    let noted = Noted {
        unread,
        unwritten,
        refused,
    };
    explain(rt, account, outcome, noted)
}

/// Does what the words of the command line ask for.
fn respond<H: System + Input + Threads + Wait>(
    rt: &H,
    asked: Result<Settings, SettingsFault>,
) -> Result<Ended, Failure>
    requires { IfOk asked (λ s. IsInRange s) }
    ensures { MayEnd asked result }
{
    match asked {
        // Any of the three options of the log asks for one.
        Ok(
            Settings::Run {
                steps,
                workers,
                idle,
                log,
                log_format,
                log_every,
            },
        ) => match log_of(log, log_format, log_every) {
            Some(log) => run_logged(
                rt,
                Alone {
                    steps,
                    workers,
                    idle,
                },
                log,
            ),
            None => respond_on(rt, asked, None),
        },
        asked => respond_on(rt, asked, None),
    }
}

/// Reports how it ended, and returns the status for the system.
fn tell<H: Eprint>(rt: &H, outcome: Result<Ended, Failure>) -> ExitCode
    ensures { exit_status result ≡ code_of (status_of (told_as outcome)) }
{
    finish(rt, ending_of(told_as(outcome)))
}

fn main(rt: HostRuntime) -> ExitCode {
    let asked = read_settings(&rt);
    let outcome = respond(&rt, asked);
    tell(&rt, outcome)
}
