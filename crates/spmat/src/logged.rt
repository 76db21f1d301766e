//! The log of a session on standard input and output: an account of it on standard error.
ghost use Rattle.std.specs.Prelude.{◌≡◌, ◌≤◌, IfSome, is_some, true};
ghost use Rattle.command_line.specs.InRange.{HasRoom, IsWithin};
ghost use Rattle.spmat.specs.inner.Running.{IsAccounted, IsAccountedIfBegun, IsOfSession, account_in, cause_of, cut_of, explained};

use crate::ended::Ended;
use crate::respond_on;
use crate::serving::Log;
use crate::solo::Spoken;
use crate::system::System;
use command_line::{Failure, Settings, VERSION};
use metered_session::ending_of;
use session::{End, ServeFault};
use session_log::{Cause, CloseReason, Cut, Journal, LoggedTerms, OpenAccount, Origin};
use std::sync::Wait;
use std::thread::{Threads, join};
use std::time::Clock;
use step_purse::Totals;

/// The request for `run`: the steps of its session, its workers, and for how long it waits for its
/// client, if a number of seconds is given.
#[derive(Clone, Copy, Debug, PartialEq, Eq)]
pub struct Alone {
    pub steps: u64,
    pub workers: u64,
    pub idle: Option<u64>,
}

/// What the devices of a session noted: why a read or a write failed, if one did, and how often
/// something was refused.
#[derive(Clone, Copy, Debug, PartialEq, Eq)]
pub struct Noted {
    pub unread: Option<Cause>,
    pub unwritten: Option<Cause>,
    pub refused: u64,
}

/// The bound by which a call was given up, by its cause.
fn cut_of(cause: Option<Cause>) -> Option<Cut>
    ensures { result ≡ cut_of cause }
{
    match cause {
        Some(Cause::Idle) => Some(Cut::Idle),
        _ => None,
    }
}

/// The cause of the device that failed, by what each noted.
fn cause_of(outcome: Result<End, ServeFault>, noted: Noted) -> Option<Cause>
    ensures { result ≡ cause_of noted outcome }
{
    match outcome {
        Err(ServeFault::Read) => noted.unread,
        Err(ServeFault::Write) => noted.unwritten,
        // No device failed.
        _ => None,
    }
}

/// Adds to an outcome the cause of a device's failure, and closes the account of the session, if
/// there is a log.
pub fn explain<R: Wait + Clock>(
    rt: &R,
    account: Option<OpenAccount<'_>>,
    outcome: Result<Ended, Failure>,
    noted: Noted,
) -> Result<Ended, Failure>
    ensures explained { result ≡ explained noted (account_in result) outcome }
    ensures accounted { IsAccounted (is_some account.entry) result }
{
    match outcome {
        Ok(Ended::Session(spoken)) => {
            let cause = cause_of(spoken.outcome(), noted);
            let closed = match account {
                Some(account) => {
                    let ending = ending_of(spoken.outcome(), cut_of(cause));
                    Some(account.close(rt, ending, spoken.spent(), noted.refused))
                }
                None => None,
            };
            Ok(Ended::Session(spoken.explained(cause, closed)))
        }
        Err(Failure::Output(cause)) => match noted.unwritten {
            Some(noted) => Err(Failure::Output(noted)),
            None => Err(Failure::Output(cause)),
        },
        outcome => outcome,
    }
}

/// How many steps were spent.
fn spent_in(outcome: &Result<Ended, Failure>) -> u64 {
    match outcome {
        Ok(Ended::Session(spoken)) => spoken.spent(),
        _ => 0,
    }
}

/// Why the process serves no further session.
fn close_reason(outcome: &Result<Ended, Failure>) -> CloseReason {
    match outcome {
        Ok(Ended::Session(spoken)) => match spoken.outcome() {
            // The one fault that a server would have as well: no session could be set up.
            Err(ServeFault::Memory) => CloseReason::NoMemory,
            _ => CloseReason::Sessions,
        },
        _ => CloseReason::Sessions,
    }
}

/// Serves one session on standard input and output, with a log that another thread writes to
/// standard error meanwhile. Before the session starts the log gets the request, and at the end
/// what the session took. If no thread can be started, all is written at the end.
pub fn run_logged<H: System + Input + Threads + Wait>(
    rt: &H,
    alone: Alone,
    log: Log,
) -> Result<Ended, Failure>
    requires capacity { HasRoom alone.steps alone.workers }
    requires idle { IsWithin 1000000 alone.idle }
    ensures ended { IsOfSession result }
    ensures accounted { IsAccountedIfBegun result }
{
    // As if the session's own memory were refused: nothing was read or written.
    let Ok(journal) = Journal::new(rt.alloc(), 1, log.format, log.every) else {
        return Ok(Ended::Session(Spoken::without_memory()));
    };
    let Alone {
        steps,
        workers,
        idle,
    } = alone;
    let terms = LoggedTerms {
        workers,
        // `run` is a server of one session, so its log has the same lines.
        sessions: Some(1),
        idle,
        session_seconds: None,
        min_rate: None,
        session_steps: None,
        session_reserve: None,
    };
    journal.write_opening(rt, Origin::Streams, VERSION, steps, terms);
    let outcome = serve_logged(rt, &journal, alone);
    let spent = spent_in(&outcome);
    let totals = Totals {
        // No contract bounds what is spent by the steps here, hence saturating.
        left: steps.saturating_sub(spent),
        reserved: 0,
        spent,
    };
    journal.write_closing(rt, Origin::Streams, close_reason(&outcome), totals);
    outcome
}

/// The session, while another thread writes its log.
fn serve_logged<H: System + Input + Threads + Wait>(
    rt: &H,
    journal: &Journal,
    alone: Alone,
) -> Result<Ended, Failure>
    requires capacity { HasRoom alone.steps alone.workers }
    requires idle { IsWithin 1000000 alone.idle }
    ensures ended { IsOfSession result }
    ensures accounted { IsAccounted true result }
{
    let session = move || -> Result<Ended, Failure>
        requires capacity { HasRoom alone.steps alone.workers }
        requires idle { IsWithin 1000000 alone.idle }
        ensures ended { IsOfSession result }
        ensures accounted { IsAccounted true result }
    {
        let settings = Settings::Run {
            steps: alone.steps,
            workers: alone.workers,
            idle: alone.idle,
            // This function writes the log. `respond_on` ignores these three.
            log: false,
            log_format: None,
            log_every: None,
        };
        let outcome = respond_on(rt, Ok(settings), Some(journal));
        // The writing thread waits for more until the journal ends.
        journal.end(rt);
        outcome
    };
    let written = || journal.write_out(rt);
    let ((), outcome) = join(rt, written, session);
    outcome
}
