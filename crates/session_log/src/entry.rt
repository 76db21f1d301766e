//! What the log tells.
ghost use Rattle.std.specs.Prelude.{◌≡◌, Some};
ghost use Rattle.session_log.specs.inner.Events.{kind_of, steps_of};
ghost use Rattle.session_log.specs.Names.{ending_text};

use crate::origin::Origin;
use crate::pace::Untold;
use crate::refusal::Refusal;
use crate::roster::Standing;
use crate::tally::Kind;
use command_text::FatalRule;
use std::fmt;
use std::time::{Clock, Duration, SystemTime};

/// Why a session is ended that waits for its client.
#[derive(Clone, Copy, Debug, PartialEq, Eq)]
pub enum Cut {
    /// The client sent nothing, or took nothing, for as long as `--idle` says.
    Idle,
    /// The session has lasted for as long as `--session-seconds` says.
    Seconds,
    /// A command arrived more slowly than `--min-rate` says.
    Slow,
}

/// How a session ended, or that there was none.
#[derive(Clone, Copy, Debug, PartialEq, Eq)]
pub enum Ending {
    /// By `quit`.
    Quit,
    /// By the end of the input.
    InputEnd,
    /// By a refusal after which a session can't go on.
    Refused(FatalRule),
    /// A read failed.
    ReadFailed,
    /// A write failed.
    WriteFailed,
    /// More reads were needed than a session may make.
    TooManyReads,
    /// The memory that a session needs from its start was refused.
    NoMemory,
    /// It waited for its client for as long as it may.
    Cut(Cut),
    /// There was no seat, no memory or no thread for it: the client got `no busy`.
    TurnedAway,
}

impl fmt::Display for Ending {
    ghost output = { λ e. Some (ending_text e) };

    fn fmt<W: fmt::Write>(&self, f: &mut fmt::Formatter<W>) -> fmt::Result {
        match self {
            Ending::Quit => f.write_str("quit"),
            Ending::InputEnd => f.write_str("input-end"),
            Ending::Refused(rule) => {
                f.write_str("refused-")?;
                f.write_str(rule.name())
            }
            Ending::ReadFailed => f.write_str("read-failed"),
            Ending::WriteFailed => f.write_str("write-failed"),
            Ending::TooManyReads => f.write_str("too-many-reads"),
            Ending::NoMemory => f.write_str("no-memory"),
            Ending::Cut(Cut::Idle) => f.write_str("idle"),
            Ending::Cut(Cut::Seconds) => f.write_str("seconds"),
            Ending::Cut(Cut::Slow) => f.write_str("slow"),
            Ending::TurnedAway => f.write_str("no-busy"),
        }
    }
}

/// A session from its start to its end, or a client that was turned away.
#[derive(Clone, Copy, Debug)]
pub struct Account {
    pub ending: Ending,
    /// How long the session took, where the clock could be read.
    pub time: Option<Duration>,
    /// The bytes that the client sent, and those that it was sent.
    pub received: u64,
    pub sent: u64,
    /// The commands that were taken, the jobs that they queued, and the steps that these spent.
    pub commands: u64,
    pub jobs: u64,
    pub spent: u64,
    /// How often the client was refused something.
    pub refused: u64,
}

/// What happened.
#[derive(Clone, Copy, Debug)]
pub enum Event {
    /// A session started.
    Start,
    /// A session was refused something.
    Refused(Refusal),
    /// A session ended, or a client was turned away.
    End(Account),
    /// A session runs, for so long, where the clock could be read.
    Runs {
        time: Option<Duration>,
        standing: Standing,
    },
}

impl Event {
    /// The kind of line that tells it.
    pub fn kind(&self) -> Kind
        ensures { result ≡ kind_of self.now }
    {
        match self {
            Event::Start => Kind::Start,
            Event::Refused(_) => Kind::Refused,
            Event::End(account) => match account.ending {
                Ending::TurnedAway => Kind::TurnedAway,
                _ => Kind::Session,
            },
            Event::Runs { .. } => Kind::Batch,
        }
    }

    /// The steps that its line tells, and no other line does.
    pub fn steps(&self) -> u64
        ensures { result ≡ steps_of self.now }
    {
        match self {
            Event::End(account) => account.spent,
            Event::Start | Event::Refused(_) | Event::Runs { .. } => 0,
        }
    }
}

/// What the log tells of a connection.
#[derive(Clone, Copy, Debug)]
pub struct Entry {
    /// When it happened, where the clock could be read.
    pub at: Option<SystemTime>,
    /// The number of the session, if there is one.
    pub number: Option<u64>,
    /// Where the client is.
    pub client: Origin,
    pub event: Event,
    /// What was counted since the last line of its kind, and has no line.
    pub untold: Untold,
}

impl Entry {
    /// An event of this moment.
    pub fn new<R: Clock>(rt: &R, number: Option<u64>, client: Origin, event: Event) -> Self
        ensures number { result.number ≡ number }
        ensures event { result.event ≡ event }
    {
        Entry {
            at: SystemTime::now(rt).ok(),
            number,
            client,
            event,
            untold: Untold::nothing(),
        }
    }

    /// The second in which it happened, or 0 where the clock couldn't be read.
    pub fn second(&self) -> u64 {
        let since = match self.at {
            Some(at) => at.duration_since(SystemTime::UNIX_EPOCH),
            None => return 0,
        };
        match since {
            Ok(since) => since.as_secs(),
            Err(_) => 0,
        }
    }
}
