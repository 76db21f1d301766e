//! What the sessions that run have reserved and spent, and what they wait for, for a log that tells
//! it now and then.
ghost use Rattle.std.specs.Prelude.{◌≡◌, ◌≢◌, ℕ, None, Some, IfSome, IfNone, slice_get};
ghost use Rattle.session_log.specs.inner.Standing.{noted};

use crate::entry::{Entry, Event};
use crate::origin::Origin;
use std::alloc::{AllocError, Global};
use std::fmt;
use std::sync::{Mutex, Wait};
use std::time::{Clock, Duration, Instant};
use step_purse::Reply;

/// What a session is at.
#[derive(Clone, Copy, Debug, PartialEq, Eq)]
pub enum State {
    /// It takes commands, or runs jobs.
    Running,
    /// It waits for a command.
    Waiting,
    /// It has read a part of a command, and waits for more of it.
    Reading,
    /// It waits until its client takes a reply.
    Writing,
}

impl fmt::Display for State {
    fn fmt<W: fmt::Write>(&self, f: &mut fmt::Formatter<W>) -> fmt::Result {
        f.write_str(match self {
            State::Running => "running",
            State::Waiting => "waiting",
            State::Reading => "reading",
            State::Writing => "writing",
        })
    }
}

/// How a session that runs stands.
#[derive(Clone, Copy, Debug)]
pub struct Standing {
    pub state: State,
    /// The jobs that are queued, or that its batch runs.
    pub jobs: u64,
    /// The steps that its jobs have reserved, and those that they have spent.
    pub reserved: u64,
    pub spent: u64,
    /// The bytes that the client sent, and those that it was sent.
    pub received: u64,
    pub sent: u64,
    /// The jobs that were queued in all, and the commands that were taken, once it has ended.
    pub jobs_in_all: u64,
    pub commands: u64,
}

/// A session that runs.
#[derive(Clone, Copy)]
pub struct Row {
    /// What tells this row from the others. A client's address doesn't: a client that resets its
    /// connection may come again from the same port while its old batch is at work.
    pub number: u64,
    pub client: Origin,
    /// When it started, where the clock could be read.
    began: Option<Instant>,
    pub standing: Standing,
    /// The steps that the last line at the end of a batch reported.
    reported: u64,
    /// Whether the client has sent something since the last reply.
    is_amid: bool,
}

impl Row {
    /// A session that starts at a moment.
    pub fn new(number: u64, client: Origin, began: Option<Instant>) -> Self
        ensures { result.number ≡ number }
    {
        Row {
            number,
            client,
            began,
            standing: Standing {
                state: State::Waiting,
                jobs: 0,
                reserved: 0,
                spent: 0,
                received: 0,
                sent: 0,
                jobs_in_all: 0,
                commands: 0,
            },
            reported: 0,
            is_amid: false,
        }
    }

    /// How long the session has run, where the clock can be read.
    pub fn time<R: Clock>(&self, rt: &R) -> Option<Duration> {
        self.began.and_then(|began| began.elapsed(rt).ok())
    }

    /// What the log tells of the session while it runs.
    pub fn entry<R: Clock>(&self, rt: &R) -> Entry
        ensures { result.number ≡ Some self.now.number }
    {
        let (time, standing) = (self.time(rt), self.standing);
        let runs = Event::Runs { time, standing };
        Entry::new(rt, Some(self.number), self.client, runs)
    }

    /// Notes something of the session.
    fn note(&mut self, note: Note)
        ensures { self.new ≡ noted self.old note }
    {
        let standing = &mut self.standing;
        match note {
            Note::Reserved { reply, reserved } => {
                if let Reply::Took(_) = reply {
                    standing.jobs = standing.jobs.saturating_add(1);
                    standing.jobs_in_all = standing.jobs_in_all.saturating_add(1);
                }
                standing.reserved = reserved;
            }
            Note::Settled { reserved, spent } => {
                standing.jobs = standing.jobs.saturating_sub(1);
                standing.reserved = reserved;
                standing.spent = spent;
            }
            Note::Took(commands) => standing.commands = commands,
            Note::Reads if self.is_amid => standing.state = State::Reading,
            Note::Reads => standing.state = State::Waiting,
            Note::Read(count) => {
                standing.state = State::Running;
                standing.received = standing.received.saturating_add(count);
                self.is_amid = true;
            }
            Note::Writes => standing.state = State::Writing,
            Note::Wrote(count) => {
                standing.state = State::Running;
                standing.sent = standing.sent.saturating_add(count);
                self.is_amid = false;
            }
        }
    }
}

/// What a session does.
#[derive(Clone, Copy)]
pub enum Note {
    /// It asked to reserve steps for a job, had this reply, and has so many reserved now.
    Reserved { reply: Reply, reserved: u64 },
    /// It settled a job. It has so many steps reserved now, and spent.
    Settled { reserved: u64, spent: u64 },
    /// It has ended, and took so many commands.
    Took(u64),
    /// It waits for bytes of its client, or has so many.
    Reads,
    Read(u64),
    /// It waits until its client takes bytes, or so many were taken.
    Writes,
    Wrote(u64),
}

/// The rows of the sessions that run, and the number of the next one.
#[derive(Drop)]
struct Rows {
    rows: Vec<Row>,
    next: u64,
}

impl Rows {
    /// Adds a session that starts at a moment, and answers the number of its row. Where there is no
    /// memory for the row, nothing is found under that number.
    fn enter(&mut self, client: Origin, began: Option<Instant>) -> u64
        ensures number { result ≡ self.old.next }
        ensures same { (k : ℕ) (r : Row) → slice_get self.old.rows.items k ≡ Some r → slice_get self.new.rows.items k ≡ Some r }
    {
        let number = self.next;
        // It wraps after 2^64 sessions, of which at most sixteen have rows at once.
        self.next = number.wrapping_add(1);
        let _ = self.rows.push(Row::new(number, client, began));
        number
    }

    /// Notes something of the session with this number, and of no other.
    fn note(&mut self, number: u64, note: Note)
        ensures { (k : ℕ) (r : Row) → slice_get self.old.rows.items k ≡ Some r → r.number ≢ number → slice_get self.new.rows.items k ≡ Some r }
    {
        if let Some(nth) = self.rows.iter().position(|row| row.number == number) {
            self.rows[nth].note(note);
        }
    }

    /// The session with this number, where it has spent steps since this was last asked: then a
    /// batch of it has ended.
    fn spender(&mut self, number: u64) -> Option<Row>
        ensures { IfSome result (λ r. (r.number ≡ number) × (r.reported ≡ r.standing.spent)) }
    {
        let nth = self.rows.iter().position(|row| row.number == number)?;
        let row = &mut self.rows[nth];
        if row.standing.spent == row.reported {
            return None;
        }
        row.reported = row.standing.spent;
        Some(*row)
    }

    /// Takes out the session with this number, which has ended.
    fn leave(&mut self, number: u64) -> Option<Row>
        ensures { IfSome result (λ r. r.number ≡ number) }
    {
        let nth = self.rows.iter().position(|row| row.number == number)?;
        Some(self.rows.swap_remove(nth))
    }
}

/// The sessions that run.
#[derive(Drop)]
pub struct Roster {
    rows: Mutex<Rows>,
}

impl Roster {
    /// A roster without sessions, with memory for so many.
    ///
    /// # Errors
    ///
    /// There is no memory for it.
    pub fn new(alloc: Global, sessions: usize) -> Result<Self, AllocError> {
        let rows = Vec::with_capacity(alloc, sessions)?;
        Ok(Roster {
            rows: Mutex::new(Rows { rows, next: 1 }),
        })
    }

    /// Adds a session that starts now, and answers the number of its row.
    pub fn enter<R: Wait + Clock>(&self, rt: &R, client: Origin) -> u64 {
        let began = Instant::now(rt).ok();
        self.rows.lock(rt).enter(client, began)
    }

    /// Notes something of a session.
    pub fn note<R: Wait>(&self, rt: &R, number: u64, note: Note) {
        self.rows.lock(rt).note(number, note);
    }

    /// A session that has spent steps since this was last asked.
    pub fn spender<R: Wait>(&self, rt: &R, number: u64) -> Option<Row> {
        self.rows.lock(rt).spender(number)
    }

    /// Takes a session out that has ended.
    pub fn leave<R: Wait>(&self, rt: &R, number: u64) -> Option<Row> {
        self.rows.lock(rt).leave(number)
    }

    /// The session in this row of the roster, if there is one.
    pub fn at<R: Wait>(&self, rt: &R, nth: usize) -> Option<Row> {
        self.rows.lock(rt).rows.get(nth).copied()
    }
}

/// A session of a roster.
#[derive(Clone, Copy)]
pub struct Watch<'r> {
    roster: &'r Roster,
    pub(crate) client: Origin,
    pub(crate) number: u64,
}

impl<'r> Watch<'r> {
    /// A session that starts now.
    pub(crate) fn start<R: Wait + Clock>(rt: &R, roster: &'r Roster, client: Origin) -> Self {
        Watch {
            roster,
            client,
            number: roster.enter(rt, client),
        }
    }

    /// Notes something of the session.
    pub fn note<R: Wait>(&self, rt: &R, note: Note) {
        self.roster.note(rt, self.number, note);
    }
}
