//! A log of sessions: lines that they leave, and one thread that writes them.
//!
//! A session never waits for the writer: it leaves its line in a queue, under a lock that nobody
//! holds while it writes. An event whose line doesn't fit, since standard error takes nothing, is
//! counted; so is one whose second has had the lines of its kind (`Pace`). The next line of the
//! kind tells the count.
ghost use Rattle.std.specs.Prelude.{◌≡◌};

use crate::account::OpenAccount;
use crate::books::{Books, ClosedAccount, NextLine};
use crate::entry::{Account, Ending, Entry, Event};
use crate::line::{CloseReason, Closing, Context, Line, LoggedTerms, Opening};
use crate::origin::Origin;
use crate::refusal::Refusal;
use crate::roster::{Roster, Row, Watch};
use std::alloc::{AllocError, Global};
use std::sync::{Condvar, Mutex, Wait};
use std::time::{Clock, Duration, Instant, SystemTime};
use step_purse::Totals;

/// How the lines of a log are written.
#[derive(Clone, Copy, Debug, PartialEq, Eq)]
pub enum LogFormat {
    /// As words, and fields `NAME=VALUE`.
    Text,
    /// As an object of JSON each.
    Json,
}

/// A log of sessions. They leave lines in it, and `write_out` writes them.
#[derive(Drop)]
pub struct Journal {
    books: Mutex<Books>,
    change: Condvar,
    format: LogFormat,
    every: Option<u64>,
    /// How many sessions run at once, at most.
    sessions: usize,
    roster: Roster,
}

impl Journal {
    /// A log of at most so many sessions at once, in which no line waits, with capacity for all
    /// that may. It has lines of this format. It tells how a session stands at the end of each
    /// batch; and where a number of seconds is given, it tells so often how each stands.
    ///
    /// # Errors
    ///
    /// There is no memory for it.
    pub fn new(
        alloc: Global,
        sessions: usize,
        format: LogFormat,
        every: Option<u64>,
    ) -> Result<Self, AllocError> {
        Ok(Journal {
            books: Mutex::new(Books::new(alloc)?),
            change: Condvar::new(),
            format,
            every,
            sessions,
            roster: Roster::new(alloc, sessions)?,
        })
    }

    /// Leaves a line of an event, or counts the event alone. It doesn't wait for the writer.
    fn note<R: Wait>(&self, rt: &R, entry: Entry) {
        let _has_line = self.books.lock(rt).enter(entry);
        self.change.notify_one();
    }

    /// Opens the account of a session that starts, and leaves a line of that.
    pub fn open<R: Wait + Clock>(&self, rt: &R, client: Origin) -> OpenAccount<'_> {
        let watch = Watch::start(rt, &self.roster, client);
        self.note(rt, Entry::new(rt, Some(watch.number), client, Event::Start));
        OpenAccount::of(self, watch)
    }

    /// Leaves a line that a client was turned away, which was sent so many bytes.
    pub fn note_turned_away<R: Wait + Clock>(&self, rt: &R, client: Origin, sent: u64) {
        let account = Account {
            ending: Ending::TurnedAway,
            time: Some(Duration::ZERO),
            received: 0,
            sent,
            commands: 0,
            jobs: 0,
            spent: 0,
            refused: 0,
        };
        self.note(rt, Entry::new(rt, None, client, Event::End(account)));
    }

    /// Leaves a line of how a session ended, and what it took. For a session without a row, only
    /// its steps and its refusals are known.
    pub(crate) fn close<R: Wait + Clock>(
        &self,
        rt: &R,
        watch: Watch<'_>,
        ending: Ending,
        spent: u64,
        refused: u64,
    ) -> ClosedAccount
        ensures number { result.number ≡ watch.entry.number }
        ensures account { (result.ending ≡ ending) × (result.spent ≡ spent) }
    {
        let row = match self.roster.leave(rt, watch.number) {
            Some(row) => row,
            None => Row::new(watch.number, watch.client, None),
        };
        let account = Account {
            ending,
            time: row.time(rt),
            received: row.standing.received,
            sent: row.standing.sent,
            commands: row.standing.commands,
            jobs: row.standing.jobs_in_all,
            spent,
            refused,
        };
        let at = SystemTime::now(rt).ok();
        let closed = self
            .books
            .lock(rt)
            .close(at, watch.number, watch.client, account);
        self.change.notify_one();
        closed
    }

    /// Leaves a line of how a session stands whose batch has ended: a process that is killed has no
    /// other account of it.
    pub(crate) fn note_batch<R: Wait + Clock>(&self, rt: &R, watch: Watch<'_>) {
        if let Some(row) = self.roster.spender(rt, watch.number) {
            self.note(rt, row.entry(rt));
        }
    }

    /// Leaves a line of a refusal.
    pub(crate) fn note_refusal<R: Wait + Clock>(&self, rt: &R, watch: Watch<'_>, refusal: Refusal) {
        let Watch { client, number, .. } = watch;
        self.note(
            rt,
            Entry::new(rt, Some(number), client, Event::Refused(refusal)),
        );
    }

    /// Tells that no more lines come.
    pub fn end<R: Wait>(&self, rt: &R) {
        self.books.lock(rt).end();
        self.change.notify_one();
    }

    /// What is to be written next, once there is something. None, where there is nothing for so
    /// long, if a time is given.
    fn next<R: Wait + Clock>(&self, rt: &R, longest: Option<Duration>) -> Option<NextLine> {
        let mut books = self.books.lock(rt);
        for _ in rt.forever() {
            if let Some(next) = books.take() {
                return Some(next);
            }
            match longest {
                None => books = self.change.wait(rt, books),
                Some(longest) => {
                    let (guard, waited) = self.change.wait_timeout(rt, books, longest);
                    if waited.timed_out() {
                        return None;
                    }
                    books = guard;
                }
            }
        }
        unreachable!()
    }

    /// Writes a line to standard error. One that it doesn't take is lost.
    fn write<R: Eprint>(&self, rt: &R, entry: &Entry) {
        let format = self.format;
        let _ = rt.eprintln(Line { entry, format });
    }

    /// Where a line of the server stands that is written now.
    fn context<R: Clock>(&self, rt: &R, address: Origin) -> Context {
        Context {
            at: SystemTime::now(rt).ok(),
            address,
            format: self.format,
        }
    }

    /// Writes that a server of these steps and terms begins, whose clients come in there, and of
    /// which version its program is.
    pub fn write_opening<R: Clock + Eprint>(
        &self,
        rt: &R,
        address: Origin,
        version: &str,
        steps: u64,
        terms: LoggedTerms,
    ) {
        let context = self.context(rt, address);
        let _ = rt.eprintln(Opening {
            context,
            version,
            steps,
            terms,
        });
    }

    /// Writes why the server whose clients came in there has closed, and its totals. To be called
    /// once all else is written.
    pub fn write_closing<R: Wait + Clock + Eprint>(
        &self,
        rt: &R,
        address: Origin,
        reason: CloseReason,
        totals: Totals,
    ) {
        let context = self.context(rt, address);
        let tally = self.books.lock(rt).tally();
        let _ = rt.eprintln(Closing {
            context,
            reason,
            counts: tally.counts,
            spent: totals.spent,
            left: totals.left,
            untold: tally.untold(),
        });
    }

    /// Writes how each session stands.
    fn write_roster<R: Wait + Clock + Eprint>(&self, rt: &R) {
        for nth in 0..self.sessions {
            if let Some(row) = self.roster.at(rt, nth) {
                self.write(rt, &row.entry(rt));
            }
        }
    }

    /// How long it is until the roster is to be written again. None, where it isn't.
    fn until_roster<R: Clock>(&self, rt: &R, written: Option<Instant>) -> Option<Duration> {
        let every = Duration::from_secs(self.every?);
        match written.and_then(|written| written.elapsed(rt).ok()) {
            Some(since) => Some(every.saturating_sub(since)),
            None => Some(every),
        }
    }

    /// Writes the lines to standard error, each as it comes, until `end` was called and all are
    /// written. A line that standard error doesn't take is lost, and the next one is tried.
    pub fn write_out<R: Wait + Clock + Eprint>(&self, rt: &R) {
        let mut written = Instant::now(rt).ok();
        for _ in rt.forever() {
            let longest = self.until_roster(rt, written);
            if longest == Some(Duration::ZERO) {
                self.write_roster(rt);
                written = Instant::now(rt).ok();
                continue;
            }
            match self.next(rt, longest) {
                Some(NextLine::Line(entry)) => self.write(rt, &entry),
                Some(NextLine::Over) => return,
                None => {}
            }
        }
    }
}
