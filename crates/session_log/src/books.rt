//! What a log holds: the lines that wait to be written, and what was counted.
ghost use Rattle.std.specs.Prelude.{◌≡◌, [], ◌++◌, ◌∷◌, Some, true, false};
ghost use Rattle.session_log.specs.inner.Accounts.{IsEntered, IsTaken};
ghost use Rattle.session_log.specs.inner.Events.{kind_of, steps_of};
ghost use Rattle.session_log.specs.inner.Telling.{counts_after};

use crate::entry::{Account, Ending, Entry, Event};
use crate::origin::Origin;
use crate::pace::Untold;
use crate::tally::Tally;
use std::alloc::{AllocError, Global};
use std::collections::VecDeque;
use std::time::SystemTime;

/// How many lines wait at most.
const MOST_WAITING: usize = 1024;

/// The lines that wait to be written, what was counted, and whether no more comes.
#[derive(Drop)]
pub struct Books {
    entries: VecDeque<Entry>,
    tally: Tally,
    is_over: bool,
}

/// What is to be written next.
#[derive(Clone, Copy)]
pub enum NextLine {
    /// A line.
    Line(Entry),
    /// Nothing more.
    Over,
}

/// What the log has of a session that has ended: its number, how it ended, and the steps that it
/// spent; and whether that has a line of its own, or was added to what the next such line tells.
/// Only `Books::close` makes one.
#[derive(Clone, Copy, Debug)]
pub struct ClosedAccount {
    number: u64,
    ending: Ending,
    spent: u64,
    has_line: bool,
}

impl Books {
    /// Nothing yet, with memory for all lines that may wait.
    ///
    /// # Errors
    ///
    /// There is no memory for it.
    pub fn new(alloc: Global) -> Result<Self, AllocError> {
        Ok(Books {
            entries: VecDeque::with_capacity(alloc, MOST_WAITING)?,
            tally: Tally::new(),
            is_over: false,
        })
    }

    /// Adds a line behind those that wait, if they aren't too many. Tells whether.
    fn add(&mut self, entry: Entry) -> bool
        ensures added { result ≡ true → self.new.entries.items ≡ self.old.entries.items ++ entry ∷ [] }
        ensures full { result ≡ false → self.new.entries.items ≡ self.old.entries.items }
        ensures same { (self.new.tally ≡ self.old.tally) × (self.new.is_over ≡ self.old.is_over) }
    {
        let entries = &mut self.entries;
        entries.len() < MOST_WAITING && entries.push_back(entry).is_ok()
    }

    /// Leaves a line of an event; or counts the event alone, where its second has had the lines of
    /// its kind, or too many lines wait. Tells whether it has a line.
    pub fn enter(&mut self, entry: Entry) -> bool
        ensures entered { IsEntered result entry self.old self.new }
        ensures counted { self.new.tally.counts ≡ counts_after self.old.tally.counts (kind_of entry.event) (steps_of entry.event) }
        ensures over { self.new.is_over ≡ self.old.is_over }
    {
        let (kind, steps) = (entry.event.kind(), entry.event.steps());
        let Some(untold) = self.tally.tell(kind, entry.second(), steps) else {
            return false;
        };
        if self.add(Entry { untold, ..entry }) {
            return true;
        }
        self.tally
            .take_back(kind, untold.and(Untold { lines: 1, steps }));
        false
    }

    /// Leaves a line of how a session ended and what it took, or adds that to what the next such
    /// line tells.
    pub fn close(
        &mut self,
        at: Option<SystemTime>,
        number: u64,
        client: Origin,
        account: Account,
    ) -> ClosedAccount
        ensures account { (result.number ≡ number) × (result.ending ≡ account.ending) × (result.spent ≡ account.spent) }
        ensures entered { IsEntered result.has_line
            (record { at = at; number = Some number; client = client; event = Event.End account; untold = record { lines = 0; steps = 0 } })
            self.old self.new }
        ensures over { self.new.is_over ≡ self.old.is_over }
    {
        let has_line = self.enter(Entry {
            at,
            number: Some(number),
            client,
            event: Event::End(account),
            untold: Untold::nothing(),
        });
        ClosedAccount {
            number,
            ending: account.ending,
            spent: account.spent,
            has_line,
        }
    }

    /// Takes what is to be written next: the first line that waits, or that no more come. None,
    /// where there is nothing yet.
    pub fn take(&mut self) -> Option<NextLine>
        ensures taken { IsTaken result self.old self.new }
        ensures same { self.new.is_over ≡ self.old.is_over }
    {
        if let Some(entry) = self.entries.pop_front() {
            return Some(NextLine::Line(entry));
        }
        if self.is_over {
            Some(NextLine::Over)
        } else {
            None
        }
    }

    /// Notes that no more lines come.
    pub fn end(&mut self)
        ensures over { self.new.is_over ≡ true }
        ensures same { (self.new.entries.items ≡ self.old.entries.items) × (self.new.tally ≡ self.old.tally) }
    {
        self.is_over = true;
    }

    /// What was counted.
    pub fn tally(&self) -> Tally
        ensures { result ≡ self.now.tally }
    {
        self.tally
    }
}
