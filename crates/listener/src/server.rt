//! What all sessions of a listener share.
ghost use Rattle.std.specs.Prelude.{◌≡◌, ◌≤◌, IfSome};
ghost use Rattle.session.specs.Sessions.{full_session};

use crate::patience::Patience;
use crate::seats::Seats;
use metered_session::Limits;
use session::Session;
use session_log::{Journal, LoggedTerms};
use std::alloc::Global;
use std::sync::Mutex;
use std::sync::ledger::{Blank, Ledger};
use step_purse::Purse;

/// On which terms connections are served.
#[derive(Clone, Copy, Debug, PartialEq, Eq)]
pub struct ServerTerms {
    /// How many workers run a batch of a session: 1 to 64.
    pub workers: u64,
    /// How many sessions are started. Without a number there is no end.
    pub sessions: Option<u64>,
    /// For how many seconds a session waits for its client to send something, or to take something
    /// of a reply, one at least. Without a number there is no end.
    pub idle: Option<u64>,
    /// For how many seconds a session lasts: then it is ended as soon as it waits for its client.
    /// Without a number there is no end.
    pub session_seconds: Option<u64>,
    /// How many bytes of a command have to arrive in a second, once it has taken a while. Without a
    /// number any will do.
    pub min_rate: Option<u64>,
    /// What each session may take of the purse.
    pub limits: Limits,
    ghost some: { 1 ≤ workers },
    ghost few: { workers ≤ 64 },
}

impl ServerTerms {
    /// For how long a session waits for its client.
    pub fn patience(&self) -> Patience
        ensures { result ≡ record { idle = self.now.idle; seconds = self.now.session_seconds; rate = self.now.min_rate } }
    {
        Patience {
            idle: self.idle,
            seconds: self.session_seconds,
            rate: self.min_rate,
        }
    }

    /// The terms as a log names them.
    pub fn logged(&self) -> LoggedTerms
        ensures workers { result.workers ≡ self.now.workers }
        ensures sessions { result.sessions ≡ self.now.sessions }
        ensures patience { (result.idle ≡ self.now.idle) × (result.session_seconds ≡ self.now.session_seconds)
            × (result.min_rate ≡ self.now.min_rate) }
        ensures limits { (result.session_steps ≡ self.now.limits.steps) × (result.session_reserve ≡ self.now.limits.reserve) }
    {
        LoggedTerms {
            workers: self.workers,
            sessions: self.sessions,
            idle: self.idle,
            session_seconds: self.session_seconds,
            min_rate: self.min_rate,
            session_steps: self.limits.steps,
            session_reserve: self.limits.reserve,
        }
    }
}

/// What all sessions of a listener share.
#[derive(Drop)]
pub struct ServerState<'p, L: Ledger> {
    pub alloc: Global,
    pub purse: &'p Purse,
    pub seats: Mutex<Seats<L>>,
    pub terms: ServerTerms,
    /// Where a line is left for each connection, if anywhere.
    pub journal: Option<&'p Journal>,
}

impl<'p, L: Ledger> ServerState<'p, L> {
    /// The state of a server with sixteen free seats, which are counted by this ledger.
    pub fn new(
        alloc: Global,
        purse: &'p Purse,
        terms: ServerTerms,
        journal: Option<&'p Journal>,
        blank: Blank,
    ) -> Self
        requires { (blank.name ≡ L.name) × (blank.parts ≡ L.parts) × (blank.parts ≡ 16) }
        ensures purse { result.purse.now ≡ purse.now }
        ensures terms { result.terms ≡ terms }
    {
        ServerState {
            alloc,
            purse,
            seats: Mutex::new(Seats::<L>::new(blank)),
            terms,
            journal,
        }
    }

    /// The next session, if there is memory for it: that of 4,294,967,296 reads, with the workers
    /// of the terms.
    pub fn new_session(&self) -> Option<Session>
        ensures { IfSome result (λ r. r ≡ full_session self.now.terms.workers) }
    {
        Session::new(self.alloc, self.terms.workers).ok()
    }
}
