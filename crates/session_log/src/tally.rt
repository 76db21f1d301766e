//! What a log has reported, and what it has only counted.
ghost use Rattle.std.specs.Prelude.{◌≡◌, None, IfSome};
ghost use Rattle.session_log.specs.inner.Telling.{counts_after, untold_of};
ghost use Rattle.session_log.specs.inner.Untold.{joined, none, one};

use crate::pace::{Pace, Untold};

/// The kinds of lines that come as clients do.
#[derive(Clone, Copy, Debug, PartialEq, Eq)]
pub enum Kind {
    /// A session starts.
    Start,
    /// A session ended.
    Session,
    /// A client was turned away.
    TurnedAway,
    /// A session was refused something.
    Refused,
    /// A batch of a session ended.
    Batch,
}

/// How many sessions ended, how many steps they spent, how many clients were turned away, and how
/// many refusals there were.
#[derive(Clone, Copy, Debug, PartialEq, Eq)]
pub struct Counts {
    pub sessions: u64,
    pub steps: u64,
    pub turned_away: u64,
    pub refused: u64,
}

/// The counts of a log, and for each kind of line how many it may have.
#[derive(Clone, Copy, Debug, PartialEq, Eq)]
pub struct Tally {
    pub counts: Counts,
    starts: Pace,
    sessions: Pace,
    turned_away: Pace,
    refused: Pace,
    batches: Pace,
}

impl Tally {
    /// Nothing yet.
    pub fn new() -> Self
        ensures { result.counts ≡ record { sessions = 0; steps = 0; turned_away = 0; refused = 0 } }
    {
        Tally {
            counts: Counts {
                sessions: 0,
                steps: 0,
                turned_away: 0,
                refused: 0,
            },
            starts: Pace::many(),
            sessions: Pace::many(),
            turned_away: Pace::few(),
            refused: Pace::few(),
            batches: Pace::many(),
        }
    }

    /// Counts something of this second that took so many steps: whether it has a line, and what of
    /// its kind had none before.
    pub fn tell(&mut self, kind: Kind, second: u64, steps: u64) -> Option<Untold>
        ensures reported { IfSome result (λ u. (u ≡ untold_of self.old kind) × (untold_of self.new kind ≡ none)) }
        ensures untold { result ≡ None → untold_of self.new kind ≡ joined (untold_of self.old kind) (one steps) }
        ensures counted { self.new.counts ≡ counts_after self.old.counts kind steps }
    {
        let counts = &mut self.counts;
        match kind {
            Kind::Start => self.starts.tell(second, steps),
            Kind::Session => {
                counts.sessions = counts.sessions.saturating_add(1);
                counts.steps = counts.steps.saturating_add(steps);
                self.sessions.tell(second, steps)
            }
            Kind::TurnedAway => {
                counts.turned_away = counts.turned_away.saturating_add(1);
                self.turned_away.tell(second, steps)
            }
            Kind::Refused => {
                counts.refused = counts.refused.saturating_add(1);
                self.refused.tell(second, steps)
            }
            Kind::Batch => self.batches.tell(second, steps),
        }
    }

    /// Takes back what a line would have reported that could not be written.
    pub fn take_back(&mut self, kind: Kind, untold: Untold)
        ensures untold { untold_of self.new kind ≡ joined (untold_of self.old kind) untold }
        ensures same { self.new.counts ≡ self.old.counts }
    {
        match kind {
            Kind::Start => self.starts.take_back(untold),
            Kind::Session => self.sessions.take_back(untold),
            Kind::TurnedAway => self.turned_away.take_back(untold),
            Kind::Refused => self.refused.take_back(untold),
            Kind::Batch => self.batches.take_back(untold),
        }
    }

    /// What had no line, of all kinds but batches, since the last line of its kind.
    pub fn untold(&self) -> Untold
        ensures { result ≡ joined (joined self.now.starts.untold self.now.sessions.untold)
            (joined self.now.turned_away.untold self.now.refused.untold) }
    {
        let sessions = self.starts.untold().and(self.sessions.untold());
        sessions.and(self.turned_away.untold().and(self.refused.untold()))
    }
}
