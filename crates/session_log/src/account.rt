//! The account of a session in a log.
ghost use Rattle.std.specs.Prelude.{◌≡◌, is_some};

use crate::books::ClosedAccount;
use crate::entry::Ending;
use crate::journal::Journal;
use crate::origin::Origin;
use crate::refusal::Refusal;
use crate::roster::Watch;
use std::sync::Wait;
use std::time::Clock;

/// The account of a session that runs. It isn't copied, and closing it uses it up, so a session has
/// one line at its end.
#[derive(Drop)]
pub struct OpenAccount<'j> {
    journal: &'j Journal,
    watch: Watch<'j>,
}

impl<'j> OpenAccount<'j> {
    /// That of a session which this journal has in its roster.
    pub(crate) fn of(journal: &'j Journal, watch: Watch<'j>) -> Self
        ensures { result.watch ≡ watch.entry }
    {
        OpenAccount { journal, watch }
    }

    /// What notes in the roster what the session does.
    pub fn watch(&self) -> Watch<'j>
        ensures { result ≡ self.now.watch }
    {
        self.watch
    }

    /// Leaves a line of how the session stands, if a batch of it has ended.
    pub(crate) fn note_batch<R: Wait + Clock>(&self, rt: &R) {
        self.journal.note_batch(rt, self.watch);
    }

    /// Leaves a line of a refusal.
    pub(crate) fn note_refusal<R: Wait + Clock>(&self, rt: &R, refusal: Refusal) {
        self.journal.note_refusal(rt, self.watch, refusal);
    }

    /// Closes the account of a session that has ended, spent so many steps and was refused
    /// something so often: its line tells this, or the next such line tells the steps.
    pub fn close<R: Wait + Clock>(
        self,
        rt: &R,
        ending: Ending,
        spent: u64,
        refused: u64,
    ) -> ClosedAccount
        ensures number { result.number ≡ self.entry.watch.number }
        ensures account { (result.ending ≡ ending) × (result.spent ≡ spent) }
    {
        self.journal.close(rt, self.watch, ending, spent, refused)
    }
}

/// The account of a session that starts now, if there is a log. This has a line then.
pub fn open_account<'j, R: Wait + Clock>(
    rt: &R,
    journal: Option<&'j Journal>,
    client: Origin,
) -> Option<OpenAccount<'j>>
    ensures { is_some result ≡ is_some journal.entry }
{
    match journal {
        Some(journal) => Some(journal.open(rt, client)),
        None => None,
    }
}
