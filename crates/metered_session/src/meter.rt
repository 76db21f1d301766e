//! A budget that also counts what is spent, and gives a session no more than its limits say.
ghost use Rattle.std.specs.Prelude.{◌≡◌};
ghost use Rattle.metered_session.specs.Limits.{IsWithin, allowed};

use crate::limits::Limits;
use session_log::{Note, Watch};
use std::marker::Model;
use std::sync::Wait;
use step_budget::{Steps, Wallet};
use step_purse::{Pass, Reply, Totals};

/// A budget that counts the steps that are spent of it, and refuses what its limits don't allow. A
/// contract sees its pass, the count and the limits.
#[derive(Drop)]
pub struct Meter<'p> {
    wallet: Wallet<'p>,
    spent: u64,
    limits: Limits,
    watch: Option<Watch<'p>>,
}

impl<'p> Model for Meter<'p> {
    ghost use Rattle.metered_session.specs.Limits.{Metered, IsWithin};

    ghost Value = { Metered };

    ghost view = { λ m. record { pass = m.wallet; spent = m.spent; limits = m.limits } };

    ghost invariant = { λ m. IsWithin (record { pass = m.wallet; spent = m.spent; limits = m.limits }) };
}

impl<'p> Meter<'p> {
    /// A budget that is this wallet, within these limits, of which nothing was spent yet. Where a
    /// watch is given, it observes what is reserved and spent.
    pub fn new(wallet: Wallet<'p>, limits: Limits, watch: Option<Watch<'p>>) -> Self
        requires { IsWithin (record { pass = wallet; spent = 0; limits = limits }) }
        ensures { result ≡ record { pass = wallet.entry; spent = 0; limits = limits } }
    {
        Meter {
            wallet,
            spent: 0,
            limits,
            watch,
        }
    }

    /// How many steps were spent, or the largest number there is.
    pub fn spent(&self) -> u64
        ensures { result ≡ self.now.spent }
    {
        self.spent
    }

    /// The pass.
    pub fn into_pass(self) -> Pass
        ensures { result ≡ self.entry.pass }
    {
        self.wallet.into_pass()
    }

    /// Tells the watch, if there is one, that a job was to be queued, and what is reserved now.
    fn tell_reserved<H: Wait>(&self, rt: &H, reply: Reply) {
        if let Some(watch) = &self.watch {
            let reserved = self.wallet.owed();
            watch.note(rt, Note::Reserved { reply, reserved });
        }
    }

    /// Tells the watch, if there is one, that a job was settled, and what is reserved and spent
    /// now.
    fn tell_settled<H: Wait>(&self, rt: &H) {
        if let Some(watch) = &self.watch {
            let (reserved, spent) = (self.wallet.owed(), self.spent);
            watch.note(rt, Note::Settled { reserved, spent });
        }
    }

    /// How much of an amount the session may reserve by its limits.
    fn allowed(&self, amount: u64) -> u64
        ensures { result ≡ allowed self.now amount }
    {
        let owed = self.wallet.owed();
        let within = match self.limits.steps {
            Some(most) => amount.min(most - (self.spent + owed)),
            None => amount,
        };
        match self.limits.reserve {
            Some(most) => within.min(most - owed),
            None => within,
        }
    }
}

impl Steps for Meter<'_> {
    ghost use Rattle.metered_session.specs.Limits.{Meters};

    ghost leads = { Meters };

    ghost owes = { λ m. m.pass.known.owes };

    fn reserve<H: Wait>(&mut self, rt: &H, amount: u64) -> Reply {
        if self.allowed(amount) < amount {
            let totals = self.wallet.totals(rt);
            return Reply::NotEnough(self.allowed(totals.left));
        }
        let reply = self.wallet.reserve(rt, amount);
        self.tell_reserved(rt, reply);
        reply
    }

    fn settle<H: Wait>(&mut self, rt: &H, amount: u64, spent: u64) {
        self.wallet.settle(rt, amount, spent);
        self.spent = self.spent.saturating_add(spent);
        self.tell_settled(rt);
    }

    fn totals<H: Wait>(&mut self, rt: &H) -> Totals {
        self.wallet.totals(rt)
    }

    fn owed(&self) -> u64 {
        self.wallet.owed()
    }
}
