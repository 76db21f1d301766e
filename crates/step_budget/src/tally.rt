//! A budget of one thread, for tests: `spmat run` and `spmat serve` draw on a `Wallet`.
ghost use Rattle.std.specs.Prelude.{◌≡◌};
ghost use Rattle.step_purse.specs.Plain.{opened};

use crate::steps::Steps;
use std::marker::Model;
use std::sync::Wait;
use step_purse::{Reply, Totals};

/// A budget of one thread, which nobody else draws on: for tests, and for callers with a session of
/// their own. The program draws on a `Wallet`. A contract sees its totals.
#[derive(Debug, Drop)]
pub struct Tally {
    totals: Totals,
}

impl Model for Tally {
    ghost use Rattle.std.specs.Prelude.{◌<◌, ◌^◌};
    ghost use Rattle.step_purse.specs.Plain.{total};
    ghost use Rattle.step_purse.specs.declared.dealings.Totals.{Totals};

    ghost Value = { Totals };

    ghost view = { λ t. t.totals };

    ghost invariant = { λ t. total t.totals < 2 ^ 64 };
}

impl Tally {
    /// A budget of a number of steps, none of them reserved or spent.
    pub fn open(allowance: u64) -> Self
        ensures { result ≡ opened allowance }
    {
        Tally {
            totals: Totals {
                left: allowance,
                reserved: 0,
                spent: 0,
            },
        }
    }
}

impl Steps for Tally {
    ghost use Rattle.step_purse.specs.Plain.{PlainlyLeads};

    ghost leads = { PlainlyLeads };

    ghost owes = { λ t. t.reserved };

    // Nobody else draws on it, so there is nothing to wait for.
    fn reserve<H: Wait>(&mut self, _rt: &H, amount: u64) -> Reply {
        let Totals { left, reserved, .. } = &mut self.totals;
        // The reply names what is left, and nothing changes.
        if amount > *left {
            return Reply::NotEnough(*left);
        }
        *left -= amount;
        *reserved += amount;
        Reply::Took(amount)
    }

    fn settle<H: Wait>(&mut self, _rt: &H, amount: u64, spent: u64) {
        let totals = &mut self.totals;
        // The contract bounds the amount by what is owed, so this can't underflow.
        totals.reserved -= amount;
        totals.spent += spent;
        // What wasn't spent is free again.
        totals.left += amount - spent;
    }

    fn totals<H: Wait>(&mut self, _rt: &H) -> Totals {
        self.totals
    }

    fn owed(&self) -> u64 {
        self.totals.reserved
    }
}
