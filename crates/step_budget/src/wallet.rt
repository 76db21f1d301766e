//! A budget that is a pass of a purse.
ghost use Rattle.std.specs.Prelude.{◌≡◌};
ghost use Rattle.step_purse.specs.Passes.{IsPassOf};

use crate::steps::Steps;
use std::marker::Model;
use std::sync::Wait;
use step_purse::{Pass, Purse, Reply, Totals};

/// A budget that others draw on too: a purse, and a pass of it. A contract sees its pass.
#[derive(Drop)]
pub struct Wallet<'p> {
    // Borrowed: every session has a wallet over the one purse.
    purse: &'p Purse,
    // Owned, as a pass serves one caller at a time.
    pass: Pass,
}

impl<'p> Model for Wallet<'p> {
    ghost use Rattle.step_purse.specs.Passes.{PassState, IsPassOf};

    ghost Value = { PassState };

    ghost view = { λ w. w.pass };

    ghost invariant = { λ w. IsPassOf w.purse.now w.pass };
}

impl<'p> Wallet<'p> {
    /// A budget that is this pass of this purse.
    pub fn new(purse: &'p Purse, pass: Pass) -> Self
        requires own { IsPassOf purse.now pass }
        ensures { result ≡ pass }
    {
        Wallet { purse, pass }
    }

    /// The pass.
    pub fn into_pass(self) -> Pass
        ensures { result ≡ self.entry }
    {
        self.pass
    }
}

impl Steps for Wallet<'_> {
    ghost use Rattle.step_budget.specs.Drawing.{Draws};

    ghost leads = { Draws };

    ghost owes = { λ w. w.known.owes };

    fn reserve<H: Wait>(&mut self, rt: &H, amount: u64) -> Reply {
        self.purse.reserve(rt, &mut self.pass, amount)
    }

    fn settle<H: Wait>(&mut self, rt: &H, amount: u64, spent: u64) {
        self.purse.settle(rt, &mut self.pass, amount, spent)
    }

    fn totals<H: Wait>(&mut self, rt: &H) -> Totals {
        self.purse.totals(rt, &mut self.pass)
    }

    fn owed(&self) -> u64 {
        self.pass.owed()
    }
}
