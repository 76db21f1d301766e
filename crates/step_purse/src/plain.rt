//! The purse of one thread. The shared purse computes each call with it, and its contracts are
//! stated in terms of it.
ghost use Rattle.std.specs.Prelude.{◌≡◌, ◌^◌, ◌≤◌};
ghost use Rattle.step_purse.specs.Plain.{opened, total, reply_to, after, IsReplyTo};
ghost use Rattle.step_purse.specs.declared.dealings.Dealing.TheVariants.{Reserved, Settled};
ghost use Rattle.step_purse.specs.declared.dealings.Totals.{Totals};

use crate::dealings::{Reply, Totals};
use std::marker::Model;

/// The greatest allowance of a purse. No sum of its steps exceeds it.
pub const GREATEST_ALLOWANCE: u64 = 1 << 62;

/// A purse that one thread has for itself. A contract sees its totals.
#[derive(Drop)]
pub struct PlainPurse {
    left: u64,
    reserved: u64,
    spent: u64,
}

impl Model for PlainPurse {
    ghost Value = { Totals };

    ghost view = { λ p. record { left = p.left; reserved = p.reserved; spent = p.spent } };

    ghost invariant = { λ p. total (record { left = p.left; reserved = p.reserved; spent = p.spent }) ≤ 2 ^ 62 };
}

impl PlainPurse {
    /// A purse of this allowance, of which nothing is reserved or spent yet.
    pub fn open(allowance: u64) -> PlainPurse
        requires { allowance ≤ 2 ^ 62 }
        ensures { result ≡ opened allowance }
    {
        PlainPurse {
            left: allowance,
            reserved: 0,
            spent: 0,
        }
    }

    /// A purse with these totals.
    pub fn at(totals: Totals) -> PlainPurse
        requires { total totals ≤ 2 ^ 62 }
        ensures { result ≡ totals }
    {
        let Totals {
            left,
            reserved,
            spent,
        } = totals;
        PlainPurse {
            left,
            reserved,
            spent,
        }
    }

    /// Moves the amount from left to reserved, or changes nothing if less is left.
    pub fn reserve(&mut self, amount: u64) -> Reply
        ensures amount { IsReplyTo amount result }
        ensures reply { result ≡ reply_to self.old amount }
        ensures leaves { self.new ≡ after self.old (Reserved amount result) }
    {
        // Before any change: a refusal leaves the purse as it was.
        if amount > self.left {
            return Reply::NotEnough(self.left);
        }
        self.left -= amount;
        // The three words add up to the allowance, so no sum can overflow.
        self.reserved += amount;
        Reply::Took(amount)
    }

    /// Takes the amount from reserved, adds `spent` to spent and the rest to left.
    pub fn settle(&mut self, amount: u64, spent: u64)
        requires spent { spent ≤ amount }
        requires reserved { amount ≤ self.old.reserved }
        ensures { self.new ≡ after self.old (Settled amount spent) }
    {
        self.reserved -= amount;
        self.spent += spent;
        // What wasn't spent is free again.
        self.left += amount - spent;
    }

    /// The totals.
    pub fn totals(&self) -> Totals
        ensures now { result ≡ self.now }
        ensures bounded { total result ≤ 2 ^ 62 }
    {
        Totals {
            left: self.left,
            reserved: self.reserved,
            spent: self.spent,
        }
    }
}
