//! The purse that threads share, and its passes.
ghost use Rattle.std.specs.Prelude.{◌≡◌, ◌≤◌, ◌^◌, [], IfOk};
ghost use Rattle.step_purse.specs.Shares.{whole, half, IsWhole};
ghost use Rattle.step_purse.specs.Histories.{newcomer, gives_half, Joins};
ghost use Rattle.step_purse.specs.Plain.{total, IsReplyTo};
ghost use Rattle.step_purse.specs.Passes.{IsPassOf, Calls};
ghost use Rattle.step_purse.specs.declared.dealings.Dealing.TheVariants.{Reserved, Settled, Observed};

use crate::account::Account;
use crate::dealings::{Reply, Totals};
use crate::rule::Seat;
use std::alloc::{AllocError, Global};
use std::marker::Model;
use std::sync::Wait;

/// A right to call one purse, for one caller at a time. Contracts see it as a `PassState` of
/// `specs/Passes.antt`: it knows which calls are its own, what it owes, and how much of the purse
/// is its own.
#[derive(Drop)]
pub struct Pass {
    seat: Seat,
    // What a pass knows exists in contracts alone, so this number is stored too.
    owed: u64,
}

impl Model for Pass {
    ghost use Rattle.std.specs.Prelude.{◌≡◌};
    ghost use Rattle.crossbeam_utils.specs.Seq.{cell_view};
    ghost use Rattle.step_purse.specs.Passes.{PassState};
    ghost use Rattle.step_purse.specs.Rule.{MayCall};

    ghost Value = { PassState };

    ghost view = { λ p. record {
      purse = p.seat.table_id;
      allowance = (cell_view p.seat).allowance;
      known = (cell_view p.seat).known;
    } };

    ghost invariant = { λ p. MayCall (cell_view p.seat) × (p.owed ≡ (cell_view p.seat).known.owes) };
}

/// A purse of steps that threads share: what is left, reserved and spent of one allowance.
/// Contracts see it as a `PurseState` of `specs/Passes.antt`.
#[derive(Drop)]
pub struct Purse {
    account: Account,
}

impl Model for Purse {
    ghost use Rattle.step_purse.specs.Passes.{PurseState};

    ghost Value = { PurseState };

    ghost view = { λ p. record { name = p.account.cell.table.shared.table_id; allowance = p.account.allowance } };
}

impl Pass {
    /// What this pass has reserved and not yet settled.
    pub fn owed(&self) -> u64
        ensures { result ≡ self.now.known.owes }
    {
        self.owed
    }
}

impl Purse {
    /// A purse of this allowance, with one pass, which has the whole share. This is the only call
    /// that takes memory.
    pub fn open(alloc: Global, allowance: u64) -> Result<(Purse, Pass), AllocError>
        requires { allowance ≤ 2 ^ 62 }
        ensures allowance { IfOk result (λ r. r.0.allowance ≡ allowance) }
        ensures own { IfOk result (λ r. IsPassOf r.0 r.1) }
        ensures nothing_seen { IfOk result (λ r. r.1.known ≡ newcomer [] whole) }
    {
        let (account, seat) = Account::open(alloc, allowance)?;
        Ok((Purse { account }, Pass { seat, owed: 0 }))
    }

    /// Two passes of one, each with half of its share. The first keeps its calls and what it owes.
    /// The second has seen the same, made no call and owes nothing. It takes `rt` as all steps of a
    /// purse do, and never tries twice.
    pub fn split<R: Wait>(&self, _rt: &R, pass: Pass) -> (Pass, Pass)
        requires { IsPassOf self.now pass }
        ensures own { IsPassOf self.now result.0 × IsPassOf self.now result.1 }
        ensures first { result.0.known ≡ gives_half pass.known }
        ensures second { result.1.known ≡ newcomer pass.known.seen (half pass.known.share) }
    {
        let Pass { mut seat, owed } = pass;
        let given = self.account.tell(&mut seat);
        (
            Pass { seat, owed },
            Pass {
                seat: given,
                // The new pass has made no call, so it owes nothing.
                owed: 0,
            },
        )
    }

    /// One pass of two. It has seen what both had seen, made the calls of both, owes what both
    /// owed, and has the shares of both.
    pub fn join<R: Wait>(&self, rt: &R, first: Pass, second: Pass) -> Pass
        requires first { IsPassOf self.now first }
        requires second { IsPassOf self.now second }
        ensures own { IsPassOf self.now result }
        ensures joined { Joins self.now.allowance first.known second.known result.known }
    {
        let Pass { seat, owed } = first;
        let Pass {
            seat: other,
            owed: more,
        } = second;
        let seat = self.account.gather(rt, seat, other);
        Pass {
            seat,
            // What all passes owe is at most the allowance, so the sum fits.
            owed: owed + more,
        }
    }

    /// Moves the amount from left to reserved, or changes nothing if less is left. If another call
    /// came between, it tries again.
    pub fn reserve<R: Wait>(&self, rt: &R, pass: &mut Pass, amount: u64) -> Reply
        requires { IsPassOf self.now pass.old }
        ensures recorded { Calls self.now pass.old (Reserved amount result) pass.new }
        ensures amount { IsReplyTo amount result }
    {
        let reply = self.account.reserve(rt, &mut pass.seat, amount);
        // A refusal is a call, too, but nothing is owed for it.
        if let Reply::Took(taken) = reply {
            pass.owed += taken;
        }
        reply
    }

    /// Takes the amount from reserved, adds `spent` to spent and the rest to left. If another call
    /// came between, it tries again.
    pub fn settle<R: Wait>(&self, rt: &R, pass: &mut Pass, amount: u64, spent: u64)
        requires own { IsPassOf self.now pass.old }
        requires spent { spent ≤ amount }
        requires owed { amount ≤ pass.old.known.owes }
        ensures recorded { Calls self.now pass.old (Settled amount spent) pass.new }
    {
        self.account.settle(rt, &mut pass.seat, amount, spent);
        pass.owed -= amount;
    }

    /// What is left, reserved and spent. To a pass with the whole share, what is reserved is what
    /// it owes.
    pub fn totals<R: Wait>(&self, rt: &R, pass: &mut Pass) -> Totals
        requires { IsPassOf self.now pass.old }
        ensures recorded { Calls self.now pass.old (Observed result) pass.new }
        ensures adds_up { total result ≡ self.now.allowance }
        ensures owed { IsWhole pass.old.known.share → result.reserved ≡ pass.old.known.owes }
    {
        self.account.count(rt, &mut pass.seat)
    }
}
