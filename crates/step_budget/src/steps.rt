//! The calls that a session makes on its budget.
ghost use Rattle.std.specs.Prelude.{◌≡◌, ◌≤◌, ◌+◌, ℕ};
ghost use Rattle.step_purse.specs.declared.dealings.Dealing.{Dealing};
ghost use Rattle.step_purse.specs.declared.dealings.Dealing.TheVariants.{Reserved, Settled, Observed};
ghost use Rattle.step_purse.specs.Plain.{IsReplyTo};

use std::sync::Wait;
use step_purse::{Reply, Totals};

/// A budget of steps, which a caller reserves and settles.
///
/// Others may draw on the same budget, and a call may wait for them.
pub trait Steps {
    // Which calls, with which replies, lead from one value to another.
    ghost leads: { Self → Dealing → Self → Type 0 };

    // How many steps this caller has reserved and not settled.
    ghost owes: { Self → ℕ };

    /// Reserves an amount of the steps that are left, or nothing if fewer are left.
    fn reserve<H: Wait>(&mut self, rt: &H, amount: u64) -> Reply
        ensures dealt { leads self.old (Reserved amount result) self.new }
        ensures reply { IsReplyTo amount result }
        ensures took { (taken : ℕ) → result ≡ Reply.Took taken → owes self.new ≡ owes self.old + amount }
        ensures unchanged { (left : ℕ) → result ≡ Reply.NotEnough left → owes self.new ≡ owes self.old };

    /// Settles an amount that this caller has reserved: `spent` of it is spent, and the rest is
    /// left again.
    fn settle<H: Wait>(&mut self, rt: &H, amount: u64, spent: u64)
        requires spent { spent ≤ amount }
        requires owed { amount ≤ owes self.old }
        ensures dealt { leads self.old (Settled amount spent) self.new }
        ensures owed { owes self.new + amount ≡ owes self.old };

    /// How many steps are left, reserved and spent.
    fn totals<H: Wait>(&mut self, rt: &H) -> Totals
        ensures dealt { leads self.old (Observed result) self.new }
        ensures owed { owes self.new ≡ owes self.old };

    /// How many steps this caller has reserved and not settled.
    fn owed(&self) -> u64
        ensures { result ≡ owes self.now };
}
