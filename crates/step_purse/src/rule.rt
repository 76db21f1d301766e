//! The cell of a purse, its rule, and what each kind of step means.
ghost use Rattle.std.specs.Prelude.{[]};
ghost use Rattle.step_purse.specs.Shares.{whole, half};
ghost use Rattle.step_purse.specs.Rule.{blank, idle};
ghost use Rattle.step_purse.specs.inner.Rule.{Kept, left_behind, giving, asked, exchanged, counted, peeked, learned, joined};

use crate::views::View;
use atomic_table::{Join, Split};
use crossbeam_utils::atomic::seq_cell;
use crossbeam_utils::rule::{Outcome, Protocol};
use std::marker::{Brand, PhantomData};

/// One legal history leads to the words, and each pass knows a beginning of it.
pub struct OneHistory;

impl Protocol<[u64; 3], View> for OneHistory {
    ghost holds = { Kept };

    ghost first = { blank };
}

/// What is left, reserved and spent.
pub type PurseCell = seq_cell::RuledSeqCell<[u64; 3], View, OneHistory, 3>;

/// A right to take steps at a cell.
pub type Seat = seq_cell::Pass<[u64; 3], View>;

/// What the purse was opened with. Its first step picks this, since a step can't look into the
/// cell.
pub trait Allowed {
    ghost use Rattle.std.specs.Prelude.{ℕ};

    ghost allowance: { ℕ };
}

impl Allowed for Brand {
    // A placeholder: each call picks its own (`pick` in its contract).
    ghost allowance = { 0 };
}

/// The amount that a call of `reserve` asks for.
pub trait Asking {
    ghost use Rattle.std.specs.Prelude.{ℕ};

    ghost amount: { ℕ };
}

impl Asking for Brand {
    // A placeholder, as above.
    ghost amount = { 0 };
}

/// The call that an exchange makes, and the words at which it makes it.
pub trait Calling {
    ghost use Rattle.std.specs.Prelude.{ℕ, List};
    ghost use Rattle.step_purse.specs.declared.dealings.Dealing.{Dealing};

    ghost expected: { List ℕ };

    ghost call: { Dealing };
}

impl Calling for Brand {
    ghost use Rattle.std.specs.Prelude.{[]};
    ghost use Rattle.step_purse.specs.declared.dealings.Dealing.TheVariants.{Settled};

    // Placeholders, as above.
    ghost expected = { [] };

    ghost call = { Settled 0 0 };
}

/// Refuse, or Look: a load that refuses a reservation where too little is left.
pub struct Asks<S: Asking>(PhantomData<S>);

impl<S: Asking> Outcome<[u64; 3], View> for Asks<S> {
    ghost then = { asked S.amount };
}

/// Reserve, Settle, or Look: an exchange that makes the call where no other came between.
pub struct Exchanges<S: Calling>(PhantomData<S>);

impl<S: Calling> Outcome<[u64; 3], View> for Exchanges<S> {
    ghost then = { exchanged S.expected S.call };
}

/// Read: a load that returns the totals.
pub struct Counts;

impl Outcome<[u64; 3], View> for Counts {
    ghost then = { counted };
}

/// Look: a load before another try.
pub struct Peeks;

impl Outcome<[u64; 3], View> for Peeks {
    ghost then = { peeked };
}

/// The end of Join: a load that shows a history which begins with what both passes had seen.
pub struct Learns;

impl Outcome<[u64; 3], View> for Learns {
    ghost then = { learned };
}

/// The first step of a cell: it becomes the cell of a purse with this allowance.
pub struct Opens<S: Allowed>(PhantomData<S>);

impl<S: Allowed> Split<View> for Opens<S> {
    ghost left = { λ v. left_behind };

    ghost right = { λ v. idle S.allowance [] whole };
}

/// Split: a new pass has seen the same, and has half of the share.
pub struct Tells;

impl Split<View> for Tells {
    ghost left = { giving };

    ghost right = { λ v. idle v.allowance v.known.seen (half v.known.share) };
}

/// The start of Join: all of a view goes to a new pass, which has not stepped yet.
pub struct Moves;

impl Split<View> for Moves {
    ghost left = { λ v. left_behind };

    ghost right = { λ v. v };
}

/// Join: one pass has the calls of both, and the other is left with nothing.
pub struct Both;

impl Join<View> for Both {
    ghost both = { joined };

    ghost spent = { left_behind };
}
