//! The rule of a board's words, and the five kinds of step that keep it: draw, complete, fail,
//! split and join.
ghost use Rattle.std.specs.Prelude.{[], ◌++◌};
ghost use Rattle.race_board.specs.inner.Rule.{IsHeld, everyone, first_of, rest_of, Draws, Completes, Fails, Learns};

use crate::race_key::RaceKey;
use crate::worker::WorkerRecord;
use atomic_table::{Join, Play, Seat, Split, Table, TableRule};
use std::alloc::Global;
use std::collections::LinkedList;
use std::marker::{Brand, PhantomData};

/// What a seat knows: the records of its workers. No value of it exists.
pub type View = LinkedList<WorkerRecord>;

/// The two words of a board: the count of draws, and the steps spent.
pub type Words = Table<u8, View, RaceKey, BoardRule, Global>;

/// A seat of the words.
pub type TableSeat = Seat<u8, View>;

/// The number of the word that counts the draws.
pub const COUNT: usize = 0;

/// The number of the word that adds up the steps spent.
pub const SPENT: usize = 1;

/// Between any two steps the views share out the workers of one race, of which the words are the
/// count and the steps spent.
pub struct BoardRule;

impl TableRule<u8, View, RaceKey> for BoardRule {
    ghost holds = { IsHeld };

    ghost first = { everyone };
}

/// The prices of a board. A step can't read what the board is about, so a draw picks them here.
pub trait Priced {
    ghost use Rattle.std.specs.Prelude.{ℕ, List};

    ghost prices: { List ℕ };
}

impl Priced for Brand {
    ghost use Rattle.std.specs.Prelude.{[]};

    ghost prices = { [] };
}

/// One is added to the count, and the first worker of the seat gets the number found, or is told
/// the end.
pub struct DrawStep<T: Priced>(PhantomData<T>);

impl<T: Priced> Play<u8, View> for DrawStep<T> {
    ghost then = { Draws T.prices };
}

/// Steps are added to those spent, and the first worker of the seat completes its chunk with them.
pub struct CompleteStep;

impl Play<u8, View> for CompleteStep {
    ghost then = { Completes };
}

/// Steps are added to those spent, and the first worker of the seat fails its chunk with them.
pub struct FailStep;

impl Play<u8, View> for FailStep {
    ghost then = { Fails };
}

/// The first worker goes to a seat of its own.
pub struct SplitStep;

impl Split<View> for SplitStep {
    ghost left = { rest_of };

    ghost right = { first_of };
}

/// A seat takes in the workers of another.
pub struct JoinStep;

impl Join<View> for JoinStep {
    ghost both = { λ v w. v ++ w };

    ghost spent = { [] };
}

/// The load of a join, by which the seat learns that its sums stay in a word.
pub struct JoinedLook;

impl Play<u8, View> for JoinedLook {
    ghost then = { Learns };
}
