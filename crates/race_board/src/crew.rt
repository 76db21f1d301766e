//! Workers who share one seat, and what each kind of step does to them.
ghost use Rattle.std.specs.Prelude.{◌≡◌, ◌++◌, ◌≤◌, ℕ, [], length, slice_index};
ghost use mathlib.Core.Option.{none};
ghost use Rattle.atomic_table.specs.Table.{step};
ghost use Rattle.race_board.specs.Race.{fresh_workers, completed, failed, total_of, draws_of, steps_of};
ghost use Rattle.race_board.specs.Rule.{acted};
ghost use Rattle.race_board.specs.inner.Rule.{Draws};
ghost use Rattle.race_board.specs.Crews.{MayDraw, IsAnswer};
ghost use Rattle.race_board.specs.inner.Crews.{HoldsChunk};

use crate::rule::{
    COUNT, CompleteStep, DrawStep, FailStep, JoinStep, JoinedLook, Priced, SPENT, TableSeat, Words,
};
use std::marker::Brand;

/// A seat of a board's words, with what its workers drew and spent so far, so that closing the
/// board has nothing to look up.
#[derive(Drop)]
pub struct Crew {
    pub table_seat: TableSeat,
    pub draws: u64,
    pub spent: u64,
    ghost no_slot: { table_seat.me.1 ≡ [] },
    ghost draws_is: { draws ≡ total_of draws_of table_seat.me.0 },
    ghost spent_is: { spent ≡ total_of steps_of table_seat.me.0 },
}

impl Crew {
    /// Workers who have done nothing yet.
    pub fn new(table_seat: TableSeat) -> Crew
        requires slot { table_seat.me.1 ≡ [] }
        requires fresh { (k : ℕ) × (n : ℕ) × (table_seat.me.0 ≡ fresh_workers k n) }
        ensures { result.table_seat ≡ table_seat }
    {
        Crew {
            table_seat,
            draws: 0,
            spent: 0,
        }
    }

    /// The first worker draws.
    pub fn draw(&mut self, table: &Words, chunks: u64) -> Option<u64>
        requires own { self.old.table_seat.table_id ≡ table.now.shared.table_id }
        requires words { table.now.shared.table_id.words ≡ 2 }
        requires chunks { chunks ≡ length table.now.shared.key.prices.each }
        requires free { MayDraw self.old.table_seat.me.0 }
        ensures own { self.new.table_seat.table_id ≡ self.old.table_seat.table_id }
        ensures drew { IsAnswer table.now.shared.key.prices.each self.old.table_seat.me.0 result
            self.new.table_seat.me.0 }
    {
        // Once the chunks are drawn, each worker adds 1 a last time and draws no more. So the word
        // doesn't wrap.
        let found = draw_at::<Brand>(table, &mut self.table_seat);
        if found < chunks {
            self.draws += 1;
            Some(found)
        } else {
            None
        }
    }

    /// The first worker completes the chunk that it holds.
    pub fn complete(&mut self, table: &Words, chunk: u64, steps: u64)
        requires own { self.old.table_seat.table_id ≡ table.now.shared.table_id }
        requires words { table.now.shared.table_id.words ≡ 2 }
        requires holds { HoldsChunk chunk self.old.table_seat.me.0 }
        requires price { steps ≤ slice_index table.now.shared.key.prices.each chunk }
        ensures own { self.new.table_seat.table_id ≡ self.old.table_seat.table_id }
        ensures completed { self.new.table_seat.me.0 ≡ acted (completed chunk steps) self.old.table_seat.me.0 }
    {
        table
            .shared
            .fetch_add::<CompleteStep>(&mut self.table_seat, SPENT, steps);
        self.spent += steps;
    }

    /// The first worker fails the chunk that it holds.
    pub fn fail(&mut self, table: &Words, chunk: u64, steps: u64)
        requires own { self.old.table_seat.table_id ≡ table.now.shared.table_id }
        requires words { table.now.shared.table_id.words ≡ 2 }
        requires holds { HoldsChunk chunk self.old.table_seat.me.0 }
        requires price { steps ≤ slice_index table.now.shared.key.prices.each chunk }
        ensures own { self.new.table_seat.table_id ≡ self.old.table_seat.table_id }
        ensures failed { self.new.table_seat.me.0 ≡ acted (failed chunk steps) self.old.table_seat.me.0 }
    {
        table
            .shared
            .fetch_add::<FailStep>(&mut self.table_seat, SPENT, steps);
        self.spent += steps;
    }

    /// The crew with the workers of another behind its own.
    pub fn join(self, table: &Words, other: Crew) -> Crew
        requires own { self.table_seat.table_id ≡ table.now.shared.table_id }
        requires other { other.table_seat.table_id ≡ table.now.shared.table_id }
        requires words { table.now.shared.table_id.words ≡ 2 }
        ensures own { result.table_seat.table_id ≡ self.table_seat.table_id }
        ensures both { result.table_seat.me.0 ≡ self.table_seat.me.0 ++ other.table_seat.me.0 }
    {
        let Crew {
            mut table_seat,
            draws,
            spent,
        } = self;
        let Crew {
            table_seat: others,
            draws: more_draws,
            spent: more_spent,
        } = other;
        table.shared.join_seat::<JoinStep>(&mut table_seat, others);
        // Only the proof needs this load: by it the seat learns that its sums fit into a word.
        table.shared.load::<JoinedLook>(&mut table_seat, COUNT);
        Crew {
            table_seat,
            draws: draws + more_draws,
            spent: spent + more_spent,
        }
    }
}

fn draw_at<T: Priced>(table: &Words, table_seat: &mut TableSeat) -> u64
    requires own { table_seat.old.table_id ≡ table.now.shared.table_id }
    requires words { table.now.shared.table_id.words ≡ 2 }
    requires prices { T.prices ≡ table.now.shared.key.prices.each }
    requires free { MayDraw table_seat.old.me.0 }
    ensures own { table_seat.new.table_id ≡ table_seat.old.table_id }
    ensures drew { Draws table.now.shared.key.prices.each
        (step table.now.shared.table_id.slots 0 1 0 none) table_seat.old.me result table_seat.new.me }
{
    table.shared.fetch_add::<DrawStep<T>>(table_seat, COUNT, 1)
}
