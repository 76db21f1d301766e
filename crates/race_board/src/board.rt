//! A board on which workers in threads draw chunks, over two atomic words.
ghost use Rattle.std.specs.Prelude.{◌≡◌, ℕ, ◌+◌, ◌^◌, ◌<◌, ◌≤◌, [], length, sum, slice_get, slice_index, All, Some, IfOk, IfSome, IfNone, vec_len};
ghost use Rattle.race_board.specs.declared.worker_state.WorkerState.TheVariants.{Free, Holds};
ghost use Rattle.race_board.specs.Race.{Worker, SeatState, IsSeatOf, MayDrawAt, IsClosing, IsAboveDraws, fresh_worker, fresh_workers, holding, drained, completed, failed, total_of, draws_of, steps_of, workers_of};
ghost use Rattle.race_board.specs.Naming.{name_of};
ghost use Rattle.race_board.specs.inner.Crews.{IsClosedWith, IsClosed};

use crate::crew::Crew;
use crate::priced_chunks::PricedChunks;
use crate::race_key::{Prices, RaceKey};
use crate::rule::{COUNT, SPENT, SplitStep, TableSeat, Words};
use crate::seat::BoardSeat;
use crate::totals::Totals;
use std::alloc::{AllocError, Global};
use std::marker::Model;

/// A board for up to 64 workers. Each draws the next number by one atomic step, and adds the steps
/// of a chunk by another; nobody waits. Contracts see it as a `BoardState` of `specs/Race.antt`.
#[derive(Drop)]
pub struct Board {
    table: Words,
    chunks: u64,
}

impl Model for Board {
    ghost use Rattle.std.specs.Prelude.{◌≡◌, ◌<◌, ◌^◌, length};
    ghost use Rattle.race_board.specs.Race.{BoardState};
    ghost use Rattle.race_board.specs.Naming.{name_of};

    ghost Value = { BoardState };

    ghost view = { λ b. record {
      name = name_of b.table.shared.table_id;
      prices = b.table.shared.key.prices.each;
      workers = b.table.shared.key.workers;
    } };

    ghost invariant = { λ b. (b.table.shared.table_id.words ≡ 2) × (b.table.shared.table_id.slots ≡ 0) ×
        (b.chunks ≡ length b.table.shared.key.prices.each) × (length b.table.shared.key.prices.each < 2 ^ 63) };
}

impl Board {
    /// A board for the chunks of these prices, and a seat for each of so many workers, in the order
    /// of their numbers. The prices may add up to 2^62. They are a list, or another value that
    /// contracts read them from.
    pub fn open<P: PricedChunks>(
        alloc: Global,
        prices: P,
        workers: u64,
    ) -> Result<(Board, Vec<BoardSeat>), AllocError>
        requires workers { (0 < workers) × (workers ≤ 64) }
        requires prices { sum (P.prices prices) ≤ 2 ^ 62 }
        ensures board { IfOk result (λ r. (r.0.prices ≡ P.prices prices) × (r.0.workers ≡ workers)) }
        ensures seats { IfOk result (λ r. vec_len r.1 ≡ workers) }
        ensures ready { IfOk result (λ r. All (MayDrawAt r.0) r.1.items) }
        ensures fresh { IfOk result (λ r. (k : ℕ) (s : SeatState) → slice_get r.1.items k ≡ Some s →
            s.worker ≡ fresh_worker k) }
    {
        let chunks = prices.count();
        let race_key = RaceKey {
            prices: Prices::of(prices),
            workers,
        };
        let (table, table_seat) = Words::of_words(alloc, &[0, 0], &race_key)?;
        let seats = deal(&table, alloc, table_seat, workers)?;
        Ok((Board { table, chunks }, seats))
    }

    /// How many chunks there are. A chunk's number is below it, so the number after it is one too.
    pub fn chunks(&self) -> u64
        ensures number { result ≡ length self.now.prices }
        ensures few { length self.now.prices < 2 ^ 63 }
    {
        self.chunks
    }

    /// The worker draws: it gets a chunk, which it holds from then on, or is told the end.
    pub fn draw(&self, seat: &mut BoardSeat) -> Option<u64>
        requires own { IsSeatOf self.now seat.old }
        requires free { seat.old.worker.state ≡ Free }
        ensures own { IsSeatOf self.now seat.new }
        ensures chunk { IfSome result (λ c. (c < length self.now.prices) ×
            (seat.new.worker ≡ holding c seat.old.worker)) }
        ensures few { length self.now.prices < 2 ^ 63 }
        ensures above { IfSome result (λ c. IsAboveDraws seat.old.worker c) }
        ensures end { IfNone result (seat.new.worker ≡ drained seat.old.worker) }
    {
        seat.crew.draw(&self.table, self.chunks)
    }

    /// The worker records the chunk that it holds as complete, with the steps that it took.
    pub fn complete(&self, seat: &mut BoardSeat, chunk: u64, steps: u64)
        requires own { IsSeatOf self.now seat.old }
        requires holds { seat.old.worker.state ≡ Holds chunk }
        requires price { steps ≤ slice_index self.now.prices chunk }
        ensures own { IsSeatOf self.now seat.new }
        ensures completed { seat.new.worker ≡ completed chunk steps seat.old.worker }
    {
        seat.crew.complete(&self.table, chunk, steps);
    }

    /// The worker records the chunk that it holds as failed, with the steps that it took, and draws
    /// no more.
    pub fn fail(&self, seat: &mut BoardSeat, chunk: u64, steps: u64)
        requires own { IsSeatOf self.now seat.old }
        requires holds { seat.old.worker.state ≡ Holds chunk }
        requires price { steps ≤ slice_index self.now.prices chunk }
        ensures own { IsSeatOf self.now seat.new }
        ensures failed { seat.new.worker ≡ failed chunk steps seat.old.worker }
    {
        seat.crew.fail(&self.table, chunk, steps);
    }

    /// Puts an end to the board, with the seats that are left: all, or some where a seat was lost
    /// with its thread, or none.
    pub fn close(self, seats: Vec<BoardSeat>) -> Totals
        requires own { All (IsSeatOf self) seats.items }
        ensures { IsClosing self (workers_of seats.items) result }
    {
        let Board { table, chunks: _ } = self;
        let mut seats = seats;
        let Some(first) = seats.pop() else {
            return end_without_seats(table);
        };
        let all = gather(&table, first, seats);
        end(table, all)
    }
}

// A seat for each worker. `table_seat` has the workers that aren't split off yet, and becomes the
// last one's seat.
fn deal(
    table: &Words,
    alloc: Global,
    table_seat: TableSeat,
    workers: u64,
) -> Result<Vec<BoardSeat>, AllocError>
    requires workers { 0 < workers }
    requires words { table.now.shared.table_id.words ≡ 2 }
    requires own { table_seat.table_id ≡ table.now.shared.table_id }
    requires all { table_seat.me ≡ (fresh_workers 0 workers, []) }
    ensures len { IfOk result (λ v. vec_len v ≡ workers) }
    ensures fresh { IfOk result (λ v. (k : ℕ) (s : SeatState) → slice_get v.items k ≡ Some s →
        (s.board ≡ name_of table.now.shared.table_id) × (s.worker ≡ fresh_worker k)) }
{
    let mut table_seat = table_seat;
    let mut seats = Vec::with_capacity(alloc, workers as usize)?;
    for _worker in 0..workers - 1 {
        let first = table.shared.split_seat::<SplitStep>(&mut table_seat);
        seats.push(BoardSeat {
            crew: Crew::new(first),
        })?;
    }
    seats.push(BoardSeat {
        crew: Crew::new(table_seat),
    })?;
    Ok(seats)
}

// One crew of all these seats' workers.
fn gather(table: &Words, first: BoardSeat, seats: Vec<BoardSeat>) -> Crew
    requires words { table.now.shared.table_id.words ≡ 2 }
    requires first { first.board ≡ name_of table.now.shared.table_id }
    requires own { All (λ s. s.board ≡ name_of table.now.shared.table_id) seats.items }
    ensures own { result.table_seat.table_id ≡ table.now.shared.table_id }
    ensures all { (f : Worker → ℕ) → total_of f result.table_seat.me.0 ≡
        total_of f (workers_of seats.items) + f first.worker }
{
    let BoardSeat { crew } = first;
    let mut all = crew;
    let mut seats = seats;
    while let Some(next) = seats.pop() {
        let BoardSeat { crew } = next;
        all = all.join(table, crew);
    }
    all
}

// Closes the words, which tell what all workers did.
fn end(table: Words, all: Crew) -> Totals
    requires words { table.shared.table_id.words ≡ 2 }
    requires slots { table.shared.table_id.slots ≡ 0 }
    requires own { all.table_seat.table_id ≡ table.shared.table_id }
    ensures draws { result.draws ≡ total_of draws_of all.table_seat.me.0 }
    ensures spent { result.spent ≡ total_of steps_of all.table_seat.me.0 }
    ensures held { IsClosedWith table.shared.key all.table_seat.me.0 result.count result.recorded }
{
    let Crew {
        table_seat,
        draws,
        spent,
    } = all;
    let closed = table.close_with(table_seat);
    let count = closed.word(COUNT);
    let recorded = closed.word(SPENT);
    closed.free();
    Totals {
        draws,
        spent,
        count,
        recorded,
    }
}

// The same where every seat was lost.
fn end_without_seats(table: Words) -> Totals
    requires words { table.shared.table_id.words ≡ 2 }
    requires slots { table.shared.table_id.slots ≡ 0 }
    ensures draws { result.draws ≡ 0 }
    ensures spent { result.spent ≡ 0 }
    ensures held { IsClosed table.shared.key result.count result.recorded }
{
    let closed = table.close();
    let totals = Totals {
        draws: 0,
        spent: 0,
        count: closed.word(COUNT),
        recorded: closed.word(SPENT),
    };
    closed.free();
    totals
}
