//! Races replayed, and boards run by real threads.
ghost use Rattle.std.specs.Prelude.{◌≡◌, ◌≤◌, ◌<◌, ◌^◌, ℕ, IfOk, All, Some, slice_get, sum, vec_len};
ghost use Rattle.race_board.specs.Race.{IsSeatOf, IsDrained, MayDrawAt, SeatState, fresh_worker};

use race_board::{Board, BoardSeat, Race, RaceEvent, Totals, replay};
use std::alloc::{AllocError, Global};
use std::test::Fail;
use std::thread;
use std::thread::{Builder, Threads};

mod joined;

const NOTHING: Totals = Totals {
    draws: 0,
    spent: 0,
    count: 0,
    recorded: 0,
};

/// A board for chunks of these prices, and a seat for each worker.
fn open(
    alloc: Global,
    prices: &Vec<u64>,
    workers: u64,
) -> Result<(Board, Vec<BoardSeat>), AllocError>
    requires workers { (0 < workers) × (workers ≤ 64) }
    requires prices { sum prices.now.items ≤ 2 ^ 62 }
    ensures board { IfOk result (λ r. (r.0.prices ≡ prices.now.items) × (r.0.workers ≡ workers)) }
    ensures seats { IfOk result (λ r. vec_len r.1 ≡ workers) }
    ensures ready { IfOk result (λ r. All (MayDrawAt r.0) r.1.items) }
    ensures fresh { IfOk result (λ r. (k : ℕ) (s : SeatState) → slice_get r.1.items k ≡ Some s → s.worker ≡ fresh_worker k) }
{
    Board::open(alloc, prices.as_slice(), workers)
}

#[test]
fn two_workers_over_two_chunks(rt: HostRuntime) -> Result<(), Fail> {
    let prices = vec![in rt.alloc(); 3u64, 3]?;
    let events = [
        RaceEvent::Draw(0),
        RaceEvent::Draw(1),
        RaceEvent::Complete(1, 1, 3),
        RaceEvent::Draw(1),
        RaceEvent::Complete(0, 0, 2),
        RaceEvent::Draw(0),
    ];
    let race = replay(rt.alloc(), prices, 2, &events)?;
    assert_eq!(rt; race.count(), 4);
    assert_eq!(rt; race.spent(), 5);
    assert!(rt; race.drained(0) && race.drained(1) && !race.drained(2));
    assert_eq!(rt; race.done(0), Some((0, 2)));
    assert_eq!(rt; race.done(1), Some((1, 3)));
    assert_eq!(rt; race.done(2), None);
    Ok(())
}

#[test]
fn events_that_do_not_apply(rt: HostRuntime) -> Result<(), Fail> {
    let prices = vec![in rt.alloc(); 3u64, 3]?;
    let events = [
        RaceEvent::Draw(0),
        RaceEvent::Complete(0, 0, 4),
        RaceEvent::Fail(0, 0, 4),
        RaceEvent::Complete(0, 1, 1),
        RaceEvent::Draw(0),
        RaceEvent::Draw(2),
        RaceEvent::Complete(1, 0, 1),
    ];
    let race = replay(rt.alloc(), prices, 2, &events)?;
    assert_eq!(rt; race.count(), 1);
    assert_eq!(rt; race.spent(), 0);
    assert_eq!(rt; race.holds(0), Some(0));
    assert_eq!(rt; race.holds(1), None);
    assert_eq!(rt; race.done(0), None);
    Ok(())
}

#[test]
fn a_worker_that_failed_draws_no_more(rt: HostRuntime) -> Result<(), Fail> {
    let prices = vec![in rt.alloc(); 3u64, 3]?;
    let events = [
        RaceEvent::Draw(1),
        RaceEvent::Fail(1, 0, 2),
        RaceEvent::Draw(1),
        RaceEvent::Draw(0),
    ];
    let race = replay(rt.alloc(), prices, 2, &events)?;
    assert_eq!(rt; race.count(), 2);
    assert_eq!(rt; race.spent(), 2);
    assert_eq!(rt; race.failed(1), Some((0, 2)));
    assert_eq!(rt; race.failed(0), None);
    assert_eq!(rt; race.holds(0), Some(1));
    assert!(rt; !race.drained(1));
    Ok(())
}

/// A worker that draws until it is told the end, and completes each chunk with its price.
fn draw_all(board: &Board, prices: &[u64], seat: BoardSeat) -> BoardSeat
    requires ready { MayDrawAt board.now seat }
    requires prices { prices.now ≡ board.now.prices }
    ensures own { IsSeatOf board.now result }
    ensures end { IsDrained result.worker }
{
    let mut seat = seat;
    let mut next = 0;
    while let Some(chunk) = board.draw(&mut seat) {
        board.complete(&mut seat, chunk, prices[chunk as usize]);
        next = chunk + 1;
    }
    seat
}

/// The seats after each of their workers, one after another, drew until it was told the end.
fn draw_each(
    alloc: Global,
    board: &Board,
    prices: &[u64],
    seats: Vec<BoardSeat>,
) -> Result<Vec<BoardSeat>, AllocError>
    requires ready { All (MayDrawAt board.now) seats.items }
    requires prices { prices.now ≡ board.now.prices }
    ensures { IfOk result (λ v. All (IsSeatOf board.now) v.items) }
{
    let mut drained = Vec::new(alloc);
    for seat in seats {
        drained.push(draw_all(board, prices, seat))?;
    }
    Ok(drained)
}

/// What a board answers for so many chunks of price 1 when each of its workers, in a thread of its
/// own, was told the end.
fn raced<R: Threads + Sync>(
    rt: &R,
    alloc: Global,
    chunks: u32,
    workers: u64,
) -> Result<Totals, AllocError>
    requires { (0 < workers) × (workers ≤ 64) }
{
    let prices = vec![in alloc; 1u64; chunks as usize]?;
    let (board, seats) = open(alloc, &prices, workers)?;
    let seats = thread::map_vec(
        rt,
        seats,
        &|seat: BoardSeat| -> BoardSeat
            requires { MayDrawAt board seat × (prices.items ≡ board.prices) }
            ensures { IsSeatOf board result }
        { draw_all(&board, prices.as_slice(), seat) },
    )?;
    Ok(board.close(seats))
}

#[test]
fn two_threads_over_a_thousand_chunks(rt: HostRuntime) -> Result<(), Fail> {
    let totals = raced(&rt, rt.alloc(), 1000, 2)?;
    assert_eq!(rt;
        totals,
        Totals {
            draws: 1000,
            spent: 1000,
            count: 1002,
            recorded: 1000
        }
    );
    Ok(())
}

#[test]
fn sixty_four_threads_over_few_and_many_chunks(rt: HostRuntime) -> Result<(), Fail> {
    for chunks in [1u32, 3, 64, 10_000] {
        let totals = raced(&rt, rt.alloc(), chunks, 64)?;
        assert_eq!(rt;
            totals,
            Totals {
                draws: u64::from(chunks),
                spent: u64::from(chunks),
                count: u64::from(chunks) + 64,
                recorded: u64::from(chunks)
            }
        );
    }
    Ok(())
}

/// A seat is lost while its worker holds a chunk: the others draw the rest, and the board closes
/// with what they drew and spent.
#[test]
fn a_board_closed_with_a_seat_lost(rt: HostRuntime) -> Result<(), Fail> {
    let prices = vec![in rt.alloc(); 1u64; 10]?;
    let (board, mut seats) = open(rt.alloc(), &prices, 3)?;
    let Some(mut lost) = seats.pop() else {
        unreachable!()
    };
    assert_eq!(rt; board.draw(&mut lost), Some(0));
    drop(lost);
    let left = draw_each(rt.alloc(), &board, prices.as_slice(), seats)?;
    assert_eq!(rt; left.len(), 2);
    assert_eq!(rt;
        board.close(left),
        Totals {
            draws: 9,
            spent: 9,
            count: 12,
            recorded: 9
        }
    );
    Ok(())
}

/// A thread whose stack no machine has can't start, and the seat that was to go there is lost: the
/// other worker draws all chunks, and the board says that nothing else was drawn or spent.
#[test]
fn a_seat_lost_with_a_refused_thread(rt: HostRuntime) -> Result<(), Fail> {
    let prices = vec![in rt.alloc(); 1u64; 10]?;
    let (board, mut seats) = open(rt.alloc(), &prices, 2)?;
    let Some(lost) = seats.pop() else {
        unreachable!()
    };
    let started = Builder::new().stack_size(1 << 60).spawn(&rt, move || lost);
    assert!(rt; started.is_err());
    drop(started);
    let left = draw_each(rt.alloc(), &board, prices.as_slice(), seats)?;
    assert_eq!(rt; left.len(), 1);
    let totals = board.close(left);
    let want = Totals {
        draws: 10,
        spent: 10,
        count: 11,
        recorded: 10,
    };
    assert_eq!(rt; totals, want);
    Ok(())
}

/// A worker whose seat is lost had completed a chunk: the board still tells its draw and its steps.
#[test]
fn what_a_lost_seat_recorded(rt: HostRuntime) -> Result<(), Fail> {
    let prices = vec![in rt.alloc(); 3u64, 5]?;
    let (board, mut seats) = open(rt.alloc(), &prices, 2)?;
    let Some(mut lost) = seats.pop() else {
        unreachable!()
    };
    assert_eq!(rt; board.draw(&mut lost), Some(0));
    board.complete(&mut lost, 0, 2);
    drop(lost);
    let want = Totals {
        draws: 0,
        spent: 0,
        count: 1,
        recorded: 2,
    };
    assert_eq!(rt; board.close(seats), want);
    Ok(())
}

#[test]
fn a_board_closed_with_no_seats(rt: HostRuntime) -> Result<(), Fail> {
    let prices = vec![in rt.alloc(); 1u64; 10]?;
    let (board, seats) = open(rt.alloc(), &prices, 2)?;
    assert_eq!(rt; seats.len(), 2);
    assert_eq!(rt; board.close(Vec::new(rt.alloc())), NOTHING);
    Ok(())
}

#[test]
fn a_board_with_no_prices(rt: HostRuntime) -> Result<(), Fail> {
    let (board, mut seats) = open(rt.alloc(), &Vec::new(rt.alloc()), 2)?;
    let Some(mut seat) = seats.pop() else {
        unreachable!()
    };
    assert_eq!(rt; board.draw(&mut seat), None);
    seats.push(seat)?;
    assert_eq!(rt; seats.len(), 2);
    assert_eq!(rt;
        board.close(seats),
        Totals {
            draws: 0,
            spent: 0,
            count: 1,
            recorded: 0
        }
    );
    Ok(())
}

#[test]
fn a_chunk_that_fails_charges_its_steps(rt: HostRuntime) -> Result<(), Fail> {
    let prices = vec![in rt.alloc(); 3u64, 5]?;
    let (board, mut seats) = open(rt.alloc(), &prices, 1)?;
    let Some(mut seat) = seats.pop() else {
        unreachable!()
    };
    assert_eq!(rt; board.draw(&mut seat), Some(0));
    board.complete(&mut seat, 0, 2);
    assert_eq!(rt; board.draw(&mut seat), Some(1));
    board.fail(&mut seat, 1, 4);
    seats.push(seat)?;
    assert_eq!(rt;
        board.close(seats),
        Totals {
            draws: 2,
            spent: 6,
            count: 2,
            recorded: 6
        }
    );
    Ok(())
}

// Run these two also with each allocation refused in turn, by `rt try --test --fail-alloc N` for N
// from 1 on: a call that is refused leaves nothing behind, and the next one answers in full.

#[test]
fn open_with_each_allocation_refused(rt: HostRuntime) -> Result<(), Fail> {
    let (board, seats) = match open_with_two_prices(rt.alloc()) {
        Ok(opened) => opened,
        Err(AllocError) => open_with_two_prices(rt.alloc())?,
    };
    assert_eq!(rt; seats.len(), 64);
    assert_eq!(rt; board.close(seats), NOTHING);
    Ok(())
}

#[test]
fn replay_with_each_allocation_refused(rt: HostRuntime) -> Result<(), Fail> {
    let race = match replay_one_completion(rt.alloc()) {
        Ok(race) => race,
        Err(AllocError) => replay_one_completion(rt.alloc())?,
    };
    assert_eq!(rt; race.count(), 1);
    assert_eq!(rt; race.done(0), Some((0, 2)));
    Ok(())
}

fn open_with_two_prices(alloc: Global) -> Result<(Board, Vec<BoardSeat>), AllocError>
    ensures { IfOk result (λ r. All (IsSeatOf r.0) r.1.items) }
{
    open(alloc, &vec![in alloc; 3u64, 5]?, 64)
}

fn replay_one_completion(alloc: Global) -> Result<Race, AllocError> {
    let events = [RaceEvent::Draw(0), RaceEvent::Complete(0, 0, 2)];
    replay(alloc, vec![in alloc; 3u64, 5]?, 64, &events)
}
