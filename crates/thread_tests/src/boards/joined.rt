//! A client as a batch is: each worker keeps a list of the chunks that it completed, each with its
//! steps, and the lists are joined. It is proved that each chunk stands in the one list once, with
//! its steps.
ghost use Rattle.std.specs.Prelude.{◌≡◌, ◌<◌, ◌≤◌, ◌%◌, [], length, vec_len, slice_index, IfOk, All};
ghost use Rattle.race_board.specs.Race.{BoardState, SeatState, IsSeatOf, IsDrained, MayDrawAt, workers_of};
ghost use Rattle.race_board.specs.Chunks.{AreEachOnce, CostJust, completed_by, steps_in, sum_below};

use super::open;
use race_board::{Board, BoardSeat, Totals};
use std::alloc::{AllocError, Global};
use std::test::Fail;
use std::thread;
use std::thread::Threads;

/// A worker's seat, and the chunks that it completed, each with its steps.
type Worked = (BoardSeat, Vec<(u64, u64)>);

/// What a chunk costs, which is less than its price of 7.
fn cost(chunk: u64) -> u64
    ensures { result ≡ chunk % 7 }
{
    chunk % 7
}

/// A worker that draws until it is told the end, and completes each chunk with its cost.
fn work(alloc: Global, board: &Board, seat: BoardSeat) -> Result<Worked, AllocError>
    requires ready { MayDrawAt board.now seat × (seat.worker.done ≡ []) }
    requires prices { All (λ p. p ≡ 7) board.now.prices }
    ensures own { IfOk result (λ r. IsSeatOf board.now r.0) }
    ensures drained { IfOk result (λ r. IsDrained r.0.worker) }
    ensures same { IfOk result (λ r. r.0.worker.done ≡ r.1.items) }
    ensures cost { IfOk result (λ r. CostJust (λ c. c % 7) r.1.items) }
{
    let mut seat = seat;
    let mut list = Vec::new(alloc);
    let mut next = 0;
    while let Some(chunk) = board.draw(&mut seat) {
        let steps = cost(chunk);
        list.push((chunk, steps))?;
        board.complete(&mut seat, chunk, steps);
        next = chunk + 1;
    }
    Ok((seat, list))
}

/// The seats of workers who all got on, and their lists joined into one.
fn join(
    alloc: Global,
    board: &Board,
    results: Vec<Result<Worked, AllocError>>,
) -> Result<(Vec<BoardSeat>, Vec<(u64, u64)>), AllocError>
    requires own { All (λ r. IfOk r (λ w. IsSeatOf board.now w.0)) results.items }
    requires drained { All (λ r. IfOk r (λ w. IsDrained w.0.worker)) results.items }
    requires same { All (λ r. IfOk r (λ w. w.0.worker.done ≡ w.1.items)) results.items }
    requires cost { All (λ r. IfOk r (λ w. CostJust (λ c. c % 7) w.1.items)) results.items }
    ensures many { IfOk result (λ r. vec_len r.0 ≡ vec_len results) }
    ensures own { IfOk result (λ r. All (IsSeatOf board.now) r.0.items) }
    ensures drained { IfOk result (λ r. All (λ s. IsDrained s.worker) r.0.items) }
    ensures joined { IfOk result (λ r. completed_by (workers_of r.0.items) ≡ r.1.items) }
    ensures cost { IfOk result (λ r. CostJust (λ c. c % 7) r.1.items) }
{
    let mut results = results;
    let mut seats = Vec::new(alloc);
    let mut joined = Vec::new(alloc);
    while let Some(result) = results.pop() {
        let (seat, list) = result?;
        seats.push(seat)?;
        joined.extend_from_slice(list.as_slice())?;
    }
    Ok((seats, joined))
}

/// So many workers in threads over so many chunks: what the board answers, and all that they
/// completed.
fn race<R: Threads + Sync>(
    rt: &R,
    alloc: Global,
    chunks: u32,
    workers: u64,
) -> Result<(Totals, Vec<(u64, u64)>), AllocError>
    requires { (0 < workers) × (workers ≤ 64) }
    ensures draws { IfOk result (λ r. r.0.draws ≡ chunks) }
    ensures recorded { IfOk result (λ r. r.0.recorded ≡ r.0.spent) }
    ensures each { IfOk result (λ r. AreEachOnce chunks r.1.items) }
    ensures steps { IfOk result (λ r. steps_in r.1.items ≡ r.0.spent) }
    ensures cost { IfOk result (λ r. r.0.spent ≡ sum_below (λ c. c % 7) chunks) }
{
    let prices = vec![in alloc; 7u64; chunks as usize]?;
    let (board, seats) = open(alloc, &prices, workers)?;
    let results = thread::map_vec(
        rt,
        seats,
        &|seat: BoardSeat| -> Result<Worked, AllocError>
            requires ready { MayDrawAt board seat × (seat.worker.done ≡ []) }
            requires prices { All (λ p. p ≡ 7) board.prices }
            ensures own { IfOk result (λ r. IsSeatOf board r.0) }
            ensures drained { IfOk result (λ r. IsDrained r.0.worker) }
            ensures same { IfOk result (λ r. r.0.worker.done ≡ r.1.items) }
            ensures cost { IfOk result (λ r. CostJust (λ c. c % 7) r.1.items) }
        { work(alloc, &board, seat) },
    )?;
    let (seats, joined) = join(alloc, &board, results)?;
    Ok((board.close(seats), joined))
}

/// Closes a board with the seats that are left, whatever their workers did: they spent no more than
/// the prices of all chunks, and no more than all workers together.
fn close_early(board: Board, seats: Vec<BoardSeat>) -> Totals
    requires { All (IsSeatOf board) seats.items }
    ensures priced { result.spent ≤ sum_below (slice_index board.prices) (length board.prices) }
    ensures shared { result.spent ≤ result.recorded }
{
    board.close(seats)
}

#[test]
fn a_worker_that_failed_spent_within_the_prices(rt: HostRuntime) -> Result<(), Fail> {
    let prices = vec![in rt.alloc(); 3u64, 5]?;
    let (board, mut seats) = open(rt.alloc(), &prices, 2)?;
    let Some(mut seat) = seats.pop() else {
        unreachable!()
    };
    assert_eq!(rt; board.draw(&mut seat), Some(0));
    board.fail(&mut seat, 0, 2);
    drop(seats);
    let mut left = Vec::new(rt.alloc());
    left.push(seat)?;
    let want = Totals {
        draws: 1,
        spent: 2,
        count: 1,
        recorded: 2,
    };
    assert_eq!(rt; close_early(board, left), want);
    Ok(())
}

#[test]
fn each_chunk_stands_once_in_the_joined_list(rt: HostRuntime) -> Result<(), Fail> {
    for workers in [1u64, 2, 64] {
        let (totals, joined) = race(&rt, rt.alloc(), 1000, workers)?;
        let mut times = vec![in rt.alloc(); 0u8; 1000]?;
        for (chunk, steps) in &joined {
            assert!(rt; *chunk < 1000);
            assert_eq!(rt; *steps, *chunk % 7);
            if let Some(n) = times.get_mut(*chunk as usize) {
                *n = n.wrapping_add(1);
            }
        }
        assert!(rt; times.iter().all(|n| *n == 1));
        assert_eq!(rt; joined.len(), 1000);
        assert_eq!(rt; totals.spent, 2997);
        assert_eq!(rt; totals.count.wrapping_sub(workers), 1000);
    }
    Ok(())
}
