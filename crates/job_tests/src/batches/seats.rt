//! Workers in threads that share a board, of which one is refused memory, or leaves before the
//! others begin.
ghost use Rattle.std.specs.Prelude.{◌≡◌, ◌≤◌, ◌<◌, vec_len, IfOk, All};
ghost use Rattle.race_board.specs.Race.{IsSeatOf, MayDrawAt};
ghost use Rattle.race_board.specs.declared.worker_state.WorkerState.TheVariants.{Holds};
ghost use Rattle.job_plan.specs.Chunks.{prices_of};

use super::{Task, increments};
use job_plan::Plan;
use job_runner::{Open, Piece, Worked, open_board, work};
use race_board::{Board, BoardSeat, Totals};
use std::alloc::{AllocError, Global};
use std::process::Abort;
use std::test::Fail;
use std::thread::{Threads, join, map_vec};

/// The steps of the three chunks of a diagonal of 600 rows, which are their prices too.
const STEPS: [u64; 3] = [768, 768, 264];

/// A worker that has ended: its seat, and what it did.
#[derive(Drop)]
struct Ended {
    seat: BoardSeat,
    worked: Worked,
}

/// A plan of three chunks with a board for so many workers.
fn open(
    rt: &impl Abort,
    alloc: Global,
    workers: u64,
) -> Result<(Plan, Board, Vec<BoardSeat>), AllocError>
    requires { (0 < workers) × (workers ≤ 64) }
    ensures ready { IfOk result (λ r. All (MayDrawAt r.1) r.2.items) }
    ensures prices { IfOk result (λ r. r.1.prices ≡ prices_of r.0) }
    ensures seats { IfOk result (λ r. vec_len r.2 ≡ workers) }
{
    let plan = increments(rt, alloc, 600)?;
    let (board, seats) = open_board(alloc, &plan, workers)?;
    Ok((plan, board, seats))
}

/// The same, asked for once more where memory was refused.
fn open_again(
    rt: &impl Abort,
    alloc: Global,
    workers: u64,
) -> Result<(Plan, Board, Vec<BoardSeat>), AllocError>
    requires { (0 < workers) × (workers ≤ 64) }
    ensures ready { IfOk result (λ r. All (MayDrawAt r.1) r.2.items) }
    ensures prices { IfOk result (λ r. r.1.prices ≡ prices_of r.0) }
    ensures seats { IfOk result (λ r. vec_len r.2 ≡ workers) }
{
    match open(rt, alloc, workers) {
        Ok(opened) => Ok(opened),
        Err(AllocError) => open(rt, alloc, workers),
    }
}

/// A worker from its seat to its end.
fn work_at(alloc: Global, task: Task<'_>, seat: BoardSeat) -> Ended
    requires ready { MayDrawAt task.board.now seat }
    requires prices { task.board.now.prices ≡ prices_of task.plan.now }
    ensures { IsSeatOf task.entry.board.now result.seat }
{
    let mut seat = seat;
    let worked = work(alloc, task.plan, task.board, &mut seat, &Open);
    Ended { seat, worked }
}

/// Two workers at once, each in a thread of its own.
fn work_both<H: Threads>(
    rt: &H,
    alloc: Global,
    task: Task<'_>,
    first: BoardSeat,
    second: BoardSeat,
) -> (Ended, Ended)
    requires first { MayDrawAt task.board.now first }
    requires second { MayDrawAt task.board.now second }
    requires prices { task.board.now.prices ≡ prices_of task.plan.now }
    ensures { IsSeatOf task.entry.board.now result.0.seat × IsSeatOf task.entry.board.now result.1.seat }
{
    let Task { plan, board } = task;
    join(
        rt,
        move || -> Ended
            requires { MayDrawAt board.now first × (board.now.prices ≡ prices_of plan.now) }
            ensures { IsSeatOf board.entry.now result.seat }
        { work_at(alloc, Task { plan, board }, first) },
        move || -> Ended
            requires { MayDrawAt board.now second × (board.now.prices ≡ prices_of plan.now) }
            ensures { IsSeatOf board.entry.now result.seat }
        { work_at(alloc, Task { plan, board }, second) },
    )
}

/// How often each of the three chunks was completed, with these pieces beside those counted before.
fn count(times: [u64; 3], pieces: &[Piece]) -> [u64; 3] {
    let mut times = times;
    for piece in pieces {
        if let Some(count) = times.get_mut(piece.chunk as usize) {
            *count = count.wrapping_add(1);
        }
    }
    times
}

/// Whether each piece is of one of the three chunks, and took its steps.
fn are_right(pieces: &[Piece]) -> bool {
    for piece in pieces {
        if STEPS.get(piece.chunk as usize) != Some(&piece.steps) {
            return false;
        }
    }
    true
}

/// Whether a worker ended well: all its steps are those of its pieces. One that failed a chunk may
/// have run some of its calls, of three steps each.
fn is_ended_well(worked: &Worked) -> bool {
    let mut steps = 0u64;
    for piece in &worked.pieces {
        steps = steps.wrapping_add(piece.steps);
    }
    let beyond = worked.spent.wrapping_sub(steps);
    are_right(&worked.pieces) && beyond % 3 == 0 && (beyond == 0 || worked.failed && beyond <= 768)
}

/// Whether two workers did all there was to do, or one of them failed one chunk: as the board tells
/// it, and as they do.
fn is_whole_or_refused(totals: Totals, first: &Worked, second: &Worked) -> bool {
    let times = count(count([0; 3], &first.pieces), &second.pieces);
    let done = first.pieces.len().wrapping_add(second.pieces.len());
    let failed = u64::from(first.failed).wrapping_add(u64::from(second.failed));
    totals.draws == 3
        && totals.spent <= 1800
        && totals.spent == first.spent.wrapping_add(second.spent)
        && totals.recorded == totals.spent
        && totals.count == 5u64.wrapping_sub(failed)
        && times.iter().all(|count| *count <= 1)
        && (done as u64).wrapping_add(failed) == 3
        && (failed == 1 || failed == 0 && totals.spent == 1800)
}

// Run this one also with each allocation refused in turn, by `rt try --test --fail-alloc N` for N
// from 1 on.

#[test]
fn two_threads_with_a_seat_each(rt: HostRuntime) -> Result<(), Fail> {
    let (plan, board, mut seats) = open_again(&rt, rt.alloc(), 2)?;
    let Some(first) = seats.pop() else {
        unreachable!()
    };
    let Some(second) = seats.pop() else {
        unreachable!()
    };
    let task = Task {
        plan: &plan,
        board: &board,
    };
    let (first, second) = work_both(&rt, rt.alloc(), task, first, second);
    assert!(rt; is_ended_well(&first.worked));
    assert!(rt; is_ended_well(&second.worked));
    // There is capacity for both seats, so that these take no memory.
    seats.push(first.seat)?;
    seats.push(second.seat)?;
    assert!(rt; is_whole_or_refused(board.close(seats), &first.worked, &second.worked));
    Ok(())
}

/// A worker that was refused memory before any call on its chunk.
fn fail(board: &Board, seat: BoardSeat, chunk: u64) -> BoardSeat
    requires own { IsSeatOf board.now seat }
    requires holds { seat.worker.state ≡ Holds chunk }
    ensures { IsSeatOf board.now result }
{
    let mut seat = seat;
    board.fail(&mut seat, chunk, 0);
    seat
}

/// A worker that fails its chunk, and at once another that works on to its end.
fn fail_and_work<H: Threads>(
    rt: &H,
    alloc: Global,
    task: Task<'_>,
    failing: (BoardSeat, u64),
    working: BoardSeat,
) -> (BoardSeat, Ended)
    requires own { IsSeatOf task.board.now failing.0 }
    requires holds { failing.0.worker.state ≡ Holds failing.1 }
    requires ready { MayDrawAt task.board.now working }
    requires prices { task.board.now.prices ≡ prices_of task.plan.now }
    ensures { IsSeatOf task.entry.board.now result.0 × IsSeatOf task.entry.board.now result.1.seat }
{
    let (seat, chunk) = failing;
    let Task { plan, board } = task;
    join(
        rt,
        move || -> BoardSeat
            requires { IsSeatOf board.now seat × (seat.worker.state ≡ Holds chunk) }
            ensures { IsSeatOf board.entry.now result }
        { fail(board, seat, chunk) },
        move || -> Ended
            requires { MayDrawAt board.now working × (board.now.prices ≡ prices_of plan.now) }
            ensures { IsSeatOf board.entry.now result.seat }
        { work_at(alloc, Task { plan, board }, working) },
    )
}

#[test]
fn one_fails_and_the_other_does_the_rest(rt: HostRuntime) -> Result<(), Fail> {
    let alloc = rt.alloc();
    let (plan, board, mut seats) = open(&rt, alloc, 2)?;
    let Some(mut failing) = seats.pop() else {
        unreachable!()
    };
    let Some(working) = seats.pop() else {
        unreachable!()
    };
    let Some(chunk) = board.draw(&mut failing) else {
        panic!(&rt; "no chunk")
    };
    assert_eq!(rt; chunk, 0);
    let task = Task {
        plan: &plan,
        board: &board,
    };
    let (failed, ended) = fail_and_work(&rt, alloc, task, (failing, chunk), working);
    assert!(rt; !ended.worked.failed && is_ended_well(&ended.worked));
    assert_eq!(rt; count([0; 3], &ended.worked.pieces), [0, 1, 1]);
    seats.push(failed)?;
    seats.push(ended.seat)?;
    let want = Totals {
        draws: 3,
        spent: 768 + 264,
        count: 4,
        recorded: 768 + 264,
    };
    assert_eq!(rt; board.close(seats), want);
    Ok(())
}

/// The seats of workers who were told the end at once, since nothing was left.
fn seats_of(
    rt: &impl Abort,
    alloc: Global,
    board: &Board,
    first: BoardSeat,
    late: Vec<Ended>,
) -> Result<Vec<BoardSeat>, AllocError>
    requires first { IsSeatOf board.now first }
    requires late { All (λ e. IsSeatOf board.now e.seat) late.items }
    ensures { IfOk result (λ v. All (IsSeatOf board.now) v.items) }
{
    let _ = board;
    let mut seats = Vec::new(alloc);
    seats.push(first)?;
    for ended in late {
        assert!(rt; ended.worked.pieces.is_empty() && ended.worked.spent == 0);
        assert!(rt; !ended.worked.failed);
        seats.push(ended.seat)?;
    }
    Ok(seats)
}

/// Workers in threads of their own, one at each of these seats.
fn work_late<H: Threads + Sync>(
    rt: &H,
    alloc: Global,
    task: Task<'_>,
    seats: Vec<BoardSeat>,
) -> Result<Vec<Ended>, AllocError>
    requires ready { All (MayDrawAt task.board.now) seats.items }
    requires prices { task.board.now.prices ≡ prices_of task.plan.now }
    ensures { IfOk result (λ v. All (λ e. IsSeatOf task.entry.board.now e.seat) v.items) }
{
    map_vec(
        rt,
        seats,
        &|seat: BoardSeat| -> Ended
            requires { MayDrawAt task.board.now seat × (task.board.now.prices ≡ prices_of task.plan.now) }
            ensures { IsSeatOf task.entry.board.now result.seat }
        { work_at(alloc, task, seat) },
    )
}

#[test]
fn one_leaves_before_the_other_seats_are_taken(rt: HostRuntime) -> Result<(), Fail> {
    let alloc = rt.alloc();
    let (plan, board, mut seats) = open(&rt, alloc, 64)?;
    let Some(first) = seats.pop() else {
        unreachable!()
    };
    let task = Task {
        plan: &plan,
        board: &board,
    };
    let first = work_at(alloc, task, first);
    assert!(rt; !first.worked.failed && is_ended_well(&first.worked));
    assert_eq!(rt; count([0; 3], &first.worked.pieces), [1, 1, 1]);
    let late = work_late(&rt, alloc, task, seats)?;
    assert_eq!(rt; late.len(), 63);
    let seats = seats_of(&rt, alloc, &board, first.seat, late)?;
    let want = Totals {
        draws: 3,
        spent: 1800,
        count: 67,
        recorded: 1800,
    };
    assert_eq!(rt; board.close(seats), want);
    Ok(())
}
