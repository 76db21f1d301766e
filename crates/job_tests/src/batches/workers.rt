//! Batches on workers in threads: held and counted by gates, alike for every number of workers, and
//! with memory refused.
ghost use Rattle.std.specs.Prelude.{◌≡◌, ◌≤◌, [], IfOk, All};
ghost use Rattle.race_board.specs.Race.{IsSeatOf, MayDrawAt, SeatState};
ghost use Rattle.job_plan.specs.Chunks.{prices_of};

use super::{Task, diagonal, increments, is_incremented, operator, plan_of, put, version};
use bpf_insn::Kind;
use bpf_verify::Operator;
use csr_store::{Builder, Version};
use job_plan::{Form, Plan};
use job_runner::{BatchAnswer, BatchFault, Cause, Gate, Open, open_board, run_batch, work};
use race_board::{BoardSeat, Totals};
use std::alloc::{AllocError, Global};
use std::process::Abort;
use std::sync::atomic::Ordering::SeqCst;
use std::sync::atomic::{AtomicBool, AtomicU64};
use std::sync::{Arc, Wait};
use std::test::Fail;
use std::thread::Threads;
use test_operators::{INCREMENT, MULTIPLY, SUBTRACT};

/// How often a gate looks for the call that it waits for.
const TURNS: u64 = 1_000_000_000;

/// Waits until this is set, and answers whether it was.
fn is_set(flag: &AtomicBool) -> bool {
    for _ in 0..TURNS {
        if flag.load(SeqCst) {
            return true;
        }
    }
    false
}

/// Holds each of two chunks until the other was entered.
#[derive(Drop)]
struct Meeting {
    first: AtomicBool,
    second: AtomicBool,
    late: AtomicBool,
}

impl Meeting {
    fn new() -> Meeting {
        Meeting {
            first: AtomicBool::new(false),
            second: AtomicBool::new(false),
            late: AtomicBool::new(false),
        }
    }
}

impl Gate for Meeting {
    fn enter(&self, chunk: u64) {
        let (own, other) = if chunk == 0 {
            (&self.first, &self.second)
        } else {
            (&self.second, &self.first)
        };
        own.store(true, SeqCst);
        if !is_set(other) {
            self.late.store(true, SeqCst);
        }
    }

    fn leave(&self, _chunk: u64) {}
}

/// Holds chunk 0 until chunks 1, 2 and 3 were left.
#[derive(Drop)]
struct Held {
    first: AtomicBool,
    second: AtomicBool,
    third: AtomicBool,
    late: AtomicBool,
}

impl Held {
    fn new() -> Held {
        Held {
            first: AtomicBool::new(false),
            second: AtomicBool::new(false),
            third: AtomicBool::new(false),
            late: AtomicBool::new(false),
        }
    }
}

impl Gate for Held {
    fn enter(&self, chunk: u64) {
        if chunk == 0 && !(is_set(&self.first) && is_set(&self.second) && is_set(&self.third)) {
            self.late.store(true, SeqCst);
        }
    }

    fn leave(&self, chunk: u64) {
        match chunk {
            1 => self.first.store(true, SeqCst),
            2 => self.second.store(true, SeqCst),
            3 => self.third.store(true, SeqCst),
            _ => {}
        }
    }
}

/// Counts the calls for each chunk.
#[derive(Drop)]
struct Counts {
    entered: Vec<AtomicU64>,
    left: Vec<AtomicU64>,
}

/// So many counters, each at 0.
fn counters(alloc: Global, count: u64) -> Result<Vec<AtomicU64>, AllocError> {
    let mut counters = Vec::new(alloc);
    for _ in 0..count {
        counters.push(AtomicU64::new(0))?;
    }
    Ok(counters)
}

impl Gate for Counts {
    fn enter(&self, chunk: u64) {
        if let Some(count) = self.entered.get(chunk as usize) {
            count.fetch_add(1, SeqCst);
        }
    }

    fn leave(&self, chunk: u64) {
        if let Some(count) = self.left.get(chunk as usize) {
            count.fetch_add(1, SeqCst);
        }
    }
}

/// How many instructions the operator of expensive increments has. A batch of theirs on two chunks
/// or more is worth several workers.
const DEAR: u64 = 1000;

/// The operator that adds one, by so many instructions.
fn dear_increment(alloc: Global) -> Result<Arc<Operator>, AllocError> {
    let mut text = String::new(alloc);
    for _ in 0..DEAR - 3 {
        text.push_str("mov64 r0, r1\n")?;
    }
    text.push_str(INCREMENT)?;
    operator(alloc, Kind::Unary, &text)
}

/// The plan of one job that adds one to each entry of a diagonal by that operator.
fn dear_increments(rt: &impl Abort, alloc: Global, rows: u32) -> Result<Plan, AllocError> {
    let form = Form::Apply {
        operator: dear_increment(alloc)?,
        thunk: None,
        operand: diagonal(alloc, rows)?,
    };
    plan_of(rt, alloc, form)
}

/// Whether the expensive increments of a diagonal run, on so many workers at this gate.
fn runs<H: Threads + Wait + Abort, G: Gate + Sync>(
    rt: &H,
    alloc: Global,
    rows: u32,
    workers: u64,
    gate: &G,
) -> Result<bool, AllocError>
    requires { (1 ≤ workers) × (workers ≤ 64) }
{
    let plan = dear_increments(rt, alloc, rows)?;
    Ok(match run_batch(rt, alloc, &plan, workers, gate) {
        Ok(answer) => is_incremented(&answer, u64::from(rows), DEAR),
        Err(_) => false,
    })
}

#[test]
fn gate_two_workers(rt: HostRuntime) -> Result<(), Fail> {
    let gate = Meeting::new();
    assert!(rt; runs(&rt, rt.alloc(), 512, 2, &gate)?);
    assert!(rt; gate.first.load(SeqCst) && gate.second.load(SeqCst));
    assert!(rt; !gate.late.load(SeqCst));
    Ok(())
}

#[test]
fn gate_draws(rt: HostRuntime) -> Result<(), Fail> {
    let gate = Held::new();
    assert!(rt; runs(&rt, rt.alloc(), 1024, 2, &gate)?);
    assert!(rt; gate.first.load(SeqCst) && gate.second.load(SeqCst) && gate.third.load(SeqCst));
    assert!(rt; !gate.late.load(SeqCst));
    Ok(())
}

/// Whether each counter is at 1.
fn are_once(counters: &[AtomicU64]) -> bool {
    for count in counters {
        if count.load(SeqCst) != 1 {
            return false;
        }
    }
    true
}

/// Counters for the calls of so many chunks.
fn no_calls(alloc: Global, chunks: u64) -> Result<Counts, AllocError> {
    let entered = counters(alloc, chunks)?;
    let left = counters(alloc, chunks)?;
    Ok(Counts { entered, left })
}

#[test]
fn gate_called_once_for_each_chunk(rt: HostRuntime) -> Result<(), Fail> {
    let gate = no_calls(rt.alloc(), 6)?;
    assert!(rt; runs(&rt, rt.alloc(), 1300, 3, &gate)?);
    assert!(rt; are_once(&gate.entered));
    assert!(rt; are_once(&gate.left));
    Ok(())
}

#[test]
fn alike_for_one_three_and_sixty_four_workers(rt: HostRuntime) -> Result<(), Fail> {
    for workers in [1u64, 3, 64] {
        assert!(rt; runs(&rt, rt.alloc(), 600, workers, &Open)?);
    }
    Ok(())
}

/// The seats after a worker at each, one after another.
fn work_each(
    alloc: Global,
    task: Task<'_>,
    seats: Vec<BoardSeat>,
) -> Result<Vec<BoardSeat>, AllocError>
    requires ready { All (MayDrawAt task.board.now) seats.items }
    requires prices { task.board.now.prices ≡ prices_of task.plan.now }
    ensures { IfOk result (λ v. All (IsSeatOf task.entry.board.now) v.items) }
{
    let mut ended = Vec::new(alloc);
    for seat in seats {
        let mut seat = seat;
        let _worked = work(alloc, task.plan, task.board, &mut seat, &Open);
        ended.push(seat)?;
    }
    Ok(ended)
}

/// What a board of 64 seats tells when the increments of 600 rows are done.
const WANTED: Totals = Totals {
    draws: 3,
    spent: 1800,
    count: 67,
    recorded: 1800,
};

#[test]
fn sixty_four_seats_in_turn(rt: HostRuntime) -> Result<(), Fail> {
    let alloc = rt.alloc();
    let plan = increments(&rt, alloc, 600)?;
    let (board, seats) = open_board(alloc, &plan, 64)?;
    let task = Task {
        plan: &plan,
        board: &board,
    };
    let seats = work_each(alloc, task, seats)?;
    assert_eq!(rt; board.close(seats), WANTED);
    Ok(())
}

/// The matrix with 1 down its diagonal.
fn ones(alloc: Global, rows: u32) -> Result<Version, AllocError> {
    let rows = u64::from(rows) % 4096;
    let mut builder = Builder::new(alloc, rows, rows);
    for row in 0..rows {
        put(&mut builder, row, 1)?;
    }
    version(alloc, builder)
}

/// The plan of that matrix times itself.
fn square(rt: &impl Abort, alloc: Global) -> Result<Plan, AllocError> {
    let left = ones(alloc, 256)?;
    let form = Form::Product {
        add: operator(alloc, Kind::Binary, SUBTRACT)?,
        mul: operator(alloc, Kind::Binary, MULTIPLY)?,
        right: Arc::try_clone(&left)?,
        left,
    };
    plan_of(rt, alloc, form)
}

/// Whether the square is itself the matrix with 1 down its diagonal, in three steps a call of
/// `mul`.
fn is_squared(answer: &BatchAnswer) -> bool {
    let Some(square) = answer.results.get(0) else {
        return false;
    };
    for row in 0..256u64 {
        if square.version.get(row, row) != Some(1) {
            return false;
        }
    }
    square.version.entries() == 256 && square.steps == 768
}

/// Whether the answer is that of the square, or of a square that was refused.
fn is_squared_or_refused(answer: &Result<BatchAnswer, BatchFault>) -> bool {
    match answer {
        Ok(answer) => is_squared(answer),
        Err(fault) => fault.cause == Cause::Memory && fault.spent % 3 == 0 && fault.spent <= 768,
    }
}

/// That plan, asked for once more where memory was refused.
fn square_again(rt: &impl Abort, alloc: Global) -> Result<Plan, AllocError> {
    match square(rt, alloc) {
        Ok(plan) => Ok(plan),
        Err(AllocError) => square(rt, alloc),
    }
}

// Run this one also with each allocation refused in turn, by `rt try --test --fail-alloc N` for N
// from 1 on.

#[test]
fn failing_chunk(rt: HostRuntime) -> Result<(), Fail> {
    let alloc = rt.alloc();
    let plan = square_again(&rt, alloc)?;
    let first = run_batch(&rt, alloc, &plan, 1, &Open);
    assert!(rt; is_squared_or_refused(&first));
    let second = run_batch(&rt, alloc, &plan, 1, &Open);
    assert!(rt; is_squared_or_refused(&second));
    assert!(rt; first.is_ok() || second.is_ok());
    Ok(())
}

/// Counts how many chunks were entered and left.
#[derive(Drop)]
struct Passed {
    entered: AtomicU64,
    left: AtomicU64,
}

impl Passed {
    fn new() -> Passed {
        Passed {
            entered: AtomicU64::new(0),
            left: AtomicU64::new(0),
        }
    }
}

impl Gate for Passed {
    fn enter(&self, _chunk: u64) {
        self.entered.fetch_add(1, SeqCst);
    }

    fn leave(&self, _chunk: u64) {
        self.left.fetch_add(1, SeqCst);
    }
}

/// Whether the square's one chunk was left just where it is complete: once where the batch was
/// answered, and never where it failed before its last call.
fn is_left_when_complete(gate: &Passed, answer: &Result<BatchAnswer, BatchFault>) -> bool {
    let entered = gate.entered.load(SeqCst);
    let left = gate.left.load(SeqCst);
    match answer {
        Ok(_) => entered == 1 && left == 1,
        Err(fault) => left == 0 || (left == entered && fault.spent == 768),
    }
}

// Run this one so as well: a chunk that fails is entered and not left.

#[test]
fn gate_left_when_the_chunk_is_complete(rt: HostRuntime) -> Result<(), Fail> {
    let alloc = rt.alloc();
    let plan = square_again(&rt, alloc)?;
    let gate = Passed::new();
    let answer = run_batch(&rt, alloc, &plan, 1, &gate);
    assert!(rt; is_left_when_complete(&gate, &answer));
    Ok(())
}
