//! Batches of jobs on workers.
//!
//! [`run_batch`] runs a plan on workers in threads: they draw chunks from a board, each computes
//! the rows of its chunks ([`work`]), and the rows are joined.
//!
//! The one contract is the batch theorem, `BatchTheorem` of `specs/Theorem.antt`: operators that
//! were accepted are never stuck, and a batch of jobs over them gives each job's matrix and its
//! steps, which are no more than its calls' operators' lengths. `specs/Batch.antt` says what a
//! batch gives, `specs/Chunk.antt` what each chunk gives, by its number, and `specs/Worked.antt`
//! what a worker did at its seat.
//!
//! Read `answer` first, then `chunk` (the work on one chunk), `board`, `task` and `worker` (one
//! worker's chunks), `crew` (workers in threads), `worker_outputs` and `completed_pieces` (what
//! came back of them), `join` (pieces of chunks as matrices of jobs), `size` (how many workers) and
//! `batch`.
#![tactic(auto)]

mod answer;
mod batch;
mod board;
mod chunk;
mod completed_pieces;
mod crew;
mod gate;
mod join;
mod piece;
mod size;
mod task;
mod worker;
mod worker_outputs;

pub use answer::{BatchAnswer, BatchFault, Cause, JobResult};
pub use batch::{run_batch, run_batch_with};
pub use board::open_board;
pub use chunk::{Scratch, SpareScratch, compute};
pub use gate::{Gate, Open};
pub use piece::Piece;
pub use worker::{Worked, work};
