//! The record of one worker.
ghost use Rattle.std.specs.Prelude.{◌≡◌, OnOk, OnErr, IfSome, IfNone, Contains};
ghost use Rattle.race_board.specs.Race.{worker, fresh_worker, state_after, completed, failed, times_completed};

use crate::worker_state::WorkerState;
use std::alloc::{AllocError, Global};
use std::marker::Model;

/// What is recorded of a worker: its number, the chunks that it completed, each with its steps, in
/// order, and how it stands. Contracts see it as a `Worker` of `specs/Race.antt`.
#[derive(Drop)]
pub struct WorkerRecord {
    number: u64,
    done: Vec<(u64, u64)>,
    state: WorkerState,
}

impl Model for WorkerRecord {
    ghost use Rattle.race_board.specs.Race.{Worker};

    ghost Value = { Worker };

    ghost view = { λ r. record { number = r.number; done = r.done.items; state = r.state } };
}

impl WorkerRecord {
    /// A worker that has done nothing yet.
    pub fn new(alloc: Global, number: u64) -> Self
        ensures { result ≡ fresh_worker number }
    {
        WorkerRecord {
            number,
            done: Vec::new(alloc),
            state: WorkerState::Free,
        }
    }

    pub fn number(&self) -> u64
        ensures { result ≡ self.now.number }
    {
        self.number
    }

    pub fn state(&self) -> WorkerState
        ensures { result ≡ self.now.state }
    {
        self.state
    }

    /// The steps with which the worker completed the chunk, if it did.
    pub fn steps_of(&self, chunk: u64) -> Option<u64>
        ensures found { IfSome result (λ steps. Contains self.now.done (chunk, steps)) }
        ensures none { IfNone result (times_completed chunk self.now ≡ 0) }
    {
        for (done, steps) in &self.done {
            if *done == chunk {
                return Some(*steps);
            }
        }
        None
    }

    /// The worker drew this number, of so many chunks.
    pub fn draw(&mut self, found: u64, chunks: u64)
        ensures { self.new ≡ worker self.old.number self.old.done (state_after chunks found) }
    {
        self.state = if found < chunks {
            WorkerState::Holds(found)
        } else {
            WorkerState::Drained
        };
    }

    /// The worker completed the chunk with these steps.
    pub fn complete(&mut self, chunk: u64, steps: u64) -> Result<(), AllocError>
        ensures ok { OnOk result (self.new ≡ completed chunk steps self.old) }
        ensures err { OnErr result (self.new ≡ self.old) }
    {
        self.done.push((chunk, steps))?;
        self.state = WorkerState::Free;
        Ok(())
    }

    /// The worker failed the chunk after these steps.
    pub fn fail(&mut self, chunk: u64, steps: u64)
        ensures { self.new ≡ failed chunk steps self.old }
    {
        self.state = WorkerState::Failed(chunk, steps);
    }
}
