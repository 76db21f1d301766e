//! A race, event by event, with no thread.
ghost use Rattle.std.specs.Prelude.{◌≡◌, ◌^◌, ◌<◌, ◌≤◌, sum, slice_get, Some, option_and_then, IsTrue, IfOk, OnOk, OnErr, IfSome, IfNone, ◌↔◌, option_map};
ghost use Rattle.race_board.specs.Race.{
  Worker,
  total_of,
  steps_of,
  times_completed,
  start,
  after_event,
  replayed,
  IsLawful,
  AreInPlace,
  IsDrained,
  IfThere,
  IsCompletedBy,
  chunk_held,
  failure,
};
ghost use Rattle.race_board.specs.inner.Race.{may_record_by};

use crate::event::RaceEvent;
use crate::worker::WorkerRecord;
use crate::worker_state::WorkerState;
use std::alloc::{AllocError, Global};
use std::marker::Model;

/// A race so far. Contracts see it as a `RaceState` of `specs/Race.antt`.
#[derive(Drop)]
pub struct Race {
    prices: Vec<u64>,
    count: u64,
    spent: u64,
    workers: Vec<WorkerRecord>,
}

impl Model for Race {
    ghost use Rattle.std.specs.Prelude.{◌≡◌};
    ghost use Rattle.race_board.specs.Race.{RaceState, race, total_of, steps_of};
    ghost use Rattle.race_board.specs.inner.Balance.{IsRun};

    ghost Value = { RaceState };

    ghost view = { λ r. race r.prices.items r.count r.workers.items };

    ghost invariant = { λ r. IsRun (race r.prices.items r.count r.workers.items) × (r.spent ≡ total_of steps_of r.workers.items) };
}

/// The race of these workers over chunks of these prices, after these events, from the first on. An
/// event that doesn't apply, or is of a worker not below `workers`, leaves the race as it is.
pub fn replay(
    alloc: Global,
    prices: Vec<u64>,
    workers: u64,
    events: &[RaceEvent],
) -> Result<Race, AllocError>
    requires workers { (0 < workers) × (workers ≤ 64) }
    requires prices { sum prices.items ≤ 2 ^ 62 }
    ensures replayed { IfOk result (λ r. r ≡ replayed prices.items workers events.now) }
    ensures lawful { IfOk result (λ r. IsLawful r.prices r.count r.workers) }
    ensures in_place { IfOk result (λ r. AreInPlace r.workers) }
{
    let mut race = Race::start(alloc, prices, workers)?;
    for event in events {
        race.apply(*event)?;
    }
    Ok(race)
}

impl Race {
    fn start(alloc: Global, prices: Vec<u64>, workers: u64) -> Result<Race, AllocError>
        requires { sum prices.items ≤ 2 ^ 62 }
        ensures { IfOk result (λ r. r ≡ start prices.items workers) }
    {
        let mut records = Vec::with_capacity(alloc, workers as usize)?;
        for number in 0..workers {
            records.push(WorkerRecord::new(alloc, number))?;
        }
        Ok(Race {
            prices,
            count: 0,
            spent: 0,
            workers: records,
        })
    }

    fn apply(&mut self, event: RaceEvent) -> Result<(), AllocError>
        ensures ok { OnOk result (self.new ≡ after_event self.old event) }
        ensures err { OnErr result (self.new ≡ self.old) }
    {
        match event {
            RaceEvent::Draw(worker) => self.draw(worker),
            RaceEvent::Complete(worker, chunk, steps) => self.complete(worker, chunk, steps)?,
            RaceEvent::Fail(worker, chunk, steps) => self.fail(worker, chunk, steps),
        }
        Ok(())
    }

    fn draw(&mut self, worker: u64)
        ensures { self.new ≡ after_event self.old (RaceEvent.Draw worker) }
    {
        if worker >= self.workers.len() as u64 {
            return;
        }
        let nth = worker as usize;
        let WorkerState::Free = self.workers[nth].state() else {
            return;
        };
        let chunks = self.prices.len() as u64;
        self.workers[nth].draw(self.count, chunks);
        self.count += 1;
    }

    fn complete(&mut self, worker: u64, chunk: u64, steps: u64) -> Result<(), AllocError>
        ensures ok { OnOk result (self.new ≡ after_event self.old (RaceEvent.Complete worker chunk steps)) }
        ensures err { OnErr result (self.new ≡ self.old) }
    {
        if self.may_record(worker, chunk, steps) {
            self.workers[worker as usize].complete(chunk, steps)?;
            self.spent += steps;
        }
        Ok(())
    }

    fn fail(&mut self, worker: u64, chunk: u64, steps: u64)
        ensures { self.new ≡ after_event self.old (RaceEvent.Fail worker chunk steps) }
    {
        if self.may_record(worker, chunk, steps) {
            self.workers[worker as usize].fail(chunk, steps);
            self.spent += steps;
        }
    }

    /// Says whether the worker holds the chunk and the steps are at most its price.
    fn may_record(&self, worker: u64, chunk: u64, steps: u64) -> bool
        ensures { result ≡ may_record_by self.now.prices chunk steps (slice_get self.now.workers worker) }
    {
        if worker >= self.workers.len() as u64 {
            return false;
        }
        let WorkerState::Holds(held) = self.workers[worker as usize].state() else {
            return false;
        };
        held == chunk && steps <= self.prices[held as usize]
    }

    /// How often a worker drew, and got a chunk or was told the end.
    pub fn count(&self) -> u64
        ensures { result ≡ self.now.count }
    {
        self.count
    }

    /// The sum of the steps that were recorded.
    pub fn spent(&self) -> u64
        ensures { result ≡ total_of steps_of self.now.workers }
    {
        self.spent
    }

    /// The chunk that the worker holds, if it is there and holds one.
    pub fn holds(&self, worker: u64) -> Option<u64>
        ensures { result ≡ option_and_then chunk_held (slice_get self.now.workers worker) }
    {
        match self.state(worker) {
            Some(WorkerState::Holds(chunk)) => Some(chunk),
            _ => None,
        }
    }

    /// The worker that completed the chunk, with its steps.
    pub fn done(&self, chunk: u64) -> Option<(u64, u64)>
        ensures found { IfSome result (λ r. IsCompletedBy self.now.workers chunk r.0 r.1) }
        ensures none { IfNone result (total_of (times_completed chunk) self.now.workers ≡ 0) }
    {
        for record in &self.workers {
            if let Some(steps) = record.steps_of(chunk) {
                return Some((record.number(), steps));
            }
        }
        None
    }

    /// The chunk that the worker failed, with its steps, if it is there and failed one.
    pub fn failed(&self, worker: u64) -> Option<(u64, u64)>
        ensures { result ≡ option_and_then failure (slice_get self.now.workers worker) }
    {
        match self.state(worker) {
            Some(WorkerState::Failed(chunk, steps)) => Some((chunk, steps)),
            _ => None,
        }
    }

    /// Says whether the worker is there and was told the end.
    pub fn drained(&self, worker: u64) -> bool
        ensures { IsTrue result ↔ IfThere IsDrained (slice_get self.now.workers worker) }
    {
        matches!(self.state(worker), Some(WorkerState::Drained))
    }

    fn state(&self, worker: u64) -> Option<WorkerState>
        ensures { result ≡ option_map (λ (w : Worker). w.state) (slice_get self.now.workers worker) }
    {
        if worker < self.workers.len() as u64 {
            Some(self.workers[worker as usize].state())
        } else {
            None
        }
    }
}
