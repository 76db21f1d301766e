//! Jobs that wait.
ghost use Rattle.std.specs.Prelude.{◌≡◌, ◌≤◌, ◌<◌, ◌+◌, ◌++◌, ◌∷◌, [], ◌↔◌, IsTrue, length};
ghost use Rattle.std.specs.Prelude.{IfOk, OnOk, OnErr};

use crate::columns::Columns;
use crate::plan::{Plan, cut};
use crate::priced::Priced;
use std::alloc::{AllocError, Global};
use std::marker::Model;
use std::mem;

/// How many jobs may wait.
pub const MOST_JOBS: usize = 64;

/// Jobs that wait, in order of submission, up to 64 of them. A contract sees their list.
#[derive(Drop)]
pub struct Queue {
    // For `take`, which allocates the next list.
    alloc: Global,
    jobs: Vec<Priced>,
}

impl Model for Queue {
    ghost use Rattle.std.specs.Prelude.{◌≤◌, List, length, vec_capacity};
    ghost use Rattle.std.specs.List.{AllByRecursion};
    ghost use Rattle.job_plan.specs.Job as is;

    ghost Value = { List is.Job };

    ghost use Rattle.std.specs.Coded.{codes};
    ghost use Rattle.csr_store.specs.Grid.{grid_code};

    ghost coded = { Prim.hlevel (codes, grid_code) };

    ghost use Rattle.job_plan.specs.Refusal.{IsPriced};

    ghost view = { λ q. q.jobs.items };

    ghost invariant = { λ q. AllByRecursion IsPriced q.jobs.items × (length q.jobs.items ≤ 64)
        × (64 ≤ vec_capacity q.jobs) };
}

impl Queue {
    /// No job, with capacity for 64.
    pub fn open(alloc: Global) -> Result<Queue, AllocError>
        ensures { IfOk result (λ q. q ≡ []) }
    {
        Ok(Queue {
            alloc,
            // Here, so that submitting a job can't be refused memory.
            jobs: Vec::with_capacity(alloc, MOST_JOBS)?,
        })
    }

    /// Whether fewer than 64 jobs wait.
    pub fn has_room(&self) -> bool
        ensures { IsTrue result ↔ (length self.now < 64) }
    {
        self.jobs.len() < MOST_JOBS
    }

    /// How many jobs wait.
    pub fn len(&self) -> u64
        ensures len { result ≡ length self.now }
        ensures few { result ≤ 64 }
    {
        self.jobs.len() as u64
    }

    /// The jobs, in order of submission.
    pub fn jobs(&self) -> &[Priced]
        ensures { result.now ≡ self.now }
    {
        &self.jobs
    }

    /// Appends a job, and returns how many wait then. Takes no memory.
    pub fn submit(&mut self, job: Priced) -> u64
        requires { length self.old < 64 }
        ensures jobs { self.new ≡ self.old ++ job ∷ [] }
        ensures number { result ≡ length self.old + 1 }
    {
        // For the prover: what holds of the job is part of what the queue promises.
        job.recall();
        // The capacity is 64 from the start, so the push can't be refused.
        self.jobs.push(job).unwrap();
        self.len()
    }

    /// Forgets the jobs. Takes no memory.
    pub fn clear(&mut self)
        ensures { self.new ≡ [] }
    {
        // Capacity stays.
        self.jobs.clear();
    }

    /// Turns the jobs into a plan, and is then empty, with capacity for 64. The columns that
    /// products are by are copied, each once, as far as that pays and there is memory
    /// ([`Plan::copies`]).
    ///
    /// # Errors
    ///
    /// There is no memory for it. The queue is as before.
    pub fn take(&mut self) -> Result<Plan, AllocError>
        ensures plan { IfOk result (λ p. p ≡ self.old) }
        ensures empty { OnOk result (self.new ≡ []) }
        ensures unchanged { OnErr result (self.new ≡ self.old) }
    {
        // All that can be refused comes before the first change, so a refusal leaves the queue as
        // it was.
        let emptied = Vec::with_capacity(self.alloc, MOST_JOBS)?;
        let chunks = cut(self.alloc, &self.jobs)?;
        let jobs = mem::replace(&mut self.jobs, emptied);
        // Copies can't be refused: a job without one runs as well.
        let columns = Columns::of(self.alloc, &jobs);
        Ok(Plan::new(jobs, chunks, columns))
    }
}
