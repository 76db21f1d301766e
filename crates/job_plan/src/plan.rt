//! A batch of jobs, cut into chunks.
ghost use Rattle.std.specs.Prelude.{◌≡◌, ◌≤◌, ◌<◌, ◌^◌, ℕ, ◌++◌, length, slice_get, Some, IfOk, OnOk};
ghost use Rattle.std.specs.List.{AllByRecursion};
ghost use Rattle.job_plan.specs.Job as is;
ghost use Rattle.job_plan.specs.Refusal.{IsPriced};
ghost use Rattle.job_plan.specs.Price.{IsWithinPrice};
ghost use Rattle.job_plan.specs.Chunks.{plan_chunks, Cover, IsChunkAt, IsChunkOf, IsPlan};
ghost use Rattle.job_plan.specs.Copies.{AreCopies, IsCopyFor};
ghost use Rattle.job_plan.specs.inner.Chunks.{rows_of_job, rows_from};
ghost use Rattle.job_plan.specs.inner.Copies.{AreFor};

use crate::columns::{Columns, Copied};
use crate::job::Job;
use crate::priced::Priced;
use csr_store::{Column, RUN_ROWS};
use std::alloc::{AllocError, Global};
use std::marker::Model;
use std::ops::Range;

/// The rows of a chunk, and the number of its job in the plan.
#[derive(Clone, Copy)]
pub struct ChunkRows {
    pub job: u64,
    pub first: u64,
    /// The row after the last.
    pub last: u64,
}

/// Jobs in order of submission, cut into chunks. A contract sees the list of jobs.
#[derive(Drop)]
pub struct Plan {
    jobs: Vec<Priced>,
    // Listed, as jobs differ in their rows: a worker finds a chunk by its number at once.
    chunks: Vec<ChunkRows>,
    columns: Columns,
}

impl Model for Plan {
    ghost use Rattle.std.specs.Prelude.{◌≡◌, ◌≤◌, List, length};
    ghost use Rattle.std.specs.List.{AllByRecursion};
    ghost use Rattle.job_plan.specs.Job as is;

    ghost Value = { List is.Job };

    ghost use Rattle.std.specs.Coded.{codes};
    ghost use Rattle.csr_store.specs.Grid.{grid_code};

    ghost coded = { Prim.hlevel (codes, grid_code) };

    ghost use Rattle.job_plan.specs.Refusal.{IsPriced};
    ghost use Rattle.job_plan.specs.inner.Chunks.{rows_from};
    ghost use Rattle.job_plan.specs.inner.Copies.{AreFor};

    ghost view = { λ p. p.jobs.items };

    ghost invariant = { λ p. AllByRecursion IsPriced p.jobs.items × (length p.jobs.items ≤ 64)
        × (p.chunks.items ≡ rows_from 0 p.jobs.items) × AreFor p.jobs.items p.columns.copies.items p.columns.places };
}

impl Plan {
    /// The plan of jobs and their chunks, with copies of columns.
    pub(crate) fn new(jobs: Vec<Priced>, chunks: Vec<ChunkRows>, columns: Columns) -> Plan
        requires priced { AllByRecursion IsPriced jobs.items }
        requires few { length jobs.items ≤ 64 }
        requires chunks { chunks.items ≡ rows_from 0 jobs.items }
        requires columns { AreFor jobs.items columns.copies.items columns.places }
        ensures { result ≡ jobs.items }
    {
        Plan {
            jobs,
            chunks,
            columns,
        }
    }

    /// What holds of any plan. It is for the prover alone.
    pub fn recall(&self)
        ensures { IsPlan self.now }
    {
        // Nothing is computed: the contracts of these two say it.
        let _ = self.jobs();
        let _ = self.chunks();
    }

    /// The jobs, in order of submission.
    pub fn jobs(&self) -> &[Priced]
        ensures jobs { result.now ≡ self.now }
        ensures few { length self.now ≤ 64 }
        ensures priced { AllByRecursion IsPriced self.now }
        ensures within { AllByRecursion IsWithinPrice self.now }
    {
        &self.jobs
    }

    /// The copies of columns.
    pub fn copies(&self) -> &[Copied]
        ensures { AreCopies self.now result.now }
    {
        self.columns.copies()
    }

    /// A copy of the column that a job is by, if there is one. Jobs by equal columns have the same.
    pub fn column(&self, job: u64) -> Option<&Column>
        ensures { (j : is.Job) → slice_get self.now job ≡ Some j → IsCopyFor j.form result }
    {
        let Some(nth) = self.columns.nth(job) else {
            return None;
        };
        let copies = self.columns.copies();
        Some(copies[nth as usize].column())
    }

    /// How many chunks there are.
    pub fn chunks(&self) -> u64
        ensures count { result ≡ length (plan_chunks self.now) }
        ensures few { result < 2 ^ 63 }
        ensures cover { (k : ℕ) (job : is.Job) → Cover k job }
    {
        self.chunks.len() as u64
    }

    /// A chunk: the index of its job, its rows, and their price, which is counted anew each time.
    pub fn chunk(&self, c: u64) -> (u64, Range<u64>, u64)
        requires { c < length (plan_chunks self.now) }
        ensures chunk { slice_get (plan_chunks self.now) c ≡ Some (record {
          job = result.0;
          first = result.1.start;
          last = result.1.end;
          price = result.2;
        }) }
        ensures rows { IsChunkOf self.now (record {
          job = result.0;
          first = result.1.start;
          last = result.1.end;
          price = result.2;
        }) }
    {
        let (job, range) = self.chunk_rows(c);
        let jobs = self.jobs();
        let priced = &jobs[job as usize];
        // Not stored: a batch doesn't need it (`chunk_rows`).
        let price = priced.job().price_of_rows(range.start..range.end);
        (job, range, price)
    }

    /// A chunk without its price: the index of its job, and its rows.
    pub fn chunk_rows(&self, c: u64) -> (u64, Range<u64>)
        requires { c < length (plan_chunks self.now) }
        ensures { IsChunkAt self.now c result.0 result.1.start result.1.end }
    {
        let chunk = self.chunks[c as usize];
        (chunk.job, chunk.first..chunk.last)
    }
}

/// The rows of the chunks of jobs.
pub(crate) fn cut(alloc: Global, jobs: &[Priced]) -> Result<Vec<ChunkRows>, AllocError>
    ensures { IfOk result (λ chunks. chunks.items ≡ rows_from 0 jobs.now) }
{
    let mut chunks = Vec::new(alloc);
    for (nth, priced) in jobs.iter().enumerate() {
        cut_job(&mut chunks, nth as u64, priced.job())?;
    }
    Ok(chunks)
}

/// Appends the chunks of a job.
fn cut_job(chunks: &mut Vec<ChunkRows>, nth: u64, job: &Job) -> Result<(), AllocError>
    ensures { OnOk result (chunks.new.items ≡ chunks.old.items ++ rows_of_job nth job.now) }
{
    let rows = job.form().rows();
    // The rows of a chunk are those of a block of entries, so a chunk's result is a block of the
    // matrix.
    for number in 0..rows.div_ceil(RUN_ROWS) {
        let first = RUN_ROWS * number;
        let last = (first + RUN_ROWS).min(rows);
        chunks.push(ChunkRows {
            job: nth,
            first,
            last,
        })?;
    }
    Ok(())
}
