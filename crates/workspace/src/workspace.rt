//! What a session holds between two commands.
ghost use Rattle.std.specs.Prelude.{◌≡◌, ◌≤◌, ◌<◌, ◌+◌, ◌++◌, ◌∷◌, [], length};
ghost use Rattle.std.specs.Prelude.{IfOk, OnOk, OnErr, option_copied};
ghost use Rattle.std.specs.Option.{option_map};
ghost use Rattle.std.specs.Arc.{arc_value};
ghost use Rattle.command_text.specs.Readings.{name_of};
ghost use Rattle.workspace.specs.State.{empty, bound};
ghost use Rattle.workspace.specs.Queued.{AreNamed};

use crate::names::Names;
use bpf_verify::Operator;
use command_text::Name;
use csr_store::{Matrix, Version};
use job_plan::{Priced, Queue};
use job_runner::SpareScratch;
use std::alloc::{AllocError, Global};
use std::sync::Arc;

/// Matrices and operators by their names, the queue of jobs, whose memory is allocated at the start,
/// and what runs them: so many workers, and buffers that serve from batch to batch.
#[derive(Drop)]
pub struct Workspace {
    pub matrices: Names<Version>,
    pub operators: Names<Arc<Operator>>,
    pub queue: Queue,
    /// How many workers a batch may have: 1 to 64.
    pub workers: u64,
    pub scratch: SpareScratch,
    ghost named: { AreNamed queue },
    ghost some: { 1 ≤ workers },
    ghost few: { workers ≤ 64 },
}

impl Workspace {
    ghost use Rattle.workspace.specs.Workspace.{state_of};

    /// Nothing bound, and no job that waits, of a session whose batches may have so many workers.
    ///
    /// # Errors
    ///
    /// There is no memory for the queue.
    pub fn new(alloc: Global, workers: u64) -> Result<Self, AllocError>
        requires some { 1 ≤ workers }
        requires few { workers ≤ 64 }
        ensures { IfOk result (λ w. state_of w ≡ empty workers) }
    {
        Ok(Workspace {
            matrices: Names::new(alloc),
            operators: Names::new(alloc),
            queue: Queue::open(alloc)?,
            workers,
            scratch: SpareScratch::new(),
        })
    }

    /// The matrix of a name.
    pub fn matrix(&self, name: Name<'_>) -> Option<&Version>
        ensures { option_map arc_value (option_copied result) ≡ (state_of self.now).matrices (name_of name.entry) }
    {
        self.matrices.find(name.as_str())
    }

    /// Notes that a product is to walk about so many entries of the matrix of a name, and whether it
    /// reads their words. A matrix that a job in the queue has, too, is left as it is.
    pub fn expect_walk(&mut self, alloc: Global, name: Name<'_>, entries: u64, reads_words: bool)
        ensures { state_of self.new ≡ state_of self.old }
    {
        if let Some(version) = self.matrices.take(name.as_str()) {
            let version = walked(alloc, version, entries, reads_words);
            self.matrices.bind(name.as_str(), version);
        }
    }

    /// The operator of a name.
    pub fn operator(&self, name: Name<'_>) -> Option<&Arc<Operator>>
        ensures { option_map arc_value (option_copied result) ≡ (state_of self.now).operators (name_of name.entry) }
    {
        self.operators.find(name.as_str())
    }

    /// Binds a name to a matrix, which replaces the one that it had.
    ///
    /// # Errors
    ///
    /// There is no memory for it. All is then as before.
    pub fn bind_matrix(
        &mut self,
        alloc: Global,
        name: &str,
        matrix: Matrix,
    ) -> Result<(), AllocError>
        ensures bound { OnOk result (state_of self.new ≡
            record (state_of self.old)
            { matrices = bound (state_of self.old).matrices name.now matrix }) }
        ensures same { OnErr result (state_of self.new ≡ state_of self.old) }
    {
        let version = Arc::new(alloc, matrix)?;
        self.matrices.declare(name)?;
        self.matrices.bind(name, version);
        Ok(())
    }

    /// Binds a name to an operator, which replaces the one that it had.
    ///
    /// # Errors
    ///
    /// There is no memory for it. All is then as before.
    pub fn bind_operator(
        &mut self,
        alloc: Global,
        name: &str,
        operator: Operator,
    ) -> Result<(), AllocError>
        ensures bound { OnOk result (state_of self.new ≡
            record (state_of self.old)
            { operators = bound (state_of self.old).operators name.now operator }) }
        ensures same { OnErr result (state_of self.new ≡ state_of self.old) }
    {
        let operator = Arc::new(alloc, operator)?;
        self.operators.declare(name)?;
        self.operators.bind(name, operator);
        Ok(())
    }

    /// Puts a job last, where fewer than 64 wait, and tells how many wait then.
    pub fn submit(&mut self, job: Priced) -> u64
        requires capacity { length (state_of self.old).queue < 64 }
        requires named { length job.output ≤ 32 }
        ensures queue { state_of self.new ≡
            record (state_of self.old) { queue = (state_of self.old).queue ++ job ∷ [] } }
        ensures number { result ≡ length (state_of self.old).queue + 1 }
    {
        self.queue.submit(job)
    }
}

/// A version of which a product is to walk about so many entries. If it has more owners, it is left
/// as it is.
fn walked(alloc: Global, version: Version, entries: u64, reads_words: bool) -> Version
    ensures { arc_value result ≡ arc_value version }
{
    let mut version = version;
    if let Some(matrix) = Arc::get_mut(&mut version) {
        matrix.expect_walk(alloc, entries, reads_words);
    }
    version
}
