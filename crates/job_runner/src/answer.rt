//! What a batch answers.

use csr_store::Version;

/// What a job gave: its matrix, and how many steps its calls took. A contract reads it by
/// `result_of` of `specs/Batch.antt`.
#[derive(Drop)]
pub struct JobResult {
    pub version: Version,
    pub steps: u64,
}

/// What each job of a batch gave, in order of submission.
#[derive(Drop)]
pub struct BatchAnswer {
    pub results: Vec<JobResult>,
}

/// Why a batch is refused.
#[derive(Clone, Copy, Debug, PartialEq, Eq)]
pub enum Cause {
    /// A request for memory was refused.
    Memory,
    /// A thread could not be started.
    Thread,
}

/// A batch that was refused: why, and how many steps its calls had taken by then, those of chunks
/// that failed among them.
#[derive(Clone, Copy, Debug, PartialEq, Eq)]
pub struct BatchFault {
    pub cause: Cause,
    pub spent: u64,
}
