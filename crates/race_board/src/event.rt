//! What may happen in a race.

/// One event of a race. A worker and a chunk are named by their numbers.
#[derive(Clone, Copy, Debug, PartialEq, Eq)]
pub enum RaceEvent {
    /// The worker draws.
    Draw(u64),
    /// The worker completes the chunk with these steps: worker, chunk, steps.
    Complete(u64, u64, u64),
    /// The worker fails the chunk after these steps: worker, chunk, steps.
    Fail(u64, u64, u64),
}
