//! The state of a worker of a race.

/// The state of a worker. A chunk is named by its number, from 0.
#[derive(Clone, Copy, Debug, PartialEq, Eq)]
pub enum WorkerState {
    /// It may draw.
    Free,
    /// It holds this chunk.
    Holds(u64),
    /// It found no chunk left.
    Drained,
    /// It failed this chunk, after these steps: chunk, steps.
    Failed(u64, u64),
}
