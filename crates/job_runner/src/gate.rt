//! What a worker calls around the work on a chunk.

/// Lets a caller hold workers, or count what they do.
pub trait Gate {
    /// Called after a chunk was drawn.
    fn enter(&self, chunk: u64);

    /// Called after a chunk is complete.
    fn leave(&self, chunk: u64);
}

/// The gate that does nothing.
#[derive(Clone, Copy)]
pub struct Open;

impl Gate for Open {
    fn enter(&self, _chunk: u64) {}

    fn leave(&self, _chunk: u64) {}
}
