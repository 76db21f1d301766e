//! What was computed for a chunk.

use csr_store::Rows;

/// A chunk's rows, and how many steps the calls for them took.
#[derive(Drop)]
pub struct Piece {
    /// The chunk's number.
    pub chunk: u64,
    pub rows: Rows,
    pub steps: u64,
}
