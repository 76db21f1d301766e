//! The numbers that several crates share.

/// The number of rows in each run of a [`Stack`](crate::Stack) but the last, which may have fewer:
/// row i is in run i / `RUN_ROWS`. A batch computes results in chunks of as many rows, so that each
/// becomes a run as it is. Contracts write the number.
pub const RUN_ROWS: u64 = 256;

/// The most rows, and the most columns, that a matrix may have: `limit` of `specs/Grid.antt`. A row
/// and a column fit into one word together, and where rows start fits into memory.
pub const MOST_SIDE: u64 = 16_777_216;

/// The most entries that a matrix may have, also `limit` of `specs/Grid.antt`. A position and the
/// index of an entry fit into 128 bits together.
pub const MOST_ENTRIES: u64 = 16_777_216;
