//! Why a stream could not be read further.

use thiserror::Error;

/// Why the next line or body of a stream is not there.
#[derive(Clone, Copy, Debug, PartialEq, Eq, Error)]
pub enum ReadFault {
    /// A read failed.
    #[error("a read failed")]
    Failed,
    /// More reads are needed than are allowed.
    #[error("too many reads")]
    OutOfReads,
}
