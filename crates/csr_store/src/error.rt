//! Why an entry is refused.
ghost use Rattle.std.specs.Prelude.{◌≡◌};
ghost use Rattle.csr_store.specs.declared.error.StoreError.TheVariants.{Memory};

use std::alloc::AllocFailed;
use thiserror::Error;

/// Why [`Builder::put`](crate::Builder::put) refuses an entry.
#[derive(Clone, Copy, Debug, PartialEq, Eq, Error)]
pub enum StoreError {
    #[error("J1: the row or the column is outside the matrix")]
    IndexOutOfRange,
    #[error("J2: the position has an entry already")]
    PositionGivenTwice,
    #[error("J3: a matrix has at most 16777216 entries")]
    TooManyEntries,
    #[error("no memory for the entry")]
    Memory,
}

impl<T: Drop> From<AllocFailed<T>> for StoreError {
    ghost from_gives = { λ _ e. e ≡ Memory };

    fn from(_failed: AllocFailed<T>) -> StoreError {
        StoreError::Memory
    }
}

impl StoreError {
    ghost use Rattle.csr_store.specs.Refusal.{rule_name};

    /// The rule's name as a user knows it: `J1`, `J2` or `J3`, and `memory` where no rule was
    /// broken.
    pub fn name(self) -> &'static str
        ensures { result.now ≡ rule_name self }
    {
        match self {
            StoreError::IndexOutOfRange => "J1",
            StoreError::PositionGivenTwice => "J2",
            StoreError::TooManyEntries => "J3",
            StoreError::Memory => "memory",
        }
    }
}
