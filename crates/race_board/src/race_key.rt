//! What a board is about.
ghost use Rattle.std.specs.Prelude.{◌≡◌, List, ℕ};

use std::marker::Model;

/// The prices of the chunks. Only contracts keep them: this has no bytes.
#[derive(Drop)]
pub struct Prices {
    pub ghost each: { List ℕ },
}

impl Model for Prices {
    ghost use Rattle.std.specs.Borrow.{ftrue};

    ghost also_owns = { λ _. ftrue };
}

impl Prices {
    /// The prices that the caller's proof reads in a value.
    pub fn of<T: Copy>(_source: T) -> Prices
        ghost prices: { List ℕ }
        ensures { result.each ≡ prices }
    {
        Prices::for_proof()
    }

    /// The prices that the caller's proof names.
    fn for_proof() -> Prices
        ghost prices: { List ℕ }
        ensures { result.each ≡ prices }
    {
        Prices {}
    }
}

/// The prices of the chunks, and how many workers there are: what the rule of a board's words is
/// about.
#[derive(Drop)]
pub struct RaceKey {
    pub prices: Prices,
    pub workers: u64,
}
