//! What a board is opened for.
ghost use Rattle.std.specs.Prelude.{◌≡◌, ◌<◌, ◌^◌, length};

/// The chunks for which a board is opened. Contracts see the price of each. Code asks only how many
/// there are: to compute the prices of a batch would cost a count of each product's terms.
pub trait PricedChunks: Copy {
    ghost use Rattle.std.specs.Prelude.{List, ℕ};

    // the price of each chunk, in order of their numbers
    ghost prices: { Self → List ℕ };

    /// How many chunks there are.
    fn count(self) -> u64
        ensures number { result ≡ length (prices self) }
        ensures few { length (prices self) < 2 ^ 63 };
}

impl<'a> PricedChunks for &'a [u64] {
    ghost prices = { λ list. list.now };

    fn count(self) -> u64 {
        self.len() as u64
    }
}
