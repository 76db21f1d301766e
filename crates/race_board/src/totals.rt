//! What a closed board answers.

/// What the workers did whose seats were handed in, and what all workers of the board did. The two
/// differ by what was lost with the other seats.
#[derive(Clone, Copy, Debug, PartialEq, Eq)]
pub struct Totals {
    /// How many chunks the workers drew whose seats were handed in.
    pub draws: u64,
    /// The sum of the steps that they recorded.
    pub spent: u64,
    /// How often any worker drew, and got a chunk or was told the end.
    pub count: u64,
    /// The sum of the steps that any worker recorded.
    pub recorded: u64,
}
