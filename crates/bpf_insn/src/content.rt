//! What a register contains: a word of the definitions.

/// What a register of the tagged machine contains.
#[derive(Clone, Copy, Debug, PartialEq, Eq)]
pub enum Content {
    /// Nothing yet.
    Unset,
    /// A number.
    Number(u64),
    /// A place in the stack: its distance in bytes from the stack's top, -512 to 0.
    Place(i16),
}
