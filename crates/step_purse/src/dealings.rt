//! The calls of a purse of steps, and its replies.

/// What `reserve` replies.
#[derive(Clone, Copy, PartialEq, Eq, Debug)]
pub enum Reply {
    /// This amount is reserved, which is the whole amount asked for.
    Took(u64),
    /// Nothing is reserved, since only this much is left.
    NotEnough(u64),
}

/// Where the steps of a purse are. The three add up to its allowance.
#[derive(Clone, Copy, PartialEq, Eq, Debug)]
pub struct Totals {
    /// Steps that may still be reserved.
    pub left: u64,
    /// Steps that are reserved and not yet settled.
    pub reserved: u64,
    /// Steps that were used up.
    pub spent: u64,
}

/// A call of a purse, with its reply.
#[derive(Clone, Copy, PartialEq, Eq, Debug)]
pub enum Dealing {
    /// `reserve`: the amount asked for, and the reply.
    Reserved(u64, Reply),
    /// `settle`: the amount given back, and how much of it was spent.
    Settled(u64, u64),
    /// `totals`: the reply.
    Observed(Totals),
}
