//! What passes know. These types have no values: only contracts and proofs use them.
use crate::dealings::Dealing;
use std::collections::LinkedList;

/// A pass's share in its purse: a number of parts, each of them the whole halved a number of times.
pub struct Share {
    pub parts: u64,
    pub halvings: u64,
}

/// What a pass knows of the one history of its purse.
pub struct Books {
    /// The history as the pass last saw it.
    pub seen: LinkedList<Dealing>,
    /// The calls of this pass, each with its index in the history.
    pub calls: LinkedList<(u64, Dealing)>,
    /// What was reserved by these calls and is not yet settled.
    pub owes: u64,
    /// How much of the purse is this pass's.
    pub share: Share,
}

/// A pass as the rule sees it.
pub struct View {
    /// False in the one view with which every cell begins.
    pub opened: bool,
    /// What the purse was opened with.
    pub allowance: u64,
    pub known: Books,
    /// What another pass had seen that was joined to this one, until a look at the cell shows both.
    pub beside: LinkedList<Dealing>,
}
