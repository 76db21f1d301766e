//! What one session may take of a purse that others draw on too.
ghost use Rattle.std.specs.Prelude.{◌≡◌};
ghost use Rattle.metered_session.specs.Limits.{unbounded};

/// The bounds of one session. Without a number there is none but that of the purse.
#[derive(Clone, Copy, Debug, PartialEq, Eq)]
pub struct Limits {
    /// The most steps that its jobs may have spent, and have reserved, together.
    pub steps: Option<u64>,
    /// The most steps that its jobs may have reserved at once.
    pub reserve: Option<u64>,
}

impl Limits {
    /// No bounds.
    pub fn none() -> Self
        ensures { result ≡ unbounded }
    {
        Limits {
            steps: None,
            reserve: None,
        }
    }
}
