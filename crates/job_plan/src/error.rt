//! Why a job is refused.
ghost use Rattle.std.specs.Prelude.{◌≡◌};

use thiserror::Error;

/// Why [`Priced::of`](crate::Priced::of) refuses a job, in the order in which the reasons are
/// looked at.
#[derive(Clone, Copy, Debug, PartialEq, Eq, Error)]
pub enum JobError {
    #[error("J4: the operator is of another kind than the job takes")]
    WrongKind,
    #[error("J5: the operands' shapes don't fit one another")]
    WrongShapes,
    #[error("J9: the mask's shape isn't the result's")]
    WrongMask,
    #[error("J7: the result could have more than 16777216 entries")]
    ResultTooLarge,
    #[error("J8: the price is above 4294967296 steps")]
    PriceTooHigh,
}

impl JobError {
    ghost use Rattle.job_plan.specs.Refusal.{rule_name};

    /// The rule's name as a user knows it.
    pub fn name(self) -> &'static str
        ensures { result.now ≡ rule_name self }
    {
        match self {
            JobError::WrongKind => "J4",
            JobError::WrongShapes => "J5",
            JobError::WrongMask => "J9",
            JobError::ResultTooLarge => "J7",
            JobError::PriceTooHigh => "J8",
        }
    }
}
