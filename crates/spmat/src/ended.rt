//! What was served, or told.
ghost use Rattle.std.specs.Prelude.{◌≡◌};
ghost use Rattle.spmat.specs.inner.Running.{told_as};

use crate::serving::Sessions;
use crate::solo::Spoken;
use command_line::{Done, Failure};

/// What was served, or told. A session that broke off is told as a failure (`told_as`).
#[derive(Drop)]
pub enum Ended {
    /// The one session of `run`.
    Session(Spoken),
    /// All sessions of `serve`, as they were served.
    Sessions(Sessions),
    /// The version was printed.
    Version,
}

/// What the process tells of how it ended.
pub fn told_as(outcome: Result<Ended, Failure>) -> Result<Done, Failure>
    ensures { result ≡ told_as outcome }
{
    match outcome {
        Ok(Ended::Session(spoken)) => match spoken.outcome() {
            Ok(end) => Ok(Done::Session(end)),
            Err(fault) => Err(Failure::Session {
                fault,
                cause: spoken.cause(),
            }),
        },
        Ok(Ended::Sessions(_)) => Ok(Done::Sessions),
        Ok(Ended::Version) => Ok(Done::Version),
        Err(failure) => Err(failure),
    }
}
