//! The end of a session, as a log names it.
ghost use Rattle.std.specs.Prelude.{◌≡◌};
ghost use Rattle.metered_session.specs.Ends.{ended_as};

use session::{End, ServeFault};
use session_log::{Cut, Ending};

/// The name that a log has for the end of a session, or for the fault that broke it off. A read or
/// a write that failed may have waited for as long as it may, by this bound.
pub fn ending_of(outcome: Result<End, ServeFault>, cut: Option<Cut>) -> Ending
    ensures { result ≡ ended_as outcome cut }
{
    match outcome {
        Ok(End::Quit) => Ending::Quit,
        Ok(End::InputEnd) => Ending::InputEnd,
        Ok(End::Refused(rule)) => Ending::Refused(rule),
        Err(ServeFault::Read) => match cut {
            Some(cut) => Ending::Cut(cut),
            None => Ending::ReadFailed,
        },
        Err(ServeFault::Write) => match cut {
            Some(cut) => Ending::Cut(cut),
            None => Ending::WriteFailed,
        },
        Err(ServeFault::Turns) => Ending::TooManyReads,
        Err(ServeFault::Memory) => Ending::NoMemory,
    }
}
