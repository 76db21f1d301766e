//! Why no more connections are taken.
ghost use Rattle.std.specs.Prelude.{◌≡◌};

use crate::cause::Cause;
use crate::line::CloseReason;
use thiserror::Error;

/// Why no more connections are taken.
#[derive(Clone, Copy, Debug, PartialEq, Eq, Error)]
pub enum ListenFault {
    /// A connection could not be accepted, for this cause.
    #[error("network failed")]
    Network(Cause),
    /// The memory of the first session was refused. No connection was accepted.
    #[error("no memory")]
    Memory,
}

impl ListenFault {
    /// The fault as a log names it.
    pub fn reason(self) -> CloseReason
        ensures network { (cause : Cause) → self ≡ ListenFault.Network cause → result ≡ CloseReason.NetworkFailed }
        ensures memory { self ≡ ListenFault.Memory → result ≡ CloseReason.NoMemory }
    {
        match self {
            ListenFault::Network(_) => CloseReason::NetworkFailed,
            ListenFault::Memory => CloseReason::NoMemory,
        }
    }
}
