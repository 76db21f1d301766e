//! What the program is asked to do, and why that can't be determined.
ghost use Rattle.std.specs.Prelude.{◌≡◌};
ghost use Rattle.command_line.specs.declared.asked.SettingsFault.TheVariants.{Memory};

use session_log::LogFormat;
use std::alloc::{AllocError, AllocFailed};
use thiserror::Error;

/// What the program is asked to do.
#[derive(Clone, Copy, Debug, PartialEq, Eq)]
pub enum Settings {
    /// Serve one session on standard input and output, with a budget of `steps`. With `idle`, end
    /// it after so many seconds in which its client is silent. The log is as for `Serve`.
    Run {
        steps: u64,
        workers: u64,
        idle: Option<u64>,
        log: bool,
        log_format: Option<LogFormat>,
        log_every: Option<u64>,
    },
    /// Serve sessions on a port of this machine, all on one purse of `steps`: as many sessions as
    /// given, or without end. `idle` ends a session after so many seconds in which its client is
    /// silent. A session may last `session_seconds`, and each command has to arrive with `min_rate`
    /// bytes a second. A session may spend `session_steps`, and reserve `session_reserve` at once.
    /// There may be a log of them, in a format; every `log_every` seconds it reports the sessions
    /// that run.
    Serve {
        port: u16,
        steps: u64,
        workers: u64,
        sessions: Option<u64>,
        idle: Option<u64>,
        session_seconds: Option<u64>,
        min_rate: Option<u64>,
        session_steps: Option<u64>,
        session_reserve: Option<u64>,
        log: bool,
        log_format: Option<LogFormat>,
        log_every: Option<u64>,
    },
}

/// Why the words of the command line gave no settings.
#[derive(Debug, Drop, Error)]
pub enum SettingsFault {
    /// The words are refused, or ask for help: the text for standard error.
    #[error("{0}")]
    Words(String),
    /// The words ask for the version of the program.
    #[error("the version is asked for")]
    Version,
    /// There was no memory to read them.
    #[error("no memory")]
    Memory,
}

impl<T: Drop> From<AllocFailed<T>> for SettingsFault {
    ghost from_gives = { λ _ fault. fault ≡ Memory };

    fn from(_: AllocFailed<T>) -> Self {
        SettingsFault::Memory
    }
}

impl From<AllocError> for SettingsFault {
    ghost from_gives = { λ _ fault. fault ≡ Memory };

    fn from(_: AllocError) -> Self {
        SettingsFault::Memory
    }
}
