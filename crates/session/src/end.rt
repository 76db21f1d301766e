//! How a session ends.

use command_text::FatalRule;

/// How a session ended that met no fault.
#[derive(Clone, Copy, Debug, PartialEq, Eq)]
pub enum End {
    /// By `quit`.
    Quit,
    /// By the end of the input.
    InputEnd,
    /// By a refusal after which a session can't go on.
    Refused(FatalRule),
}

/// Why a session broke off.
#[derive(Clone, Copy, Debug, PartialEq, Eq)]
pub enum ServeFault {
    /// The reader failed.
    Read,
    /// The writer failed.
    Write,
    /// More reads were needed than a session may make.
    Turns,
    /// The memory that a session needs from its start was refused. Nothing was read or written.
    Memory,
}
