//! The exit status of the process, and what it says on standard error.
ghost use Rattle.std.specs.Prelude.{◌≡◌};
ghost use Rattle.std.specs.Process.{exit_status};
ghost use Rattle.command_line.specs.Endings.{code_of, status_of, said_by, session_words, words_of, failed_by, detail_in, detail_of};
ghost use Rattle.command_line.specs.declared.ending.Failure.TheVariants as failures;

use crate::asked::SettingsFault;
use session::{End, ServeFault};
use session_log::{Cause, ListenFault};
use std::fmt;
use std::process::ExitCode;

/// What ended well.
#[derive(Clone, Copy, Debug, PartialEq, Eq)]
pub enum Done {
    /// The one session of `run`.
    Session(End),
    /// All sessions of `serve`.
    Sessions,
    /// The version was printed.
    Version,
}

/// Why nothing was served to its end.
#[derive(Debug, Drop)]
pub enum Failure {
    /// The words of the command line gave no settings.
    Settings(SettingsFault),
    /// There was no memory for what a command needs from its start.
    Memory,
    /// The line with the port, or the version, could not be written.
    Output(Cause),
    /// The one session broke off, perhaps with a cause that the system named.
    Session {
        fault: ServeFault,
        cause: Option<Cause>,
    },
    /// The port could not be bound.
    Binding {
        port: u16,
        cause: Cause,
    },
    /// No more connections are taken.
    Listening(ListenFault),
}

impl From<SettingsFault> for Failure {
    ghost from_gives = { λ fault failure. failure ≡ failures.Settings fault };

    fn from(fault: SettingsFault) -> Self {
        Failure::Settings(fault)
    }
}

impl From<ListenFault> for Failure {
    ghost from_gives = { λ fault failure. failure ≡ failures.Listening fault };

    fn from(fault: ListenFault) -> Self {
        Failure::Listening(fault)
    }
}

/// The exit status.
#[derive(Clone, Copy, Debug, PartialEq, Eq)]
pub enum Status {
    /// The session ended by `quit` or with its input, or all sessions were served.
    // The numbers are the exit statuses, which are part of the interface.
    Ended = 0,
    /// A stream, the network or the memory failed.
    Failed = 1,
    /// The words of the command line were refused.
    WordsRefused = 2,
    /// The session ended by a refusal.
    SessionRefused = 3,
}

/// The second line of a fault, which names its cause.
#[derive(Clone, Copy, Debug, PartialEq, Eq)]
pub enum Detail {
    /// Nothing.
    Nothing,
    /// Its cause.
    Failed(Cause),
    /// That a port can't be listened on.
    NotBound { port: u16, cause: Cause },
    /// That no connection can be accepted.
    NotAccepted(Cause),
}

impl fmt::Display for Detail {
    fn fmt<W: fmt::Write>(&self, f: &mut fmt::Formatter<W>) -> fmt::Result {
        match *self {
            Detail::Nothing => Ok(()),
            // The line end comes first, so that a fault without a cause is one line.
            Detail::Failed(cause) => write!(f, "\nspmat: because {cause}"),
            Detail::NotBound { port, cause } => write!(
                f,
                "\nspmat: because listening on 127.0.0.1:{port} failed: {cause}"
            ),
            Detail::NotAccepted(cause) => {
                write!(f, "\nspmat: because accepting a connection failed: {cause}")
            }
        }
    }
}

/// A fault as it is printed: its words, alone on a line, and a second line with its cause, if the
/// system named one.
#[derive(Clone, Copy, Debug, PartialEq, Eq)]
pub struct Fault {
    pub words: &'static str,
    pub detail: Detail,
}

impl fmt::Display for Fault {
    fn fmt<W: fmt::Write>(&self, f: &mut fmt::Formatter<W>) -> fmt::Result {
        // Words first and unchanged, whatever the cause: the first line is the same on every
        // system.
        let Fault { words, detail } = *self;
        write!(f, "{words}{detail}")
    }
}

/// What is said on standard error.
#[derive(Debug, Drop, PartialEq, Eq)]
pub enum Message {
    /// Nothing.
    Nothing,
    /// A fault, on a line of its own, and its cause on the next.
    Fault(Fault),
    /// The text that replies to the words of the command line.
    Words(String),
}

/// How the process ends.
#[derive(Debug, Drop, PartialEq, Eq)]
pub struct Ending {
    pub status: Status,
    pub message: Message,
}

/// The words for a fault of a session.
fn session_words(fault: ServeFault) -> &'static str
    ensures { result.now ≡ session_words fault }
{
    match fault {
        ServeFault::Read => "spmat: read failed",
        ServeFault::Write => "spmat: write failed",
        ServeFault::Turns => "spmat: too many reads",
        ServeFault::Memory => "spmat: no memory",
    }
}

/// A fault of a session.
fn session_fault(fault: ServeFault, cause: Option<Cause>) -> Fault
    ensures words { result.words.now ≡ session_words fault }
    ensures detail { result.detail ≡ failed_by cause }
{
    let detail = match cause {
        Some(cause) => Detail::Failed(cause),
        None => Detail::Nothing,
    };
    Fault {
        words: session_words(fault),
        detail,
    }
}

/// A fault of a server.
fn listening_fault(fault: ListenFault) -> Fault
    ensures words { result.words.now ≡ words_of (Err (failures.Listening fault)) }
    ensures detail { result.detail ≡ detail_of (Err (failures.Listening fault)) }
{
    match fault {
        ListenFault::Network(cause) => Fault {
            words: NETWORK_FAILED,
            detail: Detail::NotAccepted(cause),
        },
        ListenFault::Memory => NO_MEMORY,
    }
}

/// A fault of the network.
const NETWORK_FAILED: &str = "spmat: network failed";

/// Out of memory.
const NO_MEMORY: Fault = Fault {
    words: "spmat: no memory",
    detail: Detail::Nothing,
};

/// The message of a failure.
fn message_of(failure: Failure) -> Message
    ensures words { said_by result ≡ words_of (Err failure) }
    ensures detail { detail_in result ≡ detail_of (Err failure) }
{
    match failure {
        Failure::Settings(SettingsFault::Words(text)) => Message::Words(text),
        // The program prints the version itself, on standard output.
        Failure::Settings(SettingsFault::Version) => Message::Nothing,
        Failure::Settings(SettingsFault::Memory) | Failure::Memory => Message::Fault(NO_MEMORY),
        Failure::Output(cause) => Message::Fault(Fault {
            words: "spmat: write failed",
            detail: Detail::Failed(cause),
        }),
        Failure::Session { fault, cause } => Message::Fault(session_fault(fault, cause)),
        Failure::Binding { port, cause } => Message::Fault(Fault {
            words: NETWORK_FAILED,
            detail: Detail::NotBound { port, cause },
        }),
        Failure::Listening(fault) => Message::Fault(listening_fault(fault)),
    }
}

/// The exit status of an outcome.
fn status_after(outcome: &Result<Done, Failure>) -> Status
    ensures { result ≡ status_of outcome.now }
{
    match outcome {
        Ok(Done::Session(End::Refused(_))) => Status::SessionRefused,
        Ok(_) => Status::Ended,
        // Asking for the version is no failure.
        Err(Failure::Settings(SettingsFault::Version)) => Status::Ended,
        Err(Failure::Settings(SettingsFault::Words(_))) => Status::WordsRefused,
        Err(_) => Status::Failed,
    }
}

/// The status and the message of an outcome.
pub fn ending_of(outcome: Result<Done, Failure>) -> Ending
    ensures status { result.status ≡ status_of outcome }
    ensures message { said_by result.message ≡ words_of outcome }
    ensures detail { detail_in result.message ≡ detail_of outcome }
{
    // Before the outcome is taken apart.
    let status = status_after(&outcome);
    let message = match outcome {
        Ok(_) => Message::Nothing,
        Err(failure) => message_of(failure),
    };
    Ending { status, message }
}

/// Prints the message, and returns the status for the system. If standard error takes nothing, the
/// status alone tells.
pub fn finish<H: Eprint>(rt: &H, ending: Ending) -> ExitCode
    ensures { exit_status result ≡ code_of ending.status }
{
    let Ending { status, message } = ending;
    // A failure of standard error could be reported nowhere.
    let _ = match message {
        Message::Nothing => Ok(()),
        Message::Fault(fault) => rt.eprintln(fault),
        // Without a line end: the text of `clap` has its own.
        Message::Words(text) => rt.eprint(text),
    };
    ExitCode::from(status as u8)
}
