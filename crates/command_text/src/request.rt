//! What a command line asks for.
ghost use Rattle.std.specs.Prelude.{◌≡◌, ◌≢◌, ℕ, List, Ok, Err, MatchBool, MatchResult};
ghost use Rattle.text_words.specs.Words as text;
ghost use Rattle.command_text.specs.Words.{length_of};
ghost use Rattle.command_text.specs.Requests as spec;
ghost use Rattle.command_text.specs.Readings.{command_of, header_of, name_of, request_of};

use crate::name::Name;
use crate::rules::{FatalRule, SessionRule};
use crate::submission::{Submission, parse_job};
use crate::words::{only_word, three_words, two_words};
use text_words::{decimal, first_word};

/// A command without a body, with its words.
#[derive(Clone, Copy)]
pub enum Command<'a> {
    /// A line without words.
    Blank,
    /// A job that is to be queued.
    Submit(Submission<'a>),
    /// `run`
    Run,
    /// `show NAME`
    Show { name: Name<'a> },
    /// `types NAME`
    Types { name: Name<'a> },
    /// `dis NAME`
    Dis { name: Name<'a> },
    /// `budget`
    Budget,
    /// `quit`
    Quit,
    /// A line that is refused whatever the session holds.
    Refuse(SessionRule),
}

impl Command<'_> {
    /// Whether it is `quit`, which ends the session.
    pub fn is_quit(&self) -> bool
        ensures { MatchBool result (command_of self.now ≡ spec.Quit) (command_of self.now ≢ spec.Quit) }
    {
        matches!(self, Command::Quit)
    }
}

/// A command whose body follows its line. Its name and its kind are words that nobody has judged
/// yet: a body is read to its end before either is refused, so that the next line is found.
#[derive(Clone, Copy)]
pub enum Header<'a> {
    /// `matrix NAME LEN`
    Matrix { name: &'a [u8] },
    /// `op NAME KIND LEN`
    Op { name: &'a [u8], kind: &'a [u8] },
    /// `asm NAME KIND LEN`
    Asm { name: &'a [u8], kind: &'a [u8] },
}

/// What a line asks for.
#[derive(Clone, Copy)]
pub enum Request<'a> {
    /// A command without a body.
    Plain(Command<'a>),
    /// A command whose body of so many bytes follows.
    Body { header: Header<'a>, length: u64 },
    /// Nothing that a session could go on after.
    Fatal(FatalRule),
}

/// The most bytes of a body.
fn body_limit(header: Header<'_>) -> u64
    ensures { result ≡ spec.body_limit (header_of header.entry) }
{
    match header {
        Header::Matrix { .. } => 268_435_456,
        Header::Op { .. } => 262_144,
        Header::Asm { .. } => 262_144,
    }
}

/// The command, if its body is of an allowed length.
fn with_length<'a>(header: Header<'a>, length: &[u8]) -> Request<'a>
    ensures { request_of result ≡ spec.with_length (header_of header.entry) (length_of length.now) }
{
    match decimal(length) {
        None => Request::Fatal(FatalRule::MalformedWords),
        Some(length) => {
            if length > body_limit(header) {
                Request::Fatal(FatalRule::BodyTooLong)
            } else {
                Request::Body { header, length }
            }
        }
    }
}

/// What follows the word `matrix`.
fn matrix_request(rest: &[u8]) -> Request<'_>
    ensures { request_of result ≡ spec.matrix_asked (text.words rest.now) }
{
    match two_words(rest) {
        Some((name, length)) => with_length(Header::Matrix { name }, length),
        None => Request::Fatal(FatalRule::MalformedWords),
    }
}

/// What follows the word `op`.
fn operator_request(rest: &[u8]) -> Request<'_>
    ensures { request_of result ≡ spec.operator_asked spec.OpHeader (text.words rest.now) }
{
    match three_words(rest) {
        Some((name, kind, length)) => with_length(Header::Op { name, kind }, length),
        None => Request::Fatal(FatalRule::MalformedWords),
    }
}

/// What follows the word `asm`.
fn assembly_request(rest: &[u8]) -> Request<'_>
    ensures { request_of result ≡ spec.operator_asked spec.AsmHeader (text.words rest.now) }
{
    match three_words(rest) {
        Some((name, kind, length)) => with_length(Header::Asm { name, kind }, length),
        None => Request::Fatal(FatalRule::MalformedWords),
    }
}

/// The only word of a text as a name, or the rule that it breaks.
fn only_name(rest: &[u8]) -> Result<Name<'_>, SessionRule>
    ensures { MatchResult result
        (λ name. (command : List ℕ → spec.Command) →
        spec.of_name command (text.words rest.now) ≡ Ok (command (name_of name)))
        (λ rule. (command : List ℕ → spec.Command) → spec.of_name command (text.words rest.now) ≡ Err rule) }
{
    let word = only_word(rest).ok_or(SessionRule::MalformedWords)?;
    Name::new(word).ok_or(SessionRule::MalformedName)
}

/// The command, if no word follows it.
fn alone<'a>(command: Command<'a>, rest: &[u8]) -> Result<Command<'a>, SessionRule>
    ensures { MatchResult result
        (λ c. spec.alone (command_of command.entry) (text.words rest.now) ≡ Ok (command_of c))
        (λ rule. spec.alone (command_of command.entry) (text.words rest.now) ≡ Err rule) }
{
    match first_word(rest) {
        None => Ok(command),
        Some(_) => Err(SessionRule::MalformedWords),
    }
}

/// What a command without a body asks for with the words behind its first, or the rule by which it
/// is refused.
fn parse_plain<'a>(command: &[u8], rest: &'a [u8]) -> Result<Command<'a>, SessionRule>
    ensures { MatchResult result
        (λ c. spec.plain_asked command.now (text.words rest.now) ≡ Ok (command_of c))
        (λ rule. spec.plain_asked command.now (text.words rest.now) ≡ Err rule) }
{
    if command == b"dis".as_slice() {
        let name = only_name(rest)?;
        Ok(Command::Dis { name })
    } else if command == b"run".as_slice() {
        alone(Command::Run, rest)
    } else if command == b"show".as_slice() {
        let name = only_name(rest)?;
        Ok(Command::Show { name })
    } else if command == b"types".as_slice() {
        let name = only_name(rest)?;
        Ok(Command::Types { name })
    } else if command == b"budget".as_slice() {
        alone(Command::Budget, rest)
    } else if command == b"quit".as_slice() {
        alone(Command::Quit, rest)
    } else {
        let submission = parse_job(command, rest)?;
        Ok(Command::Submit(submission))
    }
}

/// What a line asks for. Its first word alone tells the command; then the other words are looked
/// at.
pub fn parse(line: &[u8]) -> Request<'_>
    ensures { request_of result ≡ spec.request (text.words line.now) }
{
    let Some((command, rest)) = first_word(line) else {
        return Request::Plain(Command::Blank);
    };
    if command == b"matrix".as_slice() {
        matrix_request(rest)
    } else if command == b"op".as_slice() {
        operator_request(rest)
    } else if command == b"asm".as_slice() {
        assembly_request(rest)
    } else {
        match parse_plain(command, rest) {
            Ok(command) => Request::Plain(command),
            Err(rule) => Request::Plain(Command::Refuse(rule)),
        }
    }
}
