//! What a session receives: a command with its body, when it is all there. What was said before is
//! written before more input is asked for, and before a command that may take long.
ghost use Rattle.std.specs.Prelude.{◌≡◌, ◌<◌, ◌≤◌, [], true, false, Ok, OnOk, is_ok, vec_capacity};
ghost use Rattle.command_text.specs.Readings.{request_of};
ghost use Rattle.wire.specs.Fetching.{reach};
ghost use Rattle.wire.specs.Lines as lines;
ghost use Rattle.wire.specs.Sending.{Sent};
ghost use Rattle.workspace.specs.Workspace.{state_of};
ghost use Rattle.session.specs.NextCommand.{Waits, next_request};
ghost use Rattle.session.specs.inner.Exchange.{Awaited, MayAwait, IsReceivedOf, IsLineOf, LacksBody, LacksLine};

use crate::desk::Bench;
use crate::end::ServeFault;
use command_text::{Command, FatalRule, Header, Request};
use std::alloc::Global;
use wire::{
    Asked, Body, Input, Lined, Output, ReadFault, Sink, WriteFailed, line_held, next_line,
    read_body,
};
use workspace::takes_long;

/// What a session receives next, when it is all there.
#[derive(Drop)]
pub enum Received<'a> {
    /// A refusal by which the session ends.
    Stopped(FatalRule),
    /// A command without a body.
    Plain(Command<'a>),
    /// A command with its body.
    Whole { header: Header<'a>, body: Vec<u8> },
    /// A command for whose body there was no memory.
    Dropped { header: Header<'a> },
}

impl Received<'_> {
    /// How many commands this is, of those that have a reply: a blank line is none.
    pub fn count(&self) -> u64 {
        match self {
            Received::Plain(Command::Blank) => 0,
            _ => 1,
        }
    }
}

/// The fault of a session whose stream could not be read on.
fn fault_of(fault: ReadFault) -> ServeFault
    ensures failed { fault ≡ ReadFault.Failed → result ≡ ServeFault.Read }
    ensures out { fault ≡ ReadFault.OutOfReads → result ≡ ServeFault.Turns }
{
    match fault {
        ReadFault::Failed => ServeFault::Read,
        ReadFault::OutOfReads => ServeFault::Turns,
    }
}

/// Takes the next line from what was read, or reads on until it is there.
///
/// # Errors
///
/// What waited could not be written; or a read failed, or no more reads are allowed, before the
/// line was there.
pub fn receive_line<R: Asked<W>, W: Sink>(
    input: &mut Input,
    line: &mut Vec<u8>,
    output: &mut Output,
    reader: &mut R,
    writer: &mut W,
) -> Result<Lined, ServeFault>
    requires capacity { 1026 ≤ vec_capacity line.old }
    requires asked { MayAwait R.may_ask
        (record { source = R.state reader.old; held = input.old })
        (record { sink = W.state writer.old; waits = output.old }) (λ bytes. lines.first false bytes ≡ lines.Partial) }
    ensures received { Awaited result (IsLineOf line.new.items input.new) (LacksLine input.new)
        (record { source = R.state reader.old; held = input.old })
        (record { source = R.state reader.new; held = input.new })
        (record { sink = W.state writer.old; waits = output.old })
        (record { sink = W.state writer.new; waits = output.new }) }
    ensures capacity { 1026 ≤ vec_capacity line.new }
    ensures less { result ≡ Ok Lined.Whole → reach input.new < reach input.old }
{
    if let Some(lined) = line_held(input, line) {
        return Ok(lined);
    }
    let Ok(()) = output.flush(writer) else {
        return Err(ServeFault::Write);
    };
    match next_line(input, reader, writer, line) {
        Ok(lined) => Ok(lined),
        Err(fault) => Err(fault_of(fault)),
    }
}

/// Writes all that waits, where that is due.
fn flush_where<W: Sink>(due: bool, output: &mut Output, writer: &mut W) -> Result<(), WriteFailed>
    ensures sent { Sent (is_ok result) []
        (record { sink = W.state writer.old; waits = output.old })
        (record { sink = W.state writer.new; waits = output.new }) }
    ensures none { due ≡ true → OnOk result (output.new ≡ []) }
{
    if due { output.flush(writer) } else { Ok(()) }
}

/// Reads what a line asks for to its end.
///
/// # Errors
///
/// What waited could not be written; or a read failed, or no more reads are allowed, before the
/// body was there.
pub fn receive<'a, R: Asked<W>, W: Sink>(
    alloc: Global,
    request: Request<'a>,
    input: &mut Input,
    bench: &mut Bench,
    reader: &mut R,
    writer: &mut W,
) -> Result<Received<'a>, ServeFault>
    requires { MayAwait R.may_ask
        (record { source = R.state reader.old; held = input.old })
        (record { sink = W.state writer.old; waits = bench.old.output })
        (λ bytes. next_request false (request_of request) bytes ≡ Waits) }
    ensures received { Awaited result (IsReceivedOf (request_of request.entry) input.new)
        (LacksBody (request_of request.entry) input.new)
        (record { source = R.state reader.old; held = input.old })
        (record { source = R.state reader.new; held = input.new })
        (record { sink = W.state writer.old; waits = bench.old.output })
        (record { sink = W.state writer.new; waits = bench.new.output }) }
    ensures unchanged { state_of bench.new.workspace ≡ state_of bench.old.workspace }
    ensures bounded { reach input.new ≤ reach input.old }
{
    match request {
        Request::Fatal(rule) => Ok(Received::Stopped(rule)),
        Request::Plain(command) => {
            // Else the replies before a long command would wait until it is done.
            let long = takes_long(&bench.workspace, &command);
            match flush_where(long, &mut bench.output, writer) {
                Ok(()) => Ok(Received::Plain(command)),
                Err(_) => Err(ServeFault::Write),
            }
        }
        Request::Body { header, length } => {
            let missing = (input.bytes().len() as u64) < length;
            let Ok(()) = flush_where(missing, &mut bench.output, writer) else {
                return Err(ServeFault::Write);
            };
            match read_body(alloc, input, reader, writer, length) {
                Ok(Body::Whole(body)) => Ok(Received::Whole { header, body }),
                Ok(Body::Dropped) => Ok(Received::Dropped { header }),
                Ok(Body::Cut) => Ok(Received::Stopped(FatalRule::InputEndsInBody)),
                Err(fault) => Err(fault_of(fault)),
            }
        }
    }
}
