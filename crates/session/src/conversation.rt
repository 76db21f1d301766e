//! A session, from the bytes that it reads to the bytes that it writes.
ghost use Rattle.std.specs.Prelude.{◌≡◌, ◌≢◌, ◌≤◌, ◌<◌, ◌+◌, [], false, IfOk, Ok, Err, None};
ghost use Rattle.wire.specs.Fetching.{reach};
ghost use Rattle.job_plan.specs.Price.{total_price};
ghost use Rattle.workspace.specs.State.{empty};
ghost use Rattle.workspace.specs.Workspace.{state_of};
ghost use Rattle.session.specs.Exchange.{Exchanged, behind};
ghost use Rattle.session.specs.inner.Exchange.{Conversed, MayAwaitNext};
ghost use Rattle.session.specs.inner.Standing.{scene_at};
ghost use Rattle.session.specs.NextCommand.{next};
ghost use Rattle.session.specs.Sessions.{full_session};
ghost use Rattle.session.specs.Talk.{MayAskWhenAnswered, Outcome};

use crate::answering::respond_and_say;
use crate::desk::Desk;
use crate::end::{End, ServeFault};
use crate::receiving::{Received, receive, receive_line};
use command_text::{FatalRule, parse};
use std::alloc::{AllocError, Global};
use std::marker::Model;
use std::sync::Wait;
use std::thread::Threads;
use step_budget::Steps;
use wire::{Asked, Lined, Sink, Source};
use workspace::release;

/// Reads what a line asks for to its end, answers it, and says the reply.
fn answer_line<R: Asked<W>, W: Sink, T: Steps, H: Threads + Wait>(
    rt: &H,
    alloc: Global,
    desk: &mut Desk,
    reader: &mut R,
    writer: &mut W,
    steps: &mut T,
) -> Result<Option<End>, ServeFault>
    requires owed { total_price (state_of desk.old.bench.workspace).queue ≤ T.owes steps.old }
    requires asked { MayAwaitNext R.may_ask (behind desk.old.line.items)
        (scene_at desk.old (R.state reader.old) (W.state writer.old) steps.old) }
    ensures exchanged { Exchanged (behind desk.old.line.items) T.leads
        (scene_at desk.old (R.state reader.old) (W.state writer.old) steps.old)
        (scene_at desk.new (R.state reader.new) (W.state writer.new) steps.new) result }
    ensures owed { total_price (state_of desk.new.bench.workspace).queue + T.owes steps.old ≡
        total_price (state_of desk.old.bench.workspace).queue + T.owes steps.new }
    ensures bounded { reach desk.new.input ≤ reach desk.old.input }
{
    let Desk { input, line, bench } = desk;
    match receive(alloc, parse(line), input, bench, reader, writer) {
        Ok(received) => respond_and_say(rt, alloc, received, bench, writer, steps),
        Err(fault) => Err(fault),
    }
}

/// Reads one command, answers it, and says the reply. Tells how the session ends, if it does: then
/// all that was said is written.
fn exchange<R: Asked<W>, W: Sink, T: Steps, H: Threads + Wait>(
    rt: &H,
    alloc: Global,
    desk: &mut Desk,
    reader: &mut R,
    writer: &mut W,
    steps: &mut T,
) -> Result<Option<End>, ServeFault>
    requires owed { total_price (state_of desk.old.bench.workspace).queue ≤ T.owes steps.old }
    requires asked { MayAwaitNext R.may_ask next
        (scene_at desk.old (R.state reader.old) (W.state writer.old) steps.old) }
    ensures exchanged { Exchanged next T.leads
        (scene_at desk.old (R.state reader.old) (W.state writer.old) steps.old)
        (scene_at desk.new (R.state reader.new) (W.state writer.new) steps.new) result }
    ensures owed { total_price (state_of desk.new.bench.workspace).queue + T.owes steps.old ≡
        total_price (state_of desk.old.bench.workspace).queue + T.owes steps.new }
    ensures less { result ≡ Ok None → reach desk.new.input < reach desk.old.input }
{
    let Desk { input, line, bench } = desk;
    match receive_line(input, line, &mut bench.output, reader, writer) {
        Ok(Lined::Whole) => answer_line(rt, alloc, desk, reader, writer, steps),
        Ok(Lined::Over) => {
            let received = Received::Stopped(FatalRule::LineTooLong);
            respond_and_say(rt, alloc, received, &mut desk.bench, writer, steps)
        }
        Ok(Lined::Nothing) => match desk.bench.output.flush(writer) {
            Ok(()) => Ok(Some(End::InputEnd)),
            Err(_) => Err(ServeFault::Write),
        },
        Err(fault) => Err(fault),
    }
}

/// Makes exchanges until the session ends or breaks off.
fn converse<R: Asked<W>, W: Sink, T: Steps, H: Threads + Wait>(
    rt: &H,
    alloc: Global,
    desk: &mut Desk,
    reader: &mut R,
    writer: &mut W,
    steps: &mut T,
) -> Result<End, ServeFault>
    requires input { (desk.old.input.bytes ≡ []) × (desk.old.input.ended ≡ false) }
    requires output { desk.old.bench.output ≡ [] }
    requires state { state_of desk.old.bench.workspace ≡ empty (state_of desk.old.bench.workspace).workers }
    requires asked { MayAskWhenAnswered R.may_ask (state_of desk.old.bench.workspace).workers
        (R.state reader.old) (W.state writer.old) }
    ensures conversed { Conversed T.leads
        (scene_at desk.old (R.state reader.old) (W.state writer.old) steps.old)
        (scene_at desk.new (R.state reader.new) (W.state writer.new) steps.new) result }
    ensures owed { total_price (state_of desk.new.bench.workspace).queue + T.owes steps.old ≡ T.owes steps.new }
{
    'exchanges: loop {
        match exchange(rt, alloc, desk, reader, writer, steps) {
            Ok(None) => {}
            Ok(Some(end)) => return Ok(end),
            Err(fault) => return Err(fault),
        }
    }
}

/// One session, with its memory, allocated before it begins, so that a server knows that it has it. A
/// contract sees how many reads the session may make, and how many workers each of its batches may
/// have.
#[derive(Drop)]
pub struct Session {
    alloc: Global,
    desk: Desk,
}

impl Model for Session {
    ghost use Rattle.std.specs.Prelude.{◌≡◌, [], false};
    ghost use Rattle.workspace.specs.State.{empty};
    ghost use Rattle.workspace.specs.Workspace.{state_of};
    ghost use Rattle.session.specs.Sessions.{SessionState};

    ghost Value = { SessionState };

    ghost view = { λ r. record { reads = r.desk.input.reads_left; workers = r.desk.bench.workspace.workers } };

    ghost invariant = { λ r. (r.desk.input.bytes ≡ []) × (r.desk.input.ended ≡ false) × (r.desk.bench.output ≡ [])
        × (state_of r.desk.bench.workspace ≡ empty r.desk.bench.workspace.workers) };
}

/// The most reads that a session makes.
const MOST_READS: u64 = 4_294_967_296;

impl Session {
    /// A session each of whose batches runs on so many workers.
    ///
    /// # Errors
    ///
    /// There is no memory for it.
    pub fn new(alloc: Global, workers: u64) -> Result<Session, AllocError>
        requires some { 1 ≤ workers }
        requires few { workers ≤ 64 }
        ensures { IfOk result (λ r. r ≡ full_session workers) }
    {
        Session::with_reads(alloc, workers, MOST_READS)
    }

    /// As `new`, for a session that makes so many reads at most.
    ///
    /// # Errors
    ///
    /// There is no memory for it.
    pub fn with_reads(alloc: Global, workers: u64, reads: u64) -> Result<Session, AllocError>
        requires some { 1 ≤ workers }
        requires few { workers ≤ 64 }
        ensures { IfOk result (λ r. r ≡ record { reads = reads; workers = workers }) }
    {
        let desk = Desk::new(alloc, workers, reads)?;
        Ok(Session { alloc, desk })
    }

    /// Serves the session, as `serve` does.
    ///
    /// # Errors
    ///
    /// As those of `serve`, but `Memory`: the session has its memory.
    pub fn serve<R: Source, W: Sink, T: Steps, H: Threads + Wait>(
        self,
        rt: &H,
        reader: &mut R,
        writer: &mut W,
        steps: &mut T,
    ) -> Result<End, ServeFault>
        ensures said { Outcome T.leads self
            (record { budget = steps.old; source = R.state reader.old; sink = W.state writer.old })
            (record { budget = steps.new; source = R.state reader.new; sink = W.state writer.new }) result }
        ensures owed { T.owes steps.new ≡ T.owes steps.old }
        ensures begun { result ≢ Err ServeFault.Memory }
    {
        let (outcome, _commands) = self.serve_counting(rt, reader, writer, steps);
        outcome
    }

    /// Serves the session, as `serve` does, and tells how many commands were taken, each of which
    /// has a reply: command lines with their bodies, and a line that was too long. No contract
    /// speaks of that number.
    pub fn serve_counting<R: Asked<W>, W: Sink, T: Steps, H: Threads + Wait>(
        self,
        rt: &H,
        reader: &mut R,
        writer: &mut W,
        steps: &mut T,
    ) -> (Result<End, ServeFault>, u64)
        requires { MayAskWhenAnswered R.may_ask self.workers (R.state reader.old) (W.state writer.old) }
        ensures said { Outcome T.leads self
            (record { budget = steps.old; source = R.state reader.old; sink = W.state writer.old })
            (record { budget = steps.new; source = R.state reader.new; sink = W.state writer.new }) result.0 }
        ensures owed { T.owes steps.new ≡ T.owes steps.old }
        ensures begun { result.0 ≢ Err ServeFault.Memory }
    {
        let Session { alloc, mut desk } = self;
        let outcome = converse(rt, alloc, &mut desk, reader, writer, steps);
        release(rt, &desk.bench.workspace, steps);
        (outcome, desk.bench.commands)
    }
}

/// For tests: the program makes a `Session` and calls `Session::serve_counting`. Serves one session
/// as `serve` does, with so many reads at most.
///
/// # Errors
///
/// As those of `serve`; `Turns` where more than so many reads were needed.
pub fn serve_turns<R: Source, W: Sink, T: Steps, H: Threads + Wait>(
    rt: &H,
    alloc: Global,
    reader: &mut R,
    writer: &mut W,
    steps: &mut T,
    workers: u64,
    turns: u64,
) -> Result<End, ServeFault>
    requires some { 1 ≤ workers }
    requires few { workers ≤ 64 }
    ensures said { Outcome T.leads (record { reads = turns; workers = workers })
        (record { budget = steps.old; source = R.state reader.old; sink = W.state writer.old })
        (record { budget = steps.new; source = R.state reader.new; sink = W.state writer.new }) result }
    ensures owed { T.owes steps.new ≡ T.owes steps.old }
{
    let Ok(session) = Session::with_reads(alloc, workers, turns) else {
        return Err(ServeFault::Memory);
    };
    session.serve(rt, reader, writer, steps)
}

/// For tests: the program makes a `Session` and calls `Session::serve_counting`. Serves one
/// session, each of whose batches may have so many workers: reads commands, and says the reply to
/// each, until `quit`, the end of the input, or a refusal after which a session can't go on.
///
/// # Errors
///
/// A device failed, more than 4,294,967,296 reads were needed, or the memory that a session needs
/// from its start was refused. On each end and each fault every reservation that is still held is
/// settled with 0.
pub fn serve<R: Source, W: Sink, T: Steps, H: Threads + Wait>(
    rt: &H,
    alloc: Global,
    reader: &mut R,
    writer: &mut W,
    steps: &mut T,
    workers: u64,
) -> Result<End, ServeFault>
    requires some { 1 ≤ workers }
    requires few { workers ≤ 64 }
    ensures said { Outcome T.leads (full_session workers)
        (record { budget = steps.old; source = R.state reader.old; sink = W.state writer.old })
        (record { budget = steps.new; source = R.state reader.new; sink = W.state writer.new }) result }
    ensures owed { T.owes steps.new ≡ T.owes steps.old }
{
    serve_turns(rt, alloc, reader, writer, steps, workers, MOST_READS)
}
