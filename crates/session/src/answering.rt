//! The answer to what was received: its turn, and its reply said.
ghost use Rattle.std.specs.Prelude.{◌≡◌, ◌≤◌, ◌+◌, [], true, List, OnOk, is_ok};
ghost use Rattle.command_text.specs.ReplyText.{whole};
ghost use Rattle.step_budget.specs.Budget.{Deals};
ghost use Rattle.step_purse.specs.declared.dealings.Dealing.{Dealing};
ghost use Rattle.wire.specs.Sending.{Sent};
ghost use Rattle.job_plan.specs.Price.{total_price};
ghost use Rattle.workspace.specs.Workspace.{state_of};
ghost use Rattle.session.specs.inner.Exchange.{Responds, Tells};
ghost use Rattle.session.specs.inner.Standing.{touched_at};

use crate::desk::Bench;
use crate::end::{End, ServeFault};
use crate::receiving::Received;
use command_text::{Refusal, Reply, refuse};
use std::alloc::Global;
use std::sync::Wait;
use std::thread::Threads;
use step_budget::Steps;
use wire::{Output, Sink, WriteFailed};
use workspace::{answer, answer_with_body};

/// Returns what was received. Tells how the session ends, if it does.
fn respond<T: Steps, H: Threads + Wait>(
    rt: &H,
    alloc: Global,
    received: Received<'_>,
    bench: &mut Bench,
    steps: &mut T,
) -> Option<End>
    requires owed { total_price (state_of bench.old.workspace).queue ≤ T.owes steps.old }
    ensures turn { (dealings : List Dealing) ×
        Responds (state_of bench.old.workspace) received.entry dealings (whole bench.new.reply)
        (state_of bench.new.workspace) result × Deals T.leads steps.old dealings steps.new }
    ensures owed { total_price (state_of bench.new.workspace).queue + T.owes steps.old ≡
        total_price (state_of bench.old.workspace).queue + T.owes steps.new }
    ensures output { bench.new.output ≡ bench.old.output }
{
    let Bench {
        workspace,
        reply,
        ..
    } = bench;
    match received {
        Received::Stopped(rule) => {
            refuse(reply, Refusal::Fatal(rule));
            Some(End::Refused(rule))
        }
        Received::Plain(command) => {
            answer(rt, alloc, workspace, command, steps, reply);
            command.is_quit().then_some(End::Quit)
        }
        Received::Whole { header, body } => {
            answer_with_body(alloc, workspace, header, body, reply);
            None
        }
        Received::Dropped { .. } => {
            refuse(reply, Refusal::Memory);
            None
        }
    }
}

/// Says a reply, behind what waits to be written. After the last one all is written.
///
/// # Errors
///
/// A write failed. What was written by then is a front part of what waited and the reply.
fn say<W: Sink>(
    writer: &mut W,
    output: &mut Output,
    reply: &Reply,
    last: bool,
) -> Result<(), WriteFailed>
    ensures sent { Sent (is_ok result) (whole reply.now)
        (record { sink = W.state writer.old; waits = output.old })
        (record { sink = W.state writer.new; waits = output.new }) }
    ensures none { last ≡ true → OnOk result (output.new ≡ []) }
{
    let Ok(()) = output.say(writer, reply.line()) else {
        return Err(WriteFailed);
    };
    let Ok(()) = output.say(writer, reply.attached()) else {
        return Err(WriteFailed);
    };
    if last { output.flush(writer) } else { Ok(()) }
}

/// Returns what was received, says the reply, and counts the command. Tells how the session ends,
/// if it does.
///
/// # Errors
///
/// A write failed.
pub fn respond_and_say<W: Sink, T: Steps, H: Threads + Wait>(
    rt: &H,
    alloc: Global,
    received: Received<'_>,
    bench: &mut Bench,
    writer: &mut W,
    steps: &mut T,
) -> Result<Option<End>, ServeFault>
    requires owed { total_price (state_of bench.old.workspace).queue ≤ T.owes steps.old }
    ensures reported { Tells T.leads
        (touched_at bench.old (W.state writer.old) steps.old)
        (touched_at bench.new (W.state writer.new) steps.new)
        received.entry result }
    ensures owed { total_price (state_of bench.new.workspace).queue + T.owes steps.old ≡
        total_price (state_of bench.old.workspace).queue + T.owes steps.new }
{
    bench.commands = bench.commands.saturating_add(received.count());
    let end = respond(rt, alloc, received, bench, steps);
    match say(writer, &mut bench.output, &bench.reply, end.is_some()) {
        Ok(()) => Ok(end),
        Err(_) => Err(ServeFault::Write),
    }
}
