//! One command's turn.
ghost use Rattle.std.specs.Prelude.{◌≡◌, ◌+◌, ◌≤◌, List, []};
ghost use Rattle.command_text.specs.ReplyText.{whole};
ghost use Rattle.command_text.specs.Requests.{with_body};
ghost use Rattle.command_text.specs.Readings.{command_of, header_of};
ghost use Rattle.step_budget.specs.Budget.{Deals};
ghost use Rattle.step_purse.specs.declared.dealings.Dealing.{Dealing};
ghost use Rattle.job_plan.specs.Price.{total_price};
ghost use Rattle.workspace.specs.Binds.{Binds};
ghost use Rattle.workspace.specs.Turn.{Turn};
ghost use Rattle.workspace.specs.Workspace.{state_of};

use crate::bind::{assembly, matrix, operator};
use crate::jobs::{budget, submit};
use crate::run::run;
use crate::tell::{disassembly, show, types};
use crate::workspace::Workspace;
use command_text::{Command, Header, Refusal, Reply, bye, refuse, silent};
use std::alloc::Global;
use std::sync::Wait;
use std::thread::Threads;
use step_budget::Steps;

/// Answers a command with its body. The command makes its turn. Its reply is `no memory` only if no
/// earlier refusal holds: of KIND, of NAME, of `matrix` those of the lines up to the sizes, and of
/// `asm` those of all lines.
pub fn answer_with_body(
    alloc: Global,
    workspace: &mut Workspace,
    header: Header<'_>,
    body: Vec<u8>,
    reply: &mut Reply,
)
    ensures turn { Turn (state_of workspace.old) (with_body (header_of header.entry) body.items) []
        (whole reply.new) (state_of workspace.new) }
    ensures binds { Binds (state_of workspace.old) (header_of header.entry) body.items (whole reply.new)
        (state_of workspace.new) }
    ensures queue { (state_of workspace.new).queue ≡ (state_of workspace.old).queue }
{
    match header {
        Header::Matrix { name } => matrix(alloc, workspace, name, &body, reply),
        Header::Op { name, kind } => operator(alloc, workspace, name, kind, body, reply),
        Header::Asm { name, kind } => assembly(alloc, workspace, name, kind, &body, reply),
    }
}

/// Answers a command without a body. What the caller owes its budget grows and shrinks with the
/// prices of the jobs that wait.
pub fn answer<T: Steps, H: Threads + Wait>(
    rt: &H,
    alloc: Global,
    workspace: &mut Workspace,
    command: Command<'_>,
    steps: &mut T,
    reply: &mut Reply,
)
    requires owed { total_price (state_of workspace.old).queue ≤ T.owes steps.old }
    ensures turn { (dealings : List Dealing) ×
        Turn (state_of workspace.old) (command_of command.entry) dealings (whole reply.new)
        (state_of workspace.new) × Deals T.leads steps.old dealings steps.new }
    ensures owed { total_price (state_of workspace.new).queue + T.owes steps.old ≡
        total_price (state_of workspace.old).queue + T.owes steps.new }
{
    match command {
        Command::Blank => silent(reply),
        Command::Submit(submission) => submit(rt, alloc, workspace, &submission, steps, reply),
        Command::Run => run(rt, alloc, workspace, steps, reply),
        Command::Show { name } => show(alloc, workspace, name, reply),
        Command::Types { name } => types(alloc, workspace, name, reply),
        Command::Dis { name } => disassembly(alloc, workspace, name, reply),
        Command::Budget => budget(rt, steps, reply),
        Command::Quit => bye(reply),
        Command::Refuse(rule) => refuse(reply, Refusal::Session(rule)),
    }
}
