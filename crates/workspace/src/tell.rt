//! The commands `show`, `types` and `dis`, which write what a name stands for.
ghost use Rattle.std.specs.Prelude.{◌≡◌, []};
ghost use Rattle.command_text.specs.Readings.{name_of};
ghost use Rattle.command_text.specs.ReplyText.{whole};
ghost use Rattle.command_text.specs.Requests.{Dis, Show, Types};
ghost use Rattle.workspace.specs.Workspace.{state_of};
ghost use Rattle.workspace.specs.Turn.{Turn};

use crate::types::types_text;
use crate::workspace::Workspace;
use bpf_text::disassemble;
use command_text::{Name, Refusal, Reply, SessionRule, list, refuse, show as show_text};
use matrix_market::write;
use std::alloc::Global;

/// `show NAME`: the matrix text of a matrix.
pub fn show(alloc: Global, workspace: &Workspace, name: Name<'_>, reply: &mut Reply)
    ensures { Turn (state_of workspace.now) (Show (name_of name.entry)) [] (whole reply.new) (state_of workspace.now) }
{
    let Some(matrix) = workspace.matrix(name) else {
        return refuse(reply, Refusal::Session(SessionRule::UnknownName));
    };
    match write(alloc, matrix) {
        Ok(text) => show_text(reply, text),
        Err(_) => refuse(reply, Refusal::Memory),
    }
}

/// `types NAME`: what the verifier knows of the registers at each instruction of an operator.
pub fn types(alloc: Global, workspace: &Workspace, name: Name<'_>, reply: &mut Reply)
    ensures { Turn (state_of workspace.now) (Types (name_of name.entry)) [] (whole reply.new) (state_of workspace.now) }
{
    let Some(operator) = workspace.operator(name) else {
        return refuse(reply, Refusal::Session(SessionRule::UnknownName));
    };
    match types_text(alloc, operator) {
        Ok(text) => list(reply, "types", operator.len(), text),
        Err(_) => refuse(reply, Refusal::Memory),
    }
}

/// `dis NAME`: the program of an operator as assembly text.
pub fn disassembly(alloc: Global, workspace: &Workspace, name: Name<'_>, reply: &mut Reply)
    ensures { Turn (state_of workspace.now) (Dis (name_of name.entry)) [] (whole reply.new) (state_of workspace.now) }
{
    let Some(operator) = workspace.operator(name) else {
        return refuse(reply, Refusal::Session(SessionRule::UnknownName));
    };
    match disassemble(alloc, operator.program()) {
        Ok(text) => list(reply, "dis", operator.len(), text.into_bytes()),
        Err(_) => refuse(reply, Refusal::Memory),
    }
}
