//! The commands `matrix`, `op` and `asm`, which bind a name to what their body says.
ghost use Rattle.std.specs.Prelude.{◌≡◌};
ghost use Rattle.command_text.specs.ReplyText.{whole};
ghost use Rattle.workspace.specs.Workspace.{state_of};
ghost use Rattle.command_text.specs.Words.{kind_of_word};
ghost use Rattle.workspace.specs.Binds.{BindsMatrix, BindsAssembly, BindsDigits, BindsLines};
ghost use Rattle.workspace.specs.inner.Binds.{BindsCode, BindsProgram};

use crate::workspace::Workspace;
use bpf_insn::{DecodeError, Kind, Program, decode};
use bpf_text::{AsmError, assemble};
use bpf_verify::{VerifyError, verify};
use command_text::{
    HexFault, Refusal, Reply, SessionRule, accept_matrix, accept_operator, as_name, parse_kind,
    refuse, unhex,
};
use matrix_market::{MarketError, read};
use std::alloc::Global;

/// `matrix NAME LEN`: reads the body as matrix text, and binds the name to the matrix.
pub fn matrix(alloc: Global, workspace: &mut Workspace, name: &[u8], body: &[u8], reply: &mut Reply)
    ensures binds { BindsMatrix (state_of workspace.old) name.now body.now (whole reply.new) (state_of workspace.new) }
    ensures queue { (state_of workspace.new).queue ≡ (state_of workspace.old).queue }
{
    let Some(name) = as_name(name) else {
        return refuse(reply, Refusal::Session(SessionRule::MalformedName));
    };
    match read(alloc, body) {
        Ok(matrix) => {
            let (rows, columns, entries) = (matrix.rows(), matrix.columns(), matrix.entries());
            if workspace.bind_matrix(alloc, name, matrix).is_err() {
                refuse(reply, Refusal::Memory);
            } else {
                accept_matrix(reply, rows, columns, entries);
            }
        }
        Err(MarketError::Fault { rule, line }) => refuse(reply, Refusal::Market { rule, line }),
        Err(MarketError::NoRoom(_)) => refuse(reply, Refusal::Memory),
        // The text breaks no rule.
        Err(MarketError::Memory(_)) => refuse(reply, Refusal::Memory),
    }
}

/// Verifies a program as an operator of the kind, and binds the name to it.
fn take_program(
    alloc: Global,
    workspace: &mut Workspace,
    name: &str,
    kind: Kind,
    program: Program,
    reply: &mut Reply,
)
    ensures binds { BindsProgram (state_of workspace.old) name.now kind program (whole reply.new)
        (state_of workspace.new) }
    ensures queue { (state_of workspace.new).queue ≡ (state_of workspace.old).queue }
{
    match verify(alloc, program, kind) {
        Ok(operator) => {
            let (slots, length) = (operator.program().slots(), operator.len());
            if workspace.bind_operator(alloc, name, operator).is_err() {
                refuse(reply, Refusal::Memory);
            } else {
                accept_operator(reply, slots, length);
            }
        }
        Err((_, VerifyError::Fault(fault))) => refuse(reply, Refusal::Code(fault)),
        Err((_, VerifyError::Memory)) => refuse(reply, Refusal::Memory),
    }
}

/// Decodes code, and takes its program.
fn take_code(
    alloc: Global,
    workspace: &mut Workspace,
    name: &str,
    kind: Kind,
    code: &[u8],
    reply: &mut Reply,
)
    ensures binds { BindsCode (state_of workspace.old) name.now kind code.now (whole reply.new)
        (state_of workspace.new) }
    ensures queue { (state_of workspace.new).queue ≡ (state_of workspace.old).queue }
{
    match decode(alloc, code) {
        Ok(program) => take_program(alloc, workspace, name, kind, program, reply),
        Err(DecodeError::Fault(fault)) => refuse(reply, Refusal::Code(fault)),
        Err(DecodeError::Memory) => refuse(reply, Refusal::Memory),
    }
}

/// `op NAME KIND LEN`: reads the body as the code of a program in hexadecimal digits, and binds the
/// name to it.
pub fn operator(
    alloc: Global,
    workspace: &mut Workspace,
    name: &[u8],
    kind: &[u8],
    body: Vec<u8>,
    reply: &mut Reply,
)
    ensures binds { BindsDigits (state_of workspace.old) name.now (kind_of_word kind.now) body.items (whole reply.new)
        (state_of workspace.new) }
    ensures queue { (state_of workspace.new).queue ≡ (state_of workspace.old).queue }
{
    let Some(kind) = parse_kind(kind) else {
        return refuse(reply, Refusal::Session(SessionRule::MalformedWords));
    };
    let Some(name) = as_name(name) else {
        return refuse(reply, Refusal::Session(SessionRule::MalformedName));
    };
    match unhex(alloc, body) {
        Ok(code) => take_code(alloc, workspace, name, kind, &code, reply),
        Err(HexFault::Malformed) => refuse(reply, Refusal::Session(SessionRule::NotHexadecimal)),
        Err(HexFault::Memory) => refuse(reply, Refusal::Memory),
    }
}

/// Assembles a text, and takes its program.
fn take_assembly(
    alloc: Global,
    workspace: &mut Workspace,
    name: &str,
    kind: Kind,
    text: &[u8],
    reply: &mut Reply,
)
    ensures binds { BindsAssembly (state_of workspace.old) name.now kind text.now (whole reply.new)
        (state_of workspace.new) }
    ensures queue { (state_of workspace.new).queue ≡ (state_of workspace.old).queue }
{
    match assemble(alloc, text) {
        Ok(program) => take_program(alloc, workspace, name, kind, program, reply),
        Err(AsmError::Fault(fault)) => refuse(reply, Refusal::Assembly(fault)),
        Err(AsmError::Memory) => refuse(reply, Refusal::Memory),
    }
}

/// `asm NAME KIND LEN`: reads the body as assembly text, and binds the name to its program.
pub fn assembly(
    alloc: Global,
    workspace: &mut Workspace,
    name: &[u8],
    kind: &[u8],
    body: &[u8],
    reply: &mut Reply,
)
    ensures binds { BindsLines (state_of workspace.old) name.now (kind_of_word kind.now) body.now (whole reply.new)
        (state_of workspace.new) }
    ensures queue { (state_of workspace.new).queue ≡ (state_of workspace.old).queue }
{
    let Some(kind) = parse_kind(kind) else {
        return refuse(reply, Refusal::Session(SessionRule::MalformedWords));
    };
    let Some(name) = as_name(name) else {
        return refuse(reply, Refusal::Session(SessionRule::MalformedName));
    };
    take_assembly(alloc, workspace, name, kind, body, reply);
}
