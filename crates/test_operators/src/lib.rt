//! Operators for tests, written as assembly text. No crate of the program uses this one.
//!
//! A text has an instruction a line, as `docs/operators.md` says. Texts that several crates of
//! tests share stand here.
#![tactic(auto)]

ghost use Rattle.std.specs.Prelude.{◌≡◌, IfOk};

use bpf_insn::Kind;
use bpf_text::{AsmError, assemble};
use bpf_verify::{Operator, VerifyError, verify};
use std::alloc::Global;
use thiserror::Error;

/// x + 1, for a kind of any operands.
pub const INCREMENT: &str = "
    mov64 r0, r1
    add64 r0, 1
    exit
";

/// x - y, for a kind of two operands or more.
pub const SUBTRACT: &str = "
    mov64 r0, r1
    sub64 r0, r2
    exit
";

/// x * y, for a kind of two operands or more.
pub const MULTIPLY: &str = "
    mov64 r0, r1
    mul64 r0, r2
    exit
";

/// Why there is no operator of a text.
#[derive(Debug, Drop, Error)]
pub enum NoOperator {
    /// The text has a fault, or there was no memory for its program.
    #[error("{0}")]
    Text(AsmError),
    /// The verifier refuses the program, or there was no memory for the operator.
    #[error("{0}")]
    Program(VerifyError),
}

/// The operator of a text. A text with a fault is the test's own fault, and comes back with its
/// line or its slot.
pub fn assembled(alloc: Global, kind: Kind, text: &str) -> Result<Operator, NoOperator>
    ensures { IfOk result (λ operator. operator.kind ≡ kind) }
{
    let program = assemble(alloc, text.as_bytes()).map_err(NoOperator::Text)?;
    match verify(alloc, program, kind) {
        Ok(operator) => Ok(operator),
        Err((_, error)) => Err(NoOperator::Program(error)),
    }
}
