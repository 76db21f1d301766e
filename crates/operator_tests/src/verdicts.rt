//! What comes back with a refusal, and what is known at the slots of an operator beyond what
//! `types` tells.
mod refused;
mod typing;

use bpf_insn::{CodeRule, Fault, Kind};
use bpf_text::assemble;
use bpf_verify::{Operator, Tag, VerifyError, verify};
use std::alloc::Global;
use std::process::Abort;
use std::test::Fail;

/// The operator of a text, which is not refused.
fn accepted(rt: &impl Abort, alloc: Global, text: &str, kind: Kind) -> Result<Operator, Fail> {
    match verify(alloc, assemble(alloc, text.as_bytes())?, kind) {
        Ok(operator) => Ok(operator),
        Err(_) => panic!(rt; "refused"),
    }
}

#[test]
fn an_operator_has_its_program(rt: HostRuntime) -> Result<(), Fail> {
    let operator = accepted(&rt, rt.alloc(), "wide r0, 1\nexit", Kind::Index)?;
    assert_eq!(rt; operator.len(), 2);
    assert_eq!(rt; operator.program().slots(), 3);
    assert_eq!(rt; operator.kind(), Kind::Index);
    Ok(())
}

/// R0 is unset on one way.
const ON_ONE_WAY: &str = "
    jeq64 r1, 0, 1
    mov64 r0, 0
    exit
";

#[test]
fn a_refused_program_comes_back(rt: HostRuntime) -> Result<(), Fail> {
    let program = assemble(rt.alloc(), ON_ONE_WAY.as_bytes())?;
    match verify(rt.alloc(), program, Kind::Unary) {
        Ok(_) => panic!(rt; "accepted"),
        Err((program, error)) => {
            assert_eq!(rt; (program.len(), program.slots()), (3, 3));
            assert_fault(&rt, error, 2, CodeRule::UnsetRead);
        }
    }
    Ok(())
}

/// An error is this fault.
fn assert_fault(rt: &impl Abort, error: VerifyError, slot: u64, rule: CodeRule) {
    match error {
        VerifyError::Fault(fault) => assert_eq!(rt; fault, Fault { slot, rule }),
        VerifyError::Memory => panic!(rt; "no memory"),
    }
}
