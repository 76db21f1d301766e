//! Calls of an operator, on operands in an array.
ghost use Rattle.std.specs.Prelude.{◌≡◌, ◌≤◌, ◌+◌, ◌*◌, IfErr, IfOk, length, map};
ghost use Rattle.bpf_insn.specs.Code.{Spells};
ghost use Rattle.bpf_insn.specs.Machine.{kind_of};
ghost use Rattle.bpf_run.specs.Meaning.{value_of, cost_of};
ghost use Rattle.bpf_verify.specs.Accepted.{IsAcceptable};
ghost use Rattle.spmat_lib.specs.Calls as spec;
ghost use Rattle.spmat_lib.specs.Calls.{AreCalled, IsRefused, kind_for, operands_below};
ghost use Rattle.spmat_lib.specs.inner.Arity.{arity};

use crate::verdict::{self, Verdict};
use bpf_insn::{DecodeError, Fault, Kind, Operands, decode};
use bpf_run::call;
use bpf_verify::{Operator, VerifyError, verify};
use std::alloc::Global;

/// The kind of operator that takes so many words, if arrays of these lengths are for its calls.
pub fn kind_for(words: u64, operands: usize, values: usize, steps: usize) -> Option<Kind>
    ensures { result ≡ kind_for words operands values steps }
{
    if words == 1 && operands == values && steps == values {
        Some(Kind::Unary)
    } else if words == 2 && operands % 2 == 0 && operands / 2 == values && steps == values {
        Some(Kind::Binary)
    } else if words == 4 && operands % 4 == 0 && operands / 4 == values && steps == values {
        Some(Kind::Index)
    } else {
        None
    }
}

/// Takes code as an operator of a kind, and calls it on the words of each call.
pub fn call_code(
    alloc: Global,
    kind: Kind,
    code: &[u8],
    operands: &[u64],
    values: &mut [u64],
    steps: &mut [u64],
) -> Verdict
    requires words { length operands.now ≡ arity kind * length values.old }
    requires steps { length steps.old ≡ length values.old }
    ensures { AreCalled kind code.now operands.now values.new steps.new result }
{
    match take(alloc, kind, code) {
        Err(fault) => verdict::refused_code(fault),
        Ok(operator) => {
            call_all(&operator, operands, values, steps);
            verdict::accepted(&operator)
        }
    }
}

/// The operator of a kind whose code this is, or the fault of the code; None where memory was
/// refused.
fn take(alloc: Global, kind: Kind, code: &[u8]) -> Result<Operator, Option<Fault>>
    ensures kind { IfOk result (λ operator. operator.kind ≡ kind) }
    ensures spelt { IfOk result (λ operator. Spells code.now operator.insns) }
    ensures acceptable { IfOk result (λ operator. IsAcceptable kind operator.insns) }
    ensures refused { IfErr result (IsRefused kind code.now) }
{
    let program = match decode(alloc, code) {
        Ok(program) => program,
        Err(DecodeError::Fault(fault)) => return Err(Some(fault)),
        Err(DecodeError::Memory) => return Err(None),
    };
    match verify(alloc, program, kind) {
        Ok(operator) => Ok(operator),
        Err((_, VerifyError::Fault(fault))) => Err(Some(fault)),
        Err((_, VerifyError::Memory)) => Err(None),
    }
}

/// Calls an operator on the words of each call, and writes the value and the steps of each.
fn call_all(operator: &Operator, operands: &[u64], values: &mut [u64], steps: &mut [u64])
    requires words { length operands.now ≡ arity operator.now.kind * length values.old }
    requires steps { length steps.old ≡ length values.old }
    ensures values { values.new ≡ map (value_of operator.now)
        (operands_below operator.now.kind operands.now (length values.old)) }
    ensures steps { steps.new ≡ map (cost_of operator.now)
        (operands_below operator.now.kind operands.now (length values.old)) }
{
    let kind = operator.kind();
    for k in 0..values.len() {
        let called = call(operator, &operands_at(kind, operands, k));
        values[k] = called.value;
        steps[k] = called.steps;
    }
}

/// The operands of a call, counted from 0.
#[inline(always)]
fn operands_at(kind: Kind, words: &[u64], k: usize) -> Operands
    requires { arity kind * (k + 1) ≤ length words.now }
    ensures operands { result ≡ spec.operands_at kind words.now k }
    ensures kind { kind_of result ≡ kind }
{
    match kind {
        Kind::Unary => Operands::Unary { x: words[k] },
        Kind::Binary => Operands::Binary {
            x: words[2 * k],
            y: words[2 * k + 1],
        },
        Kind::Index => Operands::Index {
            x: words[4 * k],
            row: words[4 * k + 1],
            column: words[4 * k + 2],
            thunk: words[4 * k + 3],
        },
    }
}
