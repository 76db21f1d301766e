//! What is told of an operator's text or code.
ghost use Rattle.std.specs.Prelude.{◌≡◌, Err, Ok, length};
ghost use Rattle.bpf_insn.specs.Rule as code;
ghost use Rattle.bpf_text.specs.Rule as text;
ghost use Rattle.spmat_lib.specs.Verdict.{assembled, ruled};

use bpf_insn::{CodeRule, Fault};
use bpf_text::{AsmError, AsmRule};
use bpf_verify::Operator;

/// What is told of an operator: its size, or why it was refused.
#[repr(C)]
#[derive(Clone, Copy)]
pub struct Verdict {
    /// 0 of what was taken, k of what breaks rule Ak or Vk, 17 where memory was refused, and 18
    /// where the arrays of a call don't fit.
    pub rule: u64,
    /// The line, from 1, or the slot, from 0, that breaks the rule; otherwise 0.
    pub at: u64,
    /// The bytes of the code, or the instructions of the operator.
    pub size: u64,
}

/// What is told where the arrays of a call don't fit.
pub const ODD: Verdict = Verdict {
    rule: 18,
    at: 0,
    size: 0,
};

/// What is told where memory was refused.
const MEMORY: Verdict = Verdict {
    rule: 17,
    at: 0,
    size: 0,
};

/// The verdict on a text that was assembled to code.
pub fn assembled(code: &[u8]) -> Verdict
    ensures { result ≡ record { rule = 0; at = 0; size = length code.now } }
{
    taken(code.len() as u64)
}

/// The verdict on code that was taken as an operator.
pub fn accepted(operator: &Operator) -> Verdict
    ensures { result ≡ ruled (Ok operator.now) }
{
    taken(operator.len())
}

/// The verdict on what was taken, by its size.
fn taken(size: u64) -> Verdict
    ensures { result ≡ record { rule = 0; at = 0; size = size } }
{
    Verdict {
        rule: 0,
        at: 0,
        size,
    }
}

/// The verdict on a text that was refused.
pub fn refused_text(error: AsmError) -> Verdict
    ensures { result ≡ assembled (Err error) }
{
    match error {
        AsmError::Fault(fault) => Verdict {
            rule: number_of_text(fault.rule),
            at: fault.line,
            size: 0,
        },
        AsmError::Memory => MEMORY,
    }
}

/// The verdict on code that was refused: for its fault, or since memory was refused.
pub fn refused_code(fault: Option<Fault>) -> Verdict
    ensures { result ≡ ruled (Err fault) }
{
    match fault {
        Some(fault) => Verdict {
            rule: number_of_code(fault.rule),
            at: fault.slot,
            size: 0,
        },
        None => MEMORY,
    }
}

/// The number of a rule of text, 1 of A1.
fn number_of_text(rule: AsmRule) -> u64
    ensures { result ≡ text.rule_number rule }
{
    match rule {
        AsmRule::LineTooLong => 1,
        AsmRule::UnknownMnemonic => 2,
        AsmRule::MalformedOperands => 3,
        AsmRule::UnknownRegister => 4,
        AsmRule::NumberOutOfRange => 5,
        AsmRule::BadLength => 6,
    }
}

/// The number of a rule of code, 1 of V1.
fn number_of_code(rule: CodeRule) -> u64
    ensures { result ≡ code.rule_number rule }
{
    match rule {
        CodeRule::BadLength => 1,
        CodeRule::UnknownOpcode => 2,
        CodeRule::OutsideProfile => 3,
        CodeRule::RegisterAboveTen => 4,
        CodeRule::UnusedField => 5,
        CodeRule::BrokenWideLoad => 6,
        CodeRule::JumpsBack => 7,
        CodeRule::JumpsNowhere => 8,
        CodeRule::StackTopWritten => 9,
        CodeRule::NoExitAtEnd => 10,
        CodeRule::UnsetRead => 11,
        CodeRule::MixedRead => 12,
        CodeRule::NumberWanted => 13,
        CodeRule::PlaceWanted => 14,
        CodeRule::OutsideStack => 15,
        CodeRule::UnstoredRead => 16,
    }
}
