//! Why a program isn't an operator.
use bpf_insn::Fault;
use thiserror::Error;

/// Why a program is no operator.
#[derive(Debug, Drop, Error)]
pub enum VerifyError {
    /// It breaks a rule of `V7` to `V16`.
    #[error("slot {slot}: {rule}", slot = .0.slot, rule = .0.rule)]
    Fault(Fault),
    /// There was no memory for what is known at its slots, or for its flat code.
    #[error("no memory for the operator")]
    Memory,
}
