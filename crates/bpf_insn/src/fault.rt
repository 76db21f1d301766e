//! Where code breaks a rule, and the errors that say so.
use crate::rule::CodeRule;
use thiserror::Error;

/// The slot at which code breaks a rule, and the rule of the lowest number that it breaks
/// there.
#[derive(Clone, Copy, Debug, PartialEq, Eq)]
pub struct Fault {
    pub slot: u64,
    pub rule: CodeRule,
}

/// Why bytes were not decoded.
#[derive(Debug, Drop, Error)]
pub enum DecodeError {
    /// The bytes are not the code of a program.
    #[error("slot {slot}: {rule}", slot = .0.slot, rule = .0.rule)]
    Fault(Fault),
    /// The bytes are the code of a program, and there was not enough memory for it.
    #[error("out of memory for the program")]
    Memory,
}

/// Why instructions are no program.
#[derive(Debug, Drop, Error)]
pub enum InsnsError {
    /// There are no instructions, or they have more than 4,096 slots: `V1`, at slot 0 or 4,096.
    #[error("slot {slot}: {rule}", slot = .0.slot, rule = .0.rule)]
    Fault(Fault),
    /// There was not enough memory for the program.
    #[error("out of memory for the program")]
    Memory,
}
