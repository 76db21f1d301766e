//! Where assembly text breaks a rule, and the error that says so.
use crate::rule::AsmRule;
use thiserror::Error;

/// The first line that breaks a rule, from 1, and the rule of the lowest number that it breaks.
#[derive(Clone, Copy, Debug, PartialEq, Eq)]
pub struct AsmFault {
    pub line: u64,
    pub rule: AsmRule,
}

/// Why a text was not assembled.
#[derive(Clone, Copy, Debug, PartialEq, Eq, Error)]
pub enum AsmError {
    /// The text stands for no program.
    #[error("line {line}: {rule}", line = .0.line, rule = .0.rule)]
    Fault(AsmFault),
    /// The text stands for a program, for which there was no memory.
    #[error("no memory for the program")]
    Memory,
}
