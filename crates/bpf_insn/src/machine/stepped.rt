//! The result of a step.
use crate::fault::Fault;

/// The result of a step of the machine.
#[derive(Clone, Copy, Debug, PartialEq, Eq)]
pub enum Stepped {
    /// The machine went on to another slot.
    Went,
    /// The machine is done, with this value.
    Done(u64),
    /// The machine is stuck at this slot, since the instruction there breaks this rule.
    Stuck(Fault),
}
