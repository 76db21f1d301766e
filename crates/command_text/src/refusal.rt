//! Why a command is refused.

use crate::rules::{FatalRule, SessionRule};
use bpf_insn::Fault;
use bpf_text::AsmFault;
use job_plan::JobError;
use matrix_market::MarketRule;

/// Why a command is refused, with the numbers that the reply gives. Each is one line, which begins
/// with `no`.
#[derive(Clone, Copy)]
pub enum Refusal {
    /// A rule of the session.
    Session(SessionRule),
    /// A rule after whose refusal no session can go on.
    Fatal(FatalRule),
    /// `J6`: 64 jobs wait already.
    QueueFull,
    /// A rule of a job that is submitted.
    Job(JobError),
    /// A rule of code, and the slot that breaks it.
    Code(Fault),
    /// A rule of assembly text, and the line that breaks it.
    Assembly(AsmFault),
    /// A rule of matrix text, and the line that breaks it.
    Market { rule: MarketRule, line: u64 },
    /// `S8`: fewer steps are left than the price.
    Budget { price: u64, left: u64 },
    /// Out of memory.
    Memory,
    /// Out of memory in a batch, of which so many steps were spent.
    BatchMemory { spent: u64 },
    /// A thread could not be started for a batch, of which so many steps were spent.
    BatchThread { spent: u64 },
}
