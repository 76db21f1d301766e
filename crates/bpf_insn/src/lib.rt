//! BPF instructions (RFC 9669), their code, and the machine that runs them.
//!
//! A program is a list of instructions, and code is the bytes that spell it. `decode` succeeds
//! exactly on code that spells a program, and else names the slot and the lowest rule that the
//! code breaks there; `encode` gives the one code of a program. The tagged machine of `run_tagged`
//! gives a program's value on operands with its number of steps, or the slot and the rule at which
//! it is stuck, exactly as the table of effects says, and ends on every program.
//!
//! Read `reg` and `insn` (what an instruction is), `rule` and `fault` (what can be wrong),
//! `program`; `table` (a row for each operation and condition), `opcode`, `fields` and `slot`,
//! `spell` and `encoder`, `check`, `build` and `decoder`; then what an instruction means:
//! `operands`, `content` and `frame` (the state of the machine), `reads` and `bounds` (what an
//! instruction reads, writes and accesses), `arithmetic` (what it computes). The machine in code is
//! `machine`, which only tests run. Its meaning is in specs/: Rule, Opcode, Fields, Spelling,
//! Broken, Program, Code, then Arithmetic, Reads, Effects, Machine, Stepping, Run.
#![tactic(auto)]

pub mod arithmetic;
mod bounds;
mod build;
mod check;
mod content;
mod decoder;
mod encoder;
mod fault;
mod fields;
mod frame;
mod insn;
mod machine;
mod opcode;
mod operands;
mod program;
mod reads;
mod reg;
mod rule;
mod slot;
mod spell;
mod table;

pub use bounds::is_outside_stack;
pub use content::Content;
pub use decoder::decode;
pub use encoder::encode;
pub use fault::{DecodeError, Fault, InsnsError};
pub use insn::{
    AluOp, ByteOrder, Cond, EndSize, Extension, Insn, Operand, SignedSize, Size, Width,
};
pub use machine::run::{Ran, run_tagged};
pub use machine::stepped::Stepped;
pub use machine::tagged::Tagged;
pub use operands::{Kind, Operands};
pub use program::{MOST_SLOTS, Program};
pub use reads::{Access, Reads, Registers};
pub use reg::Reg;
pub use rule::CodeRule;
