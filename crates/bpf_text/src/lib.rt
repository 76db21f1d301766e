//! Assembly text: operators as a person writes and reads them.
//!
//! The one contract is over `IsTextOf` and `IsTextFault` of `specs/Text.antt`. `assemble` returns
//! the one program that a text denotes, or otherwise the first faulty line of the text with the
//! lowest rule that it breaks. `disassemble` writes the canonical text of a program, which denotes
//! that program alone: so assembling what was disassembled gives the program back.
//!
//! Read `rule` and `fault` (what can be wrong), `mnemonic` and `names` (mnemonics), `argument`
//! (operands as a line has them) and `line` (how a line is cut); then `operand`, `shape` and
//! `build` (a mnemonic and operands make an instruction), `statement` (a line), `listing` and
//! `assembler` (a text), and `disassembler`. The definitions are in specs/: Rule, Names, Forms,
//! Lines, Text, Canonical.
#![tactic(auto)]

mod argument;
mod assembler;
mod build;
mod disassembler;
mod fault;
mod line;
mod listing;
mod mnemonic;
mod names;
mod operand;
mod rule;
mod shape;
mod statement;

pub use assembler::assemble;
pub use disassembler::disassemble;
pub use fault::{AsmError, AsmFault};
pub use rule::AsmRule;
