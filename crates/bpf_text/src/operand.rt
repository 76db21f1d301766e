//! One operand of a line, as a register or a field.
ghost use Rattle.std.specs.Prelude.{◌≡◌, ◌≢◌, ◌<◌, ◌^◌, ℕ, ℤ, MatchOption};
ghost use Rattle.std.specs.Int.{cast_signed, w16, w32, w64};
ghost use Rattle.std.specs.Int.RustNames.{FitsSigned};
ghost use Rattle.bpf_insn.specs.declared.insn.Operand.{Operand};
ghost use Rattle.bpf_insn.specs.declared.reg.Reg.{Reg};
ghost use Rattle.bpf_insn.specs.Spelling.{OperandFits};
ghost use Rattle.bpf_text.specs.declared.argument.Argument.TheVariants as argument;
ghost use Rattle.bpf_text.specs.Mnemonics.{argument_of_operand};

use crate::argument::Argument;
use bpf_insn::{Operand, Reg};

impl Argument {
    /// The register.
    pub fn register(self) -> Option<Reg>
        ensures { MatchOption result
            ((r : Reg) → argument.Register r ≢ self)
            (λ r. argument.Register r ≡ self) }
    {
        match self {
            Argument::Register(register) => Some(register),
            _ => None,
        }
    }

    /// A number of 16 bits.
    pub fn offset(self) -> Option<i16>
        ensures { MatchOption result
            ((n : ℤ) → FitsSigned w16 n → argument.Number n ≢ self)
            (λ n. FitsSigned w16 n × (argument.Number n ≡ self)) }
    {
        match self {
            // Out of range is None, as a wrong kind is. `broken_rule` tells the two apart.
            Argument::Number(number) => i16::try_from(number).ok(),
            _ => None,
        }
    }

    /// A number of 32 bits.
    pub fn imm(self) -> Option<i32>
        ensures { MatchOption result
            ((n : ℤ) → FitsSigned w32 n → argument.Number n ≢ self)
            (λ n. FitsSigned w32 n × (argument.Number n ≡ self)) }
    {
        match self {
            Argument::Number(number) => i32::try_from(number).ok(),
            _ => None,
        }
    }

    /// The word that has the number as its signed reading.
    pub fn word(self) -> Option<u64>
        ensures { MatchOption result
            ((v : ℕ) → v < 2 ^ 64 → argument.Number (cast_signed w64 v) ≢ self)
            (λ v. (v < 2 ^ 64) × (argument.Number (cast_signed w64 v) ≡ self)) }
    {
        match self {
            // Every signed number of 64 bits is a word, so none is out of range.
            Argument::Number(number) => Some(number.cast_unsigned()),
            _ => None,
        }
    }

    /// A second operand: a register, or a number of 32 bits.
    pub fn operand(self) -> Option<Operand>
        ensures { MatchOption result
            ((s : Operand) → OperandFits s → argument_of_operand s ≢ self)
            (λ s. OperandFits s × (argument_of_operand s ≡ self)) }
    {
        match self {
            Argument::Register(register) => Some(Operand::Register(register)),
            // Anything but a register has to be a number, also a word that was meant as a register.
            _ => Some(Operand::Imm(self.imm()?)),
        }
    }
}
