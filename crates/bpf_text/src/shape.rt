//! The operands of a line, by the forms that instructions have.
ghost use Rattle.std.specs.Prelude.{◌≡◌, ◌≢◌, ◌<◌, ◌∷◌, ◌^◌, ℕ, ℤ, [], MatchOption};
ghost use Rattle.std.specs.Int.{cast_signed, w16, w32, w64};
ghost use Rattle.std.specs.Int.RustNames.{FitsSigned};
ghost use Rattle.bpf_insn.specs.declared.insn.Operand.{Operand};
ghost use Rattle.bpf_insn.specs.declared.reg.Reg.{Reg};
ghost use Rattle.bpf_insn.specs.Spelling.{OperandFits};
ghost use Rattle.bpf_text.specs.declared.argument.Argument.TheVariants as argument;
ghost use Rattle.bpf_text.specs.Mnemonics.{argument_of_operand};
ghost use Rattle.bpf_text.specs.inner.Arguments.{list_of};

use crate::argument::Arguments;
use bpf_insn::{Operand, Reg};

impl Arguments {
    pub fn register(self) -> Option<Reg>
        ensures { MatchOption result
            ((r : Reg) → argument.Register r ∷ [] ≢ list_of self)
            (λ r. argument.Register r ∷ [] ≡ list_of self) }
    {
        match self {
            Arguments::One(register) => register.register(),
            _ => None,
        }
    }

    pub fn offset(self) -> Option<i16>
        ensures { MatchOption result
            ((n : ℤ) → FitsSigned w16 n → argument.Number n ∷ [] ≢ list_of self)
            (λ n. FitsSigned w16 n × (argument.Number n ∷ [] ≡ list_of self)) }
    {
        match self {
            Arguments::One(offset) => offset.offset(),
            _ => None,
        }
    }

    pub fn imm(self) -> Option<i32>
        ensures { MatchOption result
            ((n : ℤ) → FitsSigned w32 n → argument.Number n ∷ [] ≢ list_of self)
            (λ n. FitsSigned w32 n × (argument.Number n ∷ [] ≡ list_of self)) }
    {
        match self {
            Arguments::One(imm) => imm.imm(),
            _ => None,
        }
    }

    pub fn registers(self) -> Option<(Reg, Reg)>
        ensures { MatchOption result
            ((r s : Reg) → argument.Register r ∷ argument.Register s ∷ [] ≢ list_of self)
            (λ p. argument.Register p.0 ∷ argument.Register p.1 ∷ [] ≡ list_of self) }
    {
        match self {
            Arguments::Two(first, second) => Some((first.register()?, second.register()?)),
            _ => None,
        }
    }

    pub fn register_operand(self) -> Option<(Reg, Operand)>
        ensures { MatchOption result
            ((r : Reg) (s : Operand) → OperandFits s
            → argument.Register r ∷ argument_of_operand s ∷ [] ≢ list_of self)
            (λ p. OperandFits p.1
            × (argument.Register p.0 ∷ argument_of_operand p.1 ∷ [] ≡ list_of self)) }
    {
        match self {
            Arguments::Two(register, operand) => Some((register.register()?, operand.operand()?)),
            _ => None,
        }
    }

    pub fn register_word(self) -> Option<(Reg, u64)>
        ensures { MatchOption result
            ((r : Reg) (v : ℕ) → v < 2 ^ 64
            → argument.Register r ∷ argument.Number (cast_signed w64 v) ∷ [] ≢ list_of self)
            (λ p. (p.1 < 2 ^ 64)
            × (argument.Register p.0 ∷ argument.Number (cast_signed w64 p.1) ∷ [] ≡ list_of self)) }
    {
        match self {
            Arguments::Two(register, word) => Some((register.register()?, word.word()?)),
            _ => None,
        }
    }

    pub fn register_operand_offset(self) -> Option<(Reg, Operand, i16)>
        ensures { MatchOption result
            ((r : Reg) (s : Operand) (n : ℤ) → OperandFits s → FitsSigned w16 n
            → argument.Register r ∷ argument_of_operand s ∷ argument.Number n ∷ [] ≢ list_of self)
            (λ p. OperandFits p.1 × FitsSigned w16 p.2
            × (argument.Register p.0 ∷ argument_of_operand p.1 ∷ argument.Number p.2 ∷ [] ≡ list_of self)) }
    {
        match self {
            Arguments::Three(register, operand, offset) => {
                Some((register.register()?, operand.operand()?, offset.offset()?))
            }
            _ => None,
        }
    }

    pub fn registers_offset(self) -> Option<(Reg, Reg, i16)>
        ensures { MatchOption result
            ((r s : Reg) (n : ℤ) → FitsSigned w16 n
            → argument.Register r ∷ argument.Register s ∷ argument.Number n ∷ [] ≢ list_of self)
            (λ p. FitsSigned w16 p.2
            × (argument.Register p.0 ∷ argument.Register p.1 ∷ argument.Number p.2 ∷ [] ≡ list_of self)) }
    {
        match self {
            Arguments::Three(first, second, offset) => {
                Some((first.register()?, second.register()?, offset.offset()?))
            }
            _ => None,
        }
    }

    pub fn register_offset_register(self) -> Option<(Reg, i16, Reg)>
        ensures { MatchOption result
            ((r : Reg) (n : ℤ) (s : Reg) → FitsSigned w16 n
            → argument.Register r ∷ argument.Number n ∷ argument.Register s ∷ [] ≢ list_of self)
            (λ p. FitsSigned w16 p.1
            × (argument.Register p.0 ∷ argument.Number p.1 ∷ argument.Register p.2 ∷ [] ≡ list_of self)) }
    {
        match self {
            Arguments::Three(base, offset, source) => {
                Some((base.register()?, offset.offset()?, source.register()?))
            }
            _ => None,
        }
    }

    pub fn register_offset_imm(self) -> Option<(Reg, i16, i32)>
        ensures { MatchOption result
            ((r : Reg) (n m : ℤ) → FitsSigned w16 n → FitsSigned w32 m
            → argument.Register r ∷ argument.Number n ∷ argument.Number m ∷ [] ≢ list_of self)
            (λ p. FitsSigned w16 p.1 × FitsSigned w32 p.2
            × (argument.Register p.0 ∷ argument.Number p.1 ∷ argument.Number p.2 ∷ [] ≡ list_of self)) }
    {
        match self {
            Arguments::Three(base, offset, imm) => {
                Some((base.register()?, offset.offset()?, imm.imm()?))
            }
            _ => None,
        }
    }
}
