//! Instructions, from a mnemonic and the operands of a line.
ghost use Rattle.std.specs.Prelude.{◌≡◌, ◌≢◌, ◌<◌, ◌∷◌, ◌^◌, ℕ, ℤ, [], Any, MatchOption, IsTrue};
ghost use Rattle.std.specs.Prelude.{◌↔◌, map};
ghost use Rattle.std.specs.Int.{cast_signed, w16, w32, w64};
ghost use Rattle.std.specs.Int.RustNames.{FitsSigned};
ghost use Rattle.bpf_insn.specs.declared.insn.Insn.{Insn};
ghost use Rattle.bpf_insn.specs.declared.insn.Operand.{Operand};
ghost use Rattle.bpf_insn.specs.declared.reg.Reg.{Reg};
ghost use Rattle.bpf_insn.specs.Spelling.{Fits, OperandFits};
ghost use Rattle.bpf_text.specs.declared.argument.Argument.TheVariants as argument;
ghost use Rattle.bpf_text.specs.Mnemonics.{mnemonic_of, operands_of, argument_of_operand};
ghost use Rattle.bpf_text.specs.inner.Arguments.{list_of};

use crate::argument::{Argument, Arguments};
use crate::mnemonic::Mnemonic;
use bpf_insn::{Insn, Operand, Reg};

/// The instruction of this mnemonic with these operands, if there is one.
pub fn build(mnemonic: Mnemonic, arguments: Arguments) -> Option<Insn>
    ensures { MatchOption result
        ((i : Insn) → Fits i → mnemonic_of i ≡ mnemonic → operands_of i ≢ list_of arguments)
        (λ i. Fits i × (mnemonic_of i ≡ mnemonic) × (operands_of i ≡ list_of arguments)) }
{
    match mnemonic {
        Mnemonic::Alu { width, op } => {
            let (dst, src) = arguments.register_operand()?;
            Some(Insn::Alu {
                width,
                op,
                dst,
                src,
            })
        }
        Mnemonic::Neg { width } => {
            let dst = arguments.register()?;
            Some(Insn::Neg { width, dst })
        }
        Mnemonic::Movsx { extension } => {
            let (dst, src) = arguments.registers()?;
            Some(Insn::Movsx {
                extension,
                dst,
                src,
            })
        }
        Mnemonic::End { order, size } => {
            let dst = arguments.register()?;
            Some(Insn::End { order, size, dst })
        }
        Mnemonic::Ja => {
            let offset = arguments.offset()?;
            Some(Insn::Ja { offset })
        }
        // The offset of `ja32` is in the imm field, and has 32 bits.
        Mnemonic::Ja32 => {
            let offset = arguments.imm()?;
            Some(Insn::Ja32 { offset })
        }
        Mnemonic::Jump { width, cond } => {
            let (left, right, offset) = arguments.register_operand_offset()?;
            Some(Insn::Jump {
                width,
                cond,
                left,
                right,
                offset,
            })
        }
        Mnemonic::Exit => match arguments {
            Arguments::Empty => Some(Insn::Exit),
            _ => None,
        },
        Mnemonic::Ldx { size } => {
            let (dst, base, offset) = arguments.registers_offset()?;
            Some(Insn::Ldx {
                size,
                dst,
                base,
                offset,
            })
        }
        Mnemonic::Ldsx { size } => {
            let (dst, base, offset) = arguments.registers_offset()?;
            Some(Insn::Ldsx {
                size,
                dst,
                base,
                offset,
            })
        }
        Mnemonic::Stx { size } => {
            let (base, offset, src) = arguments.register_offset_register()?;
            Some(Insn::Stx {
                size,
                base,
                offset,
                src,
            })
        }
        Mnemonic::St { size } => {
            let (base, offset, imm) = arguments.register_offset_imm()?;
            Some(Insn::St {
                size,
                base,
                offset,
                imm,
            })
        }
        Mnemonic::Wide => {
            let (dst, value) = arguments.register_word()?;
            Some(Insn::Wide { dst, value })
        }
    }
}
