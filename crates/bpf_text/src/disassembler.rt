//! The disassembler: from a program to its text.
ghost use Rattle.std.specs.Prelude.{◌≡◌, ◌++◌, ◌∷◌, [], IfOk, OnOk, string_bytes};
ghost use Rattle.std.specs.List.{flat_map};
ghost use Rattle.bpf_text.specs.inner.Arguments.{list_of};
ghost use Rattle.bpf_text.specs.Mnemonics.{mnemonic_text, operands_of, argument_of_operand};
ghost use Rattle.bpf_text.specs.Canonical.{canonical_line, canonical_text, operand_list, operand_text, further_text, IsOnlyTextOf};
ghost use Rattle.bpf_text.specs.Canonical.{CanonicalTextsStand};

use crate::argument::{Argument, Arguments};
use crate::mnemonic::Mnemonic;
use crate::names::register_name;
use bpf_insn::{Insn, Operand, Program};
use itoa::Buffer;
use std::alloc::{AllocError, Global};

/// The canonical text of the program: a line for each instruction.
pub fn disassemble(alloc: Global, program: &Program) -> Result<String, AllocError>
    ensures text { IfOk result (λ text. string_bytes text ≡ canonical_text program.now) }
    ensures only { IfOk result (λ text. IsOnlyTextOf (string_bytes text) program.now) }

    // This is a law of all programs, so assembling undoes disassembling.
    ensures law { CanonicalTextsStand }
{
    let mut text = String::new(alloc);
    for slot in 0..program.slots() {
        // None is the second half of a wide load, which its one line covers.
        if let Some(insn) = program.insn_at(slot) {
            push_line(&mut text, *insn)?;
        }
    }
    Ok(text)
}

/// Appends the line of an instruction.
fn push_line(text: &mut String, insn: Insn) -> Result<(), AllocError>
    ensures { OnOk result (string_bytes text.new ≡ string_bytes text.old ++ canonical_line insn) }
{
    push_mnemonic(text, Mnemonic::of(insn))?;
    push_arguments(text, Arguments::of(insn))?;
    text.push_str("\n")
}

fn push_mnemonic(text: &mut String, mnemonic: Mnemonic) -> Result<(), AllocError>
    ensures { OnOk result (string_bytes text.new ≡ string_bytes text.old ++ mnemonic_text mnemonic) }
{
    let (letters, bits) = mnemonic.parts();
    text.push_str(letters)?;
    text.push_str(bits)
}

/// Appends the operands, with a space before the first and `, ` before each other.
fn push_arguments(text: &mut String, arguments: Arguments) -> Result<(), AllocError>
    ensures { OnOk result (string_bytes text.new ≡ string_bytes text.old ++ operand_list (list_of arguments)) }
{
    match arguments {
        Arguments::Empty => Ok(()),
        Arguments::One(a) => push_first(text, a),
        Arguments::Two(a, b) => {
            push_first(text, a)?;
            push_further(text, b)
        }
        Arguments::Three(a, b, c) => {
            push_first(text, a)?;
            push_further(text, b)?;
            push_further(text, c)
        }
    }
}

fn push_first(text: &mut String, argument: Argument) -> Result<(), AllocError>
    ensures { OnOk result (string_bytes text.new ≡ string_bytes text.old ++ operand_list (argument ∷ [])) }
{
    text.push_str(" ")?;
    push_argument(text, argument)
}

fn push_further(text: &mut String, argument: Argument) -> Result<(), AllocError>
    ensures { OnOk result (string_bytes text.new ≡ string_bytes text.old ++ further_text argument) }
{
    text.push_str(", ")?;
    push_argument(text, argument)
}

fn push_argument(text: &mut String, argument: Argument) -> Result<(), AllocError>
    ensures { OnOk result (string_bytes text.new ≡ string_bytes text.old ++ operand_text argument) }
{
    match argument {
        Argument::Register(register) => text.push_str(register_name(register)),
        Argument::Number(number) => text.push_str(Buffer::new().format(number)),
        // No instruction has these. They come from reading a text alone.
        Argument::UnknownRegister | Argument::HugeNumber => Ok(()),
    }
}

impl Arguments {
    /// The operands of an instruction, in the order in which they are written.
    fn of(insn: Insn) -> Arguments
        ensures { list_of result ≡ operands_of insn }
    {
        match insn {
            Insn::Alu { dst, src, .. } => Arguments::Two(Argument::Register(dst), operand(src)),
            Insn::Neg { dst, .. } => Arguments::One(Argument::Register(dst)),
            Insn::End { dst, .. } => Arguments::One(Argument::Register(dst)),
            Insn::Movsx { dst, src, .. } => {
                Arguments::Two(Argument::Register(dst), Argument::Register(src))
            }
            Insn::Ja { offset } => Arguments::One(number(i32::from(offset))),
            Insn::Ja32 { offset } => Arguments::One(number(offset)),
            Insn::Jump {
                left,
                right,
                offset,
                ..
            } => Arguments::Three(
                Argument::Register(left),
                operand(right),
                number(i32::from(offset)),
            ),
            Insn::Exit => Arguments::Empty,
            Insn::Ldx {
                dst,
                base,
                offset,
                ..
            } => Arguments::Three(
                Argument::Register(dst),
                Argument::Register(base),
                number(i32::from(offset)),
            ),
            Insn::Ldsx {
                dst,
                base,
                offset,
                ..
            } => Arguments::Three(
                Argument::Register(dst),
                Argument::Register(base),
                number(i32::from(offset)),
            ),
            Insn::Stx {
                base,
                offset,
                src,
                ..
            } => Arguments::Three(
                Argument::Register(base),
                number(i32::from(offset)),
                Argument::Register(src),
            ),
            Insn::St {
                base,
                offset,
                imm,
                ..
            } => Arguments::Three(
                Argument::Register(base),
                number(i32::from(offset)),
                number(imm),
            ),
            Insn::Wide { dst, value } => Arguments::Two(
                Argument::Register(dst),
                // A wide load is written as a signed number, as all values are.
                Argument::Number(value.cast_signed()),
            ),
        }
    }
}

fn operand(operand: Operand) -> Argument
    ensures { result ≡ argument_of_operand operand }
{
    match operand {
        Operand::Imm(imm) => number(imm),
        Operand::Register(register) => Argument::Register(register),
    }
}

fn number(number: i32) -> Argument
    ensures { result ≡ Argument.Number number }
{
    Argument::Number(i64::from(number))
}
