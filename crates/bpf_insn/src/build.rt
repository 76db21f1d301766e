//! The instruction of a slot whose fields are right.
ghost use Rattle.std.specs.Prelude.{◌==◌, ◌||◌, IsTrue, IfSome, IfNone, ◌≡◌, ℕ, ◌+◌, ◌*◌, ◌<◌};
ghost use Rattle.std.specs.Prelude.{◌≤◌, ◌≢◌, ◌^◌, true, false};
ghost use Rattle.bpf_insn.specs.Opcode.{number_of};
ghost use Rattle.bpf_insn.specs.Fields.{allows_alu_offset, allows_offset};
ghost use Rattle.bpf_insn.specs.Spelling.{number_of_reg, first_slot, second_slot, code_of_op, offset_of_op, opcode_of_extension};
ghost use Rattle.bpf_insn.specs.Spelling.{offset_of_extension, imm_of_end, source_of, source_field, imm_field, OperandFits};
ghost use Rattle.bpf_insn.specs.Spelling.{spelling, slot_bytes, Fits};
ghost use Rattle.bpf_insn.specs.Program.{slots_of};
ghost use Rattle.bpf_insn.specs.inner.Code.{IsRight, IsOfSlot};
ghost use Rattle.bpf_insn.specs.declared.reg.Reg.{Reg};
ghost use Rattle.bpf_insn.specs.Broken.{has_bad_register, has_bad_field};

use crate::by_table;
use crate::insn::{AluOp, EndSize, Extension, Insn, Operand, Width};
use crate::opcode::{AluCode, Opcode, Source};
use crate::reg::Reg;
use crate::slot::Slot;

fn reg(number: u8) -> Reg
    requires { number < 11 }
    ensures { number_of_reg result ≡ number }
{
    // The contract admits 0 to 10 only, so the last arm is R10 alone.
    match number {
        0 => Reg::R0,
        1 => Reg::R1,
        2 => Reg::R2,
        3 => Reg::R3,
        4 => Reg::R4,
        5 => Reg::R5,
        6 => Reg::R6,
        7 => Reg::R7,
        8 => Reg::R8,
        9 => Reg::R9,
        _ => Reg::R10,
    }
}

macro_rules! ops {
    (
        operations { $($number:literal $code:ident $({ $op:ident $offset:literal $($unused:tt)* })+)* }
        conditions $conditions:tt
        $which:expr, $variant:expr
    ) => {
        match ($which, $variant) {
            $($((AluCode::$code, $offset) => AluOp::$op,)+)*
            // `check` refuses every other pair of a code and an offset before.
            _ => unreachable!(),
        }
    };
}

fn op(code: AluCode, offset: u16) -> AluOp
    requires { allows_alu_offset code offset ≡ true }
    ensures code { code_of_op result ≡ code }
    ensures variant { offset_of_op result ≡ offset }
{
    by_table!(ops, code, offset)
}

/// The extension of a MOVSX, where the offset is not that of a MOV.
fn extension(width: Width, offset: u16) -> Option<Extension>
    requires { allows_offset (Opcode.Alu width AluCode.Mov Source.X) offset ≡ true }
    ensures some { IfSome result (λ e. (opcode_of_extension e ≡ Opcode.Alu width AluCode.Mov Source.X)
        × (offset_of_extension e ≡ offset)) }
    ensures none { IfNone result (offset ≡ 0) }
{
    match (width, offset) {
        (Width::W32, 8) => Some(Extension::From8To32),
        (Width::W32, 16) => Some(Extension::From16To32),
        (Width::W64, 8) => Some(Extension::From8To64),
        (Width::W64, 16) => Some(Extension::From16To64),
        (Width::W64, 32) => Some(Extension::From32To64),
        _ => None,
    }
}

fn end_size(imm: u32) -> EndSize
    requires { IsTrue (imm == 16 || imm == 32 || imm == 64) }
    ensures { imm_of_end result ≡ imm }
{
    match imm {
        16 => EndSize::B16,
        32 => EndSize::B32,
        // `check` admits 16, 32 and 64 only.
        _ => EndSize::B64,
    }
}

/// The second operand: the register of the source field (X), or imm (K).
fn operand_of(source: Source, slot: Slot) -> Operand
    requires { source ≡ Source.X → slot.src < 11 }
    ensures source { source_of result ≡ source }
    ensures fits { OperandFits result }
    ensures fields { (source ≡ Source.X → (source_field result ≡ slot.src) × (imm_field result ≡ 0))
        × (source ≡ Source.K → (source_field result ≡ 0) × (imm_field result ≡ slot.imm)) }
{
    match source {
        Source::K => Operand::Imm(slot.imm.cast_signed()),
        Source::X => Operand::Register(reg(slot.src)),
    }
}

/// The instruction of a first slot. A wide load's second slot is read before.
pub fn insn_of(opcode: Opcode, slot: Slot) -> Insn
    requires right { IsRight opcode slot }
    requires no_wide { opcode ≢ Opcode.Wide }
    ensures { IsOfSlot result slot }
{
    let offset = slot.offset.cast_signed();
    let imm = slot.imm.cast_signed();
    match opcode {
        Opcode::Alu(width, code, source) => alu_insn(width, code, source, slot),
        Opcode::Neg(width) => Insn::Neg {
            width,
            dst: reg(slot.dst),
        },
        Opcode::End(order) => Insn::End {
            order,
            size: end_size(slot.imm),
            dst: reg(slot.dst),
        },
        Opcode::Ja => Insn::Ja { offset },
        Opcode::Ja32 => Insn::Ja32 { offset: imm },
        Opcode::Jump(width, cond, source) => Insn::Jump {
            width,
            cond,
            left: reg(slot.dst),
            right: operand_of(source, slot),
            offset,
        },
        Opcode::Exit => Insn::Exit,
        Opcode::Ldx(size) => Insn::Ldx {
            size,
            dst: reg(slot.dst),
            base: reg(slot.src),
            offset,
        },
        Opcode::Ldsx(size) => Insn::Ldsx {
            size,
            dst: reg(slot.dst),
            base: reg(slot.src),
            offset,
        },
        Opcode::Stx(size) => Insn::Stx {
            size,
            base: reg(slot.dst),
            offset,
            src: reg(slot.src),
        },
        Opcode::St(size) => Insn::St {
            size,
            base: reg(slot.dst),
            offset,
            imm,
        },
        // The decoder builds a wide load itself, since this needs the second slot as well.
        Opcode::Wide => unreachable!(),
    }
}

/// The operation of two operands, or the MOVSX, of a slot.
fn alu_insn(width: Width, code: AluCode, source: Source, slot: Slot) -> Insn
    requires { IsRight (Opcode.Alu width code source) slot }
    ensures { IsOfSlot result slot }
{
    let dst = reg(slot.dst);
    // MOVSX has no opcode of its own: it is MOV X with an offset, the number of bits moved.
    if let (AluCode::Mov, Source::X) = (code, source) {
        if let Some(extension) = extension(width, slot.offset) {
            let src = reg(slot.src);
            return Insn::Movsx {
                extension,
                dst,
                src,
            };
        }
    }
    Insn::Alu {
        width,
        op: op(code, slot.offset),
        dst,
        src: operand_of(source, slot),
    }
}

/// The wide load of a first slot, and the imm of the second.
pub fn wide_of(slot: Slot, high: u32) -> Insn
    requires opcode { slot.opcode ≡ 0x18 }
    requires registers { slot.dst < 11 }
    requires fields { has_bad_field Opcode.Wide slot ≡ false }
    ensures { (value : ℕ) × (dst : Reg) × (result ≡ Insn.Wide dst value) × (value < 2 ^ 64)
        × (first_slot result ≡ slot)
        × (second_slot value ≡ record { opcode = 0; dst = 0; src = 0; offset = 0; imm = high }) }
{
    Insn::Wide {
        dst: reg(slot.dst),
        // The halves don't overlap, so the sum carries nothing and fits 64 bits.
        value: u64::from(high) * 0x1_0000_0000 + u64::from(slot.imm),
    }
}
