//! The fields that spell an instruction.
ghost use Rattle.std.specs.Prelude.{◌≡◌, ◌<◌};
ghost use Rattle.std.specs.Int.{cast_unsigned, w16, w32};
ghost use Rattle.bpf_insn.specs.Spelling.{number_of_reg, fields, first_slot, second_slot, code_of_op, offset_of_op};
ghost use Rattle.bpf_insn.specs.Spelling.{opcode_of_extension, offset_of_extension, imm_of_end, source_of, source_field, imm_field};

use crate::by_table;
use crate::insn::{AluOp, EndSize, Extension, Insn, Operand, Width};
use crate::opcode::{AluCode, Opcode, Source};
use crate::reg::Reg;
use crate::slot::Slot;

/// The fields of the instruction's first slot.
pub fn first_slot(insn: Insn) -> Slot
    ensures slot { result ≡ first_slot insn }
    ensures dst { result.dst < 16 }
    ensures src { result.src < 16 }
{
    match insn {
        Insn::Alu {
            width,
            op,
            dst,
            src,
        } => {
            let opcode = Opcode::Alu(width, code_of_op(op), source_of(src));
            with_operand(opcode, dst, src, offset_of_op(op))
        }
        Insn::Neg { width, dst } => with_imm(Opcode::Neg(width), dst, 0, 0),
        Insn::Movsx {
            extension,
            dst,
            src,
        } => {
            // The number of bits moved goes where MOV has offset 0.
            let bits = offset_of_extension(extension);
            with_registers(opcode_of_extension(extension), dst, src, bits)
        }
        Insn::End { order, size, dst } => with_imm(Opcode::End(order), dst, 0, imm_of_end(size)),
        Insn::Ja { offset } => fields(Opcode::Ja, 0, 0, offset.cast_unsigned(), 0),
        Insn::Ja32 { offset } => fields(Opcode::Ja32, 0, 0, 0, offset.cast_unsigned()),
        Insn::Jump {
            width,
            cond,
            left,
            right,
            offset,
        } => {
            let opcode = Opcode::Jump(width, cond, source_of(right));
            with_operand(opcode, left, right, offset.cast_unsigned())
        }
        Insn::Exit => fields(Opcode::Exit, 0, 0, 0, 0),
        Insn::Ldx {
            size,
            dst,
            base,
            offset,
        } => with_registers(Opcode::Ldx(size), dst, base, offset.cast_unsigned()),
        Insn::Ldsx {
            size,
            dst,
            base,
            offset,
        } => with_registers(Opcode::Ldsx(size), dst, base, offset.cast_unsigned()),
        Insn::Stx {
            size,
            base,
            offset,
            src,
        } => with_registers(Opcode::Stx(size), base, src, offset.cast_unsigned()),
        Insn::St {
            size,
            base,
            offset,
            imm,
        } => with_imm(
            Opcode::St(size),
            base,
            offset.cast_unsigned(),
            imm.cast_unsigned(),
        ),
        // The upper half is the imm of the second slot.
        Insn::Wide { dst, value } => with_imm(Opcode::Wide, dst, 0, (value % 0x1_0000_0000) as u32),
    }
}

/// The fields of the second slot of a wide load.
pub fn second_slot(value: u64) -> Slot
    ensures { result ≡ second_slot value }
{
    Slot {
        opcode: 0,
        dst: 0,
        src: 0,
        offset: 0,
        // A quotient of a 64-bit word by 2^32 fits, so the cast is exact.
        imm: (value / 0x1_0000_0000) as u32,
    }
}

/// A slot of these fields.
fn fields(opcode: Opcode, dst: u8, src: u8, offset: u16, imm: u32) -> Slot
    ensures { result ≡ fields opcode dst src offset imm }
{
    Slot {
        opcode: opcode.number(),
        dst,
        src,
        offset,
        imm,
    }
}

/// A slot with a second operand in its source field or its imm.
fn with_operand(opcode: Opcode, dst: Reg, operand: Operand, offset: u16) -> Slot
    ensures slot { result ≡ fields opcode (number_of_reg dst) (source_field operand) offset (imm_field operand) }
    ensures dst { result.dst < 16 }
    ensures src { result.src < 16 }
{
    fields(
        opcode,
        dst.number(),
        source_field(operand),
        offset,
        imm_field(operand),
    )
}

/// A slot with two registers.
fn with_registers(opcode: Opcode, dst: Reg, src: Reg, offset: u16) -> Slot
    ensures slot { result ≡ fields opcode (number_of_reg dst) (number_of_reg src) offset 0 }
    ensures dst { result.dst < 16 }
    ensures src { result.src < 16 }
{
    fields(opcode, dst.number(), src.number(), offset, 0)
}

/// A slot with one register and an imm.
fn with_imm(opcode: Opcode, dst: Reg, offset: u16, imm: u32) -> Slot
    ensures slot { result ≡ fields opcode (number_of_reg dst) 0 offset imm }
    ensures dst { result.dst < 16 }
    ensures src { result.src < 16 }
{
    fields(opcode, dst.number(), 0, offset, imm)
}

macro_rules! codes {
    (
        operations { $($number:literal $code:ident $({ $op:ident $($unused:tt)* })+)* }
        conditions $conditions:tt
        $which:expr
    ) => {
        match $which {
            $($(AluOp::$op => AluCode::$code,)+)*
        }
    };
}

fn code_of_op(op: AluOp) -> AluCode
    ensures { result ≡ code_of_op op }
{
    by_table!(codes, op)
}

macro_rules! offsets {
    (
        operations { $($number:literal $code:ident $({ $op:ident $offset:literal $($unused:tt)* })+)* }
        conditions $conditions:tt
        $which:expr
    ) => {
        match $which {
            $($(AluOp::$op => $offset,)+)*
        }
    };
}

/// The offset that distinguishes SDIV and SMOD from DIV and MOD.
fn offset_of_op(op: AluOp) -> u16
    ensures { result ≡ offset_of_op op }
{
    by_table!(offsets, op)
}

fn opcode_of_extension(extension: Extension) -> Opcode
    ensures { result ≡ opcode_of_extension extension }
{
    let width = match extension {
        Extension::From8To32 | Extension::From16To32 => Width::W32,
        Extension::From8To64 | Extension::From16To64 | Extension::From32To64 => Width::W64,
    };
    Opcode::Alu(width, AluCode::Mov, Source::X)
}

/// How many bits are moved.
fn offset_of_extension(extension: Extension) -> u16
    ensures { result ≡ offset_of_extension extension }
{
    match extension {
        Extension::From8To32 | Extension::From8To64 => 8,
        Extension::From16To32 | Extension::From16To64 => 16,
        Extension::From32To64 => 32,
    }
}

/// How many bits END works on.
fn imm_of_end(size: EndSize) -> u32
    ensures { result ≡ imm_of_end size }
{
    match size {
        EndSize::B16 => 16,
        EndSize::B32 => 32,
        EndSize::B64 => 64,
    }
}

fn source_of(operand: Operand) -> Source
    ensures { result ≡ source_of operand }
{
    match operand {
        Operand::Imm(_) => Source::K,
        Operand::Register(_) => Source::X,
    }
}

fn source_field(operand: Operand) -> u8
    ensures field { result ≡ source_field operand }
    ensures small { result < 16 }
{
    match operand {
        // The source field isn't used by K, so it must be 0 (V5).
        Operand::Imm(_) => 0,
        Operand::Register(reg) => reg.number(),
    }
}

fn imm_field(operand: Operand) -> u32
    ensures { result ≡ imm_field operand }
{
    match operand {
        Operand::Imm(imm) => imm.cast_unsigned(),
        // Nor is imm used by X.
        Operand::Register(_) => 0,
    }
}
