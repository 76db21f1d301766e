//! Which registers an instruction reads and writes, and which bytes of the stack it accesses.
ghost use Rattle.std.specs.Prelude.{◌≡◌};
ghost use Rattle.bpf_insn.specs.Reads.{listed, registers_of, numbers_of, places_of, reads, access, load_access, store_access};
ghost use Rattle.bpf_insn.specs.Reads.{written_reg};

use crate::bounds::{byte_count, signed_byte_count};
use crate::insn::{AluOp, Insn, Operand, Width};
use crate::reg::Reg;

/// The registers that an instruction reads, by the content that it needs.
#[derive(Clone, Copy)]
pub enum Reads {
    /// None is read.
    Nothing,
    /// A number is needed.
    AsNumber(Reg),
    /// A number is needed in both.
    AsNumbers(Reg, Reg),
    /// A number or a place is needed, to be copied or moved.
    AsContent(Reg),
    /// A place is needed: the base of an access.
    AsPlace(Reg),
    /// A place is needed in the first, the base of a store, and a number in the second.
    AsPlaceAndNumber(Reg, Reg),
}

/// What a load or a store accesses: a number of bytes, at an offset from the place in its base.
#[derive(Clone, Copy)]
pub struct Access {
    /// The register that holds the place.
    pub base: Reg,
    /// In bytes, from that place up to the first byte.
    pub offset: i16,
    /// How many bytes: 1, 2, 4 or 8.
    pub bytes: u8,
}

/// Up to two registers.
#[derive(Clone, Copy)]
pub enum Registers {
    Nothing,
    One([Reg; 1]),
    Two([Reg; 2]),
}

impl Registers {
    /// The registers, one after the other.
    pub fn as_slice(&self) -> &[Reg]
        ensures { result.now ≡ listed self.now }
    {
        match self {
            Registers::Nothing => &[],
            Registers::One(one) => one,
            Registers::Two(two) => two,
        }
    }
}

impl Reads {
    /// The registers that are read.
    pub fn registers(self) -> Registers
        ensures { listed result ≡ registers_of self }
    {
        match self {
            Reads::Nothing => Registers::Nothing,
            Reads::AsNumber(reg) | Reads::AsContent(reg) | Reads::AsPlace(reg) => {
                Registers::One([reg])
            }
            Reads::AsNumbers(first, second) => Registers::Two([first, second]),
            Reads::AsPlaceAndNumber(base, src) => Registers::Two([src, base]),
        }
    }

    /// Those that must be numbers.
    pub fn numbers(self) -> Registers
        ensures { listed result ≡ numbers_of self }
    {
        match self {
            Reads::AsNumbers(first, second) => Registers::Two([first, second]),
            Reads::AsNumber(reg) | Reads::AsPlaceAndNumber(_, reg) => Registers::One([reg]),
            _ => Registers::Nothing,
        }
    }

    /// Those that must be places.
    pub fn places(self) -> Registers
        ensures { listed result ≡ places_of self }
    {
        match self {
            Reads::AsPlace(base) | Reads::AsPlaceAndNumber(base, _) => Registers::One([base]),
            _ => Registers::Nothing,
        }
    }
}

impl Insn {
    /// The registers that the instruction reads.
    pub fn reads(self) -> Reads
        ensures { result ≡ reads self }
    {
        match self {
            Insn::Alu {
                width,
                op,
                dst,
                src,
            } => alu_reads(width, op, dst, src),
            Insn::Neg { dst, .. } | Insn::End { dst, .. } => Reads::AsNumber(dst),
            Insn::Movsx { src, .. } => Reads::AsNumber(src),
            Insn::Jump {
                left,
                right: Operand::Imm(_),
                ..
            } => Reads::AsNumber(left),
            Insn::Jump {
                left,
                right: Operand::Register(right),
                ..
            } => Reads::AsNumbers(left, right),
            Insn::Exit => Reads::AsNumber(Reg::R0),
            Insn::Ldx { base, .. } | Insn::Ldsx { base, .. } | Insn::St { base, .. } => {
                Reads::AsPlace(base)
            }
            Insn::Stx { base, src, .. } => Reads::AsPlaceAndNumber(base, src),
            Insn::Ja { .. } | Insn::Ja32 { .. } | Insn::Wide { .. } => Reads::Nothing,
        }
    }

    /// What the instruction accesses in the stack, if it is a load or a store.
    pub fn access(self) -> Option<Access>
        ensures { result ≡ access self }
    {
        match self {
            Insn::Ldx {
                size,
                base,
                offset,
                ..
            } => Some(access_at(base, offset, byte_count(size))),
            Insn::Ldsx {
                size,
                base,
                offset,
                ..
            } => Some(access_at(base, offset, signed_byte_count(size))),
            Insn::Stx {
                size,
                base,
                offset,
                ..
            } => Some(access_at(base, offset, byte_count(size))),
            Insn::St {
                size,
                base,
                offset,
                ..
            } => Some(access_at(base, offset, byte_count(size))),
            _ => None,
        }
    }

    /// What the instruction loads, if it is a load.
    pub fn load_access(self) -> Option<Access>
        ensures { result ≡ load_access self }
    {
        match self {
            Insn::Ldx { .. } | Insn::Ldsx { .. } => self.access(),
            _ => None,
        }
    }

    /// Where the instruction stores, if it is a store.
    pub fn store_access(self) -> Option<Access>
        ensures { result ≡ store_access self }
    {
        match self {
            Insn::Stx { .. } | Insn::St { .. } => self.access(),
            _ => None,
        }
    }

    /// The register that the instruction writes, if it writes one.
    pub fn written_reg(self) -> Option<Reg>
        ensures { result ≡ written_reg self }
    {
        match self {
            Insn::Alu { dst, .. }
            | Insn::Neg { dst, .. }
            | Insn::Movsx { dst, .. }
            | Insn::End { dst, .. }
            | Insn::Ldx { dst, .. }
            | Insn::Ldsx { dst, .. }
            | Insn::Wide { dst, .. } => Some(dst),
            _ => None,
        }
    }
}

/// The registers that an operation of two operands reads.
fn alu_reads(width: Width, op: AluOp, dst: Reg, src: Operand) -> Reads
    ensures { result ≡ reads (Insn.Alu width op dst src) }
{
    match src {
        Operand::Imm(_) => match (width, op) {
            // This instruction alone moves a place, and MOV X of 64 bits alone copies one.
            (Width::W64, AluOp::Add) => Reads::AsContent(dst),
            // MOV overwrites its destination without a look at it.
            (_, AluOp::Mov) => Reads::Nothing,
            _ => Reads::AsNumber(dst),
        },
        Operand::Register(src) => match (width, op) {
            (Width::W64, AluOp::Mov) => Reads::AsContent(src),
            (_, AluOp::Mov) => Reads::AsNumber(src),
            // Both are read, the destination too: it is the first operand.
            _ => Reads::AsNumbers(dst, src),
        },
    }
}

fn access_at(base: Reg, offset: i16, bytes: u8) -> Access
    ensures { result ≡ record { base = base; offset = offset; bytes = bytes } }
{
    Access {
        base,
        offset,
        bytes,
    }
}
