//! Instructions. The types admit only what the tables of RFC 9669 spell.

use crate::reg::Reg;

/// How many low bits an operation works on, or a jump compares.
#[derive(Clone, Copy)]
pub enum Width {
    W32,
    W64,
}

/// The operations of two operands (RFC 9669, section 4.1).
#[derive(Clone, Copy)]
pub enum AluOp {
    Add,
    Sub,
    Mul,
    Div,
    Sdiv,
    Or,
    And,
    Lsh,
    Rsh,
    Mod,
    Smod,
    Xor,
    Mov,
    Arsh,
}

/// The moves that extend the sign of the low bits of a register: MOVSX (RFC 9669, section 4.1).
#[derive(Clone, Copy)]
pub enum Extension {
    From8To32,
    From16To32,
    From8To64,
    From16To64,
    From32To64,
}

/// What END does with bytes (RFC 9669, section 4.2): to little keeps them, to big and swap both
/// reverse them.
#[derive(Clone, Copy)]
pub enum ByteOrder {
    Little,
    Big,
    Swap,
}

/// How many low bits END works on.
#[derive(Clone, Copy)]
pub enum EndSize {
    B16,
    B32,
    B64,
}

/// The condition of a jump (RFC 9669, section 4.3). `Sgt`, `Sge`, `Slt` and `Sle`
/// compare signed numbers, `Set` asks whether the bitwise and is not 0.
#[derive(Clone, Copy)]
pub enum Cond {
    Eq,
    Gt,
    Ge,
    Set,
    Ne,
    Sgt,
    Sge,
    Lt,
    Le,
    Slt,
    Sle,
}

/// How many bits a load or a store moves (RFC 9669, section 5).
#[derive(Clone, Copy)]
pub enum Size {
    B8,
    B16,
    B32,
    B64,
}

/// How many bits a load that extends the sign moves (RFC 9669, section 5.2).
#[derive(Clone, Copy)]
pub enum SignedSize {
    B8,
    B16,
    B32,
}

/// The second operand of an operation or a comparison: a number in the code, or a register.
#[derive(Clone, Copy)]
pub enum Operand {
    Imm(i32),
    Register(Reg),
}

/// An instruction of the profile. Offsets of jumps count slots from the slot after the
/// instruction, offsets of loads and stores count bytes from the place in the base.
#[derive(Clone, Copy)]
pub enum Insn {
    /// An operation of two operands, whose result replaces the first.
    Alu {
        width: Width,
        op: AluOp,
        dst: Reg,
        src: Operand,
    },
    /// NEG: 0 less the register.
    Neg {
        width: Width,
        dst: Reg,
    },
    /// MOVSX: a move that extends the sign of the low bits.
    Movsx {
        extension: Extension,
        dst: Reg,
        src: Reg,
    },
    /// END: the low bytes in another order, the rest cleared.
    End {
        order: ByteOrder,
        size: EndSize,
        dst: Reg,
    },
    /// JA: a jump by the offset field (opcode 05).
    Ja {
        offset: i16,
    },
    /// JA: a jump by the imm field (opcode 06).
    Ja32 {
        offset: i32,
    },
    /// A jump that is taken where the condition holds.
    Jump {
        width: Width,
        cond: Cond,
        left: Reg,
        right: Operand,
        offset: i16,
    },
    /// EXIT: the program is done, with the value of R0.
    Exit,
    /// LDX MEM: a load, extended by zeros.
    Ldx {
        size: Size,
        dst: Reg,
        base: Reg,
        offset: i16,
    },
    /// LDX MEMSX: a load, extended by its sign.
    Ldsx {
        size: SignedSize,
        dst: Reg,
        base: Reg,
        offset: i16,
    },
    /// STX MEM: a store of a register's low bits.
    Stx {
        size: Size,
        base: Reg,
        offset: i16,
        src: Reg,
    },
    /// ST MEM: a store of the low bits of imm.
    St {
        size: Size,
        base: Reg,
        offset: i16,
        imm: i32,
    },
    /// The wide load of a number of 64 bits, which has two slots (RFC 9669, section 5.4).
    Wide {
        dst: Reg,
        value: u64,
    },
}

// A program is a list of these, and a step copies one: a field more in one form enlarges all.
const _: () = prove!(size_of::<Insn>() <= 16);
