//! The table of opcodes: what each byte says.
ghost use Rattle.std.specs.Prelude.{◌≡◌, ◌≢◌, ℕ, ◌+◌, ◌*◌, ◌<◌, IfSome, IfNone};
ghost use Rattle.bpf_insn.specs.Opcode.{number_of, operation, source_bit, alu_class, jump_class, code_number, cond_number};
ghost use Rattle.bpf_insn.specs.Opcode.{size_number};
ghost use Rattle.bpf_insn.specs.declared.opcode.Opcode.{Opcode};

use crate::by_table;
use crate::insn::{ByteOrder, Cond, SignedSize, Size, Width};

/// The codes of the operations of two operands: the high four bits of the opcode.
#[derive(Clone, Copy)]
pub enum AluCode {
    Add,
    Sub,
    Mul,
    Div,
    Or,
    And,
    Lsh,
    Rsh,
    Mod,
    Xor,
    Mov,
    Arsh,
}

/// Where the second operand is: in imm (K) or in the source register (X).
#[derive(Clone, Copy)]
pub enum Source {
    K,
    X,
}

/// What an opcode says of its instruction. 116 bytes are opcodes.
#[derive(Clone, Copy)]
pub enum Opcode {
    Alu(Width, AluCode, Source),
    Neg(Width),
    End(ByteOrder),
    Ja,
    Ja32,
    Jump(Width, Cond, Source),
    Exit,
    Ldx(Size),
    Ldsx(SignedSize),
    Stx(Size),
    St(Size),
    Wide,
}

impl Opcode {
    /// The byte of the opcode.
    pub fn number(self) -> u8
        ensures { result ≡ number_of self }
    {
        match self {
            Opcode::Alu(width, code, source) => alu_number(width, code_number(code), source),
            // NEG and END aren't in the table of operations, as they have one operand.
            Opcode::Neg(width) => alu_number(width, 0x8, Source::K),
            Opcode::End(ByteOrder::Little) => 0xd4,
            Opcode::End(ByteOrder::Big) => 0xdc,
            Opcode::End(ByteOrder::Swap) => 0xd7,
            Opcode::Ja => 0x05,
            Opcode::Ja32 => 0x06,
            Opcode::Jump(width, cond, source) => jump_number(width, cond_number(cond), source),
            Opcode::Exit => 0x95,
            // 0x61, 0x63 and 0x62 are mode MEM with size bits 0. The size is in bits 3 and 4.
            Opcode::Ldx(size) => 0x61 + 8 * size_number(size),
            // MEMSX has no size of 64 bits, so the three are listed.
            Opcode::Ldsx(SignedSize::B8) => 0x91,
            Opcode::Ldsx(SignedSize::B16) => 0x89,
            Opcode::Ldsx(SignedSize::B32) => 0x81,
            Opcode::Stx(size) => 0x63 + 8 * size_number(size),
            Opcode::St(size) => 0x62 + 8 * size_number(size),
            Opcode::Wide => 0x18,
        }
    }
}

fn alu_number(width: Width, code: u8, source: Source) -> u8
    requires { code < 16 }
    ensures { result ≡ operation code (source_bit source) (alu_class width) }
{
    let class = match width {
        Width::W32 => 4,
        Width::W64 => 7,
    };
    // Sums of digits, as in the definition: the code is below 16, so nothing carries.
    16 * code + 8 * source as u8 + class
}

fn jump_number(width: Width, code: u8, source: Source) -> u8
    requires { code < 16 }
    ensures { result ≡ operation code (source_bit source) (jump_class width) }
{
    // JMP is class 5 and JMP32 class 6, the narrow one above, unlike ALU and ALU64.
    let class = match width {
        Width::W32 => 6,
        Width::W64 => 5,
    };
    16 * code + 8 * source as u8 + class
}

macro_rules! code_numbers {
    (
        operations { $($number:literal $code:ident $({ $($operation:tt)* })+)* }
        conditions $conditions:tt
        $which:expr
    ) => {
        match $which {
            $(AluCode::$code => $number,)*
        }
    };
}

fn code_number(code: AluCode) -> u8
    ensures number { result ≡ code_number code }
    ensures small { result < 16 }
{
    by_table!(code_numbers, code)
}

macro_rules! cond_numbers {
    (
        operations $operations:tt
        conditions { $($number:literal $cond:ident $condition:tt)* }
        $which:expr
    ) => {
        match $which {
            $(Cond::$cond => $number,)*
        }
    };
}

fn cond_number(cond: Cond) -> u8
    ensures number { result ≡ cond_number cond }
    ensures small { result < 16 }
{
    by_table!(cond_numbers, cond)
}

fn size_number(size: Size) -> u8
    ensures { result ≡ size_number size }
{
    match size {
        // The numbers of RFC 9669, section 5: W, H, B, DW.
        Size::B32 => 0,
        Size::B16 => 1,
        Size::B8 => 2,
        Size::B64 => 3,
    }
}

macro_rules! numbered_codes {
    (
        operations { $($number:literal $code:ident $({ $($operation:tt)* })+)* }
        conditions $conditions:tt
        $which:expr,
        else { $($rest:tt)* }
    ) => {
        match $which {
            $($number => AluCode::$code,)*
            $($rest)*
        }
    };
}

/// The opcodes of the classes ALU and ALU64.
fn alu_opcode(width: Width, code: u8, source: Source) -> Option<Opcode>
    requires { code < 16 }
    ensures some { IfSome result (λ o. number_of o ≡ operation code (source_bit source) (alu_class width)) }
    ensures none { IfNone result ((o : Opcode) →
        number_of o ≢ operation code (source_bit source) (alu_class width)) }
{
    let code = by_table! {
        numbered_codes,
        code,
        else {
            // NEG and END have codes of arithmetic, but one operand, and so no row in the table.
            0x8 => {
                return match source {
                    Source::K => Some(Opcode::Neg(width)),
                    Source::X => None,
                };
            }
            0xd => {
                return match (width, source) {
                    (Width::W32, Source::K) => Some(Opcode::End(ByteOrder::Little)),
                    (Width::W32, Source::X) => Some(Opcode::End(ByteOrder::Big)),
                    (Width::W64, Source::K) => Some(Opcode::End(ByteOrder::Swap)),
                    (Width::W64, Source::X) => None,
                };
            }
            _ => return None,
        }
    };
    Some(Opcode::Alu(width, code, source))
}

macro_rules! numbered_conds {
    (
        operations $operations:tt
        conditions { $($number:literal $cond:ident $condition:tt)* }
        $which:expr,
        else { $($rest:tt)* }
    ) => {
        match $which {
            $($number => Cond::$cond,)*
            $($rest)*
        }
    };
}

/// The opcodes of the classes JMP and JMP32.
fn jump_opcode(width: Width, code: u8, source: Source) -> Option<Opcode>
    requires { code < 16 }
    ensures some { IfSome result (λ o. number_of o ≡ operation code (source_bit source) (jump_class width)) }
    ensures none { IfNone result ((o : Opcode) →
        number_of o ≢ operation code (source_bit source) (jump_class width)) }
{
    let cond = by_table! {
        numbered_conds,
        code,
        else {
            // JA and EXIT have codes of jumps without a condition. JA's class selects its offset
            // field.
            _ => {
                return match (code, width, source) {
                    (0x0, Width::W64, Source::K) => Some(Opcode::Ja),
                    (0x0, Width::W32, Source::K) => Some(Opcode::Ja32),
                    (0x9, Width::W64, Source::K) => Some(Opcode::Exit),
                    _ => None,
                };
            }
        }
    };
    Some(Opcode::Jump(width, cond, source))
}

/// What the byte says, where it is an opcode of the profile.
pub fn opcode_of(byte: u8) -> Option<Opcode>
    ensures some { IfSome result (λ o. number_of o ≡ byte) }
    ensures none { IfNone result ((o : Opcode) → number_of o ≢ byte) }
{
    let source = if byte / 8 % 2 == 0 {
        Source::K
    } else {
        Source::X
    };
    // The low three bits are the class.
    match byte % 8 {
        4 => alu_opcode(Width::W32, byte / 16, source),
        7 => alu_opcode(Width::W64, byte / 16, source),
        5 => jump_opcode(Width::W64, byte / 16, source),
        6 => jump_opcode(Width::W32, byte / 16, source),
        // The classes of memory are few and irregular enough to be listed.
        _ => match byte {
            0x71 => Some(Opcode::Ldx(Size::B8)),
            0x69 => Some(Opcode::Ldx(Size::B16)),
            0x61 => Some(Opcode::Ldx(Size::B32)),
            0x79 => Some(Opcode::Ldx(Size::B64)),
            0x91 => Some(Opcode::Ldsx(SignedSize::B8)),
            0x89 => Some(Opcode::Ldsx(SignedSize::B16)),
            0x81 => Some(Opcode::Ldsx(SignedSize::B32)),
            0x73 => Some(Opcode::Stx(Size::B8)),
            0x6b => Some(Opcode::Stx(Size::B16)),
            0x63 => Some(Opcode::Stx(Size::B32)),
            0x7b => Some(Opcode::Stx(Size::B64)),
            0x72 => Some(Opcode::St(Size::B8)),
            0x6a => Some(Opcode::St(Size::B16)),
            0x62 => Some(Opcode::St(Size::B32)),
            0x7a => Some(Opcode::St(Size::B64)),
            0x18 => Some(Opcode::Wide),
            _ => None,
        },
    }
}
