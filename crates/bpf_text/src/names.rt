//! The names of the parts of a mnemonic (operations, conditions, byte orders, bit widths) and of
//! registers. Each table is written once, and read in both directions.
ghost use Rattle.std.specs.Prelude.{◌≡◌};
ghost use Rattle.bpf_text.specs.Names as spec;
ghost use Rattle.bpf_text.specs.inner.Names as inner;
ghost use Rattle.bpf_text.specs.Tables.{all_registers, named};
ghost use Rattle.bpf_text.specs.inner.Tables as tables;

use bpf_insn::{
    AluOp, ByteOrder, Cond, EndSize, Extension, Reg, SignedSize, Size, Width, by_table,
};

/// The letters of the mnemonics that are no operation, condition or byte order.
#[derive(Clone, Copy)]
pub enum Stem {
    Neg,
    Movs,
    Ja,
    Exit,
    Ldx,
    Ldsx,
    Stx,
    St,
    Wide,
}

const WIDTHS: [Width; 2] = [Width::W32, Width::W64];

macro_rules! all_operations {
    (
        operations { $($number:literal $code:ident $({ $op:ident $($unused:tt)* })+)* }
        conditions $conditions:tt
    ) => {
        [$($(AluOp::$op,)+)*]
    };
}

// From the table of bpf_insn, so that no operation can be missing here.
const OPERATIONS: [AluOp; 14] = by_table!(all_operations,);

macro_rules! all_conditions {
    (
        operations $operations:tt
        conditions { $($number:literal $cond:ident $condition:tt)* }
    ) => {
        [$(Cond::$cond,)*]
    };
}

const CONDITIONS: [Cond; 11] = by_table!(all_conditions,);

const EXTENSIONS: [Extension; 5] = [
    Extension::From8To32,
    Extension::From16To32,
    Extension::From8To64,
    Extension::From16To64,
    Extension::From32To64,
];

const ORDERS: [ByteOrder; 3] = [ByteOrder::Little, ByteOrder::Big, ByteOrder::Swap];

const END_SIZES: [EndSize; 3] = [EndSize::B16, EndSize::B32, EndSize::B64];

const SIZES: [Size; 4] = [Size::B8, Size::B16, Size::B32, Size::B64];

const SIGNED_SIZES: [SignedSize; 3] = [SignedSize::B8, SignedSize::B16, SignedSize::B32];

const REGISTERS: [Reg; 11] = [
    Reg::R0,
    Reg::R1,
    Reg::R2,
    Reg::R3,
    Reg::R4,
    Reg::R5,
    Reg::R6,
    Reg::R7,
    Reg::R8,
    Reg::R9,
    Reg::R10,
];

const STEMS: [Stem; 9] = [
    Stem::Neg,
    Stem::Movs,
    Stem::Ja,
    Stem::Exit,
    Stem::Ldx,
    Stem::Ldsx,
    Stem::Stx,
    Stem::St,
    Stem::Wide,
];

/// The name of a width.
pub fn width_name(width: Width) -> &'static str
    ensures { result.now ≡ spec.width_name width }
{
    match width {
        Width::W32 => "32",
        Width::W64 => "64",
    }
}

/// The width that has the name.
pub fn width_named(name: &[u8]) -> Option<Width>
    ensures { result ≡ named spec.width_name tables.all_widths name.now }
{
    // A search over the names that are written, so the two directions can't disagree.
    WIDTHS
        .iter()
        .copied()
        .find(|width| width_name(*width).as_bytes() == name)
}

macro_rules! operation_names {
    (
        operations { $($number:literal $code:ident $({ $op:ident $offset:literal $name:literal $($unused:tt)* })+)* }
        conditions $conditions:tt
        $which:expr
    ) => {
        match $which {
            $($(AluOp::$op => $name,)+)*
        }
    };
}

/// The name of an operation.
pub fn operation_name(operation: AluOp) -> &'static str
    ensures { result.now ≡ spec.operation_name operation }
{
    by_table!(operation_names, operation)
}

/// The operation that has the name.
pub fn operation_named(name: &[u8]) -> Option<AluOp>
    ensures { result ≡ named spec.operation_name tables.all_operations name.now }
{
    OPERATIONS
        .iter()
        .copied()
        .find(|operation| operation_name(*operation).as_bytes() == name)
}

macro_rules! condition_names {
    (
        operations $operations:tt
        conditions { $($number:literal $cond:ident { $name:literal $($unused:tt)* })* }
        $which:expr
    ) => {
        match $which {
            $(Cond::$cond => $name,)*
        }
    };
}

/// The name of a condition.
pub fn condition_name(condition: Cond) -> &'static str
    ensures { result.now ≡ spec.condition_name condition }
{
    by_table!(condition_names, condition)
}

/// The condition that has the name.
pub fn condition_named(name: &[u8]) -> Option<Cond>
    ensures { result ≡ named spec.condition_name tables.all_conditions name.now }
{
    CONDITIONS
        .iter()
        .copied()
        .find(|condition| condition_name(*condition).as_bytes() == name)
}

/// The name of an extension of the sign.
pub fn extension_name(extension: Extension) -> &'static str
    ensures { result.now ≡ spec.extension_name extension }
{
    match extension {
        Extension::From8To32 => "8_32",
        Extension::From16To32 => "16_32",
        Extension::From8To64 => "8_64",
        Extension::From16To64 => "16_64",
        Extension::From32To64 => "32_64",
    }
}

/// The extension that has the name.
pub fn extension_named(name: &[u8]) -> Option<Extension>
    ensures { result ≡ named spec.extension_name tables.all_extensions name.now }
{
    EXTENSIONS
        .iter()
        .copied()
        .find(|extension| extension_name(*extension).as_bytes() == name)
}

/// The name of an order of bytes.
pub fn order_name(order: ByteOrder) -> &'static str
    ensures { result.now ≡ spec.order_name order }
{
    match order {
        ByteOrder::Little => "le",
        ByteOrder::Big => "be",
        ByteOrder::Swap => "swap",
    }
}

/// The order of bytes that has the name.
pub fn order_named(name: &[u8]) -> Option<ByteOrder>
    ensures { result ≡ named spec.order_name tables.all_orders name.now }
{
    ORDERS
        .iter()
        .copied()
        .find(|order| order_name(*order).as_bytes() == name)
}

/// The name of a size of END.
pub fn end_size_name(end_size: EndSize) -> &'static str
    ensures { result.now ≡ spec.end_size_name end_size }
{
    match end_size {
        EndSize::B16 => "16",
        EndSize::B32 => "32",
        EndSize::B64 => "64",
    }
}

/// The size that has the name.
pub fn end_size_named(name: &[u8]) -> Option<EndSize>
    ensures { result ≡ named spec.end_size_name tables.all_end_sizes name.now }
{
    END_SIZES
        .iter()
        .copied()
        .find(|end_size| end_size_name(*end_size).as_bytes() == name)
}

/// The name of a size of a load or a store.
pub fn size_name(size: Size) -> &'static str
    ensures { result.now ≡ spec.size_name size }
{
    match size {
        Size::B8 => "8",
        Size::B16 => "16",
        Size::B32 => "32",
        Size::B64 => "64",
    }
}

/// The size that has the name.
pub fn size_named(name: &[u8]) -> Option<Size>
    ensures { result ≡ named spec.size_name tables.all_sizes name.now }
{
    SIZES
        .iter()
        .copied()
        .find(|size| size_name(*size).as_bytes() == name)
}

/// The name of a size of a load that extends the sign.
pub fn signed_size_name(signed_size: SignedSize) -> &'static str
    ensures { result.now ≡ spec.signed_size_name signed_size }
{
    match signed_size {
        SignedSize::B8 => "8",
        SignedSize::B16 => "16",
        SignedSize::B32 => "32",
    }
}

/// The size that has the name.
pub fn signed_size_named(name: &[u8]) -> Option<SignedSize>
    ensures { result ≡ named spec.signed_size_name tables.all_signed_sizes name.now }
{
    SIGNED_SIZES.iter().copied().find(|signed_size| signed_size_name(*signed_size).as_bytes()
        == name)
}

/// The name of a register.
pub fn register_name(register: Reg) -> &'static str
    ensures { result.now ≡ spec.register_name register }
{
    match register {
        Reg::R0 => "r0",
        Reg::R1 => "r1",
        Reg::R2 => "r2",
        Reg::R3 => "r3",
        Reg::R4 => "r4",
        Reg::R5 => "r5",
        Reg::R6 => "r6",
        Reg::R7 => "r7",
        Reg::R8 => "r8",
        Reg::R9 => "r9",
        Reg::R10 => "r10",
    }
}

/// The register that has the name.
pub fn register_named(name: &[u8]) -> Option<Reg>
    ensures { result ≡ named spec.register_name all_registers name.now }
{
    REGISTERS
        .iter()
        .copied()
        .find(|register| register_name(*register).as_bytes() == name)
}

/// The name of a stem.
pub fn stem_name(stem: Stem) -> &'static str
    ensures { result.now ≡ inner.stem_name stem }
{
    match stem {
        Stem::Neg => "neg",
        Stem::Movs => "movs",
        Stem::Ja => "ja",
        Stem::Exit => "exit",
        Stem::Ldx => "ldx",
        Stem::Ldsx => "ldsx",
        Stem::Stx => "stx",
        Stem::St => "st",
        Stem::Wide => "wide",
    }
}

/// The stem that has the name.
pub fn stem_named(name: &[u8]) -> Option<Stem>
    ensures { result ≡ named inner.stem_name tables.all_stems name.now }
{
    STEMS
        .iter()
        .copied()
        .find(|stem| stem_name(*stem).as_bytes() == name)
}
