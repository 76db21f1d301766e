//! Mnemonics: what an instruction is without its operands.
ghost use Rattle.std.specs.Prelude.{◌≡◌, ◌≢◌, ◌≤◌, ◌++◌, length, MatchOption};
ghost use Rattle.bpf_text.specs.declared.mnemonic.Mnemonic.{Mnemonic};
ghost use Rattle.bpf_text.specs.Mnemonics.{mnemonic_of, mnemonic_text};
ghost use Rattle.bpf_text.specs.inner.Tables as tables;

use crate::names;
use crate::names::Stem;
use bpf_insn::{AluOp, ByteOrder, Cond, EndSize, Extension, Insn, SignedSize, Size, Width};

/// An instruction without its operands.
#[derive(Clone, Copy)]
pub enum Mnemonic {
    Alu { width: Width, op: AluOp },
    Neg { width: Width },
    Movsx { extension: Extension },
    End { order: ByteOrder, size: EndSize },
    Ja,
    Ja32,
    Jump { width: Width, cond: Cond },
    Exit,
    Ldx { size: Size },
    Ldsx { size: SignedSize },
    Stx { size: Size },
    St { size: Size },
    Wide,
}

impl Mnemonic {
    /// The mnemonic of an instruction.
    pub fn of(insn: Insn) -> Mnemonic
        ensures { result ≡ mnemonic_of insn }
    {
        match insn {
            Insn::Alu { width, op, .. } => Mnemonic::Alu { width, op },
            Insn::Neg { width, .. } => Mnemonic::Neg { width },
            Insn::Movsx { extension, .. } => Mnemonic::Movsx { extension },
            Insn::End { order, size, .. } => Mnemonic::End { order, size },
            Insn::Ja { .. } => Mnemonic::Ja,
            Insn::Ja32 { .. } => Mnemonic::Ja32,
            Insn::Jump { width, cond, .. } => Mnemonic::Jump { width, cond },
            Insn::Exit => Mnemonic::Exit,
            Insn::Ldx { size, .. } => Mnemonic::Ldx { size },
            Insn::Ldsx { size, .. } => Mnemonic::Ldsx { size },
            Insn::Stx { size, .. } => Mnemonic::Stx { size },
            Insn::St { size, .. } => Mnemonic::St { size },
            Insn::Wide { .. } => Mnemonic::Wide,
        }
    }

    /// Its two parts: letters, and bit widths.
    pub fn parts(self) -> (&'static str, &'static str)
        ensures { result.0.now ++ result.1.now ≡ mnemonic_text self }
    {
        match self {
            Mnemonic::Alu { width, op } => (names::operation_name(op), names::width_name(width)),
            Mnemonic::Neg { width } => ("neg", names::width_name(width)),
            Mnemonic::Movsx { extension } => ("movs", names::extension_name(extension)),
            Mnemonic::End { order, size } => (names::order_name(order), names::end_size_name(size)),
            Mnemonic::Ja => ("ja", ""),
            Mnemonic::Ja32 => ("ja", "32"),
            Mnemonic::Jump { width, cond } => (
                names::condition_name(cond),
                names::width_name(width),
            ),
            Mnemonic::Exit => ("exit", ""),
            Mnemonic::Ldx { size } => ("ldx", names::size_name(size)),
            Mnemonic::Ldsx { size } => ("ldsx", names::signed_size_name(size)),
            Mnemonic::Stx { size } => ("stx", names::size_name(size)),
            Mnemonic::St { size } => ("st", names::size_name(size)),
            Mnemonic::Wide => ("wide", ""),
        }
    }

    /// The mnemonic that a word spells.
    pub fn parse(word: &[u8]) -> Option<Mnemonic>
        ensures { MatchOption result ((f : Mnemonic) → mnemonic_text f ≢ word.now) (λ f. mnemonic_text f ≡ word.now) }
    {
        // Letters never contain a digit, so the first digit begins the widths.
        let (letters, bits) = word.split_at(count_of_letters(word));
        parse_parts(letters, bits)
    }
}

/// How many bytes there are before the first digit.
fn count_of_letters(word: &[u8]) -> usize
    ensures count { result ≡ tables.count_of_letters word.now }
    ensures within { result ≤ length word.now }
{
    for (i, byte) in word.iter().enumerate() {
        if byte.is_ascii_digit() {
            return i;
        }
    }
    word.len()
}

/// The mnemonic with these letters and bit widths.
fn parse_parts(letters: &[u8], bits: &[u8]) -> Option<Mnemonic>
    ensures { result ≡ tables.mnemonic_of_parts letters.now bits.now }
{
    // No two tables have a name in common, so their order makes no difference.
    if let Some(op) = names::operation_named(letters) {
        let width = names::width_named(bits)?;
        return Some(Mnemonic::Alu { width, op });
    }
    if let Some(cond) = names::condition_named(letters) {
        let width = names::width_named(bits)?;
        return Some(Mnemonic::Jump { width, cond });
    }
    if let Some(order) = names::order_named(letters) {
        let size = names::end_size_named(bits)?;
        return Some(Mnemonic::End { order, size });
    }
    parse_stem(names::stem_named(letters)?, bits)
}

/// The mnemonic of this stem with these bit widths.
fn parse_stem(stem: Stem, bits: &[u8]) -> Option<Mnemonic>
    ensures { result ≡ tables.mnemonic_of_stem stem bits.now }
{
    match stem {
        Stem::Neg => Some(Mnemonic::Neg {
            width: names::width_named(bits)?,
        }),
        Stem::Movs => Some(Mnemonic::Movsx {
            extension: names::extension_named(bits)?,
        }),
        Stem::Ldx => Some(Mnemonic::Ldx {
            size: names::size_named(bits)?,
        }),
        Stem::Ldsx => Some(Mnemonic::Ldsx {
            size: names::signed_size_named(bits)?,
        }),
        Stem::Stx => Some(Mnemonic::Stx {
            size: names::size_named(bits)?,
        }),
        Stem::St => Some(Mnemonic::St {
            size: names::size_named(bits)?,
        }),
        // `ja` is the only stem with and without a width.
        Stem::Ja => {
            if bits == b"32".as_slice() {
                return Some(Mnemonic::Ja32);
            }
            bits.is_empty().then_some(Mnemonic::Ja)
        }
        Stem::Exit => bits.is_empty().then_some(Mnemonic::Exit),
        Stem::Wide => bits.is_empty().then_some(Mnemonic::Wide),
    }
}
