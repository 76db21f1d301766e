//! The operands of a line, before an instruction is built from them.
ghost use Rattle.std.specs.Prelude.{◌≡◌, ◌≢◌, ◌≤◌, ◌∷◌, [], List, Some, None, length, map, MatchOption};
ghost use Rattle.bpf_text.specs.declared.argument.Argument.{Argument};
ghost use Rattle.bpf_text.specs.Lines as spec;
ghost use Rattle.bpf_text.specs.inner.Arguments.{list_of};
ghost use Rattle.bpf_text.specs.Text.{is_unknown};
ghost use Rattle.bpf_text.specs.inner.Reading.{cleared};
ghost use Rattle.std.specs.List.{list_any};

use crate::line::{Separator, cut, first_word, is_blank_text};
use crate::names::register_named;
use bpf_insn::Reg;
use text_words::held_decimal;

/// The magnitude of the least number of 64 bits.
const LEAST_MAGNITUDE: u64 = 1 << 63;

/// What a word says as an operand.
#[derive(Clone, Copy)]
pub enum Argument {
    /// One of `r0` to `r10`.
    Register(Reg),
    /// Another word of `r` and digits.
    UnknownRegister,
    /// A signed number of 64 bits.
    Number(i64),
    /// A number that doesn't fit 64 bits.
    HugeNumber,
}

/// The operands of a line. No instruction has more than three.
#[derive(Clone, Copy)]
pub enum Arguments {
    // By number, not a list: reading a line allocates nothing.
    Empty,
    One(Argument),
    Two(Argument, Argument),
    Three(Argument, Argument, Argument),
}

/// A number after no sign or `+`.
fn positive(magnitude: u64) -> Argument
    ensures { result ≡ spec.positive magnitude }
{
    match i64::try_from(magnitude) {
        Ok(number) => Argument::Number(number),
        Err(_) => Argument::HugeNumber,
    }
}

/// A number after `-`.
fn negative(magnitude: u64) -> Argument
    ensures { result ≡ spec.negative magnitude }
{
    // The one number whose magnitude doesn't fit i64.
    if magnitude == LEAST_MAGNITUDE {
        return Argument::Number(i64::MIN);
    }
    match i64::try_from(magnitude) {
        Ok(number) => Argument::Number(-number),
        Err(_) => Argument::HugeNumber,
    }
}

/// What a word says as an operand, if it says anything.
fn parse_word(word: &[u8]) -> Option<Argument>
    ensures { result ≡ spec.argument_of word.now }
{
    // Before `r` with digits in general, so that what is left is no register.
    if let Some(register) = register_named(word) {
        return Some(Argument::Register(register));
    }
    match word {
        [b'r', digits @ ..] => {
            // For its check alone: all digits, and at least one.
            held_decimal(digits)?;
            Some(Argument::UnknownRegister)
        }
        [b'-', digits @ ..] => Some(negative(held_decimal(digits)?)),
        [b'+', digits @ ..] => Some(positive(held_decimal(digits)?)),
        _ => Some(positive(held_decimal(word)?)),
    }
}

/// What an operand says: one word, surrounded by blanks.
fn parse_operand(text: &[u8]) -> Option<Argument>
    ensures { result ≡ spec.argument_in text.now }
{
    let (word, behind) = first_word(text);
    // Two words without a comma are no operand.
    if !is_blank_text(behind) {
        return None;
    }
    parse_word(word)
}

impl Arguments {
    /// The operands in the text after a mnemonic, if they are three at most and each says
    /// something.
    pub fn parse(text: &[u8]) -> Option<Arguments>
        ensures { MatchOption result
            ((all : List Argument) → length all ≤ 3 → map spec.argument_in (spec.operand_texts_of text.now) ≢ map Some all)
            (λ found. map spec.argument_in (spec.operand_texts_of text.now) ≡ map Some (list_of found)) }
    {
        // An empty list, and not one empty operand: `exit` has none.
        if is_blank_text(text) {
            return Some(Arguments::Empty);
        }
        let (operand, rest) = cut(text, Separator::Comma);
        let first = parse_operand(operand)?;
        // `rest` is None without a comma. After a comma an operand must follow.
        let Some(rest) = rest else {
            return Some(Arguments::One(first));
        };
        let (operand, rest) = cut(rest, Separator::Comma);
        let second = parse_operand(operand)?;
        let Some(rest) = rest else {
            return Some(Arguments::Two(first, second));
        };
        let (operand, rest) = cut(rest, Separator::Comma);
        let third = parse_operand(operand)?;
        match rest {
            None => Some(Arguments::Three(first, second, third)),
            // More operands than any instruction has.
            Some(_) => None,
        }
    }
}

impl Argument {
    /// R0 for a register, and 0 for a number.
    fn cleared(self) -> Argument
        ensures { result ≡ cleared self }
    {
        match self {
            Argument::Register(_) | Argument::UnknownRegister => Argument::Register(Reg::R0),
            Argument::Number(_) | Argument::HugeNumber => Argument::Number(0),
        }
    }

    fn is_unknown(self) -> bool
        ensures { result ≡ is_unknown (Some self) }
    {
        match self {
            Argument::UnknownRegister => true,
            Argument::Register(_) | Argument::Number(_) | Argument::HugeNumber => false,
        }
    }
}

impl Arguments {
    /// R0 for each register, and 0 for each number.
    pub fn cleared(self) -> Arguments
        ensures { list_of result ≡ map cleared (list_of self) }
    {
        match self {
            Arguments::Empty => Arguments::Empty,
            Arguments::One(a) => Arguments::One(a.cleared()),
            Arguments::Two(a, b) => Arguments::Two(a.cleared(), b.cleared()),
            Arguments::Three(a, b, c) => Arguments::Three(a.cleared(), b.cleared(), c.cleared()),
        }
    }

    /// Whether one of them is `r` and digits, and no register.
    pub fn have_unknown_register(self) -> bool
        ensures { result ≡ list_any is_unknown (map Some (list_of self)) }
    {
        match self {
            Arguments::Empty => false,
            Arguments::One(a) => a.is_unknown(),
            Arguments::Two(a, b) => a.is_unknown() || b.is_unknown(),
            Arguments::Three(a, b, c) => a.is_unknown() || b.is_unknown() || c.is_unknown(),
        }
    }
}
