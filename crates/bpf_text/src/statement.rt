//! The instruction of a line, or the rule that the line breaks.
ghost use Rattle.std.specs.Prelude.{◌≡◌, ◌≢◌, ◌≤◌, List, Some, length, map, IfOk, IfErr, MatchResult};
ghost use Rattle.bpf_insn.specs.declared.insn.Insn.{Insn};
ghost use Rattle.bpf_insn.specs.Spelling.{Fits};
ghost use Rattle.bpf_text.specs.inner.Arguments.{list_of};
ghost use Rattle.bpf_text.specs.Mnemonics.{mnemonic_of, mnemonic_text, operands_of};
ghost use Rattle.bpf_text.specs.Lines.{argument_in, operand_texts_of};
ghost use Rattle.bpf_text.specs.Text.{Names, IsShort, IsLowestBroken};
ghost use Rattle.bpf_text.specs.inner.Reading.{Gives, IsLowestMisnamed};

use crate::argument::Arguments;
use crate::build::build;
use crate::line::{MOST_BYTES, Separator, cut, first_word, is_blank_text};
use crate::mnemonic::Mnemonic;
use crate::rule::AsmRule;
use bpf_insn::Insn;

/// The instruction of a line, or None if the line is skipped; or the lowest rule that it breaks,
/// except the one on the length of the whole text.
pub fn read_line(line: &[u8]) -> Result<Option<Insn>, AsmRule>
    ensures short { IfOk result (λ _. IsShort line.now) }
    ensures gives { IfOk result (Gives line.now) }
    ensures err { IfErr result (λ rule. (before : List Insn) → IsLowestBroken before line.now rule) }
{
    // Before the comment is cut off: it counts.
    if line.len() > MOST_BYTES {
        return Err(AsmRule::LineTooLong);
    }
    let (code, _) = cut(line, Separator::CommentMark);
    if is_blank_text(code) {
        return Ok(None);
    }
    let (word, operands) = first_word(code);
    match read_statement(word, operands) {
        Ok(insn) => Ok(Some(insn)),
        Err(rule) => Err(rule),
    }
}

/// The instruction of a mnemonic and the text after it, or the lowest rule that they break.
fn read_statement(word: &[u8], operands: &[u8]) -> Result<Insn, AsmRule>
    ensures { MatchResult result
        (Names word.now (map argument_in (operand_texts_of operands.now)))
        (IsLowestMisnamed word.now (map argument_in (operand_texts_of operands.now))) }
{
    // A2, then A3, then what `build` finds: in the order of the rules' numbers.
    let Some(mnemonic) = Mnemonic::parse(word) else {
        return Err(AsmRule::UnknownMnemonic);
    };
    let Some(arguments) = Arguments::parse(operands) else {
        return Err(AsmRule::MalformedOperands);
    };
    match build(mnemonic, arguments) {
        Some(insn) => Ok(insn),
        None => Err(broken_rule(mnemonic, arguments)),
    }
}

/// The lowest rule that is broken if no instruction of the mnemonic has these operands.
fn broken_rule(mnemonic: Mnemonic, arguments: Arguments) -> AsmRule
    requires { (i : Insn) → Fits i → mnemonic_of i ≡ mnemonic → operands_of i ≢ list_of arguments }
    ensures { IsLowestMisnamed (mnemonic_text mnemonic) (map Some (list_of arguments)) result }
{
    // Operands of the right kinds would also form an instruction with R0 and 0 instead.
    let Some(_) = build(mnemonic, arguments.cleared()) else {
        return AsmRule::MalformedOperands;
    };
    // A4 before A5. Kinds and number are right, so one of the two is broken.
    if arguments.have_unknown_register() {
        AsmRule::UnknownRegister
    } else {
        AsmRule::NumberOutOfRange
    }
}
