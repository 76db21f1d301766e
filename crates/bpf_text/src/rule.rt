//! The rules that assembly text is held to.
ghost use Rattle.std.specs.Prelude.{◌≡◌};

use std::fmt;

/// What can be wrong with assembly text, in the order in which a line is checked: the rule of the
/// lowest number is reported.
///
/// The names, `A1` to `A6`, are part of the interface.
#[derive(Clone, Copy, Debug, PartialEq, Eq)]
pub enum AsmRule {
    /// `A1`: the line has more than 1,024 bytes, its comment counted and its line end not.
    LineTooLong,
    /// `A2`: no instruction has the mnemonic.
    UnknownMnemonic,
    /// `A3`: there are too few or too many operands, or one of them is no register or no number
    /// where one is expected.
    MalformedOperands,
    /// `A4`: an operand is `r` and digits, and none of `r0` to `r10`.
    UnknownRegister,
    /// `A5`: a number is outside its field.
    NumberOutOfRange,
    /// `A6`: the text has more than 4,096 slots of code, at the line that passes them; or it has no
    /// instruction, at the line after the last.
    BadLength,
}

impl AsmRule {
    ghost use Rattle.bpf_text.specs.Rule.{rule_name};

    /// The name of the rule, `A1` to `A6`.
    pub fn name(self) -> &'static str
        ensures { result.now ≡ rule_name self }
    {
        match self {
            AsmRule::LineTooLong => "A1",
            AsmRule::UnknownMnemonic => "A2",
            AsmRule::MalformedOperands => "A3",
            AsmRule::UnknownRegister => "A4",
            AsmRule::NumberOutOfRange => "A5",
            AsmRule::BadLength => "A6",
        }
    }
}

impl fmt::Display for AsmRule {
    ghost use Rattle.std.specs.Prelude.{Some};
    ghost use Rattle.bpf_text.specs.Rule.{rule_name};

    ghost output = { λ rule. Some (rule_name rule) };

    fn fmt<W: fmt::Write>(&self, f: &mut fmt::Formatter<W>) -> fmt::Result {
        f.write_str(self.name())
    }
}
