//! The rules by which a command is refused.
ghost use Rattle.std.specs.Prelude.{◌≡◌};

/// A rule of command lines, their words and their bodies.
#[derive(Clone, Copy, Debug, PartialEq, Eq)]
pub enum SessionRule {
    /// `S1`: the first word is no command.
    UnknownCommand,
    /// `S2`: a wrong number of words, or one that is malformed or out of range.
    MalformedWords,
    /// `S3`: a name is not of 1 to 32 letters, digits and underscores.
    MalformedName,
    /// `S4`: a name stands for nothing.
    UnknownName,
    /// `S9`: the body of an operator is not hexadecimal digits in pairs.
    NotHexadecimal,
}

impl SessionRule {
    ghost use Rattle.command_text.specs.Replies.{session_rule_name};

    /// The name of the rule, `S1` to `S4` or `S9`.
    pub fn name(self) -> &'static str
        ensures { result.now ≡ session_rule_name self }
    {
        match self {
            SessionRule::UnknownCommand => "S1",
            SessionRule::MalformedWords => "S2",
            SessionRule::MalformedName => "S3",
            SessionRule::UnknownName => "S4",
            SessionRule::NotHexadecimal => "S9",
        }
    }
}

/// A rule of command lines and bodies after whose refusal no session can go on, since it can't tell
/// where the next command begins.
#[derive(Clone, Copy, Debug, PartialEq, Eq)]
pub enum FatalRule {
    /// `S2`: a command with a body has a wrong number of words, or a length that is malformed or
    /// out of range.
    MalformedWords,
    /// `S5`: the input ends in a body.
    InputEndsInBody,
    /// `S6`: a line has over 1,024 bytes.
    LineTooLong,
    /// `S7`: a body has over 268,435,456 bytes for a matrix, over 262,144 for an operator.
    BodyTooLong,
}

impl FatalRule {
    ghost use Rattle.command_text.specs.Replies.{fatal_rule_name};

    /// The name of the rule, `S2` or `S5` to `S7`.
    pub fn name(self) -> &'static str
        ensures { result.now ≡ fatal_rule_name self }
    {
        match self {
            FatalRule::MalformedWords => "S2",
            FatalRule::InputEndsInBody => "S5",
            FatalRule::LineTooLong => "S6",
            FatalRule::BodyTooLong => "S7",
        }
    }
}
