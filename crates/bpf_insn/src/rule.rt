//! The rules that code is held to.
ghost use Rattle.std.specs.Prelude.{◌≡◌};

use std::fmt;

/// What can be wrong with code, in the order in which a slot is checked: the rule of the lowest
/// number is reported.
///
/// The decoder checks the first six, the machine and the verifier the others. The names, `V1` to
/// `V16`, are part of the interface.
#[derive(Clone, Copy, Debug, PartialEq, Eq)]
pub enum CodeRule {
    /// `V1`: the code has no slot, half a slot, or more than 4,096 slots.
    BadLength,
    /// `V2`: no instruction has this opcode.
    UnknownOpcode,
    /// `V3`: the instruction is one of BPF that this project leaves out.
    OutsideProfile,
    /// `V4`: a register field that the instruction uses is above 10.
    RegisterAboveTen,
    /// `V5`: a field that the instruction does not use is not 0, or a field has a value that is not
    /// one of the few allowed.
    UnusedField,
    /// `V6`: the second slot of a wide load is missing, or its first 32 bits are not 0.
    BrokenWideLoad,
    /// `V7`: a jump goes to its own slot or before it.
    JumpsBack,
    /// `V8`: no instruction begins at the slot where the program goes on.
    JumpsNowhere,
    /// `V9`: R10 is written.
    StackTopWritten,
    /// `V10`: the last instruction is not EXIT.
    NoExitAtEnd,
    /// `V11`: a register is read that was never set.
    UnsetRead,
    /// `V12`: a register is read that two paths set differently.
    MixedRead,
    /// `V13`: a place in the stack is read where a number is needed.
    NumberWanted,
    /// `V14`: a number is read where a place in the stack is needed.
    PlaceWanted,
    /// `V15`: an access, or a moved place, lies outside the stack.
    OutsideStack,
    /// `V16`: a load reads a byte of the stack that was never stored.
    UnstoredRead,
}

impl CodeRule {
    ghost use Rattle.bpf_insn.specs.Rule.{rule_name};

    /// The name of the rule, `V1` to `V16`.
    pub fn name(self) -> &'static str
        ensures { result.now ≡ rule_name self }
    {
        match self {
            CodeRule::BadLength => "V1",
            CodeRule::UnknownOpcode => "V2",
            CodeRule::OutsideProfile => "V3",
            CodeRule::RegisterAboveTen => "V4",
            CodeRule::UnusedField => "V5",
            CodeRule::BrokenWideLoad => "V6",
            CodeRule::JumpsBack => "V7",
            CodeRule::JumpsNowhere => "V8",
            CodeRule::StackTopWritten => "V9",
            CodeRule::NoExitAtEnd => "V10",
            CodeRule::UnsetRead => "V11",
            CodeRule::MixedRead => "V12",
            CodeRule::NumberWanted => "V13",
            CodeRule::PlaceWanted => "V14",
            CodeRule::OutsideStack => "V15",
            CodeRule::UnstoredRead => "V16",
        }
    }
}

impl fmt::Display for CodeRule {
    ghost use Rattle.std.specs.Prelude.{Some};
    ghost use Rattle.bpf_insn.specs.Rule.{rule_name};

    ghost output = { λ rule. Some (rule_name rule) };

    fn fmt<W: fmt::Write>(&self, f: &mut fmt::Formatter<W>) -> fmt::Result {
        write!(f, "{}", self.name())
    }
}
