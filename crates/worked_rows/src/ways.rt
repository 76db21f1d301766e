//! Faults that the paths through a program show.
ghost use Rattle.bpf_insn.specs.declared.operands.Kind.TheVariants.{Unary, Binary};
ghost use Rattle.bpf_insn.specs.declared.rule.CodeRule.TheVariants.{UnsetRead, MixedRead, UnstoredRead};
ghost use Rattle.bpf_verify.specs.Accepted.{entry_tags};
ghost use Rattle.bpf_verify.specs.Paths.{IsShown};
ghost use Rattle.worked_rows.specs.Rows.{unset_on_one_way, mixed_by_two_ways, load_of_unstored};

/// A register that one way leaves unset (V11), one that two ways set differently (V12), and bytes
/// that no store wrote (V16).
pub fn faults()
    ensures unset { IsShown unset_on_one_way (entry_tags Unary) 2 UnsetRead }
    ensures mixed { IsShown mixed_by_two_ways (entry_tags Binary) 4 MixedRead }
    ensures unstored { IsShown load_of_unstored (entry_tags Unary) 0 UnstoredRead }
{}
