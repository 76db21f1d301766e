//! Runs of operators: the value of a call, and its steps.
ghost use Rattle.std.specs.Prelude.{◌≡◌, ◌-◌, ◌^◌};
ghost use Rattle.bpf_insn.specs.declared.operands.Operands.TheVariants.{Unary, Binary, Index};
ghost use Rattle.bpf_run.specs.Meaning.{value_of, cost_of};
ghost use Rattle.worked_rows.specs.Rows.{inc, sub, through_the_stack, on_diagonal};

/// One more than 41, and than the greatest number; through the lowest bytes of the stack; and a
/// jump that is taken or not.
pub fn calls()
    ensures one_more { (value_of inc (Unary 41) ≡ 42) × (cost_of inc (Unary 41) ≡ 3) }
    ensures wraps { value_of inc (Unary (2 ^ 64 - 1)) ≡ 0 }
    ensures less { value_of sub (Binary 3 10) ≡ 2 ^ 64 - 7 }
    ensures stack { (value_of through_the_stack (Unary 77) ≡ 77) × (cost_of through_the_stack (Unary 77) ≡ 3) }
    ensures taken { (value_of on_diagonal (Index 5 1 1 0) ≡ 1) × (cost_of on_diagonal (Index 5 1 1 0) ≡ 3) }
    ensures not_taken { (value_of on_diagonal (Index 5 0 1 0) ≡ 0) × (cost_of on_diagonal (Index 5 0 1 0) ≡ 4) }
{}
