//! A product of two words, which is made once and added to many sums.
ghost use Rattle.std.specs.Prelude.{◌≡◌};
ghost use Rattle.bpf_insn.specs.declared.operands.Kind.TheVariants as kinds;
ghost use Rattle.bpf_insn.specs.declared.operands.Operands.TheVariants.{Binary};
ghost use Rattle.bpf_run.specs.Meaning.{value_of, cost_of};
ghost use Rattle.row_product.specs.inner.StandIn.{IsTerm};

use bpf_insn::Operands;
use bpf_run::{Function, Loop, Outcome, call, call_by, run_known};
use bpf_verify::Operator;

/// The product of a word with a word that stands for others.
#[derive(Clone, Copy)]
pub(crate) struct Term {
    pub(crate) x: u64,
    pub(crate) word: u64,
    pub(crate) value: u64,
    pub(crate) steps: u64,
}

/// A call on two words.
#[derive(Drop)]
struct OneCall {
    x: u64,
    y: u64,
}

impl Loop for OneCall {
    type State = Outcome;

    ghost may_run = { λ c operator outcome. Unit {0} };

    ghost gives = { λ c operator old new steps. (new.value ≡ value_of operator (Binary c.x c.y))
        × (new.steps ≡ cost_of operator (Binary c.x c.y)) };

    fn run<F: Function>(&self, operator: &Operator, outcome: &mut Outcome) -> u64 {
        *outcome = call_by::<F>(operator, self.x, self.y);
        // The steps are in the outcome.
        0
    }
}

/// Calls an operator on two words: one that is recognised without its program.
fn call_once(operator: &Operator, x: u64, y: u64) -> Outcome
    requires { operator.now.kind ≡ kinds.Binary }
    ensures value { result.value ≡ value_of operator.now (Binary x y) }
    ensures steps { result.steps ≡ cost_of operator.now (Binary x y) }
{
    let mut outcome = Outcome { value: 0, steps: 0 };
    if run_known(&OneCall { x, y }, operator, &mut outcome).is_some() {
        return outcome;
    }
    call(operator, &Operands::Binary { x, y })
}

/// The product of two words.
pub(crate) fn term_of(mul: &Operator, x: u64, word: u64) -> Term
    requires { mul.now.kind ≡ kinds.Binary }
    ensures term { IsTerm mul.now result }
    ensures words { (result.x ≡ x) × (result.word ≡ word) }
{
    let made = call_once(mul, x, word);
    Term {
        x,
        word,
        value: made.value,
        steps: made.steps,
    }
}
