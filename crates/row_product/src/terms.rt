//! Terms added to the sums of their columns by recognised operators: in sequence, since nothing is
//! gathered for a call that is compiled inline.
ghost use Rattle.std.specs.Prelude.{◌<◌, ◌^◌, length};
ghost use Rattle.bpf_run.specs.Calls.{steps_of};
ghost use Rattle.bpf_run.specs.Known.{Computes};
ghost use Rattle.row_product.specs.inner.Adding.{put_calls, AreTerms, ArePut};

use crate::sums::Sums;
use bpf_run::{Function, Loop};
use bpf_verify::Operator;

/// Cells, and a term for the column of each.
#[derive(Drop)]
pub(crate) struct Terms<'c> {
    pub(crate) cells: &'c [(u64, u64)],
    pub(crate) terms: &'c [u64],
}

/// Adds terms to the sums of the columns of cells, by an operator that computes a function. Returns
/// the steps.
#[inline(always)]
fn add_terms<F: Function>(
    add: &Operator,
    cells: &[(u64, u64)],
    terms: &[u64],
    sums: &mut Sums,
) -> u64
    requires computes { Computes add.now F.meaning F.price }
    requires terms { AreTerms (length sums.old) cells.now terms.now }
    requires capacity { steps_of (put_calls add.now sums.old cells.now terms.now) < 2 ^ 64 }
    ensures { ArePut add.now cells.now terms.now sums.old sums.new result }
{
    let mut steps = 0;
    // By index, since two lists are walked at once.
    for k in 0..cells.len() {
        steps += sums.add::<F>(add, cells[k].0, terms[k]);
    }
    steps
}

impl<'c> Loop for Terms<'c> {
    type State = Sums;

    ghost may_run = { λ t add sums. AreTerms (length sums) t.cells.now t.terms.now
        × (steps_of (put_calls add sums t.cells.now t.terms.now) < 2 ^ 64) };

    ghost gives = { λ t add old sums steps. ArePut add t.cells.now t.terms.now old sums steps };

    #[inline(never)]
    fn run<F: Function>(&self, add: &Operator, sums: &mut Sums) -> u64 {
        add_terms::<F>(add, self.cells, self.terms, sums)
    }
}
