//! The terms of a row, in the order of their columns, added up: those of one column are folded in
//! sequence.
ghost use Rattle.std.specs.Prelude.{◌≡◌, ◌≤◌, ◌+◌, ◌*◌, ◌++◌, length, vec_capacity};
ghost use Rattle.row_product.specs.inner.SortedAccumulator.{MayFold, MayFoldBehind, FoldsBehind, AreFolded};

use crate::calling::{ByFunction, ByProgram, Caller};
use crate::ordering::term;
use bpf_run::{Function, Loop, run_known};
use bpf_verify::Operator;

/// Terms of a row, and the keys that put them in order.
#[derive(Drop)]
pub(crate) struct Ordered<'c> {
    pub(crate) listed: &'c [(u64, u64)],
    pub(crate) keys: &'c [u64],
}

/// Folds further terms into a column's first, and so on for each column after it. Returns the
/// steps.
#[inline(always)]
fn fold_behind<C: Caller>(
    add: &Operator,
    first: (u64, u64),
    further: &Ordered,
    sums: &mut Vec<(u64, u64)>,
) -> u64
    requires may { MayFoldBehind add.now further.now sums.old }
    requires serves { C.serves add.now }
    ensures { FoldsBehind add.now first further.now sums.old sums.new result }
{
    let mut so_far = first;
    let mut steps = 0;
    for key in further.keys {
        let (column, word) = term(further.listed, *key);
        // Equal columns are adjacent, so one sum is open at a time.
        if column == so_far.0 {
            let sum = C::make(add, so_far.1, word);
            so_far.1 = sum.value;
            steps += sum.steps;
        } else {
            // At most one sum a term, for which there is capacity.
            sums.push_reserved(so_far);
            so_far = (column, word);
        }
    }
    sums.push_reserved(so_far);
    steps
}

/// Folds the terms of each column. Returns the steps.
#[inline(always)]
fn fold_columns<C: Caller>(add: &Operator, terms: &Ordered, sums: &mut Vec<(u64, u64)>) -> u64
    requires may { MayFold add.now terms.now sums.old }
    requires serves { C.serves add.now }
    ensures { AreFolded add.now terms.now sums.new.items result }
{
    sums.clear();
    match terms.keys.split_first() {
        Some((key, keys)) => {
            let listed = terms.listed;
            fold_behind::<C>(add, term(listed, *key), &Ordered { listed, keys }, sums)
        }
        None => 0,
    }
}

impl<'c> Loop for Ordered<'c> {
    type State = Vec<(u64, u64)>;

    ghost may_run = { λ t add sums. MayFold add t sums };

    ghost gives = { λ t add old sums steps. AreFolded add t sums.items steps };

    #[inline(never)]
    fn run<F: Function>(&self, add: &Operator, sums: &mut Vec<(u64, u64)>) -> u64 {
        fold_columns::<ByFunction<F>>(add, self, sums)
    }
}

/// Folds the terms of each column, into one cell a column. Returns the steps.
pub(crate) fn fold_terms(add: &Operator, terms: &Ordered, sums: &mut Vec<(u64, u64)>) -> u64
    requires may { MayFold add.now terms.now sums.old }
    ensures { AreFolded add.now terms.now sums.new.items result }
{
    match run_known(terms, add, sums) {
        Some(steps) => steps,
        None => fold_columns::<ByProgram>(add, terms, sums),
    }
}
