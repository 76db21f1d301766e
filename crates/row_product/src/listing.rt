//! The terms of a row of a product, listed in the order of A's row.
ghost use Rattle.std.specs.Prelude.{◌≡◌, ◌≤◌, ◌<◌, ◌+◌, ◌*◌, ◌++◌, length, vec_capacity};
ghost use Rattle.std.specs.List.{AllByRecursion};
ghost use Rattle.bpf_insn.specs.declared.operands.Kind.TheVariants as kinds;
ghost use Rattle.bpf_run.specs.Calls.{steps_of, calls_on, pairs_with};
ghost use Rattle.bpf_verify.specs.Accepted.{IsAccepted};
ghost use Rattle.csr_store.specs.Grid.{Cell, limit};
ghost use Rattle.csr_store.specs.Mask.{mask_of, passes};
ghost use Rattle.row_product.specs.inner.Adding.{taking};
ghost use Rattle.row_product.specs.inner.SortedAccumulator.{MayList, Lists};
ghost use Rattle.row_product.specs.inner.Single.{multiplied};

use crate::calling::{ByFunction, ByProgram, Caller};
use bpf_run::{Function, Loop, run_known};
use bpf_verify::Operator;
use csr_store::Matrix;

/// Row `i` of A, whose cells name rows of B, and the mask if there is one.
#[derive(Drop)]
pub(crate) struct Naming<'m> {
    pub(crate) row: &'m [(u64, u64)],
    pub(crate) b: &'m Matrix,
    pub(crate) mask: Option<&'m Matrix>,
    pub(crate) i: u64,
}

/// Whether a mask lets a position pass, or there is no mask.
#[inline(always)]
fn lets_pass(mask: Option<&Matrix>, i: u64, j: u64) -> bool
    ensures { result ≡ passes (mask_of mask.entry) (i, j) }
{
    match mask {
        // By a search in the mask's row: terms are few here, and flags for all columns would take
        // memory.
        Some(mask) => mask.get(i, j).is_some(),
        None => true,
    }
}

/// Lists a word times each cell of a row of B that passes row `i` of the mask. Returns the steps.
#[inline(always)]
fn list_cells<C: Caller>(
    mul: &Operator,
    x: u64,
    cells: &[(u64, u64)],
    mask: Option<&Matrix>,
    i: u64,
    listed: &mut Vec<(u64, u64)>,
) -> u64
    requires kind { mul.now.kind ≡ kinds.Binary }
    requires serves { C.serves mul.now × IsAccepted mul.now }
    requires few { length cells.now < limit }
    requires capacity { length listed.old.items + length cells.now ≤ vec_capacity listed.old }
    ensures listed { listed.new.items
        ≡ listed.old.items ++ multiplied mul.now x (taking (λ j. passes (mask_of mask.entry) (i, j)) cells.now) }
    ensures steps { result ≡ steps_of (calls_on mul.now (pairs_with x (taking (λ j. passes (mask_of mask.entry) (i, j)) cells.now))) }
    ensures few { result ≤ 4096 * length cells.now }
    ensures capacity { vec_capacity listed.new ≡ vec_capacity listed.old }
{
    let mut steps = 0;
    for cell in cells {
        if lets_pass(mask, i, cell.0) {
            let term = C::make(mul, x, cell.1);
            // The list has capacity for all terms of the row, with or without a mask.
            listed.push_reserved((cell.0, term.value));
            steps += term.steps;
        }
    }
    steps
}

/// Lists the terms of the cells of a row of A, one row of B after another. Returns the steps.
#[inline(always)]
fn list_rows<C: Caller>(mul: &Operator, naming: &Naming, listed: &mut Vec<(u64, u64)>) -> u64
    requires may { MayList mul.now naming.now listed.old }
    requires serves { C.serves mul.now }
    ensures { Lists mul.now naming.now listed.old listed.new result }
{
    let mut steps = 0;
    for nth in 0..naming.row.len() {
        let (k, x) = naming.row[nth];
        steps += list_cells::<C>(mul, x, naming.b.row(k), naming.mask, naming.i, listed);
    }
    steps
}

impl<'m> Loop for Naming<'m> {
    type State = Vec<(u64, u64)>;

    ghost may_run = { λ n mul listed. MayList mul n listed };

    ghost gives = { λ n mul old listed steps. Lists mul n old listed steps };

    #[inline(never)]
    fn run<F: Function>(&self, mul: &Operator, listed: &mut Vec<(u64, u64)>) -> u64 {
        list_rows::<ByFunction<F>>(mul, self, listed)
    }
}

/// Lists the terms of the cells of a row of A, in their order, replacing what was listed. Returns
/// the steps.
pub(crate) fn list_terms(mul: &Operator, naming: &Naming, listed: &mut Vec<(u64, u64)>) -> u64
    requires may { MayList mul.now naming.now listed.old }
    ensures { Lists mul.now naming.now listed.old listed.new result }
{
    match run_known(naming, mul, listed) {
        Some(steps) => steps,
        None => list_rows::<ByProgram>(mul, naming, listed),
    }
}
