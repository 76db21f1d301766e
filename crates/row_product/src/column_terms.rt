//! The words of a column that the cells of a row of A name, each multiplied: the terms of a row of
//! a product by one column.
ghost use Rattle.std.specs.Prelude.{◌≡◌, ◌≤◌, ◌<◌, ◌++◌, ◌∷◌, [], if◌then◌else◌};
ghost use Rattle.std.specs.Prelude.{None, Some, length, vec_capacity};
ghost use Rattle.std.specs.FinMap as fin;
ghost use Rattle.bpf_insn.specs.declared.operands.Kind.TheVariants as kinds;
ghost use Rattle.bpf_insn.specs.declared.operands.Operands.TheVariants.{Binary};
ghost use Rattle.bpf_verify.specs.Accepted.{Accepted};
ghost use Rattle.bpf_run.specs.Fold.{terms_of};
ghost use Rattle.bpf_run.specs.Known.{Computes};
ghost use Rattle.csr_store.specs.Column.{IsCopyOf};
ghost use Rattle.row_product.specs.inner.Column.{AreLent, AreGathered, MayMultiply, AreMultiplied, HasRoom};

use bpf_insn::Kind;
use bpf_run::{Calls, Function, Loop, Outcome, call_by};
use bpf_verify::Operator;
use csr_store::{Column, Matrix};

/// Up to 64 cells of a row of A, and the column whose words they name, with its copy if there is
/// one.
#[derive(Drop)]
pub(crate) struct ColumnTerms<'c> {
    pub(crate) cells: &'c [(u64, u64)],
    pub(crate) b: &'c Matrix,
    pub(crate) column: Option<&'c Column>,
}

/// The word at row `k` of a column, and whether there is one: from its copy, if there is one.
/// Without a word the number is arbitrary.
#[inline(always)]
pub(crate) fn word_at(b: &Matrix, column: Option<&Column>, k: u64) -> (u64, bool)
    requires column { b.now.columns ≡ 1 }
    requires copy { IsCopyOf b.now column }
    requires row { k < b.now.rows }
    ensures { fin.get b.now.cells (k, 0) ≡ (if result.1 then Some result.0 else None) }
{
    match column {
        Some(column) => column.word(k),
        None => b.word_in_column(k),
    }
}

/// Lists the terms of cells, each at column 0, by an operator that computes a function. Returns the
/// steps. A term is listed before it is known whether there is a word for it, and removed if there
/// is none: a branch here would be mispredicted.
#[inline(always)]
fn multiply<F: Function>(
    mul: &Operator,
    cells: &[(u64, u64)],
    b: &Matrix,
    column: Option<&Column>,
    terms: &mut Vec<(u64, u64)>,
) -> u64
    requires computes { Computes mul.now F.meaning F.price }
    requires may { MayMultiply mul.now b.now column cells.now }
    requires capacity { HasRoom terms.old }
    ensures { AreMultiplied mul.now b.now cells.now terms.new result }
{
    terms.clear();
    let mut steps = 0;
    for (k, x) in cells {
        let (word, stands) = word_at(b, column, *k);
        steps += list_if(terms, call_by::<F>(mul, *x, word), stands);
    }
    steps
}

/// Lists the result of a call at column 0, and removes it unless `stands`. Returns the steps of the
/// call, if it stays.
#[inline(always)]
fn list_if(terms: &mut Vec<(u64, u64)>, called: Outcome, stands: bool) -> u64
    requires capacity { length terms.old.items < vec_capacity terms.old }
    ensures listed { terms.new.items
        ≡ (if stands then terms.old.items ++ (0, called.value) ∷ [] else terms.old.items) }
    ensures capacity { vec_capacity terms.old ≤ vec_capacity terms.new }
    ensures steps { result ≡ (if stands then called.steps else 0) }
{
    terms.push_reserved((0, called.value));
    if stands {
        return called.steps;
    }
    // The length alone changes. What the call computed isn't charged either.
    let _ = terms.take_last();
    0
}

impl<'c> Loop for ColumnTerms<'c> {
    type State = Vec<(u64, u64)>;

    ghost may_run = { λ n mul terms. MayMultiply mul n.b.now n.column n.cells.now × HasRoom terms };

    ghost gives = { λ n mul old terms steps. AreMultiplied mul n.b.now n.cells.now terms steps };

    #[inline(never)]
    fn run<F: Function>(&self, mul: &Operator, terms: &mut Vec<(u64, u64)>) -> u64 {
        // A loop for each, so that no cell has to ask whether there is a copy.
        match self.column {
            Some(column) => multiply::<F>(mul, self.cells, self.b, Some(column), terms),
            None => multiply::<F>(mul, self.cells, self.b, None, terms),
        }
    }
}

/// Gathers the words of cells with the words of B that they meet, replacing what was gathered.
pub(crate) fn gather(cells: &[(u64, u64)], b: &Matrix, column: Option<&Column>, calls: &mut Calls)
    requires { AreLent b.now column cells.now }
    ensures kind { calls.new.kind ≡ kinds.Binary }
    ensures gathered { (mul : Accepted) → AreGathered mul b.now cells.now calls.new.operands }
{
    calls.begin(Kind::Binary);
    for (k, x) in cells {
        let (word, stands) = word_at(b, column, *k);
        gather_if(calls, *x, word, stands);
    }
}

/// Gathers a pair of words, if `stands`.
#[inline(always)]
fn gather_if(calls: &mut Calls, x: u64, word: u64, stands: bool)
    requires capacity { length calls.old.operands < 64 }
    requires kind { calls.old.kind ≡ kinds.Binary }
    ensures gathered { calls.new.operands
        ≡ (if stands then calls.old.operands ++ Binary x word ∷ [] else calls.old.operands) }
    ensures kind { calls.new.kind ≡ kinds.Binary }
{
    if stands {
        calls.gather_pair(x, word);
    }
}

/// Lists terms, each at column 0.
pub(crate) fn list_terms(values: &[u64], terms: &mut Vec<(u64, u64)>)
    requires few { length values.now ≤ 64 }
    requires capacity { HasRoom terms.old }
    ensures listed { terms_of terms.new.items ≡ values.now }
    ensures capacity { HasRoom terms.new }
{
    terms.clear();
    for value in values {
        // The capacity is 64, so nothing can be refused.
        terms.push_reserved((0, *value));
    }
}
