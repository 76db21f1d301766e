//! Rows of B, each times a word, added to the sums of a row: by their pairs, or by their columns
//! alone, where one word stands for those of B and ADD is recognised.
ghost use Rattle.std.specs.Prelude.{◌≡◌, length};
ghost use Rattle.bpf_run.specs.Known.{Computes};
ghost use Rattle.row_product.specs.declared.factors.MaskedFactors.{MaskedFactors as Those};
ghost use Rattle.row_product.specs.inner.Progress.{IsReady, stands};
ghost use Rattle.row_product.specs.inner.Rows.{IsRowOfA, IsRowOfB, AddsRowOfB, AddsTerms};
ghost use Rattle.row_product.specs.inner.StandIn.{StandsOnRight};
ghost use Rattle.row_product.specs.inner.Sums.{takes};

use crate::factors::MaskedFactors;
use crate::progress::Progress;
use crate::term::term_of;
use bpf_run::{Function, Loop};
use bpf_verify::Operator;
use std::marker::PhantomData;

/// A way to add a row of B, as a type: the loop over the rows that a row of A names is written once.
trait RowAdder {
    /// The factors for which it is one.
    ghost serves: { Self → Those → Type 0 };

    /// Adds a word times row `k` of B to the sums: if `masked`, at the allowed columns. Returns the
    /// steps.
    fn add_row(
        &self,
        progress: &mut Progress,
        factors: &MaskedFactors,
        x: u64,
        k: u64,
        masked: bool,
    ) -> u64
        requires serves { serves self.now factors.now }
        requires row { IsRowOfB factors.now k }
        requires ready { IsReady factors.now.b.now.columns progress.old }
        ensures added { AddsRowOfB factors.now x k (takes masked progress.old.allowed.items) (stands progress.old)
            (stands progress.new) result }
        ensures ready { IsReady factors.now.b.now.columns progress.new × (progress.new.allowed ≡ progress.old.allowed)
            × (length (stands progress.new) ≡ length (stands progress.old)) };
}

/// By its pairs.
struct ByPairs;

impl RowAdder for ByPairs {
    ghost serves = { λ s f. Unit {0} };

    #[inline(always)]
    fn add_row(
        &self,
        progress: &mut Progress,
        factors: &MaskedFactors,
        x: u64,
        k: u64,
        masked: bool,
    ) -> u64 {
        progress.add_row(factors, x, k, masked)
    }
}

/// By its columns, with a word that stands for those of B, and an ADD that computes a function.
struct ByColumns<F> {
    word: u64,
    function: PhantomData<F>,
}

impl<F: Function> RowAdder for ByColumns<F> {
    ghost serves = { λ s f. Computes f.add.now F.meaning F.price × StandsOnRight f.mul.now f.b.now s.word };

    #[inline(always)]
    fn add_row(
        &self,
        progress: &mut Progress,
        factors: &MaskedFactors,
        x: u64,
        k: u64,
        masked: bool,
    ) -> u64 {
        let Some(columns) = factors.b.columns_in(k) else {
            return progress.add_row(factors, x, k, masked);
        };
        // Once for the whole row.
        let term = term_of(factors.mul, x, self.word);
        progress.add_columns::<F>(factors, &term, columns, masked)
    }
}

/// Adds the rows of B that row `i` of A names, each times the word that names it. Returns the steps.
#[inline(always)]
fn add_named<R: RowAdder>(
    adder: &R,
    progress: &mut Progress,
    factors: &MaskedFactors,
    i: u64,
    masked: bool,
) -> u64
    requires serves { R.serves adder.now factors.now }
    requires row { IsRowOfA factors.now i }
    requires ready { IsReady factors.now.b.now.columns progress.old }
    ensures added { AddsTerms factors.now i (takes masked progress.old.allowed.items) (stands progress.old)
        (stands progress.new) result }
    ensures ready { IsReady factors.now.b.now.columns progress.new × (progress.new.allowed ≡ progress.old.allowed) }
{
    let row = factors.a.row(i);
    let mut steps = 0;
    for k in 0..row.len() {
        let (named, x) = row[k];
        steps += adder.add_row(progress, factors, x, named, masked);
    }
    steps
}

/// The rows of B that row `i` of A names, by an ADD that is to be recognised.
#[derive(Drop)]
pub(crate) struct ListedRows<'f, 'm> {
    pub(crate) factors: &'f MaskedFactors<'m>,
    pub(crate) i: u64,
    /// A word that stands for those of B.
    pub(crate) word: u64,
    pub(crate) masked: bool,
}

impl<'f, 'm> Loop for ListedRows<'f, 'm> {
    type State = Progress;

    ghost may_run = { λ r add p. (add ≡ r.factors.now.add.now) × StandsOnRight r.factors.now.mul.now r.factors.now.b.now r.word
        × IsRowOfA r.factors.now r.i × IsReady r.factors.now.b.now.columns p };

    ghost gives = { λ r add old new steps. AddsTerms r.factors.now r.i (takes r.masked old.allowed.items) (stands old) (stands new) steps
        × IsReady r.factors.now.b.now.columns new × (new.allowed ≡ old.allowed) };

    #[inline(never)]
    fn run<F: Function>(&self, add: &Operator, progress: &mut Progress) -> u64 {
        let adder = ByColumns::<F> {
            word: self.word,
            function: PhantomData,
        };
        let steps = add_named(&adder, progress, self.factors, self.i, self.masked);
        // Taken apart, since a type without `Drop` can't go out of scope as it is.
        let ByColumns {
            word: _,
            function: _,
        } = adder;
        steps
    }
}

/// Adds the rows of B that row `i` of A names by their pairs, each times the word that names it.
pub(crate) fn add_pairs(
    progress: &mut Progress,
    factors: &MaskedFactors,
    i: u64,
    masked: bool,
) -> u64
    requires row { IsRowOfA factors.now i }
    requires ready { IsReady factors.now.b.now.columns progress.old }
    ensures added { AddsTerms factors.now i (takes masked progress.old.allowed.items) (stands progress.old)
        (stands progress.new) result }
    ensures ready { IsReady factors.now.b.now.columns progress.new × (progress.new.allowed ≡ progress.old.allowed) }
{
    add_named(&ByPairs, progress, factors, i, masked)
}
