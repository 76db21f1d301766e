//! Rows of a product by one column with a usual ADD and a recognised MUL: all rows of a range are
//! computed in one loop, into which both are compiled. A term goes into its sum at once, and
//! nothing is listed.
ghost use Rattle.std.specs.Prelude.{◌≡◌, ◌≤◌, ◌+◌, None, Some, IfSome, map, if◌then◌else◌};
ghost use Rattle.bpf_insn.specs.declared.operands.Kind.TheVariants as kinds;
ghost use Rattle.bpf_run.specs.Calls.{steps_of};
ghost use Rattle.bpf_run.specs.Known.{Computes};
ghost use Rattle.bpf_verify.specs.Accepted.{IsAccepted};
ghost use Rattle.csr_store.specs.Column.{column_of, IsCopyOf};
ghost use Rattle.csr_store.specs.Grid.{row_of};
ghost use Rattle.row_product.specs.inner.Column.{MaySum, IsSummed, IsBegunInColumn};
ghost use Rattle.row_product.specs.inner.Masked.{AddsRows};
ghost use Rattle.row_product.specs.inner.Rows.{IsRowOfA};
ghost use Rattle.row_product.specs.inner.StandIn.{cells_with};
ghost use Rattle.row_product.specs.inner.Sums.{added, added_calls};

use crate::column_terms::word_at;
use crate::factors::MaskedFactors;
use crate::one_column::{Summed, end_summed, lets_pass};
use crate::row_accumulator::{RowAccumulator, fill_rows};
use crate::usual::run_usual;
use bpf_run::{Function, Loop, Outcome, call_by, run_known};
use bpf_verify::Operator;
use csr_store::Column;
use job_forms::Making;
use std::alloc::{AllocError, Global};
use std::marker::PhantomData;
use std::mem::replace;
use std::ops::Range;

/// Adds a term to a sum so far, or begins it, by an operator that computes a function.
#[inline(always)]
fn with_term<A: Function>(add: &Operator, so_far: Option<u64>, term: u64) -> Outcome
    requires { Computes add.now A.meaning A.price }
    ensures value { result.value ≡ added add.now so_far term }
    ensures steps { result.steps ≡ steps_of (added_calls add.now so_far term) }
{
    match so_far {
        Some(so_far) => call_by::<A>(add, so_far, term),
        // The first term begins the fold, without a call: there is no identity.
        None => Outcome {
            value: term,
            steps: 0,
        },
    }
}

/// Adds a term to a sum, or begins it, if there is a word for it. Returns the steps. The addition
/// runs before it is known whether there is: no processor predicts which cells name a word.
#[inline(always)]
fn add_if<A: Function>(add: &Operator, sum: &mut Option<u64>, term: Outcome, stands: bool) -> u64
    requires computes { Computes add.now A.meaning A.price }
    requires add { IsAccepted add.now × (add.now.kind ≡ kinds.Binary) }
    requires few { term.steps ≤ 4096 }
    ensures sum { sum.new ≡ (if stands then Some (added add.now sum.old term.value) else sum.old) }
    ensures steps { result ≡ (if stands then term.steps + steps_of (added_calls add.now sum.old term.value) else 0) }
{
    let with = with_term::<A>(add, *sum, term.value);
    if !stands {
        return 0;
    }
    *sum = Some(with.value);
    term.steps + with.steps
}

/// Sums the terms of cells of a row of A.
#[inline(always)]
fn sum_cells<A: Function, M: Function>(
    factors: &MaskedFactors,
    column: Option<&Column>,
    row: &[(u64, u64)],
) -> Summed
    requires add { Computes factors.now.add.now A.meaning A.price }
    requires mul { Computes factors.now.mul.now M.meaning M.price }
    requires copy { IsCopyOf factors.now.b.now column }
    requires row { MaySum factors.now row.now }
    ensures { IsSummed factors.now row.now result.sum result.steps }
{
    let mut sum = None;
    let mut steps = 0;
    for (k, x) in row {
        let (word, stands) = word_at(factors.b, column, *k);
        let term = call_by::<M>(factors.mul, *x, word);
        steps += add_if::<A>(factors.add, &mut sum, term, stands);
    }
    Summed { sum, steps }
}

/// Sums the terms of a word with the words of B's column at some rows, where each row has one.
#[inline(always)]
fn sum_columns<A: Function, M: Function>(
    factors: &MaskedFactors,
    x: u64,
    words: &[u64],
    columns: &[u32],
) -> Summed
    requires add { Computes factors.now.add.now A.meaning A.price }
    requires mul { Computes factors.now.mul.now M.meaning M.price }
    requires words { column_of factors.now.b.now ≡ map Some words.now }
    requires row { MaySum factors.now (cells_with x columns.now) }
    ensures { IsSummed factors.now (cells_with x columns.now) result.sum result.steps }
{
    if columns.is_empty() {
        return Summed {
            sum: None,
            steps: 0,
        };
    }
    // The first term apart, so that no other asks whether the sum has begun.
    let first = call_by::<M>(factors.mul, x, words[columns[0] as usize]);
    let mut sum = first.value;
    let mut steps = first.steps;
    for n in 1..columns.len() {
        let term = call_by::<M>(factors.mul, x, words[columns[n] as usize]);
        let with = call_by::<A>(factors.add, sum, term.value);
        sum = with.value;
        steps += term.steps + with.steps;
    }
    Summed {
        sum: Some(sum),
        steps,
    }
}

/// Sums the terms of row `i` of A by its columns alone, if they are listed, a word stands for its
/// words, and each row of B has a word.
#[inline(always)]
fn sum_listed<A: Function, M: Function>(factors: &MaskedFactors, i: u64) -> Option<Summed>
    requires add { Computes factors.now.add.now A.meaning A.price }
    requires mul { Computes factors.now.mul.now M.meaning M.price }
    requires row { IsRowOfA factors.now i }
    requires column { factors.now.b.now.columns ≡ 1 }
    ensures { IfSome result (λ s. IsSummed factors.now (row_of factors.now.a.now i) s.sum s.steps) }
{
    let x = factors.left?;
    let words = factors.column?.full_words()?;
    let columns = factors.a.columns_in(i)?;
    Some(sum_columns::<A, M>(factors, x, words, columns))
}

/// Whether rows of A may be read by their columns alone.
fn are_listed(factors: &MaskedFactors, range: &Range<u64>) -> bool {
    let rows = factors.a.rows();
    factors.left.is_some() && range.start < rows && factors.a.columns_in(range.start).is_some()
}

/// Rows by operators that compute two functions, as types. It has no state.
struct Fused<A, M>(PhantomData<(A, M)>);

impl<A: Function, M: Function> RowAccumulator for Fused<A, M> {
    ghost is_ready = { λ columns s. columns ≡ 1 };

    ghost may_fill = { λ f i. Computes f.add.now A.meaning A.price × Computes f.mul.now M.meaning M.price };

    /// Work linear in the words of A's row. Nothing is read of a row that doesn't pass the mask.
    #[inline(always)]
    fn fill_row(
        &mut self,
        factors: &MaskedFactors,
        i: u64,
        making: &mut Making,
    ) -> Result<(), AllocError> {
        if !lets_pass(factors.mask, i) {
            return making.rows.end_row();
        }
        let row = factors.a.row(i);
        // A loop for each, so that no cell has to ask whether there is a copy.
        let summed = match factors.column {
            Some(column) => sum_cells::<A, M>(factors, Some(column), row),
            None => sum_cells::<A, M>(factors, None, row),
        };
        end_summed(factors, i, &summed, making)
    }
}

/// The same by the columns of A alone, where these are listed.
struct Listed<A, M>(Fused<A, M>);

impl<A: Function, M: Function> RowAccumulator for Listed<A, M> {
    ghost is_ready = { λ columns s. columns ≡ 1 };

    ghost may_fill = { λ f i. Computes f.add.now A.meaning A.price × Computes f.mul.now M.meaning M.price };

    #[inline(always)]
    fn fill_row(
        &mut self,
        factors: &MaskedFactors,
        i: u64,
        making: &mut Making,
    ) -> Result<(), AllocError> {
        if lets_pass(factors.mask, i) {
            if let Some(summed) = sum_listed::<A, M>(factors, i) {
                return end_summed(factors, i, &summed, making);
            }
        }
        self.0.fill_row(factors, i, making)
    }
}

/// Rows under construction, and, once they are complete, whether memory was refused.
#[derive(Drop)]
struct Filling {
    making: Making,
    // A `Loop` returns a number alone, so the outcome is noted in its state.
    filled: Option<Result<(), AllocError>>,
}

/// Rows of a product by one column, for which an ADD is to be recognised.
#[derive(Drop)]
struct ColumnRows<'f, 'm> {
    factors: &'f MaskedFactors<'m>,
    range: Range<u64>,
}

/// These rows by an ADD that computes a function, for which a MUL is to be recognised.
struct RowsBy<'r, 'f, 'm, A> {
    rows: &'r ColumnRows<'f, 'm>,
    add: PhantomData<A>,
}

impl<'f, 'm> Loop for ColumnRows<'f, 'm> {
    type State = Filling;

    ghost may_run = { λ r add filling. (add ≡ r.factors.now.add.now) × (filling.filled ≡ None)
        × IsBegunInColumn r.factors.now r.range.start r.range.end filling.making };

    ghost gives = { λ r add old new answer. IfSome new.filled (λ filled. AddsRows r.factors.now r.range.start r.range.end old.making new.making filled)
        × (new.filled ≡ None → new.making ≡ old.making) };

    fn run<A: Function>(&self, add: &Operator, filling: &mut Filling) -> u64 {
        let rows = RowsBy::<A> {
            rows: self,
            add: PhantomData,
        };
        let answer = run_known(&rows, self.factors.mul, filling);
        // Taken apart, since a type without `Drop` can't go out of scope as it is.
        let RowsBy { rows: _, add: _ } = rows;
        match answer {
            Some(answer) => answer,
            // No row was computed, and `filled` says so.
            None => 0,
        }
    }
}

impl<'r, 'f, 'm, A: Function> Loop for RowsBy<'r, 'f, 'm, A> {
    type State = Filling;

    ghost may_run = { λ r mul filling. Computes r.rows.now.factors.now.add.now A.meaning A.price × (mul ≡ r.rows.now.factors.now.mul.now)
        × IsBegunInColumn r.rows.now.factors.now r.rows.now.range.start r.rows.now.range.end filling.making };

    ghost gives = { λ r mul old new answer. IfSome new.filled (λ filled. AddsRows r.rows.now.factors.now r.rows.now.range.start r.rows.now.range.end
        old.making new.making filled) × (new.filled ≡ None → new.making ≡ old.making) };

    #[inline(never)]
    fn run<M: Function>(&self, mul: &Operator, filling: &mut Filling) -> u64 {
        let rows = self.rows;
        let range = rows.range.start..rows.range.end;
        // A loop for each, as above.
        if are_listed(rows.factors, &range) {
            let mut listed = Listed(Fused::<A, M>(PhantomData));
            filling.filled = Some(fill_rows(rows.factors, range, &mut listed, &mut filling.making));
            // Taken apart, as above.
            let Listed(Fused(_)) = listed;
        } else {
            let mut fused = Fused::<A, M>(PhantomData);
            filling.filled = Some(fill_rows(rows.factors, range, &mut fused, &mut filling.making));
            let Fused(_) = fused;
        }
        // The steps are in `making`.
        0
    }
}

/// Adds the rows of a range in one loop, into which both operators are compiled, if they are
/// recognised and B's column is full. Otherwise it adds none.
pub(crate) fn fill_fused(
    alloc: Global,
    factors: &MaskedFactors,
    range: Range<u64>,
    making: &mut Making,
) -> Option<Result<(), AllocError>>
    requires { IsBegunInColumn factors.now range.start range.end making.old }
    ensures known { IfSome result (λ filled. AddsRows factors.now range.start range.end making.old making.new filled) }
    ensures unknown { result ≡ None → making.new ≡ making.old }
{
    // Each sum waits for the previous one, even if a term is missing. Lists of terms skip what is
    // missing.
    if factors.b.entries() < factors.b.rows() {
        return None;
    }
    // A `Loop` owns its state, so the rows move there and back. This is a placeholder.
    let none = Making::begin(alloc, range.start, factors.b.columns());
    let mut filling = Filling {
        making: replace(making, none),
        filled: None,
    };
    // The number says nothing here: `filled` tells whether the loop ran.
    let _ = run_usual(&ColumnRows { factors, range }, factors.add, &mut filling);
    let Filling {
        making: after,
        filled,
    } = filling;
    *making = after;
    filled
}
