//! Rows of a product by one column: the terms of a row are one list, which is folded. There is
//! nothing to sort.
ghost use Rattle.std.specs.Prelude.{◌≡◌, ◌<◌, ◌^◌, [], IfOk, IfSome, OnOk};
ghost use Rattle.bpf_insn.specs.declared.operands.Kind.TheVariants as kinds;
ghost use Rattle.bpf_run.specs.Calls.{steps_of};
ghost use Rattle.bpf_run.specs.Fold.{terms_of, fold_from, fold_calls_from};
ghost use Rattle.csr_store.specs.Along.{cell_at};
ghost use Rattle.csr_store.specs.Grid.{row_of};
ghost use Rattle.csr_store.specs.Mask.{mask_of, passes};
ghost use Rattle.row_product.specs.inner.Column.{MayMultiply, AreMultiplied, AddsListed, MaySum, IsSummed, IsNextOpen, HasRoom};
ghost use Rattle.row_product.specs.inner.Masked.{AddsCharged};
ghost use Rattle.row_product.specs.inner.Sums.{fold_on_calls};

use crate::column_terms::{ColumnTerms, gather, list_terms};
use crate::factors::MaskedFactors;
use crate::row_accumulator::RowAccumulator;
use bpf_run::{Calls, MOST_CALLS, Outcome, fold, run_known};
use bpf_verify::Operator;
use csr_store::{Column, Matrix, Rows};
use job_forms::Making;
use std::alloc::{AllocError, Global};

/// The terms of up to 64 cells of a row of A, and the calls that compute them if the operator isn't
/// recognised.
#[derive(Drop)]
pub(crate) struct Summing {
    pub(crate) terms: Vec<(u64, u64)>,
    calls: Calls,
}

/// The sum of the terms of a row, if there are any, and the steps.
#[derive(Drop)]
pub(crate) struct Summed {
    pub(crate) sum: Option<u64>,
    pub(crate) steps: u64,
}

/// Whether a mask lets the one position of a row pass, or there is no mask.
#[inline(always)]
pub(crate) fn lets_pass(mask: Option<&Matrix>, i: u64) -> bool
    requires row { IfSome mask (λ m. i < m.now.rows) }
    requires column { IfSome mask (λ m. m.now.columns ≡ 1) }
    ensures { result ≡ passes (mask_of mask.entry) (i, 0) }
{
    match mask {
        // Without its word, as a mask is structural.
        Some(mask) => mask.word_in_column(i).1,
        None => true,
    }
}

/// Folds the words of further terms into a word.
#[inline(always)]
fn fold_terms(add: &Operator, so_far: u64, terms: &[(u64, u64)]) -> Outcome
    requires add { add.now.kind ≡ kinds.Binary }
    requires capacity { steps_of (fold_calls_from add.now so_far (terms_of terms.now)) < 2 ^ 64 }
    ensures value { result.value ≡ fold_from add.now so_far (terms_of terms.now) }
    ensures steps { result.steps ≡ steps_of (fold_calls_from add.now so_far (terms_of terms.now)) }
{
    match terms.split_first() {
        Some((next, others)) => fold(add, so_far, next.1, others),
        None => Outcome {
            value: so_far,
            steps: 0,
        },
    }
}

/// Folds the words of further terms into a sum, or begins it with the first. Returns the steps.
fn add_terms(add: &Operator, terms: &[(u64, u64)], sum: &mut Option<u64>) -> u64
    requires add { add.now.kind ≡ kinds.Binary }
    requires capacity { steps_of (fold_on_calls add.now sum.old (terms_of terms.now)) < 2 ^ 64 }
    ensures { AddsListed add.now (terms_of terms.now) sum.old sum.new result }
{
    let (so_far, further) = match *sum {
        Some(so_far) => (so_far, terms),
        None => match terms.split_first() {
            Some((first, others)) => (first.1, others),
            // No terms: the sum stays as it is, and may remain absent.
            None => return 0,
        },
    };
    let folded = fold_terms(add, so_far, further);
    *sum = Some(folded.value);
    folded.steps
}

impl Summing {
    /// Without rows yet.
    pub(crate) fn new(alloc: Global) -> Result<Self, AllocError>
        ensures { IfOk result (λ s. HasRoom s.terms) }
    {
        Ok(Summing {
            // Both here, so that rows need no memory for their sums.
            terms: Vec::with_capacity(alloc, MOST_CALLS)?,
            calls: Calls::new(alloc)?,
        })
    }

    /// Lists the terms of up to 64 cells of a row of A. Returns the steps.
    fn multiply(
        &mut self,
        mul: &Operator,
        cells: &[(u64, u64)],
        b: &Matrix,
        column: Option<&Column>,
    ) -> u64
        requires mul { mul.now.kind ≡ kinds.Binary }
        requires may { MayMultiply mul.now b.now column cells.now }
        requires capacity { HasRoom self.old.terms }
        ensures { AreMultiplied mul.now b.now cells.now self.new.terms result }
    {
        // A compiled loop lists its terms directly. Gathering them would cost more than the calls.
        if let Some(steps) = run_known(&ColumnTerms { cells, b, column }, mul, &mut self.terms) {
            return steps;
        }
        gather(cells, b, column, &mut self.calls);
        let steps = self.calls.make(mul);
        list_terms(self.calls.values(), &mut self.terms);
        steps
    }

    /// Sums the terms of cells of a row of A.
    fn sum_cells(&mut self, factors: &MaskedFactors, row: &[(u64, u64)]) -> Summed
        requires row { MaySum factors.now row.now }
        requires capacity { HasRoom self.old.terms }
        ensures summed { IsSummed factors.now row.now result.sum result.steps }
        ensures capacity { HasRoom self.new.terms }
    {
        let mut sum = None;
        let mut steps = 0;
        let mut cells = row;
        while !cells.is_empty() {
            // In parts of 64 cells, which is as many calls as run at once.
            let (now, rest) = cells.split_at(cells.len().min(MOST_CALLS));
            let multiplied = self.multiply(factors.mul, now, factors.b, factors.column);
            steps += multiplied + add_terms(factors.add, &self.terms, &mut sum);
            cells = rest;
        }
        Summed { sum, steps }
    }

    /// Adds row `i` of the product, whose one position passes. All its calls run, and are charged,
    /// before memory may be refused.
    fn fill_open(
        &mut self,
        factors: &MaskedFactors,
        i: u64,
        making: &mut Making,
    ) -> Result<(), AllocError>
        requires next { IsNextOpen factors.now i making.old }
        requires capacity { HasRoom self.old.terms }
        ensures added { AddsCharged factors.now i making.old making.new result }
        ensures capacity { HasRoom self.new.terms }
    {
        let summed = self.sum_cells(factors, factors.a.row(i));
        end_summed(factors, i, &summed, making)
    }
}

/// Adds row `i` of the product, whose one position passes, once its terms are summed. All its calls
/// are charged before memory may be refused.
#[inline(always)]
pub(crate) fn end_summed(
    factors: &MaskedFactors,
    i: u64,
    summed: &Summed,
    making: &mut Making,
) -> Result<(), AllocError>
    requires next { IsNextOpen factors.now i making.old }
    requires summed { IsSummed factors.now (row_of factors.now.a.now i) summed.now.sum summed.now.steps }
    ensures { AddsCharged factors.now i making.old making.new result }
{
    // Charged first: the push may be refused memory.
    making.steps += summed.steps;
    put_sum(summed.sum, &mut making.rows)?;
    making.rows.end_row()
}

/// Appends the sum of a row's one column, if there is one, to the open row.
#[inline(always)]
fn put_sum(sum: Option<u64>, rows: &mut Rows) -> Result<(), AllocError>
    requires column { rows.old.columns ≡ 1 }
    requires none_open { rows.old.opened ≡ [] }
    ensures { OnOk result (rows.new ≡ record rows.old { opened = cell_at 0 sum }) }
{
    match sum {
        Some(sum) => rows.push(0, sum),
        None => Ok(()),
    }
}

impl RowAccumulator for Summing {
    ghost is_ready = { λ columns s. (columns ≡ 1) × HasRoom s.terms };

    ghost may_fill = { λ f i. Unit {0} };

    /// Work linear in the words of A's row. Nothing is read of a row that doesn't pass the mask.
    fn fill_row(
        &mut self,
        factors: &MaskedFactors,
        i: u64,
        making: &mut Making,
    ) -> Result<(), AllocError> {
        if !lets_pass(factors.mask, i) {
            return making.rows.end_row();
        }
        self.fill_open(factors, i, making)
    }
}
