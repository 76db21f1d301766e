//! A row of the product under construction: rows of B, each times a word, added to its sums.
ghost use Rattle.std.specs.Prelude.{◌≡◌, ◌≤◌, [], length, take, IfOk, OnOk};
ghost use Rattle.bpf_run.specs.Known.{Computes};
ghost use Rattle.csr_store.specs.Ascending.{Ascends};
ghost use Rattle.row_product.specs.inner.Adding.{taking, AreBelow};
ghost use Rattle.row_product.specs.inner.Masked.{AreMasked};
ghost use Rattle.row_product.specs.inner.Progress.{IsReady, stands, AllForbidden};
ghost use Rattle.row_product.specs.inner.Rows.{IsRowOfA, IsRowOfB, IsPart, AddsCells, AddsRowOfB, AddsTerms};
ghost use Rattle.row_product.specs.inner.StandIn.{IsTerm, cells_with, taking_columns};
ghost use Rattle.row_product.specs.inner.Sums.{flag, takes};

use crate::dense_accumulator::DenseAccumulator;
use crate::factors::MaskedFactors;
use crate::row_adder::{ListedRows, add_pairs};
use crate::term::Term;
use bpf_run::{Function, MOST_CALLS, run_known};
use std::alloc::{AllocError, Global};

/// The sums under construction, and whether the mask allows each column.
#[derive(Drop)]
pub(crate) struct Progress {
    pub(crate) sums: DenseAccumulator,
    pub(crate) allowed: Vec<bool>,
    /// A buffer of 64 cells. The first are those of a part of a row of B whose columns are allowed.
    pub(crate) passing: Vec<(u64, u64)>,
    /// A buffer of 256 columns. The first are those of a part of a row of B that are allowed.
    pub(crate) passing_columns: Vec<u32>,
}

impl Progress {
    /// Without columns yet.
    pub(crate) fn new(alloc: Global) -> Result<Self, AllocError>
        ensures { IfOk result (λ p. (p.sums ≡ []) × IsReady 0 p × AllForbidden p) }
    {
        Ok(Progress {
            sums: DenseAccumulator::new(alloc)?,
            allowed: Vec::new(alloc),
            // At full length, since `choose` writes by index.
            passing: vec![in alloc; (0, 0); MOST_CALLS]?,
            passing_columns: vec![in alloc; 0; MOST_COLUMNS]?,
        })
    }

    /// Makes the buffers hold at least so many columns, none of which has a sum.
    pub(crate) fn widen(&mut self, columns: u64) -> Result<(), AllocError>
        requires { IsReady 0 self.old × AllForbidden self.old }
        ensures wide { OnOk result (IsReady columns self.new) }
        ensures ready { IsReady 0 self.new × AllForbidden self.new }
    {
        // They only grow: flags are false between rows, so none has to be cleared.
        if columns as usize > self.allowed.len() {
            self.allowed.resize(columns as usize, false)?;
        }
        self.sums.widen(columns)
    }

    /// Adds a word times each of up to 64 cells of a row of B to the sums: if `masked`, of those
    /// whose columns are allowed.
    fn add_part(
        &mut self,
        factors: &MaskedFactors,
        x: u64,
        cells: &[(u64, u64)],
        masked: bool,
    ) -> u64
        requires part { IsPart factors.now factors.now.b.now.columns cells.now }
        requires ready { IsReady factors.now.b.now.columns self.old }
        ensures added { AddsCells factors.now x (taking (takes masked self.old.allowed.items) cells.now) (stands self.old)
            (stands self.new) result }
        ensures ready { IsReady factors.now.b.now.columns self.new × (self.new.allowed ≡ self.old.allowed) }
    {
        // Without a mask no cell is copied.
        if !masked {
            return self.sums.add_cells(factors, x, cells);
        }
        let count = choose(cells, &self.allowed, &mut self.passing);
        self.sums.add_cells(factors, x, &self.passing[..count])
    }

    /// Adds a word times row `k` of B to the sums: if `masked`, at the allowed columns. Returns the
    /// steps.
    pub(crate) fn add_row(&mut self, factors: &MaskedFactors, x: u64, k: u64, masked: bool) -> u64
        requires row { IsRowOfB factors.now k }
        requires ready { IsReady factors.now.b.now.columns self.old }
        ensures added { AddsRowOfB factors.now x k (takes masked self.old.allowed.items) (stands self.old)
            (stands self.new) result }
        ensures ready { IsReady factors.now.b.now.columns self.new × (self.new.allowed ≡ self.old.allowed)
            × (length (stands self.new) ≡ length (stands self.old)) }
    {
        let mut cells = factors.b.row(k);
        let mut steps = 0;
        while !cells.is_empty() {
            // In parts of 64 cells, which is as many calls as run at once.
            let (now, rest) = cells.split_at(cells.len().min(MOST_CALLS));
            steps += self.add_part(factors, x, now, masked);
            cells = rest;
        }
        steps
    }

    /// Adds a term to the sums of columns of a row of B: if `masked`, of those that are allowed.
    /// Returns the steps.
    #[inline(always)]
    pub(crate) fn add_columns<F: Function>(
        &mut self,
        factors: &MaskedFactors,
        term: &Term,
        columns: &[u32],
        masked: bool,
    ) -> u64
        requires computes { Computes factors.now.add.now F.meaning F.price }
        requires term { IsTerm factors.now.mul.now term.now }
        requires factors { AreMasked factors.now }
        requires apart { Ascends 0 factors.now.b.now.columns (cells_with term.now.word columns.now) }
        requires ready { IsReady factors.now.b.now.columns self.old }
        ensures added { AddsCells factors.now term.now.x
            (taking (takes masked self.old.allowed.items) (cells_with term.now.word columns.now)) (stands self.old) (stands self.new) result }
        ensures ready { IsReady factors.now.b.now.columns self.new × (self.new.allowed ≡ self.old.allowed) }
    {
        if !masked {
            return self.sums.add_to_each::<F>(factors, term, columns);
        }
        let mut steps = 0;
        let mut rest = columns;
        while !rest.is_empty() {
            let (now, behind) = rest.split_at(rest.len().min(MOST_COLUMNS));
            let count = choose_columns(now, &self.allowed, &mut self.passing_columns);
            steps += self
                .sums
                .add_to_each::<F>(factors, term, &self.passing_columns[..count]);
            rest = behind;
        }
        steps
    }

    /// Adds the rows of B that row `i` of A names, each times the word that names it. Returns the
    /// steps.
    pub(crate) fn add_rows(&mut self, factors: &MaskedFactors, i: u64, masked: bool) -> u64
        requires row { IsRowOfA factors.now i }
        requires ready { IsReady factors.now.b.now.columns self.old }
        ensures added { AddsTerms factors.now i (takes masked self.old.allowed.items) (stands self.old) (stands self.new) result }
        ensures ready { IsReady factors.now.b.now.columns self.new × (self.new.allowed ≡ self.old.allowed) }
    {
        if let Some(word) = factors.right {
            let rows = ListedRows {
                factors,
                i,
                word,
                masked,
            };
            if let Some(steps) = run_known(&rows, factors.add, self) {
                return steps;
            }
        }
        add_pairs(self, factors, i, masked)
    }
}

/// How many columns are chosen at once.
const MOST_COLUMNS: usize = 256;

/// Copies the columns that are allowed to the front, as `choose` does cells.
#[inline(always)]
fn choose_columns(columns: &[u32], allowed: &[bool], passing: &mut [u32]) -> usize
    requires capacity { length columns.now ≤ length passing.old }
    requires within { AreBelow (length allowed.now) columns.now }
    ensures taking { take result passing.new ≡ taking_columns (flag allowed.now) columns.now }
    ensures few { result ≤ length columns.now }
    ensures capacity { length passing.new ≡ length passing.old }
{
    let mut count = 0;
    for column in columns {
        passing[count] = *column;
        count += usize::from(allowed[*column as usize]);
    }
    count
}

/// Copies the cells whose columns are allowed to the front. Returns how many they are. Each cell is
/// copied, allowed or not, and the next overwrites one that isn't: no processor predicts which are
/// allowed, so no jump depends on it.
fn choose(cells: &[(u64, u64)], allowed: &[bool], passing: &mut [(u64, u64)]) -> usize
    requires capacity { length cells.now ≤ length passing.old }
    requires within { Ascends 0 (length allowed.now) cells.now }
    ensures taking { take result passing.new ≡ taking (flag allowed.now) cells.now }
    ensures few { result ≤ length cells.now }
    ensures capacity { length passing.new ≡ length passing.old }
{
    let mut count = 0;
    for cell in cells {
        passing[count] = *cell;
        count += usize::from(allowed[cell.0 as usize]);
    }
    count
}
