//! A row of sums, to which the cells of rows of B are added, each times a word.
ghost use Rattle.std.specs.Prelude.{◌≡◌, ◌≤◌, ◌++◌, ℕ, None, [], length, IfOk, OnOk};
ghost use Rattle.bpf_verify.specs.Accepted.{Accepted};
ghost use Rattle.bpf_run.specs.Known.{Computes};
ghost use Rattle.csr_store.specs.Along.{row_by};
ghost use Rattle.csr_store.specs.Ascending.{Ascends};
ghost use Rattle.csr_store.specs.Grid.{limit};
ghost use Rattle.row_product.specs.inner.Adding.{none_gathered, AreBelow, AreTerms, ArePut, MayPut, IsMet};
ghost use Rattle.row_product.specs.inner.Emitting.{MayEmit};
ghost use Rattle.row_product.specs.inner.Masked.{AreMasked};
ghost use Rattle.row_product.specs.inner.Rows.{IsPart, AddsCells};
ghost use Rattle.row_product.specs.inner.Single.{multiplied, MayPutProducts, AreCharged};
ghost use Rattle.row_product.specs.inner.StandIn.{IsTerm, cells_with};
ghost use Rattle.row_product.specs.inner.Sums.{slot};

use crate::additions::Additions;
use crate::factors::MaskedFactors;
use crate::single::push_words;
use crate::sums::Sums;
use crate::term::Term;
use crate::terms::Terms;
use bpf_run::{Calls, Function, run_known};
use bpf_verify::Operator;
use csr_store::Rows;
use job_forms::Making;
use std::alloc::{AllocError, Global};
use std::marker::Model;

/// The sums of a row, and the calls that add to them. A contract sees the sum of each column, if
/// there is one.
#[derive(Drop)]
pub(crate) struct DenseAccumulator {
    sums: Sums,
    products: Calls,
    additions: Additions,
}

impl Model for DenseAccumulator {
    ghost use Rattle.std.specs.Prelude.{ℕ, List, Option, ◌≡◌};
    ghost use Rattle.row_product.specs.inner.Adding.{none_gathered};

    ghost Value = { List (Option ℕ) };

    ghost view = { λ a. a.sums };

    ghost invariant = { λ a. a.additions ≡ none_gathered };
}

impl DenseAccumulator {
    /// Without columns yet.
    // The buffers for calls. The sums get theirs in `widen`.
    pub(crate) fn new(alloc: Global) -> Result<Self, AllocError>
        ensures { IfOk result (λ a. a ≡ []) }
    {
        Ok(DenseAccumulator {
            sums: Sums::new(alloc),
            products: Calls::new(alloc)?,
            additions: Additions::new(alloc)?,
        })
    }

    /// How many columns the buffers hold.
    pub(crate) fn capacity(&self) -> usize
        ensures { length self.now ≤ result }
    {
        self.sums.capacity()
    }

    /// Makes the buffers hold at least so many columns, none of which has a sum.
    pub(crate) fn widen(&mut self, columns: u64) -> Result<(), AllocError>
        ensures { OnOk result (columns ≤ length self.new) }
    {
        self.sums.widen(columns)
    }

    /// Begins a row, with no sum.
    pub(crate) fn begin(&mut self)
        ensures none { (j : ℕ) → slot self.new j ≡ None }
        ensures long { length self.new ≡ length self.old }
    {
        self.sums.begin();
    }

    /// Adds a word times each of up to 64 cells of a row of B to the sums of their columns. Returns
    /// the steps.
    pub(crate) fn add_cells(&mut self, factors: &MaskedFactors, x: u64, cells: &[(u64, u64)]) -> u64
        requires { IsPart factors.now (length self.old) cells.now }
        ensures { AddsCells factors.now x cells.now self.old self.new result }
    {
        let multiplied = self.products.make_with(factors.mul, x, cells);
        let terms = self.products.values();
        multiplied
            + add_terms(
                factors.add,
                cells,
                terms,
                &mut self.additions,
                &mut self.sums,
            )
    }

    /// Adds a term to the sums of columns, each of which costs its steps. Returns all steps.
    #[inline(always)]
    pub(crate) fn add_to_each<F: Function>(
        &mut self,
        factors: &MaskedFactors,
        term: &Term,
        columns: &[u32],
    ) -> u64
        requires computes { Computes factors.now.add.now F.meaning F.price }
        requires term { IsTerm factors.now.mul.now term.now }
        requires factors { AreMasked factors.now }
        requires few { length columns.now ≤ limit }
        requires apart { Ascends 0 (length self.old) (cells_with term.now.word columns.now) }
        ensures { AddsCells factors.now term.now.x (cells_with term.now.word columns.now) self.old self.new result }
    {
        add_to_each::<F>(factors, term, columns, &mut self.sums)
    }

    /// Appends a word times each of up to 64 cells to the open row, without a sum. The calls
    /// run, and are charged, before memory may be refused.
    pub(crate) fn push_products(
        &mut self,
        factors: &MaskedFactors,
        x: u64,
        cells: &[(u64, u64)],
        making: &mut Making,
    ) -> Result<(), AllocError>
        requires { MayPutProducts factors.now cells.now making.old }
        ensures pushed { OnOk result (making.new.rows
            ≡ record making.old.rows { opened = making.old.rows.opened ++ multiplied factors.now.mul.now x cells.now }) }
        ensures charged { AreCharged factors.now x cells.now making.old making.new }
        ensures sums { self.new ≡ self.old }
    {
        // Charged first: the push may be refused memory.
        making.steps += self.products.make_with(factors.mul, x, cells);
        push_words(cells, self.products.values(), &mut making.rows)
    }

    /// Appends the sums to the open row, by ascending column.
    pub(crate) fn emit(&mut self, columns: u64, rows: &mut Rows) -> Result<(), AllocError>
        requires { MayEmit columns self.old rows.old }
        ensures rows { OnOk result (rows.new ≡ record rows.old { opened = row_by rows.old.columns (slot self.old) }) }
        ensures sums { self.new ≡ self.old }
    {
        self.sums.emit(columns, rows)
    }
}

/// Adds a term to the sums of columns, each of which costs its steps. Returns all steps.
#[inline(always)]
fn add_to_each<F: Function>(
    factors: &MaskedFactors,
    term: &Term,
    columns: &[u32],
    sums: &mut Sums,
) -> u64
    requires computes { Computes factors.now.add.now F.meaning F.price }
    requires term { IsTerm factors.now.mul.now term.now }
    requires factors { AreMasked factors.now }
    requires few { length columns.now ≤ limit }
    requires apart { Ascends 0 (length sums.old) (cells_with term.now.word columns.now) }
    ensures { AddsCells factors.now term.now.x (cells_with term.now.word columns.now) sums.old sums.new result }
{
    let mut steps = 0;
    for column in columns {
        let added = sums.add::<F>(factors.add, u64::from(*column), term.value);
        steps += term.steps + added;
    }
    steps
}

/// Adds terms to the sums of the columns of cells. Returns the steps.
fn add_terms(
    add: &Operator,
    cells: &[(u64, u64)],
    terms: &[u64],
    additions: &mut Additions,
    sums: &mut Sums,
) -> u64
    requires add { MayPut add.now sums.old cells.now terms.now }
    requires none { additions.old ≡ none_gathered }
    ensures put { ArePut add.now cells.now terms.now sums.old sums.new result }
    ensures none { additions.new ≡ none_gathered }
{
    // A compiled loop adds each term at once. Gathering it would cost more than adding it.
    if let Some(steps) = run_known(&Terms { cells, terms }, add, sums) {
        return steps;
    }
    meet(cells, terms, additions, sums);
    additions.make(add, sums)
}

/// Writes terms at the columns of cells: the first of a column is its sum, and the addition of any
/// other is gathered.
fn meet(cells: &[(u64, u64)], terms: &[u64], additions: &mut Additions, sums: &mut Sums)
    requires terms { AreTerms (length sums.old) cells.now terms.now }
    requires none { additions.old ≡ none_gathered }
    ensures met { (add : Accepted) → IsMet add sums.old cells.now terms.now sums.new additions.new }
    ensures below { AreBelow (length sums.new) additions.new.columns }
{
    for k in 0..cells.len() {
        let column = cells[k].0;
        // No two cells of a row of B have one column, so this sum isn't among those that wait.
        match sums.get(column) {
            Some(so_far) => additions.gather(column, so_far, terms[k]),
            None => sums.begin_sum(column, terms[k]),
        }
    }
}
