//! Rows of a product whose terms are few compared with the columns: the terms are listed, sorted by
//! their columns, and folded.
ghost use Rattle.std.specs.Prelude.{◌≡◌, ◌≤◌, ◌<◌, ◌++◌, [], ℕ, true, length, OnOk};
ghost use Rattle.bpf_run.specs.Calls.{steps_of};
ghost use Rattle.csr_store.specs.Grid.{Cell, limit, row_of};
ghost use Rattle.csr_store.specs.Mask.{mask_of, row_passes};
ghost use Rattle.job_forms.specs.Product.{mults_of};
ghost use Rattle.row_product.specs.inner.SortedAccumulator.{HaveRoom, IsInLists, IsBehindNone};
ghost use Rattle.row_product.specs.inner.Masked.{IsNext, AddsCharged};
ghost use Rattle.row_product.specs.inner.Rows.{IsRowOfA};

use crate::factors::MaskedFactors;
use crate::folding::{Ordered, fold_terms};
use crate::listing::{Naming, list_terms};
use crate::ordering::put_in_order;
use crate::row_accumulator::RowAccumulator;
use csr_store::Rows;
use job_forms::{Making, is_open, mults_in_row};
use std::alloc::{AllocError, Global};

/// The buffers for the terms of a row, which are reused from row to row and from product to
/// product.
#[derive(Drop)]
pub(crate) struct SortedAccumulator {
    /// The terms, each with its column, in the order of A's row.
    pub(crate) listed: Vec<(u64, u64)>,
    /// Their keys, which put them in the order of columns.
    pub(crate) keys: Vec<u64>,
    /// The sum of each column that has terms, by ascending column.
    pub(crate) sums: Vec<(u64, u64)>,
}

impl SortedAccumulator {
    /// Without rows yet. Takes no memory.
    pub(crate) fn new(alloc: Global) -> Self {
        SortedAccumulator {
            listed: Vec::new(alloc),
            keys: Vec::new(alloc),
            sums: Vec::new(alloc),
        }
    }

    /// Reserves memory for so many terms, replacing those that were listed.
    fn make_room(&mut self, terms: usize) -> Result<(), AllocError>
        ensures { OnOk result (HaveRoom terms self.new) }
    {
        // Cleared before the lists grow, so that growing copies nothing.
        self.listed.clear();
        self.keys.clear();
        self.sums.clear();
        self.listed.reserve(terms)?;
        self.keys.reserve(terms)?;
        self.sums.reserve(terms)
    }

    /// Sums row `i` of the product at the columns that pass the mask. Returns the steps.
    fn sum_row(&mut self, factors: &MaskedFactors, i: u64) -> u64
        requires row { IsRowOfA factors.now i }
        requires few { mults_of factors.now.b.now (row_of factors.now.a.now i) < limit }
        requires capacity { HaveRoom (mults_of factors.now.b.now (row_of factors.now.a.now i)) self.old }
        ensures { IsInLists factors.now i self.new.sums.items result }
    {
        let naming = Naming {
            row: factors.a.row(i),
            b: factors.b,
            mask: factors.mask,
            i,
        };
        let multiplied = list_terms(factors.mul, &naming, &mut self.listed);
        // The keys are sorted, not the terms: a key is one word.
        put_in_order(&self.listed, &mut self.keys);
        let ordered = Ordered {
            listed: &self.listed,
            keys: &self.keys,
        };
        multiplied + fold_terms(factors.add, &ordered, &mut self.sums)
    }

    /// Adds row `i` of the product, for whose terms memory is reserved. All its calls are made, and
    /// charged, before memory may be refused.
    fn fill_listed(
        &mut self,
        factors: &MaskedFactors,
        i: u64,
        making: &mut Making,
    ) -> Result<(), AllocError>
        requires next { IsNext factors.now i making.old }
        requires few { mults_of factors.now.b.now (row_of factors.now.a.now i) < limit }
        requires capacity { HaveRoom (mults_of factors.now.b.now (row_of factors.now.a.now i)) self.old }
        ensures { AddsCharged factors.now i making.old making.new result }
    {
        // Charged first: the push may be refused memory.
        making.steps += self.sum_row(factors, i);
        push_cells(&self.sums, &mut making.rows)?;
        making.rows.end_row()
    }
}

/// Appends cells to the open row, which has none yet.
fn push_cells(cells: &[(u64, u64)], rows: &mut Rows) -> Result<(), AllocError>
    requires { IsBehindNone cells.now rows.old }
    ensures { OnOk result (rows.new ≡ record rows.old { opened = cells.now }) }
{
    // Once for all, so that the row grows at most once.
    rows.reserve(cells.len())?;
    for (column, word) in cells {
        rows.push(*column, *word)?;
    }
    Ok(())
}

impl RowAccumulator for SortedAccumulator {
    ghost is_ready = { λ columns lists. Unit {0} };

    ghost may_fill = { λ f i. row_passes (mask_of f.mask) i ≡ true → mults_of f.b.now (row_of f.a.now i) < limit };

    /// Memory, and work apart from sorting columns, are linear in the multiplications of the row.
    fn fill_row(
        &mut self,
        factors: &MaskedFactors,
        i: u64,
        making: &mut Making,
    ) -> Result<(), AllocError> {
        if !is_open(factors.mask, i) {
            return making.rows.end_row();
        }
        // By row starts, so that all memory is there before the first call.
        let terms = mults_in_row(factors.b, factors.a.row(i));
        self.make_room(terms as usize)?;
        self.fill_listed(factors, i, making)
    }
}
