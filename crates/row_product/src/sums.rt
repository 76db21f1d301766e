//! The sums of a row, with a list of the columns that have one as long as they are few.
ghost use Rattle.std.specs.Prelude.{◌≡◌, ◌≤◌, ◌<◌, []};
ghost use Rattle.std.specs.Prelude.{ℕ, List, Option, None, Some, length, set, OnOk};
ghost use Rattle.csr_store.specs.Along.{row_by};
ghost use Rattle.bpf_run.specs.Calls.{steps_of};
ghost use Rattle.bpf_run.specs.Known.{Computes};
ghost use Rattle.row_product.specs.inner.Emitting.{MayEmit};
ghost use Rattle.row_product.specs.inner.Sums.{slot, added, added_calls};

use crate::dense_sums::DenseSums;
use crate::emit::{emit_listed, emit_marked};
use bpf_run::{Function, call_by};
use bpf_verify::Operator;
use csr_store::Rows;
use std::alloc::{AllocError, Global};
use std::marker::Model;

/// From one sum in so many columns on, reading the bits of all columns is cheaper than sorting
/// those that have one: 64 columns are one word.
const COLUMNS_A_SUM: u64 = 512;

/// The sums of the row in progress. A contract sees the sum of each column, if there is one.
#[derive(Drop)]
pub(crate) struct Sums {
    dense: DenseSums,
    /// The columns that have a sum, unless there are `most`.
    touched: Vec<u64>,
    most: usize,
}

impl Model for Sums {
    ghost use Rattle.std.specs.Prelude.{ℕ, List, Option, ◌≤◌, vec_capacity};
    ghost use Rattle.row_product.specs.inner.DenseSums.{AreListed};

    ghost Value = { List (Option ℕ) };

    ghost view = { λ s. s.dense };

    ghost invariant = { λ s. (s.most ≤ vec_capacity s.touched) × AreListed s.most s.dense s.touched.items };
}

impl Sums {
    /// Without columns yet. Takes no memory.
    pub(crate) fn new(alloc: Global) -> Self
        ensures { result ≡ [] }
    {
        Sums {
            dense: DenseSums::new(alloc),
            touched: Vec::new(alloc),
            most: 0,
        }
    }

    /// How many columns the buffers hold.
    pub(crate) fn capacity(&self) -> usize
        ensures { length self.now ≤ result }
    {
        self.dense.capacity()
    }

    /// Makes the buffers hold so many columns, none of which has a sum.
    pub(crate) fn widen(&mut self, columns: u64) -> Result<(), AllocError>
        ensures { OnOk result (columns ≤ length self.new) }
    {
        // The buffers are widened without sums, so that nothing has to move with its column.
        self.begin();
        // Until all memory is there: a refusal leaves an empty list, which is consistent.
        self.most = 0;
        // None for fewer than 512 columns, whose bits are eight words at most.
        let most = (columns / COLUMNS_A_SUM) as usize;
        self.touched.reserve(most)?;
        self.dense.widen(columns)?;
        self.most = most;
        Ok(())
    }

    /// Begins a row, with no sum.
    pub(crate) fn begin(&mut self)
        ensures none { (j : ℕ) → slot self.new j ≡ None }
        ensures long { length self.new ≡ length self.old }
    {
        // A full list may lack columns, so then all bits are cleared.
        if self.touched.len() < self.most {
            self.dense.forget_listed(&self.touched);
        } else {
            self.dense.forget();
        }
        self.touched.clear();
    }

    /// The sum of a column, if there is one.
    #[inline(always)]
    pub(crate) fn get(&self, column: u64) -> Option<u64>
        requires { column < length self.now }
        ensures { result ≡ slot self.now column }
    {
        self.dense.get(column)
    }

    /// Gives a column that has no sum its first.
    #[inline(always)]
    pub(crate) fn begin_sum(&mut self, column: u64, sum: u64)
        requires { column < length self.old }
        ensures { self.new ≡ set self.old column (Some sum) }
    {
        self.dense.put(column, sum);
        // Once full, the list isn't read again, and needn't be continued.
        if self.touched.len() < self.most {
            self.touched.push_reserved(column);
        }
    }

    /// Gives a column a sum, whether it has one or not.
    #[inline(always)]
    pub(crate) fn put(&mut self, column: u64, sum: u64)
        requires { column < length self.old }
        ensures { self.new ≡ set self.old column (Some sum) }
    {
        match self.dense.get(column) {
            // Its sum has begun, so the list stays as it is.
            Some(_) => self.dense.replace(column, sum),
            None => self.begin_sum(column, sum),
        }
    }

    /// Adds a term to the sum of a column, or begins it, by an operator that computes a function.
    /// Returns the steps.
    #[inline(always)]
    pub(crate) fn add<F: Function>(&mut self, add: &Operator, column: u64, term: u64) -> u64
        requires computes { Computes add.now F.meaning F.price }
        requires within { column < length self.old }
        ensures sum { self.new ≡ set self.old column (Some (added add.now (slot self.old column) term)) }
        ensures steps { result ≡ steps_of (added_calls add.now (slot self.old column) term) }
    {
        match self.dense.get(column) {
            Some(so_far) => {
                let sum = call_by::<F>(add, so_far, term);
                self.dense.replace(column, sum.value);
                sum.steps
            }
            // The first term begins the sum, and costs no call.
            None => {
                self.begin_sum(column, term);
                0
            }
        }
    }

    /// Appends the sums to the open row, by ascending column.
    pub(crate) fn emit(&mut self, columns: u64, rows: &mut Rows) -> Result<(), AllocError>
        requires { MayEmit columns self.old rows.old }
        ensures rows { OnOk result (rows.new ≡ record rows.old { opened = row_by rows.old.columns (slot self.old) }) }
        ensures sums { self.new ≡ self.old }
    {
        if self.touched.len() < self.most {
            rows.reserve(self.touched.len())?;
            // Unstable, as equal columns are alike. It allocates nothing.
            self.touched.sort_unstable();
            return emit_listed(columns, &self.touched, &self.dense, rows);
        }
        // Columns are read in order, so nothing has to be sorted.
        emit_marked(columns, self.dense.bits(), &self.dense, rows)
    }
}
