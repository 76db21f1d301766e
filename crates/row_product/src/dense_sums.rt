//! A word for each column, which counts only if the column's bit is set.
ghost use Rattle.std.specs.Prelude.{◌≡◌, ◌≤◌, ◌<◌, ◌*◌, []};
ghost use Rattle.std.specs.Prelude.{ℕ, None, Some, length, set, slice_index_or, is_some, true, OnOk};
ghost use Rattle.row_product.specs.inner.DenseSums.{AreMarked, AreAllListed};
ghost use Rattle.row_product.specs.inner.Sums.{slot};

use crate::bitset::{clear_bits, clear_listed, is_set, set_bit};
use std::alloc::{AllocError, Global};
use std::marker::Model;

/// The sums of a row by their columns. A contract sees the sum of each column, if there is one.
#[derive(Drop)]
pub(crate) struct DenseSums {
    /// How many columns there are. The buffers may hold more.
    columns: u64,
    // Those whose bit is clear are left over from earlier rows.
    words: Vec<u64>,
    /// A bit for each column, in words of 64. It is set if the column has a sum, and clear
    /// otherwise.
    bits: Vec<u64>,
}

impl Model for DenseSums {
    ghost use Rattle.std.specs.Prelude.{ℕ, List, Option, ◌≤◌, ◌*◌, length};
    ghost use Rattle.row_product.specs.inner.DenseSums.{words_of, AreClear};

    ghost Value = { List (Option ℕ) };

    ghost view = { λ h. words_of h.bits.items h.words.items 0 h.columns };

    ghost invariant = { λ h. (h.columns ≤ length h.words.items) × (h.columns ≤ 64 * length h.bits.items)
        × AreClear h.columns h.bits.items };
}

impl DenseSums {
    /// Without columns yet. Takes no memory.
    pub(crate) fn new(alloc: Global) -> Self
        ensures { result ≡ [] }
    {
        DenseSums {
            columns: 0,
            words: Vec::new(alloc),
            bits: Vec::new(alloc),
        }
    }

    /// How many columns the buffers hold.
    pub(crate) fn capacity(&self) -> usize
        ensures { length self.now ≤ result }
    {
        self.words.len()
    }

    /// Makes the buffers hold so many columns, none of which has a sum, where none had.
    pub(crate) fn widen(&mut self, columns: u64) -> Result<(), AllocError>
        requires none { (j : ℕ) → slot self.old j ≡ None }
        ensures wide { OnOk result (length self.new ≡ columns) }
        ensures none { (j : ℕ) → slot self.new j ≡ None }
    {
        // First, so that a refusal below leaves a consistent state: no columns.
        self.columns = 0;
        lengthen(&mut self.bits, (columns / 64) as usize + 1)?;
        lengthen(&mut self.words, columns as usize)?;
        self.columns = columns;
        Ok(())
    }

    /// Forgets the sums, all of which are of listed columns.
    pub(crate) fn forget_listed(&mut self, listed: &[u64])
        requires { AreAllListed self.old listed.now }
        ensures none { (j : ℕ) → slot self.new j ≡ None }
        ensures long { length self.new ≡ length self.old }
    {
        clear_listed(listed, &mut self.bits);
    }

    /// Forgets all sums.
    pub(crate) fn forget(&mut self)
        ensures none { (j : ℕ) → slot self.new j ≡ None }
        ensures long { length self.new ≡ length self.old }
    {
        // The words stay: without their bits they don't count.
        clear_bits(self.columns, &mut self.bits);
    }

    /// The sum of a column, if there is one.
    #[inline(always)]
    pub(crate) fn get(&self, column: u64) -> Option<u64>
        requires { column < length self.now }
        ensures { result ≡ slot self.now column }
    {
        if is_set(&self.bits, column) {
            Some(self.words[column as usize])
        } else {
            None
        }
    }

    /// Gives a column a sum.
    #[inline(always)]
    pub(crate) fn put(&mut self, column: u64, sum: u64)
        requires { column < length self.old }
        ensures { self.new ≡ set self.old column (Some sum) }
    {
        // The word before its bit, which makes it count.
        self.words[column as usize] = sum;
        set_bit(&mut self.bits, column);
    }

    /// Gives a column that has a sum another.
    #[inline(always)]
    pub(crate) fn replace(&mut self, column: u64, sum: u64)
        requires within { column < length self.old }
        requires there { is_some (slot self.old column) ≡ true }
        ensures { self.new ≡ set self.old column (Some sum) }
    {
        // The bit is set already.
        self.words[column as usize] = sum;
    }

    /// The bits of the columns, in words of 64.
    pub(crate) fn bits(&self) -> &[u64]
        ensures long { length self.now ≤ 64 * length result.now }
        ensures marked { AreMarked result.now self.now }
    {
        &self.bits
    }
}

/// Extends a list to at least so many words, with zeros after those that it has.
fn lengthen(words: &mut Vec<u64>, least: usize) -> Result<(), AllocError>
    ensures long { OnOk result (least ≤ length words.new.items) }
    ensures same { (p : ℕ) → slice_index_or words.new.items p 0 ≡ slice_index_or words.old.items p 0 }
{
    if least > words.len() {
        // It never shrinks: the next product may be as wide.
        words.resize(least, 0)?;
    }
    Ok(())
}
