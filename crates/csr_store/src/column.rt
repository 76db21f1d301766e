//! A copy of a matrix of one column, which is read by its rows.
ghost use Rattle.std.specs.Prelude.{◌≡◌, ◌≤◌, ◌<◌, ◌*◌, ℕ, None, Some, length, map, get_or, IfOk, IfSome, if◌then◌else◌, vec_capacity};
ghost use Rattle.csr_store.specs.Column.{column_of};
ghost use Rattle.csr_store.specs.inner.Column.{bit_of, IsCopied};

use crate::matrix::Matrix;
use std::alloc::{AllocError, Global};
use std::marker::Model;

/// The words of a matrix of one column, in a list that is indexed by row. A reader of many words so
/// doesn't wait for the row starts. A row takes 8 bytes and a bit. Contracts see each row's word,
/// if it has one.
#[derive(Drop)]
pub struct Column {
    /// A word for each row; a row without an entry may have any.
    words: Vec<u64>,
    /// A bit for each row, in words of 64: whether it has a word.
    bits: Vec<u64>,
    /// Whether each row has a word. Then no bit is read.
    full: bool,
}

impl Model for Column {
    ghost use Rattle.std.specs.Prelude.{ℕ, List, Option, ◌≡◌, ◌≤◌, ◌<◌, ◌*◌, true, length};
    ghost use Rattle.csr_store.specs.inner.Column.{bit_of, slots, AllHave};

    ghost Value = { List (Option ℕ) };

    ghost view = { λ c. slots c.words.items c.bits.items };

    ghost invariant = { λ c. (length c.words.items ≤ 64 * length c.bits.items)
        × (c.full ≡ true → AllHave c.bits.items (length c.words.items)) };
}

impl Column {
    /// The copy of a matrix of one column. Where all rows of a run have a word, no start is read.
    ///
    /// # Errors
    ///
    /// There is no memory for it.
    pub fn of(alloc: Global, column: &Matrix) -> Result<Self, AllocError>
        requires { column.now.columns ≡ 1 }
        ensures { IfOk result (λ c. c ≡ column_of column.now) }
    {
        let rows = column.rows() as usize;
        let mut words = Vec::with_capacity(alloc, rows)?;
        let mut bits = vec![in alloc; 0; rows.div_ceil(64)]?;
        let mut full = true;
        for k in 0..column.rows() {
            let (word, stands) = column.word_in_column(k);
            words.push_reserved(word);
            set_bit(&mut bits, k, stands);
            full &= stands;
        }
        Ok(Column { words, bits, full })
    }

    /// The words of all rows, if each row has one.
    #[inline(always)]
    pub fn full_words(&self) -> Option<&[u64]>
        ensures { IfSome result (λ words. self.now ≡ map Some words.now) }
    {
        if self.full { Some(&self.words) } else { None }
    }

    /// The word at row `k`, and whether the row has one. If not, the word may be any, so that a
    /// caller can compute with it before it looks at the answer.
    #[inline(always)]
    pub fn word(&self, k: u64) -> (u64, bool)
        requires { k < length self.now }
        ensures { get_or self.now k None ≡ (if result.1 then Some result.0 else None) }
    {
        let word = self.words[k as usize];
        if self.full {
            return (word, true);
        }
        let bits = self.bits[(k / 64) as usize];
        (word, bits >> (k % 64) & 1 == 1)
    }
}

/// Sets the bit of a row, if it has a word.
#[inline(always)]
fn set_bit(bits: &mut Vec<u64>, k: u64, stands: bool)
    requires { k < 64 * length bits.old.items }
    ensures set { bit_of bits.new.items k ≡ (if stands then 1 else bit_of bits.old.items k) }
    ensures others { (j : ℕ) → (j ≡ k → ⊥) → bit_of bits.new.items j ≡ bit_of bits.old.items j }
    ensures wide { length bits.new.items ≡ length bits.old.items }
{
    let nth = (k / 64) as usize;
    bits[nth] |= u64::from(stands) << (k % 64);
}
