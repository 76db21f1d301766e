//! A bit for each column, in words of 64: which columns have a sum.
ghost use Rattle.std.specs.Prelude.{◌≡◌, ◌≢◌, ◌<◌, ◌*◌, ℕ, true, false, length};
ghost use Rattle.std.specs.List.{Contains};
ghost use Rattle.row_product.specs.inner.DenseSums.{bit_of};

/// Whether the bit of a column is set.
#[inline(always)]
pub(crate) fn is_set(bits: &[u64], column: u64) -> bool
    requires { column < 64 * length bits.now }
    ensures set { result ≡ true → bit_of bits.now column ≡ 1 }
    ensures clear { result ≡ false → bit_of bits.now column ≢ 1 }
{
    bits[(column / 64) as usize] >> (column % 64) & 1 == 1
}

/// Sets the bit of a column.
#[inline(always)]
pub(crate) fn set_bit(bits: &mut [u64], column: u64)
    requires { column < 64 * length bits.old }
    ensures set { bit_of bits.new column ≡ 1 }
    ensures others { (j : ℕ) → j ≢ column → bit_of bits.new j ≡ bit_of bits.old j }
    ensures long { length bits.new ≡ length bits.old }
{
    let nth = (column / 64) as usize;
    let word = bits[nth];
    bits[nth] = word | 1 << (column % 64);
}

/// Clears the bits of so many columns, as far as there are any, and of others in their words.
pub(crate) fn clear_bits(columns: u64, bits: &mut Vec<u64>)
    ensures clear { (j : ℕ) → j < columns → bit_of bits.new.items j ≡ 0 }
    ensures unchanged { (j : ℕ) → bit_of bits.old.items j ≡ 0 → bit_of bits.new.items j ≡ 0 }
    ensures long { length bits.new.items ≡ length bits.old.items }
{
    // The list may be longer, from a product with more columns, whose bits are clear already.
    let words = bits.len().min((columns / 64) as usize + 1);
    for nth in 0..words {
        bits[nth] = 0;
    }
}

/// Clears the bits of listed columns, as far as there are any, and of others in their words.
pub(crate) fn clear_listed(listed: &[u64], bits: &mut Vec<u64>)
    ensures clear { (j : ℕ) → Contains listed.now j → bit_of bits.new.items j ≡ 0 }
    ensures unchanged { (j : ℕ) → bit_of bits.old.items j ≡ 0 → bit_of bits.new.items j ≡ 0 }
    ensures long { length bits.new.items ≡ length bits.old.items }
{
    for column in listed {
        let nth = (*column / 64) as usize;
        if nth < bits.len() {
            // The whole word: each bit of it that is set is that of a listed column.
            bits[nth] = 0;
        }
    }
}
