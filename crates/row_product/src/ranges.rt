//! The rows of any range of a product, with buffers for the sums of these alone.
ghost use Rattle.std.specs.Prelude.{◌≡◌, ◌≤◌};
ghost use Rattle.bpf_insn.specs.declared.operands.Kind.TheVariants as kinds;
ghost use Rattle.csr_store.specs.Mask.{HasShape, mask_of};
ghost use Rattle.job_forms.specs.Product.{product_at, product_calls_at};
ghost use Rattle.job_forms.specs.Region.{IsPartOf};

use crate::factors::Factors;
use crate::product::{Scratch, product_region};
use bpf_verify::Operator;
use csr_store::Matrix;
use job_forms::{Chunk, Region};
use std::alloc::Global;
use std::ops::Range;

/// A range of rows of the product of two matrices: at each position that passes the mask, `add`
/// folded over `mul` of the words of A's row and B's column, ascending, as [`product_region`] does.
pub fn product_rows<'m>(
    alloc: Global,
    a: &'m Matrix,
    b: &'m Matrix,
    add: &'m Operator,
    mul: &'m Operator,
    mask: Option<&Matrix>,
    range: Range<u64>,
) -> Chunk
    requires kinds { (add.now.kind ≡ kinds.Binary) × (mul.now.kind ≡ kinds.Binary) }
    requires shapes { a.now.columns ≡ b.now.rows }
    requires mask { HasShape a.now.rows b.now.columns (mask_of mask) }
    requires range { (range.start ≤ range.end) × (range.end ≤ a.now.rows) }
    ensures { IsPartOf b.now.columns (product_at add.now mul.now a.now b.now) (product_calls_at add.now mul.now a.now b.now)
        (record { range = range; mask = mask.entry }) result }
{
    let factors = Factors {
        add,
        mul,
        a,
        b,
        column: None,
    };
    product_region(alloc, &mut Scratch::new(), &factors, Region { range, mask })
}
