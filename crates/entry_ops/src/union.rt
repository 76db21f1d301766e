//! Union and both: two operands.
ghost use Rattle.std.specs.Prelude.{◌≡◌};
ghost use Rattle.bpf_insn.specs.declared.operands.Kind.TheVariants as kinds;
ghost use Rattle.job_forms.specs.Forms.{union_at, both_at, joint_calls_at};
ghost use Rattle.job_forms.specs.Region.{IsRegion, IsPartOf};

use crate::blank::blank_region;
use crate::form::EntryForm;
use crate::mapping::merge_region;
use crate::operand_rows::Sources;
use bpf_run::Calls;
use bpf_verify::Operator;
use csr_store::Matrix;
use job_forms::{Chunk, Region, is_blank_under};
use std::alloc::Global;

/// A region of the union of two matrices: the operator where both have a word, and a copy where one
/// has.
///
/// With a mask, calls run only for the positions that it stores. `calls` is scratch that
/// regions share.
pub fn union_region<'m>(
    alloc: Global,
    calls: &mut Calls,
    a: &'m Matrix,
    b: &'m Matrix,
    operator: &Operator,
    region: Region<'m>,
) -> Chunk
    requires kind { operator.now.kind ≡ kinds.Binary }
    requires shapes { (b.now.rows ≡ a.now.rows) × (b.now.columns ≡ a.now.columns) }
    requires region { IsRegion a.now.rows a.now.columns region }
    ensures { IsPartOf a.now.columns (union_at operator.now a.now b.now) (joint_calls_at operator.now a.now b.now)
        region.entry result }
{
    // Both have to be blank: the union copies the words of either.
    if is_blank_under(a, region.mask, &region.range)
        && is_blank_under(b, region.mask, &region.range)
    {
        return blank_region(alloc, a.columns(), region.range);
    }
    let sources = Sources {
        left: a,
        right: Some(b),
        mask: region.mask,
    };
    merge_region(
        alloc,
        calls,
        EntryForm::Union,
        operator,
        sources,
        region.range,
    )
}

/// The operator where two matrices both have a word, in a region.
///
/// With a mask, calls run only for the positions that it stores. `calls` is scratch that
/// regions share.
pub fn both_region<'m>(
    alloc: Global,
    calls: &mut Calls,
    a: &'m Matrix,
    b: &'m Matrix,
    operator: &Operator,
    region: Region<'m>,
) -> Chunk
    requires kind { operator.now.kind ≡ kinds.Binary }
    requires shapes { (b.now.rows ≡ a.now.rows) × (b.now.columns ≡ a.now.columns) }
    requires region { IsRegion a.now.rows a.now.columns region }
    ensures { IsPartOf a.now.columns (both_at operator.now a.now b.now) (joint_calls_at operator.now a.now b.now)
        region.entry result }
{
    // One suffices: a position needs a word of each.
    if is_blank_under(a, region.mask, &region.range)
        || is_blank_under(b, region.mask, &region.range)
    {
        return blank_region(alloc, a.columns(), region.range);
    }
    let sources = Sources {
        left: a,
        right: Some(b),
        mask: region.mask,
    };
    merge_region(
        alloc,
        calls,
        EntryForm::Both,
        operator,
        sources,
        region.range,
    )
}
