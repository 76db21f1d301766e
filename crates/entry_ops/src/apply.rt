//! Apply and select: one operand.
ghost use Rattle.std.specs.Prelude.{◌≡◌};
ghost use Rattle.bpf_insn.specs.declared.operands.Kind.TheVariants as kinds;
ghost use Rattle.job_forms.specs.Forms.{apply_kind, apply_at, apply_calls_at, select_at, select_calls_at};
ghost use Rattle.job_forms.specs.Region.{IsRegion, IsPartOf};

use crate::blank::blank_region;
use crate::form::EntryForm;
use crate::mapping::map_region;
use crate::operand_rows::Sources;
use crate::rows::fill_region;
use crate::runs::is_in_run;
use crate::select::{Masked, sift_region};
use crate::select_unmasked::keep_region;
use crate::shown::{apply_shown, shows_few};
use bpf_run::Calls;
use bpf_verify::Operator;
use csr_store::Matrix;
use job_forms::{Chunk, Region, is_blank_under};
use std::alloc::Global;

/// An operator applied to each word of a region: a unary one to the word alone, an index operator
/// to the word, its row, its column and the thunk.
///
/// With a mask, calls run only for the positions that it stores. `calls` is scratch that
/// regions share.
pub fn apply_region<'m>(
    alloc: Global,
    calls: &mut Calls,
    a: &'m Matrix,
    operator: &Operator,
    thunk: Option<u64>,
    region: Region<'m>,
) -> Chunk
    requires kind { operator.now.kind ≡ apply_kind thunk }
    requires region { IsRegion a.now.rows a.now.columns region }
    ensures { IsPartOf a.now.columns (apply_at operator.now thunk a.now) (apply_calls_at operator.now thunk a.now)
        region.entry result }
{
    // Row starts tell, before any row is read.
    if is_blank_under(a, region.mask, &region.range) {
        return blank_region(alloc, a.columns(), region.range);
    }
    // Then the result has the positions of A, so rows are copied and each cell is written once.
    if region.mask.is_none() && is_in_run(region.range.start..region.range.end) {
        return map_region(alloc, calls, a, operator, thunk, region.range);
    }
    // Under a mask, the cells that it shows are copied first.
    if let (Some(mask), None) = (region.mask, thunk) {
        let masked = Masked { a, mask };
        if !shows_few(masked, &region.range) {
            return apply_shown(alloc, calls, operator, masked, region.range);
        }
    }
    let sources = Sources {
        left: a,
        right: None,
        mask: region.mask,
    };
    fill_region(
        alloc,
        calls,
        EntryForm::Apply(thunk),
        operator,
        sources,
        region.range,
    )
}

/// The words of a region for which an index operator doesn't return 0.
///
/// With a mask, calls run only for the positions that it stores. `calls` is scratch that
/// regions share.
pub fn select_region<'m>(
    alloc: Global,
    calls: &mut Calls,
    a: &'m Matrix,
    operator: &Operator,
    thunk: u64,
    region: Region<'m>,
) -> Chunk
    requires kind { operator.now.kind ≡ kinds.Index }
    requires region { IsRegion a.now.rows a.now.columns region }
    ensures { IsPartOf a.now.columns (select_at operator.now thunk a.now) (select_calls_at operator.now thunk a.now)
        region.entry result }
{
    if is_blank_under(a, region.mask, &region.range) {
        return blank_region(alloc, a.columns(), region.range);
    }
    // Without a mask all calls run first, and the selected cells are copied once.
    let Some(mask) = region.mask else {
        return keep_region(alloc, calls, a, operator, thunk, region.range);
    };
    sift_region(
        alloc,
        calls,
        operator,
        thunk,
        Masked { a, mask },
        region.range,
    )
}
