//! The rows of any range of a result, with buffers for calls that are allocated for these alone.
ghost use Rattle.std.specs.Prelude.{◌≡◌, ◌≤◌};
ghost use Rattle.bpf_insn.specs.declared.operands.Kind.TheVariants as kinds;
ghost use Rattle.csr_store.specs.Mask.{HasShape, mask_of};
ghost use Rattle.job_forms.specs.Forms.{
  apply_kind,
  apply_at,
  apply_calls_at,
  select_at,
  select_calls_at,
  union_at,
  both_at,
  joint_calls_at,
  reduce_at,
  reduce_calls_at,
};
ghost use Rattle.job_forms.specs.Region.{IsPartOf};

use crate::apply::{apply_region, select_region};
use crate::reduce::reduce_region;
use crate::union::{both_region, union_region};
use bpf_run::Calls;
use bpf_verify::Operator;
use csr_store::Matrix;
use job_forms::{Chunk, Region};
use std::alloc::Global;
use std::ops::Range;

/// An operator applied to each word of a range of rows, as [`apply_region`] does.
pub fn apply_rows<'m>(
    alloc: Global,
    a: &'m Matrix,
    operator: &Operator,
    thunk: Option<u64>,
    mask: Option<&'m Matrix>,
    range: Range<u64>,
) -> Chunk
    requires kind { operator.now.kind ≡ apply_kind thunk }
    requires mask { HasShape a.now.rows a.now.columns (mask_of mask) }
    requires range { (range.start ≤ range.end) × (range.end ≤ a.now.rows) }
    ensures { IsPartOf a.now.columns (apply_at operator.now thunk a.now) (apply_calls_at operator.now thunk a.now)
        (record { range = range; mask = mask.entry }) result }
{
    // Callers of one range alone. Workers use `apply_region`, with calls that they reuse.
    let mut calls = match Calls::new(alloc) {
        Ok(calls) => calls,
        Err(error) => return Chunk::refused(error),
    };
    apply_region(
        alloc,
        &mut calls,
        a,
        operator,
        thunk,
        Region { range, mask },
    )
}

/// The words of a range of rows for which an index operator doesn't return 0, as [`select_region`]
/// does.
pub fn select_rows<'m>(
    alloc: Global,
    a: &'m Matrix,
    operator: &Operator,
    thunk: u64,
    mask: Option<&'m Matrix>,
    range: Range<u64>,
) -> Chunk
    requires kind { operator.now.kind ≡ kinds.Index }
    requires mask { HasShape a.now.rows a.now.columns (mask_of mask) }
    requires range { (range.start ≤ range.end) × (range.end ≤ a.now.rows) }
    ensures { IsPartOf a.now.columns (select_at operator.now thunk a.now) (select_calls_at operator.now thunk a.now)
        (record { range = range; mask = mask.entry }) result }
{
    let mut calls = match Calls::new(alloc) {
        Ok(calls) => calls,
        Err(error) => return Chunk::refused(error),
    };
    select_region(
        alloc,
        &mut calls,
        a,
        operator,
        thunk,
        Region { range, mask },
    )
}

/// A range of rows of the union of two matrices, as [`union_region`] does.
pub fn union_rows<'m>(
    alloc: Global,
    a: &'m Matrix,
    b: &'m Matrix,
    operator: &Operator,
    mask: Option<&'m Matrix>,
    range: Range<u64>,
) -> Chunk
    requires kind { operator.now.kind ≡ kinds.Binary }
    requires shapes { (b.now.rows ≡ a.now.rows) × (b.now.columns ≡ a.now.columns) }
    requires mask { HasShape a.now.rows a.now.columns (mask_of mask) }
    requires range { (range.start ≤ range.end) × (range.end ≤ a.now.rows) }
    ensures { IsPartOf a.now.columns (union_at operator.now a.now b.now) (joint_calls_at operator.now a.now b.now)
        (record { range = range; mask = mask.entry }) result }
{
    let mut calls = match Calls::new(alloc) {
        Ok(calls) => calls,
        Err(error) => return Chunk::refused(error),
    };
    union_region(alloc, &mut calls, a, b, operator, Region { range, mask })
}

/// The operator where two matrices both have a word, in a range of rows, as [`both_region`] does.
pub fn both_rows<'m>(
    alloc: Global,
    a: &'m Matrix,
    b: &'m Matrix,
    operator: &Operator,
    mask: Option<&'m Matrix>,
    range: Range<u64>,
) -> Chunk
    requires kind { operator.now.kind ≡ kinds.Binary }
    requires shapes { (b.now.rows ≡ a.now.rows) × (b.now.columns ≡ a.now.columns) }
    requires mask { HasShape a.now.rows a.now.columns (mask_of mask) }
    requires range { (range.start ≤ range.end) × (range.end ≤ a.now.rows) }
    ensures { IsPartOf a.now.columns (both_at operator.now a.now b.now) (joint_calls_at operator.now a.now b.now)
        (record { range = range; mask = mask.entry }) result }
{
    let mut calls = match Calls::new(alloc) {
        Ok(calls) => calls,
        Err(error) => return Chunk::refused(error),
    };
    both_region(alloc, &mut calls, a, b, operator, Region { range, mask })
}

/// The reduction of each row of a range to one value, as [`reduce_region`] does.
pub fn reduce_rows<'m>(
    alloc: Global,
    a: &'m Matrix,
    operator: &Operator,
    mask: Option<&'m Matrix>,
    range: Range<u64>,
) -> Chunk
    requires kind { operator.now.kind ≡ kinds.Binary }
    requires mask { HasShape a.now.rows 1 (mask_of mask) }
    requires range { (range.start ≤ range.end) × (range.end ≤ a.now.rows) }
    ensures { IsPartOf 1 (reduce_at operator.now a.now) (reduce_calls_at operator.now a.now)
        (record { range = range; mask = mask.entry }) result }
{
    let mut calls = match Calls::new(alloc) {
        Ok(calls) => calls,
        Err(error) => return Chunk::refused(error),
    };
    reduce_region(alloc, &mut calls, a, operator, Region { range, mask })
}
