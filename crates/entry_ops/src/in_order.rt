//! Folding rows one by one, call by call.
ghost use Rattle.std.specs.Prelude.{◌≡◌, ◌<◌, ◌^◌, [], if◌then◌else◌};
ghost use Rattle.bpf_insn.specs.declared.operands.Kind.TheVariants as kinds;
ghost use Rattle.bpf_run.specs.Calls.{steps_of};
ghost use Rattle.bpf_run.specs.Fold as folds;
ghost use Rattle.csr_store.specs.Mask.{mask_of, passes};
ghost use Rattle.entry_ops.specs.inner.Folding.{words, CanReduce, AddsReduced};

use crate::folds::{add_row, row_shown};
use crate::operand_rows::{Cell, entries_between};
use bpf_run::fold;
use bpf_verify::Operator;
use csr_store::Matrix;
use job_forms::{Making, Region};
use std::alloc::AllocError;

/// The result of a row, unless it has no cell, and the steps of its calls.
#[derive(Clone, Copy)]
struct Folded {
    value: Option<u64>,
    steps: u64,
}

/// Folds the cells of a row.
fn fold_row(operator: &Operator, cells: &[Cell]) -> Folded
    requires kind { operator.now.kind ≡ kinds.Binary }
    requires capacity { steps_of (folds.fold_calls operator.now (words cells.now)) < 2 ^ 64 }
    ensures value { result.value ≡ folds.fold operator.now (words cells.now) }
    ensures steps { result.steps ≡ steps_of (folds.fold_calls operator.now (words cells.now)) }
{
    let Some((first, behind)) = cells.split_first() else {
        return Folded {
            value: None,
            steps: 0,
        };
    };
    let Some((next, rest)) = behind.split_first() else {
        return Folded {
            value: Some(first.1),
            steps: 0,
        };
    };
    // The first call takes the first two words, so `fold` gets them apart from the rest.
    let folded = fold(operator, first.1, next.1, rest);
    Folded {
        value: Some(folded.value),
        steps: folded.steps,
    }
}

/// The cells of a row that are folded: none if the mask doesn't show the row.
#[inline(always)]
fn shown<'m>(cells: &'m [Cell], mask: Option<&'m Matrix>, row: u64) -> &'m [Cell]
    ensures { result.now ≡ (if passes (mask_of mask.entry) (row, 0) then cells.now else []) }
{
    if row_shown(mask, row) { cells } else { &[] }
}

/// Adds the reductions of the rows of a region, row by row.
pub fn fill_in_order(
    a: &Matrix,
    operator: &Operator,
    region: Region,
    making: &mut Making,
) -> Result<(), AllocError>
    requires { CanReduce operator.now a.now region making.old }
    ensures { AddsReduced operator.now a.entry.now region.entry making.old making.new result }
{
    let first = region.range.start;
    let end = region.range.end;
    let many = (end - first) as usize;
    // Before the first call: memory is refused here, if at all, without a charge.
    making.rows.reserve_rows(many)?;
    making
        .rows
        // A row has one result at most, and none without entries.
        .reserve(many.min(entries_between(a, first, end)))?;
    let mut reader = a.rows_from(first);
    for row in first..end {
        let cells = reader.next_row();
        let folded = fold_row(operator, shown(cells, region.mask, row));
        // Charged first: adding the row may be refused memory.
        making.steps += folded.steps;
        add_row(&mut making.rows, folded.value)?;
    }
    Ok(())
}
