//! Reduction of rows.
ghost use Rattle.std.specs.Prelude.{◌≡◌};
ghost use Rattle.bpf_insn.specs.declared.operands.Kind.TheVariants as kinds;
ghost use Rattle.bpf_verify.specs.Accepted.{IsAccepted};
ghost use Rattle.job_forms.specs.Forms.{reduce_at, reduce_calls_at};
ghost use Rattle.job_forms.specs.Region.{IsRegion, IsPartOf};
ghost use Rattle.entry_ops.specs.inner.Folding.{CanReduce, AddsReduced};

use crate::blank::blank_region;
use crate::folds::{BLOCK_ROWS, Block, Folds};
use crate::in_order::fill_in_order;
use bpf_run::Calls;
use bpf_verify::Operator;
use csr_store::Matrix;
use job_forms::{Chunk, Making, Region, is_blank_under};
use std::alloc::{AllocError, Global};

/// Rows are folded one by one with an operator of up to so many instructions. With a longer one, in
/// wall-clock time, a single call costs more than its share of a call in lanes, for each of which
/// the next words of many rows are gathered.
const MOST_IN_ORDER: u64 = 5;

/// Adds the reductions of the rows of a region, block by block.
fn fill_in_blocks<'m>(
    alloc: Global,
    calls: &mut Calls,
    a: &'m Matrix,
    operator: &Operator,
    region: Region<'m>,
    making: &mut Making,
) -> Result<(), AllocError>
    requires can { CanReduce operator.now a.now region making.old }
    requires accepted { IsAccepted operator.now }
    ensures { AddsReduced operator.now a.entry.now region.entry making.old making.new result }
{
    let mut folds = Folds::new(alloc)?;
    let mut first = region.range.start;
    while first < region.range.end {
        let many = (region.range.end - first).min(BLOCK_ROWS as u64);
        let block = Block {
            first,
            many: many as usize,
        };
        folds.fold(operator, calls, a, region.mask, block);
        // The sum over all blocks so far, set before `add_to` may be refused memory.
        making.steps = folds.steps();
        folds.add_to(&mut making.rows)?;
        first += many;
    }
    Ok(())
}

/// The reduction of each row of a region to one value, in the one column of the result.
///
/// A row is folded by ascending column, beginning with its first word. With a mask, of one column,
/// calls run only for the rows at which it stores something. With a short operator rows are folded
/// one by one; with a longer one up to 64 of them at once, a call for each run together with the
/// others', in the scratch.
pub fn reduce_region<'m>(
    alloc: Global,
    calls: &mut Calls,
    a: &'m Matrix,
    operator: &Operator,
    region: Region<'m>,
) -> Chunk
    requires kind { operator.now.kind ≡ kinds.Binary }
    requires region { IsRegion a.now.rows 1 region }
    ensures { IsPartOf 1 (reduce_at operator.now a.now) (reduce_calls_at operator.now a.now) region.entry result }
{
    // For the prover: lengths of operators and sizes of matrices bound all sums below.
    operator.recall();
    a.recall();
    if is_blank_under(a, region.mask, &region.range) {
        return blank_region(alloc, 1, region.range);
    }
    let mut making = Making::begin(alloc, region.range.start, 1);
    if operator.len() <= MOST_IN_ORDER {
        let filled = fill_in_order(a, operator, region, &mut making);
        return making.finish(filled);
    }
    let filled = fill_in_blocks(alloc, calls, a, operator, region, &mut making);
    making.finish(filled)
}
