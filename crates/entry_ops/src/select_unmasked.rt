//! Select without a mask: all cells are called, and then those that are selected are copied.
ghost use Rattle.std.specs.Prelude.{◌≡◌, ◌≤◌, ◌<◌, ◌+◌, ◌-◌, ◌^◌, None, IfOk, OnOk, OnErr};
ghost use Rattle.bpf_insn.specs.declared.operands.Kind.TheVariants as kinds;
ghost use Rattle.bpf_run.specs.Calls.{calls_on, values_on, steps_of, Charges};
ghost use Rattle.entry_ops.specs.inner.Forms as forms;
ghost use Rattle.entry_ops.specs.inner.IndexCalls.{NoneWaits};
ghost use Rattle.entry_ops.specs.inner.Walking.{IsFormMade};

use crate::index_calls::IndexCalls;
use crate::operand_rows::entries_between;
use bpf_run::Calls;
use bpf_verify::Operator;
use csr_store::{Matrix, Rows};
use job_forms::Chunk;
use std::alloc::{AllocError, Global};
use std::ops::Range;

/// The results of an operator on all entries that come, in their order. Memory for `count` results
/// is allocated first. Counts the steps of the calls that ran.
fn answers_of(
    alloc: Global,
    calls: &mut Calls,
    operator: &Operator,
    mut index_calls: IndexCalls,
    count: usize,
    steps: &mut u64,
) -> Result<Vec<u64>, AllocError>
    requires kind { (operator.now.kind ≡ kinds.Index) × NoneWaits kinds.Index calls.old }
    requires few { steps.old + steps_of (calls_on operator.now index_calls) < 2 ^ 64 }
    ensures answers { IfOk result (λ answers. (answers.items ≡ values_on operator.now index_calls.entry)
        × (steps.new ≡ steps.old + steps_of (calls_on operator.now index_calls.entry))) }
    ensures spent { OnErr result (Charges (calls_on operator.now index_calls.entry) steps.old steps.new) }
{
    // For all entries at once: if it is refused, no call ran.
    let mut answers = Vec::with_capacity(alloc, count)?;
    while index_calls.gather(calls) {
        *steps += calls.make(operator);
        answers.extend_from_slice(calls.values())?;
    }
    Ok(answers)
}

/// The rows of a range of what an operator selects, without a mask. If memory for the results is
/// refused, no call ran.
pub fn keep_region(
    alloc: Global,
    calls: &mut Calls,
    a: &Matrix,
    operator: &Operator,
    thunk: u64,
    range: Range<u64>,
) -> Chunk
    requires kind { operator.now.kind ≡ kinds.Index }
    requires range { range.start ≤ range.end }
    requires within { range.end ≤ a.now.rows }
    ensures { IsFormMade (forms.Select thunk) operator.now a.now None None range.start (range.end - range.start) result }
{
    operator.recall();
    a.recall();
    let count = entries_between(a, range.start, range.end);
    let index_calls = IndexCalls::of_rows(a, thunk, range.start..range.end);
    let mut steps = 0;
    calls.begin(operator.kind());
    match answers_of(alloc, calls, operator, index_calls, count, &mut steps) {
        // The number of selected cells is known by now, so the rows are allocated exactly.
        Ok(answers) => Chunk {
            result: Rows::selected(alloc, a, range, &answers),
            steps,
        },
        Err(error) => Chunk {
            result: Err(error),
            steps,
        },
    }
}
