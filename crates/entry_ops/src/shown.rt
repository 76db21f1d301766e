//! Apply under a mask, of an operator without a thunk: the cells that the mask shows are copied
//! first, and then called where they are.
ghost use Rattle.std.specs.Prelude.{◌≡◌, ◌<◌, ◌-◌, ◌^◌, None, Some, IfOk};
ghost use Rattle.bpf_insn.specs.declared.operands.Kind.TheVariants as kinds;
ghost use Rattle.bpf_run.specs.Calls.{calls_on, values_on, steps_of, words_of};
ghost use Rattle.csr_store.specs.Valued.{AreAlike, all_cells, valued_from};
ghost use Rattle.entry_ops.specs.inner.Forms as forms;
ghost use Rattle.entry_ops.specs.inner.Masked.{HasMaskedRows};
ghost use Rattle.entry_ops.specs.inner.Shown.{rows_shown};
ghost use Rattle.entry_ops.specs.inner.Walking.{IsFormMade};

use crate::operand_rows::{MOST_ROOM, entries_between};
use crate::select::Masked;
use bpf_run::{Calls, MOST_CALLS};
use bpf_verify::Operator;
use csr_store::Rows;
use job_forms::Chunk;
use std::alloc::{AllocError, Global};
use std::ops::Range;

/// Whether a mask has less than a quarter of a matrix' entries in a range of rows. Then a walk along
/// the mask's row is faster, which passes over the matrix' cells without writing them.
pub fn shows_few(masked: Masked, range: &Range<u64>) -> bool {
    let entries = entries_between(masked.a, range.start, range.end);
    entries_between(masked.mask, range.start, range.end) < entries / 4
}

/// The rows of a range of a matrix, with the entries that its mask shows.
fn copy_shown(alloc: Global, masked: Masked, range: Range<u64>) -> Result<Rows, AllocError>
    requires { HasMaskedRows masked range.start range.end }
    ensures { IfOk result (λ r. r ≡ rows_shown masked.entry.a.now masked.entry.mask.now range.start (range.end - range.start)) }
{
    let Masked { a, mask } = masked;
    // For the prover: the rows of both ascend.
    a.recall();
    mask.recall();
    let mut rows = Rows::begin(alloc, range.start, a.columns());
    rows.reserve_rows((range.end - range.start) as usize)?;
    let most = entries_between(a, range.start, range.end);
    let shown = entries_between(mask, range.start, range.end);
    rows.reserve(most.min(shown).min(MOST_ROOM))?;
    let mut cells = a.rows_from(range.start);
    let mut masks = mask.rows_from(range.start);
    while cells.row() < range.end {
        rows.push_shown(cells.next_row(), masks.next_row())?;
        rows.end_row()?;
    }
    rows.trim();
    Ok(rows)
}

/// Makes the calls on the words of some rows, and writes their values there. Returns the steps.
fn call_words(operator: &Operator, calls: &mut Calls, rows: &mut Rows) -> u64
    requires kind { operator.now.kind ≡ kinds.Unary }
    requires few { steps_of (calls_on operator.now (words_of (all_cells rows.old))) < 2 ^ 64 }
    ensures alike { AreAlike rows.old rows.new }
    ensures values { all_cells rows.new
        ≡ valued_from 0 (values_on operator.now (words_of (all_cells rows.old))) (all_cells rows.old) }
    ensures steps { result ≡ steps_of (calls_on operator.now (words_of (all_cells rows.old))) }
{
    let entries = rows.entries();
    let mut steps = 0;
    let mut written = 0;
    while written < entries {
        let many = (entries - written).min(MOST_CALLS);
        steps += calls.make_on_words(operator, &rows.cells()[written..written + many]);
        rows.set_values(written, calls.values());
        written += many;
    }
    steps
}

/// The rows of a range, with an operator applied to each word that the mask shows. Their memory is
/// allocated first, so that no call ran if it is refused.
pub fn apply_shown(
    alloc: Global,
    calls: &mut Calls,
    operator: &Operator,
    masked: Masked,
    range: Range<u64>,
) -> Chunk
    requires kind { operator.now.kind ≡ kinds.Unary }
    requires rows { HasMaskedRows masked range.start range.end }
    ensures { IsFormMade (forms.Apply None) operator.now masked.entry.a.now None (Some masked.entry.mask.now) range.start
        (range.end - range.start) result }
{
    operator.recall();
    masked.a.recall();
    let mut rows = match copy_shown(alloc, masked, range) {
        Ok(rows) => rows,
        Err(error) => return Chunk::refused(error),
    };
    let steps = call_words(operator, calls, &mut rows);
    Chunk {
        result: Ok(rows),
        steps,
    }
}
