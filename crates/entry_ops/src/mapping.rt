//! Apply, and union and both of rows that are alike, without a mask: rows are copied with the
//! values of calls, 64 at a time, regardless of row boundaries.
ghost use Rattle.std.specs.Prelude.{◌≡◌, ◌<◌, ◌≤◌, ◌+◌, ◌-◌, ◌^◌, None, Ok};
ghost use Rattle.bpf_insn.specs.declared.operands.Kind.TheVariants as kinds;
ghost use Rattle.bpf_run.specs.Calls.{calls_on, steps_of, words_of};
ghost use Rattle.csr_store.specs.Mask.{mask_of};
ghost use Rattle.csr_store.specs.Run.{IsInRun};
ghost use Rattle.csr_store.specs.Valued.{all_cells, entries_of};
ghost use Rattle.entry_ops.specs.inner.Forms.{form_of};
ghost use Rattle.entry_ops.specs.inner.Forms as forms;
ghost use Rattle.job_forms.specs.Forms.{apply_kind};
ghost use Rattle.entry_ops.specs.inner.IndexCalls.{NoneWaits};
ghost use Rattle.entry_ops.specs.inner.Mapped.{range_operands, next_words, HasEntries, HasRoom, IsCopied, IsFurther};
ghost use Rattle.entry_ops.specs.inner.Walking.{Joins, HaveRows, IsFormMade};

use crate::column_pairs::join_columns;
use crate::form::EntryForm;
use crate::index_calls::IndexCalls;
use crate::operand_rows::Sources;
use crate::pairs::Pairs;
use crate::rows::fill_region;
use bpf_run::{Calls, MOST_CALLS};
use bpf_verify::Operator;
use csr_store::{Matrix, RowCopy};
use job_forms::Chunk;
use std::alloc::Global;
use std::ops::Range;

/// Rows that are copied with the values of calls, in the order of their entries.
#[derive(Drop)]
pub struct Mapping<'m> {
    rows: RowCopy<'m>,
    /// The steps of the calls that ran for the entries that were written.
    steps: u64,
}

impl Mapping<'_> {
    /// Makes the calls that were gathered, and writes the next entries with their values.
    fn make(&mut self, operator: &Operator, calls: &mut Calls)
        requires kind { calls.old.kind ≡ operator.now.kind }
        requires capacity { HasRoom operator.now calls.old.operands self.old }
        ensures waits { NoneWaits calls.old.kind calls.new }
        ensures further { IsFurther operator.now calls.old.operands self.old self.new }
    {
        self.steps += calls.make(operator);
        self.rows.write_values(calls.values());
    }

    /// Makes the calls on the words of the next `many` entries, and writes these with their values.
    #[inline(always)]
    fn make_on_words(&mut self, operator: &Operator, calls: &mut Calls, many: usize)
        requires kind { operator.now.kind ≡ kinds.Unary }
        requires few { (many ≤ 64) × HasEntries self.old many }
        requires capacity { HasRoom operator.now (next_words self.old many) self.old }
        ensures waits { NoneWaits kinds.Unary calls.new }
        ensures further { IsFurther operator.now (next_words self.old many) self.old self.new }
    {
        self.steps += calls.make_on_words(operator, self.rows.next_cells(many));
        self.rows.write_values(calls.values());
    }

    /// Makes the calls on all words.
    fn add_words(&mut self, operator: &Operator, calls: &mut Calls)
        requires kind { operator.now.kind ≡ kinds.Unary }
        requires waits { NoneWaits kinds.Unary calls.old }
        requires capacity { (self.old.rows.written ≡ 0)
            × (self.old.steps + steps_of (calls_on operator.now (words_of (all_cells self.old.rows.run))) < 2 ^ 64) }
        ensures { IsFurther operator.now (words_of (all_cells self.old.rows.run)) self.old self.new }
    {
        let entries = self.rows.entries();
        while self.rows.written() < entries {
            let many = (entries - self.rows.written()).min(MOST_CALLS);
            self.make_on_words(operator, calls, many);
        }
    }

    /// Makes the calls on all entries that come.
    fn add_entries(&mut self, operator: &Operator, calls: &mut Calls, mut index_calls: IndexCalls)
        requires kind { operator.now.kind ≡ kinds.Index }
        requires waits { NoneWaits kinds.Index calls.old }
        requires capacity { HasRoom operator.now index_calls self.old }
        ensures { IsFurther operator.now index_calls.entry self.old self.new }
    {
        while index_calls.gather(calls) {
            self.make(operator, calls);
        }
    }

    /// Makes the calls on all pairs.
    fn add_pairs(&mut self, operator: &Operator, calls: &mut Calls, mut pairs: Pairs)
        requires kind { operator.now.kind ≡ kinds.Binary }
        requires waits { NoneWaits operator.now.kind calls.old }
        requires capacity { HasRoom operator.now pairs self.old }
        ensures { IsFurther operator.now pairs.entry self.old self.new }
    {
        while pairs.gather(calls) {
            self.make(operator, calls);
        }
    }

    /// The rows, when all calls ran.
    fn finish(self) -> Chunk
        requires { self.rows.written ≡ entries_of self.rows.run }
        ensures { result ≡ record { result = Ok self.entry.rows.run; steps = self.entry.steps } }
    {
        Chunk {
            result: Ok(self.rows.finish()),
            steps: self.steps,
        }
    }

    /// Makes the calls of a range of rows, which are being copied.
    fn add_all(
        &mut self,
        operator: &Operator,
        calls: &mut Calls,
        a: &Matrix,
        thunk: Option<u64>,
        range: Range<u64>,
    )
        requires kind { (operator.now.kind ≡ apply_kind thunk) × NoneWaits operator.now.kind calls.old }
        requires rows { (range.start ≤ range.end) × (range.end ≤ a.now.rows) }
        requires copied { IsCopied operator.now thunk a.now range.start (range.end - range.start) self.old }
        ensures { IsFurther operator.now (range_operands thunk a.now range.start (range.end - range.start)) self.old self.new }
    {
        match thunk {
            None => self.add_words(operator, calls),
            Some(thunk) => {
                self.add_entries(operator, calls, IndexCalls::of_rows(a, thunk, range));
            }
        }
    }
}

/// The rows of a range, all in one run, with an operator applied to each word, without a mask.
/// Their memory is allocated first, so that no call ran if it is refused.
pub fn map_region(
    alloc: Global,
    calls: &mut Calls,
    a: &Matrix,
    operator: &Operator,
    thunk: Option<u64>,
    range: Range<u64>,
) -> Chunk
    requires kind { operator.now.kind ≡ apply_kind thunk }
    requires range { (range.start ≤ range.end) × IsInRun range.start range.end }
    requires within { range.end ≤ a.now.rows }
    ensures { IsFormMade (forms.Apply thunk) operator.now a.now None None range.start (range.end - range.start) result }
{
    operator.recall();
    a.recall();
    let rows = match a.copying(alloc, range.start..range.end) {
        Ok(rows) => rows,
        Err(error) => return Chunk::refused(error),
    };
    let mut mapping = Mapping { rows, steps: 0 };
    calls.begin(operator.kind());
    mapping.add_all(operator, calls, a, thunk, range);
    mapping.finish()
}

/// The rows of a range of a union, or of positions that both operands have. If these rows are in
/// one run and alike in both operands, and there is no mask, they are copied with the values of
/// calls, and their memory is allocated first, so that no call ran if it is refused.
pub fn merge_region(
    alloc: Global,
    calls: &mut Calls,
    form: EntryForm,
    operator: &Operator,
    sources: Sources,
    range: Range<u64>,
) -> Chunk
    requires form { Joins (form_of form) operator.now }
    requires rows { HaveRows sources range.start range.end }
    ensures { IsFormMade (form_of form) operator.now sources.entry.left.now (mask_of sources.entry.right)
        (mask_of sources.entry.mask) range.start (range.end - range.start) result }
{
    // Positions differ, or a mask hides some: unless one of two columns has all of them, the rows
    // have to be read side by side.
    let Some(pairs) = Pairs::of_rows(sources, range.start..range.end) else {
        return match join_columns(alloc, form, operator, sources, range.start..range.end) {
            Some(chunk) => chunk,
            None => fill_region(alloc, calls, form, operator, sources, range),
        };
    };
    operator.recall();
    // Either operand would do, as they have the same positions.
    let rows = match sources.left.copying(alloc, range.start..range.end) {
        Ok(rows) => rows,
        Err(error) => return Chunk::refused(error),
    };
    let mut mapping = Mapping { rows, steps: 0 };
    calls.begin(operator.kind());
    mapping.add_pairs(operator, calls, pairs);
    mapping.finish()
}
