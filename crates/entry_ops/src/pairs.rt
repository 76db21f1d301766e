//! The entries of two matrices that a binary operator is called on if both have the same positions,
//! 64 at a time, regardless of row boundaries.
ghost use Rattle.std.specs.Prelude.{◌≡◌, ◌<◌, ◌≤◌, ◌+◌, ◌-◌, ◌++◌, ℕ, length, nat_lt, IfSome, IsTrue};
ghost use Rattle.bpf_insn.specs.declared.operands.Kind.TheVariants as kinds;
ghost use Rattle.csr_store.specs.Grid.{row_of};
ghost use Rattle.csr_store.specs.Run.{IsInRun};
ghost use Rattle.entry_ops.specs.inner.IndexCalls.{NoneWaits, Gathers};
ghost use Rattle.entry_ops.specs.inner.Paired.{columns_of, pairs_in, ArePaired};
ghost use Rattle.entry_ops.specs.inner.Walking.{HaveRows};

use crate::operand_rows::{Cell, Sources};
use crate::runs::is_in_run;
use bpf_run::{Calls, MOST_CALLS};
use csr_store::Matrix;
use std::marker::Model;
use std::ops::Range;

/// Cells that are still to be called, each with the cell at the same index of another list. A
/// contract sees the operands of their calls.
#[derive(Drop)]
pub struct Pairs<'m> {
    left: &'m [Cell],
    right: &'m [Cell],
}

impl<'m> Model for Pairs<'m> {
    ghost use Rattle.std.specs.Prelude.{◌≡◌, List, length};
    ghost use Rattle.bpf_insn.specs.declared.operands.Operands.{Operands};
    ghost use Rattle.entry_ops.specs.inner.Paired.{pairs_in};

    ghost Value = { List Operands };

    ghost view = { λ p. pairs_in p.left.now p.right.now };

    ghost invariant = { λ p. length p.right.now ≡ length p.left.now };
}

impl<'m> Pairs<'m> {
    /// The entries of a range of rows, if there is no mask, and these rows are in one run and alike
    /// in both operands: each has entries at the same columns. They are compared as two lists, and
    /// no row is looked up.
    pub fn of_rows(sources: Sources<'m>, range: Range<u64>) -> Option<Self>
        requires { HaveRows sources range.start range.end }
        ensures pairs { IfSome result (λ p. ArePaired sources.entry range.start (range.end - range.start) p) }
        ensures one_run { IfSome result (λ p. IsInRun range.start range.end) }
    {
        // Cells of one run are one list, which is what makes the comparison cheap.
        if !is_in_run(range.start..range.end) {
            return None;
        }
        let (Some(b), None) = (sources.right, sources.mask) else {
            return None;
        };
        let a = sources.left;
        a.recall();
        b.recall();
        // Rows of equal lengths and, below, equal columns throughout: then all positions are equal.
        if !are_as_long(a, b, range.start..range.end) {
            return None;
        }
        let left = a.cells_of(range.start..range.end);
        let right = b.cells_of(range.start..range.end);
        if !have_same_columns(left, right) {
            return None;
        }
        Some(Pairs { left, right })
    }

    /// Gathers the calls on the pairs that come next, as many as fit in. Returns whether there are
    /// any.
    #[inline(always)]
    pub fn gather(&mut self, calls: &mut Calls) -> bool
        requires { NoneWaits kinds.Binary calls.old }
        ensures gathers { Gathers self.old calls.old self.new calls.new result }
        ensures some { result ≡ nat_lt 0 (length calls.new.operands) }
    {
        let many = self.left.len().min(MOST_CALLS);
        let (left, lefts) = self.left.split_at(many);
        let (right, rights) = self.right.split_at(many);
        gather_each(calls, left, right);
        self.left = lefts;
        self.right = rights;
        many > 0
    }
}

/// Gathers the words of cells, each with that of the cell at the same index of another list.
#[inline(always)]
fn gather_each(calls: &mut Calls, left: &[Cell], right: &[Cell])
    requires same { length right.now ≡ length left.now }
    requires capacity { length calls.old.operands + length left.now ≤ 64 }
    requires kind { calls.old.kind ≡ kinds.Binary }
    ensures { calls.new ≡ record calls.old { operands = calls.old.operands ++ pairs_in left.now right.now } }
{
    let mut next = 0;
    for cell in left {
        calls.gather_pair(cell.1, right[next].1);
        next += 1;
    }
}

/// Whether each row of a range has as many entries in one matrix as in another. All are compared,
/// in a loop without an early return.
fn are_as_long(a: &Matrix, b: &Matrix, range: Range<u64>) -> bool
    requires { (range.end ≤ a.now.rows) × (range.end ≤ b.now.rows) }
    ensures { IsTrue result → (i : ℕ) → range.start ≤ i → i < range.end → length (row_of a.now i) ≡ length (row_of b.now i) }
{
    a.recall();
    let first = a.starts();
    let second = b.starts();
    let mut same = true;
    for i in range.start..range.end {
        let next = i as usize;
        // `&=`, not a branch: without an early return this becomes vector code.
        same &= first[next + 1] - first[next] == second[next + 1] - second[next];
    }
    same
}

/// Whether two lists of cells have the same columns.
fn have_same_columns(left: &[Cell], right: &[Cell]) -> bool
    ensures { IsTrue result → columns_of left.now ≡ columns_of right.now }
{
    if left.len() != right.len() {
        return false;
    }
    let mut same = true;
    let mut next = 0;
    for cell in left {
        // As above.
        same &= cell.0 == right[next].0;
        next += 1;
    }
    same
}
