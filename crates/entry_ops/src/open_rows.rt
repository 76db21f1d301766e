//! The open rows of a block of a reduction, up to 64 of them, in columns: folds in one list and
//! next words in another, so that a call for each is gathered at once.
ghost use Rattle.std.specs.Prelude.{◌≡◌, ◌<◌, ◌≤◌, ◌++◌, ◌∷◌, [], length, take, IfOk};
ghost use Rattle.bpf_insn.specs.declared.operands.Kind.TheVariants as kinds;
ghost use Rattle.bpf_verify.specs.Accepted.{Accepted, IsAccepted};
ghost use Rattle.entry_ops.specs.inner.IndexCalls.{NoneWaits};
ghost use Rattle.entry_ops.specs.inner.Folding.{open_of, in_columns, in_two_columns, ArePlaced, Gives};

use crate::operand_rows::Cell;
use bpf_run::{Calls, MOST_CALLS};
use bpf_verify::Operator;
use std::alloc::{AllocError, Global};
use std::marker::Model;

/// An open row: its number in the block, its fold so far, its next word, and the cells after that.
#[derive(Clone, Copy)]
pub struct OpenRow<'m> {
    pub number: usize,
    pub so_far: u64,
    pub next: u64,
    pub rest: &'m [Cell],
}

/// What a call doesn't read: the row's number in the block, and the cells after its next word.
#[derive(Clone, Copy)]
pub struct Lane<'m> {
    number: usize,
    rest: &'m [Cell],
}

/// Open rows, each with a lane. A contract sees their list.
#[derive(Drop)]
pub struct OpenRows<'m> {
    lanes: Vec<Lane<'m>>,
    so_far: Vec<u64>,
    next: Vec<u64>,
}

impl<'m> Model for OpenRows<'m> {
    ghost use Rattle.std.specs.Prelude.{◌≡◌, ◌≤◌, List, length, vec_capacity};
    ghost use Rattle.entry_ops.specs.inner.Folding.{Open, in_columns};

    ghost Value = { List Open };

    ghost view = { λ e. in_columns e.lanes.items e.so_far.items e.next.items };

    ghost invariant = { λ e. (64 ≤ vec_capacity e.lanes) × (64 ≤ vec_capacity e.so_far) × (64 ≤ vec_capacity e.next)
        × (length e.lanes.items ≤ 64) × (length e.so_far.items ≡ length e.lanes.items)
        × (length e.next.items ≡ length e.lanes.items) };
}

impl<'m> OpenRows<'m> {
    /// None yet, with the memory for all.
    pub fn new(alloc: Global) -> Result<Self, AllocError>
        ensures { IfOk result (λ e. e ≡ []) }
    {
        Ok(OpenRows {
            lanes: Vec::with_capacity(alloc, MOST_CALLS)?,
            so_far: Vec::with_capacity(alloc, MOST_CALLS)?,
            next: Vec::with_capacity(alloc, MOST_CALLS)?,
        })
    }

    /// How many rows are open.
    pub fn len(&self) -> usize
        ensures len { result ≡ length self.now }
        ensures few { result ≤ 64 }
    {
        self.lanes.len()
    }

    /// Drops all of them.
    pub fn clear(&mut self)
        ensures { self.new ≡ [] }
    {
        self.lanes.clear();
        self.so_far.clear();
        self.next.clear();
    }

    /// Opens another row.
    pub fn push(&mut self, row: OpenRow<'m>)
        requires capacity { length self.old < 64 }
        ensures { self.new ≡ self.old ++ open_of row.entry ∷ [] }
    {
        let lane = Lane {
            number: row.number,
            rest: row.rest,
        };
        // The capacity is 64 from the start, so no push is refused.
        self.lanes.push(lane).unwrap();
        self.so_far.push(row.so_far).unwrap();
        self.next.push(row.next).unwrap();
    }

    /// Removes the last one.
    pub fn pop(&mut self) -> OpenRow<'m>
        requires some { 0 < length self.old }
        ensures { self.old ≡ self.new ++ open_of result ∷ [] }
    {
        let last = self.lanes.len() - 1;
        let lane = self.lanes[last];
        let row = OpenRow {
            number: lane.number,
            so_far: self.so_far[last],
            next: self.next[last],
            rest: lane.rest,
        };
        self.truncate(last);
        row
    }

    /// Drops all but the first lanes.
    fn truncate(&mut self, left: usize)
        requires { left ≤ length self.old }
        ensures { self.new ≡ take left self.old }
    {
        self.lanes.truncate(left);
        self.so_far.truncate(left);
        self.next.truncate(left);
    }

    /// Makes the next call of each row, all of them together. Rows that end then have their
    /// results, and no lane.
    pub fn call(
        &mut self,
        operator: &Operator,
        calls: &mut Calls,
        results: &mut [Option<u64>],
    ) -> u64
        requires kind { operator.now.kind ≡ kinds.Binary }
        requires accepted { IsAccepted operator.now }
        requires few { length results.old ≤ 256 }
        requires lanes { ArePlaced (length results.old) self.old }
        requires waits { NoneWaits kinds.Binary calls.old }
        ensures lanes { ArePlaced (length results.new) self.new }
        ensures gives { Gives operator.now result self.old results.old self.new results.new }
        ensures more { 0 < length self.old → 0 < result }
        ensures waits { NoneWaits kinds.Binary calls.new }
    {
        // Both lists are in the order of lanes, so they are copied as they are.
        calls.gather_pairs(&self.so_far, &self.next);
        let steps = calls.make(operator);
        self.so_far.copy_from_slice(calls.values());
        let left = take_next(&mut self.lanes, &mut self.so_far, &mut self.next, results);
        self.lanes.truncate(left);
        self.so_far.truncate(left);
        self.next.truncate(left);
        steps
    }
}

/// Takes the next word of each row that has one. The others get their results, and the rows that
/// are left are moved to the front and counted.
fn take_next<'m>(
    lanes: &mut [Lane<'m>],
    so_far: &mut [u64],
    next: &mut [u64],
    results: &mut [Option<u64>],
) -> usize
    requires few { length results.old ≤ 256 }
    requires folds { length so_far.old ≡ length lanes.old }
    requires words { length next.old ≡ length lanes.old }
    requires lanes { ArePlaced (length results.old) (in_two_columns lanes.old so_far.old) }
    ensures within { result ≤ length lanes.new }
    ensures lanes { ArePlaced (length results.new)
        (in_columns (take result lanes.new) (take result so_far.new) (take result next.new)) }
    ensures gives { (f : Accepted) → Gives f 0 (in_two_columns lanes.old so_far.old) results.old
        (in_columns (take result lanes.new) (take result so_far.new) (take result next.new)) results.new }
{
    let mut left = lanes.len();
    // From the last on: the lane that fills a gap was handled already.
    for i in (0..lanes.len()).rev() {
        if let Some((first, rest)) = lanes[i].rest.split_first() {
            next[i] = first.1;
            lanes[i].rest = rest;
        } else {
            results[lanes[i].number] = Some(so_far[i]);
            left -= 1;
            lanes[i] = lanes[left];
            so_far[i] = so_far[left];
            next[i] = next[left];
        }
    }
    left
}
