//! Folding many rows at once: each open row has a lane, and a call for each runs together with
//! the others'.
ghost use Rattle.std.specs.Prelude.{◌≡◌, ◌<◌, ◌≤◌, ◌+◌, ◌++◌, ◌∷◌, [], ℕ, if◌then◌else◌, length, map, IfOk, OnOk};
ghost use Rattle.bpf_insn.specs.declared.operands.Kind.TheVariants as kinds;
ghost use Rattle.bpf_verify.specs.Accepted.{Accepted};
ghost use Rattle.csr_store.specs.Along.{cell_at};
ghost use Rattle.csr_store.specs.Grid.{row_of};
ghost use Rattle.csr_store.specs.Mask.{mask_of, passes};
ghost use Rattle.entry_ops.specs.inner.IndexCalls.{NoneWaits};
ghost use Rattle.entry_ops.specs.inner.Folding.{
  Goes,
  TakesSteps,
  Begins,
  CanGo,
  IsBlock,
  AreBegun,
  IsFolding,
  CanFold,
  IsFolded,
};

use crate::open_rows::{OpenRow, OpenRows};
use crate::operand_rows::Cell;
use bpf_insn::Kind;
use bpf_run::{Calls, MOST_CALLS, fold};
use bpf_verify::Operator;
use csr_store::{Matrix, Rows};
use std::alloc::{AllocError, Global};
use std::marker::Model;

/// How many consecutive rows are in a block. All its results are known before the first is added.
pub const BLOCK_ROWS: usize = 256;

/// Fewer lanes are folded to their ends, one by one. They are so few only when no row is left to
/// begin.
const FEW_LANES: usize = 20;

/// Consecutive rows: so many from the first on.
#[derive(Clone, Copy)]
pub struct Block {
    pub first: u64,
    pub many: usize,
}

/// The folds of a block of rows, up to 64 of them at once, and the steps of the calls that
/// ran.
#[derive(Drop)]
pub struct Folds<'m> {
    lanes: OpenRows<'m>,
    /// The result of each row that was begun. For an open row it isn't known yet.
    results: Vec<Option<u64>>,
    steps: u64,
}

impl<'m> Model for Folds<'m> {
    ghost use Rattle.std.specs.Prelude.{◌≤◌, length, vec_capacity};
    ghost use Rattle.entry_ops.specs.inner.Folding.{Folding, ArePlaced};

    ghost Value = { Folding };

    ghost view = { λ e. record { lanes = e.lanes; results = e.results.items; steps = e.steps } };

    ghost invariant = { λ e. (256 ≤ vec_capacity e.results) × (length e.results.items ≤ 256)
        × ArePlaced (length e.results.items) e.lanes };
}

impl<'m> Folds<'m> {
    /// No row yet, and no call. Allocates all the memory that any number of blocks needs.
    pub fn new(alloc: Global) -> Result<Self, AllocError>
        ensures { IfOk result (λ e. e ≡ record { lanes = []; results = []; steps = 0 }) }
    {
        Ok(Folds {
            lanes: OpenRows::new(alloc)?,
            results: Vec::with_capacity(alloc, BLOCK_ROWS)?,
            steps: 0,
        })
    }

    /// The steps of the calls that ran.
    pub fn steps(&self) -> u64
        ensures { result ≡ self.now.steps }
    {
        self.steps
    }

    /// Begins the next row of the block, by its cells.
    fn begin_row(&mut self, cells: &'m [Cell])
        requires capacity { (length self.old.lanes < 64) × (length self.old.results < 256) }
        ensures rows { length self.new.results ≡ length self.old.results + 1 }
        ensures steps { self.new.steps ≡ self.old.steps }
        ensures folds { (f : Accepted) → Begins f cells.entry.now self.old self.new }
    {
        let number = self.results.len();
        let Some((first, behind)) = cells.split_first() else {
            // The capacity is that of a block, so no push is refused.
            self.results.push(None).unwrap();
            return;
        };
        // The fold so far. It is the result if the row has no other cell.
        self.results.push(Some(first.1)).unwrap();
        // A row of one cell takes no call, and hence no lane.
        if let Some((next, rest)) = behind.split_first() {
            self.lanes.push(OpenRow {
                number,
                so_far: first.1,
                next: next.1,
                rest,
            });
        }
    }

    /// Begins rows of a block until no further lane is free, or all are begun.
    fn fill(&mut self, a: &'m Matrix, mask: Option<&'m Matrix>, block: Block)
        requires block { IsBlock a.now block }
        requires few { length self.old.results ≤ block.many }
        ensures begun { AreBegun block.many self.old self.new }
        ensures folding { (f : Accepted) (total : ℕ)
            → IsFolding f a.entry.now (mask_of mask.entry) block.first block.many total self.old
            → IsFolding f a.entry.now (mask_of mask.entry) block.first block.many total self.new }
    {
        while self.lanes.len() < MOST_CALLS && self.results.len() < block.many {
            // Rows begin in order, so the number of results is the next row's.
            let row = block.first + self.results.len() as u64;
            self.begin_row(shown_cells(a, mask, row));
        }
    }

    /// Makes the next call of each lane, all of them together.
    fn call_all(&mut self, operator: &Operator, calls: &mut Calls)
        requires can { CanGo operator.now self.old }
        requires waits { NoneWaits kinds.Binary calls.old }
        ensures goes { Goes operator.now self.old self.new × TakesSteps self.old self.new }
        ensures waits { NoneWaits kinds.Binary calls.new }
    {
        self.steps += self.lanes.call(operator, calls, &mut self.results);
    }

    /// Makes all remaining calls of the last lane.
    fn finish_last(&mut self, operator: &Operator)
        requires can { CanGo operator.now self.old }
        requires some { 0 < length self.old.lanes }
        ensures goes { Goes operator.now self.old self.new }
        ensures more { self.old.steps < self.new.steps }
    {
        let row = self.lanes.pop();
        let folded = fold(operator, row.so_far, row.next, row.rest);
        self.steps += folded.steps;
        self.results[row.number] = Some(folded.value);
    }

    /// Makes the next calls: those of the lanes together, unless they are few.
    fn go(&mut self, operator: &Operator, calls: &mut Calls)
        requires can { CanGo operator.now self.old × (0 < length self.old.lanes) }
        requires waits { NoneWaits kinds.Binary calls.old }
        ensures goes { Goes operator.now self.old self.new × (self.old.steps < self.new.steps) }
        ensures waits { NoneWaits kinds.Binary calls.new }
    {
        if self.lanes.len() < FEW_LANES {
            self.finish_last(operator);
        } else {
            self.call_all(operator, calls);
        }
    }

    /// Folds a block of rows.
    pub fn fold(
        &mut self,
        operator: &Operator,
        calls: &mut Calls,
        a: &'m Matrix,
        mask: Option<&'m Matrix>,
        block: Block,
    )
        requires { CanFold operator.now a.now (mask_of mask) block self.old }
        ensures { IsFolded operator.now a.entry.now (mask_of mask.entry) block self.old self.new }
    {
        self.lanes.clear();
        self.results.clear();
        calls.begin(Kind::Binary);
        self.fill(a, mask, block);
        while self.lanes.len() > 0 {
            self.go(operator, calls);
            // Lanes that ended are free again. Kept full, they share each call among as many rows
            // as possible.
            self.fill(a, mask, block);
        }
    }

    /// Adds the rows of the block: each has its result in its one column, or no entry.
    pub fn add_to(&self, rows: &mut Rows) -> Result<(), AllocError>
        requires columns { rows.old.columns ≡ 1 }
        requires closed { rows.old.opened ≡ [] }
        ensures { OnOk result
            (rows.new ≡ record rows.old { ended = rows.old.ended ++ map (cell_at 0) self.now.results; opened = [] }) }
    {
        // Counted, so that memory is reserved once.
        let known = self.results.iter().filter(|value| value.is_some()).count();
        rows.reserve(known)?;
        rows.reserve_rows(self.results.len())?;
        for value in &self.results {
            add_row(rows, *value)?;
        }
        Ok(())
    }
}

/// Adds a row with a value in its one column, or with none.
pub fn add_row(rows: &mut Rows, value: Option<u64>) -> Result<(), AllocError>
    requires columns { rows.old.columns ≡ 1 }
    requires closed { rows.old.opened ≡ [] }
    ensures { OnOk result (rows.new ≡ record rows.old { ended = rows.old.ended ++ cell_at 0 value ∷ []; opened = [] }) }
{
    if let Some(value) = value {
        rows.push(0, value)?;
    }
    rows.end_row()?;
    Ok(())
}

/// Whether row `row` of a mask of one column lets the result's value pass, if there is a mask.
pub fn row_shown(mask: Option<&Matrix>, row: u64) -> bool
    ensures { result ≡ passes (mask_of mask.entry) (row, 0) }
{
    match mask {
        None => true,
        Some(matrix) => matrix.get(row, 0).is_some(),
    }
}

/// The cells of a row that are folded: none if the mask doesn't show the row.
pub fn shown_cells<'m>(a: &'m Matrix, mask: Option<&'m Matrix>, row: u64) -> &'m [Cell]
    requires { row < a.now.rows }
    ensures { result.now ≡ (if passes (mask_of mask.entry) (row, 0) then row_of a.entry.now row else []) }
{
    if row_shown(mask, row) {
        a.row(row)
    } else {
        &[]
    }
}
