//! Copies of the columns that a batch multiplies by.
ghost use Rattle.std.specs.Prelude.{◌≡◌, ◌≢◌, ◌≤◌, ◌<◌, [], ◌∷◌, ◌++◌, length, get_or, true, false, None, Some, if◌then◌else◌};
ghost use Rattle.std.specs.Prelude.{IfOk, IfSome, IsTrue, MatchOption};
ghost use Rattle.std.specs.Arc.{arc_value};
ghost use Rattle.std.specs.FinMap as fin;
ghost use Rattle.csr_store.specs.Column.{column_of};
ghost use Rattle.job_plan.specs.Copies.{IsBy};
ghost use Rattle.job_plan.specs.inner.Copies.{Adds, AreFor, FitsBehind, IsFound};

use crate::form::Form;
use crate::priced::{Priced, price};
use crate::queue::MOST_JOBS;
use csr_store::{Column, Matrix, Version};
use std::alloc::{AllocError, Global};
use std::marker::Model;
use std::sync::Arc;

/// How many times the rows of a column may be compared without success, before the search for its
/// copy is given up.
const PATIENCE: u64 = 4;

/// A copy of a column, with another owner of the matrix that it was copied from. A contract sees
/// that matrix.
#[derive(Drop)]
pub struct Copied {
    // Its sizes are compared before its words.
    matrix: Version,
    column: Column,
}

impl Model for Copied {
    ghost use Rattle.std.specs.Prelude.{◌≡◌};
    ghost use Rattle.std.specs.Arc.{arc_value};
    ghost use Rattle.csr_store.specs.Column.{column_of};
    ghost use Rattle.csr_store.specs.Grid.{Grid, grid_code};

    ghost Value = { Grid };

    ghost coded = { grid_code };

    ghost view = { λ c. arc_value c.matrix };

    ghost invariant = { λ c. c.column ≡ column_of (arc_value c.matrix) };
}

impl Copied {
    /// Copies a matrix of one column.
    fn of(alloc: Global, matrix: &Version) -> Result<Self, AllocError>
        requires { (arc_value matrix.now).columns ≡ 1 }
        ensures { IfOk result (λ c. c ≡ arc_value matrix.now) }
    {
        let column = Column::of(alloc, matrix)?;
        // A further owner may be refused memory, as any allocation may.
        let matrix = Arc::try_clone(matrix)?;
        Ok(Copied { matrix, column })
    }

    /// The copy.
    pub(crate) fn column(&self) -> &Column
        ensures { result.now ≡ column_of self.now }
    {
        &self.column
    }

    /// Whether a matrix has as many rows as the copied one, and as many entries.
    fn is_sized_as(&self, other: &Matrix) -> bool
        ensures rows { result ≡ true → self.now.rows ≡ other.now.rows }
        ensures other { result ≡ false → self.now ≢ other.now }
    {
        self.matrix.rows() == other.rows() && self.matrix.entries() == other.entries()
    }

    /// The word at a row, if there is one.
    #[inline(always)]
    fn word(&self, k: u64) -> Option<u64>
        requires { k < self.now.rows }
        ensures { result ≡ fin.get self.now.cells (k, 0) }
    {
        word_of(self.column.word(k))
    }

    /// The first row at which another column differs: 0 if the sizes do, and none if nothing does.
    #[tactic(auto, using(crate::proofs::Copies::same_columns, crate::proofs::Copies::other_words))]
    fn difference(&self, other: &Matrix) -> Option<u64>
        requires { other.now.columns ≡ 1 }
        ensures { MatchOption result (column_of self.now ≡ column_of other.now) (λ _. self.now ≢ other.now) }
    {
        // Two comparisons tell most columns apart.
        if !self.is_sized_as(other) {
            return Some(0);
        }
        for k in 0..other.rows() {
            // By words and by whether there is one: two owners of one matrix can't be recognised as
            // such.
            if self.word(k) != word_at(other, k) {
                return Some(k);
            }
        }
        None
    }
}

/// A word that may be absent.
#[inline(always)]
fn word_of(word: (u64, bool)) -> Option<u64>
    ensures { result ≡ (if word.1 then Some word.0 else None) }
{
    if word.1 { Some(word.0) } else { None }
}

/// The word at a row of a column, if there is one.
#[inline(always)]
fn word_at(column: &Matrix, k: u64) -> Option<u64>
    requires column { column.now.columns ≡ 1 }
    requires row { k < column.now.rows }
    ensures { result ≡ fin.get column.now.cells (k, 0) }
{
    word_of(column.word_in_column(k))
}

/// The result of a search for a copy: its index, that there is none, or that the search would take
/// too long.
enum Found {
    At(u64),
    Nowhere,
    Unknown,
}

/// Looks for the copy of a column. Matrices that are equal count as one. Takes no memory.
#[tactic(auto, using(crate::proofs::Copies::found_at, crate::proofs::Copies::new_more))]
fn find(copies: &[Copied], column: &Matrix) -> Found
    requires { column.now.columns ≡ 1 }
    ensures { IsFound copies.now column.now result }
{
    // In rows compared. Columns that differ late would otherwise make the search quadratic.
    let mut left = PATIENCE * column.rows();
    for (nth, copy) in copies.iter().enumerate() {
        let Some(row) = copy.difference(column) else {
            return Found::At(nth as u64);
        };
        // A comparison that ends at a row has read so many rows.
        if row > left {
            return Found::Unknown;
        }
        left -= row;
    }
    Found::Nowhere
}

/// Whether another copy takes no more words than the cells that it is copied from. The first copy
/// may also take as many as its matrix has row starts.
fn fits(copies: &[Copied], column: &Matrix) -> bool
    ensures { IsTrue result → FitsBehind copies.now column.now }
{
    let rows = column.rows();
    // Row starts count once, as the other columns may share them.
    let starts = if copies.is_empty() { rows + 1 } else { 0 };
    // A copy has a word and a bit per row, a matrix two words per entry.
    rows + rows.div_ceil(64) <= starts + 2 * column.entries()
}

/// Appends the copy of a column, if it is small enough and there is memory for it, and returns its
/// index.
fn add(alloc: Global, copies: &mut Vec<Copied>, matrix: &Version) -> Option<u64>
    requires { (arc_value matrix.now).columns ≡ 1 }
    ensures { MatchOption result (copies.new.items ≡ copies.old.items) (λ p. (p ≡ length copies.old.items)
        × (copies.new.items ≡ copies.old.items ++ arc_value matrix.now ∷ [])
        × FitsBehind copies.old.items (arc_value matrix.now)) }
{
    if !fits(copies, matrix) {
        return None;
    }
    // A copy only saves time, so a job whose copy is refused does without.
    let Ok(copy) = Copied::of(alloc, matrix) else {
        return None;
    };
    let nth = copies.len() as u64;
    // The copy is dropped if the list can't grow.
    match copies.push(copy) {
        Ok(()) => Some(nth),
        Err(_) => None,
    }
}

/// The column that a product is by, if a copy of it pays.
fn paid(priced: &Priced) -> Option<&Version>
    ensures { IfSome result (λ v. IsBy (arc_value v.now) priced.now) }
{
    let form = priced.job().form();
    if let Form::Product { right, .. } = form {
        // Price over round is the number of multiplications. It has to be at least the number of
        // rows, each of which the copy reads.
        if right.columns() == 1 && price(priced) >= right.rows() * form.round() {
            return Some(right);
        }
    }
    None
}

/// The index of a job's copy, which is created if there is none yet.
#[tactic(auto, using(crate::proofs::Copies::adds_nothing, crate::proofs::Copies::adds_found, crate::proofs::Copies::adds_new))]
fn place_for(alloc: Global, copies: &mut Vec<Copied>, priced: &Priced) -> Option<u64>
    ensures { Adds copies.old.items copies.new.items priced.now result }
{
    let Some(column) = paid(priced) else {
        return None;
    };
    match find(copies, column) {
        Found::At(nth) => Some(nth),
        Found::Nowhere => add(alloc, copies, column),
        Found::Unknown => None,
    }
}

/// The copies of a batch's columns, and for each job the index of its copy, if it has one.
#[derive(Drop)]
pub(crate) struct Columns {
    copies: Vec<Copied>,
    // An array, since a batch has at most 64 jobs: it takes no memory that could be refused.
    places: [Option<u64>; MOST_JOBS],
}

impl Columns {
    /// Copies the columns that products are by, each once, as far as that pays and there is memory.
    pub(crate) fn of(alloc: Global, jobs: &[Priced]) -> Columns
        requires { length jobs.now ≤ 64 }
        ensures { AreFor jobs.now result.copies.items result.places }
    {
        let mut copies = Vec::new(alloc);
        let mut places = [None; MOST_JOBS];
        for (job, priced) in jobs.iter().enumerate() {
            places[job] = place_for(alloc, &mut copies, priced);
        }
        Columns { copies, places }
    }

    /// The copies.
    pub(crate) fn copies(&self) -> &[Copied]
        ensures { result.now ≡ self.now.copies.items }
    {
        &self.copies
    }

    /// The index of a job's copy, if it has one.
    pub(crate) fn nth(&self, job: u64) -> Option<u64>
        ensures { result ≡ get_or self.now.places job None }
    {
        match self.places.get(job as usize) {
            Some(nth) => *nth,
            None => None,
        }
    }
}
