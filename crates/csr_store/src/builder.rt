//! A matrix in the making.
ghost use Rattle.std.specs.Prelude.{◌≡◌, ◌≤◌, None, unwrap_or, OnOk, OnErr, IfOk, IfErr};
ghost use Rattle.std.specs.FinMap as map;
ghost use Rattle.csr_store.specs.Grid.{limit};
ghost use Rattle.csr_store.specs.Refusal.{put_fault};

use crate::entry_list::EntryList;
use crate::error::StoreError;
use crate::limits::MOST_ENTRIES;
use crate::matrix::Matrix;
use std::alloc::Global;
use std::collections::BTreeMap;
use std::marker::Model;

/// Collects the entries of a matrix, in any order, each position once.
///
/// An entry above all earlier ones is pushed; any other goes into an ordered map.
#[derive(Drop)]
pub struct Builder {
    ascending: EntryList,
    others: BTreeMap<(u64, u64), u64>,
}

impl Model for Builder {
    ghost use Rattle.std.specs.Prelude.{◌++◌};
    ghost use Rattle.csr_store.specs.Grid.{Grid, grid_code};
    ghost use Rattle.csr_store.specs.ByRows.{grid};
    ghost use Rattle.csr_store.specs.inner.Collected.{IsCollected};

    ghost Value = { Grid };

    ghost coded = { grid_code };

    ghost view = { λ b. grid b.ascending.rows b.ascending.columns (b.ascending.entries ++ b.others.entries) };

    ghost invariant = { λ b. IsCollected b.ascending b.others.entries };
}

impl Builder {
    /// A matrix with no entry yet. Takes no memory.
    pub fn new(alloc: Global, rows: u64, columns: u64) -> Self
        requires rows { rows ≤ limit }
        requires columns { columns ≤ limit }
        ensures { result ≡ record { rows = rows; columns = columns; cells = map.empty } }
    {
        Builder {
            ascending: EntryList::new(alloc, rows, columns),
            others: BTreeMap::new(alloc),
        }
    }

    /// Adds an entry at a position that has none, both indices counted from 0. Costs a few
    /// instructions where the position is above all earlier ones, else a search among the entries
    /// so far.
    ///
    /// Refuses, in this order, a position outside the sizes, one that has an entry, and an entry
    /// beyond 16,777,216; and then answers `Memory` where its growth is refused. The builder is
    /// then as before.
    pub fn put(&mut self, row: u64, column: u64, value: u64) -> Result<(), StoreError>
        ensures fits { OnOk result (put_fault self.old (row, column) ≡ None) }
        ensures added { OnOk result
            (self.new ≡ record self.old { cells = map.insert self.old.cells (row, column) value }) }
        ensures refused { IfErr result
            (λ e. e ≡ unwrap_or (put_fault self.old (row, column)) StoreError.Memory) }
        ensures unchanged { OnErr result (self.new ≡ self.old) }
    {
        if !self.ascending.spans(row, column) {
            return Err(StoreError::IndexOutOfRange);
        }
        if self.ascending.has(row, column) {
            return Err(StoreError::PositionGivenTwice);
        }
        if self.others.contains_key(&(row, column)) {
            return Err(StoreError::PositionGivenTwice);
        }
        if self.ascending.len() + self.others.len() as u64 >= MOST_ENTRIES {
            return Err(StoreError::TooManyEntries);
        }
        if self.ascending.ends_before(row, column) {
            match self.ascending.add(row, column, value) {
                Ok(()) => return Ok(()),
                Err(_) => return Err(StoreError::Memory),
            }
        }
        match self.others.insert((row, column), value) {
            Ok(_) => {}
            Err(_) => return Err(StoreError::Memory),
        }
        Ok(())
    }

    /// The matrix of the entries, or the builder back where there is no memory for it.
    pub fn finish(self) -> Result<Matrix, Builder>
        ensures ok { IfOk result (λ m. m ≡ self) }
        ensures err { IfErr result (λ b. b ≡ self) }
    {
        if self.others.is_empty() {
            match self.ascending.cut() {
                Ok(matrix) => return Ok(matrix),
                Err(ascending) => {
                    return Err(Builder {
                        ascending,
                        others: self.others,
                    });
                }
            }
        }
        let Ok(list) = self.ascending.merged(&self.others) else {
            return Err(self);
        };
        match list.finish() {
            Ok(matrix) => Ok(matrix),
            Err(_) => Err(self),
        }
    }
}
