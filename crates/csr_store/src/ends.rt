//! Where the rows of a run end among its cells. Rows before the first cell are only counted.
ghost use Rattle.std.specs.Prelude.{◌≡◌, ◌<◌, ◌≤◌, ◌+◌, ◌^◌, ◌++◌, ◌∷◌, [], length, map, replicate, take, IsTrue, OnOk, OnErr};
ghost use Rattle.std.specs.List.{AllByRecursion};
ghost use Rattle.std.specs.List.Sorted.{IsNonDecreasing};

use crate::limits::MOST_SIDE;
use crate::moving::push_moved;
use std::alloc::{AllocError, Global};
use std::marker::Model;

/// Where rows end, in order. Contracts see the list.
#[derive(Drop)]
pub(crate) struct RowEnds {
    /// How many leading rows end at 0. They take no memory. This is at most `MOST_SIDE`; further
    /// ones are listed.
    blank: u64,
    /// Where the others end.
    listed: Vec<u64>,
}

impl Model for RowEnds {
    ghost use Rattle.std.specs.Prelude.{ℕ, List, ◌≤◌, ◌++◌, replicate};
    ghost use Rattle.std.specs.Coded.{coded_list, coded_ℕ};
    ghost use Rattle.csr_store.specs.Grid.{limit};

    ghost Value = { List ℕ };

    ghost coded = { coded_list coded_ℕ };

    ghost view = { λ e. replicate e.blank 0 ++ e.listed.items };

    ghost invariant = { λ e. e.blank ≤ limit };
}

impl RowEnds {
    /// The ends that a list has.
    pub(crate) fn of(listed: Vec<u64>) -> Self
        ensures { result ≡ listed.items }
    {
        RowEnds { blank: 0, listed }
    }

    /// No rows. Takes no memory.
    pub(crate) fn none(alloc: Global) -> Self
        ensures { result ≡ [] }
    {
        RowEnds {
            blank: 0,
            listed: Vec::new(alloc),
        }
    }

    /// How many rows there are.
    pub(crate) fn len(&self) -> u64
        ensures { result ≡ length self.now }
    {
        self.blank + self.listed.len() as u64
    }

    /// Reserves memory for `rows` more rows.
    pub(crate) fn reserve(&mut self, rows: usize) -> Result<(), AllocError>
        ensures { self.new ≡ self.old }
    {
        self.listed.reserve(rows)
    }

    /// Appends the end of a row.
    #[inline(always)]
    pub(crate) fn push(&mut self, end: u64) -> Result<(), AllocError>
        ensures ended { OnOk result (self.new ≡ self.old ++ end ∷ []) }
        ensures unchanged { OnErr result (self.new ≡ self.old) }
    {
        self.listed.push(end)?;
        Ok(())
    }

    /// Appends `count` rows that all end at `end`. Before the first cell that takes no memory, and
    /// no time per row.
    pub(crate) fn push_alike(&mut self, count: u64, end: u64) -> Result<(), AllocError>
        ensures ended { OnOk result (self.new ≡ self.old ++ replicate count end) }
        ensures unchanged { OnErr result (self.new ≡ self.old) }
    {
        if end == 0 && self.listed.is_empty() && count <= MOST_SIDE - self.blank {
            self.blank += count;
            return Ok(());
        }
        self.listed.reserve(count as usize)?;
        self.listed.resize(self.listed.len() + count as usize, end)
    }

    /// Appends these ends to a list, each increased by `base`.
    pub(crate) fn add_to(&self, starts: &mut Vec<u64>, base: u64) -> Result<(), AllocError>
        requires { AllByRecursion (λ e. base + e < 2 ^ 64) self.now }
        ensures { OnOk result (starts.new.items ≡ starts.old.items ++ map (λ e. base + e) self.now) }
    {
        let len = starts.len() + self.blank as usize;
        starts.resize(len, base)?;
        push_moved(starts, &self.listed, base)
    }

    /// Whether ascending starts begin with these ends, each increased by `base`. Of the rows before
    /// the first cell, only the first and the last are looked at.
    pub(crate) fn begin(&self, starts: &[u64], base: u64) -> bool
        requires rise { IsNonDecreasing starts.now }
        requires fit { AllByRecursion (λ e. base + e < 2 ^ 64) self.now }
        ensures many { IsTrue result → length self.now ≤ length starts.now }
        ensures alike { IsTrue result → take (length self.now) starts.now ≡ map (λ e. base + e) self.now }
    {
        if (starts.len() as u64) < self.len() {
            return false;
        }
        let (front, others) = starts.split_at(self.blank as usize);
        are_all(front, base) && are_ahead(&self.listed, others, base)
    }
}

/// Whether ascending starts are all equal to this one. It is enough that the first and the last
/// are.
fn are_all(starts: &[u64], start: u64) -> bool
    requires { IsNonDecreasing starts.now }
    ensures { IsTrue result → starts.now ≡ replicate (length starts.now) start }
{
    starts.is_empty() || (starts[0] == start && starts[starts.len() - 1] == start)
}

/// Whether starts begin with these ends, each increased by `base`. The last tells most runs that
/// don't; where it is the same, all are compared, in a loop without a way out.
fn are_ahead(ends: &[u64], starts: &[u64], base: u64) -> bool
    requires many { length ends.now ≤ length starts.now }
    requires fit { AllByRecursion (λ e. base + e < 2 ^ 64) ends.now }
    ensures { IsTrue result → take (length ends.now) starts.now ≡ map (λ e. base + e) ends.now }
{
    let many = ends.len();
    if many > 0 && starts[many - 1] != base + ends[many - 1] {
        return false;
    }
    let mut same = true;
    let mut next = 0;
    for end in ends {
        same &= starts[next] == base + *end;
        next += 1;
    }
    same
}
