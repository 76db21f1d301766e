//! Additions to the sums of different columns, which run together.
ghost use Rattle.std.specs.Prelude.{◌≡◌, ◌<◌, length, IfOk};
ghost use Rattle.bpf_insn.specs.declared.operands.Kind.TheVariants as kinds;
ghost use Rattle.row_product.specs.inner.Adding.{written, gathered_one, none_gathered, AreAdded, AreBelow};

use crate::sums::Sums;
use bpf_insn::Kind;
use bpf_run::{Calls, MOST_CALLS};
use bpf_verify::Operator;
use std::alloc::{AllocError, Global};
use std::marker::Model;

/// Up to 64 additions and the column of each. A contract sees a `Gathered`.
#[derive(Drop)]
pub(crate) struct Additions {
    calls: Calls,
    columns: Vec<u64>,
}

impl Model for Additions {
    ghost use Rattle.std.specs.Prelude.{◌≡◌, ◌≤◌, length, vec_capacity};
    ghost use Rattle.bpf_insn.specs.declared.operands.Kind.TheVariants as kinds;
    ghost use Rattle.row_product.specs.inner.Adding.{Gathered};

    ghost Value = { Gathered };

    ghost view = { λ a. record { columns = a.columns.items; operands = a.calls.operands } };

    ghost invariant = { λ a. (a.calls.kind ≡ kinds.Binary) × (length a.columns.items ≡ length a.calls.operands)
        × (64 ≤ vec_capacity a.columns) };
}

impl Additions {
    /// Memory for the additions, with none gathered.
    pub(crate) fn new(alloc: Global) -> Result<Self, AllocError>
        ensures { IfOk result (λ a. a ≡ none_gathered) }
    {
        let mut calls = Calls::new(alloc)?;
        // Once for all: `make` leaves the kind as it is.
        calls.begin(Kind::Binary);
        Ok(Additions {
            calls,
            // All of it here, so that gathering can't be refused memory.
            columns: Vec::with_capacity(alloc, MOST_CALLS)?,
        })
    }

    /// Gathers the addition of a term to the sum so far of a column.
    #[inline(always)]
    pub(crate) fn gather(&mut self, column: u64, so_far: u64, term: u64)
        requires capacity { length self.old.operands < 64 }
        ensures { self.new ≡ gathered_one self.old column so_far term }
    {
        self.columns.push_reserved(column);
        self.calls.gather_pair(so_far, term);
    }

    /// Makes all additions that were gathered, and writes their sums at their columns. Returns the
    /// steps.
    pub(crate) fn make(&mut self, add: &Operator, sums: &mut Sums) -> u64
        requires add { add.now.kind ≡ kinds.Binary }
        requires within { AreBelow (length sums.old) self.old.columns }
        ensures added { AreAdded add.now self.old sums.old sums.new result }
        ensures none { self.new ≡ none_gathered }
    {
        let steps = self.calls.make(add);
        // After all calls. No two additions are to one column, so none needs the result of another.
        write(&self.columns, self.calls.values(), sums);
        // The capacity stays, and `gather` relies on it.
        self.columns.clear();
        steps
    }
}

/// Writes values at columns.
fn write(columns: &[u64], values: &[u64], sums: &mut Sums)
    requires values { length values.now ≡ length columns.now }
    requires within { AreBelow (length sums.old) columns.now }
    ensures { sums.new ≡ written sums.old columns.now values.now }
{
    // By index, since two lists are walked at once.
    for k in 0..columns.len() {
        sums.put(columns[k], values[k]);
    }
}
