//! Where the rows of a matrix start: a list that matrices of which each row has as many entries may
//! share.
ghost use Rattle.std.specs.Prelude.{◌≡◌, ◌≤◌, length, IfOk, OnOk, OnErr};
ghost use Rattle.csr_store.specs.Grid.{limit};
ghost use Rattle.csr_store.specs.inner.ByRows.{Closes, Starts};

use crate::growth::{self, RefusedGrowth};
use std::alloc::{AllocError, Global};
use std::marker::Model;
use std::sync::Arc;

/// How many entries stand in the rows before each row, and at last before the end. A contract sees
/// the list.
#[derive(Drop)]
pub struct RowStarts {
    list: Arc<Vec<u64>>,
}

impl Model for RowStarts {
    ghost use Rattle.std.specs.Prelude.{ℕ, List};
    ghost use Rattle.std.specs.Coded.{coded_list, coded_ℕ};
    ghost use Rattle.std.specs.Arc.{arc_value};

    ghost Value = { List ℕ };

    ghost coded = { coded_list coded_ℕ };

    ghost view = { λ s. (arc_value s.list).items };
}

impl RowStarts {
    /// The starts that a list has.
    pub(crate) fn new(alloc: Global, list: Vec<u64>) -> Result<Self, RefusedGrowth>
        ensures { IfOk result (λ s. s ≡ list.items) }
    {
        let list = growth::shared(alloc, list)?;
        Ok(RowStarts { list })
    }

    /// An empty list, which `give` replaces.
    pub(crate) fn empty(alloc: Global) -> Result<Self, AllocError> {
        let list = Arc::new(alloc, Vec::new(alloc))?;
        Ok(RowStarts { list })
    }

    /// Replaces the list. If it has more owners, the others keep the old list, and memory is taken;
    /// else none is.
    pub(crate) fn give(&mut self, list: Vec<u64>) -> Result<(), AllocError>
        ensures { OnOk result (self.new ≡ list.items) }
    {
        *Arc::make_mut(&mut self.list)? = list;
        Ok(())
    }

    /// The list.
    #[inline(always)]
    pub(crate) fn list(&self) -> &[u64]
        ensures { result.now ≡ self.now }
    {
        &self.list
    }

    /// The same list, with one more owner.
    pub(crate) fn share(&self) -> Result<Self, AllocError>
        ensures { IfOk result (λ s. s ≡ self.now) }
    {
        let list = Arc::try_clone(&self.list)?;
        Ok(RowStarts { list })
    }
}

/// Closes rows with no more entries, until `row` is the open one.
#[inline(always)]
pub(crate) fn close(ends: &mut Vec<u64>, row: u64, end: u64) -> Result<(), RefusedGrowth>
    requires { length ends.old.items ≤ row }
    ensures closes { Closes ends.old.items end ends.new.items }
    ensures upto { length ends.new.items ≤ row }
    ensures reached { OnOk result (length ends.new.items ≡ row) }
{
    for _ in ends.len() as u64..row {
        growth::push(ends, end)?;
    }
    Ok(())
}

/// Closes the rows that are left, and puts the start of the first row before the ends.
pub(crate) fn start_rows(ends: &mut Vec<u64>, rows: u64, end: u64) -> Result<(), RefusedGrowth>
    requires left { length ends.old.items ≤ rows }
    requires small { rows ≤ limit }
    ensures started { OnOk result (Starts ends.old.items end rows ends.new.items) }
    ensures closed { OnErr result (Closes ends.old.items end ends.new.items × (length ends.new.items ≤ rows)) }
{
    let len = ends.len();
    growth::reserve(ends, rows as usize + 1 - len)?;
    close(ends, rows, end)?;
    growth::put_first(ends, 0)
}
