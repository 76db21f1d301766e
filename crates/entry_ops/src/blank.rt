//! Regions without any call, since an operand or the mask has no entry in their rows. They are
//! ended at once.
ghost use Rattle.std.specs.Prelude.{◌≤◌, ◌-◌, ◌∷◌, []};
ghost use Rattle.csr_store.specs.Along.{along};
ghost use Rattle.job_forms.specs.Region.{IsMade};

use job_forms::{Chunk, Making};
use std::alloc::Global;
use std::ops::Range;

/// The rows of a region without an entry, and no call.
pub fn blank_region(alloc: Global, columns: u64, range: Range<u64>) -> Chunk
    requires { range.start ≤ range.end }
    ensures { IsMade (record {
      first = range.start;
      columns = columns;
      ended = along (λ i. [] ∷ []) range.start (range.end - range.start);
      opened = [];
    }) [] result }
{
    let mut making = Making::begin(alloc, range.start, columns);
    // One step for all rows: none of them is looked at.
    let ended = making.rows.end_blank(range.end - range.start);
    making.finish(ended)
}
