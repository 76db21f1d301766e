//! Rows whose cells are in one list.
ghost use Rattle.std.specs.Prelude.{◌≤◌, IsTrue};
ghost use Rattle.csr_store.specs.Run.{IsInRun};

use csr_store::RUN_ROWS;
use std::ops::Range;

/// Whether the rows of a range are all in one run.
pub fn is_in_run(range: Range<u64>) -> bool
    requires { range.start ≤ range.end }
    ensures { IsTrue result → IsInRun range.start range.end }
{
    // `start / RUN_ROWS * RUN_ROWS` is the first row of the run that `start` is in.
    range.end - range.start / RUN_ROWS * RUN_ROWS <= RUN_ROWS
}
