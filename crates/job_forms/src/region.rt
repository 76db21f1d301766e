//! A part of a result, and the rows that are computed for it.
ghost use Rattle.std.specs.Prelude.{◌≡◌, ◌≤◌, ◌-◌, ◌↔◌, List, IfSome, IsTrue};
ghost use Rattle.bpf_run.specs.Calls.{Call};
ghost use Rattle.csr_store.specs.Mask.{mask_of};
ghost use Rattle.csr_store.specs.Run.{Run};
ghost use Rattle.job_forms.specs.Region.{AreBlankUnder, nothing_made, finished, IsMade};

use csr_store::{Matrix, Rows};
use std::alloc::{AllocError, Global};
use std::ops::Range;

/// A part of a result: rows of a range, under a mask if there is one. A mask is structural
/// (`GrB_STRUCTURE` of the GraphBLAS): a position passes if the mask has an entry there.
#[derive(Drop)]
pub struct Region<'m> {
    pub range: Range<u64>,
    pub mask: Option<&'m Matrix>,
}

/// Whether a matrix or the mask has no entry in the rows of a range. The row starts tell, so no row
/// is read.
pub fn is_blank_under(a: &Matrix, mask: Option<&Matrix>, range: &Range<u64>) -> bool
    requires mask { IfSome mask (λ m. range.now.end ≤ m.now.rows) }
    requires within { range.now.end ≤ a.now.rows }
    ensures { IsTrue result ↔ AreBlankUnder (mask_of mask.entry) a.now range.now.start (range.now.end - range.now.start) }
{
    if a.is_blank(range.start..range.end) {
        return true;
    }
    match mask {
        Some(mask) => mask.is_blank(range.start..range.end),
        None => false,
    }
}

/// The rows of a part of a result, or "out of memory"; and the steps of the calls that ran.
#[derive(Drop)]
pub struct Chunk {
    pub result: Result<Rows, AllocError>,
    pub steps: u64,
}

impl Chunk {
    /// Out of memory, before any call ran.
    pub fn refused(error: AllocError) -> Self
        ensures { (run : Run) (calls : List Call) → IsMade run calls result }
    {
        Chunk {
            result: Err(error),
            steps: 0,
        }
    }
}

/// Rows under construction, with the steps of the calls so far.
#[derive(Drop)]
pub struct Making {
    pub rows: Rows,
    pub steps: u64,
}

impl Making {
    /// No row yet, of those from `first` on, and no call. Takes no memory.
    pub fn begin(alloc: Global, first: u64, columns: u64) -> Self
        ensures { result ≡ nothing_made first columns }
    {
        Making {
            rows: Rows::begin(alloc, first, columns),
            steps: 0,
        }
    }

    /// The finished chunk: the rows, unless memory was refused, and the steps.
    pub fn finish(self, filled: Result<(), AllocError>) -> Chunk
        ensures { result ≡ finished self filled }
    {
        let Making { rows, steps } = self;
        match filled {
            Ok(()) => Chunk {
                result: Ok(rows),
                steps,
            },
            // The steps stay: calls that ran are charged, whatever came after them.
            Err(error) => Chunk {
                result: Err(error),
                steps,
            },
        }
    }
}
