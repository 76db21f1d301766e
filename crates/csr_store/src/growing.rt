//! Row starts of stacked runs. They need no list as long as they equal those of another matrix.
ghost use Rattle.std.specs.Prelude.{◌≡◌, ◌<◌, ◌≤◌, ◌+◌, ◌^◌, ◌++◌, ◌∷◌, [], map, take, IfOk, OnOk};
ghost use Rattle.std.specs.List.{AllByRecursion};
ghost use Rattle.csr_store.specs.inner.Starts.{starts_of};

use crate::ends::RowEnds;
use crate::matrix::Matrix;
use crate::starts::RowStarts;
use std::alloc::{AllocError, Global};
use std::marker::Model;

/// Row starts, and the end of the last row, compared with those of a matrix. Contracts see the
/// list. It takes memory once the two differ. Until then, rows that are only counted aren't looked
/// at.
#[derive(Drop)]
pub(crate) struct Growing<'m> {
    alloc: Global,
    like: &'m Matrix,
    /// The number of row starts to expect.
    capacity: usize,
    so_far: SoFar,
}

/// The starts so far.
#[derive(Drop)]
enum SoFar {
    /// The first starts of the other matrix, this many of them.
    Alike(usize),
    /// A list of their own.
    Listed(Vec<u64>),
}

impl<'m> Model for Growing<'m> {
    ghost use Rattle.std.specs.Prelude.{ℕ, List};
    ghost use Rattle.std.specs.Coded.{coded_list, coded_ℕ};
    ghost use Rattle.csr_store.specs.inner.Growing.{first_of, AreFirst};

    ghost Value = { List ℕ };

    ghost coded = { coded_list coded_ℕ };

    ghost view = { λ g. first_of g.like.now g.so_far };

    ghost invariant = { λ g. AreFirst g.like.now g.so_far };
}

impl<'m> Growing<'m> {
    /// The start of the first row. Takes no memory. A list, once there is one, holds `capacity`
    /// starts.
    pub(crate) fn begin(alloc: Global, like: &'m Matrix, capacity: usize) -> Self
        ensures { result ≡ 0 ∷ [] }
    {
        Growing {
            alloc,
            like,
            capacity,
            so_far: SoFar::Alike(1),
        }
    }

    /// Appends the starts that follow rows with these ends, each increased by `base`.
    pub(crate) fn add(&mut self, ends: &RowEnds, base: u64) -> Result<(), AllocError>
        requires { AllByRecursion (λ e. base + e < 2 ^ 64) ends.now }
        ensures { OnOk result (self.new ≡ self.old ++ map (λ e. base + e) ends.now) }
    {
        match &mut self.so_far {
            SoFar::Listed(starts) => ends.add_to(starts, base),
            SoFar::Alike(count) => {
                let (_, later) = self.like.starts().split_at(*count);
                if ends.begin(later, base) {
                    *count += ends.len() as usize;
                    return Ok(());
                }
                let mut starts = first_starts(self.alloc, self.like, *count, self.capacity)?;
                ends.add_to(&mut starts, base)?;
                self.so_far = SoFar::Listed(starts);
                Ok(())
            }
        }
    }

    /// All starts: the other matrix's own list, if they are the same.
    pub(crate) fn finish(self) -> Result<RowStarts, AllocError>
        ensures { IfOk result (λ s. s ≡ self.entry) }
    {
        let Growing {
            alloc,
            like,
            so_far,
            ..
        } = self;
        match so_far {
            SoFar::Listed(starts) => shared_starts(alloc, starts),
            SoFar::Alike(count) => {
                if count == like.starts().len() {
                    return like.share_starts();
                }
                shared_starts(alloc, first_starts(alloc, like, count, count)?)
            }
        }
    }
}

/// The starts that a list has.
fn shared_starts(alloc: Global, list: Vec<u64>) -> Result<RowStarts, AllocError>
    ensures { IfOk result (λ s. s ≡ list.items) }
{
    RowStarts::new(alloc, list).map_err(|_| AllocError)
}

/// The first starts of a matrix, in a list with capacity for more.
fn first_starts(
    alloc: Global,
    matrix: &Matrix,
    count: usize,
    capacity: usize,
) -> Result<Vec<u64>, AllocError>
    requires { count ≤ matrix.now.rows + 1 }
    ensures { IfOk result (λ starts. starts.items ≡ take count (starts_of matrix.now)) }
{
    let mut starts = Vec::with_capacity(alloc, capacity)?;
    starts.extend_from_slice(&matrix.starts()[..count])?;
    Ok(starts)
}
