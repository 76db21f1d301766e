//! Where rows end, counted from another start.
ghost use Rattle.std.specs.Prelude.{◌≡◌, ◌++◌, length, map, OnOk};
ghost use Rattle.csr_store.specs.inner.Moved.{moved};

use std::alloc::AllocError;

/// The number of ends that code without a loop moves at once.
const BLOCK: usize = 16;

/// Adds ends to a list, each moved by a distance modulo 2^64: so ends are moved back by the
/// distance that comes back to 0.
pub fn push_moved(list: &mut Vec<u64>, ends: &[u64], distance: u64) -> Result<(), AllocError>
    ensures { OnOk result (list.new.items ≡ list.old.items ++ map (moved distance) ends.now) }
{
    let mut rest = ends;
    while rest.len() >= BLOCK {
        let (block, others) = rest.split_at(BLOCK);
        list.extend_from_slice(&moved_block(block, distance))?;
        rest = others;
    }
    push_each(list, rest, distance)
}

/// As `move_ends`, one end at a time.
#[inline(always)]
fn push_each(list: &mut Vec<u64>, ends: &[u64], distance: u64) -> Result<(), AllocError>
    ensures { OnOk result (list.new.items ≡ list.old.items ++ map (moved distance) ends.now) }
{
    for end in ends {
        list.push(distance.wrapping_add(*end))?;
    }
    Ok(())
}

/// The same of a block.
#[inline(always)]
fn moved_block(ends: &[u64], distance: u64) -> [u64; BLOCK]
    requires { length ends.now ≡ 16 }
    ensures { result ≡ map (moved distance) ends.now }
{
    let mut block = [0; BLOCK];
    for nth in 0..BLOCK {
        block[nth] = distance.wrapping_add(ends[nth]);
    }
    block
}
