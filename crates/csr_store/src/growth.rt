//! Memory that is asked for. A refusal is told by a value that nothing else makes.
ghost use Rattle.std.specs.Prelude.{◌≡◌, ◌++◌, ◌∷◌, [], IfOk, OnErr, OnOk};
ghost use Rattle.std.specs.List.{insert};
ghost use Rattle.std.specs.Arc.{arc_value};

use std::alloc::Global;
use std::sync::Arc;

/// A request for memory was refused.
///
/// Only the functions of this module make one, and only where the list or the block that they asked
/// for was refused. So whatever returns one has asked, and was refused.
#[derive(Clone, Copy, Debug, PartialEq, Eq)]
pub struct RefusedGrowth {
    asked: (),
}

const REFUSED: RefusedGrowth = RefusedGrowth { asked: () };

/// An empty list with capacity for so many items.
pub(crate) fn with_capacity<T>(alloc: Global, capacity: usize) -> Result<Vec<T>, RefusedGrowth>
    ensures { IfOk result (λ list. list.items ≡ []) }
{
    match Vec::with_capacity(alloc, capacity) {
        Ok(list) => Ok(list),
        Err(_) => Err(REFUSED),
    }
}

/// Reserves memory for so many more items.
pub(crate) fn reserve<T>(list: &mut Vec<T>, more: usize) -> Result<(), RefusedGrowth>
    ensures { list.new.items ≡ list.old.items }
{
    match list.reserve_exact(more) {
        Ok(()) => Ok(()),
        Err(_) => Err(REFUSED),
    }
}

/// Appends an item. A list that can't grow stays as it was.
#[inline(always)]
pub(crate) fn push<T: Copy>(list: &mut Vec<T>, item: T) -> Result<(), RefusedGrowth>
    ensures pushed { OnOk result (list.new.items ≡ list.old.items ++ item ∷ []) }
    ensures unchanged { OnErr result (list.new.items ≡ list.old.items) }
{
    match list.push(item) {
        Ok(()) => Ok(()),
        Err(_) => Err(REFUSED),
    }
}

/// Puts an item before the others. A list that can't grow stays as it was.
pub(crate) fn put_first<T: Copy>(list: &mut Vec<T>, item: T) -> Result<(), RefusedGrowth>
    ensures put { OnOk result (list.new.items ≡ item ∷ list.old.items) }
    ensures unchanged { OnErr result (list.new.items ≡ list.old.items) }
{
    match list.insert(0, item) {
        Ok(()) => Ok(()),
        Err(_) => Err(REFUSED),
    }
}

/// A value that may have several owners.
pub(crate) fn shared<T: Drop>(alloc: Global, value: T) -> Result<Arc<T>, RefusedGrowth>
    ensures { IfOk result (λ owner. arc_value owner ≡ value) }
{
    match Arc::new(alloc, value) {
        Ok(owner) => Ok(owner),
        Err(_) => Err(REFUSED),
    }
}
