//! How many bytes an access has, and whether they lie inside the stack.
ghost use Rattle.std.specs.Prelude.{◌≡◌};
ghost use Rattle.bpf_insn.specs.Reads.{byte_count, signed_byte_count, is_outside_stack};

use crate::insn::{SignedSize, Size};

/// How many bytes a load or a store of this size moves.
pub fn byte_count(size: Size) -> u8
    ensures { result ≡ byte_count size }
{
    match size {
        Size::B8 => 1,
        Size::B16 => 2,
        Size::B32 => 4,
        Size::B64 => 8,
    }
}

/// How many bytes a load of this size moves.
pub fn signed_byte_count(size: SignedSize) -> u8
    ensures { result ≡ signed_byte_count size }
{
    match size {
        SignedSize::B8 => 1,
        SignedSize::B16 => 2,
        SignedSize::B32 => 4,
    }
}

/// Whether an access of `count` bytes at the place `first` is not inside the stack.
pub fn is_outside_stack(first: i64, count: u8) -> bool
    ensures { result ≡ is_outside_stack first count }
{
    // Places count down from the top, so the stack ends at 0. A `count` of 0 is a place that is
    // only moved, which may be the top itself.
    first < -512 || first > -i64::from(count)
}
