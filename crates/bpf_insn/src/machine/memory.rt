//! Loads from the stack and stores to it, the least byte first (RFC 9669, section 5).
ghost use Rattle.std.specs.Prelude.{◌≡◌, ◌+◌, ◌<◌, ◌≤◌, length, take, map, unwrap_or, is_none, None};
ghost use Rattle.std.specs.Prelude.{slice_index_or};
ghost use Rattle.std.specs.List.{list_any};
ghost use Rattle.std.specs.Int.{from_le_bytes, cast_signed, cast_unsigned, w16, w32, w64};
ghost use Rattle.bpf_insn.specs.Reads.{byte_count, signed_byte_count};
ghost use Rattle.bpf_insn.specs.Effects.{bytes_at, loaded, loaded_signed, stored};

use crate::insn::{SignedSize, Size};

/// The number at an index of the stack.
pub fn load(size: Size, stack: &[Option<u8>; 512], index: usize) -> u64
    requires { index + byte_count size ≤ 512 }
    ensures { result ≡ loaded size stack.now index }
{
    let bytes = &stack[index..];
    match size {
        Size::B8 => u64::from(byte(bytes, 0)),
        Size::B16 => u64::from(first_two(bytes)),
        Size::B32 => u64::from(first_four(bytes)),
        Size::B64 => u64::from_le_bytes([
            byte(bytes, 0),
            byte(bytes, 1),
            byte(bytes, 2),
            byte(bytes, 3),
            byte(bytes, 4),
            byte(bytes, 5),
            byte(bytes, 6),
            byte(bytes, 7),
        ]),
    }
}

/// The number at an index of the stack, with its sign extended to 64 bits.
pub fn load_signed(size: SignedSize, stack: &[Option<u8>; 512], index: usize) -> u64
    requires { index + signed_byte_count size ≤ 512 }
    ensures { result ≡ loaded_signed size stack.now index }
{
    let bytes = &stack[index..];
    match size {
        SignedSize::B8 => i64::from(byte(bytes, 0).cast_signed()).cast_unsigned(),
        SignedSize::B16 => i64::from(first_two(bytes).cast_signed()).cast_unsigned(),
        SignedSize::B32 => sign_extended(first_four(bytes)),
    }
}

fn sign_extended(low: u32) -> u64
    ensures { result ≡ cast_unsigned w64 (cast_signed w32 low) }
{
    i64::from(low.cast_signed()).cast_unsigned()
}

fn first_two(bytes: &[Option<u8>]) -> u16
    requires { 2 ≤ length bytes.now }
    ensures { result ≡ from_le_bytes w16 (map (λ b. unwrap_or b 0) (take 2 bytes.now)) }
{
    u16::from_le_bytes([byte(bytes, 0), byte(bytes, 1)])
}

fn first_four(bytes: &[Option<u8>]) -> u32
    requires { 4 ≤ length bytes.now }
    ensures { result ≡ from_le_bytes w32 (map (λ b. unwrap_or b 0) (take 4 bytes.now)) }
{
    u32::from_le_bytes([
        byte(bytes, 0),
        byte(bytes, 1),
        byte(bytes, 2),
        byte(bytes, 3),
    ])
}

fn byte(bytes: &[Option<u8>], index: usize) -> u8
    requires { index < length bytes.now }
    ensures { result ≡ unwrap_or (slice_index_or bytes.now index None) 0 }
{
    // As in the definition, which has to be total. V16 stops a step that would load such a byte.
    bytes[index].unwrap_or(0)
}

/// Whether one of `count` bytes from `first` on was never stored.
pub fn is_unstored(stack: &[Option<u8>; 512], first: usize, count: u8) -> bool
    requires { first + count ≤ 512 }
    ensures { result ≡ list_any is_none (bytes_at stack.now first count) }
{
    stack[first..first + usize::from(count)]
        .iter()
        .any(|byte| byte.is_none())
}

/// Writes the low bytes of `value` at an index of the stack.
pub fn store(size: Size, stack: &mut [Option<u8>; 512], index: usize, value: u64)
    requires { index + byte_count size ≤ 512 }
    ensures { stack.new ≡ stored size stack.old index value }
{
    match size {
        // The low bytes are taken by a remainder, after which the cast loses nothing.
        Size::B8 => stack[index..index + 1].copy_from_slice(&[Some((value % 0x100) as u8)]),
        Size::B16 => {
            let low = (value % 0x1_0000) as u16;
            stack[index..index + 2].copy_from_slice(&low.to_le_bytes().map(Some));
        }
        Size::B32 => store_four(stack, index, (value % 0x1_0000_0000) as u32),
        Size::B64 => stack[index..index + 8].copy_from_slice(&value.to_le_bytes().map(Some)),
    }
}

fn store_four(stack: &mut [Option<u8>; 512], index: usize, value: u32)
    requires { index + 4 ≤ 512 }
    ensures { stack.new ≡ stored Size.B32 stack.old index value }
{
    stack[index..index + 4].copy_from_slice(&value.to_le_bytes().map(Some));
}
