//! Positions in a text.
ghost use Rattle.std.specs.Prelude.{◌<◌, ◌+◌, ◌^◌, length};

/// A position in a text: what follows it, and the number of the last line before it.
#[derive(Clone, Copy)]
pub struct Cursor<'a> {
    pub rest: &'a [u8],
    pub at: u64,
    // So that counting lines can't overflow.
    ghost capacity: { at + length rest.now < 2 ^ 63 },
}
