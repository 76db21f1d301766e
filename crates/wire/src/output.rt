//! The text that waits to be written to a sink, in a buffer allocated at the start.
ghost use Rattle.std.specs.Prelude.{◌≡◌, ◌≤◌, ◌+◌, [], true, false, is_ok, vec_len, vec_capacity, IfOk, OnOk};
ghost use Rattle.wire.specs.Sending.{Sent};

use crate::device::{Sink, WriteFailed, put};
use crate::input::BUFFER_BYTES;
use std::alloc::{AllocError, Global};
use std::marker::Model;

/// Text that waits to be written: up to `BUFFER_BYTES` bytes, so that many short texts are one
/// write. A contract sees the bytes.
#[derive(Drop)]
pub struct Output {
    buffer: Vec<u8>,
}

impl Model for Output {
    ghost use Rattle.std.specs.Prelude.{ℕ, List};

    ghost Value = { List ℕ };

    ghost view = { λ o. o.buffer.items };

    ghost invariant = { λ o. Unit {0} };
}

impl Output {
    /// Nothing waits, and the buffer has `BUFFER_BYTES` bytes.
    ///
    /// # Errors
    ///
    /// There is no memory for the buffer.
    pub fn new(alloc: Global) -> Result<Self, AllocError>
        ensures { IfOk result (λ o. o ≡ []) }
    {
        Ok(Output {
            buffer: Vec::with_capacity(alloc, BUFFER_BYTES)?,
        })
    }

    /// Writes all that waits.
    ///
    /// # Errors
    ///
    /// The first call that fails ends it. What was written by then is a front part of what waited.
    pub fn flush<W: Sink>(&mut self, writer: &mut W) -> Result<(), WriteFailed>
        ensures sent { Sent (is_ok result) []
            (record { sink = W.state writer.old; waits = self.old })
            (record { sink = W.state writer.new; waits = self.new }) }
        ensures none { OnOk result (self.new ≡ []) }
    {
        empty(&mut self.buffer, writer)
    }

    /// Appends a text to what waits. If the buffer is too full for it, what waits is written first;
    /// a text that is longer than the whole buffer doesn't wait.
    ///
    /// # Errors
    ///
    /// The first call that fails ends it. What was written by then is a front part of what waited
    /// and the text.
    pub fn say<W: Sink>(&mut self, writer: &mut W, text: &[u8]) -> Result<(), WriteFailed>
        ensures sent { Sent (is_ok result) text.now
            (record { sink = W.state writer.old; waits = self.old })
            (record { sink = W.state writer.new; waits = self.new }) }
    {
        match make_room(&mut self.buffer, writer, text.len()) {
            Ok(true) => {
                // There is capacity, so a reply never needs memory.
                self.buffer.extend_from_slice(text).unwrap();
                Ok(())
            }
            // Longer than the buffer, which is empty now: the order stays without a copy.
            Ok(false) => match put(writer, text) {
                Ok(()) => Ok(()),
                Err(failed) => Err(failed),
            },
            Err(failed) => Err(failed),
        }
    }
}

/// Writes all that is in a buffer, which is then empty.
fn empty<W: Sink>(buffer: &mut Vec<u8>, writer: &mut W) -> Result<(), WriteFailed>
    ensures sent { Sent (is_ok result) []
        (record { sink = W.state writer.old; waits = buffer.old.items })
        (record { sink = W.state writer.new; waits = buffer.new.items }) }
    ensures none { OnOk result (buffer.new.items ≡ []) }
    ensures capacity { vec_capacity buffer.old ≤ vec_capacity buffer.new }
{
    match put(writer, buffer) {
        Ok(()) => {
            // Only once all is written. After a fault the session ends.
            buffer.clear();
            Ok(())
        }
        Err(failed) => Err(failed),
    }
}

/// Frees capacity for so many more bytes: empties the buffer if it has too little. Returns whether
/// it is enough.
fn make_room<W: Sink>(
    buffer: &mut Vec<u8>,
    writer: &mut W,
    count: usize,
) -> Result<bool, WriteFailed>
    ensures sent { Sent (is_ok result) []
        (record { sink = W.state writer.old; waits = buffer.old.items })
        (record { sink = W.state writer.new; waits = buffer.new.items }) }
    ensures enough { IfOk result (λ b. b ≡ true → vec_len buffer.new + count ≤ vec_capacity buffer.new) }
    ensures none { IfOk result (λ b. b ≡ false → buffer.new.items ≡ []) }
{
    // Written as late as possible, so that one write carries many replies.
    if count <= buffer.capacity() - buffer.len() {
        return Ok(true);
    }
    match empty(buffer, writer) {
        Ok(()) => Ok(count <= buffer.capacity()),
        Err(failed) => Err(failed),
    }
}
