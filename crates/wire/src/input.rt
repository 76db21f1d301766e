//! The bytes that were read from a stream and not used yet, in a buffer allocated at the start.
ghost use Rattle.std.specs.Prelude.{◌≡◌, ◌<◌, ◌≤◌, ◌+◌, [], false};
ghost use Rattle.std.specs.Prelude.{length, take, drop, vec_capacity, IfOk, IfErr, OnOk};
ghost use Rattle.std.specs.Io.KnownBytes.{ReadConsumes};
ghost use Rattle.wire.specs.Devices.{IsRead};
ghost use Rattle.wire.specs.Fetching.{Fetched, IsFilled, IsReadBehind, IsPut, IsSpent, MayFill, failed_reads};
ghost use Rattle.wire.specs.Lines.{MayBeLine};
ghost use Rattle.wire.specs.inner.InputState.{IsGot, IsCounted};

use crate::device::{Asked, Sink};
use crate::fault::ReadFault;
use std::alloc::{AllocError, Global};
use std::io;
use std::marker::Model;

/// How many bytes are buffered at most.
pub const BUFFER_BYTES: usize = 8192;

/// Bytes that were read and not used yet, whether the stream has ended after them, and how many
/// reads are left.
#[derive(Drop)]
pub struct Input {
    buffer: Vec<u8>,
    from: usize,
    to: usize,
    ended: bool,
    reads_left: u64,
}

impl Model for Input {
    ghost use Rattle.std.specs.Prelude.{◌≡◌, ◌≤◌, ◌-◌, take, drop, vec_len};
    ghost use Rattle.wire.specs.InputState.{InputState};

    ghost Value = { InputState };

    ghost view = { λ i. record {
      bytes = take (i.to - i.from) (drop i.from i.buffer.items);
      ended = i.ended;
      reads_left = i.reads_left;
    } };

    ghost invariant = { λ i. (i.from ≤ i.to) × (i.to ≤ vec_len i.buffer) × (vec_len i.buffer ≡ 8192) };
}

/// Reads into the part of a buffer from an index on. In the counts, a read into one byte is as good
/// as any.
fn read_behind<S: Asked<W>, W: Sink>(
    source: &mut S,
    sink: &W,
    buffer: &mut [u8],
    at: usize,
) -> io::Result<usize>
    requires within { at < length buffer.old }
    requires asked { S.may_ask (S.state source.old) (W.state sink.now) }
    ensures put { IsPut at result buffer.old buffer.new }
    ensures bytes { ReadConsumes (S.state source.old).remaining (S.state source.new).remaining result (drop at buffer.new) }
    ensures counted { IsRead 1 result (S.state source.old) (S.state source.new) }
{
    source.ask(&mut buffer[at..], sink)
}

impl Input {
    /// No bytes, of a stream that has not ended and of which so many reads are allowed, with a
    /// buffer of `BUFFER_BYTES` bytes.
    ///
    /// # Errors
    ///
    /// There is no memory for the buffer.
    pub fn new(alloc: Global, reads: u64) -> Result<Self, AllocError>
        ensures { IfOk result (λ i. i ≡ record { bytes = []; ended = false; reads_left = reads }) }
    {
        Ok(Input {
            // Zeroed once. Reads overwrite it.
            buffer: vec![in alloc; 0; BUFFER_BYTES]?,
            from: 0,
            to: 0,
            ended: false,
            reads_left: reads,
        })
    }

    /// The bytes that are not used yet.
    pub fn bytes(&self) -> &[u8]
        ensures { result.now ≡ self.now.bytes }
    {
        &self.buffer[self.from..self.to]
    }

    /// Whether the stream has ended after these bytes.
    pub fn has_ended(&self) -> bool
        ensures { result ≡ self.now.ended }
    {
        self.ended
    }

    /// Uses up so many bytes.
    pub fn take(&mut self, count: usize)
        requires { count ≤ length self.old.bytes }
        ensures { self.new ≡ record self.old { bytes = drop count self.old.bytes } }
    {
        // Nothing moves until the next read needs the space.
        self.from += count;
    }

    /// Reads some more bytes, by one read of the source.
    fn read_some<S: Asked<W>, W: Sink>(&mut self, source: &mut S, sink: &W) -> io::Result<()>
        requires room { MayFill self.old }
        requires asked { S.may_ask (S.state source.old) (W.state sink.now) }
        ensures got { IsGot result
            (record { source = S.state source.old; held = self.old })
            (record { source = S.state source.new; held = self.new }) }
        ensures counted { IsCounted result
            (record { source = S.state source.old; held = self.old })
            (record { source = S.state source.new; held = self.new }) }
        ensures capacity { length self.new.bytes ≤ 8192 }
    {
        // The bytes that are left move to the front, so a line is always in one piece.
        self.buffer.rotate_left(self.from);
        self.to -= self.from;
        self.from = 0;
        // A failed read leaves the bytes that are left.
        let n = read_behind(source, sink, &mut self.buffer, self.to)?;
        self.to += n;
        // The buffer wasn't full, so 0 bytes are the end of the stream.
        if n == 0 {
            self.ended = true;
        }
        Ok(())
    }

    /// Counts another read.
    ///
    /// # Errors
    ///
    /// No more reads are allowed.
    fn count_read(&mut self) -> Result<(), ReadFault>
        ensures ok { OnOk result
            (self.old ≡ record self.new { reads_left = self.new.reads_left + 1 }) }
        ensures err { IfErr result (λ fault.
            (fault ≡ ReadFault.OutOfReads) × (self.new ≡ self.old) × (self.old.reads_left ≡ 0)) }
    {
        if self.reads_left == 0 {
            return Err(ReadFault::OutOfReads);
        }
        self.reads_left -= 1;
        Ok(())
    }

    /// Reads some more bytes, by one read of the source. A read that returns none means that the
    /// stream has ended.
    ///
    /// # Errors
    ///
    /// No more reads are allowed, or the source failed. The bytes are then as before.
    pub fn fill<S: Asked<W>, W: Sink>(&mut self, source: &mut S, sink: &W) -> Result<(), ReadFault>
        requires room { MayFill self.old }
        requires asked { S.may_ask (S.state source.old) (W.state sink.now) }
        ensures fetched { Fetched (failed_reads result)
            (record { source = S.state source.old; held = self.old })
            (record { source = S.state source.new; held = self.new }) (IsFilled result self.old self.new) }
        ensures capacity { length self.new.bytes ≤ 8192 }
        ensures spent { IsSpent result self.old self.new }
    {
        // Before the read, as a read that fails counts as well.
        self.count_read()?;
        match self.read_some(source, sink) {
            Ok(()) => Ok(()),
            // Contracts speak of the failed call alone. A device may note its cause.
            Err(_) => Err(ReadFault::Failed),
        }
    }

    /// Reads some more bytes into the part of a caller's buffer from an index on, by one read of
    /// the source, while no bytes are buffered here. Returns how many arrived. A read that returns
    /// none means that the stream has ended.
    ///
    /// # Errors
    ///
    /// No more reads are allowed, or the source failed.
    pub fn fill_behind<S: Asked<W>, W: Sink>(
        &mut self,
        source: &mut S,
        sink: &W,
        buffer: &mut [u8],
        at: usize,
    ) -> Result<usize, ReadFault>
        requires open { (self.old.bytes ≡ []) × (self.old.ended ≡ false) }
        requires within { at < length buffer.old }
        requires asked { S.may_ask (S.state source.old) (W.state sink.now) }
        ensures fetched { Fetched (failed_reads result)
            (record { source = S.state source.old; held = self.old })
            (record { source = S.state source.new; held = self.new }) (IsReadBehind result buffer.new at self.old self.new) }
        ensures put { IsPut at result buffer.old buffer.new }
        ensures spent { IsSpent result self.old self.new }
    {
        self.count_read()?;
        let Ok(n) = read_behind(source, sink, buffer, at) else {
            return Err(ReadFault::Failed);
        };
        if n == 0 {
            self.ended = true;
        }
        Ok(n)
    }

    /// Copies the first line of the bytes, of so many bytes, and uses up the bytes that it takes
    /// with its line end. The copy allocates nothing.
    pub fn take_line(&mut self, length: usize, taken: usize, line: &mut Vec<u8>)
        requires line { MayBeLine length taken self.old.bytes }
        requires capacity { 1026 ≤ vec_capacity line.old }
        ensures copied { (line.new.items ≡ take length self.old.bytes) × (1026 ≤ vec_capacity line.new) }
        ensures left { self.new ≡ record self.old { bytes = drop taken self.old.bytes } }
    {
        line.clear();
        // A line has 1,024 bytes at most, so the capacity suffices and this can't be refused.
        line.extend_from_slice(&self.bytes()[..length]).unwrap();
        self.take(taken);
    }
}
