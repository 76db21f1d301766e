//! Reading until a line or a body is complete.
ghost use Rattle.std.specs.Prelude.{ℕ, ◌≡◌, false, ◌<◌, ◌≤◌, ◌++◌, OnOk, [], take, vec_capacity, vec_len, IfOk, IfNone, IfSome, Ok, Some};
ghost use Rattle.wire.specs.Devices.{SourceState};
ghost use Rattle.wire.specs.Fetching.{MayAsk, LacksBytes, Fetched, IsLined, IsBody, failed_reads, reach};
ghost use Rattle.wire.specs.Lines as lines;
ghost use Rattle.wire.specs.inner.Keeping.{IsKept, IsSkipped};

use crate::device::{Asked, Sink};
use crate::fault::ReadFault;
use crate::input::Input;
use crate::lines::{Found, find_first};
use std::alloc::{AllocError, Global};

/// What was found where the next line should be.
#[derive(Clone, Copy, Debug, PartialEq, Eq)]
pub enum Lined {
    /// A line.
    Whole,
    /// A line that is too long.
    Over,
    /// The end of the input.
    Nothing,
}

/// The result of reading a body.
#[derive(Drop)]
pub enum Body {
    /// It was read.
    Whole(Vec<u8>),
    /// It was read and dropped, since there was no memory for it.
    Dropped,
    /// The input ended in it.
    Cut,
}

/// Takes the first line of the buffered bytes, which is copied out, if they have one. Nothing is
/// read.
pub fn line_held(input: &mut Input, line: &mut Vec<u8>) -> Option<Lined>
    requires capacity { 1026 ≤ vec_capacity line.old }
    ensures fetched { IfSome result (λ lined. (s : SourceState) → Fetched 0
        (record { source = s; held = input.old }) (record { source = s; held = input.new })
        (IsLined (Ok lined) line.new.items input.new)) }
    ensures none { IfNone result (input.new ≡ input.old) }
    ensures capacity { 1026 ≤ vec_capacity line.new }
    ensures less { result ≡ Some Lined.Whole → reach input.new < reach input.old }
{
    match find_first(input.bytes(), input.has_ended()) {
        // The rest has to be read, which may wait. The caller may have replies to write before.
        Found::Partial => None,
        Found::Over => Some(Lined::Over),
        Found::Nothing => Some(Lined::Nothing),
        Found::Line { length, taken } => {
            input.take_line(length, taken, line);
            Some(Lined::Whole)
        }
    }
}

/// Reads until a line is complete, which is copied out and taken from the input.
///
/// # Errors
///
/// A read failed, or no more reads are allowed, before a line was complete. The bytes that arrived
/// stay in the input.
pub fn next_line<R: Asked<W>, W: Sink>(
    input: &mut Input,
    reader: &mut R,
    sink: &W,
    line: &mut Vec<u8>,
) -> Result<Lined, ReadFault>
    requires capacity { 1026 ≤ vec_capacity line.old }
    requires asked { MayAsk R.may_ask (record { source = R.state reader.old; held = input.old }) (W.state sink.now)
        (λ bytes. lines.first false bytes ≡ lines.Partial) }
    ensures fetched { Fetched (failed_reads result)
        (record { source = R.state reader.old; held = input.old })
        (record { source = R.state reader.new; held = input.new })
        (IsLined result line.new.items input.new) }
    ensures capacity { 1026 ≤ vec_capacity line.new }
    ensures less { result ≡ Ok Lined.Whole → reach input.new < reach input.old }
{
    // The label is the loop's name in its proof.
    'reading: loop {
        match find_first(input.bytes(), input.has_ended()) {
            // Only as much as one read gives: the line may end in it.
            Found::Partial => match input.fill(reader, sink) {
                Ok(()) => {}
                Err(fault) => return Err(fault),
            },
            Found::Over => return Ok(Lined::Over),
            Found::Nothing => return Ok(Lined::Nothing),
            Found::Line { length, taken } => {
                input.take_line(length, taken, line);
                return Ok(Lined::Whole);
            }
        }
    }
}

/// The least memory that is allocated for a body at once, in bytes.
const STEP: usize = 8192;

/// The most bytes that are zeroed for one read into a body's memory.
const PIECE: usize = 262_144;

/// The memory of a body of `length` bytes with the first part of it, which was buffered.
///
/// # Errors
///
/// There is no memory for them.
fn begin(alloc: Global, part: &[u8], length: u64) -> Result<Vec<u8>, AllocError>
    ensures { IfOk result (λ body. body.items ≡ part.now) }
{
    // Not `length`: announcing a large body costs the server nothing.
    let mut body = Vec::with_capacity(alloc, (length as usize).min(STEP))?;
    body.extend_from_slice(part)?;
    Ok(body)
}

/// Prepares memory after the bytes of a body of `length` bytes that arrived. The memory doubles,
/// and never exceeds the body's length.
///
/// # Errors
///
/// There is no memory to grow.
fn extend(body: &mut Vec<u8>, came: usize, length: usize) -> Result<(), AllocError>
    requires missing { came < length }
    requires within { (came ≤ vec_len body.old) × (vec_len body.old ≤ length) }
    ensures ready { OnOk result ((came < vec_len body.new) × (take came body.new.items ≡ take came body.old.items)) }
    ensures within { vec_len body.new ≤ length }
{
    // Bytes that were zeroed before are still free.
    if came < body.len() {
        return Ok(());
    }
    let missing = length - came;
    if body.capacity() == came {
        // Exact, so that the last step stops at the body's end.
        body.reserve_exact(missing.min(came.max(STEP)))?;
    }
    // Zeroing far ahead would cost a client's announcement, not its bytes.
    let ready = missing.min(body.capacity() - came).min(PIECE);
    // Zeroed, since a read fills initialised bytes.
    body.resize(came + ready, 0)
}

/// A body that is being stored.
#[derive(Drop)]
enum Received {
    /// It came whole.
    Whole(Vec<u8>),
    /// There was no memory for what follows so many bytes of it. They were dropped.
    Full(usize),
    /// The input ended in it.
    Cut,
}

/// Reads the rest of a body of `length` bytes into memory of its own, after the first part of it.
///
/// # Errors
///
/// A read failed, or no more reads are allowed, before the body was complete. What arrived of it is
/// dropped.
fn keep<R: Asked<W>, W: Sink>(
    input: &mut Input,
    reader: &mut R,
    sink: &W,
    first: Vec<u8>,
    length: usize,
) -> Result<Received, ReadFault>
    requires asked { MayAsk R.may_ask (record { source = R.state reader.old; held = input.old }) (W.state sink.now)
        (λ bytes. LacksBytes length (first.items ++ bytes)) }
    requires within { vec_len first ≤ length }
    requires next { vec_len first < length → input.old.bytes ≡ [] }
    ensures fetched { Fetched (failed_reads result)
        (record { source = R.state reader.old; held = input.old })
        (record { source = R.state reader.new; held = input.new }) (IsKept length first.items result input.new) }
    ensures bounded { reach input.new ≤ reach input.old }
{
    let mut body = first;
    let mut came = body.len();
    'reading: loop {
        // Before the end of the input is tested: it may end right after the body.
        if came == length {
            return Ok(Received::Whole(body));
        }
        if input.has_ended() {
            return Ok(Received::Cut);
        }
        match extend(&mut body, came, length) {
            Ok(()) => {}
            // No fault of the stream: the rest is skipped, and the next command is found after it.
            Err(_) => return Ok(Received::Full(came)),
        }
        // Straight into the body's memory, without a copy in the buffer.
        match input.fill_behind(reader, sink, &mut body, came) {
            Ok(n) => came += n,
            Err(fault) => return Err(fault),
        }
    }
}

/// Reads until so many bytes of a body have arrived, and drops them.
///
/// # Errors
///
/// A read failed, or no more reads are allowed, before they arrived.
fn skip<R: Asked<W>, W: Sink>(
    input: &mut Input,
    reader: &mut R,
    sink: &W,
    count: u64,
) -> Result<Body, ReadFault>
    requires { MayAsk R.may_ask (record { source = R.state reader.old; held = input.old }) (W.state sink.now)
        (LacksBytes count) }
    ensures fetched { Fetched (failed_reads result)
        (record { source = R.state reader.old; held = input.old })
        (record { source = R.state reader.new; held = input.new }) (IsSkipped count result input.new) }
    ensures bounded { reach input.new ≤ reach input.old }
{
    let mut missing = count;
    'reading: loop {
        let there = input.bytes().len() as u64;
        let part = missing.min(there);
        // Buffered bytes first: the next command may begin among them.
        input.take(part as usize);
        missing -= part;
        // Before the end of the input is tested, as in `keep`.
        if missing == 0 {
            return Ok(Body::Dropped);
        }
        if input.has_ended() {
            return Ok(Body::Cut);
        }
        match input.fill(reader, sink) {
            Ok(()) => {}
            Err(fault) => return Err(fault),
        }
    }
}

/// Reads the rest of a body of `length` bytes, of which the first part arrived. If there is no
/// memory for it, it is dropped.
///
/// # Errors
///
/// A read failed, or no more reads are allowed, before the body was complete. What arrived of it is
/// dropped.
fn read_rest<R: Asked<W>, W: Sink>(
    input: &mut Input,
    reader: &mut R,
    sink: &W,
    first: Vec<u8>,
    length: u64,
) -> Result<Body, ReadFault>
    requires asked { MayAsk R.may_ask (record { source = R.state reader.old; held = input.old }) (W.state sink.now)
        (λ bytes. LacksBytes length (first.items ++ bytes)) }
    requires within { vec_len first ≤ length }
    requires next { vec_len first < length → input.old.bytes ≡ [] }
    ensures fetched { Fetched (failed_reads result)
        (record { source = R.state reader.old; held = input.old })
        (record { source = R.state reader.new; held = input.new })
        (λ bytes. IsBody length result input.new (first.items ++ bytes)) }
    ensures bounded { reach input.new ≤ reach input.old }
{
    match keep(input, reader, sink, first, length as usize) {
        Ok(Received::Whole(body)) => Ok(Body::Whole(body)),
        Ok(Received::Cut) => Ok(Body::Cut),
        // Only what didn't arrive yet has to be skipped.
        Ok(Received::Full(came)) => skip(input, reader, sink, length - came as u64),
        Err(fault) => Err(fault),
    }
}

/// Reads until a body of so many bytes is complete, which is taken from the input. Its memory grows
/// as it arrives. If there is no memory for it, it is dropped as it arrives.
///
/// # Errors
///
/// A read failed, or no more reads are allowed, before the body was complete. What arrived of it is
/// dropped.
pub fn read_body<R: Asked<W>, W: Sink>(
    alloc: Global,
    input: &mut Input,
    reader: &mut R,
    sink: &W,
    length: u64,
) -> Result<Body, ReadFault>
    requires { MayAsk R.may_ask (record { source = R.state reader.old; held = input.old }) (W.state sink.now)
        (LacksBytes length) }
    ensures fetched { Fetched (failed_reads result)
        (record { source = R.state reader.old; held = input.old })
        (record { source = R.state reader.new; held = input.new }) (IsBody length result input.new) }
    ensures bounded { reach input.new ≤ reach input.old }
{
    let part = length.min(input.bytes().len() as u64) as usize;
    let begun = begin(alloc, &input.bytes()[..part], length);
    // Taken even if memory was refused: the body is skipped then.
    input.take(part);
    match begun {
        Ok(first) => read_rest(input, reader, sink, first, length),
        Err(_) => skip(input, reader, sink, length - part as u64),
    }
}
