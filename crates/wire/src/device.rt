//! Where bytes come from and go to.
ghost use Rattle.std.specs.Prelude.{◌≡◌, ◌+◌, ℕ, List, Option, length, OnOk, OnErr};
ghost use Rattle.std.specs.Io.{ReadsAtMost, WritesAtMost};
ghost use Rattle.std.specs.Io.KnownBytes.{ReadConsumes, WriteAppends, Appends};
ghost use Rattle.wire.specs.Devices.{SourceState, SinkState, IsRead, failures_in, write_failures_in};
ghost use Rattle.wire.specs.Prefixes.{IsPrefixOf};

use std::io;
use thiserror::Error;

/// Where bytes come from: a reader whose reads and failed reads are counted, for contracts alone.
pub trait Source {
    // The bytes that are left, and the counts.
    ghost state: { Self → SourceState };

    /// Reads into `buf` as `std::io::Read::read` does, and returns how many bytes it read. It
    /// returns 0 only at the end of the stream, or if `buf` is empty.
    fn read(&mut self, buf: &mut [u8]) -> io::Result<usize>
        ensures bound { ReadsAtMost result buf.new }
        ensures bytes { ReadConsumes (state self.old).remaining (state self.new).remaining result buf.new }
        ensures counted { IsRead (length buf.new) result (state self.old) (state self.new) };
}

/// A source that is asked for bytes beside the sink that the replies to them go to. Whoever asks has
/// to show that this is a moment at which it may be asked. Code over any such source knows no more of
/// these moments than its contract requires. So it asks at no others.
pub trait Asked<W: Sink> {
    // The bytes that are left, and the counts.
    ghost state: { Self → SourceState };
    // The moments at which it may be asked.
    ghost may_ask: { SourceState → SinkState → Type 0 };

    /// Reads into `buf` as `Source::read` does.
    fn ask(&mut self, buf: &mut [u8], sink: &W) -> io::Result<usize>
        requires { may_ask (state self.old) (W.state sink.now) }
        ensures bound { ReadsAtMost result buf.new }
        ensures bytes { ReadConsumes (state self.old).remaining (state self.new).remaining result buf.new }
        ensures counted { IsRead (length buf.new) result (state self.old) (state self.new) };
}

/// Any source may be asked at any moment.
impl<R: Source, W: Sink> Asked<W> for R {
    ghost state = { λ r. R.state r };

    ghost may_ask = { λ source sink. Unit {0} };

    fn ask(&mut self, buf: &mut [u8], sink: &W) -> io::Result<usize> {
        let _ = sink;
        self.read(buf)
    }
}

/// Where bytes go to: a writer whose writes and failed writes are counted, for contracts alone. A
/// write that takes none of some bytes has failed too.
pub trait Sink {
    // The bytes that were taken, and the counts.
    ghost state: { Self → SinkState };

    /// Writes a front part of `buf` as `std::io::Write::write` does, and returns how many bytes it
    /// took.
    fn write(&mut self, buf: &[u8]) -> io::Result<usize>
        ensures bound { WritesAtMost result buf.now }
        ensures bytes { WriteAppends (state self.old).contents (state self.new).contents result buf.now }
        ensures writes { (state self.new).writes ≡ (state self.old).writes + 1 }
        ensures failures { (state self.new).failures ≡
            (state self.old).failures + write_failures_in (length buf.now) result };
}

/// A text was not written whole, because a call of its device failed.
#[derive(Debug, Drop, Error)]
#[error("write failed")]
pub struct WriteFailed;

/// Writes all of a text.
///
/// # Errors
///
/// The first call that fails ends it. What was written by then is a front part of the text.
pub fn put<W: Sink>(writer: &mut W, text: &[u8]) -> Result<(), WriteFailed>
    ensures written { OnOk result
        (Appends (W.state writer.old).contents (W.state writer.new).contents text.now) }
    ensures cut { OnErr result ((front : List ℕ) × IsPrefixOf front text.now ×
        Appends (W.state writer.old).contents (W.state writer.new).contents front) }
    ensures failures { (W.state writer.new).failures ≡ (W.state writer.old).failures + failures_in result }
{
    let mut at = 0;
    while at < text.len() {
        match writer.write(&text[at..]) {
            // A device that takes nothing would be asked for ever.
            Ok(0) => return Err(WriteFailed),
            Ok(n) => at += n,
            Err(_) => return Err(WriteFailed),
        }
    }
    Ok(())
}
