//! For how long a session waits for its client.
ghost use Rattle.std.specs.Prelude.{◌≡◌, ◌↔◌, false, IsTrue, IfErr, OnOk};
ghost use Rattle.std.specs.IoError.{error_kind};

use std::io;
use std::io::{ErrorKind, Read, Write};
use std::net::TcpStream;
use std::time::Duration;

/// Lets each read and each write of a connection wait for so many seconds at most, or without end.
/// What a session does between two of them isn't counted.
///
/// # Errors
///
/// The system refuses it.
pub fn set_idle(stream: &TcpStream, idle: Option<u64>) -> io::Result<()> {
    let longest = idle.map(Duration::from_secs);
    stream.set_read_timeout(longest)?;
    stream.set_write_timeout(longest)
}

/// The last call of one side of a connection.
#[derive(Clone, Copy, Debug, PartialEq, Eq)]
pub struct LastCall {
    /// Whether it failed since it waited for as long as it may.
    pub is_idle: bool,
}

impl LastCall {
    /// None yet.
    pub fn none() -> Self
        ensures { result ≡ record { is_idle = false } }
    {
        LastCall { is_idle: false }
    }

    /// Notes how a call of the side ended.
    fn note(&mut self, outcome: &io::Result<usize>)
        ensures idle { IfErr outcome.now (λ error. IsTrue self.new.is_idle ↔ (error_kind error ≡ ErrorKind.WouldBlock)) }
        ensures same { OnOk outcome.now (self.new.is_idle ≡ self.old.is_idle) }
    {
        if let Err(error) = outcome {
            self.is_idle = error.kind() == ErrorKind::WouldBlock;
        }
    }
}

/// A side of a connection whose calls are repeated where a signal cut them short, as where the
/// process was stopped and goes on. The client's time begins anew then. Its bytes are those of the
/// device below.
#[derive(Drop)]
pub struct Retrying<'t, D: Drop> {
    device: D,
    last: &'t mut LastCall,
}

impl<'t, D: Drop> Retrying<'t, D> {
    /// A side over this device, whose last call is noted.
    pub fn new(device: D, last: &'t mut LastCall) -> Self
        ensures { result.device ≡ device }
    {
        Retrying { device, last }
    }
}

/// Whether a signal cut a call short.
fn is_cut_short<T>(outcome: &io::Result<T>) -> bool
    ensures whole { OnOk outcome.now (result ≡ false) }
    ensures cut { IfErr outcome.now (λ error. IsTrue result ↔ (error_kind error ≡ ErrorKind.Interrupted)) }
{
    match outcome {
        Ok(_) => false,
        Err(error) => error.kind() == ErrorKind::Interrupted,
    }
}

impl<R: Read + Drop> Read for Retrying<'_, R> {
    ghost remaining = { λ s. R.remaining s.device };

    fn read(&mut self, buf: &mut [u8]) -> io::Result<usize> {
        for _ in 0..u64::MAX {
            let outcome = self.device.read(buf);
            if !is_cut_short(&outcome) {
                self.last.note(&outcome);
                return outcome;
            }
        }
        Err(io::Error::from(ErrorKind::Interrupted))
    }
}

impl<W: Write + Drop> Write for Retrying<'_, W> {
    ghost contents = { λ s. W.contents s.device };

    fn write(&mut self, buf: &[u8]) -> io::Result<usize> {
        for _ in 0..u64::MAX {
            let outcome = self.device.write(buf);
            if !is_cut_short(&outcome) {
                self.last.note(&outcome);
                return outcome;
            }
        }
        Err(io::Error::from(ErrorKind::Interrupted))
    }

    fn flush(&mut self) -> io::Result<()> {
        Ok(())
    }
}
