//! Standard input and output as the two sides of a session.
ghost use Rattle.std.specs.Prelude.{◌≡◌, ◌≤◌};

use libc::EINTR;
use libc::net::{POLLIN, POLLOUT, poll};
use libc::types::pollfd;
use session_log::Cause;
use std::io;
use std::io::{ErrorKind, Read, Write};

/// So many bytes fit into a pipe, or a socket, that is ready to be written to.
const PIECE: usize = 4096;

/// How long a call of a descriptor may wait.
#[derive(Clone, Copy)]
struct Patience {
    descriptor: i32,
    event: i16,
    idle: Option<u64>,
}

impl Patience {
    /// Waits until the descriptor is ready, for so many seconds at most. Without a number it
    /// doesn't wait here.
    ///
    /// # Errors
    ///
    /// The time is over, or the system can't wait for it.
    fn wait(self) -> Result<(), Cause> {
        let Some(seconds) = self.idle else {
            return Ok(());
        };
        // `poll` takes an i32 of milliseconds. The longest wait is then 24 days.
        let thousandths = seconds.saturating_mul(1000).min(i32::MAX as u64) as i32;
        // Without end, in effect. Written as a range because a loop without a bound needs the right
        // to wait.
        for _ in 0..u64::MAX {
            let mut asked = [pollfd {
                fd: self.descriptor,
                events: self.event,
                revents: 0,
            }];
            match poll(&mut asked, thousandths) {
                // No descriptor became ready in time.
                0 => return Err(Cause::Idle),
                ready if ready > 0 => return Ok(()),
                _ => {}
            }
            let code = os::errno();
            // A signal interrupted the wait, which starts anew with its full time.
            if code != EINTR {
                return Err(Cause::System(code));
            }
        }
        Ok(())
    }
}

/// A standard stream as a side of a session: a call waits for so many seconds at most, if a number
/// is given, and the cause of the last one that failed is noted. Its bytes are those of its device.
#[derive(Drop)]
pub struct Side<'c, D: Drop> {
    device: D,
    patience: Patience,
    cause: &'c mut Option<Cause>,
}

impl<'c, D: Drop> Side<'c, D> {
    /// Standard input, which is read by this device.
    pub fn input(device: D, idle: Option<u64>, cause: &'c mut Option<Cause>) -> Self
        ensures { result.device ≡ device }
    {
        // Standard input is descriptor 0.
        let patience = Patience {
            descriptor: 0,
            event: POLLIN,
            idle,
        };
        Side {
            device,
            patience,
            cause,
        }
    }

    /// Standard output, which is written by this device.
    pub fn output(device: D, idle: Option<u64>, cause: &'c mut Option<Cause>) -> Self
        ensures { result.device ≡ device }
    {
        // Standard output is descriptor 1.
        let patience = Patience {
            descriptor: 1,
            event: POLLOUT,
            idle,
        };
        Side {
            device,
            patience,
            cause,
        }
    }

    /// Waits until the stream is ready. If it isn't in time, the cause is noted.
    fn wait(&mut self) -> io::Result<()>
        ensures { self.new.device ≡ self.old.device }
    {
        match self.patience.wait() {
            Ok(()) => Ok(()),
            Err(cause) => {
                *self.cause = Some(cause);
                // The session sees a failed call. Why it failed, `explain` reads from the cause.
                Err(io::Error::from(ErrorKind::TimedOut))
            }
        }
    }

    /// Notes the cause of a call that failed.
    fn note(&mut self, outcome: &io::Result<usize>)
        ensures { self.new.device ≡ self.old.device }
    {
        if let Err(error) = outcome {
            *self.cause = Some(Cause::of(error));
        }
    }
}

impl<R: Read + Drop> Read for Side<'_, R> {
    ghost remaining = { λ s. R.remaining s.device };

    fn read(&mut self, buf: &mut [u8]) -> io::Result<usize> {
        self.wait()?;
        let outcome = self.device.read(buf);
        self.note(&outcome);
        outcome
    }
}

impl<W: Write + Drop> Write for Side<'_, W> {
    ghost contents = { λ s. W.contents s.device };

    fn write(&mut self, buf: &[u8]) -> io::Result<usize> {
        self.wait()?;
        // With a time limit, no more than surely fits: a larger write could wait past it.
        let most = match self.patience.idle {
            Some(_) => PIECE.min(buf.len()),
            None => buf.len(),
        };
        let outcome = self.device.write(&buf[..most]);
        self.note(&outcome);
        outcome
    }

    fn flush(&mut self) -> io::Result<()> {
        // Nothing is buffered here.
        Ok(())
    }
}
