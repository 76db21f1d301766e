//! A side of a connection whose session lasts for a time, and whose client has to send at a rate.
ghost use Rattle.std.specs.Prelude.{◌≡◌};

use crate::patience::{Arrival, Bound, Patience};
use session_log::Cut;
use std::io;
use std::io::{ErrorKind, Read, Write};
use std::net::TcpStream;
use std::sync::{Mutex, Wait};
use std::time::{Clock, Duration, Instant};

/// What a session has waited for: the command that arrives, how long its client has taken for
/// replies when its time was over, and which bound its last call had.
#[derive(Clone, Copy)]
struct Waited {
    arrival: Arrival,
    late: u64,
    cut: Cut,
}

/// The time of a session, which the two sides of its connection share.
#[derive(Drop)]
pub struct Timing {
    began: Option<Instant>,
    patience: Patience,
    waited: Mutex<Waited>,
}

/// How many thousandths of a second have gone since a moment; 0 where the clock can't be read.
fn since<R: Clock>(rt: &R, moment: Option<Instant>) -> u64 {
    match moment.and_then(|moment| moment.elapsed(rt).ok()) {
        Some(time) => time
            .as_secs()
            .saturating_mul(1000)
            .saturating_add(time.subsec_millis() as u64),
        None => 0,
    }
}

impl Timing {
    /// That of a session that begins now.
    pub fn new<R: Clock>(rt: &R, patience: Patience) -> Self {
        Timing {
            began: Instant::now(rt).ok(),
            patience,
            waited: Mutex::new(Waited {
                arrival: Arrival::none(),
                late: 0,
                cut: Cut::Idle,
            }),
        }
    }

    /// Why the last call was given up, if it waited for as long as it may.
    pub fn cut<R: Wait>(&self, rt: &R) -> Cut {
        self.waited.lock(rt).cut
    }
}

/// What bounds the calls of a connection.
#[derive(Drop)]
pub struct Timer<'t, R> {
    rt: &'t R,
    stream: &'t TcpStream,
    timing: &'t Timing,
}

impl<'t, R: Wait + Clock> Timer<'t, R> {
    /// That of a connection, unless only single calls are bounded, which the connection does
    /// itself.
    pub fn of(rt: &'t R, stream: &'t TcpStream, timing: &'t Timing) -> Option<Self> {
        if timing.patience.is_plain() {
            return None;
        }
        Some(Timer { rt, stream, timing })
    }

    /// How long the session has lasted.
    fn lasted(&self) -> u64 {
        since(self.rt, self.timing.began)
    }

    /// For how long a call may wait, by its bound, which is noted.
    ///
    /// # Errors
    ///
    /// The time is over.
    fn longest(&self, bound: Option<Bound>) -> io::Result<Option<Duration>> {
        let Some(Bound { left, cut }) = bound else {
            return Ok(None);
        };
        self.timing.waited.lock(self.rt).cut = cut;
        if left == 0 {
            return Err(io::Error::from(ErrorKind::WouldBlock));
        }
        Ok(Some(Duration::from_millis(left)))
    }

    /// Lets the next read wait for as long as it may, and tells when it begins.
    ///
    /// # Errors
    ///
    /// The time is over, or the system refuses it.
    fn before_read(&self) -> io::Result<Option<Instant>> {
        let arrival = self.timing.waited.lock(self.rt).arrival;
        let bound = self.timing.patience.to_read(self.lasted(), arrival);
        self.stream.set_read_timeout(self.longest(bound)?)?;
        Ok(Instant::now(self.rt).ok())
    }

    /// Notes what a read gave that began then.
    fn after_read(&self, began: Option<Instant>, outcome: &io::Result<usize>) {
        let count = match outcome {
            Ok(count) => *count as u64,
            Err(_) => 0,
        };
        let time = since(self.rt, began);
        let mut waited = self.timing.waited.lock(self.rt);
        waited.arrival = waited.arrival.and(count, time);
    }

    /// Lets the next write wait for as long as it may, and tells when it begins.
    ///
    /// # Errors
    ///
    /// The time is over, or the system refuses it.
    fn before_write(&self) -> io::Result<Option<Instant>> {
        let late = self.timing.waited.lock(self.rt).late;
        let bound = self.timing.patience.to_write(self.lasted(), late);
        self.stream.set_write_timeout(self.longest(bound)?)?;
        Ok(Instant::now(self.rt).ok())
    }

    /// Notes that a write ended which began then: no command is under way any more, and what it
    /// took past the time of the session counts.
    fn after_write(&self, began: Option<Instant>) {
        let time = since(self.rt, began);
        let over = self.timing.patience.over(self.lasted());
        let mut waited = self.timing.waited.lock(self.rt);
        waited.arrival = Arrival::none();
        waited.late = waited.late.saturating_add(time.min(over));
    }
}

/// A side of a connection whose calls are bounded, where there is a timer. Its bytes are those of
/// the device below.
#[derive(Drop)]
pub struct Timed<'t, D: Drop, R> {
    device: D,
    timer: Option<Timer<'t, R>>,
}

impl<'t, D: Drop, R: Wait + Clock> Timed<'t, D, R> {
    /// A side over this device.
    pub fn new(device: D, timer: Option<Timer<'t, R>>) -> Self
        ensures { result.device ≡ device }
    {
        Timed { device, timer }
    }
}

impl<D: Read + Drop, R: Wait + Clock> Read for Timed<'_, D, R> {
    ghost remaining = { λ s. D.remaining s.device };

    fn read(&mut self, buf: &mut [u8]) -> io::Result<usize> {
        let Some(timer) = &self.timer else {
            return self.device.read(buf);
        };
        let began = timer.before_read()?;
        let outcome = self.device.read(buf);
        timer.after_read(began, &outcome);
        outcome
    }
}

impl<D: Write + Drop, R: Wait + Clock> Write for Timed<'_, D, R> {
    ghost contents = { λ s. D.contents s.device };

    fn write(&mut self, buf: &[u8]) -> io::Result<usize> {
        let Some(timer) = &self.timer else {
            return self.device.write(buf);
        };
        let began = timer.before_write()?;
        let outcome = self.device.write(buf);
        timer.after_write(began);
        outcome
    }

    fn flush(&mut self) -> io::Result<()> {
        Ok(())
    }
}
