//! What connections come in by.
ghost use Rattle.std.specs.Prelude.{◌≡◌, ◌+◌};
ghost use Rattle.wire.specs.Devices.{IsNewCount};
ghost use Rattle.listener.specs.Acceptors.{AcceptorState, after_accept, unused};

use crate::connection::{Started, TurnedAway};
use session_log::Cause;
use std::net::{OpenListener, SocketAddr, TcpStream};
use std::sync::ledger::{Blank, Ledger};
use thiserror::Error;
use wire::Count;

/// No connection could be accepted, for this cause.
#[derive(Clone, Copy, Debug, PartialEq, Eq, Error)]
#[error("accept failed: {cause}")]
pub struct AcceptFailed {
    pub cause: Cause,
}

/// A connection that was accepted, and where it comes from.
#[derive(Drop)]
pub struct Caller {
    pub stream: TcpStream,
    pub address: SocketAddr,
}

/// What connections come in by: calls of `accept`, those that failed, and what became of the
/// connections are counted, for contracts alone.
pub trait Acceptor {
    // the counts
    ghost state: { Self → AcceptorState };

    /// Waits for a connection.
    ///
    /// # Errors
    ///
    /// None could be accepted.
    fn accept(&mut self) -> Result<Caller, AcceptFailed>
        ensures { state self.new ≡ after_accept (state self.old) result };

    /// Counts a session that was started for a connection.
    fn note_started(&mut self, started: &Started)
        ensures { state self.new ≡ record (state self.old) { started = (state self.old).started + 1 } };

    /// Counts a client that was turned away.
    fn note_turned_away(&mut self, turned_away: &TurnedAway)
        ensures { state self.new ≡ record (state self.old) { turned_away = (state self.old).turned_away + 1 } };
}

/// An acceptor over any listener.
#[derive(Drop)]
pub struct FromListener<
    'l,
    N: OpenListener<Stream = TcpStream>,
    C: Ledger,
    F: Ledger,
    S: Ledger,
    T: Ledger,
> {
    listener: &'l N,
    accepted: Count<C>,
    failures: Count<F>,
    started: Count<S>,
    turned_away: Count<T>,
}

impl<
    'l,
    N: OpenListener<Stream = TcpStream>,
    C: Ledger,
    F: Ledger,
    S: Ledger,
    T: Ledger,
> FromListener<'l, N, C, F, S, T> {
    /// An acceptor by this listener. The blanks are new ledgers of at least one part
    /// (`Blank::new(1)`), and the types `C`, `F`, `S` and `T` stand for them.
    pub fn new(listener: &'l N, blanks: (Blank, Blank, Blank, Blank)) -> Self
        requires calls { IsNewCount blanks.0 C.name C.parts × IsNewCount blanks.1 F.name F.parts }
        requires fates { IsNewCount blanks.2 S.name S.parts × IsNewCount blanks.3 T.name T.parts }
        ensures { ⟦<FromListener<'l, N, C, F, S, T> as Acceptor>⟧.state result ≡ unused }
    {
        let (accepted, failures, started, turned_away) = blanks;
        FromListener {
            listener,
            accepted: Count::new(accepted),
            failures: Count::new(failures),
            started: Count::new(started),
            turned_away: Count::new(turned_away),
        }
    }
}

impl<'l, N: OpenListener<Stream = TcpStream>, C: Ledger, F: Ledger, S: Ledger, T: Ledger> Acceptor
    for FromListener<'l, N, C, F, S, T> {
    ghost state = { λ s. record {
      accepted = s.accepted;
      failures = s.failures;
      started = s.started;
      turned_away = s.turned_away;
    } };

    fn accept(&mut self) -> Result<Caller, AcceptFailed> {
        match self.listener.accept() {
            Ok((stream, address)) => {
                self.accepted.tick();
                Ok(Caller { stream, address })
            }
            Err(error) => {
                self.failures.tick();
                Err(AcceptFailed {
                    cause: Cause::of(&error),
                })
            }
        }
    }

    fn note_started(&mut self, started: &Started) {
        let _ = started;
        self.started.tick();
    }

    fn note_turned_away(&mut self, turned_away: &TurnedAway) {
        let _ = turned_away;
        self.turned_away.tick();
    }
}
