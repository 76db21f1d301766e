//! The sides of a connection, by its stream.
use crate::retrying::Retrying;
use crate::timed::Timed;
use session_log::{Noticing, Watching};
use std::net::TcpStream;

/// A side of a connection: what is read from it comes from that stream, or what is written to it
/// goes there.
pub trait Side {
    ghost use Rattle.std.specs.declared.net.tcp.TcpStream.{TcpStream};

    // the stream
    ghost stream: { Self → TcpStream };
}

impl Side for &TcpStream {
    ghost stream = { λ s. s.now };
}

impl<D: Side + Drop, R> Side for Timed<'_, D, R> {
    ghost stream = { λ s. D.stream s.device };
}

impl<D: Side + Drop> Side for Retrying<'_, D> {
    ghost stream = { λ s. D.stream s.device };
}

impl<D: Side + Drop, R> Side for Watching<'_, D, R> {
    ghost stream = { λ s. D.stream s.side };
}

impl<D: Side + Drop, R> Side for Noticing<'_, D, R> {
    ghost stream = { λ s. D.stream s.side };
}
