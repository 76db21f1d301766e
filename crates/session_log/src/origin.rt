//! Where the client of a session is.
ghost use Rattle.std.specs.Prelude.{Some};
ghost use Rattle.session_log.specs.Names.{origin_text};

use std::fmt;
use std::net::SocketAddr;

/// Where the client of a session is.
#[derive(Clone, Copy, Debug, PartialEq, Eq)]
pub enum Origin {
    /// At the other end of a connection, which has this address.
    Address(SocketAddr),
    /// At the standard streams of the process.
    Streams,
}

impl fmt::Display for Origin {
    ghost output = { λ o. Some (origin_text o) };

    fn fmt<W: fmt::Write>(&self, f: &mut fmt::Formatter<W>) -> fmt::Result {
        match self {
            Origin::Address(address) => write!(f, "{address}"),
            Origin::Streams => f.write_str("stdin"),
        }
    }
}
