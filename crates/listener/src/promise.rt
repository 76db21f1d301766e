//! What the thread of a session promises.
ghost use Rattle.listener.specs.inner.Speaking.{IsServedBy};

use crate::server::ServerTerms;
use crate::sides::Attended;
use std::net::TcpStream;
use std::snapshot::Snapshot;
use std::thread::Promise;
use step_purse::{Pass, Purse};

/// What the thread of a session promises: that it serves this session over both sides of this
/// stream, by this pass of this purse, on these terms, and closes its account in the log, if there
/// is one.
#[derive(Drop)]
pub struct Attending {
    pub purse: Snapshot<Purse>,
    pub pass: Snapshot<Pass>,
    pub terms: ServerTerms,
    pub stream: Snapshot<TcpStream>,
    pub has_log: bool,
}

impl Promise<Attended> for Attending {
    ghost kept_by = { λ p attended. IsServedBy p.purse.value p.pass.value p.terms p.stream.value p.has_log attended };
}
