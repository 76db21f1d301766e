//! What the program asks of the system.
use std::net::{Net, TcpListener, TcpStream};
use std::time::Clock;

/// What the program asks of the system beside threads and standard input: sockets, a clock, memory,
/// standard output and standard error.
///
/// The runtime has threads only in `main`, so no `impl` of this trait can promise them, and each
/// function asks for them itself.
pub trait System: Clock
    + Print
    + Eprint
    + Net<Listener = TcpListener, Stream = TcpStream>
    + Sync
    + AllocGlobal {}

impl System for HostRuntime {}
