//! A client of the server, and the server beside it.
ghost use Rattle.std.specs.Prelude.{◌≡◌};
ghost use Rattle.step_purse.specs.Passes.{IsPassOf};

use listener::{ListenFault, serve_listener};
use std::alloc::AllocError;
use std::io;
use std::io::{Read, Write};
use std::net::{Ipv4Addr, Net, OpenListener, SocketAddr, TcpListener, TcpStream};
use std::sync::Wait;
use std::thread::{Threads, join};
use std::time::Clock;
use step_purse::Purse;

/// A listener on a free port of the loopback, and its address.
pub fn listen<N: Net<Listener = TcpListener, Stream = TcpStream>>(
    rt: &N,
) -> io::Result<(TcpListener, SocketAddr)> {
    let listener = TcpListener::bind(rt, SocketAddr::from((Ipv4Addr::LOCALHOST, 0)))?;
    let at = listener.local_addr()?;
    Ok((listener, at))
}

/// Sends a text.
pub fn say(stream: &TcpStream, text: &str) -> io::Result<()> {
    let mut to = stream;
    to.write_all(text.as_bytes())
}

/// Whether just this text comes next.
pub fn hears(stream: &TcpStream, text: &str) -> io::Result<bool> {
    let mut from = stream;
    let mut buffer = [0u8; 256];
    let length = text.len().min(256);
    from.read_exact(&mut buffer[..length])?;
    Ok(&buffer[..length] == text.as_bytes())
}

/// Whether nothing more comes.
pub fn is_over(stream: &TcpStream) -> io::Result<bool> {
    let mut from = stream;
    let mut buffer = [0u8; 256];
    Ok(from.read(&mut buffer)? == 0)
}

/// Sends a text, and says whether just this reply comes.
pub fn ask(stream: &TcpStream, text: &str, reply: &str) -> io::Result<bool> {
    say(stream, text)?;
    hears(stream, reply)
}

/// Ends a session by `quit`, and says whether that was the end of it.
pub fn quit(stream: &TcpStream) -> io::Result<bool> {
    Ok(ask(stream, "quit\n", "ok quit\n")? && is_over(stream)?)
}

/// Serves so many sessions over a purse of 12, each batch on two workers, beside a client, and says
/// how both ended.
pub fn serve_beside<
    N: OpenListener<Stream = TcpStream> + Sync,
    R: Threads + Wait + Clock + Sync + AllocGlobal,
    C: FnOnce() -> io::Result<bool>,
>(
    rt: &R,
    listener: &N,
    sessions: Option<u64>,
    client: C,
) -> Result<(Result<(), ListenFault>, io::Result<bool>), AllocError>
    requires { C.pre client }
{
    let (purse, pass) = Purse::open(rt.alloc(), 12)?;
    let purse = &purse;
    let server = move || -> Result<(), ListenFault>
        requires { IsPassOf purse.now pass }
    {
        match serve_listener(rt, rt.alloc(), listener, purse, pass, 2, sessions) {
            Ok(_) => Ok(()),
            Err(fault) => Err(fault),
        }
    };
    Ok(join(rt, server, client))
}
