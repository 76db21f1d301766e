//! Sessions over the loopback.
use crate::client::{ask, hears, is_over, listen, quit, say, serve_beside};
use crate::talk::{PRODUCT, SET_UP, SETUP};
use listener::ListenFault;
use std::io;
use std::io::Read;
use std::net::{Net, OpenListener, Shutdown, SocketAddr, TcpListener, TcpStream};
use std::sync::atomic::{AtomicU64, Ordering};
use std::test::Fail;

/// A batch of one session, and a second one that sees its reservation, is refused what is not left,
/// and sees what it spent.
fn two_on_one_purse<N: Net<Listener = TcpListener, Stream = TcpStream>>(
    rt: &N,
    at: SocketAddr,
) -> io::Result<bool> {
    let one = TcpStream::connect(rt, at)?;
    let two = TcpStream::connect(rt, at)?;
    Ok(
        ask(&one, SETUP, SET_UP)?
            && ask(&two, SETUP, SET_UP)?
            && ask(&one, PRODUCT, "ok queued 1 12\n")?
            && ask(&two, "budget\n", "ok budget 0 12 0\n")?
            && ask(&two, PRODUCT, "no S8 12 0\n")?
            && ask(&one, "run\n", "ok run 1 9\nC 1 1 1 9\n")?
            && ask(&two, "budget\n", "ok budget 3 0 9\n")?
            && quit(&one)?
            && quit(&two)?,
    )
}

#[test]
fn two_sessions_share_a_purse(rt: HostRuntime) -> Result<(), Fail> {
    let (listener, at) = listen(&rt)?;
    let (served, said) = serve_beside(&rt, &listener, Some(2), || two_on_one_purse(&rt, at))?;
    assert!(rt; said?);
    assert_eq!(rt; served, Ok(()));
    Ok(())
}

/// Sixteen clients that hold their seats, one that is turned away, and one that comes after one of
/// the sixteen left.
fn full_house<N: Net<Listener = TcpListener, Stream = TcpStream> + AllocGlobal>(
    rt: &N,
    at: SocketAddr,
) -> io::Result<bool> {
    let mut seated = Vec::with_capacity(rt.alloc(), 16)?;
    for _ in 0..16 {
        let stream = TcpStream::connect(rt, at)?;
        if !ask(&stream, "budget\n", "ok budget 12 0 0\n")? {
            return Ok(false);
        }
        seated.push(stream)?;
    }
    let late = TcpStream::connect(rt, at)?;
    let is_turned_away = hears(&late, "no busy\n")? && is_over(&late)?;
    let Some(first) = seated.pop() else {
        return Ok(false);
    };
    let has_left = quit(&first)?;
    let next = TcpStream::connect(rt, at)?;
    Ok(is_turned_away && has_left && quit(&next)?)
}

#[test]
fn the_seventeenth_is_turned_away(rt: HostRuntime) -> Result<(), Fail> {
    let (listener, at) = listen(&rt)?;
    let (served, said) = serve_beside(&rt, &listener, Some(17), || full_house(&rt, at))?;
    assert!(rt; said?);
    assert_eq!(rt; served, Ok(()));
    Ok(())
}

/// A client that says all at once and then nothing more, and reads to the end.
fn half_closed<N: Net<Listener = TcpListener, Stream = TcpStream>>(
    rt: &N,
    at: SocketAddr,
) -> io::Result<bool> {
    let stream = TcpStream::connect(rt, at)?;
    say(&stream, "budget\nbudget")?;
    stream.shutdown(Shutdown::Write)?;
    Ok(hears(&stream, "ok budget 12 0 0\nok budget 12 0 0\n")? && is_over(&stream)?)
}

/// A client that holds a reservation and goes with a reply unread, which resets its connection.
/// Then a half-closed one, which finds all steps left, and so came behind the end of the first.
fn reset_and_next<N: Net<Listener = TcpListener, Stream = TcpStream>>(
    rt: &N,
    at: SocketAddr,
) -> io::Result<bool> {
    let witness = TcpStream::connect(rt, at)?;
    let stream = TcpStream::connect(rt, at)?;
    let is_reserved = ask(&stream, SETUP, SET_UP)? && ask(&stream, PRODUCT, "ok queued 1 12\n")?;
    say(&stream, "budget\n")?;
    let mut first = [0u8; 1];
    let has_reply = stream.peek(&mut first)? == 1;
    drop(stream);
    for _ in 0..1_000_000 {
        say(&witness, "budget\n")?;
        let mut buffer = [0u8; 17];
        let mut from = &witness;
        from.read_exact(&mut buffer)?;
        if &buffer == b"ok budget 12 0 0\n" {
            return Ok(is_reserved && has_reply && quit(&witness)? && half_closed(rt, at)?);
        }
    }
    Ok(false)
}

#[test]
fn a_reset_ends_its_own_session(rt: HostRuntime) -> Result<(), Fail> {
    let (listener, at) = listen(&rt)?;
    let (served, said) = serve_beside(&rt, &listener, Some(3), || reset_and_next(&rt, at))?;
    assert!(rt; said?);
    assert_eq!(rt; served, Ok(()));
    Ok(())
}

/// A listener that fails after so many connections.
#[derive(Drop)]
struct Failing {
    inner: TcpListener,
    left: AtomicU64,
}

impl OpenListener for Failing {
    type Stream = TcpStream;

    fn accept(&self) -> io::Result<(TcpStream, SocketAddr)> {
        if self.left.fetch_sub(1, Ordering::SeqCst) == 0 {
            return Err(io::Error::from(io::ErrorKind::Other));
        }
        self.inner.accept()
    }
}

#[test]
fn a_failed_accept_ends_all(rt: HostRuntime) -> Result<(), Fail> {
    let (listener, at) = listen(&rt)?;
    let failing = Failing {
        inner: listener,
        left: AtomicU64::new(1),
    };
    let (served, said) = serve_beside(&rt, &failing, None, || half_closed(&rt, at))?;
    assert!(rt; said?);
    assert!(rt; matches!(served, Err(ListenFault::Network(_))));
    Ok(())
}
