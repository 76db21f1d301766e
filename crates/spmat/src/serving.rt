//! Sessions over TCP.
ghost use Rattle.std.specs.Prelude.{◌≡◌, ◌≤◌, ◌^◌, IfOk, IfErr, OnOk, OnErr, ℕ, List};
ghost use Rattle.std.specs.Io.KnownBytes.{Appends};
ghost use Rattle.wire.specs.Prefixes.{IsPrefixOf};
ghost use Rattle.step_purse.specs.Passes.{IsPassOf};
ghost use Rattle.listener.specs.Serving.{IsServiceOf};
ghost use Rattle.command_line.specs.InRange.{IsInRange};
ghost use Rattle.spmat.specs.inner.Address.{IsLocal};
ghost use Rattle.spmat.specs.inner.Reporting.{IsReported, IsReportedFor, listening_line};
ghost use Rattle.spmat.specs.inner.Serving.{IsOfServer, IsOpened, IsServedAs, IsServerOf, MayNotOpen, MayRefuse};

use command_line::{Failure, Settings, VERSION};
use itoa::Buffer;
use listener::{ListenFault, SEATS, ServerTerms, Service, Supply, serve_on_terms};
use metered_session::Limits;
use session_log::{Cause, CloseReason, Journal, LogFormat, Origin};
use std::alloc::{AllocError, Global};
use std::net::{IpAddr, Ipv4Addr, Net, SocketAddr, TcpListener, TcpStream};
use std::sync::Wait;
use std::thread::{Threads, join};
use std::time::Clock;
use step_purse::{Pass, Purse};
use wire::{Sink, put};

/// How a log is written: in which format, and every how many seconds it reports the sessions that
/// run, if it does.
#[derive(Clone, Copy, Debug, PartialEq, Eq)]
pub struct Log {
    pub format: LogFormat,
    pub every: Option<u64>,
}

/// A server that listens: its listener with the address that it was bound to, its purse with the
/// one pass, the terms of its sessions, and the journal of their log, if there is one.
#[derive(Drop)]
pub struct Server {
    listener: TcpListener,
    address: SocketAddr,
    purse: Purse,
    pass: Pass,
    terms: ServerTerms,
    journal: Option<Journal>,
}

/// What a server has served, at the address that it was bound to. Only `serve` makes one.
#[derive(Drop)]
pub struct Sessions {
    address: SocketAddr,
    service: Service,
}

/// A purse of `steps`, with its one pass.
fn prepare(alloc: Global, steps: u64) -> Result<(Purse, Pass), AllocError>
    requires { steps ≤ 2 ^ 62 }
    ensures own { IfOk result (λ p. IsPassOf p.0 p.1) }
    ensures allowance { IfOk result (λ p. p.0.allowance ≡ steps) }
{
    Purse::open(alloc, steps)
}

/// The loopback address of this machine, with this port.
fn local_address(port: u16) -> SocketAddr
    ensures { IsLocal port result }
{
    // Loopback alone: the server has no authentication. A gateway or sshd decides who gets here.
    SocketAddr::new(IpAddr::V4(Ipv4Addr::new(127, 0, 0, 1)), port)
}

/// The line that reports a server of this port.
///
/// # Errors
///
/// There is no memory for it.
fn listening_line(alloc: Global, port: u16) -> Result<Vec<u8>, AllocError>
    ensures { IfOk result (λ line. line.items ≡ listening_line port) }
{
    let mut buffer = Buffer::new();
    let mut line = Vec::from_slice(alloc, b"listening ")?;
    line.extend_from_slice(buffer.format(port).as_bytes())?;
    line.extend_from_slice(b"\n")?;
    Ok(line)
}

/// Listens on a port of this machine, and returns the address.
///
/// # Errors
///
/// The system refuses it.
fn listen<H>(rt: &H, port: u16) -> Result<(TcpListener, SocketAddr), Cause>
where
    H: Net<Listener = TcpListener, Stream = TcpStream>,
    ensures { IfOk result (λ r. IsLocal port r.1) }
{
    let address = local_address(port);
    match TcpListener::bind(rt, address) {
        Ok(listener) => Ok((listener, address)),
        Err(error) => Err(Cause::of(&error)),
    }
}

/// The log that the words of the command line ask for: by its flag, or by an option on its form.
pub fn log_of(is_asked: bool, format: Option<LogFormat>, every: Option<u64>) -> Option<Log> {
    // An option on the form of a log would be useless without one.
    if is_asked || format.is_some() || every.is_some() {
        let format = match format {
            Some(format) => format,
            None => LogFormat::Text,
        };
        Some(Log { format, every })
    } else {
        None
    }
}

/// The journal of a log, if there is to be one.
fn journal_of(alloc: Global, log: Option<Log>) -> Result<Option<Journal>, AllocError> {
    match log {
        Some(Log { format, every }) => Ok(Some(Journal::new(
            alloc,
            SEATS as usize,
            format,
            every,
        )?)),
        None => Ok(None),
    }
}

/// A listener, and the address that it was bound to.
#[derive(Clone, Copy)]
struct Listening<'l> {
    listener: &'l TcpListener,
    address: SocketAddr,
}

/// As `serve_on_terms`, with a log that another thread writes to standard error meanwhile: first
/// that the server opens, then the events of its sessions. At the end it gets why the server
/// closed. If no thread can be started, all is written at the end.
fn serve_logged<H>(
    rt: &H,
    journal: &Journal,
    listening: Listening<'_>,
    purse: &Purse,
    pass: Pass,
    terms: ServerTerms,
) -> Result<Service, ListenFault>
where
    H: Threads + Wait + Clock + Sync + Eprint + AllocGlobal,
    requires own { IsPassOf purse.now pass }
    ensures { IfOk result (λ service. IsServiceOf purse.now terms service) }
{
    let Listening { listener, address } = listening;
    // One half serves the sessions. The other stays here, to read the totals when they have ended.
    let (mut own, given) = purse.split(rt, pass);
    // From the purse, so that the log has what it really opened with.
    let steps = purse.totals(rt, &mut own).left;
    let served = move || -> Result<Service, ListenFault>
        requires own { IsPassOf purse.now given }
        ensures { IfOk result (λ service. IsServiceOf purse.entry.now terms service) }
    {
        let supply = Supply {
            alloc: rt.alloc(),
            purse,
            pass: given,
        };
        let served = serve_on_terms(rt, listener, supply, terms, Some(journal));
        // The writing thread waits for more until the journal ends.
        journal.end(rt);
        served
    };
    let written = || {
        // By the writing thread, so that the listener doesn't wait for standard error.
        journal.write_opening(rt, Origin::Address(address), VERSION, steps, terms.logged());
        journal.write_out(rt);
    };
    let ((), served) = join(rt, written, served);
    // After all sessions have handed back their passes, so the totals are final.
    let totals = purse.totals(rt, &mut own);
    let reason = match &served {
        Ok(_) => CloseReason::Sessions,
        Err(fault) => fault.reason(),
    };
    journal.write_closing(rt, Origin::Address(address), reason, totals);
    served
}

/// The server that settings of `serve` ask for, which listens on a port of this machine and has
/// reported it on the sink.
///
/// # Errors
///
/// In this order: there is no memory for the purse, or the log; the port can't be bound; the line
/// `listening P` can't be written.
pub fn open_server<O: Sink, H>(rt: &H, settings: Settings, sink: &mut O) -> Result<Server, Failure>
where
    H: Net<Listener = TcpListener, Stream = TcpStream> + AllocGlobal,
    requires range { IsInRange settings }
    requires serve { IsOfServer settings }
    ensures opened { IfOk result (λ server. IsServerOf settings server) }
    ensures refused { IfErr result (λ failure. MayNotOpen settings failure) }
    ensures reported { IsReportedFor settings (O.state sink.old) (O.state sink.new) result }
{
    match settings {
        Settings::Serve {
            port,
            steps,
            workers,
            sessions,
            idle,
            session_seconds,
            min_rate,
            session_steps,
            session_reserve,
            log,
            log_format,
            log_every,
        } => {
            let terms = ServerTerms {
                workers,
                sessions,
                idle,
                session_seconds,
                min_rate,
                limits: Limits {
                    steps: session_steps,
                    reserve: session_reserve,
                },
            };
            open_on(
                rt,
                port,
                steps,
                terms,
                log_of(log, log_format, log_every),
                sink,
            )
        }
        // `requires serve`: only settings of `serve` get here.
        Settings::Run { .. } => unreachable!(),
    }
}

/// The same, on these terms.
fn open_on<O: Sink, H>(
    rt: &H,
    port: u16,
    steps: u64,
    terms: ServerTerms,
    log: Option<Log>,
    sink: &mut O,
) -> Result<Server, Failure>
where
    H: Net<Listener = TcpListener, Stream = TcpStream> + AllocGlobal,
    requires { steps ≤ 2 ^ 62 }
    ensures opened { IfOk result (λ server. IsOpened port steps server) }
    ensures terms { IfOk result (λ server. server.terms ≡ terms) }
    ensures refused { IfErr result (λ failure. MayRefuse port failure) }
    ensures reported { IsReported port (O.state sink.old) (O.state sink.new) result }
{
    // Memory, then the port, then the line: the order of the errors above.
    let Ok((purse, pass)) = prepare(rt.alloc(), steps) else {
        return Err(Failure::Memory);
    };
    let Ok(journal) = journal_of(rt.alloc(), log) else {
        return Err(Failure::Memory);
    };
    let Ok(line) = listening_line(rt.alloc(), port) else {
        return Err(Failure::Memory);
    };
    let (listener, address) = match listen(rt, port) {
        Ok(bound) => bound,
        Err(cause) => return Err(Failure::Binding { port, cause }),
    };
    // Bound already, so a client that reads this line can connect.
    match put(sink, &line) {
        Ok(()) => {}
        // The device has noted the cause. `explain` adds it once it is dropped.
        Err(_) => return Err(Failure::Output(Cause::Unknown)),
    }
    Ok(Server {
        listener,
        address,
        purse,
        pass,
        terms,
        journal,
    })
}

/// Serves sessions until their number is reached, or no more connections are accepted. Answers what
/// was served.
///
/// # Errors
///
/// No more connections are accepted, or there was no memory for the first session.
pub fn serve<H>(rt: &H, server: Server) -> Result<Sessions, ListenFault>
where
    H: Threads + Wait + Clock + Sync + Eprint + AllocGlobal,
    requires own { IsPassOf server.purse server.pass }
    ensures { IfOk result (λ sessions. IsServedAs server sessions) }
{
    let Server {
        listener,
        address,
        purse,
        pass,
        terms,
        journal,
    } = server;
    let served = match &journal {
        Some(journal) => {
            let listening = Listening {
                listener: &listener,
                address,
            };
            serve_logged(rt, journal, listening, &purse, pass, terms)
        }
        None => {
            let supply = Supply {
                alloc: rt.alloc(),
                purse: &purse,
                pass,
            };
            serve_on_terms(rt, &listener, supply, terms, None)
        }
    };
    match served {
        Ok(service) => Ok(Sessions { address, service }),
        Err(fault) => Err(fault),
    }
}
