//! A listener whose connections are served.
ghost use Rattle.std.specs.Prelude.{◌≡◌, ◌≤◌, ◌+◌, OnOk, OnErr, IfOk};
ghost use Rattle.wire.specs.Devices.{IsNewCount, failures_in};
ghost use Rattle.step_purse.specs.Passes.{IsPassOf};
ghost use Rattle.listener.specs.Acceptors.{IsAccounted};
ghost use Rattle.listener.specs.Listening.{Listened};
ghost use Rattle.listener.specs.Serving.{IsPlain, IsServiceOf};
ghost use Rattle.listener.specs.inner.Starting.{IsReady};

use crate::acceptor::{AcceptFailed, Acceptor, FromListener};
use crate::connection::{Admitted, admit};
use crate::seats::SEATS;
use crate::server::{ServerState, ServerTerms};
use crate::service::Service;
use metered_session::Limits;
use session::Session;
use session_log::{Journal, ListenFault};
use std::alloc::Global;
use std::marker::Brand;
use std::net::{OpenListener, TcpStream};
use std::sync::Wait;
use std::sync::ledger::{Blank, Ledger};
use std::thread;
use std::thread::{Scope, Threads};
use std::time::Clock;
use step_purse::{Pass, Purse};

/// What the next session is started with: a pass, of which its own is split off, and its memory, if
/// there was memory for it.
#[derive(Drop)]
struct Ready {
    pass: Pass,
    session: Option<Session>,
}

/// Accepts connections until a session was started for one. Answers with what the one after it is
/// started.
///
/// # Errors
///
/// No connection could be accepted.
#[tactic(auto, using(metered_session::proofs::Metering::begins_within))]
fn start_next<
    's,
    'a,
    E: Acceptor + Drop,
    R: Threads + Wait + Clock + Sync,
    L: Ledger + Send + Sync,
>(
    scope: &Scope<'s, &'a ()>,
    rt: &'a R,
    server: &'a ServerState<'a, L>,
    acceptor: &mut E,
    ready: Ready,
) -> Result<Ready, AcceptFailed>
    requires ready { IsReady server.now.purse.now server.now.terms.workers ready }
    ensures ready { IfOk result (λ next. IsReady server.now.purse.now server.now.terms.workers next) }
    ensures started { OnOk result ((E.state acceptor.new).started ≡ (E.state acceptor.old).started + 1) }
    ensures none { OnErr result ((E.state acceptor.new).started ≡ (E.state acceptor.old).started) }
    ensures accounted { IsAccounted (E.state acceptor.old) (E.state acceptor.new) }
    ensures failures { (E.state acceptor.new).failures ≡ (E.state acceptor.old).failures + failures_in result }
{
    let Ready {
        mut pass,
        mut session,
    } = ready;
    for _ in rt.forever() {
        let caller = match acceptor.accept() {
            Ok(caller) => caller,
            Err(refused) => return Err(refused),
        };
        let (remaining, given) = server.purse.split(rt, pass);
        pass = remaining;
        let admitted = admit(scope, rt, server, session, given, caller);
        session = server.new_session();
        match admitted {
            Admitted::Started(started) => {
                acceptor.note_started(&started);
                return Ok(Ready { pass, session });
            }
            Admitted::TurnedAway(turned_away) => acceptor.note_turned_away(&turned_away),
        }
    }
    unreachable!()
}

/// Starts so many sessions, and answers the pass that is left.
///
/// # Errors
///
/// A connection could not be accepted before.
fn start_some<
    's,
    'a,
    E: Acceptor + Drop,
    R: Threads + Wait + Clock + Sync,
    L: Ledger + Send + Sync,
>(
    scope: &Scope<'s, &'a ()>,
    rt: &'a R,
    server: &'a ServerState<'a, L>,
    acceptor: &mut E,
    ready: Ready,
    count: u64,
) -> Result<Pass, AcceptFailed>
    requires ready { IsReady server.now.purse.now server.now.terms.workers ready }
    ensures own { IfOk result (λ pass. IsPassOf server.now.purse.now pass) }
    ensures started { OnOk result ((E.state acceptor.new).started ≡ (E.state acceptor.old).started + count) }
    ensures accounted { IsAccounted (E.state acceptor.old) (E.state acceptor.new) }
    ensures failures { (E.state acceptor.new).failures ≡ (E.state acceptor.old).failures + failures_in result }
{
    let mut ready = ready;
    for _ in 0..count {
        ready = start_next(scope, rt, server, acceptor, ready)?;
    }
    Ok(ready.pass)
}

/// Starts sessions until a connection can't be accepted, and tells that fault.
fn start_all<'s, 'a, E: Acceptor + Drop, R: Threads + Wait + Clock + Sync, L: Ledger + Send + Sync>(
    scope: &Scope<'s, &'a ()>,
    rt: &'a R,
    server: &'a ServerState<'a, L>,
    acceptor: &mut E,
    ready: Ready,
) -> AcceptFailed
    requires { IsReady server.now.purse.now server.now.terms.workers ready }
    ensures accounted { IsAccounted (E.state acceptor.old) (E.state acceptor.new) }
    ensures failures { (E.state acceptor.new).failures ≡ (E.state acceptor.old).failures + 1 }
{
    let mut ready = ready;
    for _ in rt.forever() {
        match start_next(scope, rt, server, acceptor, ready) {
            Ok(next) => ready = next,
            Err(failed) => return failed,
        }
    }
    unreachable!()
}

/// Starts as many sessions as the terms tell, or as many as come.
///
/// # Errors
///
/// A connection could not be accepted before.
fn start<'s, 'a, E: Acceptor + Drop, R: Threads + Wait + Clock + Sync, L: Ledger + Send + Sync>(
    scope: &Scope<'s, &'a ()>,
    rt: &'a R,
    server: &'a ServerState<'a, L>,
    acceptor: &mut E,
    ready: Ready,
) -> Result<Service, ListenFault>
    requires { IsReady server.now.purse.now server.now.terms.workers ready }
    ensures { Listened server.now.purse.now server.now.terms (E.state acceptor.old) (E.state acceptor.new) result }
{
    match server.terms.sessions {
        Some(count) => match start_some(scope, rt, server, acceptor, ready, count) {
            Ok(pass) => Ok(Service::of(acceptor, server.terms, pass, count)),
            Err(failed) => Err(ListenFault::Network(failed.cause)),
        },
        None => {
            let failed = start_all(scope, rt, server, acceptor, ready);
            Err(ListenFault::Network(failed.cause))
        }
    }
}

/// Serves the connections of an acceptor, and hands it back: up to sixteen sessions at once, each
/// in a thread of its own, with a pass of the server's purse. A connection for which there is no
/// seat, no memory or no thread is turned away and doesn't count. It ends once all sessions have
/// ended, with what was served.
///
/// # Errors
///
/// As those of `serve_listener`, beside the acceptor.
pub fn serve_acceptor<
    'a,
    E: Acceptor + Drop,
    R: Threads + Wait + Clock + Sync,
    L: Ledger + Send + Sync,
>(
    rt: &'a R,
    server: &'a ServerState<'a, L>,
    acceptor: E,
    pass: Pass,
) -> (E, Result<Service, ListenFault>)
    requires own { IsPassOf server.now.purse.now pass }
    ensures { Listened server.now.purse.now server.now.terms (E.state acceptor) (E.state result.0) result.1 }
{
    let session = server.new_session();
    if session.is_none() {
        return (acceptor, Err(ListenFault::Memory));
    }
    let ready = Ready { pass, session };
    thread::scope(
        thread::scope_env(),
        rt,
        move |scope| -> (E, Result<Service, ListenFault>)
            requires ready { IsReady server.now.purse.now server.now.terms.workers ready }
            ensures ended { Listened server.entry.now.purse.now server.entry.now.terms (E.state acceptor) (E.state result.0) result.1 }
        {
            let mut acceptor = acceptor;
            let ended = start(scope, rt, server, &mut acceptor, ready);
            (acceptor, ended)
        },
    )
}

/// What sessions draw on: memory, a purse, and a pass of it.
#[derive(Drop)]
pub struct Supply<'p> {
    pub alloc: Global,
    pub purse: &'p Purse,
    pub pass: Pass,
}

/// As `serve_on_terms`, with the counts by ledgers of the caller's: of seats, and those of the
/// acceptor.
fn serve_counted<
    N: OpenListener<Stream = TcpStream>,
    R: Threads + Wait + Clock + Sync,
    L: Ledger + Send + Sync,
    C: Ledger,
    F: Ledger,
    S: Ledger,
    T: Ledger,
>(
    rt: &R,
    listener: &N,
    supply: Supply<'_>,
    terms: ServerTerms,
    journal: Option<&Journal>,
    seats: Blank,
    counts: (Blank, Blank, Blank, Blank),
) -> Result<Service, ListenFault>
    requires supply { IsPassOf supply.purse.now supply.pass }
    requires seats { (seats.name ≡ L.name) × (seats.parts ≡ L.parts) × (seats.parts ≡ 16) }
    requires calls { IsNewCount counts.0 C.name C.parts × IsNewCount counts.1 F.name F.parts }
    requires fates { IsNewCount counts.2 S.name S.parts × IsNewCount counts.3 T.name T.parts }
    ensures { IfOk result (λ service. IsServiceOf supply.entry.purse.now terms service) }
{
    let Supply { alloc, purse, pass } = supply;
    let server = ServerState::<L>::new(alloc, purse, terms, journal, seats);
    let acceptor = FromListener::<N, C, F, S, T>::new(listener, counts);
    let (_acceptor, ended) = serve_acceptor(rt, &server, acceptor, pass);
    ended
}

/// Serves the connections of a listener: up to sixteen sessions at once, each in a thread of its
/// own, with a pass of one purse. A further connection, and one for which there is no memory or no
/// thread, gets `no busy` and is closed. With a number of sessions it ends once so many were
/// started and have ended.
///
/// # Errors
///
/// `Memory` where the memory of the first session was refused, before any connection was accepted.
/// `Network` where a connection could not be accepted; sessions that run go on to their ends first.
pub fn serve_listener<N: OpenListener<Stream = TcpStream>, R: Threads + Wait + Clock + Sync>(
    rt: &R,
    alloc: Global,
    listener: &N,
    purse: &Purse,
    pass: Pass,
    workers: u64,
    sessions: Option<u64>,
) -> Result<Service, ListenFault>
    requires workers { (1 ≤ workers) × (workers ≤ 64) }
    requires own { IsPassOf purse.now pass }
    ensures { IfOk result (λ service. IsServiceOf purse.now service.terms service × IsPlain workers sessions service.terms) }
{
    let supply = Supply { alloc, purse, pass };
    let terms = ServerTerms {
        workers,
        sessions,
        idle: None,
        session_seconds: None,
        min_rate: None,
        limits: Limits::none(),
    };
    serve_on_terms(rt, listener, supply, terms, None)
}

/// As `serve_listener`, on terms that may also bound how long a session waits and what it may take,
/// and with a log or without.
///
/// # Errors
///
/// As those of `serve_listener`.
pub fn serve_on_terms<N: OpenListener<Stream = TcpStream>, R: Threads + Wait + Clock + Sync>(
    rt: &R,
    listener: &N,
    supply: Supply<'_>,
    terms: ServerTerms,
    journal: Option<&Journal>,
) -> Result<Service, ListenFault>
    requires own { IsPassOf supply.purse.now supply.pass }
    ensures { IfOk result (λ service. IsServiceOf supply.entry.purse.now terms service) }
{
    let counts = (Blank::new(1), Blank::new(1), Blank::new(1), Blank::new(1));
    serve_counted::<N, R, Brand, Brand, Brand, Brand, Brand>(
        rt,
        listener,
        supply,
        terms,
        journal,
        Blank::new(SEATS),
        counts,
    )
}
