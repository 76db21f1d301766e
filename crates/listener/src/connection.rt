//! One connection, from its start to its end.
ghost use Rattle.std.specs.Prelude.{◌≡◌, is_some, IfSome};
ghost use Rattle.step_purse.specs.Passes.{IsPassOf};
ghost use Rattle.session.specs.Sessions.{full_session};
ghost use Rattle.metered_session.specs.Limits.{IsWithin};
ghost use Rattle.listener.specs.inner.Admitting.{IsAdmitted};
ghost use Rattle.listener.specs.inner.Speaking.{IsAccounted, IsServedBy, beginning};

use crate::acceptor::Caller;
use crate::promise::Attending;
use crate::retrying::{LastCall, Retrying, set_idle};
use crate::seats::{Seat, take_seat};
use crate::server::ServerState;
use crate::sides::{Attended, serve_over};
use crate::timed::{Timed, Timer, Timing};
use metered_session::{Given, ending_of};
use session::Session;
use session_log::{Cut, Noticing, OpenAccount, Origin, Watching, open_account};
use std::io::{Read, Write};
use std::net::{Shutdown, TcpStream};
use std::snapshot::Snapshot;
use std::sync::Wait;
use std::sync::ledger::Ledger;
use std::thread::{PromisedHandle, Scope, Threads};
use std::time::Clock;
use step_purse::Pass;

/// How many reads of what a client has still sent are made before its connection is closed.
const LAST_READS: u64 = 64;

/// What a client is sent when no session can be started for it.
const NO_BUSY: &[u8] = b"no busy\n";

/// Ends a connection: tells the client that nothing more comes, and takes what it has sent already,
/// since the system takes back the last replies of a connection that is closed with something
/// unread. It never waits.
fn hang_up(stream: &TcpStream) {
    if stream.shutdown(Shutdown::Write).is_err() || stream.set_nonblocking(true).is_err() {
        return;
    }
    let mut buffer = [0u8; 4096];
    let mut from = stream;
    for _ in 0..LAST_READS {
        match from.read(&mut buffer) {
            Ok(0) | Err(_) => return,
            Ok(_) => {}
        }
    }
}

/// That a client was turned away. Only `turn_away` makes one.
#[derive(Drop)]
pub struct TurnedAway {
    bytes: u64,
}

/// Tells a client that there is no session for it, and ends its connection, where its stream can
/// still be had. Leaves a line for it in the log, if there is one.
fn turn_away<R: Wait + Clock, L: Ledger>(
    rt: &R,
    server: &ServerState<'_, L>,
    stream: Option<&TcpStream>,
    client: Origin,
) -> TurnedAway {
    if let Some(stream) = stream {
        let mut to = stream;
        let _ = to.write_all(NO_BUSY);
        hang_up(stream);
    }
    let bytes = NO_BUSY.len() as u64;
    if let Some(journal) = server.journal {
        journal.note_turned_away(rt, client, bytes);
    }
    TurnedAway { bytes }
}

/// Closes the account of a session that was served, if it has one: by its end, where a call that
/// failed may have waited for too long by this bound, and by its steps.
fn close_account<R: Wait + Clock>(
    rt: &R,
    account: Option<OpenAccount<'_>>,
    attended: Attended,
    cut: Option<Cut>,
    refused: u64,
) -> Attended
    ensures accounted { IsAccounted (is_some account.entry) result }
    ensures cut { result.cut ≡ cut }
    ensures session { (result.outcome ≡ attended.outcome) × (result.spent ≡ attended.spent) }
    ensures snapshots { (result.stream ≡ attended.stream) × (result.given ≡ attended.given)
        × (result.left ≡ attended.left) }
{
    let (outcome, spent) = (attended.outcome(), attended.spent());
    let closed = match account {
        Some(account) => Some(account.close(rt, ending_of(outcome, cut), spent, refused)),
        None => None,
    };
    attended.accounted(cut, closed)
}

/// This session from its start to its end, over both sides of its connection, in a thread of its
/// own, by this pass; what it leaves is answered. Its account in the log is closed and its seat is
/// free before its connection is closed, so that a client that saw the end finds it.
fn attend<'a, R: Threads + Wait + Clock, L: Ledger>(
    rt: &'a R,
    server: &'a ServerState<'a, L>,
    session: Session,
    pass: Pass,
    caller: Caller,
    seat: Seat<'a, R, L>,
) -> Attended
    requires own { IsPassOf server.now.purse.now pass }
    requires within { IsWithin (beginning pass server.now.terms.limits) }
    requires full { session ≡ full_session server.now.terms.workers }
    ensures { IsServedBy server.now.purse.now pass server.now.terms caller.stream (is_some server.now.journal) result }
{
    let Caller { stream, address } = caller;
    let account = open_account(rt, server.journal, Origin::Address(address));
    let watch = account.as_ref().map(|account| account.watch());
    let (mut read, mut wrote, mut refused) = (LastCall::none(), LastCall::none(), 0);
    let timing = Timing::new(rt, server.terms.patience());
    let incoming = Timed::new(&stream, Timer::of(rt, &stream, &timing));
    let outgoing = Timed::new(&stream, Timer::of(rt, &stream, &timing));
    let reader = Watching::new(Retrying::new(incoming, &mut read), rt, watch);
    let sending = Watching::new(Retrying::new(outgoing, &mut wrote), rt, watch);
    let writer = Noticing::new(sending, rt, account.as_ref(), &mut refused);
    let given = Given {
        session,
        pass,
        limits: server.terms.limits,
        watch,
    };
    let attended = serve_over(rt, server, given, &stream, reader, writer);
    let cut = if read.is_idle || wrote.is_idle {
        Some(timing.cut(rt))
    } else {
        None
    };
    let attended = close_account(rt, account, attended, cut, refused);
    drop(seat);
    hang_up(&stream);
    attended
}

/// A session that was started for a connection: its thread. Only `admit` makes one.
#[derive(Drop)]
pub struct Started {
    thread: PromisedHandle<Attended, Attending>,
}

/// What became of a connection.
#[derive(Drop)]
pub enum Admitted {
    /// A session was started for it.
    Started(Started),
    /// There was no memory, no seat or no thread for one.
    TurnedAway(TurnedAway),
}

/// Starts a session for a connection, or tells the client that there is none, where there is no
/// memory, no seat or no thread.
pub fn admit<'s, 'a, R: Threads + Wait + Clock + Sync, L: Ledger + Send + Sync>(
    scope: &Scope<'s, &'a ()>,
    rt: &'a R,
    server: &'a ServerState<'a, L>,
    session: Option<Session>,
    pass: Pass,
    caller: Caller,
) -> Admitted
    requires own { IsPassOf server.now.purse.now pass }
    requires within { IsWithin (beginning pass server.now.terms.limits) }
    requires full { IfSome session (λ r. r ≡ full_session server.now.terms.workers) }
    ensures { IsAdmitted server.now.purse.now pass server.now.terms caller.stream (is_some server.now.journal) result }
{
    let client = Origin::Address(caller.address);
    let _ = caller.stream.set_nodelay(true);
    if set_idle(&caller.stream, server.terms.idle).is_err() {
        let turned_away = turn_away(rt, server, Some(&caller.stream), client);
        return Admitted::TurnedAway(turned_away);
    }
    let (Some(session), Some(seat)) = (session, take_seat(rt, &server.seats)) else {
        let turned_away = turn_away(rt, server, Some(&caller.stream), client);
        return Admitted::TurnedAway(turned_away);
    };
    let second = caller.stream.try_clone();
    let promise = Attending {
        purse: Snapshot::of(server.purse),
        pass: Snapshot::of(&pass),
        terms: server.terms,
        stream: Snapshot::of(&caller.stream),
        has_log: server.journal.is_some(),
    };
    let attending = move || -> Attended
        requires own { IsPassOf server.now.purse.now pass }
        requires within { IsWithin (beginning pass server.now.terms.limits) }
        requires full { session ≡ full_session server.now.terms.workers }
        ensures { IsServedBy server.entry.now.purse.now pass server.entry.now.terms caller.stream (is_some server.entry.now.journal) result }
    { attend(rt, server, session, pass, caller, seat) };
    match scope.spawn_with(promise, attending) {
        Ok(thread) => Admitted::Started(Started { thread }),
        Err(refused) => {
            drop(refused);
            let second = second.ok();
            Admitted::TurnedAway(turn_away(rt, server, second.as_ref(), client))
        }
    }
}
