//! A session over the two sides of a connection.
ghost use Rattle.std.specs.Prelude.{◌≡◌};
ghost use Rattle.wire.specs.Devices.{IsNewCount};
ghost use Rattle.step_purse.specs.Passes.{IsPassOf};
ghost use Rattle.session.specs.Sessions.{full_session};
ghost use Rattle.session.specs.Talk.{MayAskWhenAnswered, Outcome};
ghost use Rattle.metered_session.specs.Limits.{IsWithin, Meters};
ghost use Rattle.listener.specs.inner.Speaking.{IsGivenBy, IsServedOver, beginning};

use crate::server::ServerState;
use crate::side::Side;
use metered_session::{Given, Served, serve_within};
use session::{End, ServeFault};
use session_log::{ClosedAccount, Cut};
use std::io::{Read, Write};
use std::marker::Brand;
use std::net::TcpStream;
use std::snapshot::Snapshot;
use std::sync::Wait;
use std::sync::ledger::{Blank, Ledger};
use std::thread::Threads;
use step_purse::Pass;
use wire::{Asked, FromRead, Sink, ToWrite};

/// How a session went that was served over the two sides of a connection: its end and its steps,
/// and what a log has of these; and for contracts alone the stream, the pass that it was given, and
/// the one that was left. Only `serve_over` makes one, so whoever has one knows that it was.
#[derive(Drop)]
pub struct Attended {
    outcome: Result<End, ServeFault>,
    spent: u64,
    /// By which bound a read or a write was given up, if one was.
    cut: Option<Cut>,
    /// What the log has of it, if there is one, once its account is closed.
    account: Option<ClosedAccount>,
    stream: Snapshot<TcpStream>,
    given: Snapshot<Pass>,
    left: Snapshot<Pass>,
}

impl Attended {
    /// How the session ended.
    pub fn outcome(&self) -> Result<End, ServeFault>
        ensures { result ≡ self.now.outcome }
    {
        self.outcome
    }

    /// How many steps its jobs spent, or the largest number there is, where they spent more.
    pub fn spent(&self) -> u64
        ensures { result ≡ self.now.spent }
    {
        self.spent
    }

    /// The same, with the bound by which a read or a write was given up, and what the log has of
    /// it.
    pub fn accounted(self, cut: Option<Cut>, account: Option<ClosedAccount>) -> Attended
        ensures { result ≡ record self { cut = cut; account = account } }
    {
        Attended {
            cut,
            account,
            ..self
        }
    }
}

/// Serves a session of a server over these devices: by a pass of its purse, in the memory of each
/// of its sessions, and within the limits of its terms.
fn serve_sides<I: Asked<O>, O: Sink, H: Threads + Wait, L: Ledger>(
    rt: &H,
    server: &ServerState<'_, L>,
    given: Given<'_>,
    source: &mut I,
    sink: &mut O,
) -> Served
    requires given { IsGivenBy server.now.purse.now server.now.terms given }
    requires asked { MayAskWhenAnswered I.may_ask server.now.terms.workers (I.state source.old) (O.state sink.old) }
    ensures said { Outcome Meters (full_session server.now.terms.workers)
        (record {
          budget = beginning given.entry.pass server.now.terms.limits;
          source = I.state source.old;
          sink = O.state sink.old;
        })
        (record {
          budget = record { pass = result.pass; spent = result.spent; limits = server.now.terms.limits };
          source = I.state source.new;
          sink = O.state sink.new;
        }) result.outcome }
    ensures own { IsPassOf server.now.purse.now result.pass }
    ensures owed { result.pass.known.owes ≡ given.entry.pass.known.owes }
    ensures within { IsWithin (record { pass = result.pass; spent = result.spent; limits = server.now.terms.limits }) }
{
    serve_within(rt, given, source, sink, server.purse)
}

/// As `serve_sides`, over a reader and a writer whose calls are counted by ledgers of the caller's.
fn serve_counted<
    R: Read + Drop,
    W: Write + Drop,
    H: Threads + Wait,
    L: Ledger,
    A: Ledger,
    B: Ledger,
    C: Ledger,
    D: Ledger,
>(
    rt: &H,
    server: &ServerState<'_, L>,
    given: Given<'_>,
    reader: R,
    writer: W,
    blanks: (Blank, Blank, Blank, Blank),
) -> Served
    requires given { IsGivenBy server.now.purse.now server.now.terms given }
    requires reads { IsNewCount blanks.0 A.name A.parts × IsNewCount blanks.1 B.name B.parts }
    requires writes { IsNewCount blanks.2 C.name C.parts × IsNewCount blanks.3 D.name D.parts }
    ensures { IsServedOver server.now.purse.now given.entry.pass server.now.terms (R.remaining reader) (W.contents writer) result.pass
        result.outcome result.spent }
{
    let (reads, failed_reads, writes, failed_writes) = blanks;
    let mut source = FromRead::<R, A, B>::new(reader, reads, failed_reads);
    let mut sink = ToWrite::<W, C, D>::new(writer, writes, failed_writes);
    serve_sides(rt, server, given, &mut source, &mut sink)
}

/// As `serve_sides`, over a reader and a writer that are the two sides of one connection, and which
/// end with the session.
pub fn serve_over<R: Read + Side + Drop, W: Write + Side + Drop, H: Threads + Wait, L: Ledger>(
    rt: &H,
    server: &ServerState<'_, L>,
    given: Given<'_>,
    stream: &TcpStream,
    reader: R,
    writer: W,
) -> Attended
    requires given { IsGivenBy server.now.purse.now server.now.terms given }
    requires sides { (R.stream reader ≡ stream.now) × (W.stream writer ≡ stream.now) }
    ensures served { IsServedOver server.now.purse.now given.entry.pass server.now.terms (R.remaining reader) (W.contents writer)
        result.left.value result.outcome result.spent }
    ensures stream { result.stream.value ≡ stream.now }
    ensures given { result.given.value ≡ given.entry.pass }
{
    let pass = Snapshot::of(&given.pass);
    let blanks = (Blank::new(1), Blank::new(1), Blank::new(1), Blank::new(1));
    let served = serve_counted::<R, W, H, L, Brand, Brand, Brand, Brand>(
        rt, server, given, reader, writer, blanks,
    );
    Attended {
        outcome: served.outcome,
        spent: served.spent,
        cut: None,
        account: None,
        stream: Snapshot::of(stream),
        given: pass,
        left: Snapshot::of(&served.pass),
    }
}
