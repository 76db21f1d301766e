//! One session on two devices, with a purse of its own.
ghost use Rattle.std.specs.Prelude.{◌≡◌, [], None, Err, IfOk};
ghost use Rattle.command_line.specs.InRange.{HasRoom};
ghost use Rattle.step_purse.specs.Passes.{IsPassOf};
ghost use Rattle.step_purse.specs.Histories.{newcomer};
ghost use Rattle.step_purse.specs.Shares.{whole};
ghost use Rattle.session.specs.Sessions.{full_session};
ghost use Rattle.session.specs.Talk.{MayAskWhenAnswered};
ghost use Rattle.spmat.specs.inner.Running.{Ran};

use metered_session::{Given, Limits, serve_unlimited};
use session::{End, ServeFault, Session};
use session_log::{Cause, ClosedAccount, Watch};
use std::alloc::{AllocError, Global};
use std::sync::Wait;
use std::thread::Threads;
use step_purse::{Pass, Purse};
use wire::{Asked, Sink};

/// What a session works with: a purse, its one pass, and its memory.
#[derive(Drop)]
struct Prepared {
    purse: Purse,
    pass: Pass,
    session: Session,
}

/// How the one session of `run` went: its end and its steps, why a call of a device failed, if one
/// did, and what the log has of it, if there is one. Only `run` makes one, and `without_memory`.
#[derive(Drop)]
pub struct Spoken {
    outcome: Result<End, ServeFault>,
    spent: u64,
    cause: Option<Cause>,
    account: Option<ClosedAccount>,
}

impl Spoken {
    /// That of a session whose memory was refused: it spent nothing.
    pub fn without_memory() -> Self
        ensures { result ≡ record { outcome = Err ServeFault.Memory; spent = 0; cause = None; account = None } }
    {
        Spoken {
            outcome: Err(ServeFault::Memory),
            spent: 0,
            cause: None,
            account: None,
        }
    }

    /// How the session ended.
    pub fn outcome(&self) -> Result<End, ServeFault>
        ensures { result ≡ self.now.outcome }
    {
        self.outcome
    }

    /// How many steps its jobs spent, or the largest number there is, where they spent more.
    pub fn spent(&self) -> u64
        ensures { result ≡ self.now.spent }
    {
        self.spent
    }

    /// Why a call of a device failed, if one did.
    pub fn cause(&self) -> Option<Cause>
        ensures { result ≡ self.now.cause }
    {
        self.cause
    }

    /// The same, with a cause, and with what the log has of it.
    pub fn explained(self, cause: Option<Cause>, account: Option<ClosedAccount>) -> Self
        ensures { result ≡ record self { cause = cause; account = account } }
    {
        Spoken {
            cause,
            account,
            ..self
        }
    }
}

/// A purse of `steps`, and the memory of a session whose batches run on `workers`.
fn prepare(alloc: Global, steps: u64, workers: u64) -> Result<Prepared, AllocError>
    requires { HasRoom steps workers }
    ensures own { IfOk result (λ p. IsPassOf p.purse p.pass × (p.purse.allowance ≡ steps)) }
    ensures unused { IfOk result (λ p. p.pass.known ≡ newcomer [] whole) }
    ensures session { IfOk result (λ p. p.session ≡ full_session workers) }
{
    let (purse, pass) = Purse::open(alloc, steps)?;
    // All memory comes before the first read or write, so a refusal has no effect outside.
    let session = Session::new(alloc, workers)?;
    Ok(Prepared {
        purse,
        pass,
        session,
    })
}

/// Serves one session on these devices, with a purse of `steps`, of which nobody else has a pass.
/// Each batch runs on `workers`. If a watch is given, it observes what the session does.
///
/// The outcome is an error where there was no memory for the purse or the session, and then nothing
/// was read or written; where a device failed; or where more than 4,294,967,296 reads were needed.
pub fn run<I: Asked<O>, O: Sink, H: Threads + Wait + AllocGlobal>(
    rt: &H,
    source: &mut I,
    sink: &mut O,
    steps: u64,
    workers: u64,
    watch: Option<Watch<'_>>,
) -> Spoken
    requires capacity { HasRoom steps workers }
    requires asked { MayAskWhenAnswered I.may_ask workers (I.state source.old) (O.state sink.old) }
    ensures { Ran steps workers (record { source = I.state source.old; sink = O.state sink.old })
        (record { source = I.state source.new; sink = O.state sink.new }) result.spent result.outcome }
{
    let Ok(prepared) = prepare(rt.alloc(), steps, workers) else {
        return Spoken::without_memory();
    };
    let Prepared {
        purse,
        pass,
        session,
    } = prepared;
    let given = Given {
        session,
        pass,
        limits: Limits::none(),
        watch,
    };
    let served = serve_unlimited(rt, given, source, sink, &purse);
    Spoken {
        outcome: served.outcome,
        spent: served.spent,
        cause: None,
        account: None,
    }
}
