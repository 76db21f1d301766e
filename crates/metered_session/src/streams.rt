//! One session, within a purse that others draw on too.
ghost use Rattle.std.specs.Prelude.{◌≡◌, ◌≢◌, ◌++◌, List, Err};
ghost use Rattle.step_budget.specs.Drawing.{Draws};
ghost use Rattle.step_purse.specs.Histories.{own_calls};
ghost use Rattle.step_purse.specs.Passes.{IsPassOf};
ghost use Rattle.step_purse.specs.declared.dealings.Dealing.{Dealing};
ghost use Rattle.session.specs.Talk.{MayAskWhenAnswered, Outcome};
ghost use Rattle.metered_session.specs.Limits.{IsWithin, Meters, unbounded};
ghost use Rattle.metered_session.specs.Metering.{told_steps, spent_by};

use crate::limits::Limits;
use crate::meter::Meter;
use session::{End, ServeFault, Session};
use session_log::{Note, Watch};
use std::sync::Wait;
use std::thread::Threads;
use step_budget::Wallet;
use step_purse::{Pass, Purse};
use wire::{Asked, Sink};

/// What a session leaves.
#[derive(Drop)]
pub struct Served {
    /// The pass that it was given.
    pub pass: Pass,
    /// How it ended.
    pub outcome: Result<End, ServeFault>,
    /// How many commands were taken. No contract speaks of it.
    pub commands: u64,
    /// How many steps its jobs spent, or the largest number there is, where they spent more.
    pub spent: u64,
}

/// What is served: a session, its pass, and within which limits it may draw on the purse;
/// and where it is noted what it has reserved and spent, if anywhere.
#[derive(Drop)]
pub struct Given<'w> {
    pub session: Session,
    pub pass: Pass,
    pub limits: Limits,
    pub watch: Option<Watch<'w>>,
}

/// Serves one session within a purse that others draw on too, by a pass of it, which is handed
/// back, and within limits of its own. The calls of the purse that stand behind those of the
/// session are what the pass gained, in order. At no point has the session spent and reserved more
/// than its limits say.
///
/// The outcome is an error where a device failed, or more reads were needed than this session
/// may make. On each end and each fault every reservation that is still held is settled with
/// 0.
pub fn serve_within<I: Asked<O>, O: Sink, H: Threads + Wait>(
    rt: &H,
    given: Given<'_>,
    source: &mut I,
    sink: &mut O,
    purse: &Purse,
) -> Served
    requires own { IsPassOf purse.now given.pass }
    requires within { IsWithin (record { pass = given.pass; spent = 0; limits = given.limits }) }
    requires asked { MayAskWhenAnswered I.may_ask given.session.workers (I.state source.old) (O.state sink.old) }
    ensures said { Outcome Meters given.entry.session
        (record {
          budget = record { pass = given.entry.pass; spent = 0; limits = given.entry.limits };
          source = I.state source.old;
          sink = O.state sink.old;
        })
        (record {
          budget = record { pass = result.pass; spent = result.spent; limits = given.entry.limits };
          source = I.state source.new;
          sink = O.state sink.new;
        }) result.outcome }
    ensures own { IsPassOf purse.now result.pass }
    ensures owed { result.pass.known.owes ≡ given.entry.pass.known.owes }
    ensures begun { result.outcome ≢ Err ServeFault.Memory }
    ensures within { IsWithin (record { pass = result.pass; spent = result.spent; limits = given.entry.limits }) }
    ensures spent { (ds : List Dealing) → own_calls result.pass.known ≡ own_calls given.entry.pass.known ++ ds →
        result.spent ≡ told_steps (spent_by ds) }
{
    let Given {
        session,
        pass,
        limits,
        watch,
    } = given;
    let mut meter = Meter::new(Wallet::new(purse, pass), limits, watch);
    let (outcome, commands) = session.serve_counting(rt, source, sink, &mut meter);
    if let Some(watch) = &watch {
        watch.note(rt, Note::Took(commands));
    }
    let spent = meter.spent();
    Served {
        pass: meter.into_pass(),
        outcome,
        commands,
        spent,
    }
}

/// As `serve_pass`, where it is noted what the session does, if it is.
///
/// # Errors
///
/// As those of `serve_pass`.
pub fn serve_unlimited<I: Asked<O>, O: Sink, H: Threads + Wait>(
    rt: &H,
    given: Given<'_>,
    source: &mut I,
    sink: &mut O,
    purse: &Purse,
) -> Served
    requires own { IsPassOf purse.now given.pass }
    requires unlimited { given.limits ≡ unbounded }
    requires asked { MayAskWhenAnswered I.may_ask given.session.workers (I.state source.old) (O.state sink.old) }
    ensures said { Outcome Draws given.entry.session
        (record { budget = given.entry.pass; source = I.state source.old; sink = O.state sink.old })
        (record { budget = result.pass; source = I.state source.new; sink = O.state sink.new }) result.outcome }
    ensures own { IsPassOf purse.now result.pass }
    ensures owed { result.pass.known.owes ≡ given.entry.pass.known.owes }
    ensures begun { result.outcome ≢ Err ServeFault.Memory }
    ensures spent { (ds : List Dealing) → own_calls result.pass.known ≡ own_calls given.entry.pass.known ++ ds →
        result.spent ≡ told_steps (spent_by ds) }
{
    serve_within(rt, given, source, sink, purse)
}

/// Serves one session within a purse that others draw on too, by a pass of it, which is handed
/// back. What the session called of the purse is what the pass gained, in order.
///
/// The outcome is an error where a device failed, or more reads were needed than this session
/// may make. On each end and each fault every reservation that is still held is settled with
/// 0.
pub fn serve_pass<I: Asked<O>, O: Sink, H: Threads + Wait>(
    rt: &H,
    session: Session,
    source: &mut I,
    sink: &mut O,
    purse: &Purse,
    pass: Pass,
) -> Served
    requires own { IsPassOf purse.now pass }
    requires asked { MayAskWhenAnswered I.may_ask session.workers (I.state source.old) (O.state sink.old) }
    ensures said { Outcome Draws session
        (record { budget = pass; source = I.state source.old; sink = O.state sink.old })
        (record { budget = result.pass; source = I.state source.new; sink = O.state sink.new }) result.outcome }
    ensures own { IsPassOf purse.now result.pass }
    ensures owed { result.pass.known.owes ≡ pass.known.owes }
    ensures begun { result.outcome ≢ Err ServeFault.Memory }
    ensures spent { (ds : List Dealing) → own_calls result.pass.known ≡ own_calls pass.known ++ ds →
        result.spent ≡ told_steps (spent_by ds) }
{
    let given = Given {
        session,
        pass,
        limits: Limits::none(),
        watch: None,
    };
    serve_unlimited(rt, given, source, sink, purse)
}
