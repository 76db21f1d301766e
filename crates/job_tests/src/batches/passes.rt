//! Sessions in threads that share a purse, of which one's batch is refused memory.
//!
//! Run this also with each allocation refused in turn, by `rt try --test --fail-alloc N` for N from
//! 1 on: what is asked for at the start is asked for once more, and then the test passes whichever
//! allocation was refused.
ghost use Rattle.std.specs.Prelude.{◌≡◌, [], IfOk};
ghost use Rattle.std.specs.Thread.{IsSync};
ghost use Rattle.step_purse.specs.Passes.{IsPassOf};
ghost use Rattle.step_purse.specs.Histories.{newcomer};
ghost use Rattle.step_purse.specs.Shares.{whole};

use super::increments;
use job_plan::Plan;
use job_runner::{BatchAnswer, BatchFault, Open, run_batch};
use std::alloc::{AllocError, Global};
use std::process::Abort;
use std::sync::Wait;
use std::test::Fail;
use std::thread::{Threads, join};
use step_purse::{Pass, Purse, Reply};

/// The steps of a batch, whether it came to its end or broke off.
fn steps_of(answer: &Result<BatchAnswer, BatchFault>) -> u64 {
    match answer {
        Ok(answer) => match answer.results.get(0) {
            Some(result) => result.steps,
            None => 0,
        },
        Err(fault) => fault.spent,
    }
}

/// What a session did: its pass, the steps that its batch took, and whether the batch came to its
/// end.
#[derive(Drop)]
struct Dealt {
    pass: Pass,
    spent: u64,
    whole: bool,
}

/// A session: it reserves the price of its job, runs it on up to two workers, and settles the price
/// with the steps that were taken.
fn deal<H: Threads + Wait + Abort>(
    rt: &H,
    alloc: Global,
    purse: &Purse,
    pass: Pass,
    plan: &Plan,
) -> Dealt
    requires { IsPassOf purse.now pass }
    ensures { IsPassOf purse.now result.pass }
{
    let mut pass = pass;
    let Reply::Took(taken) = purse.reserve(rt, &mut pass, 1800) else {
        panic!(rt; "not enough")
    };
    let answer = run_batch(rt, alloc, plan, 2, &Open);
    let spent = steps_of(&answer);
    assert!(rt; spent <= taken);
    purse.settle(rt, &mut pass, taken, spent);
    Dealt {
        pass,
        spent,
        whole: answer.is_ok(),
    }
}

/// Two sessions at once.
fn deal_both<H: Threads + Wait + Abort + Sync>(
    rt: &H,
    alloc: Global,
    purse: &Purse,
    passes: (Pass, Pass),
    plan: &Plan,
) -> (Dealt, Dealt)
    requires { IsPassOf purse.now passes.0 × IsPassOf purse.now passes.1 }
    ensures { IsPassOf purse.now result.0.pass × IsPassOf purse.now result.1.pass }
{
    let (first, second) = passes;
    join(
        rt,
        move || -> Dealt
            requires { IsSync H.row × IsPassOf purse.now first }
            ensures { IsPassOf purse.entry.now result.pass }
        { deal(rt, alloc, purse, first, plan) },
        move || -> Dealt
            requires { IsSync H.row × IsPassOf purse.now second }
            ensures { IsPassOf purse.entry.now result.pass }
        { deal(rt, alloc, purse, second, plan) },
    )
}

/// A plan and a purse of just the prices of two such plans.
fn open_purse(rt: &impl Abort, alloc: Global) -> Result<(Plan, Purse, Pass), AllocError>
    ensures own { IfOk result (λ r. IsPassOf r.1 r.2) }
    ensures whole { IfOk result (λ r. r.2.known ≡ newcomer [] whole) }
{
    let plan = increments(rt, alloc, 600)?;
    let (purse, pass) = Purse::open(alloc, 3600)?;
    Ok((plan, purse, pass))
}

/// The same, asked for once more where memory was refused.
fn open_purse_again(rt: &impl Abort, alloc: Global) -> Result<(Plan, Purse, Pass), AllocError>
    ensures own { IfOk result (λ r. IsPassOf r.1 r.2) }
    ensures whole { IfOk result (λ r. r.2.known ≡ newcomer [] whole) }
{
    match open_purse(rt, alloc) {
        Ok(opened) => Ok(opened),
        Err(AllocError) => open_purse(rt, alloc),
    }
}

#[test]
fn two_batches_at_once_on_one_purse(rt: HostRuntime) -> Result<(), Fail> {
    let (plan, purse, pass) = open_purse_again(&rt, rt.alloc())?;
    let passes = purse.split(&rt, pass);
    let (first, second) = deal_both(&rt, rt.alloc(), &purse, passes, &plan);
    assert!(rt; first.whole || second.whole);
    assert!(rt; first.spent % 3 == 0 && (!first.whole || first.spent == 1800));
    assert!(rt; second.spent % 3 == 0 && (!second.whole || second.spent == 1800));
    let spent = first.spent.wrapping_add(second.spent);
    let mut both = purse.join(&rt, first.pass, second.pass);
    assert_eq!(rt; both.owed(), 0);
    let totals = purse.totals(&rt, &mut both);
    assert_eq!(rt; totals.reserved, 0);
    assert_eq!(rt; totals.spent, spent);
    assert_eq!(rt; totals.left.wrapping_add(spent), 3600);
    Ok(())
}
