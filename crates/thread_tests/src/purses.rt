//! Passes that share a purse, and the purse of one thread.
ghost use Rattle.std.specs.Prelude.{◌≡◌, ◌≤◌, ◌+◌, ◌<◌, ◌^◌};
ghost use Rattle.std.specs.Thread.{IsSync};
ghost use Rattle.std.specs.Prelude.{IfOk};
ghost use Rattle.step_purse.specs.Passes.{IsPassOf};
ghost use Rattle.step_purse.specs.declared.dealings.Reply.TheVariants.{Took};

use std::alloc::{AllocError, Global};
use std::sync::Wait;
use std::test::Fail;
use std::thread::{Threads, join};
use step_purse::{GREATEST_ALLOWANCE, Pass, PlainPurse, Purse, Reply, Totals};

// A pass that nobody else shares is proved to answer as a purse of one thread: of 12 that were just opened, 12 are taken.
fn reserve_all<R: Wait>(rt: &R, alloc: Global) -> Result<Reply, AllocError>
    ensures { IfOk result (λ reply. reply ≡ Took 12) }
{
    let (purse, mut pass) = Purse::open(alloc, 12)?;
    Ok(purse.reserve(rt, &mut pass, 12))
}

#[test]
fn all_of_a_new_purse_is_taken(rt: HostRuntime) -> Result<(), Fail> {
    assert_eq!(rt; reserve_all(&rt, rt.alloc())?, Reply::Took(12));
    Ok(())
}

// What two passes owe is proved to add up to what is reserved, once they are joined.
fn reserve_by_two<R: Wait>(rt: &R, alloc: Global, amount: u64) -> Result<(u64, Totals), AllocError>
    ensures { IfOk result (λ r. r.1.reserved ≡ r.0) }
{
    let (purse, pass) = Purse::open(alloc, 12)?;
    let (mut first, mut second) = purse.split(rt, pass);
    let _reply = purse.reserve(rt, &mut first, amount);
    let _reply = purse.reserve(rt, &mut second, 4);
    let mut both = purse.join(rt, first, second);
    let owed = both.owed();
    Ok((owed, purse.totals(rt, &mut both)))
}

#[test]
fn joined_passes_owe_what_is_reserved(rt: HostRuntime) -> Result<(), Fail> {
    let (owed, totals) = reserve_by_two(&rt, rt.alloc(), 5)?;
    assert_eq!(rt; owed, 9);
    let want = Totals {
        left: 3,
        reserved: 9,
        spent: 0,
    };
    assert_eq!(rt; totals, want);
    Ok(())
}

#[test]
fn one_budget_for_both_passes(rt: HostRuntime) -> Result<(), Fail> {
    let (purse, pass) = Purse::open(rt.alloc(), 12)?;
    let (mut first, mut second) = purse.split(&rt, pass);
    assert_eq!(rt; purse.reserve(&rt, &mut first, 12), Reply::Took(12));
    assert_eq!(rt; purse.reserve(&rt, &mut second, 1), Reply::NotEnough(0));
    assert_eq!(rt; first.owed(), 12);
    assert_eq!(rt; second.owed(), 0);
    Ok(())
}

#[test]
fn a_joined_pass_settles_the_calls_of_both(rt: HostRuntime) -> Result<(), Fail> {
    let (purse, pass) = Purse::open(rt.alloc(), 12)?;
    let (mut first, mut second) = purse.split(&rt, pass);
    assert_eq!(rt; purse.reserve(&rt, &mut first, 5), Reply::Took(5));
    assert_eq!(rt; purse.reserve(&rt, &mut second, 7), Reply::Took(7));
    let mut both = purse.join(&rt, first, second);
    assert_eq!(rt; both.owed(), 12);
    purse.settle(&rt, &mut both, 7, 3);
    purse.settle(&rt, &mut both, 5, 0);
    assert_eq!(rt; both.owed(), 0);
    let want = Totals {
        left: 9,
        reserved: 0,
        spent: 3,
    };
    assert_eq!(rt; purse.totals(&rt, &mut both), want);
    Ok(())
}

// Reserves and settles many times, and spends one step of some of the reservations. The number is of the steps spent.
fn work<R: Wait>(rt: &R, purse: &Purse, pass: Pass, rounds: u64) -> (Pass, u64)
    requires { IsPassOf purse.now pass }
    ensures { IsPassOf purse.now result.0 × (result.1 ≤ rounds) }
{
    let mut pass = pass;
    let mut spent = 0;
    for round in 0..rounds {
        if let Reply::Took(taken) = purse.reserve(rt, &mut pass, 1 + round % 7) {
            let used = if round % 4096 == 4095 { 1 } else { 0 };
            purse.settle(rt, &mut pass, taken, used);
            spent += used;
        }
    }
    (pass, spent)
}

// Two threads at once.
fn pair<R: Threads + Wait + Sync>(
    rt: &R,
    purse: &Purse,
    passes: (Pass, Pass),
    rounds: u64,
) -> ((Pass, u64), (Pass, u64))
    requires { IsPassOf purse.now passes.0 × IsPassOf purse.now passes.1 }
    ensures first { IsPassOf purse.now result.0.0 × (result.0.1 ≤ rounds) }
    ensures second { IsPassOf purse.now result.1.0 × (result.1.1 ≤ rounds) }
{
    let (first, second) = passes;
    join(
        rt,
        move || -> (Pass, u64)
            requires { IsSync R.row × IsPassOf purse.now first }
            ensures { IsPassOf purse.entry.now result.0 × (result.1 ≤ rounds) }
        { work(rt, purse, first, rounds) },
        move || -> (Pass, u64)
            requires { IsSync R.row × IsPassOf purse.now second }
            ensures { IsPassOf purse.entry.now result.0 × (result.1 ≤ rounds) }
        { work(rt, purse, second, rounds) },
    )
}

// Four threads at once.
fn four<R: Threads + Wait + Sync>(
    rt: &R,
    purse: &Purse,
    front: (Pass, Pass),
    back: (Pass, Pass),
    rounds: u64,
) -> (((Pass, u64), (Pass, u64)), ((Pass, u64), (Pass, u64)))
    requires front { IsPassOf purse.now front.0 × IsPassOf purse.now front.1 }
    requires back { IsPassOf purse.now back.0 × IsPassOf purse.now back.1 }
    ensures first { IsPassOf purse.now result.0.0.0 × (result.0.0.1 ≤ rounds) }
    ensures second { IsPassOf purse.now result.0.1.0 × (result.0.1.1 ≤ rounds) }
    ensures third { IsPassOf purse.now result.1.0.0 × (result.1.0.1 ≤ rounds) }
    ensures fourth { IsPassOf purse.now result.1.1.0 × (result.1.1.1 ≤ rounds) }
{
    join(
        rt,
        move || -> ((Pass, u64), (Pass, u64))
            requires { IsSync R.row × IsPassOf purse.now front.0 × IsPassOf purse.now front.1 }
            ensures first { IsPassOf purse.entry.now result.0.0 × (result.0.1 ≤ rounds) }
            ensures second { IsPassOf purse.entry.now result.1.0 × (result.1.1 ≤ rounds) }
        { pair(rt, purse, front, rounds) },
        move || -> ((Pass, u64), (Pass, u64))
            requires { IsSync R.row × IsPassOf purse.now back.0 × IsPassOf purse.now back.1 }
            ensures first { IsPassOf purse.entry.now result.0.0 × (result.0.1 ≤ rounds) }
            ensures second { IsPassOf purse.entry.now result.1.0 × (result.1.1 ≤ rounds) }
        { pair(rt, purse, back, rounds) },
    )
}

#[test]
fn four_threads_lose_no_step(rt: HostRuntime) -> Result<(), Fail> {
    let (purse, pass) = Purse::open(rt.alloc(), 12)?;
    let (pass, second) = purse.split(&rt, pass);
    let (pass, third) = purse.split(&rt, pass);
    let (first, fourth) = purse.split(&rt, pass);
    let (front, back) = four(&rt, &purse, (first, second), (third, fourth), 40_000);
    let ((first, first_spent), (second, second_spent)) = front;
    let ((third, third_spent), (fourth, fourth_spent)) = back;
    let front = purse.join(&rt, first, second);
    let back = purse.join(&rt, third, fourth);
    let mut all = purse.join(&rt, front, back);
    let spent = first_spent + second_spent + third_spent + fourth_spent;
    let totals = purse.totals(&rt, &mut all);
    assert_eq!(rt; all.owed(), 0);
    assert_eq!(rt; totals.reserved, 0);
    assert_eq!(rt; totals.spent, spent);
    assert_eq!(rt; totals.left + spent, 12);
    assert_eq!(rt;
        purse.reserve(&rt, &mut all, totals.left),
        Reply::Took(totals.left)
    );
    Ok(())
}

#[test]
fn the_least_and_the_greatest_allowance(rt: HostRuntime) -> Result<(), Fail> {
    let (empty, mut pass) = Purse::open(rt.alloc(), 0)?;
    assert_eq!(rt; empty.reserve(&rt, &mut pass, 0), Reply::Took(0));
    assert_eq!(rt; empty.reserve(&rt, &mut pass, 1), Reply::NotEnough(0));
    let (full, mut pass) = Purse::open(rt.alloc(), GREATEST_ALLOWANCE)?;
    assert_eq!(rt;
        full.reserve(&rt, &mut pass, u64::MAX),
        Reply::NotEnough(1 << 62)
    );
    assert_eq!(rt; full.reserve(&rt, &mut pass, 1 << 62), Reply::Took(1 << 62));
    assert_eq!(rt; full.reserve(&rt, &mut pass, 1), Reply::NotEnough(0));
    assert_eq!(rt; pass.owed(), 1 << 62);
    full.settle(&rt, &mut pass, 1 << 62, (1 << 62) - 1);
    let want = Totals {
        left: 1,
        reserved: 0,
        spent: (1 << 62) - 1,
    };
    assert_eq!(rt; full.totals(&rt, &mut pass), want);
    Ok(())
}

#[test]
fn the_purse_of_one_thread(rt: HostRuntime) {
    let mut purse = PlainPurse::open(12);
    assert_eq!(rt; purse.reserve(13), Reply::NotEnough(12));
    assert_eq!(rt; purse.reserve(12), Reply::Took(12));
    assert_eq!(rt; purse.reserve(1), Reply::NotEnough(0));
    purse.settle(7, 3);
    purse.settle(5, 0);
    let want = Totals {
        left: 9,
        reserved: 0,
        spent: 3,
    };
    assert_eq!(rt; purse.totals(), want);
}

// With one allocation refused, whichever it is, one of two purses is opened.
#[test]
fn a_refused_opening_refuses_no_other(rt: HostRuntime) -> Result<(), Fail> {
    let first = Purse::open(rt.alloc(), 12);
    let second = Purse::open(rt.alloc(), 12);
    assert!(rt; first.is_ok() || second.is_ok());
    for opened in [first, second] {
        if let Ok((purse, mut pass)) = opened {
            assert_eq!(rt; purse.reserve(&rt, &mut pass, 5), Reply::Took(5));
        }
    }
    Ok(())
}
