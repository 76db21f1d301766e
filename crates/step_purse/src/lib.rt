//! One budget of steps that all sessions share.
//!
//! A `Purse` is opened with an allowance and hands out passes. A pass reserves steps before work is
//! done, and settles them afterwards with what was spent. The contract is that the purse has one
//! legal history: all replies, whichever thread asked, are those of the purse of one thread
//! (`PlainPurse`) at their points of one history from the allowance. A pass that nobody else shares
//! is answered just as that purse would answer.
//!
//! Read `dealings` (calls and replies) and `specs/Plain.antt` (the purse of one thread, legal
//! histories) with `plain` first. Then read `views` with `specs/Shares.antt` and
//! `specs/Histories.antt` (what a pass knows), and `purse` with `specs/Passes.antt` (the purse, its
//! passes and all public contracts). `laws` says what holds of every legal history, and of calls in
//! order. Below the contract, `specs/inner/Rule.antt` with `rule` says what the three words of the
//! purse's cell mean and what each kind of step tells, and `account` has one method for each kind.
//! The crate thread_tests runs threads.
#![tactic(auto)]

mod account;
mod dealings;
pub mod laws;
mod plain;
mod purse;
mod rule;
mod views;

pub use dealings::{Dealing, Reply, Totals};
pub use plain::{GREATEST_ALLOWANCE, PlainPurse};
pub use purse::{Pass, Purse};
pub use views::{Books, Share};
