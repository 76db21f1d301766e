//! The budget of steps that a session draws on.
//!
//! The one contract: the calls of a budget, with their replies, lead from one of its values to
//! another, in order. A session is written over the trait `Steps`, whatever the budget is. There
//! are two: `Tally` is a budget that nobody else draws on, and its calls are those of a purse of
//! one thread (`step_purse`, `specs/Plain.antt`); `Wallet` is a pass of a purse that others draw on
//! too, and its calls are the pass's own, in order.
//!
//! Read `specs/Budget.antt` (calls in a row, and the amounts that they take and settle), then
//! `steps` and `tally`; then `specs/Drawing.antt` (what one call of a wallet does), `wallet`, and
//! `laws` (what its calls in a row are).
#![tactic(auto)]

pub mod laws;
mod steps;
mod tally;
#[cfg(test)]
mod tests;
mod wallet;

pub use step_purse::{Dealing, Reply, Totals};
pub use steps::Steps;
pub use tally::Tally;
pub use wallet::Wallet;
