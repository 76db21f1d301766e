//! One session, within a purse that others draw on too and within limits of its own.
//!
//! The contracts: `serve_pass` is one session over any source and any sink. It carries the session
//! theorem (the session's own `specs/Talk.antt`): what was read and written, how many calls of each
//! device ran and failed, and how it ended belong together. Its calls of the purse are those
//! that its pass gained, in order, the pass that is handed back owes what it owed, and the steps
//! that are reported are those that these calls spent (`specs/Metering.antt`). `serve_within` is
//! the same within limits of the session's own, which hold at each of its calls
//! (`specs/Limits.antt`).
//!
//! What the session reserves, spends and takes is noted in a log, where a watch is given. No
//! contract speaks of that.
//!
//! Read `streams` first (one session), with `meter` (its budget) and `limits`; `ends` names the end
//! of a session for a log.
#![tactic(auto)]

mod ends;
mod limits;
mod meter;
mod streams;

pub use ends::ending_of;
pub use limits::Limits;
pub use streams::{Given, Served, serve_pass, serve_unlimited, serve_within};
