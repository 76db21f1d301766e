//! The definition's machine, in code. The program doesn't call it: tests run it, and compare the
//! program with it.
//!
//! Read `state` (its contents), `memory` (loads and stores), `jumps`, `rules` and `execute` (a
//! step: where it leads, whether it may, what it writes), `stepped` and `tagged` (the machine), and
//! `run`.
mod execute;
mod jumps;
mod memory;
mod rules;
pub mod run;
mod state;
pub mod stepped;
pub mod tagged;
