//! Worked rows: what the definitions give on numbers, programs, matrices and lines that a reader
//! can check by hand.
//!
//! Each function does nothing. Its contract states rows, and the gate proves them by computing with
//! the definitions that the contracts of the product cite.
#![tactic(auto)]

pub mod arithmetic;
pub mod budgets;
pub mod lines;
pub mod matrices;
pub mod meaning;
pub mod runs;
pub mod texts;
pub mod ways;
