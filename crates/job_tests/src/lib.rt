//! Tests of the crates that plan jobs and run them, through their public functions alone.
//!
//! The gate proves a crate that has tests of its own twice. These stand above the crates that they
//! test, each of which is so proved once.
#![tactic(auto)]

#[cfg(test)]
mod batches;
#[cfg(test)]
mod plans;
