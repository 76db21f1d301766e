//! Tests of the crates that share work and steps among threads, through their public functions
//! alone.
//!
//! The gate proves a crate that has tests of its own twice. These stand above the crates that they
//! test, each of which is so proved once.
#![tactic(auto)]

#[cfg(test)]
mod boards;
#[cfg(test)]
mod purses;
