//! Tests of the crates that keep matrices and read and write them as text, through their public
//! functions alone.
//!
//! The gate proves a crate that has tests of its own twice. These stand above the crates that they
//! test, each of which is so proved once.
#![tactic(auto)]

#[cfg(test)]
mod storage;
#[cfg(test)]
mod texts;
