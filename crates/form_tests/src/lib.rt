//! Tests of the crates that compute rows of results, through their public functions alone.
//!
//! The gate proves a crate that has tests of its own twice. These stand above the crates that they
//! test, each of which is so proved once.
#![tactic(auto)]

#[cfg(test)]
mod forms;
#[cfg(test)]
mod masks;
#[cfg(test)]
mod products;
