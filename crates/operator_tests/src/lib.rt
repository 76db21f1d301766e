//! Tests of the crates that read, verify and run operators, through their public functions alone.
//!
//! The gate proves a crate that has tests of its own twice. These stand above the crates that they
//! test, each of which is so proved once.
#![tactic(auto)]

#[cfg(test)]
mod calls;
#[cfg(test)]
mod encoding;
#[cfg(test)]
mod programs;
#[cfg(test)]
mod tagged;
#[cfg(test)]
mod texts;
#[cfg(test)]
mod verdicts;
