//! Tests of sessions over the loopback and of sessions within a purse that others draw on too,
//! through the public functions of `listener` and `metered_session`.
//!
//! What no contract says is shown here: what a connection is given, that several run at once, that
//! each ends alone.
#![tactic(auto)]

#[cfg(test)]
mod client;
#[cfg(test)]
mod loopback;
#[cfg(test)]
mod talk;
#[cfg(test)]
mod wallets;
