//! Sessions for whoever connects: up to sixteen at once, each in a thread of its own, on one purse
//! of steps.
//!
//! The contracts: the session that is started for a connection is served over both sides of its
//! stream (`sides::serve_over`), by a pass of the server's purse, within limits of its own, with
//! 4,294,967,296 reads and with the workers that were asked for (`ServerState::new_session`).
//! Serving ends well only with a `Service`: the number of sessions that was asked for was started,
//! with this purse and on these terms. It ends else by one accept that failed, the last
//! (`specs/Listening.antt`). Each connection that was accepted has a session, or its client was
//! turned away. No more than sixteen seats are taken at any time: that is the invariant of `Seats`.
//!
//! **What no contract says** is that a session holds a seat while it runs; what a socket carries;
//! that sessions run at once. Tests over the loopback and on the program show these.
//!
//! Read `seats` first, then `acceptor` (what connections come in by), `side` and `sides` (a session
//! over both sides of one stream), `connection` (one connection from its start to its end, with
//! `promise`), `retrying` and `timed` with `patience` (for how long a session waits for its client),
//! `server` (what all sessions share), `service` (what was served) and `accepting`, from
//! `serve_listener` and `serve_on_terms` down to one accept.
#![tactic(auto)]

mod accepting;
mod acceptor;
mod connection;
mod patience;
mod promise;
mod retrying;
mod seats;
mod server;
mod service;
mod side;
mod sides;
mod timed;

pub use accepting::{Supply, serve_acceptor, serve_listener, serve_on_terms};
pub use acceptor::{AcceptFailed, Acceptor, Caller, FromListener};
pub use connection::{Started, TurnedAway};
pub use seats::SEATS;
pub use server::{ServerState, ServerTerms};
pub use service::Service;
pub use session_log::ListenFault;
