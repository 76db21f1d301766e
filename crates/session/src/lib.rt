//! Sessions: streams of commands that keep sparse matrices, take BPF operators, and run jobs over
//! the matrices' entries within a budget of steps.
//!
//! The one contract: the bytes that `Session::serve_counting` writes are the reply text of the
//! bytes that it reads. `specs/Talk.antt` says which text that is, over whole streams and with no
//! word of buffers; `specs/NextCommand.antt` says which command stands next in a stream. What a
//! line asks for and what a reply reads like is the crate `command_text`'s, what one command does
//! `workspace`'s, what a line and a body are `wire`'s, and what the budget's calls are
//! `step_budget`'s.
//!
//! Read these definitions first. Then `conversation`, from `Session` down to one exchange; then
//! `receiving` (what is read for a command), `answering` (its turn, and its reply said), `desk`
//! (what both work at) and `end` (how a session ends).
#![tactic(auto)]

mod answering;
mod conversation;
mod desk;
mod end;
mod receiving;
#[cfg(test)]
mod session_tests;

pub use command_text::FatalRule;
pub use conversation::{Session, serve, serve_turns};
pub use end::{End, ServeFault};
pub use step_budget::{Steps, Tally, Wallet};
pub use wire::{FromRead, Sink, Source, ToWrite};
