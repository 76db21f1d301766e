//! The log of sessions: what each does, how it ends, and why no more are served.
//!
//! A session never waits for whoever reads its log. It leaves an `Entry` in the queue of a
//! `Journal`; one thread takes the entries and writes each as a line to standard error. The queue
//! gives entries in the order in which they came (`Books`). Of each kind of line a second has only
//! so many (`Pace`), and the queue has an end: the next line of the kind says how many had none,
//! and which steps they would have told. What is noted of a session (`Note`) changes its own row of
//! the roster and no other.
//!
//! A session has an `OpenAccount`, which is closed once: by how it ended and the steps that it
//! spent, and these are what its line tells (`ClosedAccount`, which only `Books::close` makes, and
//! `line`, whose contracts say the text of each field).
//!
//! A `Watch` stands for one session: its budget notes by it what is reserved and spent, the two
//! sides of its connection (`Watching`) which bytes they move. `Noticing` looks for refusals among
//! the replies. Both pass on the bytes of the device below.
//!
//! **What no contract says** is that a line is written. Tests on the program show that.
//!
//! Read `entry` (what is reported) with `origin`, `cause`, `listen_fault` and `refusal`; `line` (an
//! entry as text or JSON); `pace` and `tally` (how many lines there are) with `books`; `roster` (the
//! sessions that run) with `watching`; `notice` (how refusals come to the log); then `account` and
//! `journal`.
#![tactic(auto)]

mod account;
mod books;
mod cause;
mod entry;
mod journal;
mod line;
mod listen_fault;
mod notice;
mod origin;
mod pace;
mod refusal;
mod roster;
mod tally;
mod watching;

pub use account::{OpenAccount, open_account};
pub use books::ClosedAccount;
pub use cause::Cause;
pub use entry::{Cut, Ending};
pub use journal::{Journal, LogFormat};
pub use line::{CloseReason, LoggedTerms};
pub use listen_fault::ListenFault;
pub use notice::Noticing;
pub use origin::Origin;
pub use roster::{Note, Watch};
pub use watching::Watching;
