//! The text of a session: what a command line asks for, and what a reply reads like.
//!
//! The one contract: a line asks for exactly one request, and a reply is its text, built from names
//! and numbers. `specs/Requests.antt` and `specs/Words.antt` say which words ask for what,
//! `specs/Replies.antt` which bytes each reply has.
//!
//! Read `request` (the commands) and `submission` (the commands of jobs) over `words` (few words,
//! names and kinds), `line_words` (the words of a job), `name` (names) and `hexadecimal` (the body
//! of `op`); then `replies` over `reply` (a buffer whose lines take no further memory), `refusal`
//! (why a command is refused) and `rules` (the names of the rules).
#![tactic(auto)]

mod hexadecimal;
mod line_words;
mod name;
mod refusal;
mod replies;
mod reply;
mod request;
mod rules;
mod submission;
mod words;

pub use hexadecimal::{HexFault, unhex};
pub use name::{Name, as_name};
pub use refusal::Refusal;
pub use replies::{
    JobLine, accept_matrix, accept_operator, add_job, begin_run, bye, list, queued, refuse, show,
    silent, tell_budget,
};
pub use reply::Reply;
pub use request::{Command, Header, Request, parse};
pub use rules::{FatalRule, SessionRule};
pub use submission::Submission;
pub use words::parse_kind;
