//! What a session holds between two commands, and what each command does to it.
//!
//! The one contract: `answer` and `answer_with_body` make one command's turn. `specs/State.antt`
//! says what a session holds, `specs/Turn.antt` what each command does: from which state, by which
//! calls of the budget and with which reply, to which state. What jobs compute is said in
//! `job_plan`.
//!
//! Read `turn` first, which hands each command to its function; then `workspace` (matrices,
//! operators and jobs) over `names`; then the commands, each a function whose contract is its turn:
//! `bind` (`matrix`, `op`, `asm`), `tell` (`show`, `dis`, and `types` over the module of that
//! name), `jobs` (the jobs' commands, over `found` and `share`, and `budget`) and `run`. `long`
//! says what is better written before a command is answered.
#![tactic(auto)]

mod bind;
mod found;
mod jobs;
mod long;
mod names;
mod run;
mod share;
mod tell;
mod turn;
mod types;
mod workspace;

pub use long::takes_long;
pub use run::release;
pub use turn::{answer, answer_with_body};
pub use workspace::Workspace;
