//! Jobs: what they compute, what they may cost, the queue in which they wait, and the chunks into
//! which they are cut.
//!
//! A [`Job`] is an operation of the GraphBLAS with its operators, operands and mask. [`Priced::of`]
//! accepts one that breaks no rule, or returns it with the first rule that it breaks. A [`Queue`]
//! holds up to 64 of them, and [`Queue::take`] turns those that wait into a [`Plan`]: the jobs, cut
//! into chunks of 256 rows, with copies of columns ([`Plan::copies`]).
//!
//! The one contract: the chunks cover each job's rows once and in order, their prices add up to the
//! job's, and a job's calls cost no more than its price. `specs/Forms.antt` is the table of the six
//! forms, `specs/Meaning.antt` says what a job computes, `specs/Costing.antt` and
//! `specs/Price.antt` what it may cost, `specs/Refusal.antt` when it is refused, and
//! `specs/Chunks.antt` how jobs are cut.
//!
//! Read `form` and `job` first, then `table` (that of the forms, in code) with `rows` (counting
//! entries of rows), `priced`, `queue`, `plan`, and `columns` (copies of the columns that products
//! are by).
#![tactic(auto)]

mod columns;
pub mod error;
pub mod form;
pub mod job;
pub mod plan;
pub mod priced;
pub mod queue;
mod rows;
mod table;

pub use columns::Copied;
pub use error::JobError;
pub use form::Form;
pub use job::Job;
pub use plan::Plan;
pub use priced::{Priced, price};
pub use queue::Queue;
