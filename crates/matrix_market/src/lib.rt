//! Matrices as text, in the coordinate format of the Matrix Market.
//!
//! The one contract is over `specs/Market.antt`. `read` returns the only matrix that the text
//! denotes, or the first line of the text that breaks a rule, with the rule: then no matrix has the
//! text. `write` writes the canonical text of a matrix (`specs/CanonicalText.antt`), which is a
//! text of no other matrix, so what is written is read back.
//!
//! Read `rule` first (what can be wrong with a text), then `writer`, over `line_writer`; of the
//! reader first `reader`, over `kinds` (what a line of each kind says), `lines` and `words`; then
//! `gather`, which reads entries in any order, up to the first line that breaks a rule, over
//! `usual`, which is a fast reader of entry lines in their usual form; then `repeat`, which finds
//! the line that repeats a position.
#![tactic(auto)]

mod cursor;
mod gather;
mod kinds;
mod line_writer;
mod lines;
mod reader;
mod repeat;
mod rule;
mod usual;
mod values;
mod words;
mod writer;

pub use reader::read;
pub use rule::{MarketError, MarketRule};
pub use values::parse_value;
pub use writer::write;
