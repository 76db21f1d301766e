//! Lines, words and numbers of texts, for each crate that reads text.
//!
//! The contracts are over `specs/Words.antt` and `specs/Numbers.antt`; lines are those of std's
//! `lines`.
//!
//! Read `words` and `numbers`, then `lines`.
#![tactic(auto)]

mod lines;
mod numbers;
mod words;

pub use lines::first_line;
pub use numbers::{decimal, held_decimal};
pub use words::{first_word, is_blank, unindented};
