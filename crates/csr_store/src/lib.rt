//! Sparse matrices of 64-bit words.
//!
//! A [`Builder`] collects entries and refuses what doesn't fit, and [`Builder::finish`] makes it a
//! [`Matrix`], which never changes; a [`Version`] is a matrix with several owners.
//!
//! The one contract: a `Matrix` is a finite map from positions to words with its two sizes, a
//! `Grid` of `specs/Grid.antt`. That it is stored as compressed rows is no caller's business, but
//! that a row is a slice, and that the starts of the rows are lent. [`Rows`] is a run of rows, a
//! `Run` of `specs/Run.antt`. A [`Stack`] takes runs of 256 rows one by one, and becomes a matrix
//! whose cells stay where they are, and whose starts are another matrix's where they are the same.
//! [`join_rows`] makes one of any runs that follow one another, by copying. [`RowReader`] reads
//! rows one after the other, [`RowCopy`] copies rows of a matrix with other values, and [`Column`]
//! is a copy of a matrix of one column, a word and a bit a row. What callers need to know of grids
//! is proved in `proofs/Laws.antt` (single entries) and `proofs/ByRow.antt` (a grid row by row).
//!
//! Read `specs/Grid.antt` and `specs/Refusal.antt` first, then `error`, `builder`, `matrix`, `rows`
//! and `stack`; below them `cells` (one list of cells, or many), `starts` (where rows start, in a
//! list that matrices may share), `growing` (where rows start while runs are stacked), `growth`
//! (memory that is asked for, which tells of a refusal by a value of its own), `ends`
//! (where the rows of a run end), `moving` (ends counted from another start), `entry_list` (entries
//! in any order), `repeat` (the positions that two or more entries of a list have), `parts` (where
//! positions start in each part of their range), `selected` (the cells that answers or a mask
//! select), `reader` (rows one after the other) and `row` (parts of a list of cells, and searches in
//! a row), over `specs/ByRows.antt`.
#![tactic(auto)]

pub mod builder;
mod cells;
mod column;
mod ends;
mod entry_list;
pub mod error;
mod growing;
mod growth;
mod join;
mod limits;
pub mod matrix;
mod moving;
mod narrow;
mod parts;
mod reader;
mod repeat;
mod row;
mod row_copy;
mod rows;
mod selected;
mod stack;
mod starts;

pub use builder::Builder;
pub use column::Column;
pub use entry_list::EntryList;
pub use error::StoreError;
pub use growth::RefusedGrowth;
pub use join::join_rows;
pub use limits::{MOST_ENTRIES, MOST_SIDE, RUN_ROWS};
pub use matrix::{Matrix, Version};
pub use reader::RowReader;
pub use repeat::RepeatedPositions;
pub use row_copy::RowCopy;
pub use rows::Rows;
pub use stack::Stack;
