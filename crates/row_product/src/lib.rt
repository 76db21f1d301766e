//! Products of matrices by rows, whole or under a structural mask.
//!
//! The one contract is over `Product` and `Region` of job_forms: at each position that passes the
//! mask, `add` folded over `mul` of the words of A's row and B's column, ascending, starting with
//! the first. [`product_rows`] computes a range of rows of a product, with the exact steps of its
//! calls, or, if memory is refused, the steps of calls that ran. [`product_region`] computes
//! the same of [`Factors`] in a [`Scratch`], as workers do. [`mult_count`] counts the
//! multiplications of a product.
//!
//! A row of the result is summed in a [`Scratch`], which a worker reuses from call to call: a word
//! for each column, and a bit that is set if the word is a sum of this row (`dense_sums`). The rows
//! of B that A's row names are added in sequence, up to 64 cells at a time: their products are
//! computed together, and then the terms are added. A recognised operator adds each term to its
//! sum, or begins it, in a loop that was compiled for it (`terms`). With any other, the terms whose
//! column has a sum already are added together, since no two cells of one row of B have one column,
//! and the others begin a sum (`dense_accumulator`). Nothing waits from row to row of B. The
//! columns that have a sum are listed as long as they are fewer than one in 512: the list is
//! sorted, and the next row clears their bits alone. Otherwise the bits are read in order, and all
//! are cleared. A row of A with one entry isn't summed at all: its result is the row of B that it
//! names, with each word multiplied. With a mask, that row is read alongside the mask's row, for
//! the cells that pass.
//!
//! A product by one column is summed without any of this. With a usual ADD (`usual`) and a
//! recognised MUL, all rows of a range are computed in one loop, into which both are compiled
//! (`fused`, over `specs/inner/Column.antt`). With others, the terms of a row are one list, which
//! is folded (`one_column`): those of up to 64 cells of a row of A are listed in one loop
//! (`column_terms`). In neither does a jump depend on whether B has a word.
//!
//! The sums get their memory when a range has a term, never before, and not while the terms so far
//! are few compared with the columns. The terms of each row are then listed (`listing`), sorted by
//! their columns, those of one column as they were listed (`ordering`), and folded (`folding`), in
//! lists that are reused. So the work is linear in the multiplications, the rows and the entries,
//! apart from sorting a row's columns; and the memory of the result is allocated row by row.
//!
//! Read `ranges`, `factors` and `product`, `row_accumulator` (row after row, over
//! `specs/inner/Masked.antt`), `row` (one row), `single` (a row of A with one entry, over
//! `specs/inner/Single.antt`) with `row_under_mask` (a row of B alongside the mask's, over
//! `specs/inner/RowUnderMask.antt`), `progress` (rows of B, under the mask, over
//! `specs/inner/Rows.antt`), `dense_accumulator` (cells of one row of B) with `terms`, `additions`,
//! `sums`, `dense_sums` and `bitset` (the data of each column), `emit` (sums into the result, over
//! `specs/inner/Emitting.antt`) and `mask_flags` (the mask's row), over `specs/inner/Sums.antt`,
//! `specs/inner/Adding.antt` and `specs/inner/DenseSums.antt`; `sorted_accumulator` (rows of few
//! terms) with `listing`, `ordering`, `folding` and `calling` (how a loop makes its calls), over
//! `specs/inner/SortedAccumulator.antt`; and `one_column` with `column_terms`, and `fused` with
//! `usual`.
#![tactic(auto)]

mod additions;
mod bitset;
mod calling;
mod column_terms;
mod dense_accumulator;
mod dense_sums;
mod emit;
mod factors;
mod folding;
mod fused;
mod listing;
mod mask_flags;
mod one_column;
mod ordering;
mod product;
mod progress;
mod ranges;
mod row;
mod row_accumulator;
mod row_adder;
mod row_under_mask;
mod single;
mod sorted_accumulator;
mod sums;
mod term;
mod terms;
mod usual;

pub use factors::Factors;
pub use job_forms::{Chunk, mult_count};
pub use product::{Scratch, product_region};
pub use ranges::product_rows;
