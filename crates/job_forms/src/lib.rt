//! The meaning of a form of job: the entry at each position of a result, which calls run for
//! it, and how many multiplications a product takes.
//!
//! The one contract: `specs/Forms.antt` and `specs/Product.antt` are operations of the GraphBLAS,
//! with operators of the user's own, position by position. `entry_ops` and `row_product` compute
//! rows by these definitions, and `job_plan` describes and prices jobs by them, so that neither
//! depends on the other. Rows are computed for a [`Region`] of a result, and returned with the
//! steps of the calls ([`Chunk`], by `specs/Region.antt`). What is computed here is what several of
//! them need: [`mult_count`] and [`mult_count_in`] count the multiplications of a product, before
//! any is made; [`is_blank_under`] finds rows of which no call runs; and a [`RowCursor`] reads a
//! row alongside another by ascending columns.
//!
//! Read `specs/Forms.antt` first, then `specs/Product.antt` and `specs/Region.antt` with `region`,
//! then `row_cursor`, and `count` last.
#![tactic(auto)]

mod count;
mod region;
mod row_cursor;

pub use count::{is_open, mult_count, mult_count_in, mults_in_row};
pub use region::{Chunk, Making, Region, is_blank_under};
pub use row_cursor::RowCursor;
