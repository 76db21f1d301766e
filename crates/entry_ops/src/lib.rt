//! Operations entry by entry, with operators of the user's own. [`apply_rows`], [`select_rows`],
//! [`union_rows`], [`both_rows`] and [`reduce_rows`] each compute the rows of a range of a result,
//! under a mask if there is one, which are a part of what job_forms defines (`IsPartOf`).
//! [`apply_region`], [`select_region`], [`union_region`], [`both_region`] and [`reduce_region`]
//! compute the same with buffers for calls that regions share, as workers do.
//!
//! Calls are gathered across rows and run many together, so a cell is added before its value is
//! known. Without a mask, apply copies rows of one run (`runs`) and gives their entries the values
//! of calls (`mapping`); so do union and both if their operands have the same positions (`pairs`),
//! or if they are columns of which one has a word in each row (`column_pairs`, over
//! `column_reader`). Under a mask, apply without a thunk copies the cells that the mask shows, and
//! calls the operator on them where they are (`shown`). Select without a mask makes all calls first
//! (`select_unmasked`). Otherwise rows are filled cell by cell (`rows`): from two rows read side by
//! side (`merge`), or along the row of a mask (`masked`); `form` defines the result of a form at a
//! position, and `emitter` writes values to their entries. Under a mask, select's last cells wait
//! for their results (`select`, over `select_buffer` and `kept_cells`). Rows are reduced one by one
//! with a short operator (`in_order`), many at once with a longer one (`folds`, over `open_rows`).
//!
//! Read `ranges`, `apply`, `union` and `reduce` first, then `rows` with `specs/inner/Walking.antt`
//! and `specs/inner/Placing.antt`.
#![tactic(auto)]

mod apply;
mod blank;
mod column_pairs;
mod column_reader;
mod emitter;
mod folds;
mod form;
mod in_order;
mod index_calls;
mod kept_cells;
mod mapping;
mod masked;
mod merge;
mod open_rows;
mod operand_rows;
mod pairs;
mod ranges;
mod reduce;
mod rows;
mod runs;
mod select;
mod select_buffer;
mod select_unmasked;
mod shown;
mod union;

pub use apply::{apply_region, select_region};
pub use job_forms::Chunk;
pub use ranges::{apply_rows, both_rows, reduce_rows, select_rows, union_rows};
pub use reduce::reduce_region;
pub use union::{both_region, union_region};
