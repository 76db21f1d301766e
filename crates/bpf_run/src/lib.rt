//! Calls of accepted operators: one at a time, up to 64 together, and folds.
//!
//! All of it keeps one promise, that of `call`: on operands of its kind an operator returns the
//! value, and takes the steps, that the machine of `bpf_insn` has for its program (`HasValue`; as
//! functions, `value_of` and `cost_of` of `specs/Meaning.antt`). `fold` promises the same of calls
//! that each operate on the last result, and `Calls` of calls that run together.
//!
//! Read `single` first: a call runs the flat code of its operator by `bpf_flat`. That such a run is
//! a call is the law of `specs/inner/Flat.antt`. `folding` is a run that starts again for each
//! cell. Then read `calls`, which gathers operands, and `lanes`, which has `bpf_lanes` run the flat
//! code for all of them in one pass.
//!
//! A program that `bpf_known` recognises computes a function of two words
//! (`specs/inner/Known.antt`), which is a type in `function`; a constant in the program is an
//! argument of each call, so that one type serves all constants. A `Loop` over calls of one
//! operator is generic over that type, and `native` runs it, compiled for what the operator
//! computes: there is one for folds in `folding`, one for a word with each of some words in
//! `products`, and crates above may write their own. Unary operators have one in `unary`, since
//! they compute a function of the first of the two words alone. Calls that run together have
//! one in `lanes::known`, for operators of each kind. All that loops of other crates may use is
//! `Computes` of `specs/Known.antt`. The costs of a list of calls are defined in
//! `specs/Calls.antt`, and folds in `specs/Fold.antt`.
#![tactic(auto)]

mod calls;
mod folding;
mod function;
mod lanes;
mod native;
mod products;
mod single;
mod unary;

pub use bpf_flat::Outcome;
pub use calls::{Calls, MOST_CALLS};
pub use folding::fold;
pub use function::Function;
pub use native::{Loop, call_by, reads_first, reads_second, run_known};
pub use single::call;
