//! The verifier: which programs become operators.
//!
//! A program is checked once, and from then on it can't misbehave. `verify` accepts a program
//! exactly if it has no slot fault and no path through it shows a fault; otherwise it returns the
//! first fault. An `Operator` has a value on all operands of its kind, after at most as many steps
//! as it has instructions, and is never stuck; what `typing` and `stored` say of a slot is exactly
//! what the paths to it have in common, and holds of the machine whenever it gets there
//! (`IsAccepted` in specs/Accepted.antt).
//!
//! An `Operator` also has what its calls need: its flat code, which needs no checks because of the
//! facts at each slot (`IsFlat` in specs/Flat.antt), and the family of its program, if `bpf_known`
//! recognises it. It is created once, and called any number of times.
//!
//! Read specs/: Slots (slot faults), Tags (what an instruction reads, breaks and leaves), Paths
//! (paths, shown faults, and what paths have in common), Accepted (the verdict), Holds (what the
//! machine has to do with it), Flat (flat code); Table has the words of the code. Then
//! `tag`, `marks` and `facts` (the facts at a slot), `slot_pass` and `typing` (the two passes),
//! `error` and `checked`, `flatten` and `flat_code`, and `operator`.
#![tactic(auto)]

mod checked;
mod error;
mod even;
mod facts;
mod flat_code;
mod flatten;
mod marks;
mod operator;
mod slot_pass;
mod tag;
mod typing;

pub use error::VerifyError;
pub use flat_code::FlatCode;
pub use operator::{Operator, verify};
pub use tag::Tag;
