//! Whole runs on the tagged machine.
ghost use Rattle.std.specs.Prelude.{◌≡◌, length};
ghost use Rattle.bpf_insn.specs.Machine.{kind_of};
ghost use Rattle.bpf_insn.specs.Run.{IsOutcome, IsOnlyOutcome, IsWithin, AllWithin};

use crate::fault::Fault;
use crate::machine::stepped::Stepped;
use crate::machine::tagged::Tagged;
use crate::operands::{Kind, Operands};
use crate::program::Program;

/// What becomes of a program on some operands.
#[derive(Clone, Copy, Debug, PartialEq, Eq)]
pub enum Ran {
    /// The program is done, with this value, in so many steps.
    Done { value: u64, steps: u64 },
    /// The program is stuck.
    Stuck(Fault),
}

/// Runs a program on operands of this kind, to its value or to where it is stuck. Each step goes
/// to a higher slot, so that any program ends within as many steps as it has instructions.
pub fn run_tagged(program: &Program, kind: Kind, operands: &Operands) -> Ran
    requires { kind_of operands.now ≡ kind }
    ensures outcome { IsOutcome program.now operands.now result }
    ensures unique { IsOnlyOutcome program.now operands.now result }
    ensures steps_within { IsWithin (length program.now) result }
    ensures ends { AllWithin program.now operands.now (length program.now) }
{
    let mut tagged = Tagged::enter(kind, operands);
    // A bound that suffices: each step goes to a higher slot.
    for taken in 0..program.slots() {
        match tagged.step(program) {
            Stepped::Went => {}
            Stepped::Done(value) => {
                return Ran::Done {
                    value,
                    steps: taken + 1,
                };
            }
            Stepped::Stuck(fault) => return Ran::Stuck(fault),
        }
    }
    // The last slot can't be passed: a step that would go there is stuck by V8.
    unreachable!()
}
