//! The tagged machine, which knows the kind of content of each register.
ghost use Rattle.std.specs.Prelude.{◌≡◌, true, replicate};
ghost use Rattle.bpf_insn.specs.Machine.{kind_of, arguments, enter, slot_of, is_at_insn};
ghost use Rattle.bpf_insn.specs.Stepping.{IsReady, IsStepped};

use crate::content::Content;
use crate::fault::Fault;
use crate::frame::Frame;
use crate::machine::jumps::fetch;
use crate::machine::stepped::Stepped;
use crate::operands::{Kind, Operands};
use crate::program::Program;
use crate::reg::Reg;
use std::marker::Model;

/// The tagged machine on a call of an operator. It checks each rule before it takes a step, so it
/// runs any program, and reports where and why one is stuck.
#[derive(Drop)]
pub struct Tagged {
    frame: Frame,
    /// The value, once the machine is done.
    value: Option<u64>,
}

impl Model for Tagged {
    ghost use Rattle.bpf_insn.specs.Machine.{State, state_of};

    ghost Value = { State };

    ghost view = { λ t. state_of t.value t.frame };
}

impl Tagged {
    /// The machine at slot 0, with the operands in R1 onwards, the top of the stack in R10 and
    /// a stack of which no byte was stored. `kind` is the operands' kind.
    pub fn enter(kind: Kind, operands: &Operands) -> Self
        requires { kind_of operands.now ≡ kind }
        ensures entry { result ≡ enter operands.now }
        ensures ready { IsReady result }
    {
        let [first, second, third, fourth] = arguments(operands);
        let rest = Content::Unset;
        let frame = Frame {
            slot: 0,
            registers: [
                Content::Unset,
                first,
                second,
                third,
                fourth,
                rest,
                rest,
                rest,
                rest,
                rest,
                // R10 is the top, from which all places count.
                Content::Place(0),
            ],
            stack: empty_stack(),
        };
        Tagged { frame, value: None }
    }

    /// The slot of the instruction that comes next: none, once the machine is done.
    pub fn slot(&self) -> Option<u64>
        ensures { result ≡ slot_of self.now }
    {
        match self.value {
            Some(_) => None,
            None => Some(u64::from(self.frame.slot)),
        }
    }

    /// Takes one step. The machine must not be done, and its slot must begin an instruction of
    /// the program, as it does after `enter`, and after each step of the same program that went
    /// on. Where the step breaks a rule, the machine stays as it is.
    pub fn step(&mut self, program: &Program) -> Stepped
        requires { is_at_insn program.now self.old ≡ true }
        ensures { IsStepped program.now self.old result self.new }
    {
        let slot = u64::from(self.frame.slot);
        let insn = fetch(program, slot);
        let next = match self.frame.allowed_next(program, insn) {
            Ok(next) => next,
            Err(rule) => return Stepped::Stuck(Fault { slot, rule }),
        };
        // Only EXIT has no next slot: a broken jump was refused above.
        let Some(to) = next else {
            let value = self.frame.number(Reg::R0);
            self.value = Some(value);
            return Stepped::Done(value);
        };
        self.frame.execute(insn);
        self.frame.slot = to;
        Stepped::Went
    }
}

/// The contents of R1 to R4 at the entry.
fn arguments(operands: &Operands) -> [Content; 4]
    ensures { result ≡ arguments operands.now }
{
    let unset = Content::Unset;
    match *operands {
        Operands::Unary { x } => [Content::Number(x), unset, unset, unset],
        Operands::Binary { x, y } => [Content::Number(x), Content::Number(y), unset, unset],
        Operands::Index {
            x,
            row,
            column,
            thunk,
        } => [x, row, column, thunk].map(Content::Number),
    }
}

/// The stack at the entry.
fn empty_stack() -> [Option<u8>; 512]
    ensures { result ≡ replicate 512 None }
{
    // Nothing is stored yet, so V16 refuses a load of any byte.
    [None; 512]
}
