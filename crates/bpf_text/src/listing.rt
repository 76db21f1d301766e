//! The instructions of a text, as far as it was read.
ghost use Rattle.std.specs.Prelude.{◌≡◌, ◌≤◌};
ghost use Rattle.bpf_insn.specs.Program.{slots_of};

use crate::rule::AsmRule;
use crate::statement::read_line;
use bpf_insn::{Insn, MOST_SLOTS};
use std::alloc::Global;

/// The instructions of the lines that were read.
#[derive(Drop)]
pub struct Listing {
    insns: Vec<Insn>,
    slots: usize,
    /// Whether there was memory for all of them. Without it reading goes on, to find a fault.
    is_whole: bool,
    // So that the sum in `add` can't overflow.
    ghost few: { slots ≤ 4096 },
}

impl Listing {
    ghost use Rattle.std.specs.Prelude.{◌+◌, ◌<◌, ◌∷◌, ◌++◌, [], List, MatchResult, IfSome, IsTrue, ◌↔◌};
    ghost use Rattle.bpf_insn.specs.declared.insn.Insn.{Insn};
    ghost use Rattle.bpf_text.specs.Text.{IsLowestBroken};
    ghost use Rattle.bpf_text.specs.inner.Reading.{Lists, Reads};

    /// No instructions.
    pub fn new(alloc: Global) -> Listing
        ensures { Lists result [] }
    {
        Listing {
            insns: Vec::new(alloc),
            slots: 0,
            is_whole: true,
        }
    }

    /// Whether no line had an instruction.
    pub fn is_empty(&self) -> bool
        ensures { (is : List Insn) → Lists self.now is → IsTrue result ↔ (is ≡ []) }
    {
        // By slots, since the list lacks instructions if memory ran out.
        self.slots == 0
    }

    /// The instructions, where there was memory for all of them.
    pub fn insns(self) -> Option<Vec<Insn>>
        ensures { (is : List Insn) → Lists self is → IfSome result (λ insns. insns.items ≡ is) }
    {
        if self.is_whole {
            Some(self.insns)
        } else {
            None
        }
    }

    /// Reads a line, or returns the lowest rule that it breaks.
    pub fn read(&mut self, line: &[u8]) -> Result<(), AsmRule>
        ensures { (before : List Insn) → Lists self.old before
            → MatchResult result
            (λ _. Reads line.now before self.new)
            (IsLowestBroken before line.now) }
    {
        match read_line(line) {
            Ok(Some(insn)) => self.add(insn),
            Ok(None) => Ok(()),
            Err(rule) => Err(rule),
        }
    }

    /// Appends an instruction, if the slots are not too many.
    fn add(&mut self, insn: Insn) -> Result<(), AsmRule>
        ensures { (before : List Insn) → Lists self.old before
            → MatchResult result
            (λ _. Lists self.new (before ++ insn ∷ []))
            (λ rule. (rule ≡ AsmRule.BadLength) × (4096 < self.old.slots + slots_of insn)) }
    {
        let slots = self.slots + slots_of(insn);
        // Before the list grows: A6 comes at the line that passes the limit.
        if slots > MOST_SLOTS {
            return Err(AsmRule::BadLength);
        }
        self.slots = slots;
        // Reading goes on: a fault in a later line is reported even without memory for the program.
        if self.insns.push(insn).is_err() {
            self.is_whole = false;
        }
        Ok(())
    }
}

/// How many slots the instruction has.
fn slots_of(insn: Insn) -> usize
    ensures count { result ≡ slots_of insn }
    ensures few { result ≤ 2 }
{
    match insn {
        Insn::Wide { .. } => 2,
        _ => 1,
    }
}
