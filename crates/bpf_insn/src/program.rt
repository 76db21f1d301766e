//! Programs: the instructions of code, by the slots in which they begin.
ghost use Rattle.std.specs.Prelude.{◌≡◌, ◌+◌, ◌<◌, ◌≤◌, ◌++◌, [], length, vec_len, vec_capacity, None};
ghost use Rattle.std.specs.Prelude.{unwrap_or, slice_get, option_copied, IfOk, IfErr, IfSome, IfNone};
ghost use Rattle.std.specs.List.{AllByRecursion};
ghost use Rattle.bpf_insn.specs.Program.{slots_of, slot_count, insn_at, insns_of, IsProgram, ExplainsInsnsRefusal};
ghost use Rattle.bpf_insn.specs.inner.Program.{cells_of, layout, IsLaid};
ghost use Rattle.bpf_insn.specs.Spelling.{Fits};

use crate::fault::{Fault, InsnsError};
use crate::insn::Insn;
use crate::rule::CodeRule;
use std::alloc::Global;
use std::marker::Model;

/// The most slots that a program has.
pub const MOST_SLOTS: usize = 4096;

/// A program: a list of instructions, of 1 to 4,096 slots, stored by slot. A contract sees the
/// list.
#[derive(Drop)]
pub struct Program {
    // By slot, since jumps count slots: a target is an index, with no search.
    cells: Vec<Option<Insn>>,
    // Stored, as the cells of wide loads make it less than the number of cells.
    len: u64,
}

impl Model for Program {
    ghost use Rattle.std.specs.Prelude.{◌≡◌, List, length};
    ghost use Rattle.bpf_insn.specs.declared.insn.Insn.{Insn};
    ghost use Rattle.bpf_insn.specs.Program.{insns_of};
    ghost use Rattle.bpf_insn.specs.inner.Program.{IsLaid};

    ghost Value = { List Insn };

    ghost view = { λ p. insns_of p.cells.items };

    ghost invariant = { λ p. IsLaid p.cells.items × (p.len ≡ length (insns_of p.cells.items)) };
}

impl Program {
    /// The program of these instructions, or `V1` where there are none (at slot 0) or where they
    /// have more than 4,096 slots (at slot 4,096).
    pub fn from_insns(alloc: Global, insns: Vec<Insn>) -> Result<Program, InsnsError>
        ensures ok { IfOk result (λ program. (program ≡ insns.items) × IsProgram program) }
        ensures err { IfErr result (ExplainsInsnsRefusal insns.items) }
    {
        if insns.is_empty() {
            return Err(InsnsError::Fault(bad_length(0)));
        }
        // The length is checked before memory is asked for, so V1 comes before a refusal.
        let Some(slots) = slots_of_all(&insns) else {
            return Err(InsnsError::Fault(bad_length(MOST_SLOTS as u64)));
        };
        let Ok(reserved) = Vec::with_capacity(alloc, slots) else {
            return Err(InsnsError::Memory);
        };
        let cells = lay(&insns, reserved);
        Ok(Program::from_cells(cells, insns.len() as u64))
    }

    /// The program of these slots and this number of instructions.
    pub(crate) fn from_cells(cells: Vec<Option<Insn>>, len: u64) -> Program
        requires laid { IsLaid cells.items }
        requires len { len ≡ length (insns_of cells.items) }
        ensures insns { result ≡ insns_of cells.items }
        ensures program { IsProgram result }
    {
        Program { cells, len }
    }

    /// The slots in order: each instruction where it begins, and None at the second slot of a wide
    /// load.
    pub(crate) fn cells(&self) -> &[Option<Insn>]
        ensures slots { result.now ≡ layout self.now }
        ensures program { IsProgram self.now }
    {
        &self.cells
    }

    /// How many instructions there are.
    pub fn len(&self) -> u64
        ensures { result ≡ length self.now }
    {
        self.len
    }

    /// How many slots there are, 1 to 4,096. A wide load has two.
    pub fn slots(&self) -> u64
        ensures count { result ≡ slot_count self.now }
        ensures some { 1 ≤ result }
        ensures few { result ≤ 4096 }
        ensures program { IsProgram self.now }
    {
        self.cells.len() as u64
    }

    /// The instruction that begins at the slot, or None where none begins: outside the program, and
    /// at the second slot of a wide load.
    #[tactic(auto, using(crate::proofs::Slots::insn_at_layout))]
    pub fn insn_at(&self, slot: u64) -> Option<&Insn>
        ensures { option_copied result ≡ insn_at self.now slot }
    {
        // Exact: usize has 64 bits on the system that this is built for.
        self.cell(slot as usize)
    }

    /// The instruction in the cell of a slot, or None, past the end too.
    fn cell(&self, slot: usize) -> Option<&Insn>
        ensures { option_copied result ≡ unwrap_or (slice_get (layout self.now) slot) None }
    {
        match self.cells.get(slot) {
            // The second half of a wide load counts as no instruction, like a slot past the end.
            Some(Some(insn)) => Some(insn),
            _ => None,
        }
    }
}

impl Insn {
    /// How many slots the instruction has: a wide load 2, any other 1.
    pub fn slots(self) -> usize
        ensures count { result ≡ slots_of self }
        ensures fits { Fits self }
    {
        match self {
            Insn::Wide { .. } => 2,
            _ => 1,
        }
    }
}

/// Appends the slots of the instruction, for which the list has capacity.
pub(crate) fn push_cells(cells: &mut Vec<Option<Insn>>, insn: Insn)
    requires { vec_len cells.old + slots_of insn ≤ vec_capacity cells.old }
    ensures items { cells.new.items ≡ cells.old.items ++ cells_of insn }
    ensures len { vec_len cells.new ≡ vec_len cells.old + slots_of insn }
    ensures capacity { vec_capacity cells.old ≤ vec_capacity cells.new }
{
    // The capacity is there, so a push allocates nothing and can't be refused.
    cells.push(Some(insn)).unwrap();
    if let Insn::Wide { .. } = insn {
        cells.push(None).unwrap();
    }
}

/// The fault of a length that no program has.
fn bad_length(slot: u64) -> Fault
    ensures slot { result.slot ≡ slot }
    ensures rule { result.rule ≡ CodeRule.BadLength }
{
    Fault {
        slot,
        rule: CodeRule::BadLength,
    }
}

/// How many slots the instructions have, or None where there are more than 4,096.
fn slots_of_all(insns: &[Insn]) -> Option<usize>
    ensures some { IfSome result (λ n. (n ≡ slot_count insns.now) × (n ≤ 4096)
        × AllByRecursion Fits insns.now) }
    ensures none { IfNone result (4096 < slot_count insns.now) }
{
    let mut slots = 0;
    for insn in insns {
        slots += insn.slots();
        // Inside the loop: the sum of any number of instructions then can't overflow.
        if slots > MOST_SLOTS {
            return None;
        }
    }
    Some(slots)
}

/// The slots of the instructions in order, in a list with capacity for all of them.
fn lay(insns: &[Insn], reserved: Vec<Option<Insn>>) -> Vec<Option<Insn>>
    requires empty { reserved.items ≡ [] }
    requires capacity { slot_count insns.now ≤ vec_capacity reserved }
    ensures { result.items ≡ layout insns.now }
{
    let mut cells = reserved;
    for insn in insns {
        push_cells(&mut cells, *insn);
    }
    cells
}
