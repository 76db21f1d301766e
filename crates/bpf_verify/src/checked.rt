//! Programs that were checked, with what is known at their slots.
ghost use Rattle.std.specs.Prelude.{◌≡◌, ◌≤◌, ◌<◌, negsuc, pos, ◌≤ℤ◌, ◌<ℤ◌};
ghost use Rattle.std.specs.Prelude.{Some, None, IfOk, IfErr, IfSome, IfNone};
ghost use Rattle.bpf_insn.specs.Effects.{byte_at};
ghost use Rattle.bpf_verify.specs.Accepted.{IsAccepted, ExplainsRefusal, IsTyping, typing};
ghost use Rattle.bpf_verify.specs.Accepted.{entry_tags};
ghost use Rattle.bpf_verify.specs.Table.{known_in};
ghost use Rattle.bpf_verify.specs.Tags.{Types};
ghost use Rattle.bpf_verify.specs.inner.Pass.{IsEntry};

use crate::error::VerifyError;
use crate::facts::Facts;
use crate::slot_pass::slot_fault;
use crate::tag::Tag;
use crate::typing::typed;
use bpf_insn::{Kind, Program};
use std::alloc::Global;
use std::marker::Model;

/// A program that has passed both passes as an operator of a kind, with the facts at each of its
/// slots. A contract sees an `Accepted`, of which `IsAccepted` holds.
#[derive(Drop)]
pub(crate) struct Checked {
    kind: Kind,
    program: Program,
    table: Vec<Option<Facts>>,
}

impl Model for Checked {
    ghost use Rattle.bpf_verify.specs.Accepted.{Accepted, IsAccepted};

    ghost Value = { Accepted };

    ghost view = { λ o. record { kind = o.kind; insns = o.program; table = o.table.items } };

    ghost invariant = { λ o. IsAccepted (record { kind = o.kind; insns = o.program; table = o.table.items }) };
}

/// The program with the facts at its slots, if it has no slot fault and no path shows a fault.
/// Otherwise the program comes back, with its first fault, or, if it has no slot fault, with
/// `Memory`.
pub(crate) fn check(
    alloc: Global,
    program: Program,
    kind: Kind,
) -> Result<Checked, (Program, VerifyError)>
    ensures kind { IfOk result (λ checked. checked.kind ≡ kind) }
    ensures program { IfOk result (λ checked. checked.insns ≡ program) }
    ensures accepted { IfOk result IsAccepted }
    ensures back { IfErr result (λ refusal. refusal.0 ≡ program) }
    ensures refused { IfErr result (λ refusal. ExplainsRefusal kind program refusal.1) }
{
    // Before any memory is asked for: a slot fault comes before "out of memory".
    if let Some(fault) = slot_fault(&program) {
        return Err((program, VerifyError::Fault(fault)));
    }
    match typed(alloc, &program, entry_tags(kind)) {
        Ok(table) => Ok(Checked {
            kind,
            program,
            table,
        }),
        Err(error) => Err((program, error)),
    }
}

impl Checked {
    /// The kind of operands.
    pub fn kind(&self) -> Kind
        ensures { result ≡ self.now.kind }
    {
        self.kind
    }

    /// The program.
    pub fn program(&self) -> &Program
        ensures same { result.now ≡ self.now.insns }
        ensures accepted { IsAccepted self.now }
    {
        // For the prover: using a field brings in what the type promises.
        let _ = &self.table;
        &self.program
    }

    /// The program alone.
    pub fn into_program(self) -> Program
        ensures { result ≡ self.insns }
    {
        self.program
    }

    /// What is known of R0 to R10 at a slot, or None if no path leads there.
    pub fn typing(&self, slot: u64) -> Option<[Tag; 11]>
        ensures some { IfSome result (λ tags. (k : Types) × (typing self.now slot ≡ Some k) × (tags ≡ k.tags)) }
        ensures none { IfNone result (typing self.now slot ≡ None) }
        ensures typed { IsTyping self.now.insns (entry_tags self.now.kind) slot (typing self.now slot) }
    {
        match self.facts(slot) {
            Some(facts) => Some(facts.tags),
            None => None,
        }
    }

    /// Whether all paths to a slot have stored the byte at a place of the stack, -512 to -1, or
    /// None if no path leads there.
    pub fn stored(&self, slot: u64, place: i64) -> Option<bool>
        requires above { negsuc 511 ≤ℤ place }
        requires below { place <ℤ pos 0 }
        ensures some { IfSome result (λ b. (k : Types) × (typing self.now slot ≡ Some k) × (b ≡ k.stored (byte_at place))) }
        ensures none { IfNone result (typing self.now slot ≡ None) }
        ensures typed { IsTyping self.now.insns (entry_tags self.now.kind) slot (typing self.now slot) }
    {
        // Places count from the top, bytes from the bottom. The sum is 0 to 511, so the cast is
        // exact.
        let byte = (place + 512).unsigned_abs() as usize;
        match self.facts(slot) {
            Some(facts) => Some(facts.marks.has(byte)),
            None => None,
        }
    }

    /// The facts at a slot, or None if no path leads there.
    fn facts(&self, slot: u64) -> Option<Facts>
        ensures facts { typing self.now slot ≡ known_in (Some result) }
        ensures accepted { IsAccepted self.now }
    {
        // A slot outside the program is one that no path reaches.
        if slot < self.table.len() as u64 {
            self.table[slot as usize]
        } else {
            None
        }
    }
}

/// The tags at the entry of an operator of the kind.
fn entry_tags(kind: Kind) -> [Tag; 11]
    ensures tags { result ≡ entry_tags kind }
    ensures entry { IsEntry result }
{
    let unset = Tag::Unset;
    let [first, second, third, fourth] = match kind {
        Kind::Unary => [Tag::Number, unset, unset, unset],
        Kind::Binary => [Tag::Number, Tag::Number, unset, unset],
        // The value, its row, its column and the thunk.
        Kind::Index => [Tag::Number; 4],
    };
    [
        unset,
        first,
        second,
        third,
        fourth,
        unset,
        unset,
        unset,
        unset,
        unset,
        Tag::Place(0),
    ]
}
