//! Operators: programs that were verified, with all that their calls need.
ghost use Rattle.std.specs.Prelude.{◌≡◌, ◌≤◌, ◌<◌, ℤ, negsuc, pos, ◌≤ℤ◌, ◌<ℤ◌, length};
ghost use Rattle.std.specs.Prelude.{Some, None, IfOk, IfErr, IfSome, IfNone};
ghost use Rattle.bpf_insn.specs.Effects.{byte_at};
ghost use Rattle.bpf_known.specs.Known.{number_in, IsKnown};
ghost use Rattle.bpf_verify.specs.Accepted.{IsAccepted, IsAcceptable, IsSound, ExplainsRefusal, IsTyping, typing};
ghost use Rattle.bpf_verify.specs.Accepted.{entry_tags};
ghost use Rattle.bpf_verify.specs.Flat.{IsFlat};
ghost use Rattle.bpf_verify.specs.Tags.{Types};

use crate::checked::{Checked, check};
use crate::error::VerifyError;
use crate::flat_code::FlatCode;
use crate::tag::Tag;
use bpf_insn::{Kind, Program};
use bpf_known::{KnownCall, known_of, number_in};
use std::alloc::Global;
use std::marker::Model;

/// A program that was verified as an operator of a kind, with the facts at each of its slots, its
/// flat code, and its family. A contract sees an `Accepted`, of which `IsAccepted` holds.
#[derive(Drop)]
pub struct Operator {
    checked: Checked,
    code: FlatCode,
    /// The family of its program, if it is recognised.
    known: Option<KnownCall>,
    /// The constant in the program.
    number: u64,
}

impl Model for Operator {
    ghost use Rattle.std.specs.Prelude.{◌≡◌, IfSome};
    ghost use Rattle.bpf_known.specs.Known.{number_in, IsKnown};
    ghost use Rattle.bpf_verify.specs.Accepted.{Accepted, IsAccepted};
    ghost use Rattle.bpf_verify.specs.Flat.{IsFlat};

    ghost Value = { Accepted };

    ghost view = { λ o. o.checked };

    ghost invariant = { λ o. IsAccepted o.checked × IsFlat o.checked o.code
        × IfSome o.known (IsKnown o.checked.kind o.checked.insns) × (o.number ≡ number_in o.checked.insns) };
}

/// The operator of the program, if it has no slot fault and no path shows a fault. Otherwise the
/// program comes back, with its first fault, or, if it has no slot fault, with `Memory`.
pub fn verify(
    alloc: Global,
    program: Program,
    kind: Kind,
) -> Result<Operator, (Program, VerifyError)>
    ensures kind { IfOk result (λ operator. operator.kind ≡ kind) }
    ensures program { IfOk result (λ operator. operator.insns ≡ program) }
    ensures accepted { IfOk result (λ operator. IsAcceptable kind program) }
    ensures sound { IfOk result (λ operator. IsSound kind program) }
    ensures back { IfErr result (λ refusal. refusal.0 ≡ program) }
    ensures refused { IfErr result (λ refusal. ExplainsRefusal kind program refusal.1) }
{
    let checked = check(alloc, program, kind)?;
    match FlatCode::of(alloc, &checked) {
        Ok(code) => Ok(Operator::new(checked, code)),
        // The caller gets its program back, whatever was refused.
        Err(_) => Err((checked.into_program(), VerifyError::Memory)),
    }
}

impl Operator {
    /// The operator of a program that was checked, and of its flat code.
    fn new(checked: Checked, code: FlatCode) -> Self
        requires { IsFlat checked code }
        ensures { result ≡ checked }
    {
        // Here, once, so that a call looks nothing up.
        let known = known_of(checked.kind(), checked.program());
        let number = number_in(checked.program());
        Operator {
            checked,
            code,
            known,
            number,
        }
    }

    /// What holds of any operator. It is for the prover alone.
    #[inline(always)]
    pub fn recall(&self)
        ensures { IsAccepted self.now }
    {
        // What a type promises is known where one of its fields is used.
        let _ = &self.checked;
    }

    /// How many instructions the program has: no call takes more steps.
    pub fn len(&self) -> u64
        ensures { result ≡ length self.now.insns }
    {
        self.checked.program().len()
    }

    /// The kind of operands.
    pub fn kind(&self) -> Kind
        ensures { result ≡ self.now.kind }
    {
        self.checked.kind()
    }

    /// The program.
    pub fn program(&self) -> &Program
        ensures same { result.now ≡ self.now.insns }
        ensures accepted { IsAccepted self.now }
    {
        self.checked.program()
    }

    /// What is known of R0 to R10 at a slot, or None if no path leads there.
    pub fn typing(&self, slot: u64) -> Option<[Tag; 11]>
        ensures some { IfSome result (λ tags. (k : Types) × (typing self.now slot ≡ Some k) × (tags ≡ k.tags)) }
        ensures none { IfNone result (typing self.now slot ≡ None) }
        ensures typed { IsTyping self.now.insns (entry_tags self.now.kind) slot (typing self.now slot) }
    {
        self.checked.typing(slot)
    }

    /// Whether all paths to a slot have stored the byte at a place of the stack, -512 to -1, or
    /// None if no path leads there.
    pub fn stored(&self, slot: u64, place: i64) -> Option<bool>
        requires above { negsuc 511 ≤ℤ place }
        requires below { place <ℤ pos 0 }
        ensures some { IfSome result (λ b. (k : Types) × (typing self.now slot ≡ Some k) × (b ≡ k.stored (byte_at place))) }
        ensures none { IfNone result (typing self.now slot ≡ None) }
        ensures typed { IsTyping self.now.insns (entry_tags self.now.kind) slot (typing self.now slot) }
    {
        self.checked.stored(slot, place)
    }
}

impl Operator {
    /// The flat code.
    #[inline(always)]
    pub fn code(&self) -> &FlatCode
        ensures accepted { IsAccepted self.now }
        ensures flat { IsFlat self.now result.now }
        ensures some { 0 < length result.now }
        ensures few { length result.now ≤ 4096 }
    {
        &self.code
    }

    /// The family of its program, if it is recognised.
    #[inline]
    pub fn known(&self) -> Option<KnownCall>
        ensures { IfSome result (IsKnown self.now.kind self.now.insns) }
    {
        self.known
    }

    /// The constant in the program.
    #[inline(always)]
    pub fn number(&self) -> u64
        ensures { result ≡ number_in self.now.insns }
    {
        self.number
    }
}
