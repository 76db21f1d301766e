//! The rules that one slot is held to.
ghost use Rattle.std.specs.Prelude.{◌≡◌, ℕ, false, List, IfOk, IfErr};
ghost use Rattle.bpf_insn.specs.Rule.{IsLowest};
ghost use Rattle.bpf_insn.specs.Broken.{is_outside_profile, SlotBreaks, has_bad_register, has_bad_field};
ghost use Rattle.bpf_insn.specs.inner.Code.{IsRight};

use crate::fields::{allows_imm, allows_offset, uses_dst, uses_src};
use crate::opcode::{Opcode, opcode_of};
use crate::rule::CodeRule;
use crate::slot::Slot;

fn is_outside_profile(slot: Slot) -> bool
    ensures { result ≡ is_outside_profile slot }
{
    match slot.opcode {
        // CALL; atomics; legacy packet loads. BPF has them, so V3 tells an author more than V2.
        0x85 | 0xc3 | 0xdb | 0x20 | 0x28 | 0x30 | 0x40 | 0x48 | 0x50 => true,
        // Any other source field makes it a load of a map's address or the like.
        0x18 => slot.src != 0,
        _ => false,
    }
}

fn has_bad_register(opcode: Opcode, slot: Slot) -> bool
    ensures { result ≡ has_bad_register opcode slot }
{
    uses_dst(opcode) && slot.dst > 10 || uses_src(opcode) && slot.src > 10
}

fn has_bad_field(opcode: Opcode, slot: Slot) -> bool
    ensures { result ≡ has_bad_field opcode slot }
{
    !uses_dst(opcode) && slot.dst > 0
        || !uses_src(opcode) && slot.src > 0
        || !allows_offset(opcode, slot.offset)
        || !allows_imm(opcode, slot.imm)
}

/// The opcode of a first slot, or the lowest rule that its fields break. The second slot of a wide
/// load is checked elsewhere.
#[tactic(auto, using(crate::proofs::Faults::bad_register_is_lowest, crate::proofs::Faults::bad_field_is_lowest))]
pub fn check(slot: Slot) -> Result<Opcode, CodeRule>
    ensures right { IfOk result (λ o. IsRight o slot) }
    ensures inside { IfOk result (λ o. is_outside_profile slot ≡ false) }
    ensures lowest { IfErr result (λ rule. (bytes : List ℕ) → IsLowest (SlotBreaks slot bytes) rule) }
{
    // V3 before V2: none of these bytes is in the table of opcodes, which would call them unknown.
    if is_outside_profile(slot) {
        return Err(CodeRule::OutsideProfile);
    }
    let Some(opcode) = opcode_of(slot.opcode) else {
        return Err(CodeRule::UnknownOpcode);
    };
    if has_bad_register(opcode, slot) {
        return Err(CodeRule::RegisterAboveTen);
    }
    if has_bad_field(opcode, slot) {
        return Err(CodeRule::UnusedField);
    }
    Ok(opcode)
}
