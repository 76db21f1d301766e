//! The decoder: from the bytes of code to a program.
ghost use Rattle.std.specs.Prelude.{◌+◌, ◌++◌, is_some, ◌≡◌, ◌≢◌, ℕ, ◌*◌, ◌/◌, ◌%◌, ◌≤◌};
ghost use Rattle.std.specs.Prelude.{◌⊎◌, false, List, take, length, IfOk, IfErr, MatchResult, IfSome, IfNone, [], ◌∷◌};
ghost use Rattle.std.specs.Prelude.{vec_len, vec_capacity};
ghost use Rattle.std.specs.Int.{w32, to_le_bytes};
ghost use Rattle.bpf_insn.specs.declared.insn.Insn.{Insn};
ghost use Rattle.bpf_insn.specs.Broken.{IsBrokenAtFront};
ghost use Rattle.bpf_insn.specs.Program.{slots_of};
ghost use Rattle.bpf_insn.specs.inner.Program.{cells_of};
ghost use Rattle.bpf_insn.specs.Code.{Spells, ExplainsRefusal, IsBroken, HasOneReading, has_bad_length};
ghost use Rattle.bpf_insn.specs.inner.Code.{BeginsWith};

use crate::build::{insn_of, wide_of};
use crate::check::check;
use crate::fault::{DecodeError, Fault};
use crate::insn::Insn;
use crate::opcode::Opcode;
use crate::program::{MOST_SLOTS, Program, push_cells};
use crate::rule::CodeRule;
use crate::slot::Slot;
use std::alloc::Global;

/// The program whose code the bytes are, or why there is none.
///
/// The length is checked first (`V1`), then each slot in order, and in a slot the rules in order
/// (`V2` to `V6`). `Memory` is returned only if the bytes are the code of a program.
#[tactic(auto, using(crate::proofs::OneReading::one_reading))]
pub fn decode(alloc: Global, code: &[u8]) -> Result<Program, DecodeError>
    ensures ok { IfOk result (Spells code.now) }
    ensures err { IfErr result (ExplainsRefusal code.now) }

    // Code of a program is decoded to that program, where there is memory.
    ensures exact { (p : List Insn) → Spells code.now p
        → MatchResult result (λ q. q ≡ p) (λ e. e ≡ DecodeError.Memory) }

    // This holds of all bytes, so the result is the only one possible.
    ensures one_reading { HasOneReading code.now }
{
    if has_bad_length(code.len()) {
        // Where the code breaks off, or the first slot that is too many.
        let slot = (code.len() / 8).min(MOST_SLOTS) as u64;
        let rule = CodeRule::BadLength;
        return Err(DecodeError::Fault(Fault { slot, rule }));
    }
    // Without memory the code is read all the same: its fault comes before the refusal.
    // One cell a slot: `push_cells` never reallocates, so memory can be refused here alone.
    let reserved = Vec::with_capacity(alloc, code.len() / 8).ok();
    read_program(code, reserved)
}

fn has_bad_length(len: usize) -> bool
    ensures { result ≡ has_bad_length len }
{
    len == 0 || len % 8 != 0 || len > 8 * MOST_SLOTS
}

/// The program of code of a valid length, in a list with capacity for all of its slots; or the
/// code's fault; or, if there is neither a fault nor capacity, `Memory`.
fn read_program(code: &[u8], reserved: Option<Vec<Option<Insn>>>) -> Result<Program, DecodeError>
    requires length { has_bad_length (length code.now) ≡ false }
    requires capacity { IfSome reserved (λ r. (r.items ≡ []) × (length code.now ≤ 8 * vec_capacity r)) }
    ensures ok { IfOk result (Spells code.now) }
    ensures err { IfErr result (ExplainsRefusal code.now) }
{
    let mut cells = reserved;
    let mut slot = 0;
    let mut len = 0;
    let mut rest = code;
    while !rest.is_empty() {
        let insn = match front(rest) {
            Ok(insn) => insn,
            Err(rule) => return Err(DecodeError::Fault(Fault { slot, rule })),
        };
        cells = with_cells(cells, insn);
        // Slots, not instructions: a wide load is two, and faults are reported by slot.
        let slots = insn.slots();
        // `split_at` yields both halves, of which the loop's invariant speaks: read code, then the
        // rest.
        let (_, after) = rest.split_at(8 * slots);
        rest = after;
        slot += slots as u64;
        len += 1;
    }
    match cells {
        Some(cells) => Ok(Program::from_cells(cells, len)),
        None => Err(DecodeError::Memory),
    }
}

/// The cells with those of the instruction, if a list was allocated.
fn with_cells(cells: Option<Vec<Option<Insn>>>, insn: Insn) -> Option<Vec<Option<Insn>>>
    requires { IfSome cells (λ was. vec_len was + slots_of insn ≤ vec_capacity was) }
    ensures some { is_some result ≡ is_some cells }
    ensures more { IfSome result (λ now. IfSome cells (λ was.
        (now.items ≡ was.items ++ cells_of insn) × (vec_capacity was ≤ vec_capacity now))) }
{
    // No list, no cells: the code is read on for its fault alone.
    let Some(mut cells) = cells else {
        return None;
    };
    push_cells(&mut cells, insn);
    Some(cells)
}

/// The instruction at the front of bytes that are whole slots.
fn front(bytes: &[u8]) -> Result<Insn, CodeRule>
    requires some { 8 ≤ length bytes.now }
    requires whole { length bytes.now % 8 ≡ 0 }
    ensures ok { IfOk result (BeginsWith bytes.now) }
    ensures err { IfErr result (IsBrokenAtFront bytes.now) }
{
    let slot = Slot::read(bytes);
    match check(slot) {
        Err(rule) => Err(rule),
        // Nothing remains where the load is in the last slot. `upper_half` tells.
        Ok(Opcode::Wide) => match upper_half(&bytes[8..]) {
            Some(high) => Ok(wide_of(slot, high)),
            None => Err(CodeRule::BrokenWideLoad),
        },
        Ok(opcode) => Ok(insn_of(opcode, slot)),
    }
}

/// The imm of the second slot of a wide load, whose first 32 bits are 0.
fn upper_half(bytes: &[u8]) -> Option<u32>
    requires { length bytes.now % 8 ≡ 0 }
    ensures some { IfSome result (λ high. (8 ≤ length bytes.now)
        × (take 8 bytes.now ≡ 0 ∷ 0 ∷ 0 ∷ 0 ∷ to_le_bytes w32 high)) }
    ensures none { IfNone result (take 4 bytes.now ≢ 0 ∷ 0 ∷ 0 ∷ 0 ∷ []) }
{
    // A wide load in the last slot has no second half.
    if bytes.len() < 8 {
        return None;
    }
    // Opcode, registers and offset of the second half. They break V6, not V2 to V5, since no
    // instruction begins there.
    if bytes[0] != 0 || bytes[1] != 0 || bytes[2] != 0 || bytes[3] != 0 {
        return None;
    }
    Some(u32::from_le_bytes([bytes[4], bytes[5], bytes[6], bytes[7]]))
}
