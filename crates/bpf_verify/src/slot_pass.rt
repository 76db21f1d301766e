//! The slot pass: faults of a program that don't depend on its registers (V7 to V10).
ghost use Rattle.std.specs.Prelude.{◌≡◌, ◌<◌, ◌≤◌, ◌+◌, ℕ, IfSome, IfNone, Some, None};
ghost use Rattle.bpf_insn.specs.Program.{slots_of, IsProgram};
ghost use Rattle.bpf_insn.specs.Machine.{goes_back, goes_nowhere};
ghost use Rattle.bpf_insn.specs.Reads.{is_r10, written_reg};
ghost use Rattle.bpf_verify.specs.Slots.{jump_target, is_exit, ends_without_exit, slot_rule, IsSlotFault, HasNoSlotFault};
ghost use Rattle.bpf_verify.specs.Slots.{HasNoSlotFaultBelow};
ghost use Rattle.bpf_verify.specs.inner.Pass.{IsClean};

use bpf_insn::{CodeRule, Fault, Insn, Program, Reg};

/// The slot fault of the program, if it has one: the lowest slot that breaks a rule of V7 to V10,
/// with the lowest of these that it breaks.
pub(crate) fn slot_fault(program: &Program) -> Option<Fault>
    ensures none { IfNone result (HasNoSlotFault program.now) }
    ensures some { IfSome result (λ fault. IsSlotFault program.now fault.slot fault.rule) }
    ensures program { IsProgram program.now }
{
    for slot in 0..program.slots() {
        // Slots outside, rules inside: the lowest slot counts first, then the lowest rule.
        if let Some(rule) = rule_at(program, slot) {
            return Some(Fault { slot, rule });
        }
    }
    None
}

/// The lowest rule that the slot breaks, if it breaks one.
fn rule_at(program: &Program, slot: u64) -> Option<CodeRule>
    requires { slot < 4096 }
    ensures none { IfNone result
        (HasNoSlotFaultBelow slot program.now → HasNoSlotFaultBelow (slot + 1) program.now) }
    ensures some { IfSome result
        (λ rule. HasNoSlotFaultBelow slot program.now → IsSlotFault program.now slot rule) }
{
    match program.insn_at(slot) {
        Some(insn) => slot_rule(program, slot, *insn),
        // The second half of a wide load breaks no rule.
        None => None,
    }
}

/// The lowest rule that the instruction breaks at this slot.
fn slot_rule(program: &Program, slot: u64, insn: Insn) -> Option<CodeRule>
    requires { slot < 4096 }
    ensures { result ≡ slot_rule program.now slot insn }
{
    let to = jump_target(slot, insn);
    // In the order of the rules' numbers.
    if goes_back(slot, to) {
        Some(CodeRule::JumpsBack)
    } else if goes_nowhere(program, to) {
        Some(CodeRule::JumpsNowhere)
    } else if writes_r10(insn) {
        Some(CodeRule::StackTopWritten)
    } else if ends_without_exit(program, slot, insn) {
        // All jumps lead forward, so only the last instruction can run past the end.
        Some(CodeRule::NoExitAtEnd)
    } else {
        None
    }
}

/// The slot that the instruction jumps to, if it may jump.
fn jump_target(slot: u64, insn: Insn) -> Option<i64>
    requires { slot < 4096 }
    ensures { result ≡ jump_target slot insn }
{
    // Signed: an offset may lead before slot 0. A slot is below 4,096, so the cast is exact.
    let next = slot as i64 + 1;
    match insn {
        Insn::Ja { offset } => Some(next + i64::from(offset)),
        Insn::Ja32 { offset } => Some(next + i64::from(offset)),
        Insn::Jump { offset, .. } => Some(next + i64::from(offset)),
        _ => None,
    }
}

fn goes_back(slot: u64, to: Option<i64>) -> bool
    requires { slot < 4096 }
    ensures { result ≡ goes_back slot to }
{
    match to {
        Some(to) => to <= slot as i64,
        None => false,
    }
}

fn goes_nowhere(program: &Program, to: Option<i64>) -> bool
    ensures { result ≡ goes_nowhere program.now to }
{
    match to {
        // The sign is tested first, since the cast would make a slot of a negative number.
        Some(to) => to < 0 || program.insn_at(to as u64).is_none(),
        None => false,
    }
}

fn writes_r10(insn: Insn) -> bool
    ensures { result ≡ is_r10 (written_reg insn) }
{
    matches!(insn.written_reg(), Some(Reg::R10))
}

/// Whether it is the last instruction, and no EXIT.
fn ends_without_exit(program: &Program, slot: u64, insn: Insn) -> bool
    requires { slot < 4096 }
    ensures { result ≡ ends_without_exit program.now slot insn }
{
    slot + slots_of(insn) == program.slots() && !matches!(insn, Insn::Exit)
}

fn slots_of(insn: Insn) -> u64
    ensures { result ≡ slots_of insn }
{
    match insn {
        Insn::Wide { .. } => 2,
        _ => 1,
    }
}
