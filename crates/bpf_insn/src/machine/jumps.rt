//! Which slot follows an instruction (RFC 9669, section 4.3), and whether a program may go on
//! there.
ghost use Rattle.std.specs.Prelude.{◌≡◌, ◌<◌, true, false, Some, IfOk, IfErr, pos};
ghost use Rattle.std.specs.Bool.{OnTrue};
ghost use Rattle.std.specs.Option.{option_map};
ghost use Rattle.bpf_insn.specs.Program.{insn_at};
ghost use Rattle.bpf_insn.specs.Reads.{are_numbers, number_reads};
ghost use Rattle.bpf_insn.specs.Effects.{next_slot};
ghost use Rattle.bpf_insn.specs.Machine.{begins, goes_back, goes_nowhere};

use crate::arithmetic::holds;
use crate::frame::Frame;
use crate::insn::Insn;
use crate::program::Program;
use crate::rule::CodeRule;

impl Frame {
    /// The slot that follows the instruction, if one does.
    pub fn next_slot(&self, insn: Insn) -> Option<i64>
        ensures { result ≡ next_slot self.now.registers self.now.slot insn }
    {
        // Signed and wide: a jump may point before slot 0, and `ja32` adds 32 bits.
        let after = i64::from(self.slot) + 1;
        match insn {
            Insn::Exit => None,
            Insn::Ja { offset } => Some(after + i64::from(offset)),
            Insn::Ja32 { offset } => Some(after + i64::from(offset)),
            Insn::Jump {
                width,
                cond,
                left,
                right,
                offset,
            } => {
                // Without two numbers the condition has no value. The step is refused by V11 or
                // V13, so this slot is never used.
                if !self.are_numbers(insn) {
                    return None;
                }
                if holds(width, cond, self.number(left), self.operand(right)) {
                    Some(after + i64::from(offset))
                } else {
                    Some(after)
                }
            }
            // Over the second half, where no instruction begins.
            Insn::Wide { .. } => Some(after + 1),
            _ => Some(after),
        }
    }

    /// Whether the registers from which the instruction takes numbers contain numbers.
    fn are_numbers(&self, insn: Insn) -> bool
        ensures { result ≡ are_numbers self.now.registers (number_reads insn) }
    {
        insn.reads()
            .numbers()
            .as_slice()
            .iter()
            .all(|reg| self.content(*reg).is_number())
    }
}

/// Whether an instruction of the program begins at the slot.
pub fn begins(program: &Program, slot: u64) -> bool
    ensures value { result ≡ begins program.now slot }
    ensures within { OnTrue result (slot < 4096) }
{
    slot < program.slots() && program.insn_at(slot).is_some()
}

/// The instruction that begins at the slot.
pub fn fetch(program: &Program, slot: u64) -> Insn
    requires { begins program.now slot ≡ true }
    ensures { insn_at program.now slot ≡ Some result }
{
    // By `requires`, an instruction begins here.
    let Some(insn) = program.insn_at(slot) else {
        unreachable!();
    };
    *insn
}

/// Whether the next slot is this one or one before it.
pub fn goes_back(slot: u32, next: Option<i64>) -> bool
    ensures { result ≡ goes_back slot next }
{
    match next {
        // Equal counts as back: a jump to itself would never end.
        Some(to) => to <= i64::from(slot),
        None => false,
    }
}

/// The next slot, if there is one, or `V8` where no instruction of the program begins there.
pub fn landing(program: &Program, next: Option<i64>) -> Result<Option<u32>, CodeRule>
    ensures slot { IfOk result (λ slot. next ≡ option_map pos slot) }
    ensures begins { IfOk result (λ slot. goes_nowhere program.now next ≡ false) }
    ensures rule { IfErr result (λ rule. rule ≡ CodeRule.JumpsNowhere) }
    ensures nowhere { IfErr result (λ rule. goes_nowhere program.now next ≡ true) }
{
    let Some(to) = next else {
        return Ok(None);
    };
    // The sign is tested first, since the cast would make a slot of a negative number.
    if to < 0 || !begins(program, to as u64) {
        return Err(CodeRule::JumpsNowhere);
    }
    // `begins` holds below 4,096 alone, so the cast is exact.
    Ok(Some(to as u32))
}
