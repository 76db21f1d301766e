//! Which rule an instruction breaks, where it does.
ghost use Rattle.std.specs.Prelude.{◌≡◌, false, IfOk, IfErr, pos};
ghost use Rattle.std.specs.Option.{option_map};
ghost use Rattle.bpf_insn.specs.Reads.{content, is_unset, is_number, is_place, any_stands, all_reads, number_reads, place_reads};
ghost use Rattle.bpf_insn.specs.Reads.{is_r10, load_access, leaves_stack, accesses_outside, moves_outside};
ghost use Rattle.bpf_insn.specs.Effects.{next_slot, is_unstored};
ghost use Rattle.bpf_insn.specs.Machine.{BreaksNone, BreaksFirst};

use crate::bounds::is_outside_stack;
use crate::content::Content;
use crate::frame::Frame;
use crate::insn::{AluOp, Insn, Operand, Width};
use crate::machine::jumps::{goes_back, landing};
use crate::machine::memory::is_unstored;
use crate::program::Program;
use crate::reads::Access;
use crate::reg::Reg;
use crate::rule::CodeRule;

impl Frame {
    /// The slot that follows the instruction, if one does; or, where the instruction breaks a
    /// rule, the rule of the lowest number that it breaks.
    pub fn allowed_next(&self, program: &Program, insn: Insn) -> Result<Option<u32>, CodeRule>
        ensures next { IfOk result (λ next. next_slot self.now.registers self.now.slot insn ≡ option_map pos next) }
        ensures unbroken { IfOk result (λ next. BreaksNone program.now self.now insn) }
        ensures broken { IfErr result (BreaksFirst program.now self.now insn) }
    {
        // The tests follow the numbers of the rules, so the first that fires is the lowest. V10 and
        // V12 are missing: they speak of code and of several paths, not of one step.
        let next = self.next_slot(insn);
        if goes_back(self.slot, next) {
            return Err(CodeRule::JumpsBack);
        }
        let landing = landing(program, next)?;
        if is_r10(insn.written_reg()) {
            Err(CodeRule::StackTopWritten)
        } else if self.reads_unset(insn) {
            Err(CodeRule::UnsetRead)
        } else if self.reads_place_as_number(insn) {
            Err(CodeRule::NumberWanted)
        } else if self.reads_number_as_place(insn) {
            Err(CodeRule::PlaceWanted)
        } else if self.leaves_stack(insn) {
            Err(CodeRule::OutsideStack)
        } else if self.loads_unstored(insn) {
            Err(CodeRule::UnstoredRead)
        } else {
            Ok(landing)
        }
    }

    /// Whether a register that the instruction reads is unset.
    fn reads_unset(&self, insn: Insn) -> bool
        ensures { result ≡ any_stands is_unset self.now.registers (all_reads insn) }
    {
        insn.reads()
            .registers()
            .as_slice()
            .iter()
            .any(|reg| self.content(*reg).is_unset())
    }

    /// Whether the instruction reads a place where it needs a number.
    fn reads_place_as_number(&self, insn: Insn) -> bool
        ensures { result ≡ any_stands is_place self.now.registers (number_reads insn) }
    {
        insn.reads()
            .numbers()
            .as_slice()
            .iter()
            .any(|reg| self.content(*reg).is_place())
    }

    /// Whether the instruction reads a number where it needs a place.
    fn reads_number_as_place(&self, insn: Insn) -> bool
        ensures { result ≡ any_stands is_number self.now.registers (place_reads insn) }
    {
        insn.reads()
            .places()
            .as_slice()
            .iter()
            .any(|reg| self.content(*reg).is_number())
    }

    /// Whether the instruction reaches, or moves a place, outside the stack.
    fn leaves_stack(&self, insn: Insn) -> bool
        ensures { result ≡ leaves_stack self.now.registers insn }
    {
        match insn {
            // The one instruction that moves a place. All others leave the stack by an access only.
            Insn::Alu {
                width: Width::W64,
                op: AluOp::Add,
                dst,
                src: Operand::Imm(n),
            } => self.moves_outside(dst, n),
            _ => self.accesses_outside(insn.access()),
        }
    }

    /// Whether the instruction loads a byte that was never stored.
    fn loads_unstored(&self, insn: Insn) -> bool
        requires { leaves_stack self.now.registers insn ≡ false }
        ensures { result ≡ is_unstored self.now.registers self.now.stack (load_access insn) }
    {
        match insn.load_access() {
            Some(access) => {
                let first = self.stack_index(access.base, access.offset);
                is_unstored(&self.stack, first as usize, access.bytes)
            }
            None => false,
        }
    }

    fn accesses_outside(&self, access: Option<Access>) -> bool
        ensures { result ≡ accesses_outside self.now.registers access }
    {
        let Some(access) = access else {
            return false;
        };
        match self.content(access.base) {
            Content::Place(distance) => is_outside_stack(
                i64::from(distance) + i64::from(access.offset),
                access.bytes,
            ),
            // Unset or a number: V11 or V14 is reported before this rule.
            _ => false,
        }
    }

    fn moves_outside(&self, reg: Reg, by: i32) -> bool
        ensures { result ≡ moves_outside (content self.now.registers reg) by }
    {
        match self.content(reg) {
            // No bytes are accessed: the moved place alone has to be inside.
            Content::Place(distance) => is_outside_stack(i64::from(distance) + i64::from(by), 0),
            _ => false,
        }
    }
}

fn is_r10(reg: Option<Reg>) -> bool
    ensures { result ≡ is_r10 reg }
{
    matches!(reg, Some(Reg::R10))
}
