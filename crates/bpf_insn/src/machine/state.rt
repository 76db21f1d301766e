//! Reading the state of the machine.
ghost use Rattle.std.specs.Prelude.{◌≡◌};

use crate::content::Content;
use crate::frame::Frame;
use crate::insn::Operand;
use crate::reg::Reg;

impl Content {
    ghost use Rattle.std.specs.Prelude.{◌≡◌};
    ghost use Rattle.bpf_insn.specs.Reads.{is_unset, is_number, is_place};

    /// Whether the register was never set.
    pub(crate) fn is_unset(self) -> bool
        ensures { result ≡ is_unset self }
    {
        matches!(self, Content::Unset)
    }

    /// Whether it is a number.
    pub(crate) fn is_number(self) -> bool
        ensures { result ≡ is_number self }
    {
        matches!(self, Content::Number(_))
    }

    /// Whether it is a place.
    pub(crate) fn is_place(self) -> bool
        ensures { result ≡ is_place self }
    {
        matches!(self, Content::Place(_))
    }
}

impl Frame {
    ghost use Rattle.bpf_insn.specs.Reads.{content};
    ghost use Rattle.bpf_insn.specs.Effects.{number, operand, stack_index};

    /// The content of a register.
    pub fn content(&self, reg: Reg) -> Content
        ensures { result ≡ content self.now.registers reg }
    {
        self.registers[reg.number() as usize]
    }

    /// The number in a register, or 0 if it has none.
    pub fn number(&self, reg: Reg) -> u64
        ensures { result ≡ number (content self.now.registers reg) }
    {
        match self.content(reg) {
            Content::Number(n) => n,
            // As in the definition, which has to be total: a step that needs a number is refused
            // before.
            _ => 0,
        }
    }

    /// The number of an operand, imm with its sign extended.
    pub fn operand(&self, source: Operand) -> u64
        ensures { result ≡ operand self.now.registers source }
    {
        match source {
            // Sign-extended at both widths: ALU and JMP32 then take the low half.
            Operand::Imm(n) => i64::from(n).cast_unsigned(),
            Operand::Register(reg) => self.number(reg),
        }
    }

    /// The index in the stack of the place in a register, moved by an offset.
    pub fn stack_index(&self, base: Reg, offset: i16) -> u64
        ensures { result ≡ stack_index (content self.now.registers base) offset }
    {
        match self.content(base) {
            // `unsigned_abs` is total, as the definition is. Inside the stack, the sum isn't
            // negative.
            Content::Place(distance) => (i64::from(distance)
                + i64::from(offset)
                + 512).unsigned_abs(),
            // As in the definition. A step that needs a place is refused before.
            _ => 0,
        }
    }
}
