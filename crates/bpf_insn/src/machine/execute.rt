//! What an instruction writes (RFC 9669, sections 4 and 5).
ghost use Rattle.std.specs.Prelude.{◌≡◌, false};
ghost use Rattle.bpf_insn.specs.Reads.{content, byte_count, signed_byte_count, reaches_outside, leaves_stack, moves_outside};
ghost use Rattle.bpf_insn.specs.Effects.{written, alu_content, stack_index, loaded, loaded_signed, new_registers, new_stack, moved};

use crate::arithmetic::{arithmetic, end_value, extended};
use crate::content::Content;
use crate::frame::Frame;
use crate::insn::{AluOp, Insn, Operand, SignedSize, Size, Width};
use crate::machine::memory::{load, load_signed, store};
use crate::reg::Reg;

impl Frame {
    /// Writes what the instruction writes, into a register or the stack.
    pub fn execute(&mut self, insn: Insn)
        requires { leaves_stack self.old.registers insn ≡ false }
        ensures { self.new ≡ record self.old {
          stack = new_stack self.old.registers self.old.stack insn;
          registers = new_registers self.old.registers (written self.old.registers self.old.stack insn);
        } }
    {
        // Read before the stack changes: what is written is defined by the state before the step.
        let written = self.written(insn);
        self.write_stack(insn);
        if let Some((reg, content)) = written {
            self.registers[reg.number() as usize] = content;
        }
    }

    /// The register that the instruction writes, with what is then in it.
    fn written(&self, insn: Insn) -> Option<(Reg, Content)>
        requires { leaves_stack self.now.registers insn ≡ false }
        ensures { result ≡ written self.now.registers self.now.stack insn }
    {
        match insn {
            Insn::Alu {
                width,
                op,
                dst,
                src,
            } => Some((dst, self.alu_content(width, op, dst, src))),
            Insn::Neg { width, dst } => {
                let value = arithmetic(width, AluOp::Sub, 0, self.number(dst));
                Some((dst, Content::Number(value)))
            }
            Insn::Movsx {
                extension,
                dst,
                src,
            } => Some((dst, Content::Number(extended(extension, self.number(src))))),
            Insn::End { order, size, dst } => {
                Some((
                    dst,
                    Content::Number(end_value(order, size, self.number(dst))),
                ))
            }
            Insn::Ldx {
                size,
                dst,
                base,
                offset,
            } => Some((dst, Content::Number(self.loaded(size, base, offset)))),
            Insn::Ldsx {
                size,
                dst,
                base,
                offset,
            } => Some((dst, Content::Number(self.loaded_signed(size, base, offset)))),
            Insn::Wide { dst, value } => Some((dst, Content::Number(value))),
            _ => None,
        }
    }

    /// The number that a load takes from the stack.
    fn loaded(&self, size: Size, base: Reg, offset: i16) -> u64
        requires { reaches_outside (content self.now.registers base) offset (byte_count size) ≡ false }
        ensures { result ≡ loaded size self.now.stack (stack_index (content self.now.registers base) offset) }
    {
        let index = self.stack_index(base, offset) as usize;
        load(size, &self.stack, index)
    }

    /// The number that a load takes from the stack, with its sign extended to 64 bits.
    fn loaded_signed(&self, size: SignedSize, base: Reg, offset: i16) -> u64
        requires { reaches_outside (content self.now.registers base) offset (signed_byte_count size) ≡ false }
        ensures { result ≡ loaded_signed size self.now.stack (stack_index (content self.now.registers base) offset) }
    {
        let index = self.stack_index(base, offset) as usize;
        load_signed(size, &self.stack, index)
    }

    /// The result of an operation of two operands.
    fn alu_content(&self, width: Width, op: AluOp, dst: Reg, src: Operand) -> Content
        requires { leaves_stack self.now.registers (Insn.Alu width op dst src) ≡ false }
        ensures { result ≡ alu_content self.now.registers width op dst src }
    {
        match (width, op, src) {
            // These two are the only operations on a place: a move of it, and a copy.
            (Width::W64, AluOp::Add, Operand::Imm(n)) => moved(self.content(dst), n),
            (Width::W64, AluOp::Mov, Operand::Register(src)) => self.content(src),
            _ => Content::Number(arithmetic(width, op, self.number(dst), self.operand(src))),
        }
    }

    /// Writes what the instruction stores.
    fn write_stack(&mut self, insn: Insn)
        requires { leaves_stack self.old.registers insn ≡ false }
        ensures { self.new ≡ record self.old { stack = new_stack self.old.registers self.old.stack insn } }
    {
        match insn {
            Insn::Stx {
                size,
                base,
                offset,
                src,
            } => {
                let index = self.stack_index(base, offset) as usize;
                let value = self.number(src);
                store(size, &mut self.stack, index, value);
            }
            Insn::St {
                size,
                base,
                offset,
                imm,
            } => {
                let index = self.stack_index(base, offset) as usize;
                // At 64 bits ST stores imm with its sign extended.
                store(size, &mut self.stack, index, i64::from(imm).cast_unsigned());
            }
            _ => {}
        }
    }
}

/// A number plus `by`, or a place moved by it.
fn moved(content: Content, by: i32) -> Content
    requires { moves_outside content by ≡ false }
    ensures { result ≡ moved content by }
{
    match content {
        Content::Unset => Content::Unset,
        Content::Number(n) => Content::Number(n.wrapping_add(i64::from(by).cast_unsigned())),
        // In i64, since imm has 32 bits. The sum is within -512 to 0 by the contract, so the cast
        // is exact.
        Content::Place(distance) => Content::Place((i64::from(distance) + i64::from(by)) as i16),
    }
}
