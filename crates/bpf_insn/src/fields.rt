//! Which fields each opcode uses, and which values it allows in them.
ghost use Rattle.std.specs.Prelude.{◌≡◌};
ghost use Rattle.bpf_insn.specs.Fields.{uses_dst, uses_src, allows_offset, allows_imm};

use crate::insn::Width;
use crate::opcode::{AluCode, Opcode, Source};

/// Whether the opcode uses the destination register.
pub fn uses_dst(opcode: Opcode) -> bool
    ensures { result ≡ uses_dst opcode }
{
    match opcode {
        Opcode::Ja | Opcode::Ja32 | Opcode::Exit => false,
        _ => true,
    }
}

/// Whether the opcode uses the source register.
pub fn uses_src(opcode: Opcode) -> bool
    ensures { result ≡ uses_src opcode }
{
    match opcode {
        Opcode::Alu(_, _, Source::X)
        | Opcode::Jump(_, _, Source::X)
        | Opcode::Ldx(_)
        | Opcode::Ldsx(_)
        | Opcode::Stx(_) => true,
        _ => false,
    }
}

/// Whether the opcode's offset field may have these bits.
pub fn allows_offset(opcode: Opcode, offset: u16) -> bool
    ensures { result ≡ allows_offset opcode offset }
{
    match opcode {
        // 1 makes the operation signed: SDIV and SMOD.
        Opcode::Alu(_, AluCode::Div | AluCode::Mod, _) => offset == 0 || offset == 1,
        // Not 0 is MOVSX, which moves so many low bits. A narrow one can't extend from 32.
        Opcode::Alu(Width::W32, AluCode::Mov, Source::X) => offset == 0
            || offset == 8
            || offset == 16,
        Opcode::Alu(Width::W64, AluCode::Mov, Source::X) => {
            offset == 0 || offset == 8 || offset == 16 || offset == 32
        }
        Opcode::Ja
        | Opcode::Jump(_, _, _)
        | Opcode::Ldx(_)
        | Opcode::Ldsx(_)
        | Opcode::Stx(_)
        | Opcode::St(_) => true,
        _ => offset == 0,
    }
}

/// Whether the opcode's imm field may have these bits.
pub fn allows_imm(opcode: Opcode, imm: u32) -> bool
    ensures { result ≡ allows_imm opcode imm }
{
    match opcode {
        Opcode::Alu(_, _, Source::K)
        | Opcode::Jump(_, _, Source::K)
        | Opcode::Ja32
        | Opcode::St(_)
        | Opcode::Wide => true,
        Opcode::End(_) => imm == 16 || imm == 32 || imm == 64,
        _ => imm == 0,
    }
}
