//! The encoder: from a program to the bytes of its code.
ghost use Rattle.std.specs.Prelude.{◌≡◌, ◌++◌, [], ◌∷◌, IfOk, OnOk};
ghost use Rattle.bpf_insn.specs.Spelling.{spelling};
ghost use Rattle.bpf_insn.specs.Code.{Spells, IsOnlyCodeOf, NoSpellingBeginsAnother, code_of};
ghost use Rattle.bpf_insn.specs.Program.{insns_of};

use crate::insn::Insn;
use crate::program::Program;
use crate::spell::{first_slot, second_slot};
use std::alloc::{AllocError, Global};

/// The code of the program: the only bytes that spell it.
pub fn encode(alloc: Global, program: &Program) -> Result<Vec<u8>, AllocError>
    ensures code { IfOk result (λ code. Spells code.items program.now) }
    ensures only { IfOk result (λ code. IsOnlyCodeOf code.items program.now) }

    // This is a law of all instructions, so these bytes spell no other program.
    ensures law { NoSpellingBeginsAnother }
{
    let cells = program.cells();
    // Each cell is eight bytes, so the appends below don't reallocate.
    let mut code = Vec::with_capacity(alloc, 8 * cells.len())?;
    for cell in cells {
        push_cell(&mut code, *cell)?;
    }
    Ok(code)
}

/// Appends the bytes that spell the instruction which begins at the slot, if there is one.
fn push_cell(code: &mut Vec<u8>, cell: Option<Insn>) -> Result<(), AllocError>
    ensures { OnOk result (code.new.items ≡ code.old.items ++ code_of (insns_of (cell ∷ []))) }
{
    match cell {
        Some(insn) => push_spelling(code, insn),
        // The second half of a wide load, written together with the first.
        None => Ok(()),
    }
}

/// Appends the bytes that spell the instruction.
fn push_spelling(code: &mut Vec<u8>, insn: Insn) -> Result<(), AllocError>
    ensures { OnOk result (code.new.items ≡ code.old.items ++ spelling insn) }
{
    code.extend_from_slice(&first_slot(insn).bytes())?;
    if let Insn::Wide { value, .. } = insn {
        code.extend_from_slice(&second_slot(value).bytes())?;
    }
    Ok(())
}
