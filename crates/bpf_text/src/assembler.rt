//! The assembler: from text to a program.
ghost use Rattle.std.specs.Prelude.{◌≡◌, List, MatchResult, IfOk, IfErr};
ghost use Rattle.bpf_insn.specs.declared.insn.Insn.{Insn};
ghost use Rattle.bpf_text.specs.Text.{IsTextOf, ExplainsRefusal, HasOneReading};

use crate::fault::{AsmError, AsmFault};
use crate::listing::Listing;
use crate::rule::AsmRule;
use bpf_insn::Program;
use std::alloc::Global;
use text_words::first_line;

/// The program that the text denotes, or why there is none.
///
/// The first faulty line is reported, and the lowest rule that it breaks. `Memory` is returned only
/// if the text denotes a program.
#[tactic(auto, using(crate::proofs::OneReading::one_reading))]
pub fn assemble(alloc: Global, text: &[u8]) -> Result<Program, AsmError>
    ensures ok { IfOk result (λ p. IsTextOf text.now p) }
    ensures err { IfErr result (ExplainsRefusal text.now) }

    // A text of a program is assembled to that program, if there is memory.
    ensures exact { (p : List Insn) → IsTextOf text.now p
        → MatchResult result (λ q. q ≡ p) (λ e. e ≡ AsmError.Memory) }

    // This holds of all texts, so the result is the only one possible.
    ensures one_reading { HasOneReading text.now }
{
    let mut listing = Listing::new(alloc);
    let mut line = 0;
    let mut rest = text;
    // Lines are cut as the loop goes, so no list of lines is needed.
    while let Some((first, behind)) = first_line(rest) {
        line += 1;
        if let Err(rule) = listing.read(first) {
            return Err(AsmError::Fault(AsmFault { line, rule }));
        }
        rest = behind;
    }
    // A6 is reported for the line after the last.
    if listing.is_empty() {
        let rule = AsmRule::BadLength;
        line += 1;
        return Err(AsmError::Fault(AsmFault { line, rule }));
    }
    // Only now: a fault of any line comes before "out of memory".
    let Some(insns) = listing.insns() else {
        return Err(AsmError::Memory);
    };
    match Program::from_insns(alloc, insns) {
        Ok(program) => Ok(program),
        // The listing has counted the slots, so this can't be V1.
        Err(_) => Err(AsmError::Memory),
    }
}
