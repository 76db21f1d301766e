//! Matrix text and operators as a static library, for a program that isn't Rattle.
//!
//! Each export says what the crate below it says, in numbers and arrays: `spmat_read` is `read` of
//! `matrix_market`, whose answer `specs/Answer.antt` puts into numbers, and `spmat_write` writes
//! the lines of its canonical text (`specs/Lines.antt`). `spmat_assemble` is `assemble` of
//! `bpf_text` (`specs/Verdict.antt`), and `spmat_call` is `verify` of `bpf_verify` and `call` of
//! `bpf_run` (`specs/Calls.antt`). Whoever calls them meets the types of their parameters alone: no
//! contract requires anything.
//!
//! Read `answer`, then `copying` (a matrix into arrays) and `lines` (arrays into lines); then
//! `verdict` and `calling`.
#![tactic(auto)]

mod answer;
mod calling;
mod copying;
mod lines;
mod verdict;

ghost use Rattle.std.specs.Prelude.{◌≡◌, ◌≤◌, ◌-◌, ◌^◌, length, take};
ghost use Rattle.spmat_lib.specs.Answer.{IsAnswer};
ghost use Rattle.spmat_lib.specs.Calls.{Answers, kind_for};
ghost use Rattle.spmat_lib.specs.Lines.{AreLines};
ghost use Rattle.spmat_lib.specs.Verdict.{IsAssembly};

pub use answer::Answer;
use bpf_insn::encode;
use bpf_text::{AsmError, assemble};
use matrix_market::read;
use std::alloc::Global;
pub use verdict::Verdict;

/// The number of this interface, which another one would not have.
const VERSION: u64 = 2;

/// What `spmat_write` returns where it can't write.
const REFUSED: u64 = u64::MAX;

/// The number of this interface.
#[unsafe(no_mangle)]
pub extern "C" fn spmat_version() -> u64
    ensures { result ≡ 2 }
{
    VERSION
}

/// Reads a text into arrays: the row, the column and the value of each entry, by ascending row and
/// column, both counted from 0. An array that is too short for all entries is not for them.
#[unsafe(no_mangle)]
pub extern "C" fn spmat_read(
    alloc: Global,
    text: &[u8],
    rows: &mut [u64],
    columns: &mut [u64],
    values: &mut [u64],
) -> Answer
    ensures { IsAnswer text.now rows.new columns.new values.new result }
{
    match read(alloc, text) {
        Err(error) => answer::refused(error),
        Ok(matrix) => {
            copying::copy_all(&matrix, rows, columns, values);
            answer::of_matrix(&matrix)
        }
    }
}

/// Writes the lines of entries so that they end with `out`, and returns where they start, or
/// 2^64 - 1 where the arrays don't fit. With no values, they are the lines of a pattern.
#[unsafe(no_mangle)]
pub extern "C" fn spmat_write(rows: &[u64], columns: &[u64], values: &[u64], out: &mut [u8]) -> u64
    ensures { AreLines rows.now columns.now values.now out.old out.new result }
{
    if lines::fit(rows, columns, values, out) {
        lines::write(rows, columns, values, out) as u64
    } else {
        REFUSED
    }
}

/// Writes the code of a text of assembly to an array, unless it is too short for all of it.
#[unsafe(no_mangle)]
pub extern "C" fn spmat_assemble(alloc: Global, text: &[u8], code: &mut [u8]) -> Verdict
    ensures { IsAssembly text.now code.new result }
{
    let program = match assemble(alloc, text) {
        Err(error) => return verdict::refused_text(error),
        Ok(program) => program,
    };
    match encode(alloc, &program) {
        Err(_) => verdict::refused_text(AsmError::Memory),
        Ok(bytes) => {
            copy_bytes(&bytes, code);
            verdict::assembled(&bytes)
        }
    }
}

/// Copies bytes to the front of an array, unless it is too short for all of them.
fn copy_bytes(bytes: &[u8], out: &mut [u8])
    ensures { length bytes.now ≤ length out.new → take (length bytes.now) out.new ≡ bytes.now }
{
    if bytes.len() <= out.len() {
        out[..bytes.len()].copy_from_slice(bytes);
    }
}

/// Verifies code as an operator that takes so many words (1, 2 or 4), and calls it on the words of
/// each call. It writes the value and the steps of each.
#[unsafe(no_mangle)]
pub extern "C" fn spmat_call(
    alloc: Global,
    words: u64,
    code: &[u8],
    operands: &[u64],
    values: &mut [u64],
    steps: &mut [u64],
) -> Verdict
    ensures { Answers (kind_for words (length operands.now) (length values.old) (length steps.old))
        code.now operands.now values.new steps.new result }
{
    match calling::kind_for(words, operands.len(), values.len(), steps.len()) {
        Some(kind) => calling::call_code(alloc, kind, code, operands, values, steps),
        None => verdict::ODD,
    }
}
