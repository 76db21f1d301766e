//! Programs from code: slots, each written as its eight bytes in hexadecimal.
use bpf_insn::{Program, decode};
use std::alloc::Global;
use std::test::Fail;

/// `exit`
pub const EXIT: u64 = 0x9500_0000_0000_0000;

/// The code of these slots.
pub fn code_of(alloc: Global, slots: &[u64]) -> Result<Vec<u8>, Fail> {
    let mut code = Vec::new(alloc);
    for slot in slots {
        code.extend_from_slice(&slot.to_be_bytes())?;
    }
    Ok(code)
}

/// The program of these slots.
pub fn program(alloc: Global, slots: &[u64]) -> Result<Program, Fail> {
    Ok(decode(alloc, &code_of(alloc, slots)?)?)
}
