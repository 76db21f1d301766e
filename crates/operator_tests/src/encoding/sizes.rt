//! Programs of all sizes, where a refusal for lack of memory would be a lie that no clause shows.
use super::*;
use crate::programs::program;

/// The instruction of a slot.
fn insn_of(alloc: Global, slot: u64) -> Result<Insn, Fail> {
    match program(alloc, &[slot])?.insn_at(0) {
        Some(insn) => Ok(*insn),
        None => Err("no instruction".into()),
    }
}

/// That a program of these instructions is encoded to this code.
fn expect_encoded(
    rt: &impl Abort,
    alloc: Global,
    insns: Vec<Insn>,
    code: &[u8],
) -> Result<(), Fail> {
    let program = Program::from_insns(alloc, insns)?;
    expect_code(rt, alloc, &program, code)
}

/// No size is refused where there is memory.
#[test]
fn instructions_of_many_sizes_are_encoded(rt: HostRuntime) -> Result<(), Fail> {
    let mut code = Vec::new(rt.alloc());
    let mut insns = Vec::new(rt.alloc());
    for slots in 1..=4096u64 {
        let slot = SLOTS[(slots % 115) as usize];
        code.extend_from_slice(&slot.to_be_bytes())?;
        insns.push(insn_of(rt.alloc(), slot)?)?;
        if slots % 64 == 0 {
            expect_encoded(&rt, rt.alloc(), insns.to_vec(rt.alloc())?, &code)?;
        }
    }
    Ok(())
}

/// The code of 2,048 wide loads.
fn wide_loads(alloc: Global) -> Result<Vec<u8>, Fail> {
    let mut code = Vec::new(alloc);
    for _ in 0..2048 {
        code.extend_from_slice(&0x1800_0000_0700_0000u64.to_be_bytes())?;
        code.extend_from_slice(&0x0000_0000_0900_0000u64.to_be_bytes())?;
    }
    Ok(code)
}

#[test]
fn wide_loads_fill_a_program(rt: HostRuntime) -> Result<(), Fail> {
    let code = wide_loads(rt.alloc())?;
    let wide = Insn::Wide {
        dst: Reg::R0,
        value: 0x9_0000_0007,
    };
    expect_encoded(&rt, rt.alloc(), vec![in rt.alloc(); wide; 2048]?, &code)
}
