//! What instructions tell of what they read, write and touch.
use crate::programs::{EXIT, program};
use bpf_insn::{Insn, Reads, Reg, is_outside_stack};
use std::test::Fail;

/// A store of a byte of R9 at R10 - 16, a load of two bytes at R10 - 8, `exit`.
const TOUCHING: [u64; 3] = [0x739a_f0ff_0000_0000, 0x89a0_f8ff_0000_0000, EXIT];

#[test]
fn an_instruction_tells_what_it_reads(rt: HostRuntime) -> Result<(), Fail> {
    let program = program(rt.alloc(), &TOUCHING)?;
    let insns = [program.insn_at(0), program.insn_at(1), program.insn_at(2)];
    let [Some(store), Some(load), Some(exit)] = insns else {
        panic!(rt; "no instruction");
    };
    assert!(rt; matches!(store.reads(), Reads::AsPlaceAndNumber(Reg::R10, Reg::R9)));
    assert!(rt; matches!(load.reads(), Reads::AsPlace(Reg::R10)));
    assert!(rt; matches!(exit.reads(), Reads::AsNumber(Reg::R0)));
    Ok(())
}

/// The offset of an access, and how many bytes it touches.
fn touched(insn: &Insn) -> Option<(i16, u8)> {
    let access = insn.access()?;
    Some((access.offset, access.bytes))
}

#[test]
fn an_instruction_tells_what_it_writes_and_touches(rt: HostRuntime) -> Result<(), Fail> {
    let program = program(rt.alloc(), &TOUCHING)?;
    let insns = [program.insn_at(0), program.insn_at(1), program.insn_at(2)];
    let [Some(store), Some(load), Some(exit)] = insns else {
        panic!(rt; "no instruction");
    };
    assert_eq!(rt; load.written_reg(), Some(Reg::R0));
    assert_eq!(rt; store.written_reg(), None);
    assert_eq!(rt; touched(load), Some((-8, 2)));
    assert!(rt; exit.access().is_none());
    Ok(())
}

#[test]
fn accesses_outside_the_stack_are_told(rt: HostRuntime) -> Result<(), Fail> {
    assert!(rt; is_outside_stack(-513, 1) && is_outside_stack(-1, 2) && !is_outside_stack(-512, 8));
    Ok(())
}
