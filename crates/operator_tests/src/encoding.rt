//! Code as bytes: what no clause shows, on values from outside.
mod accesses;
mod sizes;

use crate::programs::{EXIT, code_of};
use bpf_insn::{
    AluOp, CodeRule, DecodeError, Fault, Insn, InsnsError, Operand, Program, Reg, Width, decode,
    encode,
};
use std::alloc::Global;
use std::process::Abort;
use std::test::Fail;

/// A slot with each opcode of the profile but the wide load's.
const SLOTS: [u64; 115] = [
    // The arithmetic of two operands.
    0x0401_0000_feff_ffff,
    0x0c21_0000_0000_0000,
    0x0701_0000_feff_ffff,
    0x0f21_0000_0000_0000,
    0x1401_0000_feff_ffff,
    0x1c21_0000_0000_0000,
    0x1701_0000_feff_ffff,
    0x1f21_0000_0000_0000,
    0x2401_0000_feff_ffff,
    0x2c21_0000_0000_0000,
    0x2701_0000_feff_ffff,
    0x2f21_0000_0000_0000,
    0x3401_0000_feff_ffff,
    0x3c21_0000_0000_0000,
    0x3701_0000_feff_ffff,
    0x3f21_0000_0000_0000,
    0x4401_0000_feff_ffff,
    0x4c21_0000_0000_0000,
    0x4701_0000_feff_ffff,
    0x4f21_0000_0000_0000,
    0x5401_0000_feff_ffff,
    0x5c21_0000_0000_0000,
    0x5701_0000_feff_ffff,
    0x5f21_0000_0000_0000,
    0x6401_0000_feff_ffff,
    0x6c21_0000_0000_0000,
    0x6701_0000_feff_ffff,
    0x6f21_0000_0000_0000,
    0x7401_0000_feff_ffff,
    0x7c21_0000_0000_0000,
    0x7701_0000_feff_ffff,
    0x7f21_0000_0000_0000,
    0x9401_0000_feff_ffff,
    0x9c21_0000_0000_0000,
    0x9701_0000_feff_ffff,
    0x9f21_0000_0000_0000,
    0xa401_0000_feff_ffff,
    0xac21_0000_0000_0000,
    0xa701_0000_feff_ffff,
    0xaf21_0000_0000_0000,
    0xb401_0000_feff_ffff,
    0xbc21_0000_0000_0000,
    0xb701_0000_feff_ffff,
    0xbf21_0000_0000_0000,
    0xc401_0000_feff_ffff,
    0xcc21_0000_0000_0000,
    0xc701_0000_feff_ffff,
    0xcf21_0000_0000_0000,
    // NEG and END.
    0x8403_0000_0000_0000,
    0x8703_0000_0000_0000,
    0xd404_0000_1000_0000,
    0xdc04_0000_2000_0000,
    0xd704_0000_4000_0000,
    // The jumps and EXIT.
    0x0500_ffff_0000_0000,
    0x0600_0000_ffff_ffff,
    0x9500_0000_0000_0000,
    0x1505_0700_6400_0000,
    0x1d65_f9ff_0000_0000,
    0x1605_0700_6400_0000,
    0x1e65_f9ff_0000_0000,
    0x2505_0700_6400_0000,
    0x2d65_f9ff_0000_0000,
    0x2605_0700_6400_0000,
    0x2e65_f9ff_0000_0000,
    0x3505_0700_6400_0000,
    0x3d65_f9ff_0000_0000,
    0x3605_0700_6400_0000,
    0x3e65_f9ff_0000_0000,
    0x4505_0700_6400_0000,
    0x4d65_f9ff_0000_0000,
    0x4605_0700_6400_0000,
    0x4e65_f9ff_0000_0000,
    0x5505_0700_6400_0000,
    0x5d65_f9ff_0000_0000,
    0x5605_0700_6400_0000,
    0x5e65_f9ff_0000_0000,
    0x6505_0700_6400_0000,
    0x6d65_f9ff_0000_0000,
    0x6605_0700_6400_0000,
    0x6e65_f9ff_0000_0000,
    0x7505_0700_6400_0000,
    0x7d65_f9ff_0000_0000,
    0x7605_0700_6400_0000,
    0x7e65_f9ff_0000_0000,
    0xa505_0700_6400_0000,
    0xad65_f9ff_0000_0000,
    0xa605_0700_6400_0000,
    0xae65_f9ff_0000_0000,
    0xb505_0700_6400_0000,
    0xbd65_f9ff_0000_0000,
    0xb605_0700_6400_0000,
    0xbe65_f9ff_0000_0000,
    0xc505_0700_6400_0000,
    0xcd65_f9ff_0000_0000,
    0xc605_0700_6400_0000,
    0xce65_f9ff_0000_0000,
    0xd505_0700_6400_0000,
    0xdd65_f9ff_0000_0000,
    0xd605_0700_6400_0000,
    0xde65_f9ff_0000_0000,
    // The loads and stores.
    0x71a0_f8ff_0000_0000,
    0x69a0_f8ff_0000_0000,
    0x61a0_f8ff_0000_0000,
    0x79a0_f8ff_0000_0000,
    0x91a0_f8ff_0000_0000,
    0x89a0_f8ff_0000_0000,
    0x81a0_f8ff_0000_0000,
    0x739a_f0ff_0000_0000,
    0x6b9a_f0ff_0000_0000,
    0x639a_f0ff_0000_0000,
    0x7b9a_f0ff_0000_0000,
    0x720a_e8ff_0403_0201,
    0x6a0a_e8ff_0403_0201,
    0x620a_e8ff_0403_0201,
    0x7a0a_e8ff_0403_0201,
];

/// That a program is encoded to this code.
fn expect_code(rt: &impl Abort, alloc: Global, program: &Program, code: &[u8]) -> Result<(), Fail> {
    let encoded = encode(alloc, program)?;
    assert_eq!(rt; encoded.as_slice(), code);
    Ok(())
}

/// That a code is a program of so many instructions and slots, and that it is what the program is
/// encoded to.
fn expect_program(
    rt: &impl Abort,
    alloc: Global,
    code: &[u8],
    len: u64,
    slots: u64,
) -> Result<(), Fail> {
    let program = decode(alloc, code)?;
    assert_eq!(rt; (program.len(), program.slots()), (len, slots), "{code:?}");
    expect_code(rt, alloc, &program, code)
}

#[test]
fn all_opcodes_are_one_program(rt: HostRuntime) -> Result<(), Fail> {
    let slots: &[u64] = &SLOTS;
    let mut code = code_of(rt.alloc(), slots)?;
    code.extend_from_slice(&code_of(rt.alloc(), &[0x1807_0000_0100_0000, 0x0000_0000_0200_0000])?)?;
    expect_program(&rt, rt.alloc(), &code, 116, 117)
}

/// The value of a wide load, and 0 of any other instruction.
fn loaded(insn: Option<&Insn>) -> u64 {
    match insn {
        Some(Insn::Wide { value, .. }) => *value,
        _ => 0,
    }
}

#[test]
fn a_wide_load_is_one_instruction_in_two_slots(rt: HostRuntime) -> Result<(), Fail> {
    let slots = [0x1800_0000_0100_0000, 0x0000_0000_0100_0000, EXIT];
    let code = code_of(rt.alloc(), &slots)?;
    expect_program(&rt, rt.alloc(), &code, 2, 3)?;
    let program = decode(rt.alloc(), &code)?;
    assert_eq!(rt; loaded(program.insn_at(0)), 4_294_967_297);
    assert!(rt; matches!(program.insn_at(2), Some(Insn::Exit)));
    for slot in [1, 3, 0x1_0000_0000] {
        assert!(rt; program.insn_at(slot).is_none());
    }
    Ok(())
}

/// `mov64 r0, r1`, `add64 r0, 1`, `exit`
const INSNS: [Insn; 3] = [
    Insn::Alu {
        width: Width::W64,
        op: AluOp::Mov,
        dst: Reg::R0,
        src: Operand::Register(Reg::R1),
    },
    Insn::Alu {
        width: Width::W64,
        op: AluOp::Add,
        dst: Reg::R0,
        src: Operand::Imm(1),
    },
    Insn::Exit,
];

#[test]
fn instructions_are_made_a_program_and_encoded(rt: HostRuntime) -> Result<(), Fail> {
    let insns: &[Insn] = &INSNS;
    let program = Program::from_insns(rt.alloc(), insns.to_vec(rt.alloc())?)?;
    let slots = [0xbf10_0000_0000_0000, 0x0700_0000_0100_0000, EXIT];
    expect_code(&rt, rt.alloc(), &program, &code_of(rt.alloc(), &slots)?)
}

/// Where a program of these instructions has a fault.
fn fault_of_insns(alloc: Global, insns: Vec<Insn>) -> Option<Fault> {
    match Program::from_insns(alloc, insns) {
        Err(InsnsError::Fault(fault)) => Some(fault),
        _ => None,
    }
}

#[test]
fn a_bad_number_of_instructions_is_refused(rt: HostRuntime) -> Result<(), Fail> {
    let rule = CodeRule::BadLength;
    assert_eq!(rt;
        fault_of_insns(rt.alloc(), Vec::new(rt.alloc())),
        Some(Fault { slot: 0, rule })
    );
    let wide = Insn::Wide {
        dst: Reg::R0,
        value: 7,
    };
    let half = vec![in rt.alloc(); wide; 2048]?;
    assert_eq!(rt; Program::from_insns(rt.alloc(), half)?.slots(), 4096);
    let more = vec![in rt.alloc(); wide; 2049]?;
    assert_eq!(rt;
        fault_of_insns(rt.alloc(), more),
        Some(Fault { slot: 4096, rule })
    );
    Ok(())
}

/// That an error of decoding is shown as this text, and so is the same one of making a program of
/// instructions.
fn expect_shown(
    rt: &impl Abort,
    alloc: Global,
    code: &DecodeError,
    insns: &InsnsError,
    text: &str,
) -> Result<(), Fail> {
    assert_eq!(rt; format!(in alloc; "{code}")?.as_str(), text);
    assert_eq!(rt; format!(in alloc; "{insns}")?.as_str(), text);
    Ok(())
}

#[test]
fn errors_name_the_slot_and_the_rule(rt: HostRuntime) -> Result<(), Fail> {
    let fault = Fault {
        slot: 4094,
        rule: CodeRule::BrokenWideLoad,
    };
    let (code, insns) = (DecodeError::Fault(fault), InsnsError::Fault(fault));
    expect_shown(&rt, rt.alloc(), &code, &insns, "slot 4094: V6")?;
    let (code, insns) = (DecodeError::Memory, InsnsError::Memory);
    expect_shown(
        &rt,
        rt.alloc(),
        &code,
        &insns,
        "out of memory for the program",
    )
}
