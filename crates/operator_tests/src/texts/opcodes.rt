//! Opcodes with fields that the verifier refuses in every program, there and back: jumps back and
//! far ahead, and R10 written.
use bpf_insn::encode;
use bpf_text::{assemble, disassemble};
use std::alloc::{AllocError, Global};
use std::test::Fail;

/// Appends a line for each mnemonic with each of the operands.
fn push_lines(text: &mut String, mnemonics: &str, operands: &[&str]) -> Result<(), AllocError> {
    for mnemonic in mnemonics.split(' ') {
        for operands in operands {
            text.push_str(mnemonic)?;
            text.push_str(operands)?;
            text.push_str("\n")?;
        }
    }
    Ok(())
}

const OPERATIONS: &str =
    "add32 sub32 mul32 div32 sdiv32 or32 and32 lsh32 rsh32 mod32 smod32 xor32 mov32 arsh32 add64 sub64 mul64 div64 sdiv64 or64 and64 lsh64 rsh64 mod64 smod64 xor64 mov64 arsh64";

const CONDITIONS: &str =
    "jeq32 jgt32 jge32 jset32 jne32 jsgt32 jsge32 jlt32 jle32 jslt32 jsle32 jeq64 jgt64 jge64 jset64 jne64 jsgt64 jsge64 jlt64 jle64 jslt64 jsle64";

const MOVES: &str = "movs8_32 movs16_32 movs8_64 movs16_64 movs32_64";

const SINGLE: &str = "neg32 neg64 le16 le32 le64 be16 be32 be64 swap16 swap32 swap64";

/// Mnemonics, with what may stand behind each.
const LINES: [(&str, &[&str]); 8] = [
    (OPERATIONS, &[" r10, r0", " r10, -2147483648"]),
    (
        CONDITIONS,
        &[" r0, r10, -32768", " r10, -2147483648, 32767"],
    ),
    (MOVES, &[" r10, r0"]),
    (SINGLE, &[" r10"]),
    ("ja", &[" -32768", " 32767"]),
    ("ja32", &[" -2147483648", " 2147483647"]),
    (
        "ldx8 ldx16 ldx32 ldx64 ldsx8 ldsx16 ldsx32",
        &[" r10, r0, 32767"],
    ),
    ("wide", &[" r10, 9223372036854775807"]),
];

/// All of these lines.
fn all_lines(alloc: Global) -> Result<String, AllocError> {
    let mut text = String::new(alloc);
    for (mnemonics, operands) in &LINES {
        push_lines(&mut text, mnemonics, operands)?;
    }
    Ok(text)
}

#[test]
fn refused_lines_there_and_back(rt: HostRuntime) -> Result<(), Fail> {
    let text = all_lines(rt.alloc())?;
    let program = assemble(rt.alloc(), text.as_bytes())?;
    let written = disassemble(rt.alloc(), &program)?;
    assert_eq!(rt; written.as_str(), text.as_str());

    // 128 lines, and one more slot for the wide load
    let code = encode(rt.alloc(), &program)?;
    assert_eq!(rt; code.len(), 8 * 129);
    Ok(())
}
