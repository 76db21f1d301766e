//! Texts of programs that no session keeps, since the verifier refuses them, and how errors are
//! shown.
mod opcodes;

use bpf_text::{AsmError, AsmFault, AsmRule, assemble};
use std::alloc::Global;
use std::process::Abort;
use std::test::Fail;

/// An error is shown as this.
fn expect_shown(rt: &impl Abort, alloc: Global, error: AsmError, wanted: &str) -> Result<(), Fail> {
    assert_eq!(rt; format!(in alloc; "{error}")?.as_str(), wanted);
    Ok(())
}

#[test]
fn errors_name_the_line_and_the_rule(rt: HostRuntime) -> Result<(), Fail> {
    match assemble(rt.alloc(), b"exit\n\nmov64 r0, r11\n") {
        Ok(_) => panic!(rt; "a register above r10"),
        Err(error) => expect_shown(&rt, rt.alloc(), error, "line 3: A4")?,
    }
    let fault = AsmFault {
        line: 4097,
        rule: AsmRule::BadLength,
    };
    expect_shown(&rt, rt.alloc(), AsmError::Fault(fault), "line 4097: A6")?;
    expect_shown(
        &rt,
        rt.alloc(),
        AsmError::Memory,
        "no memory for the program",
    )
}
