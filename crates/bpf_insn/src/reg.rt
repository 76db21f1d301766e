//! The registers of the machine.

/// A register, R0 to R10 (RFC 9669, section 3.1). R0 holds the result at EXIT, R1 to R5 the
/// arguments at the entry, and R10 the top of the stack, which no instruction may change.
#[derive(Clone, Copy, Debug, PartialEq, Eq)]
pub enum Reg {
    R0,
    R1,
    R2,
    R3,
    R4,
    R5,
    R6,
    R7,
    R8,
    R9,
    R10,
}

impl Reg {
    ghost use Rattle.std.specs.Prelude.{◌≡◌, ◌<◌};
    ghost use Rattle.bpf_insn.specs.Spelling.{number_of_reg};

    /// The number of the register, 0 to 10.
    pub fn number(self) -> u8
        ensures number { result ≡ number_of_reg self }
        ensures small { result < 11 }
    {
        self as u8
    }
}
