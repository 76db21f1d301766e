//! What an operator is called on.
ghost use Rattle.std.specs.Prelude.{◌≡◌};
ghost use Rattle.bpf_insn.specs.Machine.{kind_of};

/// How an operator is called.
#[derive(Clone, Copy, Debug, PartialEq, Eq)]
pub enum Kind {
    /// On one value.
    Unary,
    /// On two values.
    Binary,
    /// On a value, its position and a number that the caller chose.
    Index,
}

/// What an operator is called on: words, in R1 onwards at the entry.
#[derive(Clone, Copy, Debug, PartialEq, Eq)]
pub enum Operands {
    /// R1 is `x`.
    Unary {
        x: u64,
    },
    /// R1 is `x`, R2 is `y`.
    Binary {
        x: u64,
        y: u64,
    },
    /// R1 is `x`, R2 its row and R3 its column, both from 0, and R4 is `thunk`.
    Index {
        x: u64,
        row: u64,
        column: u64,
        thunk: u64,
    },
}

impl Operands {
    /// The kind of operator that is called so.
    pub fn kind(&self) -> Kind
        ensures { result ≡ kind_of self.now }
    {
        match self {
            Operands::Unary { .. } => Kind::Unary,
            Operands::Binary { .. } => Kind::Binary,
            Operands::Index { .. } => Kind::Index,
        }
    }
}
