//! The table of operations and conditions. Whatever has an arm for each of these, here and in the
//! crates above, takes its arms from it.

/// Calls the macro `arms` with the table, followed by the other arguments.
///
/// - A code of operations has its number, and a row for each operation of the code: the offset that
///   distinguishes it, its name in mnemonics, its flat instructions, and, if loops are compiled for
///   it with a constant, the `Change` of bpf_known.
/// - A condition has its number, its mnemonic, its type in bpf_flat, and its flat jumps.
///
/// Flat instructions take a constant, then a register, first at 64 bits, then at 32.
#[macro_export]
macro_rules! by_table {
    ($arms:ident, $($rest:tt)*) => {
        $arms! {
            operations {
                0x0 Add  { Add  0 "add"  [Add64Imm  Add64Reg  Add32Imm  Add32Reg]  Add }
                0x1 Sub  { Sub  0 "sub"  [Sub64Imm  Sub64Reg  Sub32Imm  Sub32Reg]  Sub }
                0x2 Mul  { Mul  0 "mul"  [Mul64Imm  Mul64Reg  Mul32Imm  Mul32Reg]  Mul }
                0x3 Div  { Div  0 "div"  [Div64Imm  Div64Reg  Div32Imm  Div32Reg]  }
                         { Sdiv 1 "sdiv" [Sdiv64Imm Sdiv64Reg Sdiv32Imm Sdiv32Reg] }
                0x4 Or   { Or   0 "or"   [Or64Imm   Or64Reg   Or32Imm   Or32Reg]   Or }
                0x5 And  { And  0 "and"  [And64Imm  And64Reg  And32Imm  And32Reg]  And }
                0x6 Lsh  { Lsh  0 "lsh"  [Lsh64Imm  Lsh64Reg  Lsh32Imm  Lsh32Reg]  }
                0x7 Rsh  { Rsh  0 "rsh"  [Rsh64Imm  Rsh64Reg  Rsh32Imm  Rsh32Reg]  }
                0x9 Mod  { Mod  0 "mod"  [Mod64Imm  Mod64Reg  Mod32Imm  Mod32Reg]  }
                         { Smod 1 "smod" [Smod64Imm Smod64Reg Smod32Imm Smod32Reg] }
                0xa Xor  { Xor  0 "xor"  [Xor64Imm  Xor64Reg  Xor32Imm  Xor32Reg]  Xor }
                0xb Mov  { Mov  0 "mov"  [Mov64Imm  Mov64Reg  Mov32Imm  Mov32Reg]  }
                0xc Arsh { Arsh 0 "arsh" [Arsh64Imm Arsh64Reg Arsh32Imm Arsh32Reg] }
            }
            conditions {
                0x1 Eq  { "jeq"  Equal                [Jeq64Imm  Jeq64Reg  Jeq32Imm  Jeq32Reg]  }
                0x2 Gt  { "jgt"  Greater              [Jgt64Imm  Jgt64Reg  Jgt32Imm  Jgt32Reg]  }
                0x3 Ge  { "jge"  GreaterOrEqual       [Jge64Imm  Jge64Reg  Jge32Imm  Jge32Reg]  }
                0x4 Set { "jset" Common               [Jset64Imm Jset64Reg Jset32Imm Jset32Reg] }
                0x5 Ne  { "jne"  Unequal              [Jne64Imm  Jne64Reg  Jne32Imm  Jne32Reg]  }
                0x6 Sgt { "jsgt" SignedGreater        [Jsgt64Imm Jsgt64Reg Jsgt32Imm Jsgt32Reg] }
                0x7 Sge { "jsge" SignedGreaterOrEqual [Jsge64Imm Jsge64Reg Jsge32Imm Jsge32Reg] }
                0xa Lt  { "jlt"  Less                 [Jlt64Imm  Jlt64Reg  Jlt32Imm  Jlt32Reg]  }
                0xb Le  { "jle"  LessOrEqual          [Jle64Imm  Jle64Reg  Jle32Imm  Jle32Reg]  }
                0xc Slt { "jslt" SignedLess           [Jslt64Imm Jslt64Reg Jslt32Imm Jslt32Reg] }
                0xd Sle { "jsle" SignedLessOrEqual    [Jsle64Imm Jsle64Reg Jsle32Imm Jsle32Reg] }
            }
            $($rest)*
        }
    };
}
