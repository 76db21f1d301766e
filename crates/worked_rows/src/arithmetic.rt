//! RFC 9669, sections 4.1 and 4.2.
ghost use Rattle.std.specs.Prelude.{◌≡◌, ◌+◌, ◌-◌, ◌^◌};
ghost use Rattle.bpf_insn.specs.Arithmetic.{arithmetic, extended, end_value};
ghost use Rattle.bpf_insn.specs.declared.insn.AluOp.TheVariants.{Add, Div, Sdiv, Mod, Smod, Lsh};
ghost use Rattle.bpf_insn.specs.declared.insn.ByteOrder.TheVariants.{Big};
ghost use Rattle.bpf_insn.specs.declared.insn.EndSize.TheVariants.{B16};
ghost use Rattle.bpf_insn.specs.declared.insn.Extension.TheVariants.{From8To32, From8To64};
ghost use Rattle.bpf_insn.specs.declared.insn.Width.TheVariants.{W32, W64};

/// Division of both widths: unsigned, signed, by 0, and of the least number by -1. In 32 bits the
/// low halves are divided.
pub fn divisions()
    ensures unsigned { arithmetic W64 Div (2 ^ 64 - 1) 2 ≡ 2 ^ 63 - 1 }
    ensures signed { arithmetic W64 Sdiv (2 ^ 64 - 13) 3 ≡ 2 ^ 64 - 4 }
    ensures by_zero { arithmetic W64 Sdiv (2 ^ 64 - 13) 0 ≡ 0 }
    ensures least { arithmetic W64 Sdiv (2 ^ 63) (2 ^ 64 - 1) ≡ 2 ^ 63 }
    ensures low_halves { arithmetic W32 Div (2 ^ 32 + 7) (2 ^ 33 + 2) ≡ 3 }
    ensures signed_halves { arithmetic W32 Sdiv (2 ^ 32 - 13) 3 ≡ 2 ^ 32 - 4 }
    ensures by_no_low_half { arithmetic W32 Div 7 (2 ^ 32) ≡ 0 }
{}

/// Remainders of both widths: by 0 the number stays, of which 32 bits keep the low half.
pub fn remainders()
    ensures signed { arithmetic W64 Smod (2 ^ 64 - 13) 3 ≡ 2 ^ 64 - 1 }
    ensures by_zero { arithmetic W64 Smod (2 ^ 64 - 13) 0 ≡ 2 ^ 64 - 13 }
    ensures least { arithmetic W64 Smod (2 ^ 63) (2 ^ 64 - 1) ≡ 0 }
    ensures low_half { arithmetic W32 Mod (2 ^ 32 + 5) 0 ≡ 5 }
{}

/// A sum that wraps, a shift whose amount is masked, moves that extend the sign, and bytes in
/// reverse.
pub fn moves()
    ensures wraps { arithmetic W32 Add (2 ^ 32 - 1) 1 ≡ 0 }
    ensures masked { arithmetic W64 Lsh 3 65 ≡ 6 }
    ensures extends { extended From8To64 255 ≡ 2 ^ 64 - 1 }
    ensures extends_half { extended From8To32 128 ≡ 2 ^ 32 - 128 }
    ensures swaps { end_value Big B16 70196 ≡ 13330 }
{}
