//! The facts at a slot, and how an instruction changes them.
ghost use Rattle.std.specs.Prelude.{◌≡◌, ◌||◌, ℕ, true, false, length, IfNone, IfSome};
ghost use Rattle.bpf_insn.specs.declared.reg.Reg.{Reg};
ghost use Rattle.bpf_insn.specs.Rule.{IsLowest};
ghost use Rattle.bpf_insn.specs.Reads.{written_reg};
ghost use Rattle.bpf_verify.specs.Tags.{tag, breaks, BreaksNone, leaves_stack, new_tags, written_tag, stores};
ghost use Rattle.bpf_verify.specs.Table.{known, is_marked};
ghost use Rattle.bpf_verify.specs.inner.Pass.{joined, IsAfter, IsJoined};

use crate::marks::Marks;
use crate::tag::Tag;
use bpf_insn::{AluOp, CodeRule, Insn, Operand, Reg, Width};

/// The facts at a slot, about all the paths that lead there: a tag for each register, and which
/// bytes of the stack were stored.
#[derive(Clone, Copy)]
pub(crate) struct Facts {
    pub tags: [Tag; 11],
    pub marks: Marks,
}

impl Facts {
    /// The facts at the entry: no byte was stored.
    pub fn at_entry(tags: [Tag; 11]) -> Facts
        ensures tags { result.tags ≡ tags }
        ensures bytes { (byte : ℕ) → is_marked result.marks byte ≡ false }
    {
        Facts {
            tags,
            marks: Marks::none(),
        }
    }

    /// The tag of a register.
    pub fn tag(&self, reg: Reg) -> Tag
        ensures { result ≡ tag self.now.tags reg }
    {
        self.tags[reg.number() as usize]
    }

    /// The rule of the lowest number that the instruction breaks by the facts, if it breaks one.
    pub fn refusal(&self, insn: Insn) -> Option<CodeRule>
        ensures none { IfNone result (BreaksNone (known self.now) insn) }
        ensures some { IfSome result (IsLowest (λ rule. breaks (known self.now) insn rule ≡ true)) }
    {
        // In the order of the rules' numbers. V7 to V10 are the slot pass's.
        if self.reads_unset(insn) {
            Some(CodeRule::UnsetRead)
        } else if self.reads_mixed(insn) {
            Some(CodeRule::MixedRead)
        } else if self.reads_place_as_number(insn) {
            Some(CodeRule::NumberWanted)
        } else if self.reads_number_as_place(insn) {
            Some(CodeRule::PlaceWanted)
        } else if self.leaves_stack(insn) {
            Some(CodeRule::OutsideStack)
        } else if self.loads_unstored(insn) {
            Some(CodeRule::UnstoredRead)
        } else {
            None
        }
    }
}

impl Facts {
    /// Whether a register that the instruction reads is unset along some path.
    fn reads_unset(&self, insn: Insn) -> bool
        ensures { result ≡ breaks (known self.now) insn CodeRule.UnsetRead }
    {
        insn.reads()
            .registers()
            .as_slice()
            .iter()
            .any(|reg| self.tag(*reg).is_unset())
    }

    /// Whether paths set a register that the instruction reads differently.
    fn reads_mixed(&self, insn: Insn) -> bool
        ensures { result ≡ breaks (known self.now) insn CodeRule.MixedRead }
    {
        insn.reads()
            .registers()
            .as_slice()
            .iter()
            .any(|reg| self.tag(*reg).is_mixed())
    }

    /// Whether the instruction reads a place where it needs a number.
    fn reads_place_as_number(&self, insn: Insn) -> bool
        ensures { result ≡ breaks (known self.now) insn CodeRule.NumberWanted }
    {
        insn.reads()
            .numbers()
            .as_slice()
            .iter()
            .any(|reg| self.tag(*reg).is_place())
    }

    /// Whether the instruction reads a number where it needs a place.
    fn reads_number_as_place(&self, insn: Insn) -> bool
        ensures { result ≡ breaks (known self.now) insn CodeRule.PlaceWanted }
    {
        insn.reads()
            .places()
            .as_slice()
            .iter()
            .any(|reg| self.tag(*reg).is_number())
    }

    /// Whether an access, or a moved place, lies outside the stack.
    fn leaves_stack(&self, insn: Insn) -> bool
        ensures { result ≡ leaves_stack self.now.tags insn }
    {
        // The one instruction that moves a place. It accesses no bytes, hence 0.
        if let Insn::Alu {
            width: Width::W64,
            op: AluOp::Add,
            dst,
            src: Operand::Imm(n),
        } = insn
        {
            return self.tag(dst).reaches_outside(n, 0);
        }
        match insn.access() {
            Some(access) => {
                let offset = i32::from(access.offset);
                self.tag(access.base).reaches_outside(offset, access.bytes)
            }
            None => false,
        }
    }
}

impl Facts {
    /// Whether some path has not stored a byte that the instruction loads.
    fn loads_unstored(&self, insn: Insn) -> bool
        requires { leaves_stack self.now.tags insn ≡ false }
        ensures { result ≡ breaks (known self.now) insn CodeRule.UnstoredRead }
    {
        match insn.load_access() {
            Some(access) => {
                // The rules before this one hold, so the base is a place and the access is inside
                // the stack.
                let first = self.tag(access.base).first_byte(access.offset);
                self.marks.misses(first as usize, access.bytes)
            }
            None => false,
        }
    }

    /// The facts after an instruction that breaks no rule.
    pub fn after(&self, insn: Insn) -> Facts
        requires { leaves_stack self.now.tags insn ≡ false }
        ensures { IsAfter (known self.now) insn (known result) }
    {
        Facts {
            tags: self.tags_after(insn),
            marks: self.marks_after(insn),
        }
    }

    fn tags_after(&self, insn: Insn) -> [Tag; 11]
        requires { leaves_stack self.now.tags insn ≡ false }
        ensures { result ≡ new_tags self.now.tags (written_reg insn) (written_tag self.now.tags insn) }
    {
        // Copied: the facts at this slot stay in the table.
        let mut tags = self.tags;
        if let Some(reg) = insn.written_reg() {
            tags[reg.number() as usize] = self.written_tag(insn);
        }
        tags
    }

    fn marks_after(&self, insn: Insn) -> Marks
        requires { leaves_stack self.now.tags insn ≡ false }
        ensures { (byte : ℕ) → is_marked result byte ≡ (is_marked self.now.marks byte || stores self.now.tags insn byte) }
    {
        let mut marks = self.marks;
        if let Some(access) = insn.store_access() {
            let first = self.tag(access.base).first_byte(access.offset);
            marks.set_all(first as usize, access.bytes);
        }
        marks
    }

    /// The tag of what the instruction writes.
    fn written_tag(&self, insn: Insn) -> Tag
        requires { leaves_stack self.now.tags insn ≡ false }
        ensures { result ≡ written_tag self.now.tags insn }
    {
        match insn {
            // ADD of imm moves a place, and MOV copies one.
            Insn::Alu {
                width: Width::W64,
                op: AluOp::Add,
                dst,
                src: Operand::Imm(n),
            } => self.tag(dst).moved(n),
            Insn::Alu {
                width: Width::W64,
                op: AluOp::Mov,
                src: Operand::Register(src),
                ..
            } => self.tag(src),
            // Nothing else that writes a register can write a place.
            _ => Tag::Number,
        }
    }

    /// The facts where two paths meet.
    pub fn join(&self, other: &Facts) -> Facts
        ensures { IsJoined (known self.now) (known other.now) (known result) }
    {
        Facts {
            tags: joined(&self.tags, &other.tags),
            // A load has to be right on every path, so only bytes that both stored count.
            marks: self.marks.and(&other.marks),
        }
    }
}

fn joined(left: &[Tag; 11], right: &[Tag; 11]) -> [Tag; 11]
    ensures eleven { length result ≡ 11 }
    ensures each { (r : Reg) → tag result r ≡ joined (tag left.now r) (tag right.now r) }
{
    let mut tags = *left;
    for i in 0..11 {
        tags[i] = left[i].join(right[i]);
    }
    tags
}

// One for each slot: 4,096 of them are half a megabyte.
const _: () = prove!(size_of::<Option<Facts>>() <= 120);
