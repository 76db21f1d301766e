//! What is known of a register.
ghost use Rattle.std.specs.Prelude.{◌≡◌, false};
ghost use Rattle.bpf_verify.specs.Tags.{is_unset_tag, is_number_tag, is_place_tag, is_mixed_tag, reaches_outside, first_byte};
ghost use Rattle.bpf_verify.specs.Tags.{moved_tag};
ghost use Rattle.bpf_verify.specs.inner.Pass.{joined};

use bpf_insn::is_outside_stack;

/// What is known of a register at a slot, of all the paths that lead there.
#[derive(Clone, Copy, Debug, PartialEq, Eq)]
pub enum Tag {
    /// Some path leaves it unset.
    Unset,
    /// All paths leave a number in it.
    Number,
    /// All paths leave this place in it: its distance in bytes from the stack's top, -512 to 0.
    Place(i16),
    /// All paths set it, and not all to a number, nor all to the same place.
    Mixed,
}

impl Tag {
    pub(crate) fn is_unset(self) -> bool
        ensures { result ≡ is_unset_tag self }
    {
        matches!(self, Tag::Unset)
    }

    pub(crate) fn is_number(self) -> bool
        ensures { result ≡ is_number_tag self }
    {
        matches!(self, Tag::Number)
    }

    pub(crate) fn is_place(self) -> bool
        ensures { result ≡ is_place_tag self }
    {
        matches!(self, Tag::Place(_))
    }

    pub(crate) fn is_mixed(self) -> bool
        ensures { result ≡ is_mixed_tag self }
    {
        matches!(self, Tag::Mixed)
    }

    /// Whether `count` bytes at an offset from the place lie outside the stack.
    pub(crate) fn reaches_outside(self, offset: i32, count: u8) -> bool
        ensures { result ≡ reaches_outside self offset count }
    {
        match self {
            Tag::Place(base) => is_outside_stack(i64::from(base) + i64::from(offset), count),
            _ => false,
        }
    }

    /// The byte of the stack, from its lowest, at an offset from the place.
    pub(crate) fn first_byte(self, offset: i16) -> u64
        ensures { result ≡ first_byte self offset }
    {
        match self {
            Tag::Place(base) => (i64::from(base) + i64::from(offset) + 512).unsigned_abs(),
            // As in the definition, which has to be total. Such an access was refused before.
            _ => 0,
        }
    }

    /// The place, moved.
    pub(crate) fn moved(self, by: i32) -> Tag
        requires { reaches_outside self by 0 ≡ false }
        ensures { result ≡ moved_tag self by }
    {
        match self {
            // Inside the stack by the contract, so the cast is exact.
            Tag::Place(base) => Tag::Place((i64::from(base) + i64::from(by)) as i16),
            // A number stays a number. Unset and mixed registers were refused before.
            _ => self,
        }
    }

    /// What is known where two paths meet.
    pub(crate) fn join(self, other: Tag) -> Tag
        ensures { result ≡ joined self other }
    {
        match (self, other) {
            // Unset wins, also over Mixed: V11 is reported before V12.
            (Tag::Unset, _) | (_, Tag::Unset) => Tag::Unset,
            (Tag::Number, Tag::Number) => Tag::Number,
            (Tag::Place(o), Tag::Place(p)) if o == p => Tag::Place(o),
            // Reported only if the register is read (V12). Until then it may be carried along.
            _ => Tag::Mixed,
        }
    }
}
