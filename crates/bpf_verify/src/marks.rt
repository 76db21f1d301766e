//! Which bytes of the stack were stored, one bit a byte.
ghost use Rattle.std.specs.Prelude.{◌≡◌, ◌<◌, ◌≤◌, ◌+◌, ℕ, Bool, false, ◌&&◌, ◌||◌, not, nat_eq};
ghost use Rattle.std.specs.List.{list_any};
ghost use Rattle.bpf_verify.specs.Tags.{bytes_from};
ghost use Rattle.bpf_verify.specs.Table.{is_marked};

/// A mark for each byte of the stack, byte 0 being the lowest: bit `byte % 64` of word `byte / 64`.
#[derive(Clone, Copy)]
pub(crate) struct Marks {
    words: [u64; 8],
}

impl Marks {
    /// No byte is marked.
    pub fn none() -> Marks
        ensures { (byte : ℕ) → is_marked result byte ≡ false }
    {
        Marks { words: [0; 8] }
    }

    /// Whether the byte is marked.
    pub fn has(&self, byte: usize) -> bool
        requires { byte < 512 }
        ensures { result ≡ is_marked self.now byte }
    {
        // `%` and `/` by 64 are the bit and the word.
        self.words[byte / 64] >> (byte % 64) & 1 == 1
    }

    /// Marks the byte.
    fn set(&mut self, byte: usize)
        requires { byte < 512 }
        ensures { (other : ℕ) → is_marked self.new other ≡ (is_marked self.old other || nat_eq other byte) }
    {
        self.words[byte / 64] |= 1 << (byte % 64);
    }

    /// Marks `count` bytes from `first` on.
    pub fn set_all(&mut self, first: usize, count: u8)
        requires { first + count ≤ 512 }
        ensures { (other : ℕ) → is_marked self.new other
            ≡ (is_marked self.old other || list_any (nat_eq other) (bytes_from first count)) }
    {
        // An access has at most eight bytes, so this loop is short.
        for byte in first..first + usize::from(count) {
            self.set(byte);
        }
    }

    /// Whether one of `count` bytes from `first` on is not marked.
    pub fn misses(&self, first: usize, count: u8) -> bool
        requires { first + count ≤ 512 }
        ensures { result ≡ list_any (λ byte. not (is_marked self.now byte)) (bytes_from first count) }
    {
        for byte in first..first + usize::from(count) {
            if !self.has(byte) {
                return true;
            }
        }
        false
    }

    /// The marks that both have.
    pub fn and(&self, other: &Marks) -> Marks
        ensures { (byte : ℕ) → is_marked result byte ≡ (is_marked self.now byte && is_marked other.now byte) }
    {
        let mut words = self.words;
        // By whole words: eight operations instead of 512.
        for i in 0..8 {
            words[i] = self.words[i] & other.words[i];
        }
        Marks { words }
    }
}
