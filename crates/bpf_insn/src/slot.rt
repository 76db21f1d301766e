//! Slots: the eight bytes of code that an instruction has, or each of the two halves of a wide
//! load.
ghost use Rattle.std.specs.Prelude.{◌≡◌, ◌<◌, ◌≤◌, ◌*◌, length, take};

/// The fields of a slot (RFC 9669, section 3.1). Offset and imm are their bits.
#[derive(Clone, Copy)]
pub struct Slot {
    pub opcode: u8,
    pub dst: u8,
    pub src: u8,
    // Raw bits: the layout of a slot doesn't depend on which fields are signed.
    pub offset: u16,
    pub imm: u32,
}

impl Slot {
    ghost use Rattle.bpf_insn.specs.Spelling.{slot_bytes, FitsSlot};

    /// The fields of the first eight bytes.
    pub fn read(bytes: &[u8]) -> Slot
        requires { 8 ≤ length bytes.now }
        ensures bytes { slot_bytes result ≡ take 8 bytes.now }
        ensures fits { FitsSlot result }
    {
        Slot::from_bytes([
            bytes[0], bytes[1], bytes[2], bytes[3], bytes[4], bytes[5], bytes[6], bytes[7],
        ])
    }

    fn from_bytes(bytes: [u8; 8]) -> Slot
        ensures bytes { slot_bytes result ≡ bytes }
        ensures fits { FitsSlot result }
    {
        let [opcode, registers, o0, o1, i0, i1, i2, i3] = bytes;
        Slot {
            opcode,
            // The destination is the low nibble, on little-endian code.
            dst: registers % 16,
            src: registers / 16,
            offset: u16::from_le_bytes([o0, o1]),
            imm: u32::from_le_bytes([i0, i1, i2, i3]),
        }
    }

    /// The eight bytes of the fields.
    pub fn bytes(self) -> [u8; 8]
        requires dst { self.dst < 16 }
        requires src { self.src < 16 }
        ensures { result ≡ slot_bytes self }
    {
        let [o0, o1] = self.offset.to_le_bytes();
        let [i0, i1, i2, i3] = self.imm.to_le_bytes();
        [
            self.opcode,
            // Both are below 16, so the sum is the two nibbles and fits a byte.
            self.dst + 16 * self.src,
            o0,
            o1,
            i0,
            i1,
            i2,
            i3,
        ]
    }
}
