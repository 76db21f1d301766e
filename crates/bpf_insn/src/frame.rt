//! The state of the machine while it runs: a word of the definitions.

use crate::content::Content;

/// The state of the machine while it runs.
#[derive(Clone, Copy)]
pub struct Frame {
    /// The slot of the instruction that comes next.
    pub slot: u32,
    /// R0 to R10.
    pub registers: [Content; 11],
    /// The stack, from its lowest byte up to its top: each byte, or None if it was never stored.
    pub stack: [Option<u8>; 512],
}
