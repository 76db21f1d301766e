//! Code in hexadecimal digits.
ghost use Rattle.std.specs.Prelude.{◌≡◌, Ok, Err, IfOk};
ghost use Rattle.command_text.specs.Hexadecimal as spec;
ghost use Rattle.command_text.specs.Hexadecimal.{without_gaps};
ghost use Rattle.hex.specs.Hex.{decode_of};
ghost use Rattle.hex.specs.declared.FromHexError.{FromHexError};

use hex::FromHexError;
use std::alloc::Global;
use text_words::is_blank;
use thiserror::Error;

/// Why a text gave no code.
#[derive(Clone, Copy, Debug, PartialEq, Eq, Error)]
pub enum HexFault {
    /// Without its gaps it is not an even number of hexadecimal digits.
    #[error("not an even number of hexadecimal digits")]
    Malformed,
    /// There was no memory for the bytes.
    #[error("no memory for the code")]
    Memory,
}

/// Whether a byte may stand between digits: a space, a tab, a CR or an LF.
fn is_gap(byte: u8) -> bool
    ensures { result ≡ spec.is_gap byte }
{
    is_blank(byte) || byte == b'\r' || byte == b'\n'
}

/// The bytes that a text of hexadecimal digits of either case writes. Spaces, tabs, CR and LF in
/// it are dropped.
///
/// # Errors
///
/// `Malformed` where what is left is not an even number of hexadecimal digits, and `Memory`.
pub fn unhex(alloc: Global, mut text: Vec<u8>) -> Result<Vec<u8>, HexFault>
    ensures ok { IfOk result (λ bytes. decode_of (without_gaps text.items) ≡ Ok bytes.items) }
    ensures malformed { result ≡ Err HexFault.Malformed → (e : FromHexError) ×
        (decode_of (without_gaps text.items) ≡ Err e) }
{
    text.retain(|byte| !is_gap(*byte));
    match hex::decode(alloc, text.as_slice()) {
        Ok(bytes) => Ok(bytes),
        Err(e) => match e {
            FromHexError::OutOfMemory => Err(HexFault::Memory),
            _ => Err(HexFault::Malformed),
        },
    }
}
