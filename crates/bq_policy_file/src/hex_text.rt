//! Bytes as a text of hex.
ghost use Rattle.std.specs.Prelude.{◌≡◌, IfOk, MatchOption};
ghost use Rattle.bq_policy_file.specs.HexText.{IsNoHex, SpellsBytes, digits_in, is_hex_space};

use std::alloc::{AllocError, Global};

/// The bytes that a hex text spells; None if it is no hex. Blanks and line ends in the text are dropped.
pub fn bytes_of(alloc: Global, text: &[u8]) -> Result<Option<Vec<u8>>, AllocError>
    ensures { IfOk result (λ read. MatchOption read (IsNoHex text.now) (λ bytes. SpellsBytes text.now bytes.items)) }
{
    let digits = digits_in(alloc, text)?;
    match hex::decode(alloc, digits.as_slice()) {
        Ok(bytes) => Ok(Some(bytes)),
        Err(hex::FromHexError::OutOfMemory) => Err(AllocError),
        Err(_) => Ok(None),
    }
}

/// The text without its blanks.
fn digits_in(alloc: Global, text: &[u8]) -> Result<Vec<u8>, AllocError>
    ensures { IfOk result (λ digits. digits.items ≡ digits_in text.now) }
{
    text.iter()
        .copied()
        .filter(|byte| !is_blank(*byte))
        .collect(alloc)
}

/// A space, a tab, or a part of a line's end.
pub fn is_blank(byte: u8) -> bool
    ensures { result ≡ is_hex_space byte }
{
    byte == b' ' || byte == b'\t' || byte == b'\r' || byte == b'\n'
}
