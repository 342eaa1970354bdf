//! What a file holds, by its first bytes.
ghost use Rattle.std.specs.Prelude.{◌≡◌};
ghost use Rattle.bq_policy_file.specs.Files.{first_dark, kind_at, kind_of};

use crate::hex_text::is_blank;

/// What a file holds.
#[derive(Clone, Copy, PartialEq, Eq)]
pub enum FileKind {
    /// An image, which begins with its letters.
    Image,
    /// Hex, which begins with a digit, as no assembler text does.
    Hex,
    /// An assembler text.
    Text,
}

/// What the bytes are to be read as.
pub fn kind_of(bytes: &[u8]) -> FileKind
    ensures { result ≡ kind_of bytes.now }
{
    if bytes.starts_with(b"BQPI") {
        return FileKind::Image;
    }
    kind_at(first_dark(bytes))
}

/// What bytes that begin no image are to be read as, by the first byte that is no blank.
fn kind_at(first: Option<u8>) -> FileKind
    ensures { result ≡ kind_at first }
{
    match first {
        Some(byte) => {
            if b'0' <= byte && byte <= b'9' {
                FileKind::Hex
            } else {
                FileKind::Text
            }
        }
        None => FileKind::Text,
    }
}

/// The first byte that is no blank.
fn first_dark(bytes: &[u8]) -> Option<u8>
    ensures { result ≡ first_dark bytes.now }
{
    let mut rest = bytes;
    while let [first, more @ ..] = rest {
        if !is_blank(*first) {
            return Some(*first);
        }
        rest = more;
    }
    None
}
