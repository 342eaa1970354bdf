//! An image as a line of a trace writes it.
ghost use Rattle.std.specs.Prelude.{◌≡◌};

use std::marker::Model;

/// The word at the place of an image in a line. It may or may not spell one in hex. Contracts see its bytes.
#[derive(Drop)]
pub struct HexWord<'a> {
    word: &'a [u8],
}

impl<'a> Model for HexWord<'a> {
    ghost use Rattle.std.specs.Prelude.{List, ℕ};

    ghost Value = { List ℕ };

    ghost view = { λ h. h.word.now };
}

impl<'a> HexWord<'a> {
    /// Makes the word of these bytes.
    pub fn new(word: &'a [u8]) -> HexWord<'a>
        ensures { result ≡ word.now }
    {
        HexWord { word }
    }

    /// Returns the bytes of the word.
    pub fn as_bytes(&self) -> &'a [u8]
        ensures { result.now ≡ self.now }
    {
        self.word
    }
}
