//! The bytes that separate words.
ghost use Rattle.std.specs.Prelude.{◌≡◌, ℕ, Bool};
ghost use Rattle.bq_words.specs.Words.{is_space};

/// Which bytes separate the words of a line.
pub trait Blank {
    ghost is_blank: { ℕ → Bool };

    /// Whether the byte separates words.
    fn is_blank(byte: u8) -> bool
        ensures { result ≡ is_blank byte };
}

/// Spaces and tabs separate words.
pub struct Spaces;

impl Blank for Spaces {
    ghost is_blank = { is_space };

    fn is_blank(byte: u8) -> bool {
        byte == b' ' || byte == b'\t'
    }
}
