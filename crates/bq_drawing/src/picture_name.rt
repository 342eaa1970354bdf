//! The name of a picture, which keeps its styles apart from others on a page.
ghost use Rattle.std.specs.Prelude.{◌≡◌, Some};
ghost use Rattle.bq_drawing.specs.PictureNames.{hash_of, mixed, picture_name_text, theme_letter};

use crate::theme::Theme;
use std::fmt;

/// The hash of nothing.
const BASIS: u32 = 0x811c_9dc5;

/// The name of a picture, a class of its root. Each rule of its styles and each id begins with the name, so that neither changes anything
/// else on a page. The name is made from what the picture shows, so that different pictures on a page have different names.
#[derive(Clone, Copy)]
pub struct PictureName(u32);

impl PictureName {
    /// Returns the name for what is drawn in a theme. It is the 32-bit hash of Fowler, Noll and Vo (FNV-1a).
    pub fn of(theme: Theme, drawn: &str) -> PictureName
        ensures { result.0 ≡ hash_of theme drawn.now }
    {
        let mut hash = mixed(BASIS, theme_letter(theme));
        let bytes = drawn.as_bytes();
        for byte in bytes {
            hash = mixed(hash, *byte);
        }
        PictureName(hash)
    }
}

/// Returns the letter of a theme.
fn theme_letter(theme: Theme) -> u8
    ensures { result ≡ theme_letter theme }
{
    match theme {
        Theme::Light => b'l',
        Theme::Dark => b'd',
        Theme::Auto => b'a',
    }
}

/// Returns the hash after one more byte.
fn mixed(hash: u32, byte: u8) -> u32
    ensures { result ≡ mixed hash byte }
{
    (hash ^ u32::from(byte)).wrapping_mul(0x0100_0193)
}

impl fmt::Display for PictureName {
    ghost output = { λ n. Some (picture_name_text n.0) };

    /// Writes the name: `bqsim-` and eight hex digits.
    fn fmt<W: fmt::Write>(&self, f: &mut fmt::Formatter<W>) -> fmt::Result {
        let hash = self.0;
        write!(f, "bqsim-{hash:08x}")
    }
}
