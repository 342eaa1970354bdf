//! The word that asks for the width of a map, and what it means.
ghost use Rattle.std.specs.Prelude.{◌≡◌};
ghost use Rattle.bq_timeline.specs.Settings.{width_in_word};

use bq_words::quantities::decimal;

/// The fewest columns of a map.
pub const LEAST_WIDTH: u64 = 20;

/// The most columns of a map.
pub const GREATEST_WIDTH: u64 = 10_000;

/// Returns the columns that a word asks for: from `LEAST_WIDTH` to `GREATEST_WIDTH`.
///
/// `None` if the word is no number, or if the number is outside that range.
pub fn width(word: &str) -> Option<usize>
    ensures { result ≡ width_in_word word.now }
{
    let columns = decimal(word.as_bytes())?;
    if LEAST_WIDTH <= columns && columns <= GREATEST_WIDTH {
        Some(columns as usize)
    } else {
        None
    }
}
