//! Times that are too great.
ghost use Rattle.std.specs.Prelude.{◌≡◌, ◌<◌, IfSome, length, position};
ghost use Rattle.bq_timeline.specs.Times.{is_no_digit, is_too_great};

use bq_words::duration;

/// Tells whether a word is a number and its unit, but no time, since it has 2^64 ns or more. One digit before the point or the unit is never
/// too much, so the word without its other digits there is a time.
pub(crate) fn is_too_great(word: &[u8]) -> bool
    ensures { result ≡ is_too_great word.now }
{
    if duration(word).is_some() {
        return false;
    }
    match end_of_digits(word) {
        Some(end) => duration(&word[end.saturating_sub(1)..]).is_some(),
        None => false,
    }
}

/// Returns where the digits at the front of a word end, if anything follows them.
fn end_of_digits(word: &[u8]) -> Option<usize>
    ensures value { result ≡ position is_no_digit word.now }
    ensures within { IfSome result (λ end. end < length word.now) }
{
    word.iter().position(|byte| is_no_digit(*byte))
}

fn is_no_digit(byte: u8) -> bool
    ensures { result ≡ is_no_digit byte }
{
    !byte.is_ascii_digit()
}
