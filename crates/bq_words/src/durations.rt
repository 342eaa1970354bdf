//! Lengths of time.
ghost use Rattle.std.specs.Prelude.{◌≡◌, ◌<◌, IfSome, length, position};
ghost use Rattle.bq_words.specs.Durations.{amount_of, duration_of, ends_number, fraction_of, is_point};

use crate::nanoseconds;
use crate::quantities::decimal;

/// The nanoseconds that a word writes: a number, with a fraction or without, and a unit: `ns`, `us`, `ms` or `s`. A part of a nanosecond
/// is cut off.
///
/// `1500ns`, `1.5us` and `0.0015ms` are all 1500. `None` if the word is no length of time, or if it has 2^64 ns or more. A number without
/// a unit is `None` too, so that `60` is not taken for 60 ns by mistake.
pub fn duration(word: &[u8]) -> Option<u64>
    ensures { result ≡ duration_of word.now }
{
    let end = end_of_number(word)?;
    let unit = nanoseconds(&word[end..])?;
    amount(&word[..end], unit)
}

/// Where the digits and points at the front of the word end. `None` if the word has nothing else.
fn end_of_number(word: &[u8]) -> Option<usize>
    ensures value { result ≡ position ends_number word.now }
    ensures within { IfSome result (λ end. end < length word.now) }
{
    word.iter().position(|byte| ends_number(*byte))
}

fn ends_number(byte: u8) -> bool
    ensures { result ≡ ends_number byte }
{
    !(byte.is_ascii_digit() || is_point(byte))
}

fn is_point(byte: u8) -> bool
    ensures { result ≡ is_point byte }
{
    byte == b'.'
}

/// Where a number has its first point, if it has one.
fn point(number: &[u8]) -> Option<usize>
    ensures value { result ≡ position is_point number.now }
    ensures within { IfSome result (λ point. point < length number.now) }
{
    number.iter().position(|byte| is_point(*byte))
}

/// The nanoseconds of this number of units. `unit` is how many nanoseconds one unit has.
///
/// `None` if the bytes are no number, or if there are 2^64 ns or more.
fn amount(number: &[u8], unit: u64) -> Option<u64>
    ensures { result ≡ amount_of unit number.now }
{
    match point(number) {
        Some(point) => {
            let whole = decimal(&number[..point])?.checked_mul(unit)?;
            let part = fraction(&number[point + 1..], unit)?;
            whole.checked_add(part)
        }
        None => decimal(number)?.checked_mul(unit),
    }
}

/// The nanoseconds of a fraction of a unit. `digits` are what follows the point. A part of a nanosecond is cut off.
///
/// `None` if there is no digit, or if a byte is no digit.
fn fraction(digits: &[u8], unit: u64) -> Option<u64>
    ensures { result ≡ fraction_of unit digits.now }
{
    if digits.is_empty() {
        return None;
    }
    let mut counts = unit;
    let mut part: u64 = 0;
    for byte in digits {
        let digit = char::from(*byte).to_digit(10)?;
        counts = counts / 10;
        part += u64::from(digit) * counts;
    }
    Some(part)
}
