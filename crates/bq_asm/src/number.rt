//! The numbers and registers that words write.
ghost use Rattle.std.specs.Prelude.{◌≡◌, ◌+◌, ◌^◌, option_map, pos};
ghost use Rattle.bq_words.specs.Numbers.{below, value_of};
ghost use Rattle.bq_asm.specs.Numbers.{negative, imm_of, offset_of, distance_in_word, wide_of, register_named, begins_number};

use bq_words::value;

/// Returns the number that a word writes, from -2^31 to 2^31 - 1; `None` if it writes none.
pub fn imm_of(word: &[u8]) -> Option<i32>
    ensures { result ≡ imm_of word.now }
{
    match word.strip_prefix(b"-") {
        Some(digits) => below_zero(digits),
        None => from_zero(word),
    }
}

/// Returns the number that digits write after a `-`, down to -2^31; `None` if they write none.
fn below_zero(digits: &[u8]) -> Option<i32>
    ensures { result ≡ option_map negative (below (2 ^ 31 + 1) (value_of digits.now)) }
{
    let size = value(digits)?;
    if size > 0x8000_0000 {
        return None;
    }
    Some((-(size as i64)) as i32)
}

/// Returns the number that digits write without a `-`, up to 2^31 - 1; `None` if they write none.
fn from_zero(digits: &[u8]) -> Option<i32>
    ensures { result ≡ option_map (λ n. pos n) (below (2 ^ 31) (value_of digits.now)) }
{
    i32::try_from(value(digits)?).ok()
}

/// Returns the number that a word writes with a sign, from -2^15 to 2^15 - 1; `None` if it writes none.
pub fn offset_of(word: &[u8]) -> Option<i16>
    ensures { result ≡ offset_of word.now }
{
    if let Some(digits) = word.strip_prefix(b"-") {
        let size = value(digits)?;
        if size > 0x8000 {
            return None;
        }
        return Some((-(size as i64)) as i16);
    }
    let digits = word.strip_prefix(b"+")?;
    i16::try_from(value(digits)?).ok()
}

/// Returns the number that a word writes with a sign, from -2^31 to 2^31 - 1; `None` if it writes none.
pub fn distance_of(word: &[u8]) -> Option<i32>
    ensures { result ≡ distance_in_word word.now }
{
    match word.strip_prefix(b"-") {
        Some(digits) => below_zero(digits),
        None => from_zero(word.strip_prefix(b"+")?),
    }
}

/// Returns the number that a word writes, from 0 to 2^64 - 1; `None` if it writes none.
pub fn wide_of(word: &[u8]) -> Option<u64>
    ensures { result ≡ wide_of word.now }
{
    match word.strip_prefix(b"-") {
        Some(digits) => {
            let size = value(digits)?;
            if size > 0 {
                return None;
            }
            Some(size)
        }
        None => value(word),
    }
}

/// Returns the register that a word names, `r0` to `r10`; `None` if it names none.
pub fn register_of(word: &[u8]) -> Option<u8>
    ensures { result ≡ register_named word.now }
{
    match word {
        [r, d] => {
            if *r == b'r' && *d >= b'0' && *d <= b'9' {
                return Some(*d - b'0');
            }
            None
        }
        [r, d, e] => {
            if *r == b'r' && *d == b'1' && *e == b'0' {
                return Some(10);
            }
            None
        }
        _ => None,
    }
}

/// Tells whether the word begins with a digit, a `+` or a `-`.
pub fn begins_number(word: &[u8]) -> bool
    ensures { result ≡ begins_number word.now }
{
    match word {
        [] => false,
        [first, ..] => (*first >= b'0' && *first <= b'9') || *first == b'+' || *first == b'-',
    }
}
