//! The numbers that words write.
ghost use Rattle.std.specs.Prelude.{◌≡◌, ◌≤◌, MatchOption, codes, drop, false, nat_eq, true};
ghost use Rattle.std.specs.List.{starts_with};
ghost use Rattle.bq_words.specs.Numbers.{number_in_base, value_of};

/// `before`, 2^32 and `behind` as one text. 2^32 is the limit of numbers of 32 bits.
#[macro_export]
macro_rules! with_32_bits {
    ($before:literal, $behind:literal) => {
        concat!($before, "4294967296", $behind)
    };
}

/// The number that the word writes in this base. `None` if the word has no digit, has another byte, or does not fit 64 bits.
pub fn number(word: &[u8], base: u32) -> Option<u64>
    requires low { 2 ≤ base }
    requires high { base ≤ 36 }
    ensures { result ≡ number_in_base base word.now }
{
    if word.is_empty() {
        return None;
    }
    let mut value: u64 = 0;
    for byte in word {
        let digit = char::from(*byte).to_digit(base)?;
        value = value
            .checked_mul(u64::from(base))?
            .checked_add(u64::from(digit))?;
    }
    Some(value)
}

/// The number that the word writes in decimal, or in hex digits of either case after `0x`.
pub fn value(word: &[u8]) -> Option<u64>
    ensures { result ≡ value_of word.now }
{
    match hex_digits(word) {
        Some(digits) => number(digits, 16),
        None => number(word, 10),
    }
}

/// What follows the `0x` at the front of a word. `None` if the word does not begin with `0x`.
pub fn hex_digits(word: &[u8]) -> Option<&[u8]>
    ensures { MatchOption result (starts_with nat_eq word.now (codes "0x") ≡ false) (λ digits. (starts_with nat_eq word.now (codes "0x") ≡ true) × (digits.now ≡ drop 2 word.now)) }
{
    word.strip_prefix(b"0x")
}
