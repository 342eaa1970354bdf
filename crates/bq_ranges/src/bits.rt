//! What the bits of words say about their size.
ghost use Rattle.std.specs.Prelude.{◌≡◌, ◌+◌, ◌*◌, ◌^◌, ◌≤◌, ℕ, bit_and};
ghost use Rattle.bq_ranges.specs.Within.{Within};

use crate::range::Range;

/// Returns the least number that is not below the word and has no unset bit below a set one.
pub fn ones(word: u64) -> u64
    ensures ones { (k : ℕ) × (result + 1 ≡ 2 ^ k) × (2 ^ k ≤ 2 * word + 1) }
    ensures above { word ≤ result }
{
    let zeros = word.leading_zeros();
    if zeros == 0 {
        return u64::MAX;
    }
    (1 << (64 - zeros)) - 1
}

/// Bounds what an AND with a word of `mask` gives, if the AND is at most `most`.
///
/// If `mask` is a single word, its low zero bits make the bound smaller.
pub fn multiple_within(most: u64, mask: Range) -> u64
    ensures below { result ≤ most }
    ensures holds { (x y : ℕ) → Within mask y → bit_and x y ≤ most → bit_and x y ≤ result }
{
    if !mask.is_single() || mask.lo == 0 {
        return most;
    }
    let zeros = mask.lo.trailing_zeros();
    if mask.lo % (1 << zeros) != 0 {
        return most;
    }
    most - most % (1 << zeros)
}
