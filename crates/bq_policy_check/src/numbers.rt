//! The numbers that words of a command write.
ghost use Rattle.std.specs.Prelude.{◌^◌, ℕ, ℤ, FitsSigned, IfNone, IfSome};
ghost use Rattle.std.specs.Int.{w32};
ghost use Rattle.bq_policy_check.specs.Limiting.{IsHelperWord};
ghost use Rattle.bq_policy_check.specs.Given.{IsNumberBelow};

use bq_bpf::Helper;
use bq_words::number;

/// Reads a number in decimal, below 2^32.
pub fn small_number(word: &str) -> Option<u32>
    ensures some { IfSome result (IsNumberBelow (2 ^ 32) word.now) }
    ensures none { IfNone result ((number : ℕ) → ¬ IsNumberBelow (2 ^ 32) word.now number) }
{
    let number = number(word.as_bytes(), 10)?;
    u32::try_from(number).ok()
}

/// Reads the number of a helper, in decimal.
pub(crate) fn helper(word: &[u8]) -> Option<i32>
    ensures some { IfSome result (IsHelperWord word.now) }
    ensures none { IfNone result ((number : ℤ) → ¬ IsHelperWord word.now number) }
    ensures fits { IfSome result (FitsSigned w32) }
{
    let number = i32::try_from(number(word, 10)?).ok()?;
    match Helper::of(number) {
        Some(_) => Some(number),
        None => None,
    }
}
