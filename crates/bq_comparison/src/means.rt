//! Means and standard deviations in whole numbers.
ghost use Rattle.std.specs.Prelude.{◌≡◌, ◌≤◌, ◌<◌, ◌-◌, ◌*◌, ◌^◌, length, sum, IfSome, IfNone};
ghost use Rattle.bq_comparison.specs.Means.{AreTooGreatSums, IsDeviation, IsDeviationBySums, IsMean, IsMeanBySum, IsRoot, IsTooGreat, squares};

/// The most numbers that are added up. The sum of as many numbers of 64 bits is below 2^80.
pub const MOST_NUMBERS: usize = 65_536;

/// Returns the mean of 1 to 65,536 numbers in thousandths, rounded down.
pub fn mean(numbers: &[u64]) -> u128
    requires some { 0 < length numbers.now }
    requires few { length numbers.now ≤ MOST_NUMBERS }
    ensures { IsMean numbers.now result }
{
    mean_by_sum(numbers.len(), total(numbers))
}

/// Returns the mean of numbers in thousandths, rounded down, given how many there are and their sum.
pub(crate) fn mean_by_sum(count: usize, total: u128) -> u128
    requires some { 0 < count }
    requires fits { total < 2 ^ 80 }
    ensures { IsMeanBySum count total result }
{
    total * 1000 / count as u128
}

/// Returns the sample's standard deviation of 2 to 65,536 numbers in thousandths, rounded down. None if the numbers are too
/// great to be squared and added in 128 bits. n numbers always fit if each is below 2^54 / n; so 1,000 numbers fit if each is
/// below 2^44.
pub fn deviation(numbers: &[u64]) -> Option<u128>
    requires some { 2 ≤ length numbers.now }
    requires few { length numbers.now ≤ MOST_NUMBERS }
    ensures value { IfSome result (IsDeviation numbers.now) }
    ensures none { IfNone result (IsTooGreat numbers.now) }
{
    deviation_by_sums(numbers.len(), squares(numbers)?, total(numbers))
}

/// Returns the standard deviation of 2 to 65,536 numbers, given the sum of their squares and the size of their sum. None if these
/// are too great to be multiplied in 128 bits.
pub(crate) fn deviation_by_sums(count: usize, squared: u128, total: u128) -> Option<u128>
    requires some { 2 ≤ count }
    requires few { count ≤ MOST_NUMBERS }
    ensures value { IfSome result (IsDeviationBySums count squared total) }
    ensures none { IfNone result (AreTooGreatSums count squared total) }
{
    let count = count as u128;
    let whole = whole(count, squared)?;
    let square = total.checked_mul(total)?;
    Some(root(whole.saturating_sub(square), count * (count - 1)))
}

/// Returns `count` times the sum of the squares; `None` if 10^6 times that does not fit 128 bits.
fn whole(count: u128, squared: u128) -> Option<u128>
    ensures value { IfSome result (λ n. n ≡ count * squared) }
    ensures fits { IfSome result (λ n. n * 1000000 < 2 ^ 128) }
    ensures none { IfNone result (2 ^ 128 ≤ count * squared * 1000000) }
{
    let whole = count.checked_mul(squared)?;
    whole.checked_mul(1_000_000)?;
    Some(whole)
}

/// Returns the root of a ratio in thousandths, rounded down.
fn root(above: u128, below: u128) -> u128
    requires some { 0 < below }
    requires fits { above * 1000000 < 2 ^ 128 }
    ensures { IsRoot above below result }
{
    (above * 1_000_000 / below).isqrt()
}

/// Returns the sum of up to 65,536 numbers.
fn total(numbers: &[u64]) -> u128
    requires { length numbers.now ≤ MOST_NUMBERS }
    ensures value { result ≡ sum numbers.now }
    ensures fits { result < 2 ^ 80 }
{
    let mut total: u128 = 0;
    'numbers: for number in numbers {
        total += u128::from(*number);
    }
    total
}

/// Returns the sum of the squares of some numbers, if it fits 128 bits.
fn squares(numbers: &[u64]) -> Option<u128>
    ensures value { IfSome result (λ n. n ≡ squares numbers.now) }
    ensures none { IfNone result (2 ^ 128 ≤ squares numbers.now) }
{
    let mut total: u128 = 0;
    'numbers: for number in numbers {
        let number = u128::from(*number);
        total = total.checked_add(number * number)?;
    }
    Some(total)
}
