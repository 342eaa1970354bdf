//! Means and standard deviations of differences.
ghost use Rattle.std.specs.Prelude.{◌≡◌, ◌≤◌, ◌<◌, ◌^◌, length, IfSome, IfNone};
ghost use Rattle.bq_comparison.specs.Pairs.{ArePairsTooGreat, IsPairedDeviation, IsPairedDifference, IsPairedRow, our_sum, squared_differences, their_sum};
ghost use Rattle.bq_comparison.specs.declared.means.TheConstants.{MOST_NUMBERS};

use crate::difference::Difference;
use crate::means::{deviation_by_sums, mean_by_sum};

/// The values of a figure in two runs with the same seed.
#[derive(Clone, Copy)]
pub struct Pair {
    pub ours: u64,
    pub theirs: u64,
}

/// What runs with the same seeds say of the difference of a figure, theirs less ours, in thousandths of its unit.
#[derive(Clone, Copy)]
pub struct PairedRow {
    /// With how many seeds both runs have a value.
    pub runs: usize,
    /// The difference of the means of these values, if there are any.
    pub difference: Option<Difference>,
    /// The standard deviation of the differences, each of one seed, rounded down, if there are at least two. None too if they
    /// are beyond the arithmetic of 128 bits; no n differences below 2^54 / n are.
    pub deviation: Option<u128>,
}

/// The sums of both numbers of some pairs.
#[derive(Clone, Copy)]
struct Sums {
    ours: u128,
    theirs: u128,
}

/// Returns what some pairs say of the difference of a figure.
pub(crate) fn paired_row(pairs: &[Pair]) -> PairedRow
    requires { length pairs.now ≤ MOST_NUMBERS }
    ensures { IsPairedRow pairs.now result }
{
    let runs = pairs.len();
    let difference = if runs == 0 {
        None
    } else {
        Some(difference(pairs))
    };
    let deviation = if runs < 2 {
        None
    } else {
        paired_deviation(pairs)
    };
    PairedRow {
        runs,
        difference,
        deviation,
    }
}

/// Returns the difference of the means of 1 to 65,536 pairs, in thousandths.
fn difference(pairs: &[Pair]) -> Difference
    requires some { 0 < length pairs.now }
    requires few { length pairs.now ≤ MOST_NUMBERS }
    ensures { IsPairedDifference pairs.now result }
{
    let sums = sums_of(pairs);
    let count = pairs.len();
    let ours = mean_by_sum(count, sums.ours);
    let theirs = mean_by_sum(count, sums.theirs);
    Difference::of(ours, theirs)
}

/// Returns the sample's standard deviation of the differences of 2 to 65,536 pairs in thousandths, rounded down. None if the
/// differences are too great to be squared and added in 128 bits. n differences always fit if each is below 2^54 / n.
pub fn paired_deviation(pairs: &[Pair]) -> Option<u128>
    requires some { 2 ≤ length pairs.now }
    requires few { length pairs.now ≤ MOST_NUMBERS }
    ensures value { IfSome result (IsPairedDeviation pairs.now) }
    ensures none { IfNone result (ArePairsTooGreat pairs.now) }
{
    let sums = sums_of(pairs);
    let total = sums.ours.abs_diff(sums.theirs);
    deviation_by_sums(pairs.len(), squared_differences(pairs)?, total)
}

/// Returns the sums of up to 65,536 pairs.
fn sums_of(pairs: &[Pair]) -> Sums
    requires { length pairs.now ≤ MOST_NUMBERS }
    ensures ours { result.ours ≡ our_sum pairs.now }
    ensures theirs { result.theirs ≡ their_sum pairs.now }
    ensures fits { (result.ours < 2 ^ 80) × (result.theirs < 2 ^ 80) }
{
    let mut sums = Sums { ours: 0, theirs: 0 };
    'pairs: for pair in pairs {
        let Pair { ours, theirs } = *pair;
        sums.ours += u128::from(ours);
        sums.theirs += u128::from(theirs);
    }
    sums
}

/// Returns the sum of the squares of the differences, if it fits 128 bits.
fn squared_differences(pairs: &[Pair]) -> Option<u128>
    ensures value { IfSome result (λ n. n ≡ squared_differences pairs.now) }
    ensures none { IfNone result (2 ^ 128 ≤ squared_differences pairs.now) }
{
    let mut total: u128 = 0;
    'pairs: for pair in pairs {
        let size = u128::from(pair.ours.abs_diff(pair.theirs));
        total = total.checked_add(size * size)?;
    }
    Some(total)
}
