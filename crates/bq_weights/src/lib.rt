//! Weights of nice values, and the scaling of time used by weight.
#![tactic(auto)]

ghost use Rattle.std.specs.Prelude.{◌≡◌, ◌+◌, ◌-◌, ◌*◌, ◌/◌, ◌<◌, ◌≤◌, ◌^◌, pos, negsuc, ◌≤ℤ◌, IsTrue, slice_index};
ghost use Rattle.bq_weights.specs.VirtualTime.{is_nice, weights, weight_of, IsWeight, vdelta_of, time_of, advance_of, shift_of, held_within, distance_from_mark};

/// The greatest virtual time.
pub const GREATEST_V: u64 = 1 << 62;

/// The greatest distance from the mark that is remembered of a task that leaves, on either side.
pub const FARTHEST: u64 = 1 << 30;

/// The weight of nice value 0, at which virtual time passes as fast as the clock.
pub const NICE_0_WEIGHT: u64 = 1024;

/// The least weight, that of the greatest nice value.
pub const LEAST_WEIGHT: u32 = 15;

/// The greatest weight, that of the least nice value.
pub const GREATEST_WEIGHT: u32 = 88_761;

/// The least nice value, which has the greatest weight.
pub const LEAST_NICE: i64 = -20;

/// The greatest nice value, which has the least weight.
pub const GREATEST_NICE: i64 = 19;

/// A text with the least and the greatest nice value in it.
#[macro_export]
macro_rules! with_nice_values {
    ($before:literal, $behind:literal) => {
        concat!($before, "-20 to 19", $behind)
    };
}

/// The weights of the nice values from -20 to 19, as Linux has them (kernel/sched/core.c, `sched_prio_to_weight`). From one nice
/// value to the next, the weight falls by a factor of about 1.25.
static WEIGHTS: [u32; 40] = [
    88761, 71755, 56483, 46273, 36291, 29154, 23254, 18705, 14949, 11916, 9548, 7620, 6100, 4904,
    3906, 3121, 2501, 1991, 1586, 1277, 1024, 820, 655, 526, 423, 335, 272, 215, 172, 137, 110, 87,
    70, 56, 45, 36, 29, 23, 18, 15,
];

/// Whether a number is a nice value.
pub fn is_nice(number: i64) -> bool
    ensures value { result ≡ is_nice number }
    ensures low { IsTrue result → negsuc 19 ≤ℤ number }
    ensures high { IsTrue result → number ≤ℤ pos 19 }
{
    LEAST_NICE <= number && number <= GREATEST_NICE
}

/// The weight of a nice value.
pub fn weight(nice: i8) -> u32
    requires low { negsuc 19 ≤ℤ nice }
    requires high { nice ≤ℤ pos 19 }
    ensures value { result ≡ weight_of nice }
    ensures range { IsWeight result }
{
    weight_at((nice + 20) as usize)
}

/// The weight at a place of the table.
fn weight_at(place: usize) -> u32
    requires { place < 40 }
    ensures value { result ≡ slice_index weights place }
    ensures range { IsWeight result }
{
    WEIGHTS[place]
}

/// The virtual time that a task of weight `w` gains in `d` nanoseconds.
pub fn vdelta(d: u64, w: u32) -> u64
    requires short { d < 2 ^ 48 }
    requires weight { IsWeight w }
    ensures value { result ≡ vdelta_of d w }
    ensures bound { result ≤ d * 1024 }
{
    d * NICE_0_WEIGHT / u64::from(w)
}

/// The time in which a task of weight `w` gains this virtual time: what it is owed if it is that far behind the mean. In
/// nanoseconds, rounded down.
pub fn time_of(virtual_time: u64, w: u32) -> u128
    ensures { result ≡ time_of virtual_time w }
{
    u128::from(w) * u128::from(virtual_time) / u128::from(NICE_0_WEIGHT)
}

/// The virtual time of a task of weight `w` at `v` that has run for `d` nanoseconds: at most 2^62.
pub fn advance(v: u64, d: u64, w: u32) -> u64
    requires short { d < 2 ^ 48 }
    requires weight { IsWeight w }
    ensures value { result ≡ advance_of v d w }
    ensures high { result ≤ GREATEST_V }
{
    v.saturating_add(vdelta(d, w)).min(GREATEST_V)
}

/// The mark moved by `rel`, held from 0 to the greatest virtual time.
pub fn shift(mark: u64, rel: i64) -> u64
    ensures value { result ≡ shift_of mark rel }
    ensures high { result ≤ GREATEST_V }
{
    if rel >= 0 {
        mark.saturating_add(rel as u64).min(GREATEST_V)
    } else {
        mark.saturating_sub(rel.unsigned_abs()).min(GREATEST_V)
    }
}

/// The mark moved by `rel`, which is first held within `most` on either side.
pub fn shift_within(mark: u64, rel: i64, most: u64) -> u64
    ensures value { result ≡ shift_of mark (held_within most rel) }
    ensures high { result ≤ GREATEST_V }
{
    if rel >= 0 {
        mark.saturating_add((rel as u64).min(most)).min(GREATEST_V)
    } else {
        mark.saturating_sub(rel.unsigned_abs().min(most))
            .min(GREATEST_V)
    }
}

/// `v` less the mark, held within the farthest distance on either side.
pub fn distance(v: u64, mark: u64) -> i64
    ensures value { result ≡ distance_from_mark v mark }
{
    if mark <= v {
        (v - mark).min(FARTHEST) as i64
    } else {
        -((mark - v).min(FARTHEST) as i64)
    }
}
