//! Round steps of time.
ghost use Rattle.std.specs.Prelude.{◌≡◌, ℕ, find};
ghost use Rattle.bq_report.specs.Steps.{covers};

/// 1, 2 and 5 times each power of ten, up to more than a clock of 48 bits can count, in nanoseconds.
pub const STEPS: [u64; 45] = [
    1,
    2,
    5,
    10,
    20,
    50,
    100,
    200,
    500,
    1_000,
    2_000,
    5_000,
    10_000,
    20_000,
    50_000,
    100_000,
    200_000,
    500_000,
    1_000_000,
    2_000_000,
    5_000_000,
    10_000_000,
    20_000_000,
    50_000_000,
    100_000_000,
    200_000_000,
    500_000_000,
    1_000_000_000,
    2_000_000_000,
    5_000_000_000,
    10_000_000_000,
    20_000_000_000,
    50_000_000_000,
    100_000_000_000,
    200_000_000_000,
    500_000_000_000,
    1_000_000_000_000,
    2_000_000_000_000,
    5_000_000_000_000,
    10_000_000_000_000,
    20_000_000_000_000,
    50_000_000_000_000,
    100_000_000_000_000,
    200_000_000_000_000,
    500_000_000_000_000,
];

/// Returns the least round step with which `count` steps cover a span of time. `None` if the span is too long, or if `count` is 0.
///
/// 3.2 ms in 72 columns have steps of 50 us.
pub fn round_step(span: u64, count: u16) -> Option<u64>
    ensures { result ≡ find (λ (step : ℕ). covers span count step) STEPS }
{
    STEPS.iter().copied().find(|step| u128::from(span) <= u128::from(*step) * u128::from(count))
}
