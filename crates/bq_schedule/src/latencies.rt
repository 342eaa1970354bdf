//! Exact percentiles of latencies.
ghost use Rattle.std.specs.Prelude.{◌≡◌, ◌<◌, ◌↔◌, List, ℕ, [], ◌∷◌, ◌++◌, length, slice_get, slice_index, IfSome, IsNone, OnOk, OnErr, IsPermutation, IsSorted};
ghost use Rattle.std.specs.Ordering.{nat_cmp};
ghost use Rattle.bq_schedule.specs.Percentiles.{rank};

use std::alloc::{AllocError, Global};
use std::marker::Model;

/// Latencies in nanoseconds. Each is kept, so the memory grows with their number. A schedule itself keeps only their number, sum
/// and greatest. A caller that wants percentiles pushes the latency of each start that has one.
#[derive(Drop)]
pub struct Latencies {
    values: Vec<u64>,
}

impl Model for Latencies {
    ghost use Rattle.std.specs.Prelude.{List, ℕ};

    ghost Value = { List ℕ };

    ghost view = { λ l. l.values.items };
}

impl Latencies {
    /// Returns an empty list of latencies. Takes no memory until one is pushed.
    pub fn new(alloc: Global) -> Latencies
        ensures { result ≡ [] }
    {
        Latencies {
            values: Vec::new(alloc),
        }
    }

    /// Adds one latency. If memory runs out, nothing changes.
    pub fn push(&mut self, latency: u64) -> Result<(), AllocError>
        ensures ok { OnOk result (self.new ≡ self.old ++ latency ∷ []) }
        ensures fault { OnErr result (self.new ≡ self.old) }
    {
        self.values.push(latency)?;
        Ok(())
    }

    /// Sorts the latencies, and returns the least one that at least this many percent of all do not exceed, by nearest rank. Returns
    /// the greatest if `percent` is above 100, and `None` if there are no latencies.
    pub fn percentile(&mut self, percent: u8) -> Option<u64>
        ensures none { IsNone result ↔ (self.old ≡ []) }
        ensures value { IfSome result (λ v. v ≡ slice_index self.new (rank percent (length self.new))) }
        ensures sorted { IsSorted nat_cmp self.new }
        ensures kept { IsPermutation self.old self.new }
    {
        self.sort();
        self.at_rank(percent)
    }

    /// Sorts the latencies in ascending order.
    pub(crate) fn sort(&mut self)
        ensures sorted { IsSorted nat_cmp self.new }
        ensures kept { IsPermutation self.old self.new }
    {
        self.values.sort_unstable();
    }

    /// Returns the latency at the place of a percentile, in the current order. `None` if there are no latencies.
    pub(crate) fn at_rank(&self, percent: u8) -> Option<u64>
        ensures { result ≡ slice_get self.now (rank percent (length self.now)) }
    {
        let count = self.values.len();
        if count == 0 {
            return None;
        }
        Some(self.values[rank(percent, count)])
    }
}

/// Returns the place of a percentile among this many sorted numbers. There must be at least one.
fn rank(percent: u8, count: usize) -> usize
    requires { 0 < count }
    ensures place { result ≡ rank percent count }
    ensures within { result < count }
{
    let reached = (count as u128 * u128::from(percent)).div_ceil(100);
    (reached.min(count as u128) as usize).saturating_sub(1)
}
