//! The totals of some tasks: their number, their weights, and their mean v.
ghost use Rattle.std.specs.Prelude.{◌≡◌, ◌≤◌, ◌<◌, ◌*◌, ◌^◌, List, [], IfSome};
ghost use Rattle.bq_disc.specs.Tasks.{Task};
ghost use Rattle.bq_disc.specs.Totals.{HasBounds, sums_of, added, joined, mean_of, IsBounded};
ghost use Rattle.bq_weights.specs.declared.TheConstants.{GREATEST_V};

use crate::Entity;

/// How many tasks there are, the sum of their weights, and the sum of each weight times its v.
///
/// A queue updates its totals as it changes. So the mean v of its tasks, `moment / weight`, is available at any time.
#[derive(Clone, Copy)]
pub struct Totals {
    pub moment: u128,
    pub weight: u64,
    pub count: u32,
}

impl Totals {
    /// The totals of no task.
    pub fn none() -> Totals
        ensures sums { result ≡ sums_of [] }
        ensures bounds { HasBounds result }
    {
        Totals {
            moment: 0,
            weight: 0,
            count: 0,
        }
    }

    /// Counts one more task.
    pub fn add(&mut self, entity: &Entity)
        requires few { self.old.count ≤ 2 ^ 18 }
        requires bounds { HasBounds self.old }
        ensures sums { self.new ≡ added self.old entity.now }
        ensures bounds { HasBounds self.new }
        ensures task { IsBounded entity.now }
    {
        let weight = entity.weight();
        self.moment += u128::from(weight) * u128::from(entity.v());
        self.weight += u64::from(weight);
        self.count += 1;
    }

    /// Takes away a task that was counted before.
    pub fn remove(&mut self, entity: &Entity)
        requires count { 1 ≤ self.old.count }
        requires weight { entity.now.weight ≤ self.old.weight }
        requires moment { entity.now.weight * entity.now.v ≤ self.old.moment }
        ensures { added self.new entity.now ≡ self.old }
    {
        let weight = entity.weight();
        self.moment -= u128::from(weight) * u128::from(entity.v());
        self.weight -= u64::from(weight);
        self.count -= 1;
    }

    /// The totals of these tasks and of others together.
    pub fn join(&self, other: &Totals) -> Totals
        requires few { self.now.count ≤ 2 ^ 17 }
        requires others { other.now.count ≤ 2 ^ 17 }
        requires bounds { HasBounds self.now }
        requires bounded { HasBounds other.now }
        ensures sums { result ≡ joined self.now other.now }
        ensures bounds { HasBounds result }
    {
        Totals {
            moment: self.moment + other.moment,
            weight: self.weight + other.weight,
            count: self.count + other.count,
        }
    }

    /// The mean v of the tasks, each weighted by its weight, rounded down; None if there is no task.
    pub fn mean(&self) -> Option<u64>
        requires { HasBounds self.now }
        ensures value { (xs : List Task) → self.now ≡ sums_of xs → result ≡ mean_of xs }
        ensures high { IfSome result (λ mean. mean ≤ GREATEST_V) }
    {
        if self.count == 0 {
            return None;
        }
        let mean = self.moment / u128::from(self.weight);
        Some(mean as u64)
    }
}
