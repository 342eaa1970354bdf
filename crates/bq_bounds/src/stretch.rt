//! A stretch of events of one processor in which no task comes or goes, and what its tasks are owed in it.
ghost use Rattle.std.specs.Prelude.{◌≡◌, ◌≤◌, ◌-◌, ◌^◌, length, min};
ghost use Rattle.bq_weights.specs.VirtualTime.{IsWeight};
ghost use Rattle.bq_bounds.specs.Glances.{at_most_owed};
ghost use Rattle.bq_bounds.specs.Lags.{owed_at_most, beginning, furthest, heaviest, lag_by, most_owed, stretched};

use crate::charge::Charge;
use crate::glance::Glance;
use crate::totals::totals;
use crate::watch::greater;
use bq_disc::Entity;
use bq_disc::limits::TASKS;
use bq_weights::{NICE_0_WEIGHT, time_of};

/// The current stretch. Under EEVDF no task gets further ahead of the mean in it than one was at its beginning, except by one rise of the
/// clock between two decisions. So no task is owed more than the others can be ahead together.
#[derive(Clone, Copy)]
pub struct Stretch {
    /// How far the furthest task was ahead of the mean at the beginning, in virtual nanoseconds.
    pub ahead: u64,
    /// The greatest weight of the stretch's tasks.
    pub heaviest: u32,
    /// How far the clock has risen since the discipline decided, or since the beginning.
    pub since: u64,
    /// The greatest value that `since` has had.
    pub most: u64,
}

/// The totals of some tasks, from which each task's lag is computed.
#[derive(Clone, Copy)]
struct Group {
    count: u32,
    weight: u32,
    mean: u64,
}

impl Stretch {
    /// Returns a stretch that begins with these tasks.
    pub fn begin(tasks: &[Entity]) -> Stretch
        requires { length tasks.now ≤ TASKS }
        ensures { result ≡ beginning tasks.now }
    {
        let mean = totals(tasks).mean().unwrap_or(0);
        Stretch {
            ahead: furthest(mean, tasks),
            heaviest: heaviest(tasks),
            since: 0,
            most: 0,
        }
    }

    /// Adds a rise of the clock, in nanoseconds, to `since`, and keeps in `most` the greatest value of `since`.
    pub fn rise(&mut self, rise: u64)
        ensures { self.new ≡ stretched rise self.old }
    {
        self.since = self.since.saturating_add(rise);
        self.most = self.most.max(self.since);
    }

    /// Notes that the discipline decides who runs: sets `since` to 0.
    pub fn decide(&mut self)
        ensures { self.new ≡ record self.old { since = 0 } }
    {
        self.since = 0;
    }

    /// Finds the task that is owed most, the first of equal ones. Returns what it is owed and what it may be owed, in nanoseconds. `None` if
    /// there is no task.
    pub fn most_owed(&self, tasks: &[Entity]) -> Option<Charge>
        requires { length tasks.now ≤ TASKS }
        ensures { result ≡ most_owed self.now tasks.now }
    {
        let totals = totals(tasks);
        let group = Group {
            count: totals.count,
            weight: totals.weight as u32,
            mean: totals.mean().unwrap_or(0),
        };
        let mut best: Option<Charge> = None;
        let mut at = tasks.len();
        while at > 0 {
            at -= 1;
            let lag = self.lag(&group, &tasks[at]);
            best = match best {
                None => Some(lag),
                Some(other) => Some(greater(Some(lag), other)),
            };
        }
        best
    }

    /// Returns a bound on what any task of the stretch is owed, from a glance: nanoseconds, at most the type's greatest number.
    pub fn at_most_owed(&self, glance: Glance) -> u64
        ensures { result ≡ min (at_most_owed glance self.now) (2 ^ 64 - 1) }
    {
        let behind = glance.mean.saturating_sub(glance.least);
        u64::try_from(time_of(behind, self.heaviest)).unwrap_or(u64::MAX)
    }

    /// Returns what a task of the group is owed and what it may be owed, both in nanoseconds.
    fn lag(&self, group: &Group, task: &Entity) -> Charge
        requires count { group.now.count ≤ TASKS }
        requires least { 1 ≤ group.now.weight }
        requires most { group.now.weight ≤ 2 ^ 27 }
        ensures { result ≡ lag_by self.now group.now.mean group.now.count group.now.weight task.now }
    {
        let behind = group.mean.saturating_sub(task.v());
        let owed = time_of(behind, task.weight());
        Charge {
            difference: u64::try_from(owed).unwrap_or(u64::MAX),
            bound: self.allowed(group, task.weight()),
        }
    }

    /// Returns what a task of this weight may be owed, in nanoseconds, at most the type's greatest number.
    fn allowed(&self, group: &Group, weight: u32) -> u64
        requires count { group.now.count ≤ TASKS }
        requires weight { IsWeight weight }
        requires least { 1 ≤ group.now.weight }
        requires most { group.now.weight ≤ 2 ^ 27 }
        ensures { result ≡ min (owed_at_most self.now.ahead self.now.most group.now.count group.now.weight weight) (2 ^ 64 - 1) }
    {
        let whole = u128::from(group.weight);
        let rises = u128::from(group.count.saturating_sub(2)) * u128::from(self.most);
        let others = u128::from(group.weight.saturating_sub(weight))
            * u128::from(self.ahead)
            * whole;
        let own = u128::from(NICE_0_WEIGHT) * u128::from(self.most) * u128::from(weight);
        let together = rises + (others + own) / (u128::from(NICE_0_WEIGHT) * whole);
        u64::try_from(together).unwrap_or(u64::MAX)
    }
}

/// Returns how far the furthest of some tasks is ahead of a mean, in virtual nanoseconds. 0 if none is ahead.
fn furthest(mean: u64, tasks: &[Entity]) -> u64
    ensures { result ≡ furthest mean tasks.now }
{
    let mut most = 0u64;
    let mut at = tasks.len();
    while at > 0 {
        at -= 1;
        most = tasks[at].v().saturating_sub(mean).max(most);
    }
    most
}

/// Returns the greatest weight of some tasks. 0 if there is no task.
fn heaviest(tasks: &[Entity]) -> u32
    ensures { result ≡ heaviest tasks.now }
{
    let mut most = 0u32;
    let mut at = tasks.len();
    while at > 0 {
        at -= 1;
        most = tasks[at].weight().max(most);
    }
    most
}
