//! The latencies of tasks, from wake to run.
ghost use Rattle.std.specs.Prelude.{◌≡◌, ℕ, [], OnOk, OnErr, IsPermutation, IsSorted};
ghost use Rattle.std.specs.Ordering.{nat_cmp};
ghost use Rattle.bq_schedule.specs.WakeLatencies.{latencies_of, percentiles_of, HaveSameLatencies, TakesStart};

use crate::change::Change;
use crate::latencies::Latencies;
use std::alloc::{AllocError, Global};
use std::collections::BTreeMap;
use std::marker::Model;

/// The latencies of each task's wakes. Each latency is kept.
#[derive(Drop)]
pub struct WakeLatencies {
    alloc: Global,
    tasks: BTreeMap<u16, Latencies>,
}

impl Model for WakeLatencies {
    ghost use Rattle.std.specs.Prelude.{ℕ, List};

    ghost Value = { List (ℕ × List ℕ) };

    ghost view = { λ l. l.tasks.entries };
}

/// The latencies that 50, 95 and 99 percent of a task's latencies do not exceed, by nearest rank, and the greatest, in nanoseconds.
/// Each is `None` if the task has no latency.
#[derive(Clone, Copy)]
pub struct Percentiles {
    pub p50: Option<u64>,
    pub p95: Option<u64>,
    pub p99: Option<u64>,
    pub greatest: Option<u64>,
}

impl WakeLatencies {
    /// Returns a list of no latencies.
    pub fn new(alloc: Global) -> WakeLatencies
        ensures { (task : ℕ) → latencies_of result task ≡ [] }
    {
        WakeLatencies {
            alloc,
            tasks: BTreeMap::new(alloc),
        }
    }

    /// Takes the latency of the start in a change, if there is one. If memory runs out, nothing changes.
    pub fn take(&mut self, change: &Change) -> Result<(), AllocError>
        ensures ok { OnOk result (TakesStart change.now.start self.old self.new) }
        ensures fault { OnErr result (HaveSameLatencies self.old self.new) }
    {
        let Some(start) = change.start else {
            return Ok(());
        };
        let Some(latency) = start.latency else {
            return Ok(());
        };
        let latencies = self
            .tasks
            .entry(start.task)?
            .or_insert(Latencies::new(self.alloc));
        latencies.push(latency)
    }

    /// Sorts the latencies of a task, and returns their percentiles.
    pub fn percentiles(&mut self, task: u16) -> Percentiles
        ensures values { result ≡ percentiles_of (latencies_of self.new task) }
        ensures sorted { IsSorted nat_cmp (latencies_of self.new task) }
        ensures kept { IsPermutation (latencies_of self.old task) (latencies_of self.new task) }
        ensures others { (other : ℕ) → ¬ (other ≡ task) → latencies_of self.new other ≡ latencies_of self.old other }
    {
        match self.tasks.get_mut(&task) {
            Some(latencies) => {
                latencies.sort();
                Percentiles {
                    p50: latencies.at_rank(50),
                    p95: latencies.at_rank(95),
                    p99: latencies.at_rank(99),
                    greatest: latencies.at_rank(100),
                }
            }
            None => Percentiles {
                p50: None,
                p95: None,
                p99: None,
                greatest: None,
            },
        }
    }
}
