//! The machine of a simulation.

use bq_words::{DisciplineName, ProcessorCount};

/// The machine of a simulation, and how long it is watched. Times are nanoseconds.
#[derive(Clone, Copy, PartialEq, Eq)]
pub struct Setup {
    /// The discipline by which processors choose among their tasks.
    pub discipline: DisciplineName,
    /// How many processors there are.
    pub size: ProcessorCount,
    /// How long it runs, from 1 to 2^48 - 1. What comes after this instant is not done.
    pub duration: u64,
    /// The time between two ticks of a processor that runs something, from 1 to 2^48 - 1.
    pub tick: u64,
    /// The time between two looks of a processor for a task to pull, from 1 to 2^48 - 1.
    pub balance: u64,
    /// What each change of processor adds to what is left of a run phase, from 0 to 2^48 - 1.
    pub migration_cost: u64,
    /// The seed of the lengths that are drawn.
    pub seed: u64,
}
