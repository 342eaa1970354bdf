//! The times of a simulation.

/// The times of a simulation, in nanoseconds.
#[derive(Clone, Copy)]
pub struct Periods {
    /// When it ends.
    pub end: u64,
    /// The time between two ticks of a processor that runs something.
    pub tick: u64,
    /// The time between two looks of a processor for a task to pull.
    pub balance: u64,
    /// What each change of processor adds to what is left of a run phase.
    pub migration_cost: u64,
}
