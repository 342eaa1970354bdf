//! What a simulation counts beside its trace.

/// What a simulation counts beside its trace. Each count stops at its greatest value.
#[derive(Clone, Copy, PartialEq, Eq)]
pub struct Counts {
    /// How many tasks there were.
    pub tasks: u16,
    /// How many wakes came to a task that did not wait; they did nothing.
    pub missed: u64,
}
