//! Intervals of time in which a task runs.

/// An interval of time in which a task ran at a processor, by that processor's clock, in nanoseconds. It is not empty.
///
/// A slice is what one reading of the clock charges: from the reading before to this one. Slices of one task that touch each
/// other make a run, as long as no slice of another task and no idle time comes between.
#[derive(Clone, Copy, PartialEq, Eq)]
pub struct Slice {
    pub processor: u8,
    pub task: u16,
    pub from: u64,
    pub to: u64,
}
