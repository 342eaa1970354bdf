//! How large the numbers of a workload may be.

/// The longest duration, in nanoseconds: as long as a clock goes.
pub use bq_disc::clock::LATEST as LONGEST;

/// The most bytes that the name of a kind of tasks may have.
pub const LONGEST_NAME: usize = 1024;
