//! Limits: the most processors and tasks, the lengths of slices, and the beginning of virtual time.

/// The most processors that there may be. Their numbers are 0 to 63, the bits of a mask.
pub const PROCESSORS: u8 = 64;

/// A text with the numbers of processors in it.
#[macro_export]
macro_rules! with_processors {
    ($before:literal, $behind:literal) => {
        concat!($before, "0 to 63", $behind)
    };
}

/// The greatest processor number: processors are numbered from 0 to this.
pub const LAST_PROCESSOR: u8 = PROCESSORS - 1;

/// The most tasks that there may be. Their ids are 0 to 1023.
pub const TASKS: u16 = 1024;

/// The shortest slice that a task may ask for, in nanoseconds.
pub const LEAST_SLICE: u64 = 100_000;

/// The longest slice that a task may ask for, in nanoseconds.
pub const GREATEST_SLICE: u64 = 100_000_000;

/// A text with the lengths of slices that a task may ask for, in nanoseconds, in it.
#[macro_export]
macro_rules! with_slices {
    ($before:literal, $behind:literal) => {
        concat!($before, "100000 to 100000000", $behind)
    };
}

/// The slice of a task that asks for none of its own, in nanoseconds.
pub const DEFAULT_SLICE: u64 = 3_000_000;

/// Where virtual time begins: the mark of a queue that has had no task yet.
pub const FIRST_MARK: u64 = 1 << 32;
