//! The readings of a processor's clock.

/// The latest reading, in nanoseconds: 2^48 - 1, more than three days. A later reading counts as this one.
pub const LATEST: u64 = (1 << 48) - 1;
