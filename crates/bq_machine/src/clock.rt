//! The source of the time.
ghost use Rattle.std.specs.Prelude.{ℕ};

/// Reads the time at a processor. A machine reads it once for each event that has a time, while it holds only the lock of
/// that processor. A pull reads it before it takes any lock.
pub trait Clock {
    // The readings that the clock may give at a processor.
    ghost gives: { ℕ → ℕ → Type 0 };

    /// Reads the time at a processor, in nanoseconds.
    fn now(&self, processor: u8) -> u64
        ensures { gives processor result };
}
