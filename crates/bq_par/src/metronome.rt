//! A clock for parallel runs.

use bq_machine::Clock;
use std::alloc::{AllocError, Global};
use std::sync::atomic::{AtomicU64, Ordering};

/// The distance of each reading at a processor from the one before, in nanoseconds.
const BEAT: u64 = 1_000_000;

/// A clock for each processor. Its first reading is 0, and each later reading is 1,000,000 above the one before. No contract
/// speaks of its readings.
#[derive(Drop)]
pub struct Metronome {
    readings: Vec<AtomicU64>,
}

impl Metronome {
    /// Clocks for this many processors.
    pub fn new(alloc: Global, processors: u8) -> Result<Metronome, AllocError> {
        let mut readings = Vec::new(alloc);
        for _ in 0..processors {
            readings.push(AtomicU64::new(0))?;
        }
        Ok(Metronome { readings })
    }
}

impl Clock for Metronome {
    ghost gives = { λ _ _. Unit {0} };

    fn now(&self, processor: u8) -> u64 {
        match self.readings.get(usize::from(processor)) {
            Some(last) => last.fetch_add(BEAT, Ordering::SeqCst),
            None => 0,
        }
    }
}
