//! A clock whose readings at each processor are 1, 2, 3 and so on. A thread that reads it may be held at a gate.

use crate::gate::{Gate, Point};
use bq_machine::Clock;
use std::alloc::{AllocError, Global};
use std::sync::Arc;
use std::sync::atomic::{AtomicU64, Ordering};

/// Reads 1, 2, 3 and so on at each processor. A thread that reads it comes to the gate first.
#[derive(Drop)]
pub struct CountingClock {
    readings: Vec<AtomicU64>,
    gate: Arc<Gate, Global>,
}

impl CountingClock {
    /// The clocks of that number of processors.
    pub fn new(
        alloc: Global,
        processors: u8,
        gate: Arc<Gate, Global>,
    ) -> Result<CountingClock, AllocError> {
        let mut readings = Vec::new(alloc);
        for _ in 0..processors {
            readings.push(AtomicU64::new(1))?;
        }
        Ok(CountingClock { readings, gate })
    }
}

impl Clock for CountingClock {
    ghost gives = { λ _ _. Unit {0} };

    fn now(&self, processor: u8) -> u64 {
        self.gate.pass(Point::Clock(processor));
        match self.readings.get(usize::from(processor)) {
            Some(next) => next.fetch_add(1, Ordering::SeqCst),
            None => 0,
        }
    }
}
