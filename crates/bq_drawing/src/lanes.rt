//! Intervals of time, side by side in lanes.
ghost use Rattle.std.specs.Prelude.{◌≡◌, ◌<◌, IfOk, IfSome, [], length, nat_le};
ghost use Rattle.bq_drawing.specs.Lanes.{first_free, lane_of, lanes_taken};

use std::alloc::{AllocError, Global};
use std::marker::Model;

/// How many intervals are drawn one above another. If there are more at a time, the rest are left out.
pub const LANES: usize = 16;

/// An interval of time of a task at a processor.
#[derive(Clone, Copy, PartialEq, Eq, PartialOrd, Ord)]
pub struct TaskInterval {
    pub from: u64,
    pub to: u64,
    pub task: u16,
}

/// The lanes of a processor, each free from a moment on. Contracts see these moments.
#[derive(Drop)]
pub struct Lanes {
    free: Vec<u64>,
}

impl Model for Lanes {
    ghost use Rattle.std.specs.Prelude.{ℕ, List};

    ghost Value = { List ℕ };

    ghost view = { λ l. l.free.items };
}

impl Lanes {
    /// Returns no lanes.
    pub fn new(alloc: Global) -> Lanes
        ensures { result ≡ [] }
    {
        Lanes {
            free: Vec::new(alloc),
        }
    }

    /// Returns how many lanes there are.
    pub fn count(&self) -> usize
        ensures { result ≡ length self.now }
    {
        self.free.len()
    }

    /// Allots a lane to an interval, and returns it: the first lane that is free when the interval begins, or else a new one. `None` if all
    /// lanes are taken. Intervals must come in the order in which they begin.
    pub fn allot(&mut self, interval: &TaskInterval) -> Result<Option<usize>, AllocError>
        ensures lane { IfOk result (λ lane. lane ≡ lane_of interval.now self.old) }
        ensures taken { IfOk result (λ lane. self.new ≡ lanes_taken lane interval.now.to self.old) }
    {
        if let Some(place) = self.first_free(interval.from) {
            if let Some(free) = self.free.get_mut(place) {
                *free = interval.to;
                return Ok(Some(place));
            }
        }
        if self.free.len() >= LANES {
            return Ok(None);
        }
        self.free.push(interval.to)?;
        Ok(Some(self.free.len() - 1))
    }

    /// Returns the first lane that is free at a moment.
    fn first_free(&self, at: u64) -> Option<usize>
        ensures value { result ≡ first_free at self.now }
        ensures within { IfSome result (λ lane. lane < length self.now) }
    {
        self.free.iter().position(|free| has_ended(*free, at))
    }
}

/// Tells whether something that lasts until one moment has ended at another.
fn has_ended(until: u64, at: u64) -> bool
    ensures { result ≡ nat_le until at }
{
    until <= at
}
