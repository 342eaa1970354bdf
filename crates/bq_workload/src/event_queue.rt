//! When each thing is due.
ghost use Rattle.std.specs.Prelude.{◌≡◌, ℕ, ◌+◌, ◌/◌, ◌<◌, ◌≤◌, length, IfOk, IfSome, IfNone, slice_index};
ghost use Rattle.bq_workload.specs.Minima.{due_number, at_rank, AreNever, ChangesOnly, IsFirstDue, HasMinima, HasOtherMinima};
ghost use Rattle.bq_disc.specs.declared.clock.TheConstants.{LATEST};

use crate::due::RANKS;
use std::alloc::{AllocError, Global};
use std::marker::Model;

/// How many leaves the tree has: a power of two that is more than the number of ranks.
const LEAVES: usize = 2048;

/// How many numbers the tree is written as: its leaves, and as many before them, of which the first has no use.
const NODES: usize = 2 * LEAVES;

/// How far the numbers of one instant are from those of the next: one number for each leaf.
const INSTANT: u64 = LEAVES as u64;

/// The number of what is never due.
const NEVER: u64 = u64::MAX;

/// The time at which the thing at each rank is due, if it is. Contracts see one number for each rank: the time and
/// the rank together, or `never_due`.
///
/// The numbers are the leaves of a tree, in which each node has the less of the two below it. So the root has the first. The
/// leaves after the ranks are never due.
#[derive(Drop)]
pub struct EventQueue {
    numbers: Vec<u64>,
}

impl Model for EventQueue {
    ghost use Rattle.std.specs.Prelude.{◌≡◌, List, ℕ, length};
    ghost use Rattle.bq_workload.specs.declared.event_queue.TheConstants.{NODES};
    ghost use Rattle.bq_workload.specs.Minima.{HasMinima, AreLeavesRanked, HasSpareLeaves};

    ghost Value = { List ℕ };

    ghost view = { λ a. a.numbers.items };

    ghost invariant = { λ a. (length a.numbers.items ≡ NODES) × HasMinima a.numbers.items × AreLeavesRanked a.numbers.items × HasSpareLeaves a.numbers.items };
}

impl EventQueue {
    /// A queue in which nothing is ever due. It allocates all the memory that it will need.
    pub fn new(alloc: Global) -> Result<EventQueue, AllocError>
        ensures { IfOk result AreNever }
    {
        Ok(EventQueue {
            numbers: vec![in alloc; NEVER; NODES]?,
        })
    }

    /// What is at a rank is due at this time from now on, or never.
    pub fn set(&mut self, rank: u16, time: Option<u64>)
        requires rank { rank < RANKS }
        requires time { IfSome time (λ t. t ≤ LATEST) }
        ensures due { at_rank self.new rank ≡ due_number rank time }
        ensures others { ChangesOnly rank self.old self.new }
    {
        let leaf = LEAVES + usize::from(rank);
        let number = number_of(rank, time);
        if self.numbers[leaf] == number {
            return;
        }
        self.numbers[leaf] = number;
        recompute(&mut self.numbers, leaf);
    }

    /// The time at which something is due first, and its rank: the least rank if several are due then.
    pub fn first(&self) -> Option<(u64, u16)>
        ensures none { IfNone result (AreNever self.now) }
        ensures first { IfSome result (λ due. IsFirstDue self.now due.0 due.1) }
        ensures rank { IfSome result (λ due. due.1 < RANKS) }
    {
        let number = self.numbers[1];
        if number == NEVER {
            return None;
        }
        Some((number / INSTANT, (number % INSTANT) as u16))
    }
}

/// The number that orders a rank in the tree, by its time; `never_due` without one.
fn number_of(rank: u16, time: Option<u64>) -> u64
    requires rank { rank < LEAVES }
    requires time { IfSome time (λ t. t ≤ LATEST) }
    ensures { result ≡ due_number rank time }
{
    match time {
        None => NEVER,
        Some(time) => time * INSTANT + u64::from(rank),
    }
}

/// Recomputes the nodes above a leaf that has changed: each gets the less of the two below it.
fn recompute(numbers: &mut [u64], leaf: usize)
    requires all { length numbers.old ≡ NODES }
    requires low { LEAVES ≤ leaf }
    requires high { leaf < NODES }
    requires others { HasOtherMinima (leaf / 2) numbers.old }
    ensures minima { HasMinima numbers.new }
    ensures leaves { (k : ℕ) → LEAVES ≤ k → slice_index numbers.new k ≡ slice_index numbers.old k }
{
    let mut node = leaf;
    'up: while node > 1 {
        node /= 2;
        numbers[node] = numbers[2 * node].min(numbers[2 * node + 1]);
    }
}
