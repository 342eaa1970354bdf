//! The tasks of a queue that may go to another processor.
ghost use Rattle.std.specs.Prelude.{◌≡◌, ◌<◌, ◌≤◌, ◌^◌, ◌+◌, [], ◌∷◌, length};
ghost use Rattle.bq_disc.specs.Queues.{can_use};
ghost use Rattle.bq_disc.specs.Movable.{AddsMovable};

use crate::Entity;
use crate::limits::PROCESSORS;
use arrayvec::ArrayVec;

/// The most tasks of which the ids are kept.
pub const MOST_NAMED: usize = 8;

/// How many tasks may go, and the ids of the first eight of them, the greatest (v, id) first.
#[derive(Drop)]
pub struct Movable {
    pub count: u32,
    pub first: ArrayVec<u16, MOST_NAMED>,
}

impl Movable {
    /// What is found before any task is looked at: nothing.
    pub fn new() -> Movable
        ensures count { result.count ≡ 0 }
        ensures first { result.first.items ≡ [] }
    {
        Movable {
            count: 0,
            first: ArrayVec::new(),
        }
    }

    /// Looks at one more task, and adds it if it may use the processor.
    pub fn add(&mut self, entity: &Entity, processor: u8)
        requires processor { processor < PROCESSORS }
        requires few { self.old.count < 2 ^ 20 }
        requires fits { length self.old.first.items ≤ MOST_NAMED }
        ensures { AddsMovable processor (entity.now ∷ []) self.old self.new }
    {
        if !entity.can_use(processor) {
            return;
        }
        self.count += 1;
        if self.first.is_full() {
            return;
        }
        self.first.push(entity.id());
    }
}
