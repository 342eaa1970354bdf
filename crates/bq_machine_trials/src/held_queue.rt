//! A run queue under CFS whose calls may be held at a gate.
ghost use Rattle.std.specs.Prelude.{◌≡◌, []};

use crate::gate::{Gate, Point};
use bq_cfs::CfsQueue;
use bq_disc::limits::FIRST_MARK;
use bq_disc::{Movable, Node, RunQueue};
use std::alloc::Global;
use std::sync::Arc;

/// A run queue under CFS. A thread that calls it may be held at a gate.
#[derive(Drop)]
pub struct HeldQueue {
    pub queue: CfsQueue,
    gate: Option<Arc<Gate, Global>>,
}

impl HeldQueue {
    /// A queue without tasks, whose calls come to the gate, if there is one.
    pub fn at(gate: Option<Arc<Gate, Global>>) -> HeldQueue
        ensures { (result.queue.members ≡ []) × (result.queue.mark ≡ FIRST_MARK) }
    {
        HeldQueue {
            queue: CfsQueue::empty(),
            gate,
        }
    }

    /// A thread comes to this point of its call.
    fn come(&self, point: Point) {
        if let Some(gate) = &self.gate {
            gate.pass(point);
        }
    }
}

impl RunQueue for HeldQueue {
    type R = bq_cfs::Cfs;

    ghost members = { λ q. q.queue.members };

    ghost last_mark = { λ q. q.queue.mark };

    fn empty() -> HeldQueue {
        HeldQueue {
            queue: CfsQueue::empty(),
            gate: None,
        }
    }

    fn len(&self) -> usize {
        self.queue.len()
    }

    fn insert(&mut self, node: Box<Node>) {
        self.queue.insert(node);
    }

    fn take(&mut self, id: u16) -> Option<Box<Node>> {
        self.come(Point::Take);
        self.queue.take(id)
    }

    fn get(&self, id: u16) -> Option<&Node> {
        self.queue.get(id)
    }

    fn after(&self, last: Option<(u64, u16)>) -> Option<&Node> {
        self.queue.after(last)
    }

    fn movable(&self, processor: u8) -> Movable {
        self.queue.movable(processor)
    }

    fn own_pull(&self, processor: u8, puller_size: usize, source_size: usize) -> Option<u16> {
        self.queue.own_pull(processor, puller_size, source_size)
    }

    fn choice(&self, current: Option<&Node>) -> Option<u16> {
        self.come(Point::Choice);
        self.queue.choice(current)
    }

    fn wants_preempt(&self, current: &Node) -> bool {
        self.come(Point::Preempt);
        self.queue.wants_preempt(current)
    }

    fn update_mark(&mut self, current: Option<&Node>) -> u64 {
        self.come(Point::Mark);
        self.queue.update_mark(current)
    }

    fn mark(&self) -> u64 {
        self.queue.mark()
    }
}
