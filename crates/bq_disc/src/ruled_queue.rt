//! Tasks in order, under a discipline, are a run queue.
ghost use Rattle.bq_disc.specs.Queues.{Queue};
ghost use Rattle.bq_weights.specs.declared.TheConstants.{GREATEST_V};

use crate::limits::FIRST_MARK;
use crate::{Chain, Discipline, Movable, Node, RunQueue, TaskOrder};
use std::marker::{Model, PhantomData};

/// Tasks in order, under a discipline, with their mark.
#[derive(Drop)]
pub struct RuledQueue<T: TaskOrder, R: Discipline> {
    tasks: T,
    mark: u64,
    discipline: PhantomData<R>,
}

/// The plain queue under any discipline: a list of boxes.
pub type List<R> = RuledQueue<Chain, R>;

impl<T: TaskOrder, R: Discipline> Model for RuledQueue<T, R> {
    ghost use Rattle.std.specs.Prelude.{◌≤◌};
    ghost use Rattle.bq_disc.specs.Queues.{Queue, coded_queue};
    ghost use Rattle.bq_weights.specs.declared.TheConstants.{GREATEST_V};

    ghost Value = { Queue };

    ghost coded = { coded_queue };

    ghost view = { λ q. record { members = T.tasks q.tasks; mark = q.mark } };

    ghost invariant = { λ q. q.mark ≤ GREATEST_V };
}

impl<T: TaskOrder, R: Discipline> RunQueue for RuledQueue<T, R> {
    type R = R;

    ghost members = { λ q. q.members };

    ghost last_mark = { λ q. q.mark };

    fn empty() -> RuledQueue<T, R> {
        RuledQueue {
            tasks: T::empty(),
            mark: FIRST_MARK,
            discipline: PhantomData,
        }
    }

    fn len(&self) -> usize {
        self.tasks.len()
    }

    fn insert(&mut self, node: Box<Node>) {
        self.tasks.insert(node);
    }

    fn take(&mut self, id: u16) -> Option<Box<Node>> {
        self.tasks.take(id)
    }

    fn get(&self, id: u16) -> Option<&Node> {
        self.tasks.get(id)
    }

    fn after(&self, last: Option<(u64, u16)>) -> Option<&Node> {
        self.tasks.after(last)
    }

    fn movable(&self, processor: u8) -> Movable {
        self.tasks.movable(processor)
    }

    fn own_pull(&self, processor: u8, puller_size: usize, source_size: usize) -> Option<u16> {
        R::pull(processor, puller_size, source_size, &self.tasks)
    }

    fn choice(&self, current: Option<&Node>) -> Option<u16> {
        R::choice(current, &self.tasks)
    }

    fn wants_preempt(&self, current: &Node) -> bool {
        R::wants_preempt(current, &self.tasks)
    }

    fn update_mark(&mut self, current: Option<&Node>) -> u64 {
        self.mark = R::mark(self.mark, current, &self.tasks);
        self.mark
    }

    fn mark(&self) -> u64 {
        self.mark
    }
}
