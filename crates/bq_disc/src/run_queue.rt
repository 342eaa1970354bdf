//! What the core asks of a run queue.
ghost use Rattle.std.specs.Prelude.{◌≡◌, ◌≤◌, ◌<◌, ℕ, List, [], length, Option, Some, None, IfSome, find, take};
ghost use Rattle.std.specs.Option.{option_map};
ghost use Rattle.bq_disc.specs.Tasks.{Task, present, id_of, inserted, without, find_task};
ghost use Rattle.bq_disc.specs.Queues.{follows, HasDistinctIds, HasSmallIds};
ghost use Rattle.bq_disc.specs.Rising.{IsRising};
ghost use Rattle.bq_disc.specs.Movable.{movable_to, is_movable_to, ids};
ghost use Rattle.bq_disc.specs.Discipline.{Discipline, charged, entered_by, left_at, next_other};
ghost use Rattle.bq_disc.specs.Chains.{task_of, IsLone};
ghost use Rattle.bq_disc.specs.Pulls.{pull_of};
ghost use Rattle.bq_weights.specs.declared.TheConstants.{GREATEST_V};
ghost use Rattle.bq_disc.specs.declared.movable.TheConstants.{MOST_NAMED};
ghost use Rattle.bq_disc.specs.declared.clock.TheConstants.{LATEST};

use crate::limits::{FIRST_MARK, PROCESSORS};
use crate::{Discipline, Movable, Node};

/// How a task comes into a queue.
#[derive(Clone, Copy)]
pub enum Entry {
    /// It slept, and was woken.
    Wake,
    /// It was taken from another processor's queue.
    Pull,
}

/// A set of tasks with distinct ids, under a discipline. No call takes memory: nodes move.
///
/// # Example
///
/// ```
/// let mut queue = CfsQueue::empty();
/// queue.insert(Box::new(alloc, Node::new(7, 1024, 1, 3_000_000))?);
/// let Some(7) = queue.choice(None) else {
///     return Err(Fail::from("another task was chosen"));
/// };
/// ```
pub trait RunQueue {
    type R: Discipline;

    /// The tasks, by rising (v, id).
    ghost members: { Self → List Task };

    /// The mark as it was last computed.
    ghost last_mark: { Self → ℕ };

    /// A queue without tasks, its mark the first.
    fn empty() -> Self
        ensures members { members result ≡ [] }
        ensures mark { last_mark result ≡ FIRST_MARK };

    /// How many tasks are in the queue.
    fn len(&self) -> usize
        ensures { result ≡ length (members self.now) };

    /// Inserts a task as it is. The queue must have no task with its id.
    fn insert(&mut self, node: Box<Node>)
        requires lone { IsLone node.value }
        requires fresh { find_task (task_of node.value).id (members self.old) ≡ None }
        ensures members { members self.new ≡ inserted (task_of node.value) (members self.old) }
        ensures mark { last_mark self.new ≡ last_mark self.old };

    /// Removes the task with this id, if it is there.
    fn take(&mut self, id: u16) -> Option<Box<Node>>
        ensures taken { option_map (λ b. task_of b.value) result ≡ find_task id (members self.old) }
        ensures lone { IfSome result (λ b. IsLone b.value) }
        ensures rest { members self.new ≡ without id (members self.old) }
        ensures gone { find_task id (members self.new) ≡ None }
        ensures mark { last_mark self.new ≡ last_mark self.old };

    /// The task with this id, if it is there.
    fn get(&self, id: u16) -> Option<&Node>
        ensures task { option_map (λ n. task_of n.now) result ≡ find_task id (members self.now) }
        ensures small { HasSmallIds (members self.now) };

    /// The task of least (v, id) above `last`; the task of least (v, id) of all if there is no `last`.
    fn after(&self, last: Option<(u64, u16)>) -> Option<&Node>
        ensures task { option_map (λ n. task_of n.now) result ≡ find (follows last) (members self.now) }
        ensures rising { IsRising (members self.now) }
        ensures distinct { HasDistinctIds (members self.now) }
        ensures small { HasSmallIds (members self.now) };

    /// The tasks that may move to a processor, the greatest (v, id) first.
    fn movable(&self, processor: u8) -> Movable
        requires { processor < PROCESSORS }
        ensures count { result.count ≡ length (movable_to processor (members self.now)) }
        ensures first { result.first.items ≡ take MOST_NAMED (ids (movable_to processor (members self.now))) }
        ensures rising { IsRising (members self.now) };

    /// Whether the task with this id is there and may go to a processor.
    fn is_movable(&self, id: u16, processor: u8) -> bool
        requires { processor < PROCESSORS }
        ensures value { result ≡ is_movable_to processor id (members self.now) }
        ensures small { HasSmallIds (members self.now) }
    {
        match self.get(id) {
            None => false,
            Some(node) => node.entity.can_use(processor),
        }
    }

    /// The task that an emptier processor takes from this queue if no policy chooses. `puller_size` tasks run or wait at
    /// the puller, `source_size` at this queue's processor.
    fn own_pull(&self, processor: u8, puller_size: usize, source_size: usize) -> Option<u16>
        requires processor { processor < PROCESSORS }
        ensures { result ≡ id_of (pull_of processor puller_size source_size (members self.now)) };

    /// The task that should run, of the queue and the current task.
    fn choice(&self, current: Option<&Node>) -> Option<u16>
        ensures { result ≡ id_of (Self.R.discipline.choice (present (option_map (λ n. task_of n.now) current.entry) (members self.now))) };

    /// Whether a task of the queue should take the place of the current one.
    fn wants_preempt(&self, current: &Node) -> bool
        ensures { result ≡ Self.R.discipline.wants_preempt (task_of current.now) (members self.now) };

    /// The task that the current one gives way to; None if the current task runs on.
    fn next(&self, current: &Node) -> Option<u16>
        ensures { result ≡ next_other Self.R.discipline (task_of current.now) (members self.now) }
    {
        let id = current.entity.id();
        match self.choice(Some(current)) {
            Some(chosen) if chosen != id => Some(chosen),
            _ => self.choice(None).filter(|chosen| *chosen != id),
        }
    }

    /// Computes the mark again.
    fn update_mark(&mut self, current: Option<&Node>) -> u64
        ensures value { result ≡ Self.R.discipline.mark (last_mark self.old) (present (option_map (λ n. task_of n.now) current.entry) (members self.old)) }
        ensures mark { last_mark self.new ≡ result }
        ensures members { members self.new ≡ members self.old };

    /// The mark as it was last computed.
    fn mark(&self) -> u64
        ensures value { result ≡ last_mark self.now }
        ensures high { result ≤ GREATEST_V };

    /// Charges a task for the time that it ran, in nanoseconds.
    fn charge(&self, node: &mut Node, time: u64)
        requires { time ≤ LATEST }
        ensures task { task_of node.new ≡ charged Self.R.discipline (task_of node.old) time }
        ensures lone { IsLone node.old → IsLone node.new }
    {
        let entity = &mut node.entity;
        let v = bq_weights::advance(entity.v(), time, entity.weight());
        let deadline = Self::R::renewed(v, entity.slice(), entity.weight(), entity.deadline());
        entity.set_times(v, deadline);
    }

    /// Gives a task its v and deadline as it enters, by the mark.
    fn enter(&self, node: &mut Node, entry: Entry)
        ensures task { task_of node.new ≡ entered_by Self.R.discipline (last_mark self.now) entry (task_of node.old) }
        ensures lone { IsLone node.old → IsLone node.new }
    {
        let entity = &mut node.entity;
        let v = match entry {
            Entry::Wake => Self::R::wake(
                self.mark(),
                entity.rel(),
                entity.slice(),
                entity.weight(),
            ),
            Entry::Pull => bq_weights::shift(self.mark(), entity.rel()),
        };
        let deadline = Self::R::deadline(v, entity.slice(), entity.weight());
        entity.set_times(v, deadline);
    }

    /// Records the distance of a task that leaves from the mark.
    fn leave(&self, node: &mut Node)
        ensures task { task_of node.new ≡ left_at (last_mark self.now) (task_of node.old) }
        ensures lone { IsLone node.old → IsLone node.new }
    {
        let entity = &mut node.entity;
        entity.set_rel(bq_weights::distance(entity.v(), self.mark()));
    }
}
