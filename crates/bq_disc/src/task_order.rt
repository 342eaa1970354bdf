//! How tasks are held in the order of their virtual time.
ghost use Rattle.std.specs.Prelude.{◌≡◌, ◌≤◌, ◌<◌, ◌^◌, List, [], length, None, IfSome, find, filter, take};
ghost use Rattle.std.specs.Option.{option_map};
ghost use Rattle.bq_disc.specs.Tasks.{Task, inserted, without, find_task, first_by, runs_before};
ghost use Rattle.bq_disc.specs.Queues.{follows, key_of, HasDistinctIds, HasSmallIds};
ghost use Rattle.bq_disc.specs.Rising.{IsRising};
ghost use Rattle.bq_disc.specs.Movable.{movable_to, ids};
ghost use Rattle.bq_disc.specs.Totals.{sums_of, is_at_most_mean, HasBounds};
ghost use Rattle.bq_disc.specs.Dues.{first_due};
ghost use Rattle.bq_disc.specs.Chains.{task_of, IsLone};
ghost use Rattle.bq_weights.specs.declared.TheConstants.{GREATEST_V};
ghost use Rattle.bq_disc.specs.declared.movable.TheConstants.{MOST_NAMED};

use crate::limits::PROCESSORS;
use crate::{Deadline, Movable, Node, Totals};

/// Tasks with distinct ids, by rising (v, id). No call takes memory: nodes move.
///
/// `Chain` keeps this order plainly; a balanced tree answers as it does, but faster.
pub trait TaskOrder {
    /// The tasks in their order.
    ghost tasks: { Self → List Task };

    /// An order without tasks.
    fn empty() -> Self
        ensures { tasks result ≡ [] };

    /// How many tasks there are.
    fn len(&self) -> usize
        ensures { result ≡ length (tasks self.now) };

    /// Inserts a task where its (v, id) belongs. No task that is there has the same id.
    fn insert(&mut self, node: Box<Node>)
        requires lone { IsLone node.value }
        requires fresh { find_task (task_of node.value).id (tasks self.old) ≡ None }
        ensures { tasks self.new ≡ inserted (task_of node.value) (tasks self.old) };

    /// Takes out the task with this id, if it is there.
    fn take(&mut self, id: u16) -> Option<Box<Node>>
        ensures taken { option_map (λ b. task_of b.value) result ≡ find_task id (tasks self.old) }
        ensures lone { IfSome result (λ b. IsLone b.value) }
        ensures rest { tasks self.new ≡ without id (tasks self.old) }
        ensures gone { find_task id (tasks self.new) ≡ None };

    /// The task with this id, if it is there.
    fn get(&self, id: u16) -> Option<&Node>
        ensures task { option_map (λ n. task_of n.now) result ≡ find_task id (tasks self.now) }
        ensures small { HasSmallIds (tasks self.now) };

    /// The task of least (v, id) above `last`; the task of least (v, id) of all if there is no `last`.
    fn after(&self, last: Option<(u64, u16)>) -> Option<&Node>
        ensures task { option_map (λ n. task_of n.now) result ≡ find (follows last) (tasks self.now) }
        ensures rising { IsRising (tasks self.now) }
        ensures distinct { HasDistinctIds (tasks self.now) }
        ensures small { HasSmallIds (tasks self.now) };

    /// The tasks that may go to a processor, the greatest (v, id) first.
    fn movable(&self, processor: u8) -> Movable
        requires { processor < PROCESSORS }
        ensures count { result.count ≡ length (movable_to processor (tasks self.now)) }
        ensures first { result.first.items ≡ take MOST_NAMED (ids (movable_to processor (tasks self.now))) }
        ensures rising { IsRising (tasks self.now) };

    /// The least (v, id) of the tasks.
    fn least(&self) -> Option<(u64, u16)>
        ensures key { result ≡ option_map key_of (first_by runs_before (tasks self.now)) }
        ensures high { IfSome result (λ key. key.0 ≤ GREATEST_V) };

    /// The totals of the tasks.
    fn totals(&self) -> Totals
        ensures sums { result ≡ sums_of (tasks self.now) }
        ensures bounds { HasBounds result }
        ensures few { result.count ≤ 2 ^ 16 };

    /// The earliest virtual deadline of the tasks whose v is at most a mean: of those with `weight * v <= moment`.
    fn earliest_at_most_mean(&self, weight: u64, moment: u128) -> Option<Deadline>
        ensures { result ≡ first_due (filter (is_at_most_mean weight moment) (tasks self.now)) };
}
