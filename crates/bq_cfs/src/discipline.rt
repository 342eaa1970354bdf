//! The CFS discipline.
ghost use Rattle.std.specs.Prelude.{◌≡◌, ◌≤◌, List, IfSome};
ghost use Rattle.std.specs.Option.{option_map};
ghost use Rattle.bq_disc.specs.Tasks.{Task, present};
ghost use Rattle.bq_disc.specs.Queues.{key_of};
ghost use Rattle.bq_disc.specs.Chains.{task_of};
ghost use Rattle.bq_cfs.specs.Cfs.{cfs, least};
ghost use Rattle.bq_cfs.specs.Lawful.{cfs_lawful};
ghost use Rattle.bq_weights.specs.declared.TheConstants.{GREATEST_V};

use bq_disc::{Discipline, Node, RuledQueue, TaskOrder};
use bq_tree::{NoSums, Tree};

/// The current task gives way to one that is more than this behind it, in virtual nanoseconds (sched-design-CFS.rst).
pub const GRANULARITY: u64 = 1_000_000;

/// A woken task enters at most this much behind the mark.
const BONUS: i64 = 3_000_000;

/// The completely fair scheduler (sched-design-CFS.rst): the task of least (v, id) runs.
///
/// The current task gives way to one that is more than 1,000,000 behind it. The mark is the least v present, and never
/// falls. A woken task enters as far from the mark as it left, but at most 3,000,000 behind it. Deadlines are 0.
#[derive(Clone, Copy)]
pub struct Cfs;

/// The run queue under CFS, on a balanced tree.
pub type CfsQueue = RuledQueue<Tree<NoSums>, Cfs>;

/// The least (v, id) of the queue and the current task; `queue` is the queue's least.
fn first(current: Option<&Node>, queue: Option<(u64, u16)>) -> Option<(u64, u16)>
    ensures key { (xs : List Task) → queue ≡ option_map key_of (least xs) → result ≡ option_map key_of (least (present (option_map (λ n. task_of n.now) current.entry) xs)) }
    ensures high { IfSome queue (λ key. key.0 ≤ GREATEST_V) → IfSome result (λ key. key.0 ≤ GREATEST_V) }
{
    let Some(node) = current else {
        return queue;
    };
    let own = node.entity.key();
    match queue {
        Some(least) if least.0 < own.0 || (least.0 == own.0 && least.1 < own.1) => queue,
        _ => Some(own),
    }
}

impl Discipline for Cfs {
    ghost discipline = { cfs };

    fn choice<T: TaskOrder>(current: Option<&Node>, queue: &T) -> Option<u16> {
        match first(current, queue.least()) {
            None => None,
            Some(least) => Some(least.1),
        }
    }

    fn wants_preempt<T: TaskOrder>(current: &Node, queue: &T) -> bool {
        match queue.least() {
            None => false,
            Some(least) => least.0 + GRANULARITY < current.entity.v(),
        }
    }

    fn mark<T: TaskOrder>(old: u64, current: Option<&Node>, queue: &T) -> u64 {
        match first(current, queue.least()) {
            None => old,
            Some(least) => old.max(least.0),
        }
    }

    fn wake(mark: u64, rel: i64, slice: u64, weight: u32) -> u64 {
        bq_weights::shift(mark, rel.max(-BONUS))
    }

    fn deadline(v: u64, slice: u64, weight: u32) -> u64 {
        0
    }

    fn renewed(v: u64, slice: u64, weight: u32, deadline: u64) -> u64 {
        deadline
    }

    ghost lawful = { cfs_lawful };
}
