//! The EEVDF discipline.
ghost use Rattle.std.specs.Prelude.{◌≡◌, ◌≤◌, ◌^◌, List, Option};
ghost use Rattle.std.specs.Option.{option_map};
ghost use Rattle.bq_disc.specs.Tasks.{Task, present};
ghost use Rattle.bq_disc.specs.Chains.{task_of};
ghost use Rattle.bq_disc.specs.Totals.{sums_of, HasBounds};
ghost use Rattle.bq_disc.specs.Dues.{first_due};
ghost use Rattle.bq_eevdf.specs.Eevdf.{eevdf, eligible, is_other};
ghost use Rattle.bq_eevdf.specs.Lawful.{eevdf_lawful};

use bq_disc::{Deadline, Discipline, Node, RuledQueue, TaskOrder, Totals};
use bq_tree::{Sums, Tree};

/// Earliest eligible virtual deadline first (sched-eevdf.rst; Stoica and Abdel-Wahab 1995, section 3).
///
/// With the weights w_i and virtual runtimes v_i of the tasks considered, their mean is V = sum(w_i v_i) / sum(w_i). The lag
/// of a task is w_i (V - v_i): the time that it is owed. A task is eligible if its lag is at least 0. That is v_i <= V, or
/// without a division sum(w_j) v_i <= sum(w_j v_j), so nothing is rounded. Of the eligible tasks, the one of least
/// (deadline, id) runs. The mark is V rounded down; with no task it stays as it was. A woken task enters as far from the mark
/// as it left it (`rel`, a distance in v), but no further than one slice's virtual time. A task's deadline is one slice's
/// virtual time after its v when it enters. It is set so again whenever v has reached it.
#[derive(Clone, Copy)]
pub struct Eevdf;

/// The run queue under EEVDF, on a balanced tree.
pub type EevdfQueue = RuledQueue<Tree<Sums>, Eevdf>;

/// The totals of the queue's tasks and the current task; `queue` has the totals of the queue's.
fn considered(current: Option<&Node>, mut queue: Totals) -> Totals
    requires few { queue.count ≤ 2 ^ 16 }
    requires bounds { HasBounds queue }
    ensures sums { (xs : List Task) → queue ≡ sums_of xs → result ≡ sums_of (present (option_map (λ n. task_of n.now) current.entry) xs) }
    ensures bounds { HasBounds result }
{
    if let Some(node) = current {
        queue.add(&node.entity);
    }
    queue
}

/// The earliest deadline of the eligible tasks, of the queue's and the current task.
fn earliest<T: TaskOrder>(current: Option<&Node>, queue: &T) -> Option<Deadline>
    ensures { result ≡ first_due (eligible (present (option_map (λ n. task_of n.now) current.entry) (T.tasks queue.now))) }
{
    let all = considered(current, queue.totals());
    let queued = queue.earliest_at_most_mean(all.weight, all.moment);
    let Some(node) = current else {
        return queued;
    };
    if !node.entity.is_at_most_mean(all.weight, all.moment) {
        return queued;
    }
    Some(node.entity.due().earliest(queued))
}

/// Whether a task was chosen and it is not the current one.
fn is_other(chosen: Option<u16>, current: &Node) -> bool
    ensures { (o : Option Task) → chosen ≡ option_map (λ (t : Task). t.id) o → result ≡ is_other o (task_of current.now) }
{
    match chosen {
        None => false,
        Some(id) => id != current.entity.id(),
    }
}

impl Discipline for Eevdf {
    ghost discipline = { eevdf };

    fn choice<T: TaskOrder>(current: Option<&Node>, queue: &T) -> Option<u16> {
        match earliest(current, queue) {
            None => None,
            Some(due) => Some(due.id),
        }
    }

    fn wants_preempt<T: TaskOrder>(current: &Node, queue: &T) -> bool {
        is_other(Self::choice(Some(current), queue), current)
    }

    fn mark<T: TaskOrder>(old: u64, current: Option<&Node>, queue: &T) -> u64 {
        match considered(current, queue.totals()).mean() {
            None => old,
            Some(mean) => mean,
        }
    }

    fn wake(mark: u64, rel: i64, slice: u64, weight: u32) -> u64 {
        bq_weights::shift_within(mark, rel, bq_weights::vdelta(slice, weight))
    }

    fn deadline(v: u64, slice: u64, weight: u32) -> u64 {
        bq_weights::advance(v, slice, weight)
    }

    fn renewed(v: u64, slice: u64, weight: u32, deadline: u64) -> u64 {
        if deadline <= v {
            bq_weights::advance(v, slice, weight)
        } else {
            deadline
        }
    }

    ghost lawful = { eevdf_lawful };
}
