//! Which of some tasks a discipline chooses.
ghost use Rattle.std.specs.Prelude.{◌≡◌, ◌≤◌, length, filter};
ghost use Rattle.bq_disc.specs.Tasks.{first_by, former, runs_before};
ghost use Rattle.bq_disc.specs.Dues.{due_before};
ghost use Rattle.bq_disc.specs.Totals.{is_at_most_mean};
ghost use Rattle.bq_trace.specs.Machines.{discipline_of};

use bq_bounds::totals::totals;
use bq_disc::Entity;
use bq_disc::limits::TASKS;
use bq_words::DisciplineName;

/// Finds the task that a discipline chooses: CFS the one of least (v, id), EEVDF the eligible one of least (deadline, id). `None` if
/// there is no such task.
pub fn choose_task(discipline: DisciplineName, tasks: &[Entity]) -> Option<Entity>
    requires { length tasks.now ≤ TASKS }
    ensures { result ≡ (discipline_of discipline).choice tasks.now }
{
    match discipline {
        DisciplineName::Cfs => least(tasks),
        DisciplineName::Eevdf => {
            let totals = totals(tasks);
            earliest(tasks, totals.weight, totals.moment)
        }
    }
}

/// Finds the task of least (v, id).
fn least(tasks: &[Entity]) -> Option<Entity>
    ensures { result ≡ first_by runs_before tasks.now }
{
    let mut best: Option<Entity> = None;
    let mut at = tasks.len();
    while at > 0 {
        at -= 1;
        best = Some(run_first(&tasks[at], best));
    }
    best
}

/// Returns the task, or the other one if that runs before it.
fn run_first(task: &Entity, other: Option<Entity>) -> Entity
    ensures { result ≡ former runs_before task.now other }
{
    match other {
        Some(other) if other.runs_before(task) => other,
        _ => *task,
    }
}

/// Finds the task of least (deadline, id) among those whose v is at most the mean. `weight` is the sum of all weights, and
/// `weighted_sum` the sum of weight times v.
fn earliest(tasks: &[Entity], weight: u64, weighted_sum: u128) -> Option<Entity>
    ensures { result ≡ first_by due_before (filter (is_at_most_mean weight weighted_sum) tasks.now) }
{
    let mut best: Option<Entity> = None;
    let mut at = tasks.len();
    while at > 0 {
        at -= 1;
        if tasks[at].is_at_most_mean(weight, weighted_sum) {
            best = Some(due_first(&tasks[at], best));
        }
    }
    best
}

/// Returns the task, or the other one if that is due before it.
pub(crate) fn due_first(task: &Entity, other: Option<Entity>) -> Entity
    ensures { result ≡ former due_before task.now other }
{
    match other {
        Some(other) if other.due().is_before(&task.due()) => other,
        _ => *task,
    }
}
