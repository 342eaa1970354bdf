//! The rivals of a chosen task: one that is due first but not eligible, and one that is tied with it.
ghost use Rattle.std.specs.Prelude.{◌≡◌, ◌≤◌, length, find};
ghost use Rattle.bq_disc.specs.Tasks.{first_by};
ghost use Rattle.bq_disc.specs.Dues.{due_before};
ghost use Rattle.bq_why.specs.Rivals.{passed_over, is_tied, tied_with};

use crate::choices::due_first;
use bq_bounds::totals::totals;
use bq_disc::Entity;
use bq_disc::limits::TASKS;
use bq_words::DisciplineName;

/// Finds the task that a choice under EEVDF passes over: the task that is due first of all, if this task is not eligible.
pub fn passed_over(tasks: &[Entity]) -> Option<Entity>
    requires { length tasks.now ≤ TASKS }
    ensures { result ≡ passed_over tasks.now }
{
    let totals = totals(tasks);
    match first_due(tasks) {
        Some(task) if !task.is_at_most_mean(totals.weight, totals.moment) => Some(task),
        _ => None,
    }
}

/// Finds the task that is due first, whether it is eligible or not.
fn first_due(tasks: &[Entity]) -> Option<Entity>
    ensures { result ≡ first_by due_before tasks.now }
{
    let mut best: Option<Entity> = None;
    let mut at = tasks.len();
    while at > 0 {
        at -= 1;
        best = Some(due_first(&tasks[at], best));
    }
    best
}

/// Finds another task that is as near to being chosen as `chosen`, so that the lower id wins. Under CFS this task has the same
/// virtual runtime; under EEVDF it is eligible and has the same deadline. Of several such tasks, the first in the order of `tasks`
/// is given.
pub fn tied_with(discipline: DisciplineName, chosen: &Entity, tasks: &[Entity]) -> Option<Entity>
    requires { length tasks.now ≤ TASKS }
    ensures { result ≡ tied_with discipline chosen.now tasks.now }
{
    let totals = totals(tasks);
    tasks.iter().copied().find(|task| is_tied(
        discipline,
        totals.weight,
        totals.moment,
        chosen,
        task,
    ))
}

/// Tells whether `task` is not `chosen`, but as near to being chosen. `weight` is the sum of all weights, and `weighted_sum` the sum of
/// weight times v.
fn is_tied(
    discipline: DisciplineName,
    weight: u64,
    weighted_sum: u128,
    chosen: &Entity,
    task: &Entity,
) -> bool
    ensures { result ≡ is_tied discipline weight weighted_sum chosen.now task.now }
{
    if task.id() == chosen.id() {
        return false;
    }
    match discipline {
        DisciplineName::Cfs => task.v() == chosen.v(),
        DisciplineName::Eevdf => {
            task.deadline() == chosen.deadline() && task.is_at_most_mean(weight, weighted_sum)
        }
    }
}
