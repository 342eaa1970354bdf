//! The tasks of a processor, as a choice saw them.
ghost use Rattle.std.specs.Prelude.{◌≡◌, ◌≤◌, length, map, IfOk};
ghost use Rattle.bq_why.specs.Rows.{row_of_task, row_by, measured_from};

use crate::choices::choose_task;
use bq_bounds::totals::totals;
use bq_disc::Entity;
use bq_disc::limits::TASKS;
use bq_weights::time_of;
use bq_words::DisciplineName;
use std::alloc::{AllocError, Global};

/// A task as a choice saw it.
#[derive(Clone, Copy)]
pub struct TaskRow {
    /// The task's id.
    pub task: u16,
    /// The task's weight.
    pub weight: u32,
    /// The task's virtual runtime, in virtual nanoseconds.
    pub v: u64,
    /// The task's virtual deadline, in virtual nanoseconds; 0 under CFS.
    pub deadline: u64,
    /// Whether the task's v is at most the mean of all, so that it has had no more than its share.
    pub is_eligible: bool,
    /// How much the task is owed if it is eligible, otherwise how much more than its share it has had, in nanoseconds of the
    /// processor.
    pub lag: u128,
}

/// Makes one row for each task, in the order of the tasks. `AllocError` if there is no memory for them.
pub fn make_rows(alloc: Global, tasks: &[Entity]) -> Result<Vec<TaskRow>, AllocError>
    requires { length tasks.now ≤ TASKS }
    ensures { IfOk result (λ rows. rows.items ≡ map (row_of_task tasks.now) tasks.now) }
{
    let totals = totals(tasks);
    let mean = match totals.mean() {
        Some(mean) => mean,
        None => 0,
    };
    let mut rows = Vec::new(alloc);
    for task in tasks {
        rows.push(row_among(task, totals.weight, totals.moment, mean))?;
    }
    Ok(rows)
}

/// Makes the row of a task. `weight` is the sum of all weights, `weighted_sum` the sum of weight times v, and `mean` the mean v.
fn row_among(task: &Entity, weight: u64, weighted_sum: u128, mean: u64) -> TaskRow
    ensures { result ≡ row_by weight weighted_sum mean task.now }
{
    let distance = task.v().abs_diff(mean);
    TaskRow {
        task: task.id(),
        weight: task.weight(),
        v: task.v(),
        deadline: task.deadline(),
        is_eligible: task.is_at_most_mean(weight, weighted_sum),
        lag: time_of(distance, task.weight()),
    }
}

/// Finds the virtual time that a discipline measures its tasks from: CFS from the least v, EEVDF from the mean v, rounded down. `None` if
/// there is no task.
pub fn measured_from(discipline: DisciplineName, tasks: &[Entity]) -> Option<u64>
    requires { length tasks.now ≤ TASKS }
    ensures { result ≡ measured_from discipline tasks.now }
{
    match discipline {
        DisciplineName::Cfs => match choose_task(DisciplineName::Cfs, tasks) {
            Some(least) => Some(least.v()),
            None => None,
        },
        DisciplineName::Eevdf => totals(tasks).mean(),
    }
}
