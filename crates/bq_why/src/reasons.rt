//! Why the running task runs.
ghost use Rattle.std.specs.Prelude.{◌≡◌, ◌≤◌, length};
ghost use Rattle.bq_disc.specs.Tasks.{find_task};
ghost use Rattle.bq_why.specs.Reasons.{reason_of, cfs_reason_of, least_reason_of, eevdf_reason_of};

use crate::choices::choose_task;
use bq_cfs::GRANULARITY;
use bq_disc::Entity;
use bq_disc::limits::TASKS;
use bq_hooks::By;
use bq_words::DisciplineName;

/// Why the running task runs.
#[derive(Clone, Copy)]
pub enum Reason {
    /// Nothing runs: no task is there.
    Nobody,
    /// The policy chose the task, and its answer is permitted.
    Policy,
    /// The task is due first of the eligible ones.
    EarliestDeadline,
    /// The task has the least virtual runtime.
    LeastRuntime,
    /// The task has the least virtual runtime. The task that ran before gives way, because it was so far ahead.
    GivesWay { ahead: u64 },
    /// The task runs on: it is ahead of task `of`, but not far enough to give way.
    Stays { ahead: u64, of: u16 },
    /// The task is not the discipline's choice.
    Other,
}

/// Finds why `run` runs, among the tasks that are there. `by` made the choice, and `was` ran before.
pub fn choice_reason(
    discipline: DisciplineName,
    by: By,
    was: Option<u16>,
    run: Option<u16>,
    tasks: &[Entity],
) -> Reason
    requires { length tasks.now ≤ TASKS }
    ensures { result ≡ reason_of discipline by was run tasks.now }
{
    let Some(run) = run else {
        return Reason::Nobody;
    };
    if let By::Policy = by {
        return Reason::Policy;
    }
    let chosen = choose_task(discipline, tasks);
    match discipline {
        DisciplineName::Eevdf => eevdf_reason(run, chosen),
        DisciplineName::Cfs => {
            let ran = match was {
                Some(id) => find_task(tasks, id),
                None => None,
            };
            cfs_reason(ran, chosen, find_task(tasks, run))
        }
    }
}

/// Finds the reason under EEVDF, by whether `run` is the choice.
fn eevdf_reason(run: u16, chosen: Option<Entity>) -> Reason
    ensures { result ≡ eevdf_reason_of run chosen }
{
    match chosen {
        Some(task) if task.id() == run => Reason::EarliestDeadline,
        _ => Reason::Other,
    }
}

/// Finds the reason under CFS, by the task that ran before, the task of least virtual runtime, and the running task.
fn cfs_reason(ran: Option<Entity>, least: Option<Entity>, runs: Option<Entity>) -> Reason
    ensures { result ≡ cfs_reason_of ran least runs }
{
    match (least, runs) {
        (Some(least), Some(runs)) => {
            if runs.id() == least.id() {
                least_reason(ran, &least)
            } else {
                Reason::Stays {
                    ahead: runs.v().saturating_sub(least.v()),
                    of: least.id(),
                }
            }
        }
        _ => Reason::Other,
    }
}

/// Finds the reason under CFS if the task of least virtual runtime runs.
fn least_reason(ran: Option<Entity>, least: &Entity) -> Reason
    ensures { result ≡ least_reason_of ran least.now }
{
    match ran {
        Some(ran) if least.v() + GRANULARITY < ran.v() => Reason::GivesWay {
            ahead: ran.v().saturating_sub(least.v()),
        },
        _ => Reason::LeastRuntime,
    }
}

/// Finds the task with this id, if it is there.
pub(crate) fn find_task(tasks: &[Entity], id: u16) -> Option<Entity>
    ensures { result ≡ find_task id tasks.now }
{
    tasks.iter().copied().find(|task| task.id() == id)
}
