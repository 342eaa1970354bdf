//! Waits that still go on when a schedule ends.
ghost use Rattle.std.specs.Prelude.{◌≡◌};
ghost use Rattle.bq_schedule.specs.Running.{running_task};
ghost use Rattle.bq_schedule.specs.Slices.{is_this};
ghost use Rattle.bq_report.specs.Waits.{open_wait, still_waiting, waited_in_all, waits_until};

use bq_schedule::{ProcessorFigures, Schedule};

/// Returns how long a task has waited in all, in nanoseconds: the waits that are over, and the one that still goes on when the
/// schedule ends. It stops at its type's greatest number.
///
/// A task that was placed at 2 ms on a processor whose clock was last read at 2,000 ms, and that has never run, has waited for
/// 1,998 ms.
pub fn waited_in_all(schedule: &Schedule, task: u16) -> u64
    ensures { result ≡ waited_in_all schedule.now task }
{
    schedule
        .task(task)
        .waited
        .saturating_add(open_wait(schedule, task))
}

/// Returns how long a task has waited that has not run since its last wake, in nanoseconds. It counts from the end of that wake to the
/// last reading of the clock of the processor where the task is runnable; 0 if the two clocks disagree. `None` if the task has run
/// since its last wake, was never woken, or does not wait.
pub fn still_waiting(schedule: &Schedule, task: u16) -> Option<u64>
    ensures { result ≡ still_waiting schedule.now task }
{
    let last = waits_until(schedule, task)?;
    let woken = schedule.task(task).woken_at?;
    Some(last.saturating_sub(woken))
}

/// Returns how long the task's current wait has lasted, in nanoseconds; 0 if it does not wait.
fn open_wait(schedule: &Schedule, task: u16) -> u64
    ensures { result ≡ open_wait schedule.now task }
{
    match waits_until(schedule, task) {
        Some(last) => last.saturating_sub(schedule.task(task).waiting_since),
        None => 0,
    }
}

/// Returns the last reading of the clock of the processor where a task waits. `None` if it does not wait.
fn waits_until(schedule: &Schedule, task: u16) -> Option<u64>
    ensures { result ≡ waits_until schedule.now task }
{
    let number = schedule.task(task).processor?;
    let processor = schedule.processor(number);
    if runs(&processor, task) {
        None
    } else {
        Some(processor.last)
    }
}

/// Tells whether this task runs at a processor.
fn runs(processor: &ProcessorFigures, task: u16) -> bool
    ensures { result ≡ is_this task (running_task processor.now) }
{
    match processor.running {
        Some(start) => start.task == task,
        None => false,
    }
}
