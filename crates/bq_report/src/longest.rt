//! Which task ran longest between two moments, and what all runs leave of a time.
ghost use Rattle.std.specs.Prelude.{◌≡◌, ℕ, ◌-◌, ◌<◌, length, slice_index, vec_len, IfOk, IfSome, IfNone};
ghost use Rattle.bq_report.specs.Longest.{task_time_between, time_between, time_of_all, IsFirstGreatest, IsLongest};

use bq_disc::limits::TASKS;
use bq_schedule::Slice;
use std::alloc::{AllocError, Global};

/// A task, and how long it ran.
#[derive(Clone, Copy)]
pub struct TaskTime {
    pub task: u16,
    pub time: u128,
}

/// Returns the task that ran longest from one moment to another, among these runs. Of equal ones it is the task of least number.
/// `None` if no task ran.
pub fn longest_in(
    alloc: Global,
    runs: &[Slice],
    from: u64,
    to: u64,
) -> Result<Option<TaskTime>, AllocError>
    ensures longest { IfOk result (λ found. IfSome found (λ longest. IsLongest from to runs.now longest.task)) }
    ensures time { IfOk result (λ found. IfSome found (λ longest. longest.time ≡ task_time_between from to runs.now longest.task)) }
    ensures none { IfOk result (λ found. IfNone found ((task : ℕ) → task < TASKS → task_time_between from to runs.now task ≡ 0)) }
{
    let times = times_in(alloc, runs, from, to)?;
    match greatest(times.as_slice()) {
        Some(task) => {
            let time = times[usize::from(task)];
            Ok(Some(TaskTime { task, time }))
        }
        None => Ok(None),
    }
}

/// Returns a time less what these runs take from one moment to another, in nanoseconds. 0 if they take more.
pub(crate) fn time_left(time: u64, runs: &[Slice], from: u64, to: u64) -> u64
    ensures { result ≡ time - time_of_all from to runs.now }
{
    let mut left = time;
    for run in runs {
        left = left.saturating_sub(time_between(run, from, to));
    }
    left
}

/// Returns how long a run lasts from one moment to another, in nanoseconds.
pub(crate) fn time_between(run: &Slice, from: u64, to: u64) -> u64
    ensures { result ≡ time_between from to run.now }
{
    run.to.min(to).saturating_sub(run.from.max(from))
}

/// Returns how long each task ran from one moment to another, among these runs, in nanoseconds. A task's time is at the place of its
/// number.
fn times_in(alloc: Global, runs: &[Slice], from: u64, to: u64) -> Result<Vec<u128>, AllocError>
    ensures length { IfOk result (λ v. vec_len v ≡ TASKS) }
    ensures times { IfOk result (λ v. (task : ℕ) → task < TASKS → slice_index v.items task ≡ task_time_between from to runs.now task) }
{
    let mut times = vec![in alloc; 0u128; TASKS as usize]?;
    for run in runs {
        let time = time_between(run, from, to);
        let task = usize::from(run.task);
        if task < times.len() {
            let before = times[task];
            times[task] = before + u128::from(time);
        }
    }
    Ok(times)
}

/// Returns the place of the greatest time, the first of equal ones. `None` if all are 0.
fn greatest(times: &[u128]) -> Option<u16>
    requires { length times.now ≡ TASKS }
    ensures greatest { IfSome result (IsFirstGreatest TASKS (λ task. slice_index times.now task)) }
    ensures none { IfNone result ((task : ℕ) → task < TASKS → slice_index times.now task ≡ 0) }
{
    let mut greatest = None;
    let mut most = 0;
    for task in 0..TASKS {
        let time = times[usize::from(task)];
        if time > most {
            greatest = Some(task);
            most = time;
        }
    }
    greatest
}
