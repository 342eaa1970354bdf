//! How many steps a simulation takes at most.
ghost use Rattle.std.specs.Prelude.{◌≡◌, ◌^◌, ◌-◌, min};
ghost use Rattle.bq_workload.specs.Bounds.{most_steps, steps_for, steps_of};

use crate::{Action, Workload};

/// How many steps a simulation takes at most, or 2^64 - 1 if 64 bits do not count them. At one instant each task does
/// each of its actions at most once, since one of them takes time. A wake takes a step for each task of the kind that it wakes,
/// and the end of a task takes one. Each timer comes due at most once. Each processor ticks at most once; it looks for a task
/// once, and again each time it falls idle. There is one instant for each nanosecond, and one more.
pub fn most_steps(workload: &Workload) -> u64
    ensures { result ≡ most_steps workload.now }
{
    let mut units: u64 = 0;
    let mut tasks: u64 = 0;
    'kinds: for kind in &workload.tasks {
        let count = u64::from(kind.count);
        tasks = tasks.saturating_add(count);
        units = units.saturating_add(count.saturating_mul(units_of(workload, &kind.actions)));
    }
    let processors = u64::from(workload.machine.size.processors());
    let at_once = units
        .saturating_mul(2)
        .saturating_add(tasks)
        .saturating_add(processors.saturating_mul(2));
    workload
        .machine
        .duration
        .saturating_add(1)
        .saturating_mul(at_once)
}

/// How many steps one task takes at most for all of its actions and for its end.
fn units_of(workload: &Workload, actions: &[Action]) -> u64
    ensures { result ≡ min (steps_of workload.now.tasks.items actions.now) (2 ^ 64 - 1) }
{
    let mut units: u64 = 1;
    'actions: for action in actions {
        units = units.saturating_add(units_for(workload, action));
    }
    units
}

/// How many steps an action takes at most: a wake takes one for each task of the kind that it wakes.
fn units_for(workload: &Workload, action: &Action) -> u64
    ensures { result ≡ steps_for workload.now.tasks.items action.now }
{
    match action {
        Action::Wake(kind) => match workload.tasks.get(*kind) {
            Some(kind) => u64::from(kind.count),
            None => 0,
        },
        _ => 1,
    }
}
