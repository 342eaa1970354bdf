//! The flaws of a workload; one without a flaw can be followed.
ghost use Rattle.std.specs.Prelude.{◌≡◌, false, IfNone, IfSome, slice_get};
ghost use Rattle.std.specs.Result.{result_err};
ghost use Rattle.bq_disc.specs.Masks.{allows};
ghost use Rattle.bq_workload.specs.Lengths.{is_long};
ghost use Rattle.bq_workload.specs.Soundness.{IsFirstAllowed, allows_one, first_flaw, flaws_of_doing, flaws_of_kind, flaws_of_machine, has_name, has_numbers, is_action};

use crate::limits::{LONGEST, LONGEST_NAME};
use crate::{Action, Setup, TaskKind, Workload, take_time};
use bq_disc::limits::{GREATEST_SLICE, LEAST_SLICE, TASKS};
use bq_disc::mask::allows;
use bq_weights::is_nice;
use thiserror::Error;

/// Why a workload cannot be followed. Kinds of tasks and their actions are numbered from 0.
#[derive(Clone, Copy, Debug, Drop, Error)]
pub enum Unsound {
    #[error("machine: a time is not from 1 to {longest} ns", longest = LONGEST)]
    Machine,
    #[error("more than {tasks} tasks", tasks = TASKS)]
    Tasks,
    #[error("task {0}: its name has more than {bytes} bytes", bytes = LONGEST_NAME)]
    Name(usize),
    #[error("task {0}: a number is out of its range")]
    Kind(usize),
    #[error("task {0}: no processor that it may use")]
    Mask(usize),
    #[error("task {0}: what it does takes no time")]
    NoTime(usize),
    #[error("task {0}: do {1}: a length is out of its range, or no such task")]
    Action(usize, usize),
}

/// Checks that a workload can be followed to its end. The error is the first of its flaws: flaws of the machine come first, then
/// flaws of its kinds of tasks, each by its number. Too many tasks come last.
pub fn soundness(workload: &Workload) -> Result<(), Unsound>
    ensures { result_err result ≡ first_flaw workload.now }
{
    sound_machine(&workload.machine)?;
    let processors = workload.machine.size.processors();
    let kinds = workload.tasks.len();
    let mut tasks: u16 = 0;
    'kinds: for (number, kind) in workload.tasks.iter().enumerate() {
        sound_kind(number, kind, processors, kinds)?;
        tasks = tasks.saturating_add(kind.count);
    }
    if tasks > TASKS {
        return Err(Unsound::Tasks);
    }
    Ok(())
}

/// Checks that the times of a machine can be counted.
fn sound_machine(machine: &Setup) -> Result<(), Unsound>
    ensures { result_err result ≡ slice_get (flaws_of_machine machine.now) 0 }
{
    let is_sound = is_time(machine.duration)
        && is_time(machine.tick)
        && is_time(machine.balance)
        && machine.migration_cost <= LONGEST;
    if !is_sound {
        return Err(Unsound::Machine);
    }
    Ok(())
}

/// Whether a time is from 1 to the longest.
fn is_time(time: u64) -> bool
    ensures { result ≡ is_long time }
{
    1 <= time && time <= LONGEST
}

/// Checks that tasks of a kind can be followed, as one of this many kinds: first its name, then its numbers, its mask, and what it does.
fn sound_kind(number: usize, kind: &TaskKind, processors: u8, kinds: usize) -> Result<(), Unsound>
    ensures { result_err result ≡ slice_get (flaws_of_kind processors kinds number kind.now) 0 }
{
    if !has_name(kind) {
        return Err(Unsound::Name(number));
    }
    if !has_numbers(kind) {
        return Err(Unsound::Kind(number));
    }
    if first_of_mask(kind.mask, processors).is_none() {
        return Err(Unsound::Mask(number));
    }
    sound_actions(number, &kind.actions, kinds)
}

/// Whether the name of a kind has at most `LONGEST_NAME` bytes.
fn has_name(kind: &TaskKind) -> bool
    ensures { result ≡ has_name kind.now }
{
    kind.name.len() <= LONGEST_NAME
}

/// Whether the numbers of a kind are in their ranges.
fn has_numbers(kind: &TaskKind) -> bool
    ensures { result ≡ has_numbers kind.now }
{
    kind.count >= 1
        && is_nice(i64::from(kind.nice))
        && kind.slice >= LEAST_SLICE
        && kind.slice <= GREATEST_SLICE
        && kind.start <= LONGEST
        && kind.loops != Some(0)
}

/// Checks that each action of a kind can be done, in order, and that one of them takes time.
fn sound_actions(number: usize, actions: &[Action], kinds: usize) -> Result<(), Unsound>
    ensures { result_err result ≡ slice_get (flaws_of_doing kinds number actions.now) 0 }
{
    'actions: for (place, action) in actions.iter().enumerate() {
        if !is_action(action, kinds) {
            return Err(Unsound::Action(number, place));
        }
    }
    if !take_time(actions) {
        return Err(Unsound::NoTime(number));
    }
    Ok(())
}

/// Whether the length of an action is in range, or the action wakes one of this many kinds.
fn is_action(action: &Action, kinds: usize) -> bool
    ensures { result ≡ is_action kinds action.now }
{
    match action {
        Action::Run(length) | Action::Sleep(length) => length.is_sound(),
        Action::Wait => true,
        Action::Wake(kind) => *kind < kinds,
    }
}

/// The least processor of a mask, below this many.
pub fn first_of_mask(mask: u64, processors: u8) -> Option<u8>
    ensures some { IfSome result (IsFirstAllowed processors mask) }
    ensures none { IfNone result (allows_one processors mask ≡ false) }
{
    'processors: for processor in 0..processors {
        if allows(mask, processor) {
            return Some(processor);
        }
    }
    None
}
