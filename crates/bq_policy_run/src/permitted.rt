//! Decides whether the rule permits an answer, by what the context shows.
ghost use Rattle.std.specs.Prelude.{◌≡◌, ◌≤◌, ◌+◌, length, slice_range};
ghost use Rattle.byteorder.specs.Endian.{little_number};
ghost use Rattle.bq_policy_run.specs.Permitting.{hides_tasks, context_number, place_permits, place_permission, preempt_permission, pull_permission, shows_task, permission_of};
ghost use Rattle.bq_hooks.specs.Hooks.{context_length_of};
ghost use Rattle.bq_hooks.specs.declared.hook.Version.{Version as VersionValue};
ghost use Rattle.bq_hooks.specs.declared.pull.TheConstants.{PULL_LENGTH};
ghost use Rattle.bq_policy_run.specs.declared.permitted.TheConstants.{PLACE_SHOWN};

use bq_disc::limits::PROCESSORS;
use bq_disc::mask::allows;
use bq_hooks::place::{MASK_AT, PROCESSORS_AT};
use bq_hooks::pull::{MOVABLE_AT, SHOWN_AT, TASK_LENGTH, TASKS_AT};
use bq_hooks::{Hook, PULL_LENGTH};
use byteorder::{ByteOrder, LittleEndian};

/// The answer of a pull policy that takes no task.
pub(crate) const NOBODY: u64 = bq_hooks::NOBODY as u64;

/// The number of movable tasks for which a pull context has room.
const SHOWN: u32 = bq_hooks::SHOWN as u32;

/// The number of bytes of a place context that say where the task may go: up to the number of processors.
pub const PLACE_SHOWN: usize = PROCESSORS_AT + 4;

/// What the rule says of an answer.
#[derive(Clone, Copy)]
pub enum Permission {
    Permitted,
    NotPermitted,
    /// A task that the context does not show: it may be movable, or not.
    NotShown,
}

/// Returns what the rule says of the answer to this context, which has the length of the hook's contexts.
pub fn permission_of(hook: Hook, context: &[u8], r0: u64) -> Permission
    ensures { (version : VersionValue) → length context.now ≡ context_length_of hook version → result ≡ permission_of hook context.now r0 }
{
    match hook {
        Hook::Place => place_permission(context, r0),
        Hook::Preempt => preempt_permission(r0),
        Hook::Pull => pull_permission(context, r0),
    }
}

/// Judges an answer to `place`; nothing is permitted for a context that is too short to show the machine.
fn place_permission(context: &[u8], r0: u64) -> Permission
    ensures { PLACE_SHOWN ≤ length context.now → result ≡ place_permission context.now r0 }
{
    if context.len() >= PLACE_SHOWN && place_permits(context, r0) {
        Permission::Permitted
    } else {
        Permission::NotPermitted
    }
}

/// Returns whether the answer is a processor of the machine, in the task's mask.
fn place_permits(context: &[u8], r0: u64) -> bool
    requires { PLACE_SHOWN ≤ length context.now }
    ensures { result ≡ place_permits context.now r0 }
{
    let (count, mask) = place_shown(context);
    r0 < u64::from(count) && r0 < u64::from(PROCESSORS) && allows(mask, r0 as u8)
}

/// Returns how many processors a place context shows, and the task's mask.
pub fn place_shown(context: &[u8]) -> (u32, u64)
    requires { PLACE_SHOWN ≤ length context.now }
    ensures count { result.0 ≡ context_number context.now 32 }
    ensures mask { result.1 ≡ little_number 8 (slice_range context.now 8 16) }
{
    let mask = &context[MASK_AT..MASK_AT + 8];
    (
        number_at(context, PROCESSORS_AT),
        LittleEndian::read_u64(mask),
    )
}

/// Judges an answer to `preempt`: 0 and 1 are permitted.
fn preempt_permission(r0: u64) -> Permission
    ensures { result ≡ preempt_permission r0 }
{
    if r0 < 2 {
        Permission::Permitted
    } else {
        Permission::NotPermitted
    }
}

/// Judges an answer to `pull`: nobody and each task that the context shows are permitted; another task may be hidden.
fn pull_permission(context: &[u8], r0: u64) -> Permission
    ensures { PULL_LENGTH ≤ length context.now → result ≡ pull_permission context.now r0 }
{
    if r0 == NOBODY {
        return Permission::Permitted;
    }
    if context.len() < PULL_LENGTH {
        return Permission::NotPermitted;
    }
    if shows_task(context, r0) {
        return Permission::Permitted;
    }
    if hides_tasks(context) {
        Permission::NotShown
    } else {
        Permission::NotPermitted
    }
}

/// Returns the number of the four bytes at that place.
fn number_at(context: &[u8], at: usize) -> u32
    requires { at + 4 ≤ length context.now }
    ensures { result ≡ context_number context.now at }
{
    LittleEndian::read_u32(&context[at..at + 4])
}

/// Returns whether one of the tasks that are shown has that number.
fn shows_task(context: &[u8], r0: u64) -> bool
    requires { PULL_LENGTH ≤ length context.now }
    ensures { result ≡ shows_task context.now r0 }
{
    let shown = number_at(context, SHOWN_AT).min(SHOWN);
    for place in 0..shown {
        let id = number_at(context, TASKS_AT + TASK_LENGTH * place as usize);
        if u64::from(id) == r0 {
            return true;
        }
    }
    false
}

/// Returns whether more tasks are movable than are shown.
fn hides_tasks(context: &[u8]) -> bool
    requires { PULL_LENGTH ≤ length context.now }
    ensures { result ≡ hides_tasks context.now }
{
    number_at(context, MOVABLE_AT) > number_at(context, SHOWN_AT)
}
