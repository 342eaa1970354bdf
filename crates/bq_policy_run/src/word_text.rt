//! The rule's word on the answer of a run.
ghost use Rattle.std.specs.Prelude.{◌≢◌, ◌≤◌, length, IfOk, string_bytes};
ghost use Rattle.bq_policy_run.specs.declared.permitted.Permission.TheVariants.{NotPermitted, NotShown, Permitted};
ghost use Rattle.bq_policy_run.specs.declared.permitted.TheConstants.{PLACE_SHOWN};
ghost use Rattle.bq_policy_run.specs.Judging.{BeginsWithPermission, BeginsWithWord};

use crate::permitted::NOBODY;
use crate::{PLACE_SHOWN, Permission, permission_of, place_shown};
use bq_hooks::Hook;
use std::alloc::{AllocError, Global};

/// Says what the rule says of the answer to this context, and why.
pub(crate) fn word_text(
    alloc: Global,
    hook: Hook,
    context: &[u8],
    r0: u64,
) -> Result<String, AllocError>
    ensures { IfOk result (λ text. BeginsWithPermission hook context.now r0 (string_bytes text)) }
{
    let word = permission_of(hook, context, r0);
    match hook {
        Hook::Place => place_text(alloc, context, r0, word),
        Hook::Preempt => String::from_str(alloc, preempt_text(word)),
        Hook::Pull => pull_text(alloc, r0, word),
    }
}

/// Says what the rule says of a place, which the context may show.
fn place_text(
    alloc: Global,
    context: &[u8],
    r0: u64,
    word: Permission,
) -> Result<String, AllocError>
    ensures { IfOk result (λ text. PLACE_SHOWN ≤ length context.now → word ≢ NotShown → BeginsWithWord word (string_bytes text)) }
{
    if context.len() < PLACE_SHOWN {
        return String::from_str(alloc, "not permitted: the context shows no processors");
    }
    let (count, mask) = place_shown(context);
    match word {
        Permission::Permitted => in_mask_text(alloc, r0, mask),
        Permission::NotPermitted | Permission::NotShown => no_place_text(alloc, r0, count, mask),
    }
}

/// Says that a place is in the mask.
fn in_mask_text(alloc: Global, r0: u64, mask: u64) -> Result<String, AllocError>
    ensures { IfOk result (λ text. BeginsWithWord Permitted (string_bytes text)) }
{
    format!(in alloc; "permitted: processor {r0} is in mask 0x{mask:x}")
}

/// Says that a place is not one of this many processors, or not in the mask.
fn no_place_text(alloc: Global, r0: u64, count: u32, mask: u64) -> Result<String, AllocError>
    ensures { IfOk result (λ text. BeginsWithWord NotPermitted (string_bytes text)) }
{
    if r0 >= u64::from(count) {
        let advice = count_advice(count);
        return format!(in alloc; "not permitted: the machine has {count} processors{advice}");
    }
    format!(in alloc; "not permitted: processor {r0} is not in mask 0x{mask:x}")
}

/// Says what to give if the context shows no processors; empty if it shows some.
fn count_advice(count: u32) -> &'static str {
    match count {
        0 => "; give --set processors=4,mask=0xf",
        _ => "",
    }
}

/// Says whether an answer to `preempt` is permitted, and what the permitted answers mean.
fn preempt_text(word: Permission) -> &'static str
    ensures { word ≢ NotShown → BeginsWithWord word result.now }
{
    match word {
        Permission::Permitted => "permitted: 0 stays, 1 gives way",
        Permission::NotPermitted | Permission::NotShown => "not permitted: an answer is 0 or 1",
    }
}

/// Says what the rule says of the task that a pull is to take.
fn pull_text(alloc: Global, r0: u64, word: Permission) -> Result<String, AllocError>
    ensures { IfOk result (λ text. BeginsWithWord word (string_bytes text)) }
{
    match word {
        Permission::Permitted => taken_text(alloc, r0),
        Permission::NotShown => String::from_str(
            alloc,
            "permitted only if it is a movable task that the context does not show",
        ),
        Permission::NotPermitted => {
            format!(in alloc; "not permitted: {r0} is no movable task; none is {NOBODY}")
        }
    }
}

/// Says that no task, or a task that the context shows, may be taken.
fn taken_text(alloc: Global, r0: u64) -> Result<String, AllocError>
    ensures { IfOk result (λ text. BeginsWithWord Permitted (string_bytes text)) }
{
    if r0 == NOBODY {
        return String::from_str(alloc, "permitted: none is taken");
    }
    format!(in alloc; "permitted: {r0} is a movable task that is shown")
}
