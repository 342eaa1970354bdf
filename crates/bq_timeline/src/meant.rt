//! The name of a task that was perhaps meant by a name that no task has.
ghost use Rattle.std.specs.Prelude.{◌≡◌, IfOk, OnOk, option_map};
ghost use Rattle.bq_timeline.specs.Meant.{edits_after, is_nearer, name_meant, nearest_task};

use bq_disc::limits::TASKS;
use bq_report::Names;
use bq_words::Near;
use std::alloc::{AllocError, Global};

/// Returns the name of a task that is nearest to a name that no task has, if one is near.
pub(crate) fn name_meant<'a>(
    alloc: Global,
    name: &str,
    names: &'a Names,
) -> Result<Option<&'a str>, AllocError>
    ensures { IfOk result (λ near. option_map (λ n. n.now) near ≡ name_meant names.now name.now) }
{
    match nearest_task(alloc, name, names)? {
        Some(task) => Ok(names.of(task)),
        None => Ok(None),
    }
}

/// Returns the task whose name is nearest, if one is near: the first of these.
#[tactic(auto, using(crate::proofs::MeantLemmas::edits_none, crate::proofs::MeantLemmas::edits_more, crate::proofs::MeantLemmas::nearest_none, crate::proofs::MeantLemmas::nearest_on, crate::proofs::MeantLemmas::nearest_off))]
fn nearest_task(alloc: Global, name: &str, names: &Names) -> Result<Option<u16>, AllocError>
    ensures { IfOk result (λ task. task ≡ nearest_task names.now name.now) }
{
    let mut near = Near::of(name);
    let mut nearest = None;
    for task in 0..TASKS {
        if is_nearer(alloc, &mut near, name, names.of(task))? {
            nearest = Some(task);
        }
    }
    Ok(nearest)
}

/// Tells whether there is a name that is nearer than each before it.
fn is_nearer(
    alloc: Global,
    near: &mut Near,
    name: &str,
    known: Option<&str>,
) -> Result<bool, AllocError>
    ensures nearer { IfOk result (λ is. is ≡ is_nearer near.old name.now (option_map (λ k. k.now) known.entry)) }
    ensures next { OnOk result (near.new ≡ edits_after near.old name.now (option_map (λ k. k.now) known.entry)) }
{
    match known {
        Some(known) => near.takes(alloc, name, known),
        None => Ok(false),
    }
}
