//! What a task does.
ghost use Rattle.std.specs.Prelude.{◌≡◌, [], IfOk, option_map};
ghost use Rattle.std.specs.Result.{result_ok};
ghost use Rattle.toml.specs.View.{view, items_view};
ghost use Rattle.bq_workload_file.specs.Lengths.{read_length};
ghost use Rattle.bq_workload_file.specs.Actions.{action_of, action_of_entry, wait_action, wake_action, actions_with, named_at};

use crate::lengths::length;
use crate::tables::only;
use crate::workload_cause::{Wanted, WorkloadCause};
use bq_workload::Action;
use std::alloc::{AllocError, Global};
use toml::Value;

/// The keys of an action.
static ACTION: [&str; 4] = ["run", "sleep", "wait", "wake"];

/// One action: a table of one entry.
pub(crate) fn action<'a>(value: &'a Value, names: &'a [String]) -> Result<Action, WorkloadCause<'a>>
    ensures { result_ok result ≡ action_of names.now (view value.now) }
{
    let wrong = WorkloadCause::NoItem {
        value,
        wanted: Wanted::Action,
    };
    let table = match value.as_table() {
        Some(table) => table,
        None => return Err(wrong),
    };
    match only(table) {
        Some((key, value)) => entry(key, value, names),
        None => Err(wrong),
    }
}

/// The action of an entry.
fn entry<'a>(
    key: &'a str,
    value: &'a Value,
    names: &'a [String],
) -> Result<Action, WorkloadCause<'a>>
    ensures { result_ok result ≡ action_of_entry names.now key.now (view value.now) }
{
    match key {
        "run" => Ok(Action::Run(phase("run", value)?)),
        "sleep" => Ok(Action::Sleep(phase("sleep", value)?)),
        "wait" => waiting(value),
        "wake" => waking(value, names),
        _ => Err(WorkloadCause::UnknownKey {
            key,
            known: &ACTION,
        }),
    }
}

/// A length at this key.
pub(crate) fn phase<'a>(
    key: &'static str,
    value: &'a Value,
) -> Result<bq_workload::Length, WorkloadCause<'a>>
    ensures { result_ok result ≡ read_length (view value.now) }
{
    match length(value) {
        Some(length) => Ok(length),
        None => Err(WorkloadCause::NoSuch {
            key,
            value,
            wanted: Wanted::Length,
        }),
    }
}

/// A task waits if `wait` is true.
fn waiting<'a>(value: &'a Value) -> Result<Action, WorkloadCause<'a>>
    ensures { result_ok result ≡ wait_action (view value.now) }
{
    match value.as_bool() {
        Some(true) => Ok(Action::Wait),
        _ => Err(WorkloadCause::NoSuch {
            key: "wait",
            value,
            wanted: Wanted::True,
        }),
    }
}

/// A task wakes the tasks of the kind with this name.
fn waking<'a>(value: &'a Value, names: &'a [String]) -> Result<Action, WorkloadCause<'a>>
    ensures { result_ok result ≡ wake_action names.now (view value.now) }
{
    let name = match value.as_str() {
        Some(name) => name,
        None => return Err(WorkloadCause::NoSuch {
            key: "wake",
            value,
            wanted: Wanted::Name,
        }),
    };
    match place(names, name) {
        Some(kind) => Ok(Action::Wake(kind)),
        None => Err(WorkloadCause::UnknownTask { name, names }),
    }
}

/// The place of a name.
pub(crate) fn place(names: &[String], name: &str) -> Option<usize>
    ensures { result ≡ named_at names.now name.now }
{
    names.iter().position(|known| known.as_str() == name)
}

/// Reads the actions of a list. The error is the number, from 1, of the first item that is no action, and what is wrong with this
/// item.
pub(crate) fn actions<'a>(
    alloc: Global,
    values: &'a [Value],
    names: &'a [String],
) -> Result<Result<Vec<Action>, (usize, WorkloadCause<'a>)>, AllocError>
    ensures { IfOk result (λ read. option_map (λ v. v.items) (result_ok read) ≡ actions_with names.now [] (items_view values.now)) }
{
    let mut actions = Vec::new(alloc);
    for (place, value) in values.iter().enumerate() {
        match action(value, names) {
            Ok(action) => actions.push(action)?,
            Err(why) => return Ok(Err((place + 1, why))),
        }
    }
    Ok(Ok(actions))
}
