//! What the tasks of a kind do.
ghost use Rattle.std.specs.Prelude.{◌≡◌, [], Some, IfOk, option_map, option_and_then};
ghost use Rattle.toml.specs.Data.{as_array};
ghost use Rattle.toml.specs.View.{view, table_view};
ghost use Rattle.bq_workload_file.specs.Actions.{actions_with};
ghost use Rattle.bq_workload_file.specs.Workloads.{table_actions, short_of};

use crate::actions::{actions, phase};
use crate::blame::{DocumentLocation, Trouble};
use crate::tables::at;
use crate::workload_cause::{Wanted, WorkloadCause};
use bq_workload::Action;
use std::alloc::Global;
use toml::{Table, Value};

/// Reads what a task does: its `do`, or `run` and `sleep`, which are short for a `do`.
pub(crate) fn all_actions<'a>(
    alloc: Global,
    table: &'a Table,
    place: DocumentLocation<'a>,
    names: &'a [String],
) -> Result<Vec<Action>, Trouble<'a>>
    ensures { IfOk result (λ v. table_actions names.now (table_view table.now) ≡ Some v.items) }
{
    let run = at(table, "run");
    let sleep = at(table, "sleep");
    match at(table, "do") {
        None => short(alloc, place, run, sleep),
        Some(value) => {
            if run.is_some() || sleep.is_some() {
                return Err(Trouble::At {
                    place,
                    why: WorkloadCause::TwoForms,
                });
            }
            long(alloc, place, value, names)
        }
    }
}

/// A run, and a sleep if there is one.
fn short<'a>(
    alloc: Global,
    place: DocumentLocation<'a>,
    run: Option<&'a Value>,
    sleep: Option<&'a Value>,
) -> Result<Vec<Action>, Trouble<'a>>
    ensures { IfOk result (λ v. short_of (option_map (λ v. view v.now) run.entry) (option_map (λ v. view v.now) sleep.entry) ≡ Some v.items) }
{
    let mut actions = Vec::new(alloc);
    match run {
        Some(value) => actions.push(Action::Run(place.locate(phase("run", value))?))?,
        None => return Err(Trouble::At {
            place,
            why: WorkloadCause::Missing("do (or run)"),
        }),
    }
    if let Some(value) = sleep {
        actions.push(Action::Sleep(place.locate(phase("sleep", value))?))?;
    }
    Ok(actions)
}

/// The actions of a `do`.
fn long<'a>(
    alloc: Global,
    place: DocumentLocation<'a>,
    value: &'a Value,
    names: &'a [String],
) -> Result<Vec<Action>, Trouble<'a>>
    ensures { IfOk result (λ v. option_and_then (actions_with names.now []) (as_array (view value.now)) ≡ Some v.items) }
{
    let values = match value.as_array() {
        Some(values) => values,
        None => {
            let why = WorkloadCause::NoSuch {
                key: "do",
                value,
                wanted: Wanted::Actions,
            };
            return Err(Trouble::At { place, why });
        }
    };
    match actions(alloc, values.as_slice(), names)? {
        Ok(actions) => Ok(actions),
        Err((action, why)) => Err(Trouble::At {
            place: place.action(action),
            why,
        }),
    }
}
