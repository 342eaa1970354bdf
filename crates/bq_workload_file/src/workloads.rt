//! Whole workloads.
ghost use Rattle.std.specs.Prelude.{◌≡◌, ◌<◌, ◌≤◌, ℕ, true, List, [], Some, None, IfErr, IfOk, IfSome, IsSome, length, sum_by};
ghost use Rattle.toml.specs.Data.{as_table};
ghost use Rattle.toml.specs.Parse.{parse_document};
ghost use Rattle.toml.specs.View.{view, items_view, table_view};
ghost use Rattle.bq_workload.specs.Lengths.{is_long};
ghost use Rattle.bq_workload.specs.Soundness.{first_flaw};
ghost use Rattle.bq_workload_file.specs.Keys.{IsRefusedFor, document_keys, first_unknown};
ghost use Rattle.bq_workload_file.specs.Workloads.{AreKinds, AreTableNames, AreOthers, DescribesWorkload, IsMachine, IsWorkloadFault, task_tables};

use crate::actions;
use crate::blame::{DocumentLocation, Trouble};
use crate::changes::Changes;
use crate::fault::{WorkloadFault, meaning, syntax};
use crate::fields::name;
use crate::kinds::{Processors, read_kind};
use crate::setup::{absent, setup};
use crate::tables::{all_known, at};
use crate::workload_cause::{Wanted, WorkloadCause};
use bq_disc::limits::TASKS;
use bq_workload::{Setup, TaskKind, Workload};
use std::alloc::Global;
use toml::{Table, Value};

/// The keys of a document.
static DOCUMENT: [&str; 2] = ["machine", "task"];

/// The workload that a text describes, on its machine with these changes. A text is called no TOML only if it is not TOML.
/// The loop can follow the workload to its end, unless a machine may not have a changed duration.
pub fn read(alloc: Global, text: &str, changes: Changes) -> Result<Workload, WorkloadFault>
    ensures describes { IfOk result (DescribesWorkload text.now changes) }
    ensures sound { IfSome changes.duration (λ d. is_long d ≡ true) → IfOk result (λ w. first_flaw w ≡ None) }
    ensures fault { IfErr result (IsWorkloadFault text.now) }
{
    let document = match toml::table_from_str(alloc, text) {
        Ok(document) => document,
        Err(error) => return Err(syntax(alloc, text, &error)),
    };
    let (machine, tables) = match outline(&document) {
        Ok(parts) => parts,
        Err(trouble) => return Err(reported(alloc, &trouble)),
    };
    let machine = changes.made(machine);
    let names = match names(alloc, tables) {
        Ok(names) => names,
        Err(trouble) => return Err(reported(alloc, &trouble)),
    };
    match kinds(
        alloc,
        tables,
        names.as_slice(),
        Processors::of(machine.size),
    ) {
        Ok(tasks) => Ok(Workload { machine, tasks }),
        Err(trouble) => Err(reported(alloc, &trouble)),
    }
}

/// The fault that a trouble is reported as.
fn reported(alloc: Global, trouble: &Trouble<'_>) -> WorkloadFault
    ensures { (text : List ℕ) → IsSome (parse_document text) → IsWorkloadFault text result }
{
    match trouble {
        Trouble::OutOfMemory => WorkloadFault::OutOfMemory,
        Trouble::At { place, why } => match meaning(alloc, place, why) {
            Ok(fault) => fault,
            Err(_) => WorkloadFault::OutOfMemory,
        },
    }
}

/// The machine of a document, and the tables of its tasks.
fn outline(document: &Table) -> Result<(Setup, &[Value]), Trouble<'_>>
    ensures known { IfOk result (λ _. first_unknown document_keys (table_view document.now) ≡ None) }
    ensures unknown { (key : List ℕ) → first_unknown document_keys (table_view document.now) ≡ Some key → IsRefusedFor key result }
    ensures machine { IfOk result (λ p. IsMachine (table_view document.now) p.0) }
    ensures tasks { IfOk result (λ p. task_tables (table_view document.now) ≡ Some (items_view p.1.now)) }
    ensures some { IfOk result (λ p. 0 < length p.1.now) }
{
    DocumentLocation::Document.locate(all_known(document, &DOCUMENT))?;
    let machine = read_machine(document)?;
    let tables = DocumentLocation::Document.locate(tables(document))?;
    Ok((machine, tables))
}

/// The machine of a document.
fn read_machine(document: &Table) -> Result<Setup, Trouble<'_>>
    ensures { IfOk result (IsMachine (table_view document.now)) }
{
    match at(document, "machine") {
        None => Ok(absent()),
        Some(value) => {
            let table = DocumentLocation::Document.locate(table_at("machine", value))?;
            DocumentLocation::Machine.locate(setup(table))
        }
    }
}

/// Reads a value as a table.
fn table_at<'a>(key: &'static str, value: &'a Value) -> Result<&'a Table, WorkloadCause<'a>>
    ensures { IfOk result (λ t. as_table (view value.now) ≡ Some (table_view t.now)) }
{
    match value.as_table() {
        Some(table) => Ok(table),
        None => Err(WorkloadCause::NoSuch {
            key,
            value,
            wanted: Wanted::Table,
        }),
    }
}

/// The tables of the tasks, at least one.
fn tables(document: &Table) -> Result<&[Value], WorkloadCause<'_>>
    ensures tasks { IfOk result (λ t. task_tables (table_view document.now) ≡ Some (items_view t.now)) }
    ensures some { IfOk result (λ t. 0 < length t.now) }
{
    let value = match at(document, "task") {
        None => return Err(WorkloadCause::Missing("[[task]]")),
        Some(value) => value,
    };
    match value.as_array() {
        None => Err(WorkloadCause::NoSuch {
            key: "task",
            value,
            wanted: Wanted::Tables,
        }),
        Some(tables) if tables.is_empty() => Err(WorkloadCause::Missing("[[task]]")),
        Some(tables) => Ok(tables.as_slice()),
    }
}

/// The names of the tasks, no two of which are equal. Each name is of one task at least, so there are at most 1,024 names.
fn names<'a>(alloc: Global, tables: &'a [Value]) -> Result<Vec<String>, Trouble<'a>>
    ensures names { IfOk result (λ v. AreTableNames (items_view tables.now) v.items) }
    ensures others { IfOk result (λ v. AreOthers [] v.items) }
{
    let mut names = Vec::new(alloc);
    for (index, value) in tables.iter().enumerate() {
        if index >= usize::from(TASKS) {
            return Err(Trouble::At {
                place: DocumentLocation::Document,
                why: WorkloadCause::TooMany,
            });
        }
        let place = DocumentLocation::Task {
            number: index + 1,
            name: None,
        };
        let table = place.locate(table_at("task", value))?;
        let name = place.locate(name(table))?;
        if let Some(first) = actions::place(names.as_slice(), name) {
            return Err(Trouble::At {
                place,
                why: WorkloadCause::TwoOfName {
                    name,
                    first: first + 1,
                },
            });
        }
        names.push(String::from_str(alloc, name)?)?;
    }
    Ok(names)
}

/// The kinds of tasks, which have at most 1,024 tasks together.
fn kinds<'a>(
    alloc: Global,
    tables: &'a [Value],
    names: &'a [String],
    processors: Processors,
) -> Result<Vec<TaskKind>, Trouble<'a>>
    ensures kinds { IfOk result (λ v. AreKinds names.now processors.all (items_view tables.now) v.items) }
    ensures few { IfOk result (λ v. sum_by (λ k. k.count) v.items ≤ TASKS) }
{
    let mut kinds = Vec::new(alloc);
    let mut tasks: u16 = 0;
    for (index, value) in tables.iter().enumerate() {
        let table = DocumentLocation::Document.locate(table_at("task", value))?;
        let kind = read_kind(alloc, table, index + 1, names, processors)?;
        tasks = match tasks.checked_add(kind.count) {
            Some(tasks) if tasks <= TASKS => tasks,
            _ => return Err(Trouble::At {
                place: DocumentLocation::Document,
                why: WorkloadCause::TooMany,
            }),
        };
        kinds.push(kind)?;
    }
    Ok(kinds)
}
