//! The kinds of tasks of a workload.
ghost use Rattle.std.specs.Prelude.{◌≡◌, ℕ, List, Some, None, IfOk, IsSome, option_and_then};
ghost use Rattle.std.specs.Result.{result_err};
ghost use Rattle.toml.specs.View.{table_view};
ghost use Rattle.bq_workload_file.specs.Fields.{name_in_members};
ghost use Rattle.bq_workload_file.specs.Keys.{IsRefusedFor, first_unknown, task_keys, unknown_key};
ghost use Rattle.bq_workload_file.specs.Workloads.{HasNumbers, IsKind, all_of};

use crate::blame::{DocumentLocation, Trouble};
use crate::doing::all_actions;
use crate::fields::{name, number_at, read_loops, read_mask, read_nice, span_at};
use crate::tables::all_known;
use crate::workload_cause::{NumberRange, WorkloadCause};
use bq_disc::limits::{DEFAULT_SLICE, GREATEST_SLICE, LEAST_SLICE, TASKS};
use bq_words::ProcessorCount;
use bq_words::processor_sets::bits;
use bq_workload::limits::LONGEST;
use bq_workload::{TaskKind, take_time};
use std::alloc::Global;
use toml::Table;

/// The keys of a task.
static TASK: [&str; 10] = [
    "name", "count", "nice", "cpus", "slice", "start", "loops", "run", "sleep", "do",
];

/// The processors of a machine: their bits, and how many there are.
#[derive(Clone, Copy)]
pub(crate) struct Processors {
    pub(crate) all: u64,
    pub(crate) number: u8,
}

impl Processors {
    /// The processors of a machine of this size.
    pub(crate) fn of(size: ProcessorCount) -> Processors
        ensures { result.all ≡ all_of size }
    {
        let number = size.processors();
        Processors {
            all: bits(0, number - 1),
            number,
        }
    }
}

/// The numbers of a kind.
#[derive(Clone, Copy)]
struct Numbers {
    count: u16,
    nice: i8,
    mask: u64,
    slice: u64,
    start: u64,
    loops: Option<u64>,
}

/// The numbers of a kind, whose keys all mean something.
fn all_numbers<'a>(table: &'a Table, processors: Processors) -> Result<Numbers, WorkloadCause<'a>>
    ensures numbers { IfOk result (λ n. HasNumbers processors.all (table_view table.now) n.count n.nice n.mask n.slice n.start n.loops) }
    ensures known { IfOk result (λ _. first_unknown task_keys (table_view table.now) ≡ None) }
    ensures unknown { (key : List ℕ) → first_unknown task_keys (table_view table.now) ≡ Some key → option_and_then unknown_key (result_err result) ≡ Some key }
{
    all_known(table, &TASK)?;
    let counts = NumberRange {
        least: 1,
        greatest: u64::from(TASKS),
    };
    let slices = NumberRange {
        least: LEAST_SLICE,
        greatest: GREATEST_SLICE,
    };
    let starts = NumberRange {
        least: 0,
        greatest: LONGEST,
    };
    let count = number_at(table, "count", 1, counts)?;
    let nice = read_nice(table)?;
    let mask = read_mask(table, processors.all, processors.number)?;
    let slice = span_at(table, "slice", DEFAULT_SLICE, slices)?;
    let start = span_at(table, "start", 0, starts)?;
    let loops = read_loops(table)?;
    Ok(Numbers {
        count: count as u16,
        nice,
        mask,
        slice,
        start,
        loops,
    })
}

/// The kind that a table describes, by its number from 1. `names` are the names of all kinds.
pub(crate) fn read_kind<'a>(
    alloc: Global,
    table: &'a Table,
    number: usize,
    names: &'a [String],
    processors: Processors,
) -> Result<TaskKind, Trouble<'a>>
    ensures read { IfOk result (IsKind names.now processors.all (table_view table.now)) }
    ensures unknown { (key : List ℕ) → IsSome (name_in_members (table_view table.now)) → first_unknown task_keys (table_view table.now) ≡ Some key → IsRefusedFor key result }
{
    let called = name(table);
    let place = DocumentLocation::Task {
        number,
        name: called.ok(),
    };
    let name = place.locate(called)?;
    let numbers = place.locate(all_numbers(table, processors))?;
    let actions = all_actions(alloc, table, place, names)?;
    if !take_time(actions.as_slice()) {
        return Err(Trouble::At {
            place,
            why: WorkloadCause::NoTime,
        });
    }
    Ok(TaskKind {
        name: String::from_str(alloc, name)?,
        count: numbers.count,
        nice: numbers.nice,
        mask: numbers.mask,
        slice: numbers.slice,
        start: numbers.start,
        loops: numbers.loops,
        actions,
    })
}
