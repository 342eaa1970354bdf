//! The values of single keys.
ghost use Rattle.std.specs.Prelude.{◌≡◌, ◌≤◌, pos, IfOk, IfSome, codes, option_map, option_and_then};
ghost use Rattle.std.specs.Result.{result_ok};
ghost use Rattle.toml.specs.Data.{as_str, get_member};
ghost use Rattle.toml.specs.View.{view, table_view};
ghost use Rattle.bq_words.specs.ProcessorSets.{processors_of};
ghost use Rattle.bq_workload_file.specs.Fields.{read_within, span_in, number_in, or_default, read_nice, discipline_in, size_in, name_in_members, read_mask, loops_of};

use crate::tables::at;
use crate::workload_cause::{NumberRange, Wanted, WorkloadCause};
use bq_weights::is_nice;
use bq_words::processor_sets::processors;
use bq_words::{DisciplineName, ProcessorCount, duration};
use bq_workload::limits::LONGEST_NAME;
use toml::{Table, Value};

/// The number, if it is in the range.
fn within(number: u64, range: NumberRange) -> Option<u64>
    ensures value { result ≡ read_within range.least range.greatest number }
    ensures most { IfSome result (λ n. n ≤ range.greatest) }
{
    if range.least <= number && number <= range.greatest {
        Some(number)
    } else {
        None
    }
}

/// A duration, with its unit, in a range of nanoseconds.
pub(crate) fn span(value: &Value, range: NumberRange) -> Option<u64>
    ensures { result ≡ span_in range.least range.greatest (view value.now) }
{
    let word = value.as_str()?;
    let span = duration(word.as_bytes())?;
    within(span, range)
}

/// A whole number in a range.
fn read_number(value: &Value, range: NumberRange) -> Option<u64>
    ensures value { result ≡ number_in range.least range.greatest (view value.now) }
    ensures most { IfSome result (λ n. n ≤ range.greatest) }
{
    let number = value.as_integer()?;
    if number < 0 {
        return None;
    }
    within(number as u64, range)
}

/// The duration at a key, or the default if the key is absent.
pub(crate) fn span_at<'a>(
    table: &'a Table,
    key: &'static str,
    default: u64,
    range: NumberRange,
) -> Result<u64, WorkloadCause<'a>>
    ensures { result_ok result ≡ or_default default (span_in range.least range.greatest) (get_member key.now (table_view table.now)) }
{
    match at(table, key) {
        None => Ok(default),
        Some(value) => match span(value, range) {
            Some(span) => Ok(span),
            None => Err(WorkloadCause::NoSuch {
                key,
                value,
                wanted: Wanted::Time(range),
            }),
        },
    }
}

/// The whole number at a key, or the default if the key is absent.
pub(crate) fn number_at<'a>(
    table: &'a Table,
    key: &'static str,
    default: u64,
    range: NumberRange,
) -> Result<u64, WorkloadCause<'a>>
    requires { default ≤ range.greatest }
    ensures value { result_ok result ≡ or_default default (number_in range.least range.greatest) (get_member key.now (table_view table.now)) }
    ensures most { IfOk result (λ n. n ≤ range.greatest) }
{
    match at(table, key) {
        None => Ok(default),
        Some(value) => match read_number(value, range) {
            Some(number) => Ok(number),
            None => Err(WorkloadCause::NoSuch {
                key,
                value,
                wanted: Wanted::Number(range),
            }),
        },
    }
}

/// Reads how often a task does its actions: for ever if the key is absent.
pub(crate) fn read_loops(table: &Table) -> Result<Option<u64>, WorkloadCause<'_>>
    ensures { result_ok result ≡ loops_of (get_member (codes "loops") (table_view table.now)) }
{
    let range = NumberRange {
        least: 1,
        greatest: i64::MAX as u64,
    };
    match at(table, "loops") {
        None => Ok(None),
        Some(value) => match read_number(value, range) {
            Some(number) => Ok(Some(number)),
            None => Err(WorkloadCause::NoSuch {
                key: "loops",
                value,
                wanted: Wanted::Number(range),
            }),
        },
    }
}

/// A nice value.
fn nice_value(value: &Value) -> Option<i8>
    ensures { result ≡ read_nice (view value.now) }
{
    let number = value.as_integer()?;
    if is_nice(number) {
        Some(number as i8)
    } else {
        None
    }
}

/// The nice value of a task, 0 if the key is absent.
pub(crate) fn read_nice(table: &Table) -> Result<i8, WorkloadCause<'_>>
    ensures { result_ok result ≡ or_default (pos 0) read_nice (get_member (codes "nice") (table_view table.now)) }
{
    match at(table, "nice") {
        None => Ok(0),
        Some(value) => match nice_value(value) {
            Some(nice) => Ok(nice),
            None => Err(WorkloadCause::NoSuch {
                key: "nice",
                value,
                wanted: Wanted::Nice,
            }),
        },
    }
}

/// Reads the processors that a task may use: at least one of them is a processor of the machine.
pub(crate) fn read_mask<'a>(
    table: &'a Table,
    all: u64,
    machine: u8,
) -> Result<u64, WorkloadCause<'a>>
    ensures { result_ok result ≡ or_default all (read_mask all) (get_member (codes "cpus") (table_view table.now)) }
{
    let value = match at(table, "cpus") {
        None => return Ok(all),
        Some(value) => value,
    };
    match named(value) {
        None => Err(WorkloadCause::NoSuch {
            key: "cpus",
            value,
            wanted: Wanted::Processors,
        }),
        Some(mask) if mask & all == 0 => Err(WorkloadCause::NoProcessor {
            value,
            processors: machine,
        }),
        Some(mask) => Ok(mask),
    }
}

/// The processors that a value names.
fn named(value: &Value) -> Option<u64>
    ensures { result ≡ option_and_then processors_of (as_str (view value.now)) }
{
    let word = value.as_str()?;
    processors(word.as_bytes())
}

/// The discipline by which processors choose, or the default if the key is absent.
pub(crate) fn read_discipline(
    table: &Table,
    default: DisciplineName,
) -> Result<DisciplineName, WorkloadCause<'_>>
    ensures { result_ok result ≡ or_default default discipline_in (get_member (codes "discipline") (table_view table.now)) }
{
    match at(table, "discipline") {
        None => Ok(default),
        Some(value) => match named_discipline(value) {
            Some(discipline) => Ok(discipline),
            None => Err(WorkloadCause::NoSuch {
                key: "discipline",
                value,
                wanted: Wanted::Discipline,
            }),
        },
    }
}

/// The discipline that a value names.
fn named_discipline(value: &Value) -> Option<DisciplineName>
    ensures { result ≡ discipline_in (view value.now) }
{
    let word = value.as_str()?;
    DisciplineName::of_word(word.as_bytes())
}

/// How many processors there are, or the default if the key is absent.
pub(crate) fn read_size(
    table: &Table,
    default: ProcessorCount,
) -> Result<ProcessorCount, WorkloadCause<'_>>
    ensures { result_ok result ≡ or_default default size_in (get_member (codes "processors") (table_view table.now)) }
{
    match at(table, "processors") {
        None => Ok(default),
        Some(value) => match size_given(value) {
            Some(size) => Ok(size),
            None => Err(WorkloadCause::NoSuch {
                key: "processors",
                value,
                wanted: Wanted::Size,
            }),
        },
    }
}

/// The size that a value gives.
fn size_given(value: &Value) -> Option<ProcessorCount>
    ensures { result ≡ size_in (view value.now) }
{
    let number = read_number(
        value,
        NumberRange {
            least: 1,
            greatest: 64,
        },
    )?;
    ProcessorCount::of_number(number as u8)
}

/// The name of a task.
pub(crate) fn name(table: &Table) -> Result<&str, WorkloadCause<'_>>
    ensures { option_map (λ s. s.now) (result_ok result) ≡ name_in_members (table_view table.now) }
{
    let value = match at(table, "name") {
        None => return Err(WorkloadCause::Missing("name")),
        Some(value) => value,
    };
    match value.as_str() {
        Some(name) if name.len() > LONGEST_NAME => Err(WorkloadCause::LongName),
        Some(name) if !name.is_empty() => Ok(name),
        _ => Err(WorkloadCause::NoSuch {
            key: "name",
            value,
            wanted: Wanted::Name,
        }),
    }
}
