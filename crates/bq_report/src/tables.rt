//! The tables of a report, of at most 80 columns.
ghost use Rattle.std.specs.Prelude.{◌≡◌, ◌++◌, OnOk, string_bytes};
ghost use Rattle.bq_report.specs.Columns.{task_columns, millis_column, latency_column, latency_columns, still_waiting_text, task_line, latency_line, missed_line, processor_report_line, hook_line_if, hook_lines, nearest};

use crate::amounts::{Decimals, Millis};
use crate::percent::Percent;
use bq_schedule::{HookFigures, PARTS_PER_NANOSECOND, Percentiles, ProcessorFigures, TaskFigures};
use std::alloc::AllocError;

/// The head above the lines of the tasks.
pub const TASK_HEAD: &str =
    " task name            nice       cpu ms      fair ms switches preempted migrated\n";

/// The head above the lines of the latencies.
pub const LATENCY_HEAD: &str =
    " task name               wakes      p50 us      p95 us      p99 us      max us\n";

/// The head above the lines of the processors.
pub const PROCESSOR_HEAD: &str = "  cpu  busy %      busy ms      idle ms switches\n";

/// The head above the lines of the hooks at which a policy was asked. It begins with an empty line.
pub const HOOK_HEAD: &str = "\n  cpu hook            asked  overruled          steps\n";

/// Adds a task's number and name, in 20 columns.
pub fn write_task(text: &mut String, task: u16, name: &str) -> Result<(), AllocError>
    ensures { OnOk result (string_bytes text.new ≡ string_bytes text.old ++ task_columns task name.now) }
{
    write!(text, "{task:>5} {name:<14.14}")
}

/// Adds a time in nanoseconds as milliseconds, in 13 columns: wider if needed, always after a space.
pub fn write_millis(text: &mut String, time: u64) -> Result<(), AllocError>
    ensures { OnOk result (string_bytes text.new ≡ string_bytes text.old ++ millis_column time) }
{
    let thousandths = time / 1000;
    let whole = thousandths / 1000;
    let decimals = Decimals(thousandths);
    write!(text, " {whole:>8}.{decimals}")
}

/// Adds a latency in nanoseconds as microseconds, in 12 columns: wider if needed, always after a space; `-` for no latency.
fn write_latency(text: &mut String, latency: Option<u64>) -> Result<(), AllocError>
    ensures { OnOk result (string_bytes text.new ≡ string_bytes text.old ++ latency_column latency) }
{
    match latency {
        Some(latency) => {
            let whole = latency / 1000;
            let decimals = Decimals(latency);
            write!(text, " {whole:>7}.{decimals}")
        }
        None => text.push_str("           -"),
    }
}

/// Returns parts of a nanosecond as the nearest number of nanoseconds. It stops at its type's greatest number.
pub fn nanoseconds(parts: u128) -> u64
    ensures { result ≡ nearest parts }
{
    u64::try_from(parts.saturating_add(PARTS_PER_NANOSECOND / 2) / PARTS_PER_NANOSECOND).unwrap_or(
        u64::MAX,
    )
}

/// Adds the line of a task: its nice value, its time, its fair time, and how often it started, was preempted and migrated.
pub fn write_task_line(
    text: &mut String,
    task: u16,
    name: &str,
    figures: &TaskFigures,
    fair: u64,
) -> Result<(), AllocError>
    ensures { OnOk result (string_bytes text.new ≡ string_bytes text.old ++ task_line task name.now figures.now fair) }
{
    write_task(text, task, name)?;
    let nice = figures.nice;
    write!(text, "{nice:>5}")?;
    write_millis(text, figures.time)?;
    write_millis(text, fair)?;
    let switches = figures.switches;
    let preemptions = figures.preemptions;
    let migrations = figures.migrations;
    write!(text, " {switches:>8} {preemptions:>9} {migrations:>8}\n")
}

/// Adds the line of a task's latencies, from wake to run. If the task has not run since its last wake, the line ends with its wait.
pub fn write_latency_line(
    text: &mut String,
    task: u16,
    name: &str,
    wakes: u64,
    percentiles: &Percentiles,
    still_waiting: Option<u64>,
) -> Result<(), AllocError>
    ensures { OnOk result (string_bytes text.new ≡ string_bytes text.old ++ latency_line task name.now wakes percentiles.now still_waiting) }
{
    write_task(text, task, name)?;
    write!(text, " {wakes:>9}")?;
    write_latencies(text, percentiles)?;
    write_still_waiting(text, still_waiting)?;
    text.push_str("\n")
}

/// Adds how long a task has waited since its last wake, if it has not run since.
fn write_still_waiting(text: &mut String, time: Option<u64>) -> Result<(), AllocError>
    ensures { OnOk result (string_bytes text.new ≡ string_bytes text.old ++ still_waiting_text time) }
{
    match time {
        Some(time) => {
            let time = Millis(time);
            write!(text, "  still waiting {time} ms")
        }
        None => Ok(()),
    }
}

/// Adds a task's latencies.
fn write_latencies(text: &mut String, percentiles: &Percentiles) -> Result<(), AllocError>
    ensures { OnOk result (string_bytes text.new ≡ string_bytes text.old ++ latency_columns percentiles.now) }
{
    write_latency(text, percentiles.p50)?;
    write_latency(text, percentiles.p95)?;
    write_latency(text, percentiles.p99)?;
    write_latency(text, percentiles.greatest)
}

/// Adds how many wakes did nothing because their task did not wait, if any did.
pub fn write_missed_line(text: &mut String, missed: u64) -> Result<(), AllocError>
    ensures { OnOk result (string_bytes text.new ≡ string_bytes text.old ++ missed_line missed) }
{
    if missed == 0 {
        return Ok(());
    }
    write!(text, "\nwakes that found no task waiting: {missed}\n")
}

/// Adds the line of a processor: how much of the observed time a task ran there.
pub fn write_processor_line(
    text: &mut String,
    processor: u8,
    observed: u64,
    figures: &ProcessorFigures,
) -> Result<(), AllocError>
    ensures { OnOk result (string_bytes text.new ≡ string_bytes text.old ++ processor_report_line processor observed figures.now) }
{
    let idle = figures.idle(observed);
    let busy = Percent {
        part: figures.busy,
        whole: observed,
    };
    write!(text, "{processor:>5}  {busy}")?;
    write_millis(text, figures.busy)?;
    write_millis(text, idle)?;
    let switches = figures.switches;
    write!(text, " {switches:>8}\n")
}

/// Adds the lines of a processor's hooks at which a policy was asked.
pub fn write_hook_lines(
    text: &mut String,
    processor: u8,
    figures: &ProcessorFigures,
) -> Result<(), AllocError>
    ensures { OnOk result (string_bytes text.new ≡ string_bytes text.old ++ hook_lines processor figures.now) }
{
    write_hook_line(text, processor, "place", &figures.place)?;
    write_hook_line(text, processor, "preempt", &figures.preempt)?;
    write_hook_line(text, processor, "pull", &figures.pull)
}

/// Adds the line of a hook, if a policy was asked there.
fn write_hook_line(
    text: &mut String,
    processor: u8,
    name: &str,
    figures: &HookFigures,
) -> Result<(), AllocError>
    ensures { OnOk result (string_bytes text.new ≡ string_bytes text.old ++ hook_line_if processor name.now figures.now) }
{
    if figures.asked == 0 {
        return Ok(());
    }
    let asked = figures.asked;
    let overruled = figures.overruled;
    let steps = figures.steps;
    write!(
        text,
        "{processor:>5} {name:<8.8} {asked:>12} {overruled:>10} {steps:>14}\n"
    )
}
