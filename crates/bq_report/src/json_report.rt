//! The report as JSON.
ghost use Rattle.std.specs.Prelude.{◌≡◌, ◌++◌, ℕ, [], codes, false, IfOk, OnOk, OnErr, option_map, string_bytes};
ghost use Rattle.serde_json.specs.View.{view};
ghost use Rattle.serde_json.specs.Written.{compact_text, has_float};
ghost use Rattle.bq_schedule.specs.WakeLatencies.{HaveSameLatencies, TakesStart, latencies_of};
ghost use Rattle.bq_report.specs.Objects.{counts_object, hook_object, latency_object, missed_member, number_or_null, processor_object, task_object, text_or_null};
ghost use Rattle.bq_report.specs.Reports.{GrowsByPart, AreElements, IsJsonReport, IsProcessorObject, IsTaskObject, separator_if};

use crate::form::ScheduleForm;
use crate::names::Names;
use crate::tables::nanoseconds;
use crate::waits::{still_waiting, waited_in_all};
use crate::window::Window;
use bq_disc::limits::{PROCESSORS, TASKS};
use bq_schedule::{
    Change, HookFigures, Percentiles, ProcessorFigures, Schedule, TaskFigures, WakeLatencies,
};
use serde_json::{Value, json};
use std::alloc::{AllocError, Global};

/// The figures of the report, in full, as one JSON object: `schema`, then `tasks` and `processors`, with an object for each, and
/// `missed_wakes` if there are any. Times are nanoseconds.
#[derive(Drop)]
pub struct Json {
    alloc: Global,
    window: Window,
    latencies: WakeLatencies,
    missed: u64,
}

/// The text before the tasks. The schema is the version of what the object holds. It changes if a key goes or means something else.
const HEAD: &str = "{\"schema\":1,\"tasks\":[";

impl Json {
    /// Returns a form for the figures of the tasks and processors in the window.
    pub fn new(alloc: Global, window: Window) -> Json
        ensures window { result.window ≡ window }
        ensures latencies { (task : ℕ) → latencies_of result.latencies task ≡ [] }
        ensures missed { result.missed ≡ 0 }
    {
        Json {
            alloc,
            window,
            latencies: WakeLatencies::new(alloc),
            missed: 0,
        }
    }

    /// Notes how many wakes did nothing because their task did not wait. A simulation counts these wakes; no trace shows them.
    pub fn count_missed(&mut self, wakes: u64)
        ensures { self.new ≡ record self.old { missed = wakes } }
    {
        self.missed = wakes;
    }
}

/// Adds the elements of the tasks.
fn write_tasks(
    alloc: Global,
    window: &Window,
    latencies: &mut WakeLatencies,
    schedule: &Schedule,
    names: &Names,
    text: &mut String,
) -> Result<(), AllocError>
    ensures { OnOk result (GrowsByPart
        (AreElements (λ id. IsTaskObject window.now names.now schedule.now (latencies_of latencies.old id) id) TASKS)
        (string_bytes text.old) (string_bytes text.new)) }
{
    let mut is_first = true;
    for task in 0..TASKS {
        if window.has_task(schedule, task) {
            let percentiles = latencies.percentiles(task);
            write_task(alloc, schedule, names, task, &percentiles, is_first, text)?;
            is_first = false;
        }
    }
    Ok(())
}

/// Adds the element of a task.
fn write_task(
    alloc: Global,
    schedule: &Schedule,
    names: &Names,
    task: u16,
    percentiles: &Percentiles,
    is_first: bool,
    text: &mut String,
) -> Result<(), AllocError>
    ensures { OnOk result (string_bytes text.new
        ≡ string_bytes text.old ++ (separator_if is_first ++ compact_text (task_object names.now schedule.now task percentiles.now))) }
{
    let value = task_value(alloc, schedule, names, task, percentiles)?;
    write_element(alloc, &value, is_first, text)
}

/// Adds the elements of the processors.
fn write_processors(
    alloc: Global,
    window: &Window,
    schedule: &Schedule,
    text: &mut String,
) -> Result<(), AllocError>
    ensures { OnOk result (GrowsByPart (AreElements (IsProcessorObject window.now schedule.now) PROCESSORS) (string_bytes text.old) (string_bytes text.new)) }
{
    let observed = schedule.observed_time();
    let mut is_first = true;
    for number in 0..PROCESSORS {
        if window.has_processor(schedule, number) {
            let figures = schedule.processor(number);
            write_processor(alloc, number, observed, &figures, is_first, text)?;
            is_first = false;
        }
    }
    Ok(())
}

/// Adds the element of a processor.
fn write_processor(
    alloc: Global,
    number: u8,
    observed: u64,
    figures: &ProcessorFigures,
    is_first: bool,
    text: &mut String,
) -> Result<(), AllocError>
    ensures { OnOk result (string_bytes text.new
        ≡ string_bytes text.old ++ (separator_if is_first ++ compact_text (processor_object number observed figures.now))) }
{
    let value = processor_value(alloc, number, observed, figures)?;
    write_element(alloc, &value, is_first, text)
}

/// Adds an element of an array, on a line of its own.
fn write_element(
    alloc: Global,
    value: &Value,
    is_first: bool,
    text: &mut String,
) -> Result<(), AllocError>
    ensures { OnOk result (has_float (view value.now) ≡ false
        → string_bytes text.new ≡ string_bytes text.old ++ (separator_if is_first ++ compact_text (view value.now))) }
{
    let element = value.to_string(alloc)?;
    text.push_str(if is_first { "\n" } else { ",\n" })?;
    text.push_str(element.as_str())
}

/// Returns the object of a task.
#[tactic(auto, unfolding(crate::specs::Objects::task_object))]
fn task_value(
    alloc: Global,
    schedule: &Schedule,
    names: &Names,
    task: u16,
    percentiles: &Percentiles,
) -> Result<Value, AllocError>
    ensures { IfOk result (λ v. view v ≡ task_object names.now schedule.now task percentiles.now) }
{
    let figures = schedule.task(task);
    let counts = counts_value(alloc, &figures)?;
    let fair = nanoseconds(schedule.fair_time(task));
    let latency = latency_value(alloc, percentiles)?;
    let name = text_value(alloc, names.of(task))?;
    let still = number(still_waiting(schedule, task));
    let waited = waited_in_all(schedule, task);
    json!(in alloc; {
        "counts": counts,
        "cpu": (figures.time),
        "fair": fair,
        "latency": latency,
        "name": name,
        "nice": (figures.nice),
        "still_waiting": still,
        "task": task,
        "waited": waited,
        "weight": (figures.weight)
    })
}

/// Returns the object of a task's counts.
fn counts_value(alloc: Global, figures: &TaskFigures) -> Result<Value, AllocError>
    ensures { IfOk result (λ v. view v ≡ counts_object figures.now) }
{
    json!(in alloc; {
        "migrated": (figures.migrations),
        "preempted": (figures.preemptions),
        "switches": (figures.switches),
        "wakes": (figures.wakes)
    })
}

/// Returns the object of the percentiles of a task's latencies.
fn latency_value(alloc: Global, percentiles: &Percentiles) -> Result<Value, AllocError>
    ensures { IfOk result (λ v. view v ≡ latency_object percentiles.now) }
{
    let median = number(percentiles.p50);
    let most = number(percentiles.p95);
    let nearly_all = number(percentiles.p99);
    let greatest = number(percentiles.greatest);
    json!(in alloc; {"p50": median, "p95": most, "p99": nearly_all, "max": greatest})
}

/// Returns the object of a processor in this observed time.
#[tactic(auto, unfolding(crate::specs::Objects::processor_object))]
fn processor_value(
    alloc: Global,
    number: u8,
    observed: u64,
    figures: &ProcessorFigures,
) -> Result<Value, AllocError>
    ensures { IfOk result (λ v. view v ≡ processor_object number observed figures.now) }
{
    let idle = figures.idle(observed);
    let place = hook_value(alloc, &figures.place)?;
    let preempt = hook_value(alloc, &figures.preempt)?;
    let pull = hook_value(alloc, &figures.pull)?;
    json!(in alloc; {
        "busy": (figures.busy),
        "idle": idle,
        "place": place,
        "preempt": preempt,
        "processor": number,
        "pull": pull,
        "switches": (figures.switches)
    })
}

/// Returns the object of a hook's figures.
fn hook_value(alloc: Global, figures: &HookFigures) -> Result<Value, AllocError>
    ensures { IfOk result (λ v. view v ≡ hook_object figures.now) }
{
    json!(in alloc; {
        "asked": (figures.asked),
        "overruled": (figures.overruled),
        "steps": (figures.steps)
    })
}

/// Returns the value of a text; null if there is no text.
fn text_value(alloc: Global, text: Option<&str>) -> Result<Value, AllocError>
    ensures { IfOk result (λ v. view v ≡ text_or_null (option_map (λ t. t.now) text.entry)) }
{
    match text {
        Some(text) => Value::try_from_str(alloc, text),
        None => Ok(Value::Null),
    }
}

/// Returns the value of a number; null if there is no number.
fn number(value: Option<u64>) -> Value
    ensures { view result ≡ number_or_null value }
{
    match value {
        Some(value) => Value::from(value),
        None => Value::Null,
    }
}

/// Adds the member for the wakes that did nothing, if there are any.
fn write_missed(text: &mut String, missed: u64) -> Result<(), AllocError>
    ensures { OnOk result (string_bytes text.new ≡ string_bytes text.old ++ missed_member missed) }
{
    if missed == 0 {
        return Ok(());
    }
    write!(text, ",\"missed_wakes\":{missed}")
}

/// Adds the end of the object.
fn write_end(text: &mut String) -> Result<(), AllocError>
    ensures { OnOk result (string_bytes text.new ≡ string_bytes text.old ++ codes "}\n") }
{
    text.push_str("}\n")
}

impl ScheduleForm for Json {
    /// Adds nothing: the whole object comes at the end.
    fn begin(
        &mut self,
        _schedule: &Schedule,
        _names: &Names,
        text: &mut String,
    ) -> Result<(), AllocError>
        ensures none { string_bytes text.new ≡ string_bytes text.old }
        ensures unchanged { self.new ≡ self.old }
    {
        Ok(())
    }

    /// Takes the latency of the start in a change, if there is one.
    fn add_change(
        &mut self,
        change: &Change,
        _schedule: &Schedule,
        _names: &Names,
        text: &mut String,
    ) -> Result<(), AllocError>
        ensures ok { OnOk result (TakesStart change.now.start self.old.latencies self.new.latencies) }
        ensures fault { OnErr result (HaveSameLatencies self.old.latencies self.new.latencies) }
        ensures none { string_bytes text.new ≡ string_bytes text.old }
        ensures unchanged { (self.new.window ≡ self.old.window) × (self.new.missed ≡ self.old.missed) }
    {
        self.latencies.take(change)
    }

    /// Adds the whole object. Sorts the latencies.
    fn end(
        &mut self,
        schedule: &Schedule,
        names: &Names,
        text: &mut String,
    ) -> Result<(), AllocError>
        ensures { OnOk result (GrowsByPart (IsJsonReport self.old.window names.now schedule.now self.old.latencies self.old.missed)
            (string_bytes text.old) (string_bytes text.new)) }
    {
        text.push_str(HEAD)?;
        write_tasks(
            self.alloc,
            &self.window,
            &mut self.latencies,
            schedule,
            names,
            text,
        )?;
        text.push_str("\n],\"processors\":[")?;
        write_processors(self.alloc, &self.window, schedule, text)?;
        text.push_str("\n]")?;
        write_missed(text, self.missed)?;
        write_end(text)
    }
}
