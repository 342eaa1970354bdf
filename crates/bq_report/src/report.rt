//! The report: tables of the tasks, of their latencies, of the processors and of the policies.
ghost use Rattle.std.specs.Prelude.{◌≡◌, ◌↔◌, ◌++◌, ℕ, [], IsTrue, OnOk, OnErr, string_bytes};
ghost use Rattle.bq_schedule.specs.WakeLatencies.{HaveSameLatencies, TakesStart, latencies_of};
ghost use Rattle.bq_report.specs.Reports.{GrowsByPart, IsHookTable, IsLatencyLine, IsProcessorLine, IsReport, IsTable, IsTaskLine, WasAsked, hook_head_unless, latency_head, processor_head, task_head};
ghost use Rattle.bq_report.specs.Windows.{ShowsProcessor};

use crate::form::ScheduleForm;
use crate::names::Names;
use crate::tables::{
    HOOK_HEAD, LATENCY_HEAD, PROCESSOR_HEAD, TASK_HEAD, nanoseconds, write_hook_lines,
    write_latency_line, write_missed_line, write_processor_line, write_task_line,
};
use crate::waits::still_waiting;
use crate::window::Window;
use bq_disc::limits::{PROCESSORS, TASKS};
use bq_schedule::{Change, ProcessorFigures, Schedule, WakeLatencies};
use std::alloc::{AllocError, Global};

/// The figures of a whole trace, in tables. The window chooses which tasks and processors have lines. The window's stretch of time
/// changes no figure. The report holds the latency of each wake.
#[derive(Drop)]
pub struct Report {
    window: Window,
    latencies: WakeLatencies,
    missed: u64,
}

impl Report {
    /// Returns a report of the tasks and processors in the window.
    pub fn new(alloc: Global, window: Window) -> Report
        ensures window { result.window ≡ window }
        ensures latencies { (task : ℕ) → latencies_of result.latencies task ≡ [] }
        ensures missed { result.missed ≡ 0 }
    {
        Report {
            window,
            latencies: WakeLatencies::new(alloc),
            missed: 0,
        }
    }

    /// Notes how many wakes did nothing because their task did not wait. A simulation counts these wakes; no trace shows them.
    pub fn count_missed(&mut self, wakes: u64)
        ensures { self.new ≡ record self.old { missed = wakes } }
    {
        self.missed = wakes;
    }
}

/// Adds the table of the tasks.
fn write_tasks(
    window: &Window,
    schedule: &Schedule,
    names: &Names,
    text: &mut String,
) -> Result<(), AllocError>
    ensures { OnOk result (GrowsByPart (IsTable task_head (IsTaskLine window.now names.now schedule.now) TASKS)
        (string_bytes text.old) (string_bytes text.new)) }
{
    text.push_str(TASK_HEAD)?;
    for task in 0..TASKS {
        write_task_if(window, schedule, names, task, text)?;
    }
    Ok(())
}

/// Adds the line of a task, if it has one.
fn write_task_if(
    window: &Window,
    schedule: &Schedule,
    names: &Names,
    task: u16,
    text: &mut String,
) -> Result<(), AllocError>
    ensures { OnOk result (GrowsByPart (IsTaskLine window.now names.now schedule.now task) (string_bytes text.old) (string_bytes text.new)) }
{
    if !window.has_task(schedule, task) {
        return Ok(());
    }
    let figures = schedule.task(task);
    let fair = nanoseconds(schedule.fair_time(task));
    write_task_line(text, task, names.text(task), &figures, fair)
}

/// Adds the table of the tasks' latencies. Sorts the latencies.
fn write_latencies(
    window: &Window,
    latencies: &mut WakeLatencies,
    schedule: &Schedule,
    names: &Names,
    text: &mut String,
) -> Result<(), AllocError>
    ensures { OnOk result (GrowsByPart
        (IsTable latency_head (λ id. IsLatencyLine window.now names.now schedule.now (latencies_of latencies.old id) id) TASKS)
        (string_bytes text.old) (string_bytes text.new)) }
{
    text.push_str(LATENCY_HEAD)?;
    for task in 0..TASKS {
        write_latency_if(window, latencies, schedule, names, task, text)?;
    }
    Ok(())
}

/// Adds the line of a task's latencies, if it has one. Sorts this task's latencies, and no other task's.
fn write_latency_if(
    window: &Window,
    latencies: &mut WakeLatencies,
    schedule: &Schedule,
    names: &Names,
    task: u16,
    text: &mut String,
) -> Result<(), AllocError>
    ensures line { OnOk result (GrowsByPart (IsLatencyLine window.now names.now schedule.now (latencies_of latencies.old task) task)
        (string_bytes text.old) (string_bytes text.new)) }
    ensures others { (other : ℕ) → ¬ (other ≡ task) → latencies_of latencies.new other ≡ latencies_of latencies.old other }
{
    if !window.has_task(schedule, task) {
        return Ok(());
    }
    let percentiles = latencies.percentiles(task);
    let figures = schedule.task(task);
    let still = still_waiting(schedule, task);
    write_latency_line(
        text,
        task,
        names.text(task),
        figures.wakes,
        &percentiles,
        still,
    )
}

/// Adds the table of the processors.
fn write_processors(
    window: &Window,
    schedule: &Schedule,
    text: &mut String,
) -> Result<(), AllocError>
    ensures { OnOk result (GrowsByPart (IsTable processor_head (IsProcessorLine window.now schedule.now) PROCESSORS)
        (string_bytes text.old) (string_bytes text.new)) }
{
    text.push_str(PROCESSOR_HEAD)?;
    for number in 0..PROCESSORS {
        write_processor_if(window, schedule, number, text)?;
    }
    Ok(())
}

/// Adds the line of a processor, if it has one.
fn write_processor_if(
    window: &Window,
    schedule: &Schedule,
    number: u8,
    text: &mut String,
) -> Result<(), AllocError>
    ensures { OnOk result (GrowsByPart (IsProcessorLine window.now schedule.now number) (string_bytes text.old) (string_bytes text.new)) }
{
    if !window.has_processor(schedule, number) {
        return Ok(());
    }
    let observed = schedule.observed_time();
    write_processor_line(text, number, observed, &schedule.processor(number))
}

/// Adds the table of the policies that were asked. Adds nothing if no policy was asked.
fn write_policies(window: &Window, schedule: &Schedule, text: &mut String) -> Result<(), AllocError>
    ensures { OnOk result (GrowsByPart (IsHookTable window.now schedule.now) (string_bytes text.old) (string_bytes text.new)) }
{
    let mut has_head = false;
    for number in 0..PROCESSORS {
        let figures = schedule.processor(number);
        if has_hooks(window, number, &figures) {
            write_hook_head(text, has_head)?;
            write_hook_lines(text, number, &figures)?;
            has_head = true;
        }
    }
    Ok(())
}

/// Adds the head of the table of policies, unless the text has it already.
fn write_hook_head(text: &mut String, has_head: bool) -> Result<(), AllocError>
    ensures { OnOk result (string_bytes text.new ≡ string_bytes text.old ++ hook_head_unless has_head) }
{
    if has_head {
        return Ok(());
    }
    text.push_str(HOOK_HEAD)
}

/// Tells whether a processor has lines for its hooks: it is shown, and a policy was asked there.
fn has_hooks(window: &Window, number: u8, figures: &ProcessorFigures) -> bool
    ensures { IsTrue result ↔ (ShowsProcessor window.now number × WasAsked figures.now) }
{
    window.shows_processor(number) && was_asked(figures)
}

/// Tells whether a policy was asked at a hook of a processor.
fn was_asked(figures: &ProcessorFigures) -> bool
    ensures { IsTrue result ↔ WasAsked figures.now }
{
    figures.place.asked > 0 || figures.preempt.asked > 0 || figures.pull.asked > 0
}

impl ScheduleForm for Report {
    /// Adds nothing: the tables come at the end.
    fn begin(
        &mut self,
        _schedule: &Schedule,
        _names: &Names,
        text: &mut String,
    ) -> Result<(), AllocError>
        ensures none { string_bytes text.new ≡ string_bytes text.old }
        ensures unchanged { self.new ≡ self.old }
    {
        Ok(())
    }

    /// Takes the latency of the start in a change, if there is one.
    fn add_change(
        &mut self,
        change: &Change,
        _schedule: &Schedule,
        _names: &Names,
        text: &mut String,
    ) -> Result<(), AllocError>
        ensures ok { OnOk result (TakesStart change.now.start self.old.latencies self.new.latencies) }
        ensures fault { OnErr result (HaveSameLatencies self.old.latencies self.new.latencies) }
        ensures none { string_bytes text.new ≡ string_bytes text.old }
        ensures unchanged { (self.new.window ≡ self.old.window) × (self.new.missed ≡ self.old.missed) }
    {
        self.latencies.take(change)
    }

    /// Adds the tables. Sorts the latencies.
    fn end(
        &mut self,
        schedule: &Schedule,
        names: &Names,
        text: &mut String,
    ) -> Result<(), AllocError>
        ensures { OnOk result (GrowsByPart (IsReport self.old.window names.now schedule.now self.old.latencies self.old.missed)
            (string_bytes text.old) (string_bytes text.new)) }
    {
        write_tasks(&self.window, schedule, names, text)?;
        text.push_str("\n")?;
        write_latencies(&self.window, &mut self.latencies, schedule, names, text)?;
        write_missed_line(text, self.missed)?;
        text.push_str("\n")?;
        write_processors(&self.window, schedule, text)?;
        write_policies(&self.window, schedule, text)
    }
}
