//! The runs as `perf sched timehist` lists them.
ghost use Rattle.std.specs.Prelude.{◌≡◌, ◌↔◌, ◌++◌, ◌/◌, List, ℕ, Option, IsTrue, OnOk, string_bytes};
ghost use Rattle.bq_schedule.specs.declared.change.Start.{Start};
ghost use Rattle.bq_schedule.specs.declared.change.Stop.{Stop};
ghost use Rattle.bq_schedule.specs.declared.change.Wake.{Wake};
ghost use Rattle.bq_report.specs.Columns.{moment_columns, run_columns, thousandths_cell};
ghost use Rattle.bq_report.specs.Names.{name_of};
ghost use Rattle.bq_report.specs.Timehist.{AreLastLines, awakened_text, IsShownRunner, IsShownStop, change_text, head_lines, migration_text, named_task, origin_text, runner_columns, runner_text, stop_text, target_text, wake_text};
ghost use Rattle.bq_report.specs.Windows.{IsShownMigration, IsShownWake, Shows};

use crate::amounts::Decimals;
use crate::form::ScheduleForm;
use crate::names::Names;
use crate::tables::write_task;
use crate::window::Window;
use bq_disc::limits::PROCESSORS;
use bq_schedule::{Change, ProcessorFigures, Schedule, Start, Stop, Wake};
use std::alloc::AllocError;
use std::marker::Model;

/// The head above the lines.
pub const HEAD: &str = concat!(
    "           time    cpu  task                  wait time  sch delay   run time\n",
    "                                                 (msec)     (msec)     (msec)\n",
    "--------------- ------  --------------------  ---------  ---------  ---------\n"
);

/// A line for each time that a task ran, at the moment at which it stopped, and lines that mark wakes and migrations. The lines are in
/// the order of the trace. A task that still runs when the trace ends has a line at the end. Contracts see the form's window.
#[derive(Drop)]
pub struct Timehist {
    window: Window,
}

impl Model for Timehist {
    ghost use Rattle.bq_report.specs.declared.window.Window.{Window};

    ghost Value = { Window };

    ghost view = { λ t. t.window };
}

impl Timehist {
    /// Returns a form for the lines of the window.
    pub fn new(window: Window) -> Timehist
        ensures { result ≡ window }
    {
        Timehist { window }
    }

    /// Returns the end of a run, if it is shown.
    fn shown_stop(&self, stop: Option<Stop>) -> Option<Stop>
        ensures { IsShownStop self.now stop result }
    {
        let stop = stop?;
        if self.shows_run(&stop.start, stop.at) {
            Some(stop)
        } else {
            None
        }
    }

    /// Tells whether a run is shown that ends at this moment.
    fn shows_run(&self, start: &Start, at: u64) -> bool
        ensures { IsTrue result ↔ Shows self.now start.now.processor start.now.task at }
    {
        self.window.shows(start.processor, start.task, at)
    }
}

/// Adds the lines of a change: of its wake, of the run that it ends, and of the migration with which another begins, if there are any.
fn write_change(
    text: &mut String,
    wake: Option<Wake>,
    stop: Option<Stop>,
    migration: Option<Start>,
    schedule: &Schedule,
    names: &Names,
) -> Result<(), AllocError>
    ensures { OnOk result (string_bytes text.new ≡ string_bytes text.old ++ change_text names.now schedule.now wake stop migration) }
{
    write_wake(text, wake, schedule, names)?;
    write_stop(text, stop, names)?;
    write_migration(text, migration, names)
}

/// Adds the line of a wake, if there is one.
fn write_wake(
    text: &mut String,
    wake: Option<Wake>,
    schedule: &Schedule,
    names: &Names,
) -> Result<(), AllocError>
    ensures { OnOk result (string_bytes text.new ≡ string_bytes text.old ++ wake_text names.now schedule.now wake) }
{
    let Some(wake) = wake else {
        return Ok(());
    };
    write_moment(text, wake.at, wake.from)?;
    write_runner(text, schedule.processor(wake.from).running, names)?;
    write_awakened(text, &wake, names)
}

/// Adds which task a wake wakes, and the processor on which the task is placed.
fn write_awakened(text: &mut String, wake: &Wake, names: &Names) -> Result<(), AllocError>
    ensures { OnOk result (string_bytes text.new ≡ string_bytes text.old ++ awakened_text names.now wake.now) }
{
    text.push_str("  awakened: ")?;
    write_named(text, wake.task, names)?;
    write_target(text, wake.to)
}

/// Adds the processor on which a woken task is placed, and ends the line.
fn write_target(text: &mut String, processor: u8) -> Result<(), AllocError>
    ensures { OnOk result (string_bytes text.new ≡ string_bytes text.old ++ target_text processor) }
{
    write!(text, " on cpu {processor}\n")
}

/// Adds the running task, in the columns of a task.
fn write_runner(text: &mut String, running: Option<Start>, names: &Names) -> Result<(), AllocError>
    ensures { OnOk result (string_bytes text.new ≡ string_bytes text.old ++ runner_columns names.now running) }
{
    match running {
        Some(start) => write_task(text, start.task, names.text(start.task)),
        None => text.push_str("<idle>              "),
    }
}

/// Adds the line of a run that ended, if there is one.
fn write_stop(text: &mut String, stop: Option<Stop>, names: &Names) -> Result<(), AllocError>
    ensures { OnOk result (string_bytes text.new ≡ string_bytes text.old ++ stop_text names.now stop) }
{
    let Some(stop) = stop else {
        return Ok(());
    };
    let start = stop.start;
    write_run(text, &start, stop.at, names.text(start.task))?;
    text.push_str("\n")
}

/// Adds the line of a migration, if there is one.
fn write_migration(text: &mut String, start: Option<Start>, names: &Names) -> Result<(), AllocError>
    ensures { OnOk result (string_bytes text.new ≡ string_bytes text.old ++ migration_text names.now start) }
{
    let Some(start) = start else {
        return Ok(());
    };
    write_moment(text, start.at, start.processor)?;
    write_task(text, start.task, names.text(start.task))?;
    write_origin(text, &start)
}

/// Adds from which processor a task migrates to which, if it ran before.
fn write_origin(text: &mut String, start: &Start) -> Result<(), AllocError>
    ensures { OnOk result (string_bytes text.new ≡ string_bytes text.old ++ origin_text start.now) }
{
    let Some(before) = start.before else {
        return Ok(());
    };
    let processor = start.processor;
    write!(text, "  migrated: cpu {before} => {processor}\n")
}

/// Adds the lines of the shown runs that still go on when the schedule ends.
fn write_runners(
    window: &Window,
    schedule: &Schedule,
    names: &Names,
    text: &mut String,
) -> Result<(), AllocError>
    ensures { OnOk result ((lines : List ℕ) × AreLastLines window.now names.now schedule.now PROCESSORS lines
        × (string_bytes text.new ≡ string_bytes text.old ++ lines)) }
{
    for number in 0..PROCESSORS {
        let figures = schedule.processor(number);
        write_runner_at(window, number, &figures, names, text)?;
    }
    Ok(())
}

/// Adds the line of the run that goes on at a processor, if there is one and it is shown.
fn write_runner_at(
    window: &Window,
    processor: u8,
    figures: &ProcessorFigures,
    names: &Names,
    text: &mut String,
) -> Result<(), AllocError>
    ensures { OnOk result ((part : Option Start) × IsShownRunner window.now processor figures.now.last figures.now.running part
        × (string_bytes text.new ≡ string_bytes text.old ++ runner_text names.now figures.now.last part)) }
{
    let runner = shown_runner(window, processor, figures.last, figures.running);
    write_run_on(text, runner, figures.last, names)
}

/// Returns the start of the task that runs on at a processor, if it is shown.
fn shown_runner(window: &Window, processor: u8, last: u64, running: Option<Start>) -> Option<Start>
    ensures { IsShownRunner window.now processor last running result }
{
    let start = running?;
    if window.shows(processor, start.task, last) {
        Some(start)
    } else {
        None
    }
}

/// Adds the line of a run that goes on, if there is one.
fn write_run_on(
    text: &mut String,
    start: Option<Start>,
    last: u64,
    names: &Names,
) -> Result<(), AllocError>
    ensures { OnOk result (string_bytes text.new ≡ string_bytes text.old ++ runner_text names.now last start) }
{
    let Some(start) = start else {
        return Ok(());
    };
    write_run(text, &start, last, names.text(start.task))?;
    text.push_str("  runs on\n")
}

/// Adds the columns of a run with this start that ends at this moment.
fn write_run(text: &mut String, start: &Start, at: u64, name: &str) -> Result<(), AllocError>
    ensures { OnOk result (string_bytes text.new ≡ string_bytes text.old ++ run_columns start.now at name.now) }
{
    write_moment(text, at, start.processor)?;
    write_task(text, start.task, name)?;
    write_short_millis(text, start.waited)?;
    write_short_millis(text, start.latency.unwrap_or(0))?;
    write_short_millis(text, at.saturating_sub(start.at))
}

/// Adds a moment in seconds, and a processor.
fn write_moment(text: &mut String, at: u64, processor: u8) -> Result<(), AllocError>
    ensures { OnOk result (string_bytes text.new ≡ string_bytes text.old ++ moment_columns at processor) }
{
    let whole = at / 1_000_000_000;
    let part = at / 1000 % 1_000_000;
    write!(text, "{whole:>8}.{part:06} [{processor:04}]  ")
}

/// Adds a task's number, and its name if it has one.
fn write_named(text: &mut String, task: u16, names: &Names) -> Result<(), AllocError>
    ensures { OnOk result (string_bytes text.new ≡ string_bytes text.old ++ named_task task (name_of names.now task)) }
{
    match names.of(task) {
        Some(name) => write!(text, "{task} {name}"),
        None => write!(text, "{task}"),
    }
}

/// Adds a time as milliseconds, in 11 columns: wider if needed, always after a space.
fn write_short_millis(text: &mut String, time: u64) -> Result<(), AllocError>
    ensures { OnOk result (string_bytes text.new ≡ string_bytes text.old ++ thousandths_cell 6 (time / 1000)) }
{
    let thousandths = time / 1000;
    let whole = thousandths / 1000;
    let decimals = Decimals(thousandths);
    write!(text, " {whole:>6}.{decimals}")
}

impl ScheduleForm for Timehist {
    /// Adds the head above the lines.
    fn begin(
        &mut self,
        _schedule: &Schedule,
        _names: &Names,
        text: &mut String,
    ) -> Result<(), AllocError>
        ensures head { OnOk result (string_bytes text.new ≡ string_bytes text.old ++ head_lines) }
        ensures unchanged { self.new ≡ self.old }
    {
        text.push_str(HEAD)
    }

    /// Adds the lines of a change, of what is shown of it.
    fn add_change(
        &mut self,
        change: &Change,
        schedule: &Schedule,
        names: &Names,
        text: &mut String,
    ) -> Result<(), AllocError>
        ensures lines { OnOk result ((wake : Option Wake) × (stop : Option Stop) × (migration : Option Start)
            × IsShownWake self.old change.now.wake wake × IsShownStop self.old change.now.stop stop × IsShownMigration self.old change.now.start migration
            × (string_bytes text.new ≡ string_bytes text.old ++ change_text names.now schedule.now wake stop migration)) }
        ensures unchanged { self.new ≡ self.old }
    {
        let wake = self.window.shown_wake(change.wake);
        let stop = self.shown_stop(change.stop);
        let migration = self.window.shown_migration(change.start);
        write_change(text, wake, stop, migration, schedule, names)
    }

    /// Adds the lines of the shown runs that still go on.
    fn end(
        &mut self,
        schedule: &Schedule,
        names: &Names,
        text: &mut String,
    ) -> Result<(), AllocError>
        ensures lines { OnOk result ((lines : List ℕ) × AreLastLines self.old names.now schedule.now PROCESSORS lines
            × (string_bytes text.new ≡ string_bytes text.old ++ lines)) }
        ensures unchanged { self.new ≡ self.old }
    {
        write_runners(&self.window, schedule, names, text)
    }
}
