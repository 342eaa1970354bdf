//! The trace format that ui.perfetto.dev and chrome://tracing open.
ghost use Rattle.std.specs.Prelude.{◌≡◌, ◌↔◌, ◌++◌, Option, IfOk, IsTrue, OnOk, codes, length, option_map, string_bytes};
ghost use Rattle.bq_disc.specs.declared.limits.TheConstants.{TASKS};
ghost use Rattle.serde_json.specs.View.{view};
ghost use Rattle.serde_json.specs.Written.{compact_text};
ghost use Rattle.bq_schedule.specs.declared.slice.Slice.{Slice};
ghost use Rattle.bq_report.specs.Names.{name_of};
ghost use Rattle.bq_report.specs.Reports.{GrowsByPart};
ghost use Rattle.bq_report.specs.Windows.{IsShownPart};
ghost use Rattle.bq_drawing.specs.Events.{act_name, json_text, label_of, run_name, run_object};
ghost use Rattle.bq_drawing.specs.PastEvents.{next_arrow, empty_past};
ghost use Rattle.bq_drawing.specs.Runs.{run_on};
ghost use Rattle.bq_drawing.specs.Perfetto.{IsPerfettoHead, IsPerfettoOf, IsPerfettoTail, ShowsChange, IsShownDecision, IsShownPull, IsShownReading, ShowsMoment, left_run, past_reading, past_start, past_stop, past_wake, perfetto_count, perfetto_end, perfetto_ends, perfetto_ends_if, perfetto_migration, perfetto_overruled, perfetto_pull, perfetto_reading, perfetto_run, perfetto_wake};

use crate::events::{
    EVENTS, task_args, write_beginning, write_counter, write_end, write_mark, write_overruled,
    write_run_event, write_tracks,
};
use crate::past_events::{Arrows, PastEvents};
use crate::runs::{ended_run, run_on};
use bq_disc::limits::PROCESSORS;
use bq_report::{Names, ScheduleForm, Window};
use bq_schedule::{
    Change, ClockReading, Decision, ProcessorFigures, PulledTask, Schedule, Slice, Start, Stop,
    TaskFigures, Wake,
};
use serde_json::{Value, json};
use std::alloc::{AllocError, Global};

/// Two tracks for each processor. On one track a slice is a run. On the other, the track of events, a slice of one nanosecond is a wake
/// that ended there or a pull by the processor, and an instant is a policy's answer that was overruled.
///
/// An arrow leads from each wake to the task's first run after it. It begins at the wake and not at the task that runs there, because a
/// timer may have woken the task. An arrow leads from the end of a run to the task's next run, if that is at another processor. A
/// counter shows how many tasks are runnable at each processor.
///
/// The form is streamed. The events of a track are in the order of their times, except for the beginning of a migration's arrow, which
/// is known only later.
#[derive(Drop)]
pub struct Perfetto {
    alloc: Global,
    window: Window,
    history: PastEvents,
}

/// The parts of a change that are shown.
#[derive(Clone, Copy)]
struct ShownParts {
    overruled: Option<Decision>,
    wake: Option<Wake>,
    pull: Option<PulledTask>,
    run: Option<Slice>,
    migration: Option<Start>,
    reading: Option<ClockReading>,
}

impl Perfetto {
    /// Returns a form for what is in the window.
    pub fn new(alloc: Global, window: Window) -> Perfetto
        ensures window { result.window ≡ window }
        ensures history { result.history ≡ empty_past 0 0 }
    {
        Perfetto {
            alloc,
            window,
            history: PastEvents::new(alloc),
        }
    }

    /// Adds a wake and the beginning of its arrow to the text, if the wake is shown. Notes the wake in any case.
    fn add_wake(
        &mut self,
        wake: Option<Wake>,
        shown: Option<Wake>,
        names: &Names,
        text: &mut String,
    ) -> Result<(), AllocError>
        ensures history { self.new ≡ record self.old { history = past_wake wake shown self.old.history } }
        ensures text { OnOk result (string_bytes text.new
            ≡ string_bytes text.old ++ perfetto_wake names.now (next_arrow self.old.history) shown) }
    {
        let arrow = self.history.next_arrow();
        if let Some(wake) = wake {
            self.history.note_wake(wake.task, shown.is_some());
        }
        write_wake(self.alloc, shown, arrow, names, text)
    }

    /// Adds the shown part of the run that ends, and notes that part.
    fn add_stop(
        &mut self,
        stop: Option<Stop>,
        shown: Option<Slice>,
        schedule: &Schedule,
        names: &Names,
        text: &mut String,
    ) -> Result<(), AllocError>
        ensures history { OnOk result (self.new ≡ record self.old { history = past_stop stop shown self.old.history }) }
        ensures text { OnOk result (string_bytes text.new
            ≡ string_bytes text.old ++ perfetto_run names.now schedule.now self.old.history (option_map (λ s. s.start) stop) shown) }
    {
        let Some(stop) = stop else {
            return Ok(());
        };
        self.write_run(Some(stop.start), shown, schedule, names, text)?;
        self.history.note_run(stop.start.task, shown);
        Ok(())
    }

    /// Adds the beginning of the arrow to a run that is a migration. Notes the start in any case.
    fn add_start(
        &mut self,
        start: Option<Start>,
        migration: Option<Start>,
        text: &mut String,
    ) -> Result<(), AllocError>
        ensures history { self.new ≡ record self.old { history = past_start start migration self.old.history } }
        ensures text { OnOk result (string_bytes text.new
            ≡ string_bytes text.old ++ perfetto_migration (next_arrow self.old.history) (left_run self.old.history migration)) }
    {
        let arrow = self.history.next_arrow();
        let run = self.left_run(migration);
        if let Some(start) = start {
            self.history
                .note_start(start.processor, start.task, run.is_some());
        }
        write_migration(arrow, run, text)
    }

    /// Adds how many tasks are runnable at a processor, if the number has changed, and notes it.
    fn add_reading(
        &mut self,
        reading: Option<ClockReading>,
        schedule: &Schedule,
        text: &mut String,
    ) -> Result<(), AllocError>
        ensures history { self.new ≡ record self.old { history = past_reading schedule.now reading self.old.history } }
        ensures text { OnOk result (string_bytes text.new
            ≡ string_bytes text.old ++ perfetto_reading schedule.now self.old.history reading) }
    {
        let Some(reading) = reading else {
            return Ok(());
        };
        let reported = self.history.written_count(reading.processor);
        let count = schedule.processor(reading.processor).runnable;
        self.history.note_count(reading.processor, count);
        write_count(&reading, count, reported, text)
    }

    /// Returns the run from whose end an arrow leads to a migration, if it is shown.
    fn left_run(&self, migration: Option<Start>) -> Option<Slice>
        ensures { result ≡ left_run self.now.history migration }
    {
        let start = migration?;
        self.history.last_run(start.task)
    }

    /// Adds the shown part of a run. If it is shown from its beginning, adds the ends of the arrows that lead to it.
    fn write_run(
        &self,
        start: Option<Start>,
        run: Option<Slice>,
        schedule: &Schedule,
        names: &Names,
        text: &mut String,
    ) -> Result<(), AllocError>
        ensures { OnOk result (string_bytes text.new
            ≡ string_bytes text.old ++ perfetto_run names.now schedule.now self.now.history start run) }
    {
        let (Some(start), Some(run)) = (start, run) else {
            return Ok(());
        };
        let name = run_name(self.alloc, run.task, names)?;
        let args = run_args(self.alloc, &schedule.task(run.task), run.task, start.waited)?;
        write_run_event(&run, name.as_str(), args.as_str(), text)?;
        let arrows = self.history.arrows_to(run.processor);
        write_ends_if(run.from == start.at, arrows, &run, text)
    }

    /// Adds the shown part of the run that goes on at a processor.
    fn write_runner(
        &self,
        figures: &ProcessorFigures,
        schedule: &Schedule,
        names: &Names,
        text: &mut String,
    ) -> Result<(), AllocError>
        ensures { OnOk result ((part : Option Slice) × IsShownPart self.now.window (run_on figures.now) part
            × (string_bytes text.new
            ≡ string_bytes text.old ++ perfetto_run names.now schedule.now self.now.history figures.now.running part)) }
    {
        let part = self.window.shown_part(run_on(figures));
        self.write_run(figures.running, part, schedule, names, text)
    }
}

/// Returns the parts of a change that a window shows.
fn shown_of(window: &Window, change: &Change) -> ShownParts
    ensures { ShowsChange window.now change.now result }
{
    ShownParts {
        overruled: shown_decision(window, change.decision, change.reading),
        wake: window.shown_wake(change.wake),
        pull: shown_pull(window, change.pull),
        run: window.shown_part(ended_run(change.stop)),
        migration: window.shown_migration(change.start),
        reading: shown_reading(window, change.reading),
    }
}

/// Returns the decision, if it overruled a policy's answer and is shown.
fn shown_decision(
    window: &Window,
    decision: Option<Decision>,
    reading: Option<ClockReading>,
) -> Option<Decision>
    ensures { IsShownDecision window.now decision reading result }
{
    let (Some(decision), Some(reading)) = (decision, reading) else {
        return None;
    };
    if decision.was_overruled() && shows_moment(window, &reading) {
        Some(decision)
    } else {
        None
    }
}

/// Returns the pull, if it is shown.
fn shown_pull(window: &Window, pull: Option<PulledTask>) -> Option<PulledTask>
    ensures { IsShownPull window.now pull result }
{
    let pull = pull?;
    if window.shows(pull.to, pull.task, pull.at) {
        Some(pull)
    } else {
        None
    }
}

/// Returns the reading of a clock, if it is shown.
fn shown_reading(window: &Window, reading: Option<ClockReading>) -> Option<ClockReading>
    ensures { IsShownReading window.now reading result }
{
    let reading = reading?;
    if shows_moment(window, &reading) {
        Some(reading)
    } else {
        None
    }
}

/// Tells whether the moment of a reading is shown.
fn shows_moment(window: &Window, reading: &ClockReading) -> bool
    ensures { IsTrue result ↔ ShowsMoment window.now reading.now.processor reading.now.current }
{
    window.from <= reading.current
        && reading.current <= window.to
        && window.shows_processor(reading.processor)
}

/// Returns the name of a task, or its number if it has none.
fn label(alloc: Global, task: u16, names: &Names) -> Result<String, AllocError>
    ensures { IfOk result (λ text. string_bytes text ≡ label_of task (name_of names.now task)) }
{
    match names.of(task) {
        Some(name) => String::from_str(alloc, name),
        None => format!(in alloc; "task {task}"),
    }
}

/// Returns a text as JSON.
fn quoted(alloc: Global, text: &str) -> Result<String, AllocError>
    ensures { IfOk result (λ quoted. string_bytes quoted ≡ json_text text.now) }
{
    let value = Value::try_from_str(alloc, text)?;
    value.to_string(alloc)
}

/// Returns the name of a task's run, as JSON.
fn run_name(alloc: Global, task: u16, names: &Names) -> Result<String, AllocError>
    ensures { IfOk result (λ text. string_bytes text ≡ run_name names.now task) }
{
    let label = label(alloc, task, names)?;
    quoted(alloc, label.as_str())
}

/// Returns the name of what happens to a task, as JSON.
fn act_name(alloc: Global, act: &str, task: u16, names: &Names) -> Result<String, AllocError>
    ensures { IfOk result (λ text. string_bytes text ≡ act_name names.now act.now task) }
{
    let label = label(alloc, task, names)?;
    let name = format!(in alloc; "{act} {label}")?;
    quoted(alloc, name.as_str())
}

/// Returns the figures of a run, as JSON.
fn run_args(
    alloc: Global,
    figures: &TaskFigures,
    task: u16,
    waited: u64,
) -> Result<String, AllocError>
    ensures { IfOk result (λ text. string_bytes text ≡ compact_text (run_object figures.now task waited)) }
{
    let value = run_value(alloc, figures, task, waited)?;
    value.to_string(alloc)
}

/// Returns the object of the figures of a run.
fn run_value(
    alloc: Global,
    figures: &TaskFigures,
    task: u16,
    waited: u64,
) -> Result<Value, AllocError>
    ensures { IfOk result (λ value. view value ≡ run_object figures.now task waited) }
{
    json!(in alloc; {
        "nice": (figures.nice),
        "task": task,
        "waited_ns": waited,
        "weight": (figures.weight)
    })
}

/// Adds the instant of an answer that was overruled, if there is one.
fn write_decision(
    decision: Option<Decision>,
    reading: Option<ClockReading>,
    text: &mut String,
) -> Result<(), AllocError>
    ensures { OnOk result (string_bytes text.new ≡ string_bytes text.old ++ perfetto_overruled decision reading) }
{
    match (decision, reading) {
        (Some(decision), Some(reading)) => write_overruled(&decision, &reading, text),
        _ => Ok(()),
    }
}

/// Adds a wake and the beginning of its arrow, if there is a wake.
fn write_wake(
    alloc: Global,
    wake: Option<Wake>,
    arrow: u64,
    names: &Names,
    text: &mut String,
) -> Result<(), AllocError>
    ensures { OnOk result (string_bytes text.new ≡ string_bytes text.old ++ perfetto_wake names.now arrow wake) }
{
    let Some(wake) = wake else {
        return Ok(());
    };
    let name = act_name(alloc, "wake", wake.task, names)?;
    let args = task_args(alloc, wake.task, "to", wake.to)?;
    let track = EVENTS + u64::from(wake.from);
    write_mark("wake", name.as_str(), track, wake.at, args.as_str(), text)?;
    write_beginning("wake", arrow, track, wake.at, text)
}

/// Adds a pull, if there is one.
fn write_pull(
    alloc: Global,
    pull: Option<PulledTask>,
    names: &Names,
    text: &mut String,
) -> Result<(), AllocError>
    ensures { OnOk result (string_bytes text.new ≡ string_bytes text.old ++ perfetto_pull names.now pull) }
{
    let Some(pull) = pull else {
        return Ok(());
    };
    let name = act_name(alloc, "pull", pull.task, names)?;
    let args = task_args(alloc, pull.task, "from", pull.from)?;
    let track = EVENTS + u64::from(pull.to);
    write_mark("pull", name.as_str(), track, pull.at, args.as_str(), text)
}

/// Adds the ends of the arrows that lead to a run, if the run is shown from its beginning.
fn write_ends_if(
    is_whole: bool,
    arrows: Arrows,
    run: &Slice,
    text: &mut String,
) -> Result<(), AllocError>
    ensures { OnOk result (string_bytes text.new ≡ string_bytes text.old ++ perfetto_ends_if is_whole arrows run.now) }
{
    if is_whole {
        write_ends(arrows, run, text)
    } else {
        Ok(())
    }
}

/// Adds the ends of the arrows that lead to a run.
fn write_ends(arrows: Arrows, run: &Slice, text: &mut String) -> Result<(), AllocError>
    ensures { OnOk result (string_bytes text.new ≡ string_bytes text.old ++ perfetto_ends arrows run.now) }
{
    write_end_if("wake", arrows.wake, run, text)?;
    write_end_if("migration", arrows.migration, run, text)
}

/// Adds the end of an arrow at the beginning of a run, if there is an arrow.
fn write_end_if(
    kind: &str,
    arrow: Option<u64>,
    run: &Slice,
    text: &mut String,
) -> Result<(), AllocError>
    ensures { OnOk result (string_bytes text.new ≡ string_bytes text.old ++ perfetto_end kind.now arrow run.now) }
{
    match arrow {
        Some(arrow) => write_end(kind, arrow, run, text),
        None => Ok(()),
    }
}

/// Adds the beginning of a migration's arrow, in the last nanosecond of the run that it leads from, if there is such a run.
fn write_migration(arrow: u64, run: Option<Slice>, text: &mut String) -> Result<(), AllocError>
    ensures { OnOk result (string_bytes text.new ≡ string_bytes text.old ++ perfetto_migration arrow run) }
{
    let Some(run) = run else {
        return Ok(());
    };
    let track = u64::from(run.processor);
    let at = run.to.saturating_sub(1);
    write_beginning("migration", arrow, track, at, text)
}

/// Adds how many tasks are runnable at a processor, if the processor exists and the number differs from the one written last.
fn write_count(
    reading: &ClockReading,
    count: u64,
    reported: Option<u64>,
    text: &mut String,
) -> Result<(), AllocError>
    ensures { OnOk result (string_bytes text.new
        ≡ string_bytes text.old ++ perfetto_count reading.now.processor reading.now.current count reported) }
{
    match reported {
        Some(reported) if reported != count => write_counter(reading, count, text),
        _ => Ok(()),
    }
}

impl ScheduleForm for Perfetto {
    /// Adds the text before all events, and the tracks of the processors.
    fn begin(
        &mut self,
        schedule: &Schedule,
        _names: &Names,
        text: &mut String,
    ) -> Result<(), AllocError>
        ensures head { OnOk result (GrowsByPart (IsPerfettoHead (length schedule.now.processors)) (string_bytes text.old) (string_bytes text.new)) }
        ensures history { OnOk result (self.new ≡ record self.old { history = empty_past (length schedule.now.processors) TASKS }) }
        ensures window { self.new.window ≡ self.old.window }
    {
        self.history = PastEvents::of(self.alloc, schedule.processors())?;
        write_head(self.alloc, schedule.processors(), text)
    }

    /// Adds the events of a change, of what is shown of it.
    fn add_change(
        &mut self,
        change: &Change,
        schedule: &Schedule,
        names: &Names,
        text: &mut String,
    ) -> Result<(), AllocError>
        ensures events { OnOk result (GrowsByPart
            (IsPerfettoOf self.old.window names.now schedule.now change.now self.old.history self.new.history)
            (string_bytes text.old) (string_bytes text.new)) }
        ensures unchanged { OnOk result (self.new.window ≡ self.old.window) }
    {
        let shown = shown_of(&self.window, change);
        write_decision(shown.overruled, change.reading, text)?;
        self.add_wake(change.wake, shown.wake, names, text)?;
        write_pull(self.alloc, shown.pull, names, text)?;
        self.add_stop(change.stop, shown.run, schedule, names, text)?;
        self.add_start(change.start, shown.migration, text)?;
        self.add_reading(shown.reading, schedule, text)
    }

    /// Adds the shown parts of the runs that still go on, and the text after all events.
    fn end(
        &mut self,
        schedule: &Schedule,
        names: &Names,
        text: &mut String,
    ) -> Result<(), AllocError>
        ensures tail { OnOk result (GrowsByPart (IsPerfettoTail self.old.window names.now schedule.now self.old.history)
            (string_bytes text.old) (string_bytes text.new)) }
        ensures unchanged { self.new ≡ self.old }
    {
        for number in 0..PROCESSORS {
            let figures = schedule.processor(number);
            self.write_runner(&figures, schedule, names, text)?;
        }
        write_tail(text)
    }
}

/// Adds the text before all events, and the tracks of this many processors.
fn write_head(alloc: Global, processors: usize, text: &mut String) -> Result<(), AllocError>
    ensures { OnOk result (GrowsByPart (IsPerfettoHead processors) (string_bytes text.old) (string_bytes text.new)) }
{
    text.push_str(HEAD)?;
    for processor in 0..processors {
        write_tracks(alloc, processor as u64, text)?;
    }
    Ok(())
}

/// Adds the text after all events.
fn write_tail(text: &mut String) -> Result<(), AllocError>
    ensures { OnOk result (string_bytes text.new ≡ string_bytes text.old ++ codes "\n]}\n") }
{
    text.push_str("\n]}\n")
}

/// The text before all events.
const HEAD: &str =
    "{\"displayTimeUnit\":\"ns\",\"traceEvents\":[\n{\"ph\":\"M\",\"pid\":0,\"name\":\"process_name\",\"args\":{\"name\":\"bqsim\"}}";
