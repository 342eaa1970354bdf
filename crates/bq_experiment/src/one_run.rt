//! One run of a workload, and what is written of it.
ghost use Rattle.std.specs.Prelude.{◌≡◌, ◌≢◌, [], false, true, IfErr, IfOk, None, OnOk, string_bytes};
ghost use Rattle.bq_streams.specs.Counts.{failures_of, counted_inner};
ghost use Rattle.bq_simulate.specs.Faults.{ReportsNoOther};
ghost use Rattle.bq_simulate.specs.GoingWell.{IsCutOff};
ghost use Rattle.bq_simulate.specs.Simulations.{HasEnough, IsFollowed, IsSimulation};
ghost use Rattle.bq_simulate.specs.Texts.{image_at};
ghost use Rattle.bq_simulate.specs.declared.fault.SimulateFault.TheVariants as why;
ghost use Rattle.bq_trace.specs.TraceEvents.{Gets};
ghost use Rattle.bq_workload.specs.Soundness.{first_flaw};
ghost use Rattle.bq_experiment.specs.Faults.{IsNoEnd, IsRunFault, IsRunStopped};
ghost use Rattle.bq_experiment.specs.PoliciesAndImages.{AreOfTheirImages, image_for};
ghost use Rattle.bq_experiment.specs.Traces.{IsNamed, IsWritten, WritesTrace};
ghost use Rattle.bq_experiment.specs.Views.{AreNotesOf, IsUnviewed, IsViewed};
ghost use Rattle.bq_experiment.specs.declared.asked.ShownAs.TheVariants as shown_as;

use crate::asked::ShownAs;
use crate::fault::RunFault;
use crate::limited::Limited;
use crate::names::{report_names, show_names};
use crate::offset_viewer::OffsetViewer;
use crate::passing::Passing;
use crate::policies::Policies;
use crate::run_progress::RunProgress;
use crate::texts::Texts;
use bq_console::ProgressLine;
use bq_simulate::{Enough, SimulateFault, TraceWriter, simulate};
use bq_streams::Counted;
use bq_timeline::Settings;
use bq_timeline::viewer::Viewer;
use bq_trace::Sink;
use bq_workload::{Workload, soundness};
use std::alloc::{AllocError, Global};
use std::io::Write;

/// The streams to which a run is written: its text, its notes, and its progress.
#[derive(Drop)]
pub struct RunStreams<'a, W, E> {
    pub output: W,
    pub errors: E,
    pub progress: &'a ProgressLine<'a>,
}

/// A run that is over: the output, given back, and the last notes, or why the run has not come to its end.
#[derive(Drop)]
pub struct FinishedRun<W> {
    pub output: Counted<W>,
    pub outcome: Result<String, RunFault>,
}

/// The sink of a run: it writes what comes piece by piece, up to a limit of events.
type RunSink<'a, S, W, E> = Limited<Passing<'a, S, W, E>>;

/// Runs a workload with these policies at all processors, and writes what is asked for as it comes. A run of more events than
/// `event_limit` is cut off there, and what was written stays written, in whole lines. Notes go to standard error as they come;
/// a note that cannot be written stops nothing.
pub fn run_as<W: Write + Drop, E: Write + Drop>(
    alloc: Global,
    workload: &Workload,
    policies: &Policies,
    shown: ShownAs,
    event_limit: u64,
    streams: RunStreams<'_, W, E>,
) -> FinishedRun<W>
    ensures written { IfOk result.outcome (λ notes. IsWritten shown workload.now policies.now event_limit
        (W.contents streams.entry.output) (W.contents (counted_inner result.output)) (string_bytes notes)) }

    // After a run that came to its end no write has failed: the first failure ends a run.
    ensures writes { OnOk result.outcome (failures_of result.output ≡ 0) }

    // Each fault has its cause. A flaw that is reported is the first of the workload. The simulation of a workload without a
    // flaw fails only if memory runs out, or if 64 bits do not count the bound of its steps. Only a run with more events is cut
    // off.
    ensures fault { IfErr result.outcome (λ e. IsRunFault policies.now.loaded workload.now event_limit e (failures_of result.output)) }
{
    match shown {
        ShownAs::Trace => as_trace(alloc, workload, policies, event_limit, streams),
        ShownAs::Timeline(settings) => {
            as_timeline(alloc, workload, policies, settings, event_limit, streams)
        }
    }
}

/// Makes the sink of a run: it writes what comes, and has enough after `event_limit` events.
fn sink_of_run<'a, S, W, E>(
    workload: &Workload,
    sink: S,
    event_limit: u64,
    streams: RunStreams<'a, W, E>,
) -> RunSink<'a, S, W, E>
    ensures sink { result.sink.sink ≡ sink }
    ensures output { counted_inner result.sink.output ≡ streams.entry.output }
    ensures left { result.left ≡ event_limit }
    ensures over { result.is_over ≡ false }
{
    let RunStreams {
        output,
        errors,
        progress,
    } = streams;
    let progress = RunProgress::new(workload, progress);
    Limited::new(Passing::new(sink, output, errors, progress), event_limit)
}

/// Writes the events of a run as a trace, after comments that name the tasks.
fn as_trace<W: Write + Drop, E: Write + Drop>(
    alloc: Global,
    workload: &Workload,
    policies: &Policies,
    event_limit: u64,
    streams: RunStreams<'_, W, E>,
) -> FinishedRun<W>
    ensures written { IfOk result.outcome (λ notes. IsWritten shown_as.Trace workload.now policies.now event_limit
        (W.contents streams.entry.output) (W.contents (counted_inner result.output)) (string_bytes notes)) }
    ensures writes { OnOk result.outcome (failures_of result.output ≡ 0) }
    ensures fault { IfErr result.outcome (λ e. IsRunFault policies.now.loaded workload.now event_limit e (failures_of result.output)) }
{
    let writer = TraceWriter::new(alloc, policies.images());
    let mut run = sink_of_run(workload, writer, event_limit, streams);
    let outcome = match write_trace(alloc, workload, policies, &mut run) {
        Ok(()) => Ok(String::new(alloc)),
        Err(fault) => Err(fault),
    };
    let passing = run.sink;
    FinishedRun {
        output: passing.into_output(),
        outcome,
    }
}

/// Writes a trace to its end.
fn write_trace<W: Write, E: Write>(
    alloc: Global,
    workload: &Workload,
    policies: &Policies,
    run: &mut RunSink<'_, TraceWriter<'_>, W, E>,
) -> Result<(), RunFault>
    requires empty { string_bytes run.old.sink.sink.text ≡ [] }
    requires images { image_at run.old.sink.sink.images ≡ image_for policies.now.images }
    requires over { run.old.is_over ≡ false }
    ensures written { OnOk result (WritesTrace workload.now policies.now.loaded (image_for policies.now.images) run.old.left
        (W.contents (counted_inner run.old.sink.output)) (W.contents (counted_inner run.new.sink.output))) }
    ensures writes { OnOk result (failures_of run.new.sink.output ≡ 0) }
    ensures fault { IfErr result (λ e. IsRunFault policies.now.loaded workload.now run.old.left e (failures_of run.new.sink.output)) }
{
    match simulate_into(alloc, workload, policies, run) {
        Ok(()) => {}
        Err(fault) => return Err(write_rest(run, fault)),
    }
    match run.sink.write_text() {
        Ok(()) => Ok(()),
        Err(_) => Err(RunFault::Write),
    }
}

/// Simulates the workload before a sink, which gets the names of the tasks first.
fn simulate_into<S: Sink + Enough>(
    alloc: Global,
    workload: &Workload,
    policies: &Policies,
    sink: &mut S,
) -> Result<(), SimulateFault>
    ensures reported { OnOk result (Gets S.takes sink.old sink.new (IsNamed workload.now (IsSimulation policies.now.loaded workload.now))) }
    ensures wants { OnOk result (S.has_enough sink.new ≡ false) }
    ensures enough { IfErr result (λ e. e ≡ why.Enough → (first_flaw workload.now ≡ None)
        × HasEnough S.takes S.has_enough (IsNamed workload.now (IsFollowed true policies.now.loaded workload.now)) sink.old sink.new) }
    ensures sound { OnOk result (first_flaw workload.now ≡ None) }
    ensures of_images { OnOk result (AreOfTheirImages policies.now) }
    ensures flaw { IfErr result (ReportsNoOther workload.now) }
    ensures ends { first_flaw workload.now ≡ None → IfErr result (IsCutOff workload.now) }
    ensures unreported { first_flaw workload.now ≢ None → sink.new ≡ sink.old }
{
    soundness(workload).map_err(SimulateFault::Unsound)?;
    report_names(alloc, workload, sink)?;
    simulate(alloc, workload, policies.loaded(), sink)?;
    Ok(())
}

/// Returns the fault of a run, by the fault of its simulation. If the run was cut off, what has come is written first.
fn write_rest<S: Texts, W: Write, E: Write>(
    run: &mut RunSink<'_, S, W, E>,
    fault: SimulateFault,
) -> RunFault
    ensures { IsRunStopped (λ why. why ≡ fault) result (failures_of run.new.sink.output) }
{
    if let SimulateFault::Enough = fault {
        return match run.sink.write_text() {
            Ok(()) => RunFault::TooManyEvents,
            Err(_) => RunFault::Write,
        };
    }
    if run.sink.is_failed {
        return RunFault::Write;
    }
    RunFault::Simulation(fault)
}

/// Shows the schedule of a run by these settings.
fn as_timeline<W: Write + Drop, E: Write + Drop>(
    alloc: Global,
    workload: &Workload,
    policies: &Policies,
    settings: Settings,
    event_limit: u64,
    streams: RunStreams<'_, W, E>,
) -> FinishedRun<W>
    ensures written { IfOk result.outcome (λ notes. AreNotesOf policies.now.loaded workload.now event_limit (string_bytes notes)) }
    ensures writes { OnOk result.outcome (failures_of result.output ≡ 0) }
    ensures fault { IfErr result.outcome (λ e. IsRunFault policies.now.loaded workload.now event_limit e (failures_of result.output)) }
{
    let viewer = Viewer::new(alloc, settings);
    let mut run = sink_of_run(
        workload,
        OffsetViewer { viewer, offset: 0 },
        event_limit,
        streams,
    );
    let outcome = write_timeline(alloc, workload, policies, &mut run);
    let passing = run.sink;
    FinishedRun {
        output: passing.into_output(),
        outcome,
    }
}

/// Writes a timeline to its end. Returns the notes for standard error.
fn write_timeline<W: Write, E: Write>(
    alloc: Global,
    workload: &Workload,
    policies: &Policies,
    run: &mut RunSink<'_, OffsetViewer, W, E>,
) -> Result<String, RunFault>
    requires { IsUnviewed run.old }
    ensures written { IfOk result (λ notes. AreNotesOf policies.now.loaded workload.now run.old.left (string_bytes notes)) }
    ensures writes { OnOk result (failures_of run.new.sink.output ≡ 0) }
    ensures fault { IfErr result (λ e. IsRunFault policies.now.loaded workload.now run.old.left e (failures_of run.new.sink.output)) }
{
    let notes = match view(alloc, workload, policies, run) {
        Ok(notes) => notes,
        Err(fault) => return Err(write_rest(run, fault)),
    };
    match run.sink.write_text() {
        Ok(()) => Ok(notes),
        Err(_) => Err(RunFault::Write),
    }
}

/// Runs the workload before a viewer, which gets the names of the tasks first. Returns the notes for standard error.
fn view<W: Write, E: Write>(
    alloc: Global,
    workload: &Workload,
    policies: &Policies,
    run: &mut RunSink<'_, OffsetViewer, W, E>,
) -> Result<String, SimulateFault>
    requires { IsUnviewed run.old }
    ensures notes { IfOk result (λ notes. AreNotesOf policies.now.loaded workload.now run.old.left (string_bytes notes)) }
    ensures fault { IfErr result (IsNoEnd policies.now.loaded workload.now run.old.left) }
{
    feed_viewer(alloc, workload, policies, run)?;
    let passing = &mut run.sink;
    let below = &mut passing.sink;
    below.viewer.end()?;
    Ok(below.viewer.screen.notes.clone()?)
}

/// Runs the simulation before the viewer, which is not ended yet.
fn feed_viewer<W: Write, E: Write>(
    alloc: Global,
    workload: &Workload,
    policies: &Policies,
    run: &mut RunSink<'_, OffsetViewer, W, E>,
) -> Result<(), SimulateFault>
    requires { IsUnviewed run.old }
    ensures viewed { OnOk result (IsViewed policies.now.loaded workload.now run.old.left run.new.sink.sink.viewer) }
    ensures fault { IfErr result (IsNoEnd policies.now.loaded workload.now run.old.left) }
{
    let passing = &mut run.sink;
    name_tasks(alloc, workload, &mut passing.sink)?;
    let counts = simulate(alloc, workload, policies.loaded(), run)?;
    let passing = &mut run.sink;
    let below = &mut passing.sink;
    below.viewer.count_missed(counts.missed);
    Ok(())
}

/// Names the tasks to the viewer. From then on each line number is higher by the number of these comments.
fn name_tasks(
    alloc: Global,
    workload: &Workload,
    below: &mut OffsetViewer,
) -> Result<(), AllocError>
    ensures schedule { below.new.viewer.schedule ≡ below.old.viewer.schedule }
    ensures bad_or_refused { below.new.viewer.bad_or_refused ≡ below.old.viewer.bad_or_refused }
{
    below.offset = show_names(alloc, workload, &mut below.viewer)?;
    Ok(())
}
