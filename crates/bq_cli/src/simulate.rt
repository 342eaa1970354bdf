//! `simulate`: a workload that is run and shown, or run with several seeds and beside other policies.
ghost use Rattle.std.specs.Prelude.{IfOk};
ghost use Rattle.clap.specs.Words.{found_of, rows_of};
ghost use Rattle.bq_cli.specs.Simulating.{AskToSimulate, AskForStudy};
ghost use Rattle.bq_cli.specs.Words.{AreHookWords, AreMachineWords, AreSimulateWords, AreStudyWords};

use crate::read_limits::{most_bytes, most_events};
use crate::refusing::refusal;
use crate::simulate_files::{read_other_policies, read_policies, read_workload};
use crate::timeline::shown_words;
use bq_comparison::{
    Comparing, ComparingFault, MachineSize, RunPlan, SeedsFault, asked_comparison, compare,
    comparison_text, size_of_machine,
};
use bq_console::status::{BAD_INPUT, IO_FAILED};
use bq_console::{
    ErasingWriter, Lines, ProgressLine, WordsFault, all_words, report_out_of_memory,
    report_unwritten, word, written,
};
use bq_experiment::{
    AskedFault, FinishedRun, HookWords, MachineWords, Policies, RunFault, RunStreams, ShownAs,
    StudyWords, asked_changes, run_as,
};
use bq_hooks::Hook;
use bq_simulate::SimulateFault;
use bq_streams::ErrorKeeper;
use bq_timeline::SettingsFault;
use bq_workload::Workload;
use bq_workload_file::Changes;
use clap::ArgMatches;
use std::alloc::{AllocError, Global};
use std::io::Error;
use std::process::ExitCode;
use std::thread::Threads;

/// The words after `simulate`.
#[derive(Drop)]
pub struct SimulateWords {
    pub study: StudyWords,
    /// The most bytes that are read of a file.
    pub max_bytes: Option<String>,
    /// The most events of a run.
    pub max_events: Option<String>,
}

/// Gathers the words that were found.
pub(crate) fn simulate_words(
    alloc: Global,
    matches: &ArgMatches<'_>,
) -> Result<SimulateWords, AllocError>
    ensures { IfOk result (AreSimulateWords (rows_of (found_of matches.now))) }
{
    let study = study_words(alloc, matches)?;
    let max_bytes = word(alloc, matches, "max-bytes")?;
    let max_events = word(alloc, matches, "max-events")?;
    Ok(SimulateWords {
        study,
        max_bytes,
        max_events,
    })
}

/// Gathers the words for the simulation, and for how it is shown.
fn study_words(alloc: Global, matches: &ArgMatches<'_>) -> Result<StudyWords, AllocError>
    ensures { IfOk result (AreStudyWords (rows_of (found_of matches.now))) }
{
    let machine = machine_words(alloc, matches)?;
    let seeds = word(alloc, matches, "seeds")?;
    let hooks = hook_words(alloc, matches)?;
    let against = all_words(alloc, matches, "against")?;
    let shown = shown_words(alloc, matches)?;
    Ok(StudyWords {
        machine,
        seeds,
        hooks,
        against,
        shown,
    })
}

/// Gathers the words for the machine.
fn machine_words(alloc: Global, matches: &ArgMatches<'_>) -> Result<MachineWords, AllocError>
    ensures { IfOk result (AreMachineWords (rows_of (found_of matches.now))) }
{
    let discipline = word(alloc, matches, "discipline")?;
    let processors = word(alloc, matches, "processors")?;
    let duration = word(alloc, matches, "duration")?;
    let seed = word(alloc, matches, "seed")?;
    Ok(MachineWords {
        discipline,
        processors,
        duration,
        seed,
    })
}

/// Gathers the words for the hooks.
fn hook_words(alloc: Global, matches: &ArgMatches<'_>) -> Result<HookWords, AllocError>
    ensures { IfOk result (AreHookWords (rows_of (found_of matches.now))) }
{
    let place = word(alloc, matches, Hook::Place.word())?;
    let preempt = word(alloc, matches, Hook::Preempt.word())?;
    let pull = word(alloc, matches, Hook::Pull.word())?;
    Ok(HookWords {
        place,
        preempt,
        pull,
    })
}

/// What is shown of a workload.
#[derive(Drop)]
enum WorkloadShown {
    /// One run.
    Run(ShownAs),
    /// The figures of several runs, of one choice of policies or of two side by side.
    Figures(Comparing),
}

/// What `simulate` is asked for.
#[derive(Drop)]
struct AskedSimulation {
    shown: WorkloadShown,
    /// The changes of the workload's own machine.
    changes: Changes,
}

/// Returns what the words ask for.
fn simulation_of(alloc: Global, words: &StudyWords) -> Result<AskedSimulation, WordsFault>
    ensures { IfOk result (AskToSimulate words.now) }
{
    let shown = shown_of(alloc, words)?;
    match asked_changes(words) {
        Ok(changes) => Ok(AskedSimulation { shown, changes }),
        Err(fault) => Err(asked_fault(alloc, words, fault)),
    }
}

/// Returns what the words ask to be shown.
fn shown_of(alloc: Global, words: &StudyWords) -> Result<WorkloadShown, WordsFault>
    ensures { IfOk result (AskForStudy words.now) }
{
    match asked_comparison(alloc, words) {
        Ok(Some(comparing)) => return Ok(WorkloadShown::Figures(comparing)),
        Ok(None) => {}
        Err(ComparingFault::Settings(SettingsFault::OutOfMemory)) => {
            return Err(WordsFault::OutOfMemory);
        }
        Err(fault) => return Err(refusal(alloc, &fault, fault.refused(words))),
    }
    match ShownAs::of(alloc, words) {
        Ok(shown) => Ok(WorkloadShown::Run(shown)),
        Err(fault) => Err(asked_fault(alloc, words, fault)),
    }
}

/// Makes the fault of words that ask for no simulation.
fn asked_fault(alloc: Global, words: &StudyWords, fault: AskedFault) -> WordsFault {
    match fault {
        AskedFault::Settings(SettingsFault::OutOfMemory) => WordsFault::OutOfMemory,
        fault => refusal(alloc, &fault, fault.refused(words)),
    }
}

/// The most that is read, and that is run.
#[derive(Clone, Copy)]
struct Limits {
    /// The most bytes of a file.
    bytes: u64,
    /// The most events of a run.
    events: u64,
}

/// Runs the workload in the file that is named, or on standard input, and shows it.
pub(crate) fn do_simulate<T: Threads + Sync>(
    rt: &HostRuntime,
    threads: &T,
    words: &SimulateWords,
) -> Result<ExitCode, WordsFault> {
    let simulation = simulation_of(rt.alloc(), &words.study)?;
    let limits = Limits {
        bytes: most_bytes(rt.alloc(), &words.max_bytes)?,
        events: most_events(rt.alloc(), &words.max_events)?,
    };
    match run_and_show(rt, threads, &words.study, limits, simulation) {
        Ok(code) | Err(code) => Ok(code),
    }
}

/// Runs the workload within these limits, and shows it. An error is the exit status: of a refusal, of a failed write, or of
/// memory that ran out.
fn run_and_show<T: Threads + Sync>(
    rt: &HostRuntime,
    threads: &T,
    words: &StudyWords,
    limits: Limits,
    simulation: AskedSimulation,
) -> Result<ExitCode, ExitCode> {
    let Limits { bytes, events } = limits;
    let workload = read_workload(rt, words, bytes, simulation.changes)?;
    let policies = read_policies(rt, words, bytes)?;
    match simulation.shown {
        WorkloadShown::Run(shown) => show_run(rt, &workload, &policies, shown, events),
        WorkloadShown::Figures(asked) => {
            let others = read_other_policies(rt, words, bytes)?;
            let others = others.as_ref();
            show_figures(rt, threads, &workload, &policies, others, asked, events)
        }
    }
}

/// Shows one run of at most that many events, as it goes.
fn show_run(
    rt: &HostRuntime,
    workload: &Workload,
    policies: &Policies,
    shown: ShownAs,
    event_limit: u64,
) -> Result<ExitCode, ExitCode> {
    let progress = ProgressLine::new(rt);
    let streams = RunStreams {
        output: ErrorKeeper::new(ErasingWriter::new(rt.stdout(), &progress)),
        errors: ErasingWriter::new(rt.stderr(), &progress),
        progress: &progress,
    };
    let FinishedRun { output, outcome } = run_as(
        rt.alloc(),
        workload,
        policies,
        shown,
        event_limit,
        streams,
    );
    progress.erase();
    match outcome {
        Ok(notes) => {
            let notes = Lines(notes.as_str());
            let _ = eprint!(rt; "{notes}");
            Ok(ExitCode::SUCCESS)
        }
        Err(RunFault::Simulation(SimulateFault::OutOfMemory)) => Err(report_out_of_memory(rt)),
        Err(fault) => Err(report_stopped(rt, &fault, output.into_inner().failure())),
    }
}

/// Says why a run did not come to its end; `failure` is the last error of the output.
fn report_stopped(rt: &HostRuntime, fault: &RunFault, failure: Option<Error>) -> ExitCode {
    if let (RunFault::Write, Some(error)) = (fault, failure) {
        return report_unwritten(rt, &error);
    }
    let _ = eprintln!(rt; "bqsim: {fault}");
    match fault {
        RunFault::Simulation(_) => ExitCode::from(BAD_INPUT),
        RunFault::Write | RunFault::TooManyEvents => ExitCode::from(IO_FAILED),
    }
}

/// The note on a comparison with one seed.
const ONE_SEED: &str =
    "--against: the differences of one seed may be chance; --seeds 10 shows how much they vary";

/// Shows the figures of several runs, each of at most that many events.
fn show_figures<T: Threads + Sync>(
    rt: &HostRuntime,
    threads: &T,
    workload: &Workload,
    ours: &Policies,
    others: Option<&Policies>,
    mut asked: Comparing,
    event_limit: u64,
) -> Result<ExitCode, ExitCode> {
    let Ok(notes) = asked.add_tasks_by_name(rt.alloc(), workload) else {
        return Err(report_out_of_memory(rt));
    };
    match comparison_table(rt, threads, workload, ours, others, &asked, event_limit) {
        Ok(text) => {
            let notes = Lines(notes.as_str());
            let _ = eprint!(rt; "{notes}");
            report_absent(rt, workload, &asked);
            if asked.seeds == 1 && others.is_some() {
                let _ = rt.eprintln(ONE_SEED);
            }
            Ok(written(rt, text.as_str(), ExitCode::SUCCESS))
        }
        Err(fault) => Err(report_without_table(rt, &fault)),
    }
}

/// Says why there is no table of figures.
fn report_without_table(rt: &HostRuntime, fault: &SeedsFault) -> ExitCode {
    let status = match fault {
        SeedsFault::Run(_) | SeedsFault::Last => BAD_INPUT,
        SeedsFault::TooManyEvents => IO_FAILED,
        SeedsFault::OutOfMemory => return report_out_of_memory(rt),
    };
    let _ = eprintln!(rt; "bqsim: {fault}");
    ExitCode::from(status)
}

/// Runs all seeds on both sides, and returns the table of their figures.
fn comparison_table<T: Threads + Sync>(
    rt: &HostRuntime,
    threads: &T,
    workload: &Workload,
    ours: &Policies,
    others: Option<&Policies>,
    asked: &Comparing,
    event_limit: u64,
) -> Result<String, SeedsFault> {
    let alloc = rt.alloc();
    let progress = ProgressLine::new(rt);
    let plan = RunPlan {
        seeds: asked.seeds,
        event_limit,
        progress: &progress,
    };
    let sides = compare(threads, alloc, workload, ours, others, &plan);
    progress.erase();
    Ok(comparison_text(alloc, workload, &sides?, asked)?)
}

/// Says which of the tasks and processors that are asked for are not there at all.
fn report_absent(rt: &HostRuntime, workload: &Workload, asked: &Comparing) {
    let MachineSize { tasks, processors } = size_of_machine(workload);
    if !has_task(asked, tasks) {
        let _ = eprintln!(rt;
            "--tasks: the workload has none of these tasks; how many it has: {tasks}"
        );
    }
    if !has_processor(asked, processors) {
        let _ = eprintln!(rt;
            "--cpus: the workload's machine has none of these processors; how many it has: {processors}"
        );
    }
}

/// Tells whether one of that many tasks is asked for.
fn has_task(asked: &Comparing, count: u16) -> bool {
    for task in 0..count {
        if asked.window.shows_task(task) {
            return true;
        }
    }
    false
}

/// Tells whether one of that many processors is asked for.
fn has_processor(asked: &Comparing, count: u8) -> bool {
    for processor in 0..count {
        if asked.window.shows_processor(processor) {
            return true;
        }
    }
    false
}
