//! A workload run with several seeds.
ghost use Rattle.std.specs.Prelude.{◌≡◌, ◌<◌, ◌+◌, ◌≤◌, ◌^◌, ◌⊎◌, vec_len, IfErr, IfOk, OnOk};
ghost use Rattle.bq_comparison.specs.Experiments.{AreResultsOf, AreRunsOf, HasNoSummary, IsNoRunWithSeed, IsRunWithSeed, IsSummaryOf};
ghost use Rattle.bq_comparison.specs.Faults.{EndsInFault};
ghost use Rattle.bq_comparison.specs.Seeds.{Comes};
ghost use Rattle.bq_comparison.specs.declared.fault.SeedsFault.TheVariants.{OutOfMemory};

use crate::fault::SeedsFault;
use crate::gathering::gather;
use crate::{Figure, FigureRow, RunFigures, make_rows, run_of};
use bq_console::{EVENTS, ProgressLine, WorkDone};
use bq_installed::Policy;
use bq_simulate::SimulateFault;
use bq_workload::Workload;
use std::alloc::{AllocError, Global};
use std::thread::{Threads, available_parallelism, map_indices};

/// What the runs say of each figure, a row a figure.
pub type Rows = Vec<FigureRow>;

/// Some runs, and what they say of each figure.
#[derive(Drop)]
pub struct SeedsSummary {
    pub runs: Vec<RunFigures>,
    pub rows: Rows,
}

/// The figures of each of some runs, or the fault that ended the run.
type Results = Vec<Result<RunFigures, SeedsFault>>;

/// What is shared by runs that differ only in their seeds.
#[derive(Clone, Copy)]
pub struct Experiment<'a> {
    pub workload: &'a Workload,
    /// The policies at all processors.
    pub policies: &'a [Policy],
    /// The most events of a run.
    pub event_limit: u64,
    /// What is reported of each run.
    pub figures: &'a [Figure],
}

/// The count of runs that are done, of all runs, and the place where it is shown.
#[derive(Clone, Copy)]
pub struct RunsShown<'a> {
    pub progress: &'a ProgressLine<'a>,
    /// How many runs were done before these.
    pub before: usize,
    /// How many runs there are in all.
    pub all: usize,
}

/// At most this many runs are done at once.
const MOST_AT_ONCE: usize = 64;

/// Runs a workload with this many seeds, from its own on, with these policies at all processors. Returns the runs, and what they
/// say of each figure. A run that has more events than it may have is cut off, and then there is no summary. As many runs are done at
/// once as there are processors available, each on a thread of its own. A workload with a flaw is refused for the first of its
/// flaws. The runs of a workload without a flaw fail only if memory runs out, or if 64 bits do not count the bound of its steps.
/// `Last` comes exactly when the last seed would be 2^64 or more.
pub fn run_seeds<T: Threads + Sync>(
    threads: &T,
    alloc: Global,
    experiment: &Experiment<'_>,
    count: u16,
    shown: &RunsShown<'_>,
) -> Result<SeedsSummary, SeedsFault>
    ensures rows { IfOk result (λ s. IsSummaryOf experiment.now count s.runs.items s.rows.items) }
    ensures fault { IfErr result (HasNoSummary experiment.now count) }
{
    let runs = run_each(threads, alloc, experiment, count, shown)?;
    let rows = make_rows(alloc, experiment.figures, runs.as_slice())?;
    Ok(SeedsSummary { runs, rows })
}

/// Runs the workload with each of this many seeds, from its own on.
fn run_each<T: Threads + Sync>(
    threads: &T,
    alloc: Global,
    experiment: &Experiment<'_>,
    count: u16,
    shown: &RunsShown<'_>,
) -> Result<Vec<RunFigures>, SeedsFault>
    ensures runs { IfOk result (λ runs. AreRunsOf experiment.now runs.items) }
    ensures count { IfOk result (λ runs. vec_len runs ≡ count) }
    ensures fault { IfErr result (HasNoSummary experiment.now count) }
{
    let first = experiment.workload.machine.seed;
    let others = u64::from(count).saturating_sub(1);
    if first.checked_add(others).is_none() {
        return Err(SeedsFault::Last);
    }
    let most = runs_at_once(threads);
    let count = usize::from(count);
    let mut runs = Vec::new(alloc);
    'numbers: while runs.len() < count {
        let seed = first + runs.len() as u64;
        let wave = most.min(count - runs.len());
        let results = at_once(threads, alloc, experiment, seed, wave)?;
        add_all(&mut runs, results)?;
        show_runs(shown, runs.as_slice());
    }
    Ok(runs)
}

/// Shows how many runs are done, once they are about a second's work.
fn show_runs(shown: &RunsShown<'_>, runs: &[RunFigures]) {
    let mut events: u64 = 0;
    for run in runs {
        events = events.saturating_add(run.events);
    }
    if shown.before > 0 || events >= EVENTS {
        let done = shown.before.saturating_add(runs.len());
        let done = WorkDone::Runs(done as u64, shown.all as u64);
        shown.progress.show(done);
    }
}

/// Returns how many runs are done at once: as many as there are processors available, from 1 to 64.
fn runs_at_once<T: Threads + Sync>(threads: &T) -> usize
    ensures { 1 ≤ result }
{
    match available_parallelism(threads) {
        Ok(count) => count.get().max(1).min(MOST_AT_ONCE),
        Err(_) => 1,
    }
}

/// Does this many runs at once, with seeds from this one on, each on a thread of its own.
fn at_once<T: Threads + Sync>(
    threads: &T,
    alloc: Global,
    experiment: &Experiment<'_>,
    first: u64,
    count: usize,
) -> Result<Results, AllocError>
    requires { first + count ≤ 2 ^ 64 }
    ensures results { IfOk result (λ results. AreResultsOf experiment.now first results.items) }
    ensures count { IfOk result (λ results. vec_len results ≡ count) }
{
    map_indices(
        threads,
        alloc,
        count,
        &|number| { nth_run(alloc, experiment, first, number) },
    )
}

/// Runs the workload with the seed that is this many above the first.
fn nth_run(
    alloc: Global,
    experiment: &Experiment<'_>,
    first: u64,
    number: usize,
) -> Result<RunFigures, SeedsFault>
    ensures run { IfOk result (IsRunWithSeed experiment.now (first + number)) }
    ensures fault { first + number < 2 ^ 64 → IfErr result (IsNoRunWithSeed experiment.now (first + number)) }
{
    let seed = first
        .checked_add(number as u64)
        .ok_or(SeedsFault::Run(SimulateFault::BrokenInvariant))?;
    run(alloc, experiment, seed)
}

/// Adds the figures of some runs. If one did not come to its end, the error is the first such fault.
fn add_all(runs: &mut Vec<RunFigures>, results: Results) -> Result<(), SeedsFault>
    ensures comes { OnOk result (Comes runs.old.items results.items runs.new.items) }
    ensures fault { IfErr result (λ why. (why ≡ OutOfMemory) ⊎ EndsInFault results.items why) }
{
    'results: for result in results {
        runs.push(result?)?;
    }
    Ok(())
}

/// Runs the workload once, with this seed in place of its own.
fn run(alloc: Global, experiment: &Experiment<'_>, seed: u64) -> Result<RunFigures, SeedsFault>
    ensures run { IfOk result (IsRunWithSeed experiment.now seed) }
    ensures fault { IfErr result (IsNoRunWithSeed experiment.now seed) }
{
    let Experiment {
        workload,
        policies,
        event_limit,
        figures,
    } = *experiment;
    let mut gathered = gather(alloc, workload, seed, policies, event_limit)?;
    let events = gathered.events;
    match &gathered.schedule {
        Some(schedule) => Ok(run_of(alloc, schedule, &mut gathered.latencies, events, figures)?),
        None => Err(SeedsFault::Run(SimulateFault::BrokenInvariant)),
    }
}
