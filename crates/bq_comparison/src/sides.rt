//! The two sides of a comparison.
ghost use Rattle.std.specs.Prelude.{◌≡◌, IfErr, IfOk, length};
ghost use Rattle.bq_comparison.specs.Experiments.{HasNoSummary, IsSideOf};
ghost use Rattle.bq_comparison.specs.Faults.{IsNoSide};
ghost use Rattle.bq_comparison.specs.Sides.{IsComparison, other_policies, size_of_machine};

use crate::seeds::{Experiment, RunsShown};
use crate::{
    MachineSize, PairedRow, Rows, RunFigures, SeedsFault, SeedsSummary, all_figures, paired_rows,
    run_seeds,
};
use bq_console::ProgressLine;
use bq_experiment::Policies;
use bq_workload::Workload;
use std::alloc::Global;
use std::thread::Threads;

/// What the runs say of each figure, and what the runs with the same seeds under other policies say, if there are others.
#[derive(Drop)]
pub struct Sides {
    pub ours: Rows,
    pub theirs: Option<OtherSide>,
}

/// What the runs under other policies say of each figure, and what they say of its difference, seed by seed.
#[derive(Drop)]
pub struct OtherSide {
    pub rows: Rows,
    pub paired: Vec<PairedRow>,
}

/// The extent of a comparison, and the place where its progress is shown.
#[derive(Clone, Copy)]
pub struct RunPlan<'a> {
    /// How many seeds there are.
    pub seeds: u16,
    /// The most events of a run.
    pub event_limit: u64,
    pub progress: &'a ProgressLine<'a>,
}

/// Runs a workload with these seeds, from its own on, under policies, and with the same seeds under others, if there are others.
/// As many runs are done at once as there are processors available. A workload with a flaw is refused for the first of its
/// flaws. The runs of a workload without a flaw fail only if memory runs out, or if 64 bits do not count the bound of its steps.
/// `Last` comes only if the last seed would be 2^64 or more. A run that has more events than it may have is cut off, and then
/// there is no comparison.
pub fn compare<T: Threads + Sync>(
    threads: &T,
    alloc: Global,
    workload: &Workload,
    policies: &Policies,
    others: Option<&Policies>,
    plan: &RunPlan<'_>,
) -> Result<Sides, SeedsFault>
    ensures sides { IfOk result (IsComparison policies.now.loaded (other_policies others.entry) workload.now plan.now.event_limit plan.now.seeds) }
    ensures fault { IfErr result (IsNoSide policies.now.loaded (other_policies others.entry) workload.now plan.now.event_limit plan.now.seeds) }
{
    let figures = all_figures(alloc, size_of_machine(workload))?;
    let ours = Experiment {
        workload,
        policies: policies.loaded(),
        event_limit: plan.event_limit,
        figures: figures.as_slice(),
    };
    let seeds = plan.seeds;
    let Some(others) = others else {
        let SeedsSummary { rows, .. } = run_seeds(
            threads,
            alloc,
            &ours,
            seeds,
            &shown(plan, 0, 1),
        )?;
        return Ok(Sides {
            ours: rows,
            theirs: None,
        });
    };
    let theirs = Experiment {
        policies: others.loaded(),
        ..ours
    };
    let SeedsSummary { runs, rows } = run_seeds(threads, alloc, &ours, seeds, &shown(plan, 0, 2))?;
    let runs = runs.as_slice();
    let theirs = other_side(threads, alloc, &theirs, seeds, &shown(plan, 1, 2), runs)?;
    Ok(Sides {
        ours: rows,
        theirs: Some(theirs),
    })
}

/// Runs a workload with this many seeds, from its own on, beside our runs with the same seeds.
fn other_side<T: Threads + Sync>(
    threads: &T,
    alloc: Global,
    experiment: &Experiment<'_>,
    count: u16,
    shown: &RunsShown<'_>,
    ours: &[RunFigures],
) -> Result<OtherSide, SeedsFault>
    requires { length ours.now ≡ count }
    ensures side { IfOk result (IsSideOf experiment.now count ours.now) }
    ensures fault { IfErr result (HasNoSummary experiment.now count) }
{
    let SeedsSummary { runs, rows } = run_seeds(threads, alloc, experiment, count, shown)?;
    let paired = paired_rows(alloc, experiment.figures.len(), ours, runs.as_slice())?;
    Ok(OtherSide { rows, paired })
}

/// Returns where the progress of a side is shown: how many sides come before it, and how many there are.
fn shown<'a>(plan: &RunPlan<'a>, before: usize, sides: usize) -> RunsShown<'a> {
    let seeds = usize::from(plan.seeds);
    RunsShown {
        progress: plan.progress,
        before: seeds.saturating_mul(before),
        all: seeds.saturating_mul(sides),
    }
}

/// Counts the tasks of a workload, as far as 16 bits count, and its processors.
pub fn size_of_machine(workload: &Workload) -> MachineSize
    ensures { result ≡ size_of_machine workload.now }
{
    let mut tasks: u16 = 0;
    'kinds: for kind in &workload.tasks {
        tasks = tasks.saturating_add(kind.count);
    }
    MachineSize {
        tasks,
        processors: workload.machine.size.processors(),
    }
}
