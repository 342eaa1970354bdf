//! A simulation from its beginning to its end.
ghost use Rattle.std.specs.Prelude.{◌≡◌, ◌≢◌, ◌≤◌, None, false, true, OnOk, IfOk, IfErr, length};
ghost use Rattle.bq_workload.specs.Bounds.{most_steps};
ghost use Rattle.bq_workload.specs.Kinds.{tasks_in};
ghost use Rattle.bq_workload.specs.Soundness.{first_flaw};
ghost use Rattle.bq_workload.specs.declared.workload.Workload.{Workload};
ghost use Rattle.bq_simulate.specs.Faults.{reported_flaw};
ghost use Rattle.bq_simulate.specs.GoingWell.{EndsEarly, GetsIfTooLong, HasOpenedWell, SimulationGoesWell, HasGoneWell, HasProcessors, IfTooManySteps, IsCutOff, StartsWell, WantsMemory};
ghost use Rattle.bq_simulate.specs.Simulations.{GoesOnForAnyKinds, RunsToEnd, RunsToLimit, HasEnough, HasProceeded, IsFollowed, IsSimulation, NothingIsDue, ComesToBound, RunsToEndOrEnough, with_seed};
ghost use Rattle.bq_simulate.specs.Steps.{AreJustEvents, last_ticks};
ghost use Rattle.bq_simulate.specs.declared.fault.SimulateFault.TheVariants as why;
ghost use Rattle.bq_trace.specs.TraceEvents.{Gets};

use crate::Driver;
use crate::counts::Counts;
use crate::enough::Enough;
use crate::fault::SimulateFault;
use crate::simulation::Simulation;
use bq_installed::Policy;
use bq_trace::Sink;
use bq_workload::{Workload, most_steps, soundness};
use std::alloc::Global;

/// Follows a workload to its end, with these policies at all processors, and reports its events to a sink: line 1 of their trace
/// makes the machine, and each event is a line. Returns the counts of tasks and missed wakes. Each sleep lasts
/// exactly its length. Each tick and each look for a task to pull comes exactly when it is to. What comes first is done next.
/// When it ends, no timer, no end of a phase, no tick and no look is left that comes until the end, and each processor ticks at the
/// end. If the sink has enough before the end, that is the fault, and the sink got all that came until then.
///
/// A workload with a flaw is refused for the first of its flaws, as `Unsound`, and nothing is reported. One without a flaw is
/// followed to its end, unless memory runs out, the sink has enough, or 2^64 - 1 things came due. The last comes only if 64 bits
/// do not count the bound of its steps, and the sink got the beginning until then. Tests check, and no contract says, that what
/// is reported before memory runs out is the beginning of a trace.
pub fn simulate<S: Sink + Enough>(
    alloc: Global,
    workload: &Workload,
    policies: &[Policy],
    sink: &mut S,
) -> Result<Counts, SimulateFault>
    ensures reported { OnOk result (Gets S.takes sink.old sink.new (IsSimulation policies.now workload.now)) }
    ensures wants { OnOk result (S.has_enough sink.new ≡ false) }
    ensures enough { IfErr result (λ fault. fault ≡ why.Enough → HasEnough S.takes S.has_enough (IsFollowed true policies.now workload.now) sink.old sink.new) }
    ensures tasks { IfOk result (λ counts. counts.tasks ≡ tasks_in workload.now.tasks.items) }
    ensures sound { IfOk result (λ _. first_flaw workload.now ≡ None) }
    ensures flaw { IfErr result (λ fault. reported_flaw fault ≡ first_flaw workload.now) }
    ensures unreported { first_flaw workload.now ≢ None → sink.new ≡ sink.old }
    ensures ends { first_flaw workload.now ≡ None → IfErr result (IsCutOff workload.now) }
    ensures too_many_steps { IfErr result (GetsIfTooLong S.takes policies.now workload.now sink.old sink.new) }
{
    simulate_seed(alloc, workload, workload.machine.seed, policies, sink)
}

/// Follows a workload to its end as `simulate` does, with this seed in place of its own.
pub fn simulate_seed<S: Sink + Enough>(
    alloc: Global,
    workload: &Workload,
    seed: u64,
    policies: &[Policy],
    sink: &mut S,
) -> Result<Counts, SimulateFault>
    ensures reported { OnOk result (Gets S.takes sink.old sink.new (IsSimulation policies.now (with_seed workload.now seed))) }
    ensures wants { OnOk result (S.has_enough sink.new ≡ false) }
    ensures enough { IfErr result (λ fault. fault ≡ why.Enough → HasEnough S.takes S.has_enough (IsFollowed true policies.now (with_seed workload.now seed)) sink.old sink.new) }
    ensures tasks { IfOk result (λ counts. counts.tasks ≡ tasks_in workload.now.tasks.items) }
    ensures sound { IfOk result (λ _. first_flaw workload.now ≡ None) }
    ensures flaw { IfErr result (λ fault. reported_flaw fault ≡ first_flaw workload.now) }
    ensures unreported { first_flaw workload.now ≢ None → sink.new ≡ sink.old }
    ensures ends { first_flaw workload.now ≡ None → IfErr result (IsCutOff workload.now) }
    ensures too_many_steps { IfErr result (GetsIfTooLong S.takes policies.now (with_seed workload.now seed) sink.old sink.new) }
{
    soundness(workload).map_err(SimulateFault::Unsound)?;
    let counts = match follow(alloc, workload, seed, policies, sink) {
        Ok(counts) => counts,
        Err(fault) => return Err(fault.of_loop()),
    };
    if sink.has_enough() {
        return Err(SimulateFault::Enough);
    }
    Ok(counts)
}

/// Follows a workload that can be followed, until the sink has enough.
fn follow<S: Sink + Enough>(
    alloc: Global,
    workload: &Workload,
    seed: u64,
    policies: &[Policy],
    sink: &mut S,
) -> Result<Counts, SimulateFault>
    ensures reported { OnOk result (Gets S.takes sink.old sink.new (IsFollowed (S.has_enough sink.new) policies.now (with_seed workload.now seed))) }
    ensures tasks { IfOk result (λ counts. counts.tasks ≡ tasks_in workload.now.tasks.items) }
    ensures ends { first_flaw workload.now ≡ None → IfErr result (EndsEarly workload.now) }
    ensures too_many_steps { first_flaw workload.now ≡ None → IfErr result (GetsIfTooLong S.takes policies.now (with_seed workload.now seed) sink.old sink.new) }
{
    let machine = &workload.machine;
    let driver = Driver::new(alloc, machine.discipline, machine.size, sink)?;
    let mut simulation = Simulation::new(alloc, machine, seed, driver)?;
    simulation.run(alloc, workload, policies, sink)
}

impl Simulation {
    /// Runs from the opening machine to the end, or until the sink has enough. Returns what was counted.
    fn run<S: Sink + Enough>(
        &mut self,
        alloc: Global,
        workload: &Workload,
        policies: &[Policy],
        sink: &mut S,
    ) -> Result<Counts, SimulateFault>
        requires tasks { length self.old.roster.by_task.items ≡ 0 }
        requires streams { length self.old.streams.items ≡ 0 }
        ensures tasks { IfOk result (λ counts. counts.tasks ≡ tasks_in workload.now.tasks.items) }
        ensures runs { OnOk result (RunsToEndOrEnough S.takes S.has_enough policies.now workload.now sink.old self.old sink.new self.new) }
        ensures ends { StartsWell workload.now self.old → IfErr result (EndsEarly workload.now) }
        ensures too_many_steps { StartsWell workload.now self.old → IfErr result (IfTooManySteps (ComesToBound S.takes policies.now workload.now sink.old self.old sink.new self.new)) }
    {
        let tasks = self.proceed(alloc, workload, policies, sink)?;
        if sink.has_enough() {
            return Ok(self.counted(tasks));
        }
        if !self.roster.is_over(workload.machine.duration) {
            return Err(SimulateFault::BrokenInvariant);
        }
        let processors = workload.machine.size.processors();
        self.finish(alloc, processors, workload.machine.duration, sink)?;
        Ok(self.counted(tasks))
    }

    /// Runs from the opening machine until nothing comes due any more, or the sink has enough. Returns how many tasks there are.
    fn proceed<S: Sink + Enough>(
        &mut self,
        alloc: Global,
        workload: &Workload,
        policies: &[Policy],
        sink: &mut S,
    ) -> Result<u16, SimulateFault>
        requires tasks { length self.old.roster.by_task.items ≡ 0 }
        requires streams { length self.old.streams.items ≡ 0 }
        ensures tasks { IfOk result (λ tasks. tasks ≡ tasks_in workload.now.tasks.items) }
        ensures nothing_due { OnOk result (S.has_enough sink.new ≡ false → NothingIsDue self.new.roster) }
        ensures goes_on { OnOk result (HasProceeded S.takes policies.now workload.now sink.old self.old sink.new self.new) }
        ensures well { OnOk result (StartsWell workload.now self.old → HasGoneWell workload.now self.new) }
        ensures ends { StartsWell workload.now self.old → IfErr result (EndsEarly workload.now) }
        ensures too_many_steps { StartsWell workload.now self.old → IfErr result (IfTooManySteps (ComesToBound S.takes policies.now workload.now sink.old self.old sink.new self.new)) }
    {
        let processors = workload.machine.size.processors();
        self.install(alloc, processors, policies, sink)?;
        self.admit(alloc, workload, sink)?;
        let tasks = self.tasks()?;
        self.run_until_end(alloc, workload, most_steps(workload), sink)?;
        Ok(tasks)
    }

    /// Returns what was counted until now, with this number of tasks.
    fn counted(&self, tasks: u16) -> Counts
        ensures { result.tasks ≡ tasks }
    {
        Counts {
            tasks,
            ..self.counts
        }
    }

    /// Does what comes due, one thing after another, until nothing does or the sink has enough: each is the first that comes by the
    /// accounts. Nothing comes before what came already, or beyond the duration.
    fn run_until_end<S: Sink + Enough>(
        &mut self,
        alloc: Global,
        workload: &Workload,
        step_limit: u64,
        sink: &mut S,
    ) -> Result<(), SimulateFault>
        ensures nothing_due { OnOk result (S.has_enough sink.new ≡ false → NothingIsDue self.new.roster) }
        ensures goes_on { OnOk result (RunsToEnd S.takes workload.now step_limit sink.old self.old sink.new self.new) }
        ensures well { OnOk result (HasOpenedWell workload.now self.old → HasGoneWell workload.now self.new) }
        ensures ends { HasOpenedWell workload.now self.old → HasProcessors workload.now self.old → step_limit ≡ most_steps workload.now → IfErr result (EndsEarly workload.now) }
        ensures too_many_steps { HasOpenedWell workload.now self.old → IfErr result (IfTooManySteps (RunsToLimit S.takes workload.now step_limit sink.old self.old sink.new self.new)) }
    {
        let end = workload.machine.duration;
        let mut last: u64 = 0;
        'steps: for _ in 0..step_limit {
            if sink.has_enough() {
                return Ok(());
            }
            let Some((now, due)) = self.roster.first() else {
                return Ok(());
            };
            if now < last || now > end {
                return Err(SimulateFault::BrokenInvariant);
            }
            last = now;
            self.handle_due(alloc, workload, due, now, sink)?;
        }
        Err(SimulateFault::TooManySteps)
    }

    /// Lets each processor tick at the end, by number.
    fn finish<S: Sink>(
        &mut self,
        alloc: Global,
        processors: u8,
        end: u64,
        sink: &mut S,
    ) -> Result<(), SimulateFault>
        ensures goes_on { OnOk result (GoesOnForAnyKinds S.takes (AreJustEvents (last_ticks end processors)) sink.old self.old sink.new self.new) }
        ensures ends { (w : Workload) → SimulationGoesWell w end self.old → processors ≤ length self.old.roster.by_processor.items → IfErr result WantsMemory }
    {
        'processors: for processor in 0..processors {
            self.tick(alloc, processor, end, sink)?;
        }
        Ok(())
    }
}
