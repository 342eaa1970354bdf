//! What is kept of one simulation.
ghost use Rattle.std.specs.Prelude.{◌≡◌, ℕ, [], IfErr, IfOk, None};
ghost use Rattle.bq_workload.specs.Soundness.{first_flaw};
ghost use Rattle.bq_comparison.specs.Gathering.{IsGathered, reported_start};
ghost use Rattle.bq_schedule.specs.WakeLatencies.{TakesStart, latencies_of};
ghost use Rattle.bq_timeline.specs.Watching.{schedule_after_event};
ghost use Rattle.bq_comparison.specs.Faults.{IsNoRun};
ghost use Rattle.bq_simulate.specs.Simulations.{with_seed};

use crate::fault::SeedsFault;
use bq_experiment::Limited;
use bq_installed::Policy;
use bq_schedule::{Schedule, WakeLatencies};
use bq_simulate::simulate_seed;
use bq_trace::{Sink, TraceEvent};
use bq_workload::Workload;
use std::alloc::{AllocError, Global};

/// A simulation up to now: its schedule, once it has a machine, the latencies of each task, each from a wake until the task ran,
/// and the number of events that have come.
#[derive(Drop)]
pub struct Gatherer {
    alloc: Global,
    pub events: u64,
    pub schedule: Option<Schedule>,
    pub latencies: WakeLatencies,
}

impl Gatherer {
    /// Makes a gatherer to which nothing has come.
    pub fn new(alloc: Global) -> Gatherer
        ensures schedule { result.schedule ≡ None }
        ensures latencies { (task : ℕ) → latencies_of result.latencies task ≡ [] }
    {
        Gatherer {
            alloc,
            events: 0,
            schedule: None,
            latencies: WakeLatencies::new(alloc),
        }
    }
}

impl Sink for Gatherer {
    ghost takes = { λ old n traced new. (new.schedule ≡ schedule_after_event old.schedule traced) × TakesStart (reported_start traced old.schedule) old.latencies new.latencies };

    fn receive(&mut self, _number: u64, event: &TraceEvent<'_>) -> Result<(), AllocError> {
        match event {
            TraceEvent::Opened { size, .. } => {
                self.schedule = Some(Schedule::new(self.alloc, size.processors())?);
                Ok(())
            }
            TraceEvent::Comes { .. } => {
                self.events = self.events.saturating_add(1);
                Ok(())
            }
            TraceEvent::Answered { event, answer, .. } => {
                let Some(schedule) = &mut self.schedule else {
                    return Ok(());
                };
                let change = schedule.add_answer(event, answer);
                self.latencies.take(&change)
            }
            TraceEvent::Skipped { .. }
            | TraceEvent::NotHex
            | TraceEvent::NotLoaded { .. }
            | TraceEvent::ProcessorAsked { .. }
            | TraceEvent::CounterRead { .. }
            | TraceEvent::Bad { .. } => Ok(()),
        }
    }
}

/// Follows a workload to its end with this seed, and keeps what figures are made of. It is cut off after this many events.
pub(crate) fn gather(
    alloc: Global,
    workload: &Workload,
    seed: u64,
    policies: &[Policy],
    event_limit: u64,
) -> Result<Gatherer, SeedsFault>
    ensures gathered { IfOk result (λ g. IsGathered policies.now (with_seed workload.now seed) event_limit g.schedule g.latencies) }
    ensures sound { IfOk result (λ _. first_flaw workload.now ≡ None) }
    ensures fault { IfErr result (IsNoRun policies.now (with_seed workload.now seed) event_limit) }
{
    let gatherer = Gatherer::new(alloc);
    let mut limited = Limited::new(gatherer, event_limit);
    match simulate_seed(alloc, workload, seed, policies, &mut limited) {
        Ok(_) => Ok(limited.sink),
        Err(fault) => Err(SeedsFault::from(fault)),
    }
}
