//! All tasks and processors of a simulation.
ghost use Rattle.std.specs.Prelude.{◌≡◌, ◌<◌, ◌≤◌, ◌++◌, [], ◌∷◌, min, None, Some, IfOk, IfErr, IfSome, MatchOption, OnOk, option_and_then, slice_get, slice_set, length};
ghost use Rattle.bq_workload.specs.Accounts.{accounts_of, first_look, opening_accounts};
ghost use Rattle.bq_workload.specs.Dues.{AreLooks, IsDropped, IsDue, IsPlanned, due_rank, until};
ghost use Rattle.bq_workload.specs.Minima.{AreNever, IsFirstDue};
ghost use Rattle.bq_workload.specs.Next.{ComesFirst, IsAgreed};

use crate::broken_invariant::BrokenInvariant;
use crate::clocks::first_look;
use crate::due::RANKS;
use crate::periods::Periods;
use crate::processor_state::ProcessorState;
use crate::progress::TaskProgress;
use crate::{Due, EventQueue};
use bq_disc::clock::LATEST;
use bq_disc::limits::{PROCESSORS, TASKS};
use std::alloc::{AllocError, Global};

/// The task that runs at each processor, the progress of each task, and what comes due until the end.
#[derive(Drop)]
pub struct Roster {
    pub(crate) by_task: Vec<TaskProgress>,
    pub(crate) by_processor: Vec<ProcessorState>,
    event_queue: EventQueue,
    pub(crate) periods: Periods,
}

impl Roster {
    /// A roster of this many processors that run nothing, and of no task. If there are at least two processors, each looks for a
    /// task to pull at the first multiple of the time between two looks.
    pub fn new(alloc: Global, processors: u8, periods: Periods) -> Result<Roster, AllocError>
        ensures accounts { IfOk result (λ roster. accounts_of roster ≡ opening_accounts processors periods.balance) }
        ensures periods { IfOk result (λ roster. roster.periods ≡ periods) }
        ensures looks { IfOk result (λ roster. AreLooks (min processors PROCESSORS) (option_and_then (until periods.end) (first_look processors periods.balance)) roster.event_queue) }
    {
        let look = first_look(processors, periods.balance);
        let by_processor = vec![in alloc; ProcessorState::new(look); usize::from(processors)]?;
        let mut event_queue = EventQueue::new(alloc)?;
        let seen = look.and_then(|time| until(periods.end, time));
        plan_looks(&mut event_queue, processors.min(PROCESSORS), seen);
        Ok(Roster {
            by_task: Vec::new(alloc),
            by_processor,
            event_queue,
            periods,
        })
    }

    /// Adds a task.
    pub fn add(&mut self, progress: TaskProgress) -> Result<(), AllocError>
        ensures by_task { OnOk result (self.new.by_task.items ≡ self.old.by_task.items ++ progress ∷ []) }
        ensures by_processor { self.new.by_processor ≡ self.old.by_processor }
        ensures event_queue { self.new.event_queue ≡ self.old.event_queue }
        ensures periods { self.new.periods ≡ self.old.periods }
    {
        self.by_task.push(progress)?;
        Ok(())
    }

    /// How far a task has come.
    pub fn progress(&self, task: u16) -> Result<TaskProgress, BrokenInvariant>
        ensures there { IfOk result (λ progress. slice_get self.now.by_task.items task ≡ Some progress) }
        ensures missing { IfErr result (λ _. slice_get self.now.by_task.items task ≡ None) }
    {
        self.by_task
            .get(usize::from(task))
            .copied()
            .ok_or(BrokenInvariant)
    }

    /// What is known of a processor.
    pub fn processor_state(&self, processor: u8) -> Result<ProcessorState, BrokenInvariant>
        ensures there { IfOk result (λ processor_state. slice_get self.now.by_processor.items processor ≡ Some processor_state) }
        ensures missing { IfErr result (λ _. slice_get self.now.by_processor.items processor ≡ None) }
    {
        self.by_processor
            .get(usize::from(processor))
            .copied()
            .ok_or(BrokenInvariant)
    }

    /// Keeps what is known of a processor from now on.
    pub(crate) fn set_processor_state(&mut self, processor: u8, processor_state: ProcessorState)
        requires there { processor < length self.old.by_processor.items }
        ensures by_processor { self.new.by_processor.items ≡ slice_set self.old.by_processor.items processor processor_state }
        ensures by_task { self.new.by_task ≡ self.old.by_task }
        ensures event_queue { self.new.event_queue ≡ self.old.event_queue }
        ensures periods { self.new.periods ≡ self.old.periods }
    {
        self.by_processor[usize::from(processor)] = processor_state;
    }

    /// What comes due first, and when.
    pub fn first(&self) -> Option<(u64, Due)>
        ensures first { MatchOption result (AreNever self.now.event_queue) (λ d. IsFirstDue self.now.event_queue d.0 (due_rank d.1)) }
        ensures next { IsAgreed self.now → ComesFirst self.now.periods.end (accounts_of self.now) result }
    {
        match self.event_queue.first() {
            None => None,
            Some((time, rank)) => Some((time, Due::at(rank))),
        }
    }

    /// Plans that this comes due at a time. What would come after the end never does.
    pub fn plan(&mut self, due: Due, time: u64) -> Result<(), BrokenInvariant>
        ensures planned { OnOk result (IsPlanned self.old.periods.end due time self.old.event_queue self.new.event_queue) }
        ensures stray { IfErr result (λ _. IsDue due → ⊥) }
        ensures by_task { self.new.by_task ≡ self.old.by_task }
        ensures by_processor { self.new.by_processor ≡ self.old.by_processor }
        ensures periods { self.new.periods ≡ self.old.periods }
    {
        let rank = rank_of(due)?;
        self.event_queue.set(rank, until(self.periods.end, time));
        Ok(())
    }

    /// Drops the plan of this: it does not come due.
    pub(crate) fn drop_plan(&mut self, due: Due) -> Result<(), BrokenInvariant>
        ensures dropped { OnOk result (IsDropped due self.old.event_queue self.new.event_queue) }
        ensures stray { IfErr result (λ _. IsDue due → ⊥) }
        ensures by_task { self.new.by_task ≡ self.old.by_task }
        ensures by_processor { self.new.by_processor ≡ self.old.by_processor }
        ensures periods { self.new.periods ≡ self.old.periods }
    {
        let rank = rank_of(due)?;
        self.event_queue.set(rank, None);
        Ok(())
    }
}

/// A time that comes neither after the end nor after the latest instant.
fn until(end: u64, time: u64) -> Option<u64>
    ensures seen { result ≡ until end time }
    ensures early { IfSome result (λ t. t ≤ LATEST) }
{
    let is_seen = time <= end && time <= LATEST;
    is_seen.then_some(time)
}

/// Each of this many processors looks for a task to pull then, if ever.
fn plan_looks(event_queue: &mut EventQueue, processors: u8, time: Option<u64>)
    requires few { processors ≤ PROCESSORS }
    requires early { IfSome time (λ t. t ≤ LATEST) }
    requires never { AreNever event_queue.old }
    ensures { AreLooks processors time event_queue.new }
{
    'processors: for processor in 0..processors {
        event_queue.set(Due::Look(processor).rank(), time);
    }
}

/// The rank of what comes due.
fn rank_of(due: Due) -> Result<u16, BrokenInvariant>
    ensures rank { IfOk result (λ rank. rank ≡ due_rank due) }
    ensures few { IfOk result (λ rank. rank < RANKS) }
    ensures due { OnOk result (IsDue due) }
    ensures stray { IfErr result (λ _. IsDue due → ⊥) }
{
    let is_due = match due {
        Due::End(processor) | Due::Tick(processor) | Due::Look(processor) => processor < PROCESSORS,
        Due::Wake(task) => task < TASKS,
    };
    if !is_due {
        return Err(BrokenInvariant);
    }
    Ok(due.rank())
}
