//! The clocks of the processors: when each ticks, when it looks for a task to pull, and from which processor it pulls.
ghost use Rattle.std.specs.Prelude.{◌≡◌, ◌⊎◌, ◌≤◌, None, Some, IfOk, IfErr, OnOk, unwrap_or};
ghost use Rattle.bq_workload.specs.Accounts.{LooksAt, TicksAt, accounts_of, beaten, first_look, looked};
ghost use Rattle.bq_workload.specs.Dues.{HasLargest, IsPlanned, IsSource, larger, next_multiple, size_at};
ghost use Rattle.bq_workload.specs.Next.{StaysAgreed};
ghost use Rattle.bq_workload.specs.Plans.{PlansLook, PlansTick};
ghost use Rattle.bq_workload.specs.Strays.{HasNoNext, IsStrayBeat, IsStrayLook};

use crate::Due;
use crate::broken_invariant::BrokenInvariant;
use crate::roster::Roster;
use bq_disc::limits::PROCESSORS;

/// When each of this many processors first looks for a task to pull. A single processor never looks.
pub(crate) fn first_look(processors: u8, balance: u64) -> Option<u64>
    ensures { result ≡ first_look processors balance }
{
    if processors < 2 { None } else { Some(balance) }
}

/// The first multiple of the time between two things that comes after an instant.
fn next_after(now: u64, between: u64) -> Result<u64, BrokenInvariant>
    ensures next { IfOk result (λ next. next ≡ next_multiple between now) }
    ensures stray { IfErr result (λ _. HasNoNext between now) }
{
    if between == 0 {
        return Err(BrokenInvariant);
    }
    let past = now / between * between;
    past.checked_add(between).ok_or(BrokenInvariant)
}

impl Roster {
    /// The clock of a processor beats, and its next tick is planned. It must be due to tick now.
    pub fn beat(&mut self, processor: u8, now: u64) -> Result<(), BrokenInvariant>
        ensures due { OnOk result (TicksAt (accounts_of self.old) processor now) }
        ensures accounts { OnOk result (accounts_of self.new ≡ beaten processor now self.old.periods.tick (accounts_of self.old)) }
        ensures planned { OnOk result (IsPlanned self.old.periods.end (Due.Tick processor) (next_multiple self.old.periods.tick now) self.old.event_queue self.new.event_queue) }
        ensures agrees { OnOk result (StaysAgreed self.old self.new) }
        ensures periods { self.new.periods ≡ self.old.periods }
        ensures stray { IfErr result (λ _. IsStrayBeat processor now self.old.periods.tick (accounts_of self.old)) }
    {
        let mut processor_state = self.processor_state(processor)?;
        if processor_state.tick != Some(now) {
            return Err(BrokenInvariant);
        }
        let next = self.plan_tick(processor, now)?;
        processor_state.tick = Some(next);
        self.set_processor_state(processor, processor_state);
        Ok(())
    }

    /// When a processor that runs something from now on ticks next: at its tick, or if it has none, at one that this call plans.
    pub(crate) fn next_tick(
        &mut self,
        processor: u8,
        tick: Option<u64>,
        now: u64,
    ) -> Result<u64, BrokenInvariant>
        ensures next { IfOk result (λ next. next ≡ unwrap_or tick (next_multiple self.old.periods.tick now)) }
        ensures plans { OnOk result (PlansTick self.old.periods processor now tick self.old.event_queue self.new.event_queue) }
        ensures stray { IfErr result (λ _. (PROCESSORS ≤ processor) ⊎ HasNoNext self.old.periods.tick now) }
        ensures by_task { self.new.by_task ≡ self.old.by_task }
        ensures by_processor { self.new.by_processor ≡ self.old.by_processor }
        ensures periods { self.new.periods ≡ self.old.periods }
    {
        match tick {
            Some(tick) => Ok(tick),
            None => self.plan_tick(processor, now),
        }
    }

    /// Plans a look for a task to pull at this instant, if the processor looks at all.
    pub(crate) fn look_at_once(
        &mut self,
        processor: u8,
        look: Option<u64>,
        now: u64,
    ) -> Result<(), BrokenInvariant>
        ensures plans { OnOk result (PlansLook self.old.periods processor now look self.old.event_queue self.new.event_queue) }
        ensures stray { IfErr result (λ _. PROCESSORS ≤ processor) }
        ensures by_task { self.new.by_task ≡ self.old.by_task }
        ensures by_processor { self.new.by_processor ≡ self.old.by_processor }
        ensures periods { self.new.periods ≡ self.old.periods }
    {
        match look {
            Some(_) => self.plan(Due::Look(processor), now),
            None => Ok(()),
        }
    }

    /// Plans the next tick of a processor. Returns its time.
    fn plan_tick(&mut self, processor: u8, now: u64) -> Result<u64, BrokenInvariant>
        ensures next { IfOk result (λ next. next ≡ next_multiple self.old.periods.tick now) }
        ensures planned { OnOk result (IsPlanned self.old.periods.end (Due.Tick processor) (next_multiple self.old.periods.tick now) self.old.event_queue self.new.event_queue) }
        ensures by_task { self.new.by_task ≡ self.old.by_task }
        ensures by_processor { self.new.by_processor ≡ self.old.by_processor }
        ensures periods { self.new.periods ≡ self.old.periods }
        ensures stray { IfErr result (λ _. (PROCESSORS ≤ processor) ⊎ HasNoNext self.old.periods.tick now) }
    {
        let next = next_after(now, self.periods.tick)?;
        self.plan(Due::Tick(processor), next)?;
        Ok(next)
    }

    /// A processor looks for a task to pull, and its next look is planned. It must be due to look now. Returns from which
    /// processor it pulls, if any.
    pub fn look(&mut self, processor: u8, now: u64) -> Result<Option<u8>, BrokenInvariant>
        ensures due { OnOk result (LooksAt (accounts_of self.old) processor now) }
        ensures source { IfOk result (λ source. IsSource self.old.by_processor.items processor source) }
        ensures accounts { OnOk result (accounts_of self.new ≡ looked processor now self.old.periods.balance (accounts_of self.old)) }
        ensures planned { OnOk result (IsPlanned self.old.periods.end (Due.Look processor) (next_multiple self.old.periods.balance now) self.old.event_queue self.new.event_queue) }
        ensures agrees { OnOk result (StaysAgreed self.old self.new) }
        ensures periods { self.new.periods ≡ self.old.periods }
        ensures stray { IfErr result (λ _. IsStrayLook processor now self.old.periods.balance (accounts_of self.old)) }
    {
        let mut processor_state = self.processor_state(processor)?;
        if processor_state.look != Some(now) {
            return Err(BrokenInvariant);
        }
        let source = self.source(processor);
        let next = next_after(now, self.periods.balance)?;
        self.plan(Due::Look(processor), next)?;
        processor_state.look = Some(next);
        self.set_processor_state(processor, processor_state);
        Ok(source)
    }

    /// From which processor this one pulls a task: from the largest, if that is another.
    fn source(&self, processor: u8) -> Option<u8>
        ensures { IsSource self.now.by_processor.items processor result }
    {
        match self.largest() {
            Some(other) if other != processor => Some(other),
            _ => None,
        }
    }

    /// The processor with the most tasks, the least number if several have as many. None if no processor has two.
    pub fn largest(&self) -> Option<u8>
        ensures { HasLargest self.now.by_processor.items PROCESSORS result }
    {
        let mut best: Option<u8> = None;
        'processors: for processor in 0..PROCESSORS {
            best = self.larger(best, processor);
        }
        best
    }

    /// The larger of `best`, the largest of the processors before, and the next processor.
    fn larger(&self, best: Option<u8>, next: u8) -> Option<u8>
        ensures { result ≡ larger self.now.by_processor.items best next }
    {
        let most = match best {
            Some(best) => self.size_at(best),
            None => 1,
        };
        if self.size_at(next) > most {
            Some(next)
        } else {
            best
        }
    }

    /// How many tasks a processor has: 0 if there is no such processor.
    fn size_at(&self, processor: u8) -> u32
        ensures { result ≡ size_at self.now.by_processor.items processor }
    {
        match self.by_processor.get(usize::from(processor)) {
            Some(processor_state) => processor_state.size,
            None => 0,
        }
    }
}
