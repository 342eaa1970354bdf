//! How one task takes over from another at a processor.
ghost use Rattle.std.specs.Prelude.{◌≡◌, ◌<◌, ◌≤◌, ◌-◌, None, Some, IfErr, IfSome, OnOk, length, slice_get};
ghost use Rattle.bq_workload.specs.declared.processor_state.ProcessorState.{ProcessorState};
ghost use Rattle.bq_workload.specs.TaskProgress.{moved_to, run_for};
ghost use Rattle.bq_workload.specs.Accounts.{accounts_of, accounts_charged, accounts_entered, grown, left_by, of_task, accounts_passed, shrunk, accounts_switched, taken_over};
ghost use Rattle.bq_workload.specs.Dues.{size_at};
ghost use Rattle.bq_workload.specs.Next.{TaskRests, StaysAgreed};
ghost use Rattle.bq_workload.specs.Plans.{SwitchIsPlanned, TakeoverIsPlanned};
ghost use Rattle.bq_workload.specs.Strays.{IsStrayCharge, IsStrayEntry, IsStrayGrowth, IsStrayLeave, IsStrayPass, IsStrayProcessor, IsStrayRun, IsStrayStart, IsStraySwitch};

use crate::Due;
use crate::broken_invariant::BrokenInvariant;
use crate::progress::TaskProgress;
use crate::roster::Roster;

impl Roster {
    /// From now on this task runs at a processor, or none does.
    pub fn switch(
        &mut self,
        processor: u8,
        run: Option<u16>,
        now: u64,
    ) -> Result<(), BrokenInvariant>
        ensures accounts { OnOk result (accounts_of self.new ≡ accounts_switched processor run now self.old.periods (accounts_of self.old)) }
        ensures plans { OnOk result (SwitchIsPlanned processor run now (accounts_of self.old) self.old self.new) }
        ensures agrees { OnOk result (StaysAgreed self.old self.new) }
        ensures periods { self.new.periods ≡ self.old.periods }
        ensures stray { IfErr result (λ _. IsStraySwitch self.old.periods processor run now (accounts_of self.old)) }
    {
        let processor_state = self.processor_state(processor)?;
        if processor_state.run == run {
            return Ok(());
        }
        self.charge(processor, now)?;
        match run {
            Some(task) => self.start(processor, task, now),
            None => self.idle(processor, now),
        }
    }

    /// The task that runs at a processor has run until now.
    pub(crate) fn charge(&mut self, processor: u8, now: u64) -> Result<(), BrokenInvariant>
        ensures accounts { OnOk result (accounts_of self.new ≡ accounts_charged processor now (accounts_of self.old)) }
        ensures since { OnOk result ((state : ProcessorState) × (slice_get self.old.by_processor.items processor ≡ Some state) × IfSome state.run (λ _. state.since ≤ now)) }
        ensures event_queue { self.new.event_queue ≡ self.old.event_queue }
        ensures periods { self.new.periods ≡ self.old.periods }
        ensures stray { IfErr result (λ _. IsStrayCharge processor now (accounts_of self.old)) }
    {
        let mut processor_state = self.processor_state(processor)?;
        if let Some(task) = processor_state.run {
            self.run_since(task, processor_state.since, now)?;
        }
        processor_state.since = now;
        self.set_processor_state(processor, processor_state);
        Ok(())
    }

    /// A task has run from one instant to another.
    fn run_since(&mut self, task: u16, since: u64, now: u64) -> Result<(), BrokenInvariant>
        ensures accounts { OnOk result (accounts_of self.new ≡ of_task (run_for (now - since)) task (accounts_of self.old)) }
        ensures since { OnOk result (since ≤ now) }
        ensures event_queue { self.new.event_queue ≡ self.old.event_queue }
        ensures periods { self.new.periods ≡ self.old.periods }
        ensures stray { IfErr result (λ _. IsStrayRun task since now (accounts_of self.old)) }
    {
        let Some(ran) = now.checked_sub(since) else {
            return Err(BrokenInvariant);
        };
        let Some(progress) = self.by_task.get_mut(usize::from(task)) else {
            return Err(BrokenInvariant);
        };
        progress.run_for(ran).ok_or(BrokenInvariant)
    }

    /// A task runs at a processor from now on.
    fn start(&mut self, processor: u8, task: u16, now: u64) -> Result<(), BrokenInvariant>
        ensures accounts { OnOk result (accounts_of self.new ≡ taken_over processor (Some task) now self.old.periods (accounts_of self.old)) }
        ensures rests { OnOk result (TaskRests (accounts_of self.old) task) }
        ensures plans { OnOk result (TakeoverIsPlanned processor (Some task) now self.old self.new) }
        ensures periods { self.new.periods ≡ self.old.periods }
        ensures stray { IfErr result (λ _. IsStrayStart self.old.periods processor task now (accounts_of self.old)) }
    {
        self.find_at_rest(task)?;
        let mut processor_state = self.processor_state(processor)?;
        let tick = self.next_tick(processor, processor_state.tick, now)?;
        processor_state.run = Some(task);
        processor_state.since = now;
        processor_state.tick = Some(tick);
        self.set_processor_state(processor, processor_state);
        let progress = self.move_to(processor, task);
        self.plan_end(processor, &progress, now)
    }

    /// Takes a task to a processor. Returns its progress, with the cost of a migration if it is one.
    fn move_to(&mut self, processor: u8, task: u16) -> TaskProgress
        requires there { task < length self.old.by_task.items }
        ensures accounts { accounts_of self.new ≡ of_task (moved_to processor self.old.periods.migration_cost) task (accounts_of self.old) }
        ensures there { slice_get self.new.by_task.items task ≡ Some result }
        ensures event_queue { self.new.event_queue ≡ self.old.event_queue }
        ensures periods { self.new.periods ≡ self.old.periods }
    {
        let cost = self.periods.migration_cost;
        let progress = &mut self.by_task[usize::from(task)];
        progress.move_to(processor, cost);
        *progress
    }

    /// Nothing runs at a processor from now on: it does not tick, and looks at once for a task to pull.
    fn idle(&mut self, processor: u8, now: u64) -> Result<(), BrokenInvariant>
        ensures accounts { OnOk result (accounts_of self.new ≡ taken_over processor None now self.old.periods (accounts_of self.old)) }
        ensures periods { self.new.periods ≡ self.old.periods }
        ensures plans { OnOk result (TakeoverIsPlanned processor None now self.old self.new) }
        ensures stray { IfErr result (λ _. IsStrayProcessor processor (accounts_of self.old)) }
    {
        let mut processor_state = self.processor_state(processor)?;
        let look = processor_state.look;
        processor_state.run = None;
        processor_state.tick = None;
        processor_state.look = look.map(|_| now);
        self.set_processor_state(processor, processor_state);
        self.drop_plan(Due::End(processor))?;
        self.drop_plan(Due::Tick(processor))?;
        self.look_at_once(processor, look, now)
    }

    /// The task that ran at a processor has gone from its queue; the next one runs there, or none.
    pub fn leave(
        &mut self,
        processor: u8,
        run: Option<u16>,
        now: u64,
    ) -> Result<(), BrokenInvariant>
        ensures accounts { OnOk result (accounts_of self.new ≡ left_by processor run now self.old.periods (accounts_of self.old)) }
        ensures plans { OnOk result (SwitchIsPlanned processor run now (shrunk processor (accounts_of self.old)) self.old self.new) }
        ensures agrees { OnOk result (StaysAgreed self.old self.new) }
        ensures periods { self.new.periods ≡ self.old.periods }
        ensures stray { IfErr result (λ _. IsStrayLeave self.old.periods processor run now (accounts_of self.old)) }
    {
        self.shrink(processor)?;
        self.switch(processor, run, now)
    }

    /// This many tasks have entered the queue of a processor, and this task runs there now.
    pub fn enter(
        &mut self,
        processor: u8,
        count: u32,
        run: Option<u16>,
        now: u64,
    ) -> Result<(), BrokenInvariant>
        ensures accounts { OnOk result (accounts_of self.new ≡ accounts_entered processor count run now self.old.periods (accounts_of self.old)) }
        ensures plans { OnOk result (SwitchIsPlanned processor run now (grown processor count (accounts_of self.old)) self.old self.new) }
        ensures agrees { OnOk result (StaysAgreed self.old self.new) }
        ensures periods { self.new.periods ≡ self.old.periods }
        ensures stray { IfErr result (λ _. IsStrayEntry self.old.periods processor count run now (accounts_of self.old)) }
    {
        self.grow(processor, count)?;
        self.switch(processor, run, now)
    }

    /// A task has gone from the queue of one processor to another.
    pub fn pass(&mut self, from: u8, to: u8) -> Result<(), BrokenInvariant>
        ensures accounts { OnOk result (accounts_of self.new ≡ accounts_passed from to (accounts_of self.old)) }
        ensures event_queue { self.new.event_queue ≡ self.old.event_queue }
        ensures agrees { OnOk result (StaysAgreed self.old self.new) }
        ensures periods { self.new.periods ≡ self.old.periods }
        ensures stray { IfErr result (λ _. IsStrayPass from to (accounts_of self.old)) }
    {
        self.shrink(from)?;
        self.grow(to, 1)
    }

    /// A processor has one task less.
    fn shrink(&mut self, processor: u8) -> Result<(), BrokenInvariant>
        ensures accounts { OnOk result (accounts_of self.new ≡ shrunk processor (accounts_of self.old)) }
        ensures event_queue { self.new.event_queue ≡ self.old.event_queue }
        ensures periods { self.new.periods ≡ self.old.periods }
        ensures stray { IfErr result (λ _. size_at self.old.by_processor.items processor ≡ 0) }
    {
        let Some(processor_state) = self.by_processor.get_mut(usize::from(processor)) else {
            return Err(BrokenInvariant);
        };
        let Some(size) = processor_state.size.checked_sub(1) else {
            return Err(BrokenInvariant);
        };
        processor_state.size = size;
        Ok(())
    }

    /// A processor has this many tasks more.
    fn grow(&mut self, processor: u8, count: u32) -> Result<(), BrokenInvariant>
        ensures accounts { OnOk result (accounts_of self.new ≡ grown processor count (accounts_of self.old)) }
        ensures event_queue { self.new.event_queue ≡ self.old.event_queue }
        ensures periods { self.new.periods ≡ self.old.periods }
        ensures stray { IfErr result (λ _. IsStrayGrowth processor count (accounts_of self.old)) }
    {
        let Some(processor_state) = self.by_processor.get_mut(usize::from(processor)) else {
            return Err(BrokenInvariant);
        };
        let Some(size) = processor_state.size.checked_add(count) else {
            return Err(BrokenInvariant);
        };
        processor_state.size = size;
        Ok(())
    }
}
