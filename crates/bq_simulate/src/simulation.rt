//! A simulation on its way.
ghost use Rattle.std.specs.Prelude.{◌≡◌, ◌≢◌, ◌⊎◌, ◌<◌, false, [], ◌∷◌, IfOk, IfErr, None, OnOk, length, slice_get};
ghost use Rattle.bq_parts.specs.declared.event.Event.TheVariants.{Pull, Tick};
ghost use Rattle.bq_simulate.specs.Drives.{WakeIsDriven};
ghost use Rattle.bq_workload.specs.Accounts.{accounts_of};
ghost use Rattle.bq_workload.specs.Next.{IsAgreed, StaysAgreed};
ghost use Rattle.bq_workload.specs.Strays.{IsStrayPass};
ghost use Rattle.bq_simulate.specs.Deeds.{IsWoken, accounts_after_pull, accounts_pulled};
ghost use Rattle.bq_workload.specs.Lengths.{is_length};
ghost use Rattle.bq_workload.specs.declared.workload.Workload.{Workload};
ghost use Rattle.bq_simulate.specs.GoingWell.{SimulationGoesWell, HasBoth, IfNextDue, IsStrayPull, WantsMemory};
ghost use Rattle.bq_simulate.specs.Simulations.{DrawsLength, GoesOnBy, GoesOnForAnyKinds, opening_book, periods_of};
ghost use Rattle.bq_simulate.specs.Steps.{AreJustEvents, AreWake, DeedsMeet};

use crate::Driver;
use crate::calls::Moved;
use crate::counts::Counts;
use crate::fault::SimulateFault;
use bq_trace::Sink;
use bq_workload::{
    BrokenInvariant, Due, Length, Periods, Roster, Setup, Stream, TaskState, Workload,
};
use std::alloc::Global;

/// A simulation on its way: its machine, its tasks and processors, the stream of draws of each task, the first task of each kind,
/// what is counted, and the seed of the draws.
#[derive(Drop)]
pub struct Simulation {
    pub(crate) driver: Driver,
    pub(crate) roster: Roster,
    pub(crate) streams: Vec<Stream>,
    pub(crate) firsts: Vec<u16>,
    pub(crate) counts: Counts,
    pub(crate) seed: u64,
}

impl Simulation {
    /// Makes a simulation of this machine that has done nothing: no task is there.
    pub(crate) fn new(
        alloc: Global,
        machine: &Setup,
        seed: u64,
        driver: Driver,
    ) -> Result<Simulation, SimulateFault>
        ensures driver { IfOk result (λ simulation. simulation.driver ≡ driver) }
        ensures accounts { IfOk result (λ simulation. accounts_of simulation.roster ≡ (opening_book machine.now).accounts) }
        ensures seed { IfOk result (λ simulation. simulation.seed ≡ seed) }
        ensures streams { IfOk result (λ simulation. simulation.streams.items ≡ []) }
        ensures firsts { IfOk result (λ simulation. simulation.firsts.items ≡ []) }
        ensures tasks { IfOk result (λ simulation. simulation.roster.by_task.items ≡ []) }
        ensures periods { IfOk result (λ simulation. simulation.roster.periods ≡ periods_of machine.now) }
        ensures agrees { IfOk result (λ simulation. IsAgreed simulation.roster) }
        ensures counts { IfOk result (λ simulation. simulation.counts.tasks ≡ 0) }
        ensures ends { IfErr result WantsMemory }
    {
        let periods = Periods {
            end: machine.duration,
            tick: machine.tick,
            balance: machine.balance,
            migration_cost: machine.migration_cost,
        };
        let counts = Counts {
            tasks: 0,
            missed: 0,
        };
        Ok(Simulation {
            driver,
            roster: Roster::new(alloc, machine.size.processors(), periods)?,
            streams: Vec::new(alloc),
            firsts: Vec::new(alloc),
            counts,
            seed,
        })
    }

    /// Does what comes due at an instant.
    pub(crate) fn handle_due<S: Sink>(
        &mut self,
        alloc: Global,
        workload: &Workload,
        due: Due,
        now: u64,
        sink: &mut S,
    ) -> Result<(), SimulateFault>
        ensures goes_on { OnOk result (GoesOnBy S.takes workload.now.tasks.items (DeedsMeet due now) sink.old self.old sink.new self.new) }
        ensures ends { IfNextDue workload.now due now self.old (IfErr result WantsMemory) }
    {
        match due {
            Due::End(processor) => self.act(alloc, workload, processor, now, sink),
            Due::Wake(task) => self.wake_by_timer(alloc, task, now, sink),
            Due::Tick(processor) => self.tick_on_time(alloc, processor, now, sink),
            Due::Look(processor) => self.look_for_pull(alloc, processor, now, sink),
        }
    }

    /// Wakes a task, whose timer rings now, from the processor that it left last.
    fn wake_by_timer<S: Sink>(
        &mut self,
        alloc: Global,
        task: u16,
        now: u64,
        sink: &mut S,
    ) -> Result<(), SimulateFault>
        ensures goes_on { OnOk result (GoesOnForAnyKinds S.takes (DeedsMeet (Due.Wake task) now) sink.old self.old sink.new self.new) }
        ensures ends { (w : Workload) → IfNextDue w (Due.Wake task) now self.old (IfErr result WantsMemory) }
    {
        let progress = self.roster.progress(task)?;
        if progress.timer != now {
            return Err(SimulateFault::BrokenInvariant);
        }
        match progress.task_state {
            TaskState::Asleep => self.wake(alloc, progress.home, task, now, sink),
            _ => Err(SimulateFault::BrokenInvariant),
        }
    }

    /// Wakes a task from a processor: the task is placed, and the processor on which it was placed takes it in at once.
    pub(crate) fn wake<S: Sink>(
        &mut self,
        alloc: Global,
        from: u8,
        task: u16,
        now: u64,
        sink: &mut S,
    ) -> Result<(), SimulateFault>
        requires { IsWoken (accounts_of self.old.roster) from task }
        ensures events { OnOk result (WakeIsDriven S.takes sink.old self.old.driver from task now sink.new self.new.driver) }
        ensures goes_on { OnOk result (GoesOnForAnyKinds S.takes (AreWake from task now) sink.old self.old sink.new self.new) }
        ensures ends { (w : Workload) → SimulationGoesWell w now self.old → IfErr result WantsMemory }
    {
        self.roster.wake(task)?;
        let to = self.driver.wake(alloc, from, task, now, sink)?;
        let entered = self.driver.drain(alloc, to, now, sink)?;
        self.roster.enter(to, entered.count, entered.run, now)?;
        Ok(())
    }

    /// Lets a processor that runs something tick, as its clock beats now.
    fn tick_on_time<S: Sink>(
        &mut self,
        alloc: Global,
        processor: u8,
        now: u64,
        sink: &mut S,
    ) -> Result<(), SimulateFault>
        ensures goes_on { OnOk result (GoesOnForAnyKinds S.takes (DeedsMeet (Due.Tick processor) now) sink.old self.old sink.new self.new) }
        ensures ends { (w : Workload) → IfNextDue w (Due.Tick processor) now self.old (IfErr result WantsMemory) }
    {
        let processor_state = self.roster.processor_state(processor)?;
        let Some(_) = processor_state.run else {
            return Err(SimulateFault::BrokenInvariant);
        };
        self.roster.beat(processor, now)?;
        self.tick(alloc, processor, now, sink)
    }

    /// Lets a processor tick, whether it runs something or not.
    pub(crate) fn tick<S: Sink>(
        &mut self,
        alloc: Global,
        processor: u8,
        now: u64,
        sink: &mut S,
    ) -> Result<(), SimulateFault>
        ensures goes_on { OnOk result (GoesOnForAnyKinds S.takes (AreJustEvents (Tick processor now ∷ [])) sink.old self.old sink.new self.new) }
        ensures ends { (w : Workload) → SimulationGoesWell w now self.old → processor < length self.old.roster.by_processor.items → IfErr result WantsMemory }
    {
        let run = self.driver.tick(alloc, processor, now, sink)?;
        self.roster.switch(processor, run, now)?;
        Ok(())
    }

    /// Looks now for a task that a processor may pull, in the queue of the processor that has the most, if that is another,
    /// and pulls it.
    fn look_for_pull<S: Sink>(
        &mut self,
        alloc: Global,
        processor: u8,
        now: u64,
        sink: &mut S,
    ) -> Result<(), SimulateFault>
        ensures goes_on { OnOk result (GoesOnForAnyKinds S.takes (DeedsMeet (Due.Look processor) now) sink.old self.old sink.new self.new) }
        ensures ends { (w : Workload) → IfNextDue w (Due.Look processor) now self.old (IfErr result WantsMemory) }
    {
        let source = self.roster.look(processor, now)?;
        match source {
            Some(from) => self.pull_from(alloc, processor, from, now, sink),
            None => Ok(()),
        }
    }

    /// Pulls a task from one processor to another, if the machine finds one that it may take.
    fn pull_from<S: Sink>(
        &mut self,
        alloc: Global,
        processor: u8,
        from: u8,
        now: u64,
        sink: &mut S,
    ) -> Result<(), SimulateFault>
        ensures goes_on { OnOk result (GoesOnForAnyKinds S.takes (AreJustEvents (Pull processor from now ∷ [])) sink.old self.old sink.new self.new) }
        ensures ends { (w : Workload) → SimulationGoesWell w now self.old → HasBoth processor from self.old → IfErr result WantsMemory }
    {
        let moved = self.driver.pull(alloc, processor, from, now, sink)?;
        record_pull(&mut self.roster, processor, from, moved, now)?;
        Ok(())
    }

    /// Draws the next length of a task. Fails if the length is not sound, or the task has no stream.
    pub(crate) fn draw(&mut self, task: u16, length: Length) -> Result<u64, BrokenInvariant>
        ensures drawn { IfOk result (λ drawn. DrawsLength task length self.old drawn self.new) }
        ensures stray { IfErr result (λ _. (is_length length ≡ false) ⊎ (slice_get self.old.streams.items task ≡ None)) }
    {
        if !length.is_sound() {
            return Err(BrokenInvariant);
        }
        match self.streams.get_mut(usize::from(task)) {
            Some(stream) => Ok(stream.draw(length)),
            None => Err(BrokenInvariant),
        }
    }
}

/// Records in the accounts what the machine did at a pull: which task it moved, and which task runs at the puller.
fn record_pull(
    roster: &mut Roster,
    processor: u8,
    from: u8,
    moved: Moved,
    now: u64,
) -> Result<(), BrokenInvariant>
    ensures accounts { OnOk result (accounts_of roster.new ≡ accounts_after_pull roster.old.periods processor from moved.task moved.run now (accounts_of roster.old)) }
    ensures agrees { OnOk result (StaysAgreed roster.old roster.new) }
    ensures periods { roster.new.periods ≡ roster.old.periods }
    ensures stray { IfErr result (λ _. IsStrayPull roster.old.periods processor from moved.task moved.run now (accounts_of roster.old)) }
{
    move_pulled(roster, moved.task, from, processor)?;
    roster.switch(processor, moved.run, now)
}

/// Moves a task that was taken from the queue of one processor to another, in the accounts. Does nothing if none was taken.
fn move_pulled(
    roster: &mut Roster,
    taken: Option<u16>,
    from: u8,
    to: u8,
) -> Result<(), BrokenInvariant>
    ensures accounts { OnOk result (accounts_of roster.new ≡ accounts_pulled from to taken (accounts_of roster.old)) }
    ensures agrees { OnOk result (StaysAgreed roster.old roster.new) }
    ensures periods { roster.new.periods ≡ roster.old.periods }
    ensures stray { IfErr result (λ _. (taken ≢ None) × IsStrayPass from to (accounts_of roster.old)) }
{
    match taken {
        Some(_) => roster.pass(from, to),
        None => Ok(()),
    }
}
