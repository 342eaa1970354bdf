//! How a simulation begins: policies are installed, and tasks are admitted.
ghost use Rattle.std.specs.Prelude.{◌≡◌, ◌≢◌, ◌+◌, ◌<◌, ℕ, [], ◌∷◌, IfErr, IfOk, OnOk, Some, length, slice_get};
ghost use Rattle.bq_disc.specs.declared.limits.TheConstants.{TASKS};
ghost use Rattle.bq_parts.specs.declared.event.Event.TheVariants.{Admit};
ghost use Rattle.bq_workload.specs.Kinds.{tasks_in};
ghost use Rattle.bq_workload.specs.declared.workload.Workload.{Workload};
ghost use Rattle.bq_simulate.specs.Actions.{first_task_of};
ghost use Rattle.bq_simulate.specs.Kept.{HasAllFirsts};
ghost use Rattle.bq_simulate.specs.GoingWell.{HasGenerations, HasNewer, IfNewer, OpensBefore, OpensWell, StartsWell, WantsMemory};
ghost use Rattle.bq_simulate.specs.Simulations.{BeginsKind, GoesOnForAnyKinds, JoinsNext, GoesOnBy, OnlyPlansOrCounts};
ghost use Rattle.bq_simulate.specs.Steps.{AreAdmissions, AreInstalled, AreJustEvents, AreKindAdmissions, IsAdmissible, installs_of};
ghost use Rattle.bq_words.specs.Sizes.{processors_in};

use crate::fault::SimulateFault;
use crate::simulation::Simulation;
use bq_installed::Policy;
use bq_trace::Sink;
use bq_workload::{Due, Stream, TaskKind, TaskProgress, Workload, first_of_mask};
use std::alloc::Global;

impl Simulation {
    /// Installs each policy at its hook of every processor, as one generation.
    pub(crate) fn install<S: Sink>(
        &mut self,
        alloc: Global,
        processors: u8,
        policies: &[Policy],
        sink: &mut S,
    ) -> Result<(), SimulateFault>
        ensures goes_on { OnOk result (GoesOnForAnyKinds S.takes (AreInstalled processors policies.now) sink.old self.old sink.new self.new) }
        ensures roster { self.new.roster ≡ self.old.roster }
        ensures streams { self.new.streams ≡ self.old.streams }
        ensures firsts { self.new.firsts ≡ self.old.firsts }
        ensures counts { self.new.counts ≡ self.old.counts }
        ensures ends { (w : Workload) → StartsWell w self.old → processors ≡ processors_in w.machine.size → IfErr result WantsMemory }
    {
        'policies: for policy in policies {
            let generation = self.driver.draw(alloc, sink)?;
            self.install_one(alloc, processors, generation, policy, sink)?;
        }
        Ok(())
    }

    /// Installs a policy at its hook of every processor, as this generation.
    fn install_one<S: Sink>(
        &mut self,
        alloc: Global,
        processors: u8,
        generation: u64,
        policy: &Policy,
        sink: &mut S,
    ) -> Result<(), SimulateFault>
        ensures goes_on { OnOk result (GoesOnForAnyKinds S.takes (AreJustEvents (installs_of processors generation policy.now)) sink.old self.old sink.new self.new) }
        ensures roster { self.new.roster ≡ self.old.roster }
        ensures streams { self.new.streams ≡ self.old.streams }
        ensures firsts { self.new.firsts ≡ self.old.firsts }
        ensures counts { self.new.counts ≡ self.old.counts }
        ensures generations { OnOk result ((count : ℕ) → HasNewer count generation self.old → HasGenerations count self.new.driver.machine.world) }
        ensures ends { IfNewer processors generation self.old (IfErr result WantsMemory) }
    {
        'processors: for processor in 0..processors {
            let copy = policy.clone()?;
            self.driver
                .install(alloc, processor, policy.hook(), generation, copy, sink)?;
        }
        Ok(())
    }

    /// Admits all tasks, in the order of their kinds.
    pub(crate) fn admit<S: Sink>(
        &mut self,
        alloc: Global,
        workload: &Workload,
        sink: &mut S,
    ) -> Result<(), SimulateFault>
        requires tasks { length self.old.roster.by_task.items ≡ 0 }
        requires streams { length self.old.streams.items ≡ 0 }
        ensures goes_on { OnOk result (GoesOnBy S.takes workload.now.tasks.items (AreAdmissions workload.now) sink.old self.old sink.new self.new) }
        ensures streams { OnOk result (length self.new.streams.items ≡ tasks_in workload.now.tasks.items) }
        ensures firsts { OnOk result (length self.old.firsts.items ≡ 0 → HasAllFirsts workload.now.tasks.items self.new) }
        ensures well { OnOk result (OpensWell workload.now 0 self.old → OpensWell workload.now (tasks_in workload.now.tasks.items) self.new) }
        ensures ends { OpensWell workload.now 0 self.old → length self.old.firsts.items ≡ 0 → IfErr result WantsMemory }
    {
        'kinds: for (number, kind) in workload.tasks.iter().enumerate() {
            self.begin_kind(number)?;
            self.admit_kind(alloc, workload, number, kind, sink)?;
        }
        Ok(())
    }

    /// Admits the tasks of a kind, after the tasks of the kinds before it.
    fn admit_kind<S: Sink>(
        &mut self,
        alloc: Global,
        workload: &Workload,
        number: usize,
        kind: &TaskKind,
        sink: &mut S,
    ) -> Result<(), SimulateFault>
        requires kind { slice_get workload.now.tasks.items number ≡ Some kind.now }
        requires first { length self.old.roster.by_task.items ≡ first_task_of workload.now.tasks.items number }
        requires streams { length self.old.streams.items ≡ first_task_of workload.now.tasks.items number }
        ensures goes_on { OnOk result (GoesOnBy S.takes workload.now.tasks.items (AreKindAdmissions workload.now number kind.now) sink.old self.old sink.new self.new) }
        ensures tasks { OnOk result (length self.new.roster.by_task.items ≡ length self.old.roster.by_task.items + kind.now.count) }
        ensures streams { OnOk result (length self.new.streams.items ≡ length self.old.streams.items + kind.now.count) }
        ensures firsts { OnOk result (self.new.firsts ≡ self.old.firsts) }
        ensures well { OnOk result (OpensBefore workload.now number self.old → OpensWell workload.now (first_task_of workload.now.tasks.items number + kind.now.count) self.new) }
        ensures ends { OpensBefore workload.now number self.old → IfErr result WantsMemory }
    {
        let processors = workload.machine.size.processors();
        let home = first_of_mask(kind.mask, processors).ok_or(SimulateFault::BrokenInvariant)?;
        'tasks: for _ in 0..kind.count {
            let task = self.counts.tasks;
            self.admit_one(alloc, task, kind, sink)?;
            self.add_task(task, number, home, kind.start)?;
            self.count_task(task);
        }
        Ok(())
    }

    /// Begins the next kind, which has this number. Its first task is the next task.
    fn begin_kind(&mut self, number: usize) -> Result<(), SimulateFault>
        ensures goes_on { OnOk result (BeginsKind number self.old self.new) }
        ensures by_task { self.new.roster ≡ self.old.roster }
        ensures streams { self.new.streams ≡ self.old.streams }
        ensures firsts { OnOk result (length self.new.firsts.items ≡ length self.old.firsts.items + 1) }
        ensures counts { self.new.counts ≡ self.old.counts }
        ensures ends { self.old.counts.tasks ≡ length self.old.streams.items → length self.old.firsts.items ≡ number → IfErr result WantsMemory }
    {
        let first = self.tasks()?;
        if self.firsts.len() != number {
            return Err(SimulateFault::BrokenInvariant);
        }
        match self.firsts.push(first) {
            Ok(()) => Ok(()),
            Err(_) => Err(SimulateFault::OutOfMemory),
        }
    }

    /// Returns how many tasks there are. Fails if there are not as many streams.
    pub(crate) fn tasks(&self) -> Result<u16, SimulateFault>
        ensures tasks { IfOk result (λ tasks. tasks ≡ length self.now.streams.items) }
        ensures stray { IfErr result (λ _. self.now.counts.tasks ≢ length self.now.streams.items) }
    {
        let tasks = self.counts.tasks;
        if self.streams.len() != usize::from(tasks) {
            return Err(SimulateFault::BrokenInvariant);
        }
        Ok(tasks)
    }

    /// Counts a task, which is the last until now.
    fn count_task(&mut self, task: u16)
        ensures same { OnlyPlansOrCounts self.old self.new }
        ensures by_task { self.new.roster.by_task ≡ self.old.roster.by_task }
        ensures counted { task < TASKS → self.new.counts.tasks ≡ task + 1 }
    {
        self.counts.tasks = task.saturating_add(1);
    }

    /// Adds one more task of a kind, with a stream of its own. Its first wake is at the start of its kind, from this processor,
    /// and its timer is planned.
    fn add_task(
        &mut self,
        task: u16,
        kind: usize,
        home: u8,
        start: u64,
    ) -> Result<(), SimulateFault>
        ensures goes_on { OnOk result (JoinsNext kind home start self.old self.new) }
        ensures number { OnOk result (task ≡ length self.old.streams.items) }
        ensures streams { OnOk result (length self.new.streams.items ≡ length self.old.streams.items + 1) }
        ensures tasks { OnOk result (length self.new.roster.by_task.items ≡ length self.old.roster.by_task.items + 1) }
        ensures firsts { self.new.firsts ≡ self.old.firsts }
        ensures ends { task ≡ length self.old.streams.items → task < TASKS → IfErr result WantsMemory }
    {
        if self.streams.len() != usize::from(task) {
            return Err(SimulateFault::BrokenInvariant);
        }
        self.roster.add(TaskProgress::new(kind, home, start))?;
        self.roster.plan(Due::Wake(task), start)?;
        match self.streams.push(Stream::of_task(self.seed, task)) {
            Ok(()) => Ok(()),
            Err(_) => Err(SimulateFault::OutOfMemory),
        }
    }

    /// Admits a task, by what its kind says.
    fn admit_one<S: Sink>(
        &mut self,
        alloc: Global,
        task: u16,
        kind: &TaskKind,
        sink: &mut S,
    ) -> Result<(), SimulateFault>
        ensures goes_on { OnOk result (GoesOnForAnyKinds S.takes (AreJustEvents (Admit task kind.now.nice kind.now.mask kind.now.slice ∷ [])) sink.old self.old sink.new self.new) }
        ensures by_task { self.new.roster ≡ self.old.roster }
        ensures streams { self.new.streams ≡ self.old.streams }
        ensures firsts { self.new.firsts ≡ self.old.firsts }
        ensures counts { self.new.counts ≡ self.old.counts }
        ensures ends { (w : Workload) (home : ℕ) → OpensWell w task self.old → IsAdmissible (processors_in w.machine.size) task home kind.now → IfErr result WantsMemory }
    {
        self.driver
            .admit(alloc, task, kind.nice, kind.mask, kind.slice, sink)?;
        Ok(())
    }
}
