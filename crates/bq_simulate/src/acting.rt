//! What a task does next, once it has run long enough.
ghost use Rattle.std.specs.Prelude.{◌≡◌, ◌⊎◌, ◌+◌, ◌≤◌, false, [], ◌∷◌, IfErr, IfOk, None, OnOk, Some, length, slice_get};
ghost use Rattle.bq_parts.specs.declared.event.Event.TheVariants.{Block};
ghost use Rattle.bq_workload.specs.TaskProgress.{phase_begun};
ghost use Rattle.bq_workload.specs.Kinds.{kind_count};
ghost use Rattle.bq_workload.specs.Lengths.{is_length};
ghost use Rattle.bq_workload.specs.declared.workload.Workload.{Workload};
ghost use Rattle.bq_simulate.specs.Actions.{acted, action_at, action_count, asleep_for, advanced_in, aim_in, asked_by, first_task_of, next_action, resting, woken_one_in};
ghost use Rattle.bq_simulate.specs.GoingWell.{CanFollow, FallsAsleep, IfNextDue, IfTaskLeft, IsStrayAction, WantsMemory};
ghost use Rattle.bq_simulate.specs.Simulations.{GoesOnForAnyKinds, DrawsFor, GoesOnBy, GoesOnByKinds, OnlyPlansOrCounts, TakesUpAction};
ghost use Rattle.bq_simulate.specs.Steps.{AreJustEvents, FollowsAction, DeedsMeet, WakesTask};

use crate::fault::SimulateFault;
use crate::simulation::Simulation;
use bq_trace::Sink;
use bq_workload::{
    Action, BrokenInvariant, Due, Length, TaskKind, TaskProgress, TaskState, Workload,
};
use std::alloc::Global;

/// What a task does next, once its phase has ended.
#[derive(Drop)]
struct Doing {
    task: u16,
    /// How far it had come when it took the action up.
    progress_before: TaskProgress,
    /// None if it has done all its actions as often as it is to.
    action: Option<Action>,
}

/// Returns what a task does next, or `None` if it has done all its actions as often as it is to. Fails if the task is at no
/// action of its kind.
fn next_of(workload: &Workload, progress: &TaskProgress) -> Result<Option<Action>, BrokenInvariant>
    ensures action { IfOk result (λ action. action ≡ next_action workload.now.tasks.items progress.now) }
    ensures stray { IfErr result (λ _. action_count workload.now.tasks.items progress.now ≤ progress.now.action) }
{
    match workload.tasks.get(progress.kind) {
        Some(kind) => action_at(kind, progress),
        None => Err(BrokenInvariant),
    }
}

/// Returns what a task of this kind does next, or `None` if it has done all its actions as often as it is to. Fails if the
/// task is at no action of the kind.
fn action_at(kind: &TaskKind, progress: &TaskProgress) -> Result<Option<Action>, BrokenInvariant>
    ensures action { IfOk result (λ action. action ≡ action_at kind.now progress.now) }
    ensures stray { IfErr result (λ _. length kind.now.actions.items ≤ progress.now.action) }
{
    if kind.loops == Some(progress.loops) {
        return Ok(None);
    }
    match kind.actions.get(progress.action) {
        Some(action) => Ok(Some(*action)),
        None => Err(BrokenInvariant),
    }
}

/// Returns the length that an action takes, if it takes one.
fn asked_by(action: Option<Action>) -> Option<Length>
    ensures { result ≡ asked_by action }
{
    match action {
        Some(Action::Run(length)) => Some(length),
        Some(Action::Sleep(length)) => Some(length),
        _ => None,
    }
}

/// Returns how far a task has come once it has done an action. Fails if the task's kind is not there.
fn advanced(workload: &Workload, progress: TaskProgress) -> Result<TaskProgress, BrokenInvariant>
    ensures next { IfOk result (λ next. next ≡ advanced_in workload.now.tasks.items progress) }
    ensures missing { IfErr result (λ _. slice_get workload.now.tasks.items progress.kind ≡ None) }
{
    let kind = workload.tasks.get(progress.kind).ok_or(BrokenInvariant)?;
    let mut progress = progress;
    progress.advance(kind.actions.len());
    Ok(progress)
}

/// Returns how many tasks a kind has. Fails if the kind is not there.
fn count_of(workload: &Workload, kind: usize) -> Result<u16, BrokenInvariant>
    ensures count { IfOk result (λ count. count ≡ kind_count workload.now.tasks.items kind) }
    ensures missing { IfErr result (λ _. slice_get workload.now.tasks.items kind ≡ None) }
{
    let kind = workload.tasks.get(kind).ok_or(BrokenInvariant)?;
    Ok(kind.count)
}

/// Returns how far a task has come once its wake has come to one more of the tasks of a kind. Fails if that kind, or the
/// task's own, is not there.
fn woken_one(
    workload: &Workload,
    progress: TaskProgress,
    kind: usize,
) -> Result<TaskProgress, BrokenInvariant>
    ensures next { IfOk result (λ next. next ≡ woken_one_in workload.now.tasks.items kind progress) }
    ensures stray { IfErr result (λ _. IsStrayAction workload.now.tasks.items progress (Some (Action.Wake kind))) }
{
    let count = count_of(workload, kind)?;
    match progress.woken.checked_add(1) {
        Some(woken) if woken < count => Ok(TaskProgress { woken, ..progress }),
        _ => advanced(workload, progress),
    }
}

/// Returns how far a task has come once it has no phase, and is in a state in which it does not run.
fn resting(progress: TaskProgress, task_state: TaskState) -> TaskProgress
    ensures { result ≡ resting task_state progress }
{
    let mut progress = progress;
    progress.begin(0);
    progress.task_state = task_state;
    progress
}

/// Returns how far a task has come once a phase of this length has begun.
fn begun(progress: TaskProgress, length: u64) -> TaskProgress
    ensures { result ≡ phase_begun length progress }
{
    let mut progress = progress;
    progress.begin(length);
    progress
}

/// Returns how far a task has come once it sleeps, from an instant on, for so long.
fn asleep_for(progress: TaskProgress, length: u64, now: u64) -> TaskProgress
    ensures { result ≡ asleep_for length now progress }
{
    let mut progress = resting(progress, TaskState::Asleep);
    progress.timer = now.saturating_add(length);
    progress
}

/// Returns how far a task has come after it takes up `action`, which lasts `length` if it is a run or a sleep. Only a task
/// that runs has a phase. Fails if the task's kind, or the kind that it wakes, is not there.
fn acted(
    workload: &Workload,
    progress: TaskProgress,
    action: Option<Action>,
    length: u64,
    now: u64,
) -> Result<TaskProgress, BrokenInvariant>
    ensures next { IfOk result (λ next. next ≡ acted workload.now.tasks.items action length now progress) }
    ensures stray { IfErr result (λ _. IsStrayAction workload.now.tasks.items progress action) }
{
    match action {
        None => Ok(resting(progress, TaskState::Over)),
        Some(Action::Run(_)) => Ok(begun(advanced(workload, progress)?, length)),
        Some(Action::Sleep(_)) => Ok(asleep_for(advanced(workload, progress)?, length, now)),
        Some(Action::Wait) => Ok(resting(advanced(workload, progress)?, TaskState::Waiting)),
        Some(Action::Wake(kind)) => Ok(begun(woken_one(workload, progress, kind)?, 0)),
    }
}

impl Simulation {
    /// Does what comes next for the task that runs at a processor, as its run phase has ended.
    pub(crate) fn act<S: Sink>(
        &mut self,
        alloc: Global,
        workload: &Workload,
        processor: u8,
        now: u64,
        sink: &mut S,
    ) -> Result<(), SimulateFault>
        ensures goes_on { OnOk result (GoesOnBy S.takes workload.now.tasks.items (DeedsMeet (Due.End processor) now) sink.old self.old sink.new self.new) }
        ensures ends { IfNextDue workload.now (Due.End processor) now self.old (IfErr result WantsMemory) }
    {
        let doing = self.take_action(workload, processor, now)?;
        self.follow(alloc, processor, &doing, now, sink)
    }

    /// Ends the run phase of the task that runs at a processor, which has got exactly what it takes, and takes up the task's
    /// next action. If the action takes a length, that is the next length of the task.
    fn take_action(
        &mut self,
        workload: &Workload,
        processor: u8,
        now: u64,
    ) -> Result<Doing, BrokenInvariant>
        ensures acts { IfOk result (TakesUpAction workload.now.tasks.items processor now self.old self.new) }
        ensures ends { IfNextDue workload.now (Due.End processor) now self.old (IfErr result (λ _. ⊥)) }
    {
        let (task, before) = self.roster.end_phase(processor, now)?;
        let action = next_of(workload, &before)?;
        let length = self.length_for(task, asked_by(action))?;
        let after = acted(workload, before, action, length, now)?;
        self.roster.take_up(processor, task, after)?;
        Ok(Doing {
            task,
            progress_before: before,
            action,
        })
    }

    /// Draws the next length of a task, if one is asked for. Returns 0 otherwise.
    fn length_for(&mut self, task: u16, asked: Option<Length>) -> Result<u64, BrokenInvariant>
        ensures drawn { IfOk result (λ length. DrawsFor task asked self.old length self.new) }
        ensures stray { IfErr result (λ _. (length : Length) × (asked ≡ Some length) × ((is_length length ≡ false) ⊎ (slice_get self.old.streams.items task ≡ None))) }
    {
        match asked {
            Some(asked) => self.draw(task, asked),
            None => Ok(0),
        }
    }

    /// Does the event that an action calls for, once a task has taken it up.
    fn follow<S: Sink>(
        &mut self,
        alloc: Global,
        processor: u8,
        doing: &Doing,
        now: u64,
        sink: &mut S,
    ) -> Result<(), SimulateFault>
        ensures goes_on { OnOk result (GoesOnByKinds S.takes (λ kinds. FollowsAction doing.now.action (aim_in kinds doing.now) processor now) sink.old self.old sink.new self.new) }
        ensures ends { (w : Workload) → CanFollow w doing.now.action doing.now.progress_before processor now self.old → IfErr result WantsMemory }
    {
        match doing.action {
            Some(Action::Run(_)) => Ok(()),
            Some(Action::Sleep(_)) => self.block(alloc, processor, now, sink),
            Some(Action::Wait) => self.block(alloc, processor, now, sink),
            None => self.block(alloc, processor, now, sink),
            Some(Action::Wake(kind)) => {
                self.wake_next(
                    alloc,
                    processor,
                    kind,
                    doing.progress_before.woken,
                    now,
                    sink,
                )
            }
        }
    }

    /// Puts the task that runs at a processor to sleep.
    fn block<S: Sink>(
        &mut self,
        alloc: Global,
        processor: u8,
        now: u64,
        sink: &mut S,
    ) -> Result<(), SimulateFault>
        ensures goes_on { OnOk result (GoesOnForAnyKinds S.takes (AreJustEvents (Block processor now ∷ [])) sink.old self.old sink.new self.new) }
        ensures ends { (w : Workload) → FallsAsleep w now processor self.old → IfErr result WantsMemory }
    {
        let run = self.driver.block(alloc, processor, now, sink)?;
        self.roster.leave(processor, run, now)?;
        Ok(())
    }

    /// Wakes the next task of a kind from a processor, if that task waits, and counts a missed wake if it does not. The task
    /// that runs at the processor wakes the tasks of the kind one by one, and `woken` of them are done.
    fn wake_next<S: Sink>(
        &mut self,
        alloc: Global,
        processor: u8,
        kind: usize,
        woken: u16,
        now: u64,
        sink: &mut S,
    ) -> Result<(), SimulateFault>
        ensures goes_on { OnOk result (GoesOnByKinds S.takes (λ kinds. WakesTask (first_task_of kinds kind + woken) processor now) sink.old self.old sink.new self.new) }
        ensures ends { (w : Workload) → IfTaskLeft w processor kind woken now self.old (IfErr result WantsMemory) }
    {
        let first = self.first_of(kind)?;
        let target = first
            .checked_add(woken)
            .ok_or(SimulateFault::BrokenInvariant)?;
        let processor_state = self.roster.processor_state(processor)?;
        let Some(_) = processor_state.run else {
            return Err(SimulateFault::BrokenInvariant);
        };
        let progress = self.roster.progress(target)?;
        match progress.task_state {
            TaskState::Waiting => self.wake(alloc, processor, target, now, sink),
            _ => {
                self.count_missed_wake();
                Ok(())
            }
        }
    }

    /// Returns the first task of a kind. Fails if the kind has not begun.
    fn first_of(&self, kind: usize) -> Result<u16, BrokenInvariant>
        ensures there { IfOk result (λ first. slice_get self.now.firsts.items kind ≡ Some first) }
        ensures missing { IfErr result (λ _. slice_get self.now.firsts.items kind ≡ None) }
    {
        self.firsts.get(kind).copied().ok_or(BrokenInvariant)
    }

    /// Counts a wake that came to a task that does not wait.
    fn count_missed_wake(&mut self)
        ensures { OnlyPlansOrCounts self.old self.new }
    {
        self.counts.missed = self.counts.missed.saturating_add(1);
    }
}
