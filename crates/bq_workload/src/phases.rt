//! How a task is woken, takes up an action, and comes to the end of a phase.
ghost use Rattle.std.specs.Prelude.{◌≡◌, ◌<◌, ◌≤◌, ◌⊎◌, None, Some, IfOk, IfErr, OnOk, slice_get, slice_set, length};
ghost use Rattle.bq_workload.specs.TaskProgress.{progress_woken};
ghost use Rattle.bq_workload.specs.Accounts.{accounts_of, accounts_charged, IsPhaseDone, of_task};
ghost use Rattle.bq_workload.specs.Dues.{IsDropped, IsPlanned, phase_end};
ghost use Rattle.bq_workload.specs.Next.{TaskRests, StaysAgreed, runs_at};
ghost use Rattle.bq_workload.specs.Plans.{PlansTimer, ProgressIsPlanned};
ghost use Rattle.bq_workload.specs.Strays.{IsStrayEnd, IsStrayProgress, IsStrayWake, NoneIsDone};

use crate::Due;
use crate::broken_invariant::BrokenInvariant;
use crate::progress::{TaskProgress, TaskState};
use crate::roster::Roster;
use bq_disc::limits::{PROCESSORS, TASKS};

impl Roster {
    /// A task that runs nowhere is woken, and has no phase yet; no timer wakes it.
    pub fn wake(&mut self, task: u16) -> Result<(), BrokenInvariant>
        ensures accounts { OnOk result (accounts_of self.new ≡ of_task progress_woken task (accounts_of self.old)) }
        ensures dropped { OnOk result (IsDropped (Due.Wake task) self.old.event_queue self.new.event_queue) }
        ensures agrees { OnOk result (StaysAgreed self.old self.new) }
        ensures periods { self.new.periods ≡ self.old.periods }
        ensures stray { IfErr result (λ _. IsStrayWake task (accounts_of self.old)) }
    {
        self.find_at_rest(task)?;
        self.drop_plan(Due::Wake(task))?;
        self.rouse(task);
        Ok(())
    }

    /// A task has no phase yet, and can run.
    fn rouse(&mut self, task: u16)
        requires there { task < length self.old.by_task.items }
        ensures accounts { accounts_of self.new ≡ of_task progress_woken task (accounts_of self.old) }
        ensures event_queue { self.new.event_queue ≡ self.old.event_queue }
        ensures periods { self.new.periods ≡ self.old.periods }
    {
        self.by_task[usize::from(task)].wake();
    }

    /// The task that runs at a processor has this progress. The end of its phase is planned, and its timer if it sleeps until
    /// its timer wakes it.
    pub fn take_up(
        &mut self,
        processor: u8,
        task: u16,
        progress: TaskProgress,
    ) -> Result<(), BrokenInvariant>
        ensures there { OnOk result (task < length self.old.by_task.items) }
        ensures by_task { OnOk result (self.new.by_task.items ≡ slice_set self.old.by_task.items task progress) }
        ensures by_processor { self.new.by_processor ≡ self.old.by_processor }
        ensures plans { OnOk result (ProgressIsPlanned processor task progress self.old self.new) }
        ensures agrees { OnOk result (StaysAgreed self.old self.new) }
        ensures periods { self.new.periods ≡ self.old.periods }
        ensures stray { IfErr result (λ _. IsStrayProgress processor task progress (accounts_of self.old)) }
    {
        self.set_progress(task, progress)?;
        self.plan_progress(processor, task, &progress)
    }

    /// Keeps the progress of a task.
    fn set_progress(&mut self, task: u16, progress: TaskProgress) -> Result<(), BrokenInvariant>
        ensures there { OnOk result (task < length self.old.by_task.items) }
        ensures by_task { OnOk result (self.new.by_task.items ≡ slice_set self.old.by_task.items task progress) }
        ensures by_processor { self.new.by_processor ≡ self.old.by_processor }
        ensures event_queue { self.new.event_queue ≡ self.old.event_queue }
        ensures periods { self.new.periods ≡ self.old.periods }
        ensures missing { IfErr result (λ _. slice_get self.old.by_task.items task ≡ None) }
    {
        let Some(place) = self.by_task.get_mut(usize::from(task)) else {
            return Err(BrokenInvariant);
        };
        *place = progress;
        Ok(())
    }

    /// Plans the end of the phase of the task that runs at a processor, and its timer if it sleeps until its timer wakes it.
    fn plan_progress(
        &mut self,
        processor: u8,
        task: u16,
        progress: &TaskProgress,
    ) -> Result<(), BrokenInvariant>
        ensures plans { OnOk result (ProgressIsPlanned processor task progress.now self.old self.new) }
        ensures stray { IfErr result (λ _. IsStrayProgress processor task progress.now (accounts_of self.old)) }
        ensures by_task { self.new.by_task ≡ self.old.by_task }
        ensures by_processor { self.new.by_processor ≡ self.old.by_processor }
        ensures periods { self.new.periods ≡ self.old.periods }
    {
        let processor_state = self.processor_state(processor)?;
        if processor_state.run != Some(task) || progress.home != processor {
            return Err(BrokenInvariant);
        }
        self.plan_timer(task, progress)?;
        self.plan_end(processor, progress, processor_state.since)
    }

    /// Plans the timer of a task if the task sleeps until its timer wakes it; drops its plan otherwise.
    fn plan_timer(&mut self, task: u16, progress: &TaskProgress) -> Result<(), BrokenInvariant>
        ensures timer { OnOk result (PlansTimer self.old.periods.end task progress.now.task_state progress.now.timer self.old.event_queue self.new.event_queue) }
        ensures stray { IfErr result (λ _. TASKS ≤ task) }
        ensures by_task { self.new.by_task ≡ self.old.by_task }
        ensures by_processor { self.new.by_processor ≡ self.old.by_processor }
        ensures periods { self.new.periods ≡ self.old.periods }
    {
        match progress.task_state {
            TaskState::Asleep => self.plan(Due::Wake(task), progress.timer),
            _ => self.drop_plan(Due::Wake(task)),
        }
    }

    /// Plans the end of the phase of the task that runs at a processor: when it has got the rest of what it takes.
    pub(crate) fn plan_end(
        &mut self,
        processor: u8,
        progress: &TaskProgress,
        now: u64,
    ) -> Result<(), BrokenInvariant>
        ensures planned { OnOk result (IsPlanned self.old.periods.end (Due.End processor) (phase_end now progress.now) self.old.event_queue self.new.event_queue) }
        ensures stray { IfErr result (λ _. (progress.now.due < progress.now.got) ⊎ (PROCESSORS ≤ processor)) }
        ensures by_task { self.new.by_task ≡ self.old.by_task }
        ensures by_processor { self.new.by_processor ≡ self.old.by_processor }
        ensures periods { self.new.periods ≡ self.old.periods }
    {
        match progress.due.checked_sub(progress.got) {
            Some(left) => self.plan(Due::End(processor), now.saturating_add(left)),
            None => Err(BrokenInvariant),
        }
    }

    /// The phase of the task that runs at a processor has ended now. Returns the task and its progress: it has got exactly what
    /// its phase takes.
    pub fn end_phase(
        &mut self,
        processor: u8,
        now: u64,
    ) -> Result<(u16, TaskProgress), BrokenInvariant>
        ensures done { IfOk result (λ ended. IsPhaseDone (accounts_of self.new) processor ended.0 ended.1) }
        ensures accounts { OnOk result (accounts_of self.new ≡ accounts_charged processor now (accounts_of self.old)) }
        ensures event_queue { self.new.event_queue ≡ self.old.event_queue }
        ensures agrees { OnOk result (StaysAgreed self.old self.new) }
        ensures periods { self.new.periods ≡ self.old.periods }
        ensures stray { IfErr result (λ _. IsStrayEnd processor now (accounts_of self.old)) }
    {
        self.charge(processor, now)?;
        self.done_at(processor)
    }

    /// The task that runs at a processor and its progress, if it has got exactly what its phase takes.
    fn done_at(&self, processor: u8) -> Result<(u16, TaskProgress), BrokenInvariant>
        ensures done { IfOk result (λ ended. IsPhaseDone (accounts_of self.now) processor ended.0 ended.1) }
        ensures stray { IfErr result (λ _. NoneIsDone processor (accounts_of self.now)) }
    {
        let Some(task) = self.processor_state(processor)?.run else {
            return Err(BrokenInvariant);
        };
        let progress = self.progress(task)?;
        if !progress.is_done() {
            return Err(BrokenInvariant);
        }
        Ok((task, progress))
    }

    /// Checks that a task does not run at the processor where it ran last, by what is kept; so it runs nowhere.
    pub(crate) fn find_at_rest(&self, task: u16) -> Result<(), BrokenInvariant>
        ensures rests { OnOk result (TaskRests (accounts_of self.now) task) }
        ensures stray { IfErr result (λ _. TaskRests (accounts_of self.now) task → ⊥) }
    {
        let progress = self.progress(task)?;
        if self.runs_at(progress.home, task) {
            return Err(BrokenInvariant);
        }
        Ok(())
    }

    /// Whether a task runs at a processor.
    fn runs_at(&self, processor: u8, task: u16) -> bool
        ensures { result ≡ runs_at self.now.by_processor.items processor task }
    {
        match self.by_processor.get(usize::from(processor)) {
            Some(processor_state) => processor_state.run == Some(task),
            None => false,
        }
    }
}
