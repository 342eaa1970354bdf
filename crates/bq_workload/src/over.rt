//! Whether a simulation is over.
ghost use Rattle.std.specs.Prelude.{◌≡◌, ◌≤◌};
ghost use Rattle.std.specs.List.{list_all};
ghost use Rattle.bq_workload.specs.TaskProgress.{keeps_phase, keeps_time};
ghost use Rattle.bq_workload.specs.Accounts.{accounts_of, is_over, rests_past, runs_past};
ghost use Rattle.bq_workload.specs.Next.{HaveHomes, NothingComes};
ghost use Rattle.bq_disc.specs.declared.clock.TheConstants.{LATEST};

use crate::processor_state::ProcessorState;
use crate::roster::Roster;

impl Roster {
    /// Whether no task has run past its phase, and nothing comes until the end: no timer wakes a task, no phase of a
    /// task that runs ends, and no processor ticks or looks for a task to pull. If nothing comes any more, it is over unless a
    /// task has run past its phase.
    pub fn is_over(&self, end: u64) -> bool
        ensures over { result ≡ is_over end (accounts_of self.now) }
        ensures nothing_due { end ≤ LATEST → HaveHomes (accounts_of self.now) → NothingComes end (accounts_of self.now) → result ≡ list_all keeps_phase self.now.by_task.items }
    {
        self.all_keep_time(end) && self.all_run_past(end) && self.all_rest_past(end)
    }

    /// Whether no task has run past its phase, and no timer wakes one until the end.
    fn all_keep_time(&self, end: u64) -> bool
        ensures { result ≡ list_all (keeps_time end) self.now.by_task.items }
    {
        self.by_task.iter().all(|progress| progress.keeps_time(end))
    }

    /// Whether no phase of a task that runs ends until the end.
    fn all_run_past(&self, end: u64) -> bool
        ensures { result ≡ list_all (runs_past end self.now.by_task.items) self.now.by_processor.items }
    {
        self.by_processor
            .iter()
            .all(|processor_state| self.runs_past(processor_state, end))
    }

    /// Whether no processor ticks or looks for a task to pull until the end.
    fn all_rest_past(&self, end: u64) -> bool
        ensures { result ≡ list_all (rests_past end) self.now.by_processor.items }
    {
        self.by_processor
            .iter()
            .all(|processor_state| processor_state.rests_past(end))
    }

    /// Whether the phase of the task that runs at a processor ends after the end; true if none runs.
    fn runs_past(&self, processor_state: &ProcessorState, end: u64) -> bool
        ensures { result ≡ runs_past end self.now.by_task.items processor_state.now }
    {
        match processor_state.run {
            Some(task) => match self.by_task.get(usize::from(task)) {
                Some(progress) => progress.lacks_more(processor_state.since, end),
                None => false,
            },
            None => true,
        }
    }
}
