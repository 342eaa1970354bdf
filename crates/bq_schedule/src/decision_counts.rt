//! How the decisions of each hook are counted: how often its policies were asked, and how often they were overruled.
ghost use Rattle.std.specs.Prelude.{◌≡◌, if◌then◌else◌};
ghost use Rattle.bq_disc.specs.Counts.{saturating_sum};
ghost use Rattle.bq_schedule.specs.Steps.{hook_counted, processor_counted, figures_counted};

use crate::change::Decision;
use crate::figures::{HookFigures, ProcessorFigures};
use crate::schedule::Schedule;
use bq_hooks::Hook;

impl Schedule {
    /// Counts a decision of a processor's hook, if the processor exists.
    pub(crate) fn count_decision(&mut self, processor: u8, decision: &Decision)
        ensures { self.new ≡ figures_counted processor decision.now self.old }
    {
        if let Some(figures) = self.processors.get_mut(usize::from(processor)) {
            figures.count_decision(decision);
        }
    }
}

impl ProcessorFigures {
    /// Counts a decision of one of the processor's hooks.
    fn count_decision(&mut self, decision: &Decision)
        ensures { self.new ≡ processor_counted self.old decision.now decision.now.hook }
    {
        match decision.hook {
            Hook::Place => self.place.count_decision(decision),
            Hook::Preempt => self.preempt.count_decision(decision),
            Hook::Pull => self.pull.count_decision(decision),
        }
    }
}

impl HookFigures {
    /// Counts one decision of this hook.
    fn count_decision(&mut self, decision: &Decision)
        ensures { self.new ≡ hook_counted self.old decision.now }
    {
        self.asked = count_if(self.asked, decision.was_asked());
        self.overruled = count_if(self.overruled, decision.was_overruled());
        self.steps = self.steps.saturating_add(u64::from(decision.steps));
    }
}

/// Returns a count, one higher if something holds. It stops at its greatest value.
pub(crate) fn count_if(count: u64, holds: bool) -> u64
    ensures { result ≡ saturating_sum count (if holds then 1 else 0) }
{
    if holds {
        count.saturating_add(1)
    } else {
        count
    }
}
