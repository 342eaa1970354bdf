//! Where tasks are runnable: a task comes to a processor, and leaves it.
ghost use Rattle.std.specs.Prelude.{◌≡◌};
ghost use Rattle.bq_schedule.specs.Runnable.{pending, fair_at, processor_left, processor_joined, figures_left, joins, comes};

use crate::figures::{ProcessorFigures, TaskFigures};
use crate::schedule::Schedule;

impl Schedule {
    /// Returns the fair time of a task with these figures, in parts of a nanosecond.
    pub(crate) fn fair_of(&self, task: &TaskFigures) -> u128
        ensures { result ≡ fair_at self.now task.now task.now.processor }
    {
        match task.processor {
            Some(processor) => task
                .earlier_fair_time
                .saturating_add(self.processor(processor).pending(task)),
            None => task.earlier_fair_time,
        }
    }

    /// Takes a task away from the processor where it is runnable, if there is one.
    pub(crate) fn leave(&mut self, id: u16)
        ensures { self.new ≡ figures_left id self.old }
    {
        let mut task = self.task(id);
        let Some(processor) = task.processor else {
            return;
        };
        task.earlier_fair_time = self.fair_of(&task);
        task.processor = None;
        task.drains_when_placed = None;
        let mut figures = self.processor(processor);
        figures.remove_task(task.weight);
        self.set_processor(processor, figures);
        self.set_task(id, task);
    }

    /// Lets a task that is not runnable become runnable at a processor now.
    fn arrive(&mut self, id: u16, processor: u8, now: u64)
        ensures { self.new ≡ joins id processor now self.old }
    {
        let mut task = self.task(id);
        let mut figures = self.processor(processor);
        task.processor = Some(processor);
        task.waiting_since = now;
        task.shared_at_arrival = figures.shared;
        figures.add_task(task.weight);
        self.set_processor(processor, figures);
        self.set_task(id, task);
    }

    /// Lets a task become runnable at a processor, and nowhere else.
    pub(crate) fn move_to(&mut self, id: u16, processor: u8, now: u64)
        ensures { self.new ≡ comes id processor now self.old }
    {
        self.leave(id);
        self.arrive(id, processor, now);
    }
}

impl ProcessorFigures {
    /// Returns the share that a task of this processor has had since it came, in parts of a nanosecond.
    fn pending(&self, task: &TaskFigures) -> u128
        ensures { result ≡ pending self.now task.now }
    {
        u128::from(task.weight).saturating_mul(self.shared.saturating_sub(task.shared_at_arrival))
    }

    /// Takes away a task of this weight: it is no longer runnable here.
    fn remove_task(&mut self, weight: u32)
        ensures { self.new ≡ processor_left self.old weight }
    {
        self.runnable = self.runnable.saturating_sub(1);
        self.weight = self.weight.saturating_sub(u64::from(weight));
    }

    /// Adds a task of this weight: it is runnable here from now on.
    fn add_task(&mut self, weight: u32)
        ensures { self.new ≡ processor_joined self.old weight }
    {
        self.runnable = self.runnable.saturating_add(1);
        self.weight = self.weight.saturating_add(u64::from(weight));
    }
}
