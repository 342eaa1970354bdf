//! A schedule, from answers only.
ghost use Rattle.std.specs.Prelude.{◌≡◌, IfOk, length};
ghost use Rattle.bq_schedule.specs.Figures.{opening_figures, processor_in_figures, task_in_figures, figures_with_processor, figures_with_task};
ghost use Rattle.bq_schedule.specs.Observed.{observed_time};
ghost use Rattle.bq_schedule.specs.Runnable.{fair_of, undrained};
ghost use Rattle.bq_schedule.specs.Steps.{figures_after, change, is_there};

use crate::change::Change;
use crate::figures::{ProcessorFigures, TaskFigures};
use bq_disc::limits::TASKS;
use bq_parts::{Event, Refusal, Reply};
use std::alloc::{AllocError, Global};
use std::marker::Model;

/// How many parts a nanosecond has. Fair times are counted in parts.
pub const PARTS_PER_NANOSECOND: u128 = 1_000_000_000_000;

/// A schedule: who ran where and when, as events and their answers have shown it so far.
///
/// It takes one answer at a time. Each takes constant time: it does not grow with the history, the tasks or the processors. A
/// schedule takes no memory after it is made.
#[derive(Drop)]
pub struct Schedule {
    pub(crate) processors: Vec<ProcessorFigures>,
    pub(crate) tasks: Vec<TaskFigures>,
    pub(crate) refused: u64,
}

impl Model for Schedule {
    ghost use Rattle.bq_schedule.specs.Figures.{Figures};

    ghost Value = { Figures };

    ghost view = { λ s. record { processors = s.processors.items; tasks = s.tasks.items; refused = s.refused } };
}

impl Schedule {
    /// Returns the schedule of this many processors before the first event. Takes all the memory that it ever needs.
    pub fn new(alloc: Global, processors: u8) -> Result<Schedule, AllocError>
        ensures { IfOk result (λ s. s ≡ opening_figures processors) }
    {
        let mut figures = Vec::with_capacity(alloc, usize::from(processors))?;
        'processors: for _ in 0..processors {
            figures.push(ProcessorFigures::new())?;
        }
        let mut tasks = Vec::with_capacity(alloc, usize::from(TASKS))?;
        'tasks: for _ in 0..usize::from(TASKS) {
            tasks.push(TaskFigures::new())?;
        }
        Ok(Schedule {
            processors: figures,
            tasks,
            refused: 0,
        })
    }

    /// Adds an event and its answer to the schedule, and returns what they changed. A refused event is counted, and changes nothing
    /// else. An event also changes nothing if its answer is not of its kind, or if it names a processor that does not exist.
    pub fn add_answer(&mut self, event: &Event, answer: &Result<Reply, Refusal>) -> Change
        ensures figures { self.new ≡ figures_after self.old event.now answer.now }
        ensures change { result ≡ change self.old event.now answer.now }
    {
        match answer {
            Ok(reply) if self.has_processor(event) => self.perform(event, reply),
            Ok(_) => Change::nothing(),
            Err(_) => {
                self.refused = self.refused.saturating_add(1);
                Change::nothing()
            }
        }
    }

    /// Returns the figures of a processor. If the processor does not exist: the figures of one where nothing happened.
    pub fn processor(&self, number: u8) -> ProcessorFigures
        ensures { result ≡ processor_in_figures self.now number }
    {
        match self.processors.get(usize::from(number)) {
            Some(figures) => *figures,
            None => ProcessorFigures::new(),
        }
    }

    /// Returns the figures of a task. If the id was never admitted: the figures of one to which nothing happened.
    pub fn task(&self, id: u16) -> TaskFigures
        ensures { result ≡ task_in_figures self.now id }
    {
        match self.tasks.get(usize::from(id)) {
            Some(figures) => *figures,
            None => TaskFigures::new(),
        }
    }

    /// Returns the fair time of a task, in parts of a nanosecond. It adds up each moment in which a task ran at the processor where
    /// this one was runnable, times its weight over the sum of all weights that were runnable there.
    pub fn fair_time(&self, id: u16) -> u128
        ensures { result ≡ fair_of self.now id }
    {
        self.fair_of(&self.task(id))
    }

    /// Returns the processor on which a task was placed, if that processor has not drained its inbox since.
    pub fn undrained(&self, id: u16) -> Option<u8>
        ensures { result ≡ undrained self.now id }
    {
        let task = self.task(id);
        let processor = task.processor?;
        let drains = task.drains_when_placed?;
        if self.processor(processor).drains == drains {
            Some(processor)
        } else {
            None
        }
    }

    /// Returns the time from the earliest first reading of any processor's clock to the latest last one, in nanoseconds. 0 if no clock
    /// was read.
    pub fn observed_time(&self) -> u64
        ensures { result ≡ observed_time self.now }
    {
        let first = self.processors.iter().filter_map(|p| p.first).min();
        let last = self
            .processors
            .iter()
            .filter(|p| p.first.is_some())
            .map(|p| p.last)
            .max();
        last.unwrap_or(0).saturating_sub(first.unwrap_or(0))
    }

    /// Returns how many processors there are.
    pub fn processors(&self) -> usize
        ensures { result ≡ length self.now.processors }
    {
        self.processors.len()
    }

    /// Returns how many events were refused. The count stops at its greatest value.
    pub fn refused(&self) -> u64
        ensures { result ≡ self.now.refused }
    {
        self.refused
    }
}

impl Schedule {
    /// Tells whether the processor exists whose clock an event reads. True for an event that reads no clock.
    fn has_processor(&self, event: &Event) -> bool
        ensures { result ≡ is_there self.now event.now }
    {
        match event {
            Event::EndWake { processor, now: _ }
            | Event::Drain { processor, now: _ }
            | Event::Tick { processor, now: _ }
            | Event::Block { processor, now: _ }
            | Event::Pull {
                processor,
                from: _,
                now: _,
            } => usize::from(*processor) < self.processors.len(),
            _ => true,
        }
    }

    /// Replaces the figures of a processor, if the processor exists.
    pub(crate) fn set_processor(&mut self, number: u8, figures: ProcessorFigures)
        ensures { self.new ≡ figures_with_processor self.old number figures }
    {
        if let Some(place) = self.processors.get_mut(usize::from(number)) {
            *place = figures;
        }
    }

    /// Replaces the figures of a task, if its id is below 1024.
    pub(crate) fn set_task(&mut self, id: u16, figures: TaskFigures)
        ensures { self.new ≡ figures_with_task self.old id figures }
    {
        if let Some(place) = self.tasks.get_mut(usize::from(id)) {
            *place = figures;
        }
    }
}
