//! What the events of a trace need to know of the events before them.
ghost use Rattle.std.specs.Prelude.{◌≡◌, IfOk};
ghost use Rattle.bq_drawing.specs.PastEvents.{after_count, after_run, after_start, after_wake, arrow_if, arrows_to, last_run, next_arrow, written_count, empty_past, wake_arrow};

use bq_disc::limits::TASKS;
use bq_schedule::Slice;
use std::alloc::{AllocError, Global};
use std::marker::Model;

/// The numbers of the arrows that end at the beginning of a run.
#[derive(Clone, Copy)]
pub struct Arrows {
    pub wake: Option<u64>,
    pub migration: Option<u64>,
}

/// A run without arrows.
const NO_ARROWS: Arrows = Arrows {
    wake: None,
    migration: None,
};

/// What the events of a trace need to know of the events before them.
#[derive(Drop)]
pub struct PastEvents {
    /// For each processor, the arrows that end at the beginning of its current run.
    ends: Vec<Arrows>,
    /// For each processor, how many tasks were runnable when the count was last written.
    counts: Vec<u64>,
    /// For each task that was woken and has not run since: the arrow of that wake, if it is shown.
    woken: Vec<Option<u64>>,
    /// For each task, its last run that ended, if it is shown.
    runs: Vec<Option<Slice>>,
    /// How many arrows have begun.
    arrows: u64,
}

impl Model for PastEvents {
    ghost use Rattle.bq_drawing.specs.PastEvents.{Past};

    ghost Value = { Past };

    ghost view = { λ h. record { ends = h.ends.items; counts = h.counts.items; woken = h.woken.items; runs = h.runs.items; arrows = h.arrows } };
}

impl PastEvents {
    /// Returns no past events, of no processors and no tasks.
    pub fn new(alloc: Global) -> PastEvents
        ensures { result ≡ empty_past 0 0 }
    {
        PastEvents {
            ends: Vec::new(alloc),
            counts: Vec::new(alloc),
            woken: Vec::new(alloc),
            runs: Vec::new(alloc),
            arrows: 0,
        }
    }

    /// Returns no past events, of this many processors and every task.
    pub fn of(alloc: Global, processors: usize) -> Result<PastEvents, AllocError>
        ensures { IfOk result (λ h. h ≡ empty_past processors TASKS) }
    {
        let mut ends = Vec::with_capacity(alloc, processors)?;
        let mut counts = Vec::with_capacity(alloc, processors)?;
        'processors: for _ in 0..processors {
            ends.push(NO_ARROWS)?;
            counts.push(0)?;
        }
        let mut woken = Vec::with_capacity(alloc, usize::from(TASKS))?;
        let mut runs = Vec::with_capacity(alloc, usize::from(TASKS))?;
        'tasks: for _ in 0..usize::from(TASKS) {
            woken.push(None)?;
            runs.push(None)?;
        }
        Ok(PastEvents {
            ends,
            counts,
            woken,
            runs,
            arrows: 0,
        })
    }

    /// Returns the number of the next arrow.
    pub fn next_arrow(&self) -> u64
        ensures { result ≡ next_arrow self.now }
    {
        self.arrows.saturating_add(1)
    }

    /// Returns the number of the next arrow if an arrow begins, otherwise `None`.
    fn arrow_if(&self, begins: bool) -> Option<u64>
        ensures { result ≡ arrow_if begins self.now }
    {
        if begins {
            Some(self.next_arrow())
        } else {
            None
        }
    }

    /// Notes that a task was woken. If `begins`, the arrow of its wake begins.
    pub fn note_wake(&mut self, task: u16, begins: bool)
        ensures { self.new ≡ after_wake task begins self.old }
    {
        let arrow = self.arrow_if(begins);
        self.arrows = arrow.unwrap_or(self.arrows);
        if let Some(place) = self.woken.get_mut(usize::from(task)) {
            *place = arrow;
        }
    }

    /// Returns the arrow from a task's wake to its next run, if there is one.
    fn wake_arrow(&self, task: u16) -> Option<u64>
        ensures { result ≡ wake_arrow self.now task }
    {
        match self.woken.get(usize::from(task)) {
            Some(arrow) => *arrow,
            None => None,
        }
    }

    /// Notes that a task started at a processor. If `begins`, an arrow leads there from the task's last run.
    pub fn note_start(&mut self, processor: u8, task: u16, begins: bool)
        ensures { self.new ≡ after_start processor task begins self.old }
    {
        let wake = self.wake_arrow(task);
        let migration = self.arrow_if(begins);
        self.arrows = migration.unwrap_or(self.arrows);
        if let Some(place) = self.ends.get_mut(usize::from(processor)) {
            *place = Arrows { wake, migration };
        }
        if let Some(place) = self.woken.get_mut(usize::from(task)) {
            *place = None;
        }
    }

    /// Returns the arrows that end at the beginning of a processor's current run.
    pub fn arrows_to(&self, processor: u8) -> Arrows
        ensures { result ≡ arrows_to self.now processor }
    {
        match self.ends.get(usize::from(processor)) {
            Some(arrows) => *arrows,
            None => NO_ARROWS,
        }
    }

    /// Notes that a run of a task ended. `part` is the shown part of it, if any.
    pub fn note_run(&mut self, task: u16, part: Option<Slice>)
        ensures { self.new ≡ after_run task part self.old }
    {
        if let Some(place) = self.runs.get_mut(usize::from(task)) {
            *place = part;
        }
    }

    /// Returns the shown part of a task's last run that ended, if any.
    pub fn last_run(&self, task: u16) -> Option<Slice>
        ensures { result ≡ last_run self.now task }
    {
        match self.runs.get(usize::from(task)) {
            Some(run) => *run,
            None => None,
        }
    }

    /// Returns how many tasks were runnable at a processor when the count was last written. `None` if the processor does not exist.
    pub fn written_count(&self, processor: u8) -> Option<u64>
        ensures { result ≡ written_count self.now processor }
    {
        self.counts.get(usize::from(processor)).copied()
    }

    /// Notes the count that is written for a processor.
    pub fn note_count(&mut self, processor: u8, count: u64)
        ensures { self.new ≡ after_count processor count self.old }
    {
        if let Some(place) = self.counts.get_mut(usize::from(processor)) {
            *place = count;
        }
    }
}
