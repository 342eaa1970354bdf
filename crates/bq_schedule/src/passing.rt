//! A clock is read: the running task is charged, and its time is shared out among the tasks that are runnable there.
ghost use Rattle.std.specs.Prelude.{◌≡◌, ◌<◌, length};
ghost use Rattle.bq_schedule.specs.Figures.{processor_in_figures};
ghost use Rattle.bq_schedule.specs.Passing.{reading_at, slice_at, slice_between, slice_length, joined_run, ended_run, passed, task_charged, with_charged, figures_read, continues_run};

use crate::change::{ClockReading, Start};
use crate::figures::{ProcessorFigures, TaskFigures};
use crate::schedule::{PARTS_PER_NANOSECOND, Schedule};
use crate::slice::Slice;
use bq_disc::clock::LATEST;

/// What a reading of a processor's clock gives.
#[derive(Clone, Copy)]
pub(crate) struct ClockStep {
    /// The reading.
    pub reading: ClockReading,
    /// The slice that the running task is charged, if there is one.
    pub slice: Option<Slice>,
    /// The run that ends, because the slice does not continue it.
    pub ended_run: Option<Slice>,
}

impl Schedule {
    /// Reads the clock of a processor. Returns the reading, the slice that is charged, and the run that ends.
    pub(crate) fn read(&mut self, processor: u8, now: u64) -> ClockStep
        requires { processor < length self.old.processors }
        ensures figures { self.new ≡ figures_read processor now self.old }
        ensures reading { result.reading ≡ reading_at processor (processor_in_figures self.old processor) now }
        ensures slice { result.slice ≡ slice_at processor (processor_in_figures self.old processor) now }
        ensures run { result.ended_run ≡ ended_run (processor_in_figures self.old processor).run (slice_at processor (processor_in_figures self.old processor) now) }
    {
        let figures = &mut self.processors[usize::from(processor)];
        let reading = figures.reading(processor, now);
        let slice = slice_between(
            processor,
            reading.previous,
            reading.current,
            figures.running,
        );
        let run = ended_run(figures.run, slice);
        figures.advance_clock(reading.current, slice);
        self.charge(slice);
        ClockStep {
            reading,
            slice,
            ended_run: run,
        }
    }

    /// Adds the length of a slice, if there is one, to the time of its task.
    fn charge(&mut self, slice: Option<Slice>)
        ensures { self.new ≡ with_charged self.old slice }
    {
        let Some(slice) = slice else {
            return;
        };
        if let Some(task) = self.tasks.get_mut(usize::from(slice.task)) {
            task.charge(slice.length());
        }
    }
}

impl Slice {
    /// Returns how long the slice is, in nanoseconds.
    pub fn length(&self) -> u64
        ensures { result ≡ slice_length (Some self.now) }
    {
        self.to.saturating_sub(self.from)
    }

    /// Tells whether `next` continues this slice: it is of the same task, and begins where this one ends.
    fn goes_on(&self, next: &Slice) -> bool
        ensures { result ≡ continues_run self.now next.now }
    {
        self.task == next.task && self.to == next.from
    }
}

impl TaskFigures {
    /// Adds this length, in nanoseconds, to the time of the task.
    fn charge(&mut self, length: u64)
        ensures { self.new ≡ task_charged self.old length }
    {
        self.time = self.time.saturating_add(length);
    }
}

impl ProcessorFigures {
    /// Returns the reading of the clock, as it counts.
    fn reading(&self, processor: u8, now: u64) -> ClockReading
        ensures { result ≡ reading_at processor self.now now }
    {
        ClockReading {
            processor,
            previous: self.last,
            current: now.min(LATEST).max(self.last),
            is_back: now < self.last,
        }
    }

    /// Sets the clock to a reading, and charges a slice, if there is one: shares its time out among the runnable tasks.
    fn advance_clock(&mut self, to: u64, slice: Option<Slice>)
        ensures { self.new ≡ passed self.old to slice }
    {
        let length = length_of(slice);
        let time = u128::from(length) * PARTS_PER_NANOSECOND;
        let weight = u128::from(self.weight);
        let part = if weight == 0 { 0 } else { time / weight };
        if self.first.is_none() {
            self.first = Some(to);
        }
        self.last = to;
        self.run = joined_run(self.run, slice);
        self.busy = self.busy.saturating_add(length);
        self.shared = self.shared.saturating_add(part);
        self.unshared = self.unshared.saturating_add(time - weight * part);
    }
}

/// Returns the slice of the running task from one reading to another. `None` if no task runs, or if the slice would be empty.
fn slice_between(processor: u8, from: u64, to: u64, running: Option<Start>) -> Option<Slice>
    ensures { result ≡ slice_between processor from to running }
{
    match running {
        Some(start) if from < to => Some(Slice {
            processor,
            task: start.task,
            from,
            to,
        }),
        _ => None,
    }
}

/// Returns how long a slice is, in nanoseconds; 0 if there is no slice.
fn length_of(slice: Option<Slice>) -> u64
    ensures { result ≡ slice_length slice }
{
    match slice {
        Some(slice) => slice.length(),
        None => 0,
    }
}

/// Returns the last run, after another slice: the slice continues it, or begins a new one.
fn joined_run(run: Option<Slice>, slice: Option<Slice>) -> Option<Slice>
    ensures { result ≡ joined_run run slice }
{
    match (run, slice) {
        (Some(run), Some(slice)) if run.goes_on(&slice) => Some(Slice {
            to: slice.to,
            ..run
        }),
        (_, Some(slice)) => Some(slice),
        (run, None) => run,
    }
}

/// Returns the run that ends because the next slice does not continue it.
fn ended_run(run: Option<Slice>, slice: Option<Slice>) -> Option<Slice>
    ensures { result ≡ ended_run run slice }
{
    match (run, slice) {
        (Some(run), Some(slice)) if !run.goes_on(&slice) => Some(run),
        _ => None,
    }
}
