//! What is shown of a schedule.
ghost use Rattle.std.specs.Prelude.{◌≡◌, ◌-◌, ◌^◌, ◌↔◌, [], IsTrue};
ghost use Rattle.std.specs.Option.{SomeIff};
ghost use Rattle.bq_report.specs.Reports.{HasProcessor, HasTask};
ghost use Rattle.bq_report.specs.Windows.{ShowsProcessor, ShowsTask, Shows, ShowsPart, IsShownMigration, IsShownPart, IsShownWake, part_in_window};

use bq_disc::limits::PROCESSORS;
use bq_disc::mask::allows;
use bq_schedule::{Schedule, Slice, Start, Wake};
use std::alloc::Global;

/// What is shown of a schedule: a stretch of time, processors and tasks. A run is cut at the window's edges. What happens at one moment is
/// shown if the moment is in the window, edges included.
#[derive(Drop)]
pub struct Window {
    /// The first moment, in nanoseconds.
    pub from: u64,
    /// The last moment. `u64::MAX` means no end.
    pub to: u64,
    /// The processors: number p is shown if bit p is set.
    pub processors: u64,
    /// The tasks. An empty list means every task.
    pub tasks: Vec<u16>,
}

impl Window {
    /// Returns a window that shows all of a schedule.
    pub fn whole(alloc: Global) -> Window
        ensures tasks { result.tasks.items ≡ [] }
        ensures rest { (result.from ≡ 0) × (result.to ≡ 2 ^ 64 - 1) × (result.processors ≡ 2 ^ 64 - 1) }
    {
        Window {
            from: 0,
            to: u64::MAX,
            processors: u64::MAX,
            tasks: Vec::new(alloc),
        }
    }

    /// Returns a window of every task, with the same stretch of time and the same processors.
    pub fn with_every_task(&self, alloc: Global) -> Window
        ensures tasks { result.tasks.items ≡ [] }
        ensures rest { (result.from ≡ self.now.from) × (result.to ≡ self.now.to) × (result.processors ≡ self.now.processors) }
    {
        Window {
            from: self.from,
            to: self.to,
            processors: self.processors,
            tasks: Vec::new(alloc),
        }
    }

    /// Tells whether a processor is shown.
    pub fn shows_processor(&self, processor: u8) -> bool
        ensures { IsTrue result ↔ ShowsProcessor self.now processor }
    {
        processor < PROCESSORS && allows(self.processors, processor)
    }

    /// Tells whether the row with this number is shown: the row of the processor with this number.
    pub fn shows_row(&self, number: usize) -> bool
        ensures { IsTrue result ↔ ShowsProcessor self.now number }
    {
        match u8::try_from(number) {
            Ok(number) => self.shows_processor(number),
            Err(_) => false,
        }
    }

    /// Tells whether a task is shown.
    pub fn shows_task(&self, task: u16) -> bool
        ensures { IsTrue result ↔ ShowsTask self.now task }
    {
        self.tasks.is_empty() || self.tasks.contains(&task)
    }

    /// Tells whether a task is in a report: it was admitted, and is shown.
    pub(crate) fn has_task(&self, schedule: &Schedule, task: u16) -> bool
        ensures { IsTrue result ↔ HasTask self.now schedule.now task }
    {
        schedule.task(task).is_admitted && self.shows_task(task)
    }

    /// Tells whether a processor is in a report: it exists, and is shown.
    pub(crate) fn has_processor(&self, schedule: &Schedule, number: u8) -> bool
        ensures { IsTrue result ↔ HasProcessor self.now schedule.now number }
    {
        usize::from(number) < schedule.processors() && self.shows_processor(number)
    }

    /// Tells whether the window shows what happens to a task at a processor at a moment.
    pub fn shows(&self, processor: u8, task: u16, at: u64) -> bool
        ensures { IsTrue result ↔ Shows self.now processor task at }
    {
        self.from <= at && at <= self.to && self.shows_processor(processor) && self.shows_task(task)
    }

    /// Returns the part of a run or a slice that is shown, if any of it is.
    pub fn clip(&self, slice: &Slice) -> Option<Slice>
        ensures { SomeIff result (ShowsPart self.now slice.now) (part_in_window self.now slice.now) }
    {
        let from = slice.from.max(self.from);
        let to = slice.to.min(self.to);
        if from < to && self.shows_processor(slice.processor) && self.shows_task(slice.task) {
            Some(Slice { from, to, ..*slice })
        } else {
            None
        }
    }

    /// Returns the part of a slice that is shown, if there is a slice and any of it is shown.
    pub fn shown_part(&self, slice: Option<Slice>) -> Option<Slice>
        ensures { IsShownPart self.now slice result }
    {
        match slice {
            Some(slice) => self.clip(&slice),
            None => None,
        }
    }

    /// Returns the wake, if there is one and the moment at which it ended is shown.
    pub fn shown_wake(&self, wake: Option<Wake>) -> Option<Wake>
        ensures { IsShownWake self.now wake result }
    {
        let wake = wake?;
        if self.shows(wake.from, wake.task, wake.at) {
            Some(wake)
        } else {
            None
        }
    }

    /// Returns the start of a task on another processor than before, if there is one and its moment is shown.
    pub fn shown_migration(&self, start: Option<Start>) -> Option<Start>
        ensures { IsShownMigration self.now start result }
    {
        let start = start?;
        if start.has_migrated() && self.shows(start.processor, start.task, start.at) {
            Some(start)
        } else {
            None
        }
    }
}
