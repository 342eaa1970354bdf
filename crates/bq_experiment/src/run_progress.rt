//! The progress of one run.

use bq_console::{EVENTS, ProgressLine, WorkDone};
use bq_parts::Event;
use bq_workload::Workload;

/// The progress of a run, by the times of its events.
#[derive(Drop)]
pub struct RunProgress<'a> {
    progress: &'a ProgressLine<'a>,
    /// How long it is, in nanoseconds.
    duration: u64,
    /// How many events have come.
    events: u64,
    /// The time of the last event that has one.
    now: u64,
}

impl<'a> RunProgress<'a> {
    /// Begins the progress of a run of this workload, of which no event has come.
    pub(crate) fn new(workload: &Workload, progress: &'a ProgressLine<'a>) -> RunProgress<'a> {
        RunProgress {
            progress,
            duration: workload.machine.duration,
            events: 0,
            now: 0,
        }
    }

    /// Counts an event. About once a second, shows how far the run is.
    pub(crate) fn count(&mut self, event: &Event) {
        if let Some(now) = time_of(event) {
            self.now = now;
        }
        self.events = self.events.saturating_add(1);
        if self.events % EVENTS == 0 {
            self.progress.show(WorkDone::Percent(self.percent()));
        }
    }

    /// Returns how much of its time has passed, in percent.
    fn percent(&self) -> u64 {
        self.now.saturating_mul(100) / self.duration.max(1)
    }
}

/// Returns the time of an event, if it has one.
fn time_of(event: &Event) -> Option<u64> {
    match event {
        Event::EndWake { now, .. }
        | Event::Drain { now, .. }
        | Event::Tick { now, .. }
        | Event::Block { now, .. }
        | Event::Pull { now, .. } => Some(*now),
        _ => None,
    }
}
