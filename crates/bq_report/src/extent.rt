//! The time over which a picture is drawn.
ghost use Rattle.std.specs.Prelude.{◌≡◌, ◌-◌, ◌≤◌, IfSome, IfNone};
ghost use Rattle.bq_report.specs.declared.extent.Extent.{Extent};
ghost use Rattle.bq_report.specs.Extents.{IsInWindow, SpansReadings};

use crate::window::Window;
use bq_disc::limits::PROCESSORS;
use bq_schedule::Schedule;

/// The time over which a picture is drawn. It reaches from the first reading of a shown processor's clock to the last, and is cut at the
/// edges of the window. It is not empty.
#[derive(Clone, Copy)]
pub struct Extent {
    pub from: u64,
    pub to: u64,
}

impl Extent {
    /// Returns the extent of a schedule in a window. `None` if no time passes, or if no shown processor's clock was read.
    pub fn of(schedule: &Schedule, window: &Window) -> Option<Extent>
        ensures window { IfSome result (IsInWindow window.now) }
        ensures extent { IfSome result (SpansReadings window.now schedule.now) }
        ensures none { IfNone result ((extent : Extent) → SpansReadings window.now schedule.now extent → extent.to ≤ extent.from) }
    {
        let mut first = u64::MAX;
        let mut last = 0;
        for number in 0..PROCESSORS {
            let figures = schedule.processor(number);
            if let Some(reading) = figures.first {
                if window.shows_processor(number) {
                    first = first.min(reading);
                    last = last.max(figures.last);
                }
            }
        }
        let from = first.max(window.from);
        let to = last.min(window.to);
        (from < to).then_some(Extent { from, to })
    }

    /// Returns how long the extent is, in nanoseconds.
    pub fn length(&self) -> u64
        ensures { result ≡ self.now.to - self.now.from }
    {
        self.to.saturating_sub(self.from)
    }
}
