//! A viewer below the comments that begin a trace.
ghost use Rattle.std.specs.Prelude.{◌≡◌};
ghost use Rattle.bq_timeline.specs.Timelines.{TakesEvent};

use bq_timeline::viewer::Viewer;
use bq_trace::{Sink, TraceEvent};
use std::alloc::AllocError;

/// A viewer of the lines that come after the comments which name the tasks. It adds `offset`, the number of these comments, to
/// the number of each line.
#[derive(Drop)]
pub struct OffsetViewer {
    pub viewer: Viewer,
    pub offset: u64,
}

impl Sink for OffsetViewer {
    ghost takes = { λ old n traced new. (new.offset ≡ old.offset) × TakesEvent old.viewer traced new.viewer };

    fn receive(&mut self, number: u64, event: &TraceEvent<'_>) -> Result<(), AllocError> {
        self.viewer
            .receive(number.saturating_add(self.offset), event)
    }
}
