//! A sink that passes on no more of a machine's events than a limit.
ghost use Rattle.std.specs.Prelude.{◌≡◌, ◌+◌, ◌<◌, ◌⊎◌, false, true};
ghost use Rattle.bq_trace.specs.Borrowed.{event_of};
ghost use Rattle.bq_experiment.specs.Limits.{PassesWithin, event_count};

use bq_simulate::Enough;
use bq_trace::{Sink, TraceEvent};
use std::alloc::AllocError;

/// Passes on to a sink what comes, up to a limit of machine events. Once one more comes it has enough, and passes on nothing more.
#[derive(Drop)]
pub struct Limited<S> {
    pub sink: S,
    /// How many more machine events it may pass on.
    pub left: u64,
    /// Whether a machine event came when it could pass on none.
    pub is_over: bool,
}

impl<S> Limited<S> {
    /// Makes a sink that passes on at most this many machine events.
    pub fn new(sink: S, event_limit: u64) -> Limited<S>
        ensures sink { result.sink ≡ sink }
        ensures left { result.left ≡ event_limit }
        ensures over { result.is_over ≡ false }
    {
        Limited {
            sink,
            left: event_limit,
            is_over: false,
        }
    }

    /// Counts a machine event that is about to be done, and nothing else.
    fn count(&mut self, event: &TraceEvent<'_>)
        ensures sink { self.new.sink ≡ self.old.sink }
        ensures within { self.new.is_over ≡ false → (self.old.left ≡ event_count (event_of event.now) + self.new.left) × (self.old.is_over ≡ false) }
        ensures over { self.new.is_over ≡ true → (self.old.is_over ≡ true) ⊎ (self.old.left < event_count (event_of event.now)) }
    {
        match event {
            TraceEvent::Comes { .. } => match self.left.checked_sub(1) {
                Some(left) => self.left = left,
                None => self.is_over = true,
            },
            TraceEvent::Opened { .. }
            | TraceEvent::Skipped { .. }
            | TraceEvent::Answered { .. }
            | TraceEvent::NotHex
            | TraceEvent::NotLoaded { .. }
            | TraceEvent::ProcessorAsked { .. }
            | TraceEvent::CounterRead { .. }
            | TraceEvent::Bad { .. } => {}
        }
    }
}

impl<S> Enough for Limited<S> {
    ghost has_enough = { λ l. l.is_over };

    fn has_enough(&self) -> bool {
        self.is_over
    }
}

impl<S: Sink> Sink for Limited<S> {
    ghost takes = { PassesWithin S.takes };

    fn receive(&mut self, number: u64, event: &TraceEvent<'_>) -> Result<(), AllocError> {
        self.count(event);
        if self.is_over {
            return Ok(());
        }
        self.sink.receive(number, event)
    }
}
