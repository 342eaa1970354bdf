//! A sink receives the events of a trace, one by one. The text that answers a trace is a sink.
ghost use Rattle.std.specs.Prelude.{◌≡◌, ◌++◌, ℕ, OnOk, string_bytes};
ghost use Rattle.bq_trace.specs.TraceEvents.{TraceEvent as TraceEventValue, text_of};
ghost use Rattle.bq_trace.specs.Borrowed.{event_of};

use crate::loading::write_fault;
use crate::processor_line::write_shown;
use crate::texts::{write_answer, write_bad, write_counter};
use crate::trace_event::TraceEvent;
use std::alloc::AllocError;

/// Receives the events of a trace, in order.
///
/// A `String` is a sink: it receives the lines that answer a trace.
pub trait Sink {
    /// How an event with the number of its line changes the sink: the sink before and after.
    ghost takes: { Self → ℕ → TraceEventValue → Self → Type 0 };

    /// Receives an event. `number` is the number of its line, from 1. It is 0 for a comment that a simulation puts above the trace.
    /// Fails only by `AllocError`. A sink that also writes notes for itself whether a write failed.
    fn receive(&mut self, number: u64, event: &TraceEvent<'_>) -> Result<(), AllocError>
        ensures { OnOk result (takes self.old number (event_of event.now) self.new) };
}

impl Sink for String {
    ghost takes = { λ old n traced new. string_bytes new ≡ string_bytes old ++ text_of n traced };

    // Inlined, so that no event is built that nothing reads.
    #[inline(always)]
    fn receive(&mut self, number: u64, event: &TraceEvent<'_>) -> Result<(), AllocError> {
        match event {
            TraceEvent::Opened { .. } | TraceEvent::Skipped { .. } | TraceEvent::Comes { .. } => {
                Ok(())
            }
            TraceEvent::Answered { answer, .. } => write_answer(self, answer),
            TraceEvent::NotHex => self.push_str("refused hex\n"),
            TraceEvent::NotLoaded { fault } => write_fault(self, *fault),
            TraceEvent::ProcessorAsked { processor, machine } => write_shown(
                self, *processor, machine,
            ),
            TraceEvent::CounterRead { counter, value } => write_counter(self, *counter, *value),
            TraceEvent::Bad { .. } => write_bad(self, number),
        }
    }
}
