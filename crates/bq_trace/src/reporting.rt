//! One event of a line, reported to a sink.
ghost use Rattle.std.specs.Prelude.{◌≡◌, ◌∷◌, [], true, false, OnOk, IfOk};
ghost use Rattle.bq_trace.specs.Borrowed.{event_of, optional_bytes};
ghost use Rattle.bq_trace.specs.TraceEvents.{Gets, Bad};
ghost use Rattle.bq_trace.specs.Reporting.{skips};

use crate::sink::Sink;
use crate::trace_event::TraceEvent;
use std::alloc::AllocError;

/// Reports one event.
pub fn report<S: Sink>(number: u64, event: &TraceEvent<'_>, sink: &mut S) -> Result<(), AllocError>
    ensures { OnOk result (Gets S.takes sink.old sink.new (λ reported. reported ≡ (number, event_of event.now) ∷ [])) }
{
    sink.receive(number, event)
}

/// Reports a line that says nothing. Returns false: such a line is not bad. `line` is `None` only for a line that is too long. Such a
/// line is bad, so it does not come here.
pub fn report_skipped<S: Sink>(
    number: u64,
    line: Option<&[u8]>,
    sink: &mut S,
) -> Result<bool, AllocError>
    ensures { IfOk result (λ bad. (bad ≡ false) × Gets S.takes sink.old sink.new (λ reported. reported ≡ skips number (optional_bytes line.entry))) }
{
    if let Some(line) = line {
        sink.receive(number, &TraceEvent::Skipped { line })?;
    }
    Ok(false)
}

/// Reports a bad line. Returns true.
pub fn report_bad<S: Sink>(
    number: u64,
    line: Option<&[u8]>,
    sink: &mut S,
) -> Result<bool, AllocError>
    ensures { IfOk result (λ bad. (bad ≡ true) × Gets S.takes sink.old sink.new (λ reported. reported ≡ (number, Bad (optional_bytes line.entry)) ∷ [])) }
{
    sink.receive(number, &TraceEvent::Bad { line })?;
    Ok(true)
}
