//! The state of a trace, line by line.
ghost use Rattle.std.specs.Prelude.{◌≡◌, OnOk};
ghost use Rattle.bq_trace.specs.Borrowed.{optional_bytes};
ghost use Rattle.bq_trace.specs.TraceEvents.{Gets};

use crate::phase::Phase;
use crate::sink::Sink;
use std::alloc::{AllocError, Global};

/// The state of a trace after some lines.
#[derive(Drop)]
pub struct Progress {
    /// How far the trace is.
    pub phase: Phase,
    /// How many lines there were. The count stops at its greatest value.
    pub line: u64,
    /// Whether no line was bad.
    pub clean: bool,
}

impl Progress {
    ghost use Rattle.bq_trace.specs.Trace.{opening_progress};
    ghost use Rattle.bq_trace.specs.Reporting.{ReportsShortLine};

    /// Returns the state before the first line.
    pub fn start() -> Progress
        ensures { result ≡ opening_progress }
    {
        Progress {
            phase: Phase::Waiting,
            line: 0,
            clean: true,
        }
    }

    /// Does what the next line says, and reports what happens. `line` is what was kept of the line: `None` if it is too long.
    /// After an `Err` the state is of no use.
    pub fn answer<S: Sink>(
        &mut self,
        alloc: Global,
        line: Option<&[u8]>,
        sink: &mut S,
    ) -> Result<(), AllocError>
        ensures { OnOk result (Gets S.takes sink.old sink.new
            (λ reported. ReportsShortLine self.old (optional_bytes line.entry) reported self.new)) }
    {
        self.line = self.line.saturating_add(1);
        let bad = self.phase.answer(alloc, self.line, line, sink)?;
        self.clean = self.clean && !bad;
        Ok(())
    }
}
