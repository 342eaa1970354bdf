//! How far a trace is.
ghost use Rattle.std.specs.Prelude.{◌≡◌, IfOk};
ghost use Rattle.bq_lines.specs.Lines.{reading_of_short_line};
ghost use Rattle.bq_trace.specs.Borrowed.{optional_bytes};
ghost use Rattle.bq_trace.specs.TraceEvents.{Gets};
ghost use Rattle.bq_trace.specs.Reporting.{Reports};

use crate::any_core::AnyCore;
use crate::reporting::{report, report_bad, report_skipped};
use crate::sink::Sink;
use crate::trace_event::TraceEvent;
use bq_lines::{LineCommand, LineReading, read_short_line};
use std::alloc::{AllocError, Global};

/// How far a trace is: before its machine line, after a first line that was not one, or with its machine.
#[derive(Drop)]
pub enum Phase {
    /// No machine line has come yet.
    Waiting,
    /// The first line that says something was no machine line. The trace does nothing any more.
    Abandoned,
    /// The machine, after the events so far.
    Running(AnyCore),
}

impl Phase {
    /// Does what the line of this number says while no machine line has come yet, and reports what happens. Returns true if the
    /// line is bad.
    ///
    /// A machine is large and is built on the stack here, so this is kept out of the path of every other line.
    #[inline(never)]
    fn begin<S: Sink>(
        &mut self,
        alloc: Global,
        number: u64,
        line: Option<&[u8]>,
        reading: &LineReading<'_>,
        sink: &mut S,
    ) -> Result<bool, AllocError>
        requires { self.now ≡ Phase.Waiting }
        ensures { IfOk result (λ bad. Gets S.takes sink.old sink.new
            (λ reported. Reports Phase.Waiting number (optional_bytes line.entry) reading.now reported self.new bad)) }
    {
        match reading {
            LineReading::Skipped => report_skipped(number, line, sink),
            LineReading::Asks(LineCommand::Machine { discipline, size }) => {
                *self = Phase::Running(AnyCore::new(alloc, *discipline, *size)?);
                let opened = TraceEvent::Opened {
                    discipline: *discipline,
                    size: *size,
                };
                report(number, &opened, sink)?;
                Ok(false)
            }
            _ => {
                *self = Phase::Abandoned;
                report_bad(number, line, sink)
            }
        }
    }

    /// Does what the line of this number says, and reports what happens. Returns true if the line is bad.
    pub(crate) fn answer<S: Sink>(
        &mut self,
        alloc: Global,
        number: u64,
        line: Option<&[u8]>,
        sink: &mut S,
    ) -> Result<bool, AllocError>
        ensures { IfOk result (λ bad. Gets S.takes sink.old sink.new
            (λ reported. Reports self.old number (optional_bytes line.entry) (reading_of_short_line (optional_bytes line.entry)) reported self.new bad)) }
    {
        match self {
            Phase::Abandoned => Ok(false),
            Phase::Waiting => self.begin(alloc, number, line, &read_short_line(line), sink),
            Phase::Running(machine) => machine.obey(
                alloc,
                number,
                line,
                read_short_line(line),
                sink,
            ),
        }
    }
}
