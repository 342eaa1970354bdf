//! The position of a replay in its trace.
ghost use Rattle.std.specs.Prelude.{◌≡◌, ◌++◌, [], OnOk, Some};
ghost use Rattle.std.specs.Str.Lines.{lines, strip_carriage_return};
ghost use Rattle.bq_lines.specs.Kept.{IsOneLine};
ghost use Rattle.bq_trace.specs.TraceEvents.{Gets};

use crate::progress::Progress;
use crate::sink::Sink;
use bq_lines::{PartialLine, first_line};
use std::alloc::{AllocError, Global};

/// The position of a replay: after some lines, and in a line that has begun.
#[derive(Drop)]
pub struct TracePosition {
    /// The state after the lines that have ended.
    pub progress: Progress,
    /// The line that has begun.
    pub begun: PartialLine,
}

impl TracePosition {
    ghost use Rattle.bq_trace.specs.Trace.{opening_progress};
    ghost use Rattle.bq_trace.specs.Feeding.{ForBegunLine};
    ghost use Rattle.bq_trace.specs.Reporting.{ReportsLine, Story, ReportsPiece};

    /// Returns the position before the first byte. The line that has begun is kept in memory from `alloc`.
    pub fn new(alloc: Global) -> TracePosition
        ensures progress { result.progress ≡ opening_progress }
        ensures begun { result.begun ≡ Some [] }
    {
        TracePosition {
            progress: Progress::start(),
            begun: PartialLine::new(alloc),
        }
    }

    /// Ends the line that has begun with these bytes and a line feed. Reports what the line does.
    fn end_line<S: Sink>(
        &mut self,
        alloc: Global,
        tail: &[u8],
        sink: &mut S,
    ) -> Result<(), AllocError>
        requires { IsOneLine tail.now }
        ensures reported { OnOk result (ForBegunLine self.old (λ line.
            Gets S.takes sink.old sink.new (λ reported. ReportsLine self.old.progress (strip_carriage_return (line ++ tail.now)) reported self.new.progress))) }
        ensures cleared { OnOk result (self.new.begun ≡ Some []) }
    {
        if let Some(line) = self.begun.whole_line(tail) {
            return self.progress.answer(alloc, Some(line), sink);
        }
        self.begun.extend(tail)?;
        self.progress.answer(alloc, self.begun.ended(), sink)?;
        self.begun.clear();
        Ok(())
    }

    /// Runs the lines that end in this piece, and reports what they do. The rest of the piece begins the next line.
    pub fn run_piece<S: Sink>(
        &mut self,
        alloc: Global,
        piece: &[u8],
        sink: &mut S,
    ) -> Result<(), AllocError>
        ensures { OnOk result (ForBegunLine self.old (λ begun.
            Gets S.takes sink.old sink.new (λ reported. ReportsPiece self.old begun piece.now reported self.new))) }
    {
        let mut rest = piece;
        while let Some((tail, more)) = first_line(rest) {
            self.end_line(alloc, tail, sink)?;
            rest = more;
        }
        self.begun.extend(rest)
    }

    /// Runs the line that has begun, if there is one, as the last line of the trace. Reports what it does.
    pub fn run_last_line<S: Sink>(&mut self, alloc: Global, sink: &mut S) -> Result<(), AllocError>
        ensures { OnOk result (ForBegunLine self.old (λ begun.
            Gets S.takes sink.old sink.new (λ reported. Story self.old.progress (lines begun) reported self.new.progress))) }
    {
        if self.begun.is_empty() {
            return Ok(());
        }
        self.progress.answer(alloc, self.begun.last(), sink)
    }
}
