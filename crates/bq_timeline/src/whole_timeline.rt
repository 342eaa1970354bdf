//! A timeline of a whole trace, from any reader to any writer.
ghost use Rattle.std.specs.Prelude.{◌≡◌, [], IfOk, IfErr, OnOk, string_bytes};
ghost use Rattle.bq_streams.specs.Counts.{counted_inner, call_count, failures_of};
ghost use Rattle.bq_streams.specs.Faults.{IsStreamFault, IsWriteFault};
ghost use Rattle.bq_trace.specs.Feeding.{ForBegunLine};
ghost use Rattle.bq_trace.specs.Reporting.{ReportsPiece};
ghost use Rattle.bq_trace.specs.Trace.{opening_progress};
ghost use Rattle.bq_timeline.specs.ScreenTexts.{state_of};
ghost use Rattle.bq_timeline.specs.Timelines.{Closes, IsTimeline, WatchesAndWrites};
ghost use Rattle.bq_timeline.specs.TraceTexts.{IsBlank};

use crate::settings::Settings;
use crate::viewer::Viewer;
use bq_streams::{Counted, PIECE, READS, StreamFault};
use bq_trace::TracePosition;
use std::alloc::Global;
use std::io::{Read, Write};

/// The result of a timeline.
#[derive(Drop)]
pub struct Outcome {
    /// Whether no line was bad or refused.
    pub clean: bool,
    /// What goes to standard error at the end.
    pub notes: String,
}

/// Reads a trace to its end and writes its timeline. Notes on lines that are not part of the timeline go to `errors` as the lines come.
/// If such a note cannot be written, the timeline goes on.
pub fn show<R: Read, W: Write, E: Write>(
    alloc: Global,
    settings: Settings,
    input: &mut Counted<R>,
    output: &mut Counted<W>,
    errors: &mut E,
) -> Result<Outcome, StreamFault>
    // The output gets the form of all lines that the reader gave, and nothing else.
    ensures timeline { IfOk result (IsTimeline settings (R.remaining (counted_inner input.old)) (R.remaining (counted_inner input.new))
        (W.contents (counted_inner output.old)) (W.contents (counted_inner output.new))) }

    // No read and no write failed: the first failure ends the timeline.
    ensures reads { OnOk result (failures_of input.new ≡ failures_of input.old) }
    ensures writes { OnOk result (failures_of output.new ≡ failures_of output.old) }

    // Each fault has its cause.
    ensures fault { IfErr result (λ e. IsStreamFault e (failures_of input.old) (failures_of input.new)
        (failures_of output.old) (failures_of output.new) (call_count input.old) (call_count input.new)) }
{
    let mut timeline = TimelineSoFar::new(alloc, settings);
    let mut piece = [0u8; PIECE];
    for _ in 0..READS {
        let count = input.read(&mut piece)?;
        if count == 0 {
            return timeline.finish(output);
        }
        timeline.feed(&piece[..count], output, errors)?;
    }
    Err(StreamFault::TooLong)
}

/// A timeline of the pieces so far.
struct TimelineSoFar {
    alloc: Global,
    position: TracePosition,
    viewer: Viewer,
}

// Written out, so that dropping it is one call.
impl Drop for TimelineSoFar {
    fn drop(self) {
        let TimelineSoFar {
            alloc: _,
            position: _position,
            viewer: _viewer,
        } = self;
    }
}

impl TimelineSoFar {
    /// Returns a timeline of no piece yet.
    fn new(alloc: Global, settings: Settings) -> TimelineSoFar
        ensures progress { result.position.progress ≡ opening_progress }
        ensures begun { result.position.begun ≡ Some [] }
        ensures schedule { result.viewer.schedule ≡ None }
        ensures bad_or_refused { result.viewer.bad_or_refused ≡ 0 }
        ensures blank { IsBlank settings (state_of result.viewer.screen) }
        ensures text { string_bytes result.viewer.screen.text ≡ [] }
    {
        TimelineSoFar {
            alloc,
            position: TracePosition::new(alloc),
            viewer: Viewer::new(alloc, settings),
        }
    }

    /// Reads a piece of the trace, and writes what is ready, notes first.
    fn feed<W: Write, E: Write>(
        &mut self,
        piece: &[u8],
        output: &mut Counted<W>,
        errors: &mut E,
    ) -> Result<(), StreamFault>
        ensures reported { OnOk result (ForBegunLine self.old.position (λ begun.
            WatchesAndWrites self.old.viewer self.new.viewer (W.contents (counted_inner output.old)) (W.contents (counted_inner output.new))
            (λ reported. ReportsPiece self.old.position begun piece.now reported self.new.position))) }
        ensures empty { OnOk result (string_bytes self.new.viewer.screen.text ≡ []) }
        ensures unchanged { OnOk result (failures_of output.new ≡ failures_of output.old) }
        ensures fault { IfErr result (λ e. IsWriteFault e (failures_of output.old) (failures_of output.new)) }
    {
        self.position
            .run_piece(self.alloc, piece, &mut self.viewer)?;
        let _ = errors.write_all(self.viewer.screen.notes.as_bytes());
        self.viewer.screen.notes.clear();
        output.write_text(self.viewer.screen.text.as_bytes())?;
        self.viewer.screen.text.clear();
        Ok(())
    }

    /// Writes what is left once the trace is over, and returns the last notes.
    fn finish<W: Write>(&mut self, output: &mut Counted<W>) -> Result<Outcome, StreamFault>
        ensures reported { IfOk result (λ outcome. ForBegunLine self.old.position (λ begun.
            Closes self.old begun (W.contents (counted_inner output.old)) (W.contents (counted_inner output.new)) outcome)) }
        ensures unchanged { OnOk result (failures_of output.new ≡ failures_of output.old) }
        ensures fault { IfErr result (λ e. IsWriteFault e (failures_of output.old) (failures_of output.new)) }
    {
        self.position.run_last_line(self.alloc, &mut self.viewer)?;
        self.viewer.end()?;
        output.write_text(self.viewer.screen.text.as_bytes())?;
        let notes = self.viewer.screen.notes.clone()?;
        Ok(Outcome {
            clean: self.viewer.bad_or_refused == 0,
            notes,
        })
    }
}
