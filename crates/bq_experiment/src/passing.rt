//! A sink whose texts are written as they come.
ghost use Rattle.std.specs.Prelude.{◌≡◌, ◌<◌, false, true, IfErr, OnOk};
ghost use Rattle.std.specs.Io.KnownBytes.{Appends};
ghost use Rattle.bq_streams.specs.Counts.{HasRisen, failures_of, counted_inner};
ghost use Rattle.bq_experiment.specs.Passing.{Empties, IsPassedOn, TakesAndPasses};

use crate::run_progress::RunProgress;
use crate::texts::Texts;
use bq_streams::{Counted, PIECE, StreamFault};
use bq_trace::{Sink, TraceEvent};
use std::alloc::AllocError;
use std::io::Write;

/// A sink, with the writers of its text and notes. Both are written once the text has a piece's length, or there is a note; notes
/// first.
///
/// `receive` fails if memory runs out or a write of the text fails. A sink has only `AllocError` for both; `is_failed` tells them apart.
#[derive(Drop)]
pub struct Passing<'a, S, W, E> {
    pub sink: S,
    pub output: Counted<W>,
    errors: E,
    progress: RunProgress<'a>,
    /// Whether a write to the output has failed.
    pub is_failed: bool,
    ghost whole: { is_failed ≡ false → failures_of output ≡ 0 },
    ghost failed: { is_failed ≡ true → 0 < failures_of output },
}

impl<'a, S, W, E> Passing<'a, S, W, E> {
    /// Makes a sink that has written nothing yet.
    pub fn new(sink: S, output: W, errors: E, progress: RunProgress<'a>) -> Passing<'a, S, W, E>
        ensures sink { result.sink ≡ sink }
        ensures output { counted_inner result.output ≡ output }
    {
        Passing {
            sink,
            output: Counted::new(output),
            errors,
            progress,
            is_failed: false,
        }
    }
}

impl<S: Drop, W, E: Drop> Passing<'_, S, W, E> {
    /// Returns the writer of the text.
    pub fn into_output(self) -> Counted<W>
        ensures { result ≡ self.entry.output }
    {
        let Passing {
            sink: _sink,
            output,
            errors: _errors,
            progress: _progress,
            is_failed: _,
        } = self;
        output
    }
}

impl<S: Texts, W: Write, E: Write> Passing<'_, S, W, E> {
    /// Writes the text.
    pub fn write_text(&mut self) -> Result<(), StreamFault>
        ensures sink { self.new.sink ≡ self.old.sink }
        ensures added { OnOk result (Appends (W.contents (counted_inner self.old.output)) (W.contents (counted_inner self.new.output)) (S.pending self.old.sink)) }
        ensures kept { OnOk result (failures_of self.new.output ≡ 0) }
        ensures fault { IfErr result (λ e. HasRisen 0 (failures_of self.new.output)) }
    {
        if self.output.write_text(self.sink.text().as_bytes()).is_err() {
            self.is_failed = true;
        }
        if self.is_failed {
            return Err(StreamFault::Write);
        }
        Ok(())
    }

    /// Writes the notes and the text, and clears both. A failed write of the text is an `AllocError` too, and sets `is_failed`.
    fn empty(&mut self) -> Result<(), AllocError>
        ensures { OnOk result (Empties S.pending S.clears self.old.sink (W.contents (counted_inner self.old.output)) self.new.sink (W.contents (counted_inner self.new.output))) }
    {
        let _ = self.errors.write_all(self.sink.notes().as_bytes());
        if self.write_text().is_err() {
            return Err(AllocError);
        }
        self.sink.clear();
        Ok(())
    }

    /// Writes what has come once it is a piece, or there is a note.
    fn pass_on(&mut self) -> Result<(), AllocError>
        ensures { OnOk result (IsPassedOn S.pending S.clears self.old.sink (W.contents (counted_inner self.old.output))
            self.new.sink (W.contents (counted_inner self.new.output))) }
    {
        if self.sink.text().len() < PIECE && self.sink.notes().is_empty() {
            return Ok(());
        }
        self.empty()
    }
}

impl<S: Sink + Texts, W: Write, E: Write> Sink for Passing<'_, S, W, E> {
    ghost takes = { λ old n traced new. TakesAndPasses S.takes S.pending S.clears old.sink (W.contents (counted_inner old.output)) n traced new.sink (W.contents (counted_inner new.output)) };

    /// Receives an event, and writes what has come once it is a piece, or there is a note. If a write of the text fails, the answer is
    /// `AllocError`, as if memory had run out, and `is_failed` is true.
    fn receive(&mut self, number: u64, event: &TraceEvent<'_>) -> Result<(), AllocError> {
        if let TraceEvent::Comes { event, .. } = event {
            self.progress.count(event);
        }
        self.sink.receive(number, event)?;
        self.pass_on()
    }
}
