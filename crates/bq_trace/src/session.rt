//! A replay of a trace that comes in pieces.
ghost use Rattle.std.specs.Prelude.{◌≡◌, [], IfOk, IfErr, OnOk, OnErr, Some};
ghost use Rattle.bq_streams.specs.Counts.{counted_inner, failures_of};
ghost use Rattle.bq_streams.specs.Faults.{IsWriteFault};

use crate::trace_position::TracePosition;
use bq_streams::{Counted, StreamFault};
use std::alloc::Global;
use std::io::Write;
use std::marker::Model;

/// A replay of a trace that comes in pieces. Contracts see its position in the trace.
///
/// # Example
///
/// ```
/// let mut answers = Counted::new(Vec::new(alloc));
/// let session = Session::new(alloc);
/// let session = session.feed(b"machine cfs 1\nadmit 1 0 1 ", &mut answers)?;
/// let session = session.feed(b"3000000\n", &mut answers)?;
/// let is_clean = session.finish(&mut answers)?;
/// let answers = answers.into_inner();
/// assert_eq!(rt; answers.as_slice(), b"admit ok\n".as_slice());
/// assert_eq!(rt; is_clean, true);
/// ```
pub struct Session {
    alloc: Global,
    position: TracePosition,
    /// The answers to one piece. They are kept only so that their memory is used again.
    answers: String,
}

impl Drop for Session {
    fn drop(self) {
        let Session {
            alloc: _alloc,
            position: _position,
            answers: _answers,
        } = self;
    }
}

impl Model for Session {
    ghost use Rattle.bq_trace.specs.declared.trace_position.TracePosition.{TracePosition};

    ghost Value = { TracePosition };

    ghost view = { λ s. s.position };
}

impl Session {
    ghost use Rattle.bq_trace.specs.Trace.{opening_progress};
    ghost use Rattle.bq_trace.specs.Feeding.{Feeds, BreaksOff, Finishes, ForBegunLine};

    /// Makes a replay to which nothing has come yet. It takes its memory from `alloc`.
    pub fn new(alloc: Global) -> Session
        ensures progress { result.progress ≡ opening_progress }
        ensures begun { result.begun ≡ Some [] }
    {
        Session {
            alloc,
            position: TracePosition::new(alloc),
            answers: String::new(alloc),
        }
    }

    /// Runs the lines that this piece ends, and writes their answers.
    fn run_piece<W: Write>(&mut self, piece: &[u8], out: &mut Counted<W>) -> Result<(), StreamFault>
        ensures ok { OnOk result (ForBegunLine self.old (λ begun.
            Feeds self.old begun piece.now self.new (W.contents (counted_inner out.old)) (W.contents (counted_inner out.new)))) }
        ensures kept { OnOk result (failures_of out.new ≡ failures_of out.old) }
        ensures part { OnErr result (ForBegunLine self.old (λ begun.
            BreaksOff self.old begun piece.now (W.contents (counted_inner out.old)) (W.contents (counted_inner out.new)))) }
        ensures fault { IfErr result (λ e. IsWriteFault e (failures_of out.old) (failures_of out.new)) }
    {
        self.answers.clear();
        self.position
            .run_piece(self.alloc, piece, &mut self.answers)?;
        out.write_text(self.answers.as_bytes())?;
        Ok(())
    }

    /// Runs the lines that this piece ends, and writes their answers. A fault ends the session: only a beginning of the answers
    /// is written, and the fault is `Write` only if the writer failed.
    pub fn feed<W: Write>(
        mut self,
        piece: &[u8],
        out: &mut Counted<W>,
    ) -> Result<Session, StreamFault>
        ensures ok { IfOk result (λ next. ForBegunLine self (λ begun.
            Feeds self begun piece.now next (W.contents (counted_inner out.old)) (W.contents (counted_inner out.new)))) }
        ensures kept { OnOk result (failures_of out.new ≡ failures_of out.old) }
        ensures part { OnErr result (ForBegunLine self (λ begun.
            BreaksOff self begun piece.now (W.contents (counted_inner out.old)) (W.contents (counted_inner out.new)))) }
        ensures fault { IfErr result (λ e. IsWriteFault e (failures_of out.old) (failures_of out.new)) }
    {
        self.run_piece(piece, out)?;
        Ok(self)
    }

    /// Runs the last line, if no line feed ended it, and writes its answer. Returns true if no line of the trace was bad.
    fn run_last_line<W: Write>(&mut self, out: &mut Counted<W>) -> Result<bool, StreamFault>
        ensures ok { IfOk result (λ clean. ForBegunLine self.old (λ begun.
            Finishes self.old begun (W.contents (counted_inner out.old)) (W.contents (counted_inner out.new)) clean)) }
        ensures kept { OnOk result (failures_of out.new ≡ failures_of out.old) }
        ensures part { OnErr result (ForBegunLine self.old (λ begun.
            BreaksOff self.old begun [] (W.contents (counted_inner out.old)) (W.contents (counted_inner out.new)))) }
        ensures fault { IfErr result (λ e. IsWriteFault e (failures_of out.old) (failures_of out.new)) }
    {
        self.answers.clear();
        self.position.run_last_line(self.alloc, &mut self.answers)?;
        out.write_text(self.answers.as_bytes())?;
        Ok(self.position.progress.clean)
    }

    /// Runs the last line, if no line feed ended it. Returns true if no line of the trace was bad.
    pub fn finish<W: Write>(mut self, out: &mut Counted<W>) -> Result<bool, StreamFault>
        ensures ok { IfOk result (λ clean. ForBegunLine self (λ begun.
            Finishes self begun (W.contents (counted_inner out.old)) (W.contents (counted_inner out.new)) clean)) }
        ensures kept { OnOk result (failures_of out.new ≡ failures_of out.old) }
        ensures part { OnErr result (ForBegunLine self (λ begun.
            BreaksOff self begun [] (W.contents (counted_inner out.old)) (W.contents (counted_inner out.new)))) }
        ensures fault { IfErr result (λ e. IsWriteFault e (failures_of out.old) (failures_of out.new)) }
    {
        self.run_last_line(out)
    }
}
