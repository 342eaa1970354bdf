//! Readers and writers whose calls and failures are counted.
ghost use Rattle.std.specs.Prelude.{◌≡◌, ◌<◌, ◌≤◌, length, take, IfOk, IfErr, OnOk, OnErr, is_ok, if◌then◌else◌};
ghost use Rattle.std.specs.Io.KnownBytes.{Appends, Keeps, ReadConsumes};
ghost use Rattle.bq_streams.specs.Counts.{counted_inner, call_count, failures_of, one_more, HasCounted, HasRisen};
ghost use Rattle.bq_streams.specs.Writing.{AppendsPart};

use crate::fault::StreamFault;
use std::io::{Read, Write};

/// A reader or a writer, with how often it was called and how often a call failed. Each count stops at its greatest value.
#[derive(Drop)]
pub struct Counted<T> {
    inner: T,
    calls: u64,
    failures: u64,
}

impl<T> Counted<T> {
    /// Counts the calls of a reader or a writer. Both counts begin at 0.
    pub fn new(inner: T) -> Counted<T>
        ensures wraps { counted_inner result ≡ inner }
        ensures calls { call_count result ≡ 0 }
        ensures failures { failures_of result ≡ 0 }
    {
        Counted {
            inner,
            calls: 0,
            failures: 0,
        }
    }

    /// How often the reader or the writer was called.
    pub fn calls(&self) -> u64
        ensures { result ≡ call_count self.now }
    {
        self.calls
    }

    /// The reader or the writer.
    pub fn into_inner(self) -> T
        ensures { result ≡ counted_inner self }
    {
        let Counted {
            inner,
            calls: _,
            failures: _,
        } = self;
        inner
    }
}

impl<R: Read> Counted<R> {
    /// One read into `buf`. Its only error is `StreamFault::Read`.
    pub fn read(&mut self, buf: &mut [u8]) -> Result<usize, StreamFault>
        ensures bound { IfOk result (λ n. n ≤ length buf.new) }
        ensures bytes { ReadConsumes (R.remaining (counted_inner self.old)) (R.remaining (counted_inner self.new)) result buf.new }
        ensures calls { call_count self.new ≡ one_more (call_count self.old) }
        ensures failures { failures_of self.new ≡ (if is_ok result then failures_of self.old else one_more (failures_of self.old)) }
        ensures fault { IfErr result (λ e. e ≡ StreamFault.Read) }
    {
        self.calls = self.calls.saturating_add(1);
        match self.inner.read(buf) {
            Ok(n) => Ok(n),
            Err(_) => {
                self.failures = self.failures.saturating_add(1);
                Err(StreamFault::Read)
            }
        }
    }
}

impl<W: Write> Counted<W> {
    /// One write of a piece that is not empty. The writer takes at least one byte of it. A write that takes nothing is a failure.
    pub fn write_some(&mut self, piece: &[u8]) -> Result<usize, StreamFault>
        requires { 0 < length piece.now }
        ensures taken { IfOk result (λ n. (0 < n) × (n ≤ length piece.now)
            × Appends (W.contents (counted_inner self.old)) (W.contents (counted_inner self.new)) (take n piece.now)) }
        ensures kept { OnErr result (Keeps (W.contents (counted_inner self.old)) (W.contents (counted_inner self.new))) }
        ensures calls { call_count self.new ≡ one_more (call_count self.old) }
        ensures failures { failures_of self.new ≡ (if is_ok result then failures_of self.old else one_more (failures_of self.old)) }
        ensures fault { IfErr result (λ e. e ≡ StreamFault.Write) }
    {
        self.calls = self.calls.saturating_add(1);
        match self.inner.write(piece) {
            Ok(0) | Err(_) => {
                self.failures = self.failures.saturating_add(1);
                Err(StreamFault::Write)
            }
            Ok(n) => Ok(n),
        }
    }

    /// Writes the whole text. If a write fails, only a beginning of the text has been written.
    pub fn write_text(&mut self, text: &[u8]) -> Result<(), StreamFault>
        ensures whole { OnOk result (Appends (W.contents (counted_inner self.old)) (W.contents (counted_inner self.new)) text.now) }
        ensures kept { OnOk result (failures_of self.new ≡ failures_of self.old) }
        ensures part { OnErr result (AppendsPart (W.contents (counted_inner self.old)) (W.contents (counted_inner self.new)) text.now) }
        ensures risen { OnErr result (HasRisen (failures_of self.old) (failures_of self.new)) }
        ensures calls { HasCounted 0 (call_count self.old) (call_count self.new) }
        ensures fault { IfErr result (λ e. e ≡ StreamFault.Write) }
    {
        let mut rest = text;
        while !rest.is_empty() {
            let taken = self.write_some(rest)?;
            rest = &rest[taken..];
        }
        Ok(())
    }
}
