//! Readers that show on a line of the terminal how much they have read, and writers that erase this line before they write.
ghost use Rattle.std.specs.Prelude.{◌≡◌};
ghost use Rattle.std.specs.Io.{ReadsAtMost, WritesAtMost};
ghost use Rattle.std.specs.Io.KnownBytes.{Keeps, ReadConsumes, WriteAppends};
ghost use Rattle.bq_console.specs.Beside.{reader_of, writer_of};

use crate::progress::{BYTES, ProgressLine, WorkDone};
use std::io;
use std::io::{Read, Write};

/// A reader that shows how much it has given.
#[derive(Drop)]
pub struct ShowingReader<'a, R> {
    inner: R,
    progress: &'a ProgressLine<'a>,
    /// The number of bytes that it has given.
    given: u64,
    /// Once it has given this many bytes, it shows how many it has given.
    next: u64,
}

impl<'a, R> ShowingReader<'a, R> {
    /// A reader of this one.
    pub fn new(inner: R, progress: &'a ProgressLine<'a>) -> ShowingReader<'a, R>
        ensures { reader_of result ≡ inner }
    {
        ShowingReader {
            inner,
            progress,
            given: 0,
            next: BYTES,
        }
    }

    /// This many bytes more are given.
    fn count(&mut self, bytes: usize)
        ensures { reader_of self.new ≡ reader_of self.old }
    {
        self.given = self.given.saturating_add(bytes as u64);
        if self.given >= self.next {
            self.next = self.given.saturating_add(BYTES);
            self.progress.show(WorkDone::Bytes(self.given));
        }
    }
}

impl<R: Read> Read for ShowingReader<'_, R> {
    ghost remaining = { λ r. R.remaining (reader_of r) };

    fn read(&mut self, buf: &mut [u8]) -> io::Result<usize>
        ensures bound { ReadsAtMost result buf.new }
        ensures bytes { ReadConsumes (R.remaining (reader_of self.old)) (R.remaining (reader_of self.new)) result buf.new }
    {
        match self.inner.read(buf) {
            Ok(count) => {
                self.count(count);
                Ok(count)
            }
            Err(error) => Err(error),
        }
    }
}

/// A writer that erases what is shown before it writes, since both may go to one terminal.
#[derive(Drop)]
pub struct ErasingWriter<'a, W> {
    inner: W,
    progress: &'a ProgressLine<'a>,
}

impl<'a, W> ErasingWriter<'a, W> {
    /// A writer to this one.
    pub fn new(inner: W, progress: &'a ProgressLine<'a>) -> ErasingWriter<'a, W>
        ensures { writer_of result ≡ inner }
    {
        ErasingWriter { inner, progress }
    }
}

impl<W: Write> Write for ErasingWriter<'_, W> {
    ghost contents = { λ w. W.contents (writer_of w) };

    fn write(&mut self, buf: &[u8]) -> io::Result<usize>
        ensures bound { WritesAtMost result buf.now }
        ensures bytes { WriteAppends (W.contents (writer_of self.old)) (W.contents (writer_of self.new)) result buf.now }
    {
        self.progress.erase();
        self.inner.write(buf)
    }

    fn flush(&mut self) -> io::Result<()>
        ensures bytes { Keeps (W.contents (writer_of self.old)) (W.contents (writer_of self.new)) }
    {
        self.inner.flush()
    }
}
