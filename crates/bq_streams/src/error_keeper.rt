//! Readers and writers that keep the error of their last failure.
ghost use Rattle.std.specs.Prelude.{◌≡◌, None, Some, IfErr, OnOk};
ghost use Rattle.std.specs.Io.KnownBytes.{Keeps, ReadConsumes, WriteAppends};
ghost use Rattle.std.specs.Io.{ReadsAtMost, WritesAtMost};
ghost use Rattle.bq_streams.specs.Keeping.{failure_of, kept_inner};

use std::io;
use std::io::{Error, Read, Write};

/// A reader or a writer, with the error of its last call that failed.
///
/// ```text
/// let mut input = ErrorKeeper::new(file);
/// let outcome = work(&mut input);
/// let why = input.failure();
/// ```
#[derive(Drop)]
pub struct ErrorKeeper<T> {
    inner: T,
    failure: Option<Error>,
}

impl<T> ErrorKeeper<T> {
    /// Keeps the failures of a reader or a writer. At first there are no failures.
    pub fn new(inner: T) -> ErrorKeeper<T>
        ensures inner { kept_inner result ≡ inner }
        ensures failure { failure_of result ≡ None }
    {
        ErrorKeeper {
            inner,
            failure: None,
        }
    }

    /// The error of the last call that failed, if one did.
    pub fn failure(&self) -> Option<Error>
        ensures { result ≡ failure_of self.now }
    {
        self.failure
    }
}

impl<R: Read> Read for ErrorKeeper<R> {
    ghost remaining = { λ k. R.remaining (kept_inner k) };

    fn read(&mut self, buf: &mut [u8]) -> io::Result<usize>
        ensures bound { ReadsAtMost result buf.new }
        ensures bytes { ReadConsumes (R.remaining (kept_inner self.old)) (R.remaining (kept_inner self.new)) result buf.new }
        ensures kept { IfErr result (λ e. failure_of self.new ≡ Some e) }
        ensures same { OnOk result (failure_of self.new ≡ failure_of self.old) }
    {
        match self.inner.read(buf) {
            Ok(count) => Ok(count),
            Err(error) => {
                self.failure = Some(error);
                Err(error)
            }
        }
    }
}

impl<W: Write> Write for ErrorKeeper<W> {
    ghost contents = { λ k. W.contents (kept_inner k) };

    fn write(&mut self, buf: &[u8]) -> io::Result<usize>
        ensures bound { WritesAtMost result buf.now }
        ensures bytes { WriteAppends (W.contents (kept_inner self.old)) (W.contents (kept_inner self.new)) result buf.now }
        ensures kept { IfErr result (λ e. failure_of self.new ≡ Some e) }
        ensures same { OnOk result (failure_of self.new ≡ failure_of self.old) }
    {
        match self.inner.write(buf) {
            Ok(count) => Ok(count),
            Err(error) => {
                self.failure = Some(error);
                Err(error)
            }
        }
    }

    fn flush(&mut self) -> io::Result<()>
        ensures bytes { Keeps (W.contents (kept_inner self.old)) (W.contents (kept_inner self.new)) }
        ensures kept { IfErr result (λ e. failure_of self.new ≡ Some e) }
        ensures same { OnOk result (failure_of self.new ≡ failure_of self.old) }
    {
        match self.inner.flush() {
            Ok(()) => Ok(()),
            Err(error) => {
                self.failure = Some(error);
                Err(error)
            }
        }
    }
}
