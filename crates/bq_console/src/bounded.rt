//! A reader that fails once it has given more bytes than a limit.
ghost use Rattle.std.specs.Prelude.{◌≡◌, IfOk, OnErr, true};
ghost use Rattle.std.specs.Io.{ReadsAtMost};
ghost use Rattle.std.specs.Io.KnownBytes.{ReadConsumes};
ghost use Rattle.bq_console.specs.Bounds.{FailsByLimit, given_after, given_by, bounded_inner, is_past_limit, limit_of};

use std::io;
use std::io::{Error, ErrorKind, Read};

/// What is said of an input that is too long.
const TOO_LONG: &str = "it has more bytes than --max-bytes allows";

/// A reader with a limit. The read that passes the limit still gives its bytes; each read after that one fails, with
/// `ErrorKind::FileTooLarge`. So an input that is too long never seems to end.
///
/// ```text
/// Bounded::new(file, Some(1 << 24))
/// ```
#[derive(Drop)]
pub struct Bounded<R> {
    inner: R,
    /// How many bytes are allowed; `None` is no limit.
    most: Option<u64>,
    /// How many bytes it has given, up to 2^64 - 1.
    given: u64,
}

impl<R> Bounded<R> {
    /// A reader of `inner` that is allowed `most` bytes; `None` is no limit.
    pub fn new(inner: R, most: Option<u64>) -> Bounded<R>
        ensures wraps { bounded_inner result ≡ inner }
        ensures limit { limit_of result ≡ most }
        ensures given { given_by result ≡ 0 }
    {
        Bounded {
            inner,
            most,
            given: 0,
        }
    }

    /// Whether it has given more bytes than are allowed.
    fn is_over(&self) -> bool
        ensures { result ≡ is_past_limit (limit_of self.now) (given_by self.now) }
    {
        match self.most {
            Some(most) => most < self.given,
            None => false,
        }
    }
}

impl<R: Read> Read for Bounded<R> {
    ghost remaining = { λ b. R.remaining (bounded_inner b) };

    fn read(&mut self, buf: &mut [u8]) -> io::Result<usize>
        ensures bound { ReadsAtMost result buf.new }
        ensures bytes { ReadConsumes (R.remaining (bounded_inner self.old)) (R.remaining (bounded_inner self.new)) result buf.new }
        ensures limit { limit_of self.new ≡ limit_of self.old }
        ensures given { IfOk result (λ count. given_by self.new ≡ given_after (given_by self.old) count) }
        ensures failed { OnErr result (given_by self.new ≡ given_by self.old) }
        ensures over { is_past_limit (limit_of self.old) (given_by self.old) ≡ true → FailsByLimit result }
    {
        if self.is_over() {
            return Err(Error::new(ErrorKind::FileTooLarge, TOO_LONG));
        }
        match self.inner.read(buf) {
            Ok(count) => {
                self.given = self.given.saturating_add(count as u64);
                Ok(count)
            }
            Err(error) => Err(error),
        }
    }
}
