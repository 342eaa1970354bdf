//! Streams that fail, and what is said of errors: the system's words for them are those of errno's manual.

use crate::asserting::holds;
use bq_console::reason;
use bq_streams::ErrorKeeper;
use std::alloc::Global;
use std::io;
use std::io::{Error, Read, Write};
use std::process::Abort;

/// Errors by their numbers, and the system's words for them.
static NUMBERED: [(i32, &str); 5] = [
    (2, "no such file or directory"),
    (5, "input/output error"),
    (13, "permission denied"),
    (21, "is a directory"),
    (28, "no space left on device"),
];

/// Errors of other texts, and what is said of them.
static OTHERS: [(&str, &str); 2] = [("Nothing is there", "nothing is there"), ("", "")];

/// These words report the error.
fn is_told(rt: &impl Abort, alloc: Global, error: &Error, words: &str) {
    let told = reason(alloc, error).expect(rt, "memory");
    holds(rt, told.as_str() == words, told.as_str(), words);
}

/// The system's words report an error of the system, and its own words another one; they begin with a small letter.
#[test]
fn reasons_are_the_systems_words(rt: HostRuntime) {
    for (number, words) in &NUMBERED {
        is_told(&rt, rt.alloc(), &Error::from_raw_os_error(*number), words);
    }
    for (text, words) in &OTHERS {
        is_told(&rt, rt.alloc(), &Error::other(*text), words);
    }
}

/// Gives one byte, then fails as a directory does, then gives bytes again; takes nothing of what is written.
#[derive(Drop)]
struct Failing {
    calls: u8,
}

impl Read for Failing {
    fn read(&mut self, buf: &mut [u8]) -> io::Result<usize> {
        self.calls = self.calls.saturating_add(1);
        if self.calls == 2 {
            return Err(Error::from_raw_os_error(21));
        }
        match buf {
            [] => Ok(0),
            [first, ..] => {
                *first = b'x';
                Ok(1)
            }
        }
    }
}

impl Write for Failing {
    fn write(&mut self, _buf: &[u8]) -> io::Result<usize> {
        Err(Error::from_raw_os_error(28))
    }

    fn flush(&mut self) -> io::Result<()> {
        Ok(())
    }
}

/// The number of the failure that was kept last.
fn code(kept: &ErrorKeeper<Failing>) -> Option<i32> {
    match kept.failure() {
        Some(error) => error.raw_os_error(),
        None => None,
    }
}

/// What reads and writes come to, each with the number that is kept then.
#[test]
fn failures_are_kept(rt: HostRuntime) {
    let mut kept = ErrorKeeper::new(Failing { calls: 0 });
    let mut buf = [0u8; 4];
    let first = (kept.read(&mut buf).is_ok(), code(&kept));
    holds(&rt, first == (true, None), "the first read", "a byte");
    let second = (kept.read(&mut buf).is_ok(), kept.read(&mut buf).is_ok());
    holds(
        &rt,
        second == (false, true),
        "the second read",
        "a failure, and then bytes",
    );
    holds(&rt, code(&kept) == Some(21), "a failure", "21");
    holds(&rt, kept.write(b"y").is_err(), "a write", "a failure");
    holds(&rt, code(&kept) == Some(28), "a failure", "28");
}
