//! The progress of long work: one line of a terminal, which is written again and again.

use std::cell::Cell;
use std::fmt;
use std::io::IsTerminal;

/// The number of events of simulations that are about a second's work.
pub const EVENTS: u64 = 2_000_000;

/// The number of bytes of a trace that are about a second's work.
pub const BYTES: u64 = 4_000_000;

/// What erases the line on which the cursor is.
const ERASED: &str = "\r\x1b[K";

/// The part of long work that is done.
#[derive(Clone, Copy)]
pub enum WorkDone {
    /// This much of the time that is simulated, in percent.
    Percent(u64),
    /// This many runs of all.
    Runs(u64, u64),
    /// This many bytes of an input.
    Bytes(u64),
}

impl fmt::Display for WorkDone {
    fn fmt<W: fmt::Write>(&self, f: &mut fmt::Formatter<W>) -> fmt::Result {
        match self {
            WorkDone::Percent(percent) => write!(f, "{percent}% simulated"),
            WorkDone::Runs(done, all) => write!(f, "{done} of {all} runs done"),
            WorkDone::Bytes(bytes) => {
                let megabytes = *bytes / 1_000_000;
                write!(f, "{megabytes} MB read")
            }
        }
    }
}

/// The line of standard error that shows how much is done. Nothing is shown unless standard error is a terminal.
///
/// ```text
/// let progress = ProgressLine::new(rt);
/// progress.show(WorkDone::Percent(40));
/// progress.erase();
/// ```
#[derive(Drop)]
pub struct ProgressLine<'a> {
    /// The terminal, if there is one.
    terminal: Option<&'a HostRuntime>,
    is_shown: Cell<bool>,
}

impl<'a> ProgressLine<'a> {
    /// Nothing is shown yet.
    pub fn new(rt: &'a HostRuntime) -> ProgressLine<'a> {
        let terminal = if rt.stderr().is_terminal() {
            Some(rt)
        } else {
            None
        };
        ProgressLine {
            terminal,
            is_shown: Cell::new(false),
        }
    }

    /// Nothing is ever shown.
    pub fn none() -> ProgressLine<'a> {
        ProgressLine {
            terminal: None,
            is_shown: Cell::new(false),
        }
    }

    /// Shows how much is done, in place of what is shown.
    pub fn show(&self, done: WorkDone) {
        if let Some(rt) = self.terminal {
            let _ = eprint!(rt; "{ERASED}bqsim: {done}");
            self.is_shown.set(true);
        }
    }

    /// Erases what is shown, if something is.
    pub fn erase(&self) {
        if let Some(rt) = self.terminal {
            if self.is_shown.replace(false) {
                let _ = rt.eprint(ERASED);
            }
        }
    }
}
