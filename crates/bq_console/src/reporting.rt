//! The messages on standard error if a stream or memory failed, and the exit status of the program then.
ghost use Rattle.std.specs.Prelude.{◌≡◌};
ghost use Rattle.std.specs.IoError.{error_kind};
ghost use Rattle.std.specs.Process.{exit_status};
ghost use Rattle.bq_console.specs.Status.{EndsFor, refused_status};

use crate::fault::WordsFault;
use crate::printable::{Lines, Name};
use crate::reasons::reason;
use crate::status::{BAD_WORDS, IO_FAILED, OUT_OF_MEMORY};
use bq_streams::StreamFault;
use std::fmt;
use std::io::{Error, ErrorKind};
use std::process::ExitCode;

/// Says that memory ran out.
pub fn report_out_of_memory(rt: &HostRuntime) -> ExitCode
    ensures { exit_status result ≡ 3 }
{
    let _ = rt.eprintln("bqsim: out of memory");
    ExitCode::from(OUT_OF_MEMORY)
}

/// Says why words are refused, or the help that they ask for.
pub fn report_refused(rt: &HostRuntime, fault: &WordsFault) -> ExitCode
    ensures { exit_status result ≡ refused_status fault.now }
{
    match fault {
        WordsFault::Words(text) => {
            let _ = rt.eprint(Lines(text.as_str()));
            ExitCode::from(BAD_WORDS)
        }
        WordsFault::OutOfMemory => report_out_of_memory(rt),
    }
}

/// Says why the file of that name, or standard input, can't be read: `bqsim: t.trace: is a directory`, or
/// `bqsim: a read failed: is a directory`.
pub fn report_unread(rt: &HostRuntime, name: Option<&str>, error: &Error) -> ExitCode
    ensures { EndsFor (error_kind error.now) result }
{
    match name {
        Some(name) => report_failed(rt, &Name(name), error),
        None => report_failed(rt, &StreamFault::Read, error),
    }
}

/// Says why standard output can't be written: `bqsim: a write failed: no space left on device`. Says nothing if the reader of a
/// pipe has gone, as `head` does once it has its lines.
pub fn report_unwritten(rt: &HostRuntime, error: &Error) -> ExitCode
    ensures { EndsFor (error_kind error.now) result }
{
    if error.kind() == ErrorKind::BrokenPipe {
        return ExitCode::from(IO_FAILED);
    }
    report_failed(rt, &StreamFault::Write, error)
}

/// Says why the file of that name can't be written: `bqsim: p.image: can't be written: no space left on device`.
pub fn report_file_unwritten(rt: &HostRuntime, name: &str, error: &Error) -> ExitCode
    ensures { EndsFor (error_kind error.now) result }
{
    report_failed(rt, &UnwrittenFile(name), error)
}

/// The name of a file, and that it can't be written.
#[derive(Clone, Copy)]
struct UnwrittenFile<'a>(&'a str);

impl fmt::Display for UnwrittenFile<'_> {
    fn fmt<W: fmt::Write>(&self, f: &mut fmt::Formatter<W>) -> fmt::Result {
        let name = Name(self.0);
        write!(f, "{name}: can't be written")
    }
}

/// Says what failed, and why.
fn report_failed<W: fmt::Display>(rt: &HostRuntime, what: &W, error: &Error) -> ExitCode
    ensures { EndsFor (error_kind error.now) result }
{
    if error.kind() == ErrorKind::OutOfMemory {
        return report_out_of_memory(rt);
    }
    match reason(rt.alloc(), error) {
        Ok(why) => report_why(rt, what, &why),
        Err(_) => report_why(rt, what, error),
    }
    ExitCode::from(IO_FAILED)
}

/// Says what failed, and that this is why.
fn report_why<W: fmt::Display, Y: fmt::Display>(rt: &HostRuntime, what: &W, why: &Y) {
    let _ = eprintln!(rt; "bqsim: {what}: {why}");
}
