//! The end of a job that reads and writes: if a read or a write broke off, standard error says why.

ghost use Rattle.std.specs.Prelude.{◌≡◌};
ghost use Rattle.std.specs.Process.{exit_status as status};
ghost use Rattle.bq_console.specs.Status.{status_of};

use crate::reporting::{report_unread, report_unwritten};
use crate::status::exit_status;
use bq_streams::{Counted, ErrorKeeper, StreamFault};
use std::io::{Error, Read, Write};
use std::process::ExitCode;

/// What a job was doing: the name of its file, unless it is standard input, and why its reads and its writes failed last.
#[derive(Clone, Copy)]
struct Streams<'a> {
    name: Option<&'a str>,
    read: Option<Error>,
    written: Option<Error>,
}

/// The exit status of a job whose reader and writer are given back. If the job broke off, standard error says why: it
/// names the file, or standard input if no name is given.
pub fn ended<R: Read + Drop, W: Write + Drop>(
    rt: &HostRuntime,
    name: Option<&str>,
    outcome: &Result<bool, StreamFault>,
    input: Counted<ErrorKeeper<R>>,
    output: Counted<ErrorKeeper<W>>,
) -> ExitCode
    ensures { status result ≡ status_of outcome.now }
{
    let streams = Streams {
        name,
        read: input.into_inner().failure(),
        written: output.into_inner().failure(),
    };
    if let Err(fault) = outcome {
        report_fault(rt, *fault, &streams);
    }
    ExitCode::from(exit_status(outcome))
}

/// Says on standard error why a job ended early.
fn report_fault(rt: &HostRuntime, fault: StreamFault, streams: &Streams<'_>) {
    match (fault, &streams.read, &streams.written) {
        (StreamFault::Read, Some(error), _) => {
            let _ = report_unread(rt, streams.name, error);
        }
        (StreamFault::Write, _, Some(error)) => {
            let _ = report_unwritten(rt, error);
        }
        _ => {
            let _ = eprintln!(rt; "bqsim: {fault}");
        }
    }
}
