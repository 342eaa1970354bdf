//! Writing the whole answer of a command to standard output.
ghost use Rattle.std.specs.Prelude.{◌≡◌, ◌⊎◌};
ghost use Rattle.bq_console.specs.Status.{EndsFailed};

use crate::reporting::report_unwritten;
use std::io::Write;
use std::process::ExitCode;

/// Writes an answer to standard output, and ends with this code. If the write fails, standard error says why, and the code is
/// that of the failure.
pub fn written(rt: &HostRuntime, text: &str, code: ExitCode) -> ExitCode
    ensures { (result ≡ code) ⊎ EndsFailed result }
{
    let mut output = rt.stdout();
    match output.write_all(text.as_bytes()) {
        Ok(()) => code,
        Err(error) => report_unwritten(rt, &error),
    }
}
