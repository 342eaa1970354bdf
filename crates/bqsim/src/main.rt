//! bqsim: does what its words ask, from a file or standard input to standard output.
#![tactic(auto)]

use bq_cli::do_command;
use bq_console::report_refused;
use std::process::ExitCode;

fn main(rt: HostRuntime) -> ExitCode {
    match do_command(&rt, &rt) {
        Ok(code) => code,
        Err(fault) => report_refused(&rt, &fault),
    }
}
