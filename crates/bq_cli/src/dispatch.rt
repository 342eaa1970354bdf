//! What the words after the program's name ask, to the exit status.

use crate::asm::do_asm;
use crate::check::{do_check, is_plain_check};
use crate::command::{Command, job};
use crate::dis::{do_dis, is_plain_dis};
use crate::import::do_import;
use crate::performing::perform;
use crate::replaying::do_replay;
use crate::run::do_run;
use crate::simulate::do_simulate;
use crate::tables::VERSION;
use crate::timeline::do_timeline;
use bq_console::{
    Bounded, ErasingWriter, MOST_BYTES, ProgressLine, ShowingReader, WordsFault, as_texts, ended,
    given_words, joined_words, report_out_of_memory, waiting_input, written,
};
use bq_lines::with_first_line;
use bq_streams::{Counted, ErrorKeeper};
use std::io::{IsTerminal, Read};
use std::process::ExitCode;
use std::sync::Wait;
use std::thread::Threads;

/// The message on an empty trace.
const EMPTY: &str = with_first_line!("bqsim: the trace is empty: ", "");

/// Does what the words after the program's name ask: a command on the files that they name, or on standard input, to standard output. A
/// fault says what is wrong with the words, and then no input was read; or it is the help that they ask for.
pub fn do_command<T: Threads + Wait + Sync>(
    rt: &HostRuntime,
    threads: &T,
) -> Result<ExitCode, WordsFault> {
    let given = given_words(rt)?;
    let joined = joined_words(rt.alloc(), given.as_slice())?;
    let words = as_texts(rt.alloc(), &joined)?;
    do_words(rt, threads, words.as_slice())
}

/// Does what these words ask. The version goes to standard output: it is no refusal and no help.
fn do_words<T: Threads + Wait + Sync>(
    rt: &HostRuntime,
    threads: &T,
    words: &[&str],
) -> Result<ExitCode, WordsFault> {
    match words {
        ["--version" | "-V"] => Ok(write_version(rt)),
        words => do_on_files(rt, threads, &job(rt.alloc(), words)?),
    }
}

/// Does a command: reads the files that its words name, or standard input, and writes to standard output.
fn do_on_files<T: Threads + Wait + Sync>(
    rt: &HostRuntime,
    threads: &T,
    command: &Command,
) -> Result<ExitCode, WordsFault> {
    match command {
        Command::Asm(words) => do_asm(rt, threads, command, words),
        Command::Check(words) if !is_plain_check(words) => do_check(rt, words),
        Command::Dis(words) if !is_plain_dis(words) => do_dis(rt, words),
        Command::Check(_) | Command::Dis(_) => {
            let input = Bounded::new(waiting_input(rt), Some(MOST_BYTES));
            Ok(perform_from(rt, threads, command, None, input))
        }
        Command::Run(words) => do_run(rt, words),
        Command::Import(words) => do_import(rt, words),
        Command::Par(_) => Ok(perform_from(rt, threads, command, None, rt.stdin())),
        Command::Replay(words) => do_replay(rt, threads, command, words),
        Command::Timeline(words) => do_timeline(rt, words),
        Command::Simulate(words) => do_simulate(rt, threads, words),
    }
}

/// The message after `check` refused hex.
const CHECK_READS_HEX: &str =
    "without a file this reads hex; bqsim check --explain - reads a policy in any form";

/// The message after `dis` refused hex.
const DIS_READS_HEX: &str = "without a file this reads hex; bqsim dis - reads a policy in any form";

/// The message after `replay` found a bad line.
const REPLAY_SAYS_NOT_WHY: &str = "a line is bad; bqsim timeline says why";

/// Performs a command on what is read from the file of that name, or from standard input.
pub(crate) fn perform_from<T: Threads + Wait + Sync, R: Read + Drop>(
    rt: &HostRuntime,
    threads: &T,
    command: &Command,
    name: Option<&str>,
    reader: R,
) -> ExitCode {
    let progress = ProgressLine::new(rt);
    let mut input = Counted::new(ErrorKeeper::new(ShowingReader::new(reader, &progress)));
    let mut output = Counted::new(ErrorKeeper::new(ErasingWriter::new(rt.stdout(), &progress)));
    let outcome = perform(threads, rt.alloc(), command, &mut input, &mut output);
    progress.erase();
    // A trace that ends at the first read is empty.
    if matches!((command, &outcome), (Command::Replay(_), Ok(true))) && input.calls() == 1 {
        let _ = rt.eprintln(EMPTY);
    }
    if matches!(&outcome, Ok(false)) && rt.stderr().is_terminal() {
        report_other_command(rt, command);
    }
    ended(rt, name, &outcome, input, output)
}

/// Says which command reads more than hex, if `check` or `dis` refused hex, or says why a line of a trace is bad.
fn report_other_command(rt: &HostRuntime, command: &Command) {
    let advice = match command {
        Command::Check(_) => CHECK_READS_HEX,
        Command::Dis(_) => DIS_READS_HEX,
        Command::Replay(_) => REPLAY_SAYS_NOT_WHY,
        _ => return,
    };
    let _ = eprintln!(rt; "bqsim: {advice}");
}

/// Writes the version of the program.
fn write_version(rt: &HostRuntime) -> ExitCode {
    match format!(in rt.alloc(); "bqsim {VERSION}\n") {
        Ok(line) => written(rt, line.as_str(), ExitCode::SUCCESS),
        Err(_) => report_out_of_memory(rt),
    }
}
