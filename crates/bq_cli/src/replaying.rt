//! `replay`: a trace, and the reply to each of its lines.
ghost use Rattle.std.specs.Prelude.{IfOk};
ghost use Rattle.clap.specs.Words.{found_of, rows_of};
ghost use Rattle.bq_cli.specs.Words.{AreReplayWords};

use crate::command::Command;
use crate::dispatch::perform_from;
use crate::read_limits::limit_of_bytes;
use bq_console::{Bounded, WordsFault, file_named, opened, report_unread, waiting_input, word};
use clap::ArgMatches;
use std::alloc::{AllocError, Global};
use std::process::ExitCode;
use std::sync::Wait;
use std::thread::Threads;

/// The words after `replay`.
#[derive(Drop)]
pub struct ReplayWords {
    /// The trace; standard input without it, or as `-`.
    pub file: Option<String>,
    /// The most bytes that are read.
    pub max_bytes: Option<String>,
}

/// Gathers the words that were found.
pub(crate) fn replay_words(
    alloc: Global,
    matches: &ArgMatches<'_>,
) -> Result<ReplayWords, AllocError>
    ensures { IfOk result (AreReplayWords (rows_of (found_of matches.now))) }
{
    let file = word(alloc, matches, "file")?;
    let max_bytes = word(alloc, matches, "max-bytes")?;
    Ok(ReplayWords { file, max_bytes })
}

/// Replays the trace in the file that is named, or on standard input.
pub(crate) fn do_replay<T: Threads + Wait + Sync>(
    rt: &HostRuntime,
    threads: &T,
    command: &Command,
    words: &ReplayWords,
) -> Result<ExitCode, WordsFault> {
    let most = limit_of_bytes(rt.alloc(), &words.max_bytes)?;
    let Some(path) = file_named(&words.file) else {
        let input = Bounded::new(waiting_input(rt), most);
        return Ok(perform_from(rt, threads, command, None, input));
    };
    match opened(rt, path) {
        Ok(trace) => {
            let input = Bounded::new(trace, most);
            Ok(perform_from(rt, threads, command, Some(path), input))
        }
        Err(error) => Ok(report_unread(rt, Some(path), &error)),
    }
}
