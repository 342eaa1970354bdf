//! `asm`: an assembler text, assembled to the hex of its program or of an image.
ghost use Rattle.std.specs.Prelude.{IfOk, IfErr};
ghost use Rattle.clap.specs.Words.{found_of, rows_of};
ghost use Rattle.bq_cli.specs.Words.{AreAsmWords, OnlyMemoryFails};

use crate::command::Command;
use crate::dispatch::perform_from;
use crate::policy_words::{format_in, hook_in, policy_words};
use crate::read_limits::most_bytes;
use bq_asm_faults::complaint;
use bq_console::status::BAD_INPUT;
use bq_console::{Lines, WordsFault, report_out_of_memory, whole_input, written};
use bq_policy_check::{AsmRefusal, PolicyWords, asm_note, asm_refusal, options_complaint};
use bq_policy_file::Options;
use clap::ArgMatches;
use std::alloc::Global;
use std::process::ExitCode;
use std::sync::Wait;
use std::thread::Threads;

/// The words after `asm`.
#[derive(Drop)]
pub struct AsmWords {
    /// The text; standard input without it, or as `-`.
    pub file: Option<String>,
    /// The most bytes that are read.
    pub max_bytes: Option<String>,
    /// What it is assembled to.
    pub options: Options,
}

/// Gathers the words that were found. One that names no hook or no format is refused; the text of the maps is judged with the file.
pub(crate) fn asm_words(alloc: Global, matches: &ArgMatches<'_>) -> Result<AsmWords, WordsFault>
    ensures ok { IfOk result (AreAsmWords (rows_of (found_of matches.now))) }
    ensures taken { IfErr result (OnlyMemoryFails (AreAsmWords (rows_of (found_of matches.now)))) }
{
    let words = policy_words(alloc, matches)?;
    let hook = hook_in(alloc, &words.hook)?;
    let format = format_in(alloc, &words.format)?;
    let PolicyWords {
        file,
        maps,
        max_bytes,
        ..
    } = words;
    Ok(AsmWords {
        file,
        max_bytes,
        options: Options { hook, maps, format },
    })
}

/// Assembles the file that is named, or standard input. Options that ask for no form are refused before anything is read.
pub(crate) fn do_asm<T: Threads + Wait + Sync>(
    rt: &HostRuntime,
    threads: &T,
    command: &Command,
    words: &AsmWords,
) -> Result<ExitCode, WordsFault> {
    let most = most_bytes(rt.alloc(), &words.max_bytes)?;
    Ok(assemble_form(rt, threads, command, words, most))
}

/// Assembles the file that is named, or standard input, of at most this many bytes.
fn assemble_form<T: Threads + Wait + Sync>(
    rt: &HostRuntime,
    threads: &T,
    command: &Command,
    words: &AsmWords,
    most: u64,
) -> ExitCode {
    match options_complaint(rt.alloc(), &words.options) {
        Ok(None) => assemble_input(rt, threads, command, words, most),
        Ok(Some(why)) => {
            let code = perform_from(rt, threads, command, None, rt.stdin());
            let why = Lines(why.as_str());
            let _ = eprintln!(rt; "bqsim: {why}");
            code
        }
        Err(_) => report_out_of_memory(rt),
    }
}

/// Assembles what is read, unless its marks contradict the options.
fn assemble_input<T: Threads + Wait + Sync>(
    rt: &HostRuntime,
    threads: &T,
    command: &Command,
    words: &AsmWords,
    most: u64,
) -> ExitCode {
    let text = match whole_input(rt, &words.file, most) {
        Ok(text) => text,
        Err(code) => return code,
    };
    match asm_refusal(rt.alloc(), &words.options, text.as_slice()) {
        Ok(None) => {
            let code = perform_from(rt, threads, command, None, text.as_slice());
            report_beside(rt, &words.options, text.as_slice());
            code
        }
        Ok(Some(refusal)) => refuse(rt, &refusal),
        Err(_) => report_out_of_memory(rt),
    }
}

/// Refuses options that the marks of the text contradict.
fn refuse(rt: &HostRuntime, refusal: &AsmRefusal) -> ExitCode {
    let reason = Lines(refusal.reason.as_str());
    let _ = eprintln!(rt; "bqsim: {reason}");
    written(rt, refusal.line.as_str(), ExitCode::from(BAD_INPUT))
}

/// Says on standard error what is wrong with a text, and which of its marks the answer leaves out.
fn report_beside(rt: &HostRuntime, options: &Options, text: &[u8]) {
    if let Ok(Some(why)) = complaint(rt.alloc(), text) {
        let why = Lines(why.as_str());
        let _ = eprint!(rt; "bqsim: {why}");
    }
    if let Ok(note) = asm_note(rt.alloc(), options, text) {
        for line in note.lines() {
            let line = Lines(line);
            let _ = eprintln!(rt; "bqsim: {line}");
        }
    }
}
