//! `check`: whether policies are accepted, and why not.
ghost use Rattle.std.specs.Prelude.{◌≡◌, IfOk, false};
ghost use Rattle.clap.specs.Words.{found_of, rows_of};
ghost use Rattle.bq_cli.specs.Status.{EndsBy, answer_status};
ghost use Rattle.bq_cli.specs.Words.{AreCheckWords, AreLimitWords, is_among, is_plain_check, limit_nothing, replaces_policy};

use crate::answer::exit_status_of;
use crate::policy_words::{name_nothing, policy_words};
use crate::read_limits::most_bytes;
use bq_console::status::{BAD_INPUT, BAD_WORDS, IO_FAILED, OUT_OF_MEMORY};
use bq_console::{
    Lines, Name, WordsFault, all_words, is_set, read_input, reason, refused_value, refused_words,
    report_file_unwritten, report_unread, report_unwritten, word,
};
use bq_policy_check::{Answered, CheckWords, LimitWords, accepted_image, check, unanswered_json};
use clap::ArgMatches;
use std::alloc::{AllocError, Global};
use std::fs;
use std::io::{Error, ErrorKind, IsTerminal, Write};
use std::process::ExitCode;

/// The line of JSON if memory runs out for another.
const NO_MEMORY: &str =
    "{\"accepted\":false,\"answer\":null,\"explanation\":[],\"file\":null,\"need\":\"out of memory\",\"schema\":1,\"stage\":\"memory\"}\n";

/// Gathers the words that were found.
pub(crate) fn check_words(alloc: Global, matches: &ArgMatches<'_>) -> Result<CheckWords, AllocError>
    ensures { IfOk result (AreCheckWords (rows_of (found_of matches.now))) }
{
    let policy = policy_words(alloc, matches)?;
    let files = all_words(alloc, matches, "file")?;
    let limits = limit_words(alloc, matches)?;
    let image = word(alloc, matches, "image")?;
    Ok(CheckWords {
        policy,
        files,
        is_explained: is_set(matches, "explain"),
        is_json: is_set(matches, "json"),
        limits,
        image,
    })
}

/// Gathers the words of the keeper's own limits.
fn limit_words(alloc: Global, matches: &ArgMatches<'_>) -> Result<LimitWords, AllocError>
    ensures { IfOk result (AreLimitWords (rows_of (found_of matches.now))) }
{
    let steps = word(alloc, matches, "max-steps")?;
    let helpers = word(alloc, matches, "helpers")?;
    let hooks = word(alloc, matches, "hooks")?;
    let maps = word(alloc, matches, "max-maps")?;
    let map_bytes = word(alloc, matches, "max-map-bytes")?;
    let counters = word(alloc, matches, "max-counters")?;
    Ok(LimitWords {
        steps,
        helpers,
        hooks,
        maps,
        map_bytes,
        counters,
    })
}

/// Tells whether there is no file and no option: then the hex of an image is read from standard input.
pub(crate) fn is_plain_check(words: &CheckWords) -> bool
    ensures { result ≡ is_plain_check words.now }
{
    name_nothing(&words.policy)
        && !words.is_explained
        && !words.is_json
        && limit_nothing(&words.limits)
        && words.image.is_none()
}

/// Tells whether no word sets a limit.
fn limit_nothing(words: &LimitWords) -> bool
    ensures { result ≡ limit_nothing words.now }
{
    words.steps.is_none()
        && words.helpers.is_none()
        && words.hooks.is_none()
        && words.maps.is_none()
        && words.map_bytes.is_none()
        && words.counters.is_none()
}

/// Checks the policies in the files that are named, or on standard input. The exit status is the greatest among the files.
pub(crate) fn do_check(rt: &HostRuntime, words: &CheckWords) -> Result<ExitCode, WordsFault> {
    let most = match most_read(rt.alloc(), words) {
        Ok(most) => most,
        Err(fault) => {
            if let WordsFault::Words(why) = &fault {
                let _ = unanswered(rt, words, None, "words", why.trim(), BAD_WORDS);
            }
            return Err(fault);
        }
    };
    let mut worst = 0u8;
    if words.files.is_empty() {
        worst = check_one(rt, words, None, most);
    }
    for file in &words.files {
        let name = file.as_str();
        let named = if name == "-" { None } else { Some(name) };
        worst = worst.max(check_one(rt, words, named, most));
    }
    if worst == BAD_INPUT {
        report_how_explained(rt, words);
    }
    Ok(ExitCode::from(worst))
}

/// Says on a terminal how to learn why a policy is refused, unless the answer has that already.
fn report_how_explained(rt: &HostRuntime, words: &CheckWords) {
    if !words.is_explained && !words.is_json && rt.stderr().is_terminal() {
        let _ = rt.eprintln("bqsim: give --explain too, to see why");
    }
}

/// The message on `--image` with several files.
const NO_IMAGE: &str =
    "--image names the file for the image of one policy: check one file at a time";

/// The message on `--image -`.
const NO_FILE: &str =
    "the image goes to a file, since standard output has the answer; bqsim asm writes the hex of an image";

/// The message on an `--image` that names the policy's own file.
const OWN_FILE: &str =
    "--image names the policy's own file, which the image would replace: name another file";

/// Returns the most bytes that are read of a file. Words that want one image of several policies, or an image in place of a policy,
/// are refused.
fn most_read(alloc: Global, words: &CheckWords) -> Result<u64, WordsFault>
    ensures { IfOk result (λ most. replaces_policy words.now ≡ false) }
{
    if let Some(path) = &words.image {
        if path.as_str() == "-" {
            return Err(refused_value(alloc, "image", path, NO_FILE, ""));
        }
        if words.files.len() > 1 {
            return Err(refused_words(alloc, &NO_IMAGE));
        }
    }
    if replaces_policy(words) {
        return Err(refused_words(alloc, &OWN_FILE));
    }
    most_bytes(alloc, &words.policy.max_bytes)
}

/// Tells whether the image would go to a file of a policy.
fn replaces_policy(words: &CheckWords) -> bool
    ensures { result ≡ replaces_policy words.now }
{
    match &words.image {
        Some(path) => is_among(path.as_str(), words.files.as_slice()),
        None => false,
    }
}

/// Tells whether a word is one of some words.
fn is_among(word: &str, others: &[String]) -> bool
    ensures { result ≡ is_among word.now others.now }
{
    others.iter().any(|other| other.as_str() == word)
}

/// Checks the policy in the file of that name, or on standard input, and returns the exit status of the answer.
fn check_one(rt: &HostRuntime, words: &CheckWords, name: Option<&str>, most: u64) -> u8 {
    let bytes = match read_input(rt, name, most) {
        Ok(bytes) => bytes,
        Err(error) => return unread(rt, words, name, &error),
    };
    let answer = check(rt.alloc(), words, name, bytes.as_slice());
    if let (Ok(Answered::Done(_)), Some(path)) = (&answer, &words.image) {
        if let Err(status) = write_image(rt, words, name, path, bytes.as_slice()) {
            return status;
        }
    }
    answer_of(rt, words, name, &answer)
}

/// Writes to standard output what `check` answers to a file, and returns the exit status of the answer.
fn answer_of(
    rt: &HostRuntime,
    words: &CheckWords,
    name: Option<&str>,
    answer: &Result<Answered, AllocError>,
) -> u8
    ensures { EndsBy (answer_status answer.now) result }
{
    let status = exit_status_of(answer);
    match answer {
        Ok(Answered::Done(text) | Answered::Refused(text)) => {
            report_answer(rt, words, name, text.as_str(), status)
        }
        Ok(Answered::Words(why)) => {
            let shown = Lines(why.as_str());
            let _ = eprintln!(rt; "error: {shown}");
            unanswered(rt, words, name, "words", why.as_str(), BAD_WORDS)
        }
        Err(_) => {
            let _ = rt.eprintln("bqsim: out of memory");
            unanswered(rt, words, name, "memory", "out of memory", OUT_OF_MEMORY)
        }
    }
}

/// Says why a file can't be read, and answers the exit status.
fn unread(rt: &HostRuntime, words: &CheckWords, name: Option<&str>, error: &Error) -> u8 {
    let _ = report_unread(rt, name, error);
    failed(rt, words, name, "reading", error)
}

/// Writes the image of the policy that is accepted. The error is the exit status.
fn write_image(
    rt: &HostRuntime,
    words: &CheckWords,
    name: Option<&str>,
    path: &String,
    bytes: &[u8],
) -> Result<(), u8> {
    let image = match accepted_image(rt.alloc(), words, bytes) {
        Ok(Some(image)) => image,
        Ok(None) => return Ok(()),
        Err(_) => return Err(answer_of(rt, words, name, &Err(AllocError))),
    };
    match fs::write(rt, path.as_str(), image.as_slice()) {
        Ok(()) => Ok(()),
        Err(error) => {
            let _ = report_file_unwritten(rt, path.as_str(), &error);
            Err(failed(rt, words, name, "writing", &error))
        }
    }
}

/// Returns the exit status after a call on a file failed; if the answers are JSON, writes a line on the file.
fn failed(
    rt: &HostRuntime,
    words: &CheckWords,
    name: Option<&str>,
    stage: &str,
    error: &Error,
) -> u8 {
    if error.kind() == ErrorKind::OutOfMemory {
        return unanswered(rt, words, name, "memory", "out of memory", OUT_OF_MEMORY);
    }
    match reason(rt.alloc(), error) {
        Ok(why) => unanswered(rt, words, name, stage, why.as_str(), IO_FAILED),
        Err(_) => unanswered(
            rt,
            words,
            name,
            stage,
            "a call of the system failed",
            IO_FAILED,
        ),
    }
}

/// Writes the line on a file that gets no answer to standard output, if the answers are JSON, and returns the exit status.
fn unanswered(
    rt: &HostRuntime,
    words: &CheckWords,
    name: Option<&str>,
    stage: &str,
    why: &str,
    status: u8,
) -> u8
    ensures { EndsBy status result }
{
    if !words.is_json {
        return status;
    }
    match unanswered_json(rt.alloc(), name, stage, why) {
        Ok(line) => report_line(rt, line.as_str(), status),
        Err(_) => report_line(rt, NO_MEMORY, status),
    }
}

/// Writes an answer to standard output, in prose after the file's name if there are several files, and returns the exit status.
fn report_answer(
    rt: &HostRuntime,
    words: &CheckWords,
    name: Option<&str>,
    text: &str,
    status: u8,
) -> u8
    ensures { EndsBy status result }
{
    if words.is_json || words.files.len() < 2 {
        return report_line(rt, text, status);
    }
    let name = Name(name.unwrap_or("-"));
    match format!(in rt.alloc(); "{name}: {text}") {
        Ok(named) => report_line(rt, named.as_str(), status),
        Err(_) => {
            let _ = rt.eprintln("bqsim: out of memory");
            OUT_OF_MEMORY
        }
    }
}

/// Writes to standard output, and answers the exit status, which is another if the write fails.
fn report_line(rt: &HostRuntime, text: &str, status: u8) -> u8
    ensures { EndsBy status result }
{
    let mut output = rt.stdout();
    match output.write_all(text.as_bytes()) {
        Ok(()) => status,
        Err(error) => {
            let _ = report_unwritten(rt, &error);
            if error.kind() == ErrorKind::OutOfMemory {
                OUT_OF_MEMORY
            } else {
                IO_FAILED
            }
        }
    }
}
