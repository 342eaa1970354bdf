//! `run`: one run of a policy, or several.
ghost use Rattle.std.specs.Prelude.{IfOk, codes};
ghost use Rattle.clap.specs.Words.{found_of, rows_of};
ghost use Rattle.bq_cli.specs.Words.{AreAll, AreRunWords, AreReportWords, IsFirstWord};

use crate::answer::written_answer;
use crate::policy_words::policy_words;
use crate::read_limits::most_bytes;
use bq_console::{WordsFault, all_words, is_set, whole_input, word};
use bq_policy_check::{ReportWords, RunWords};
use bq_policy_run::run;
use clap::ArgMatches;
use std::alloc::{AllocError, Global};
use std::process::ExitCode;

/// Gathers the words that were found.
pub(crate) fn run_words(alloc: Global, matches: &ArgMatches<'_>) -> Result<RunWords, AllocError>
    ensures { IfOk result (AreRunWords (rows_of (found_of matches.now))) }
{
    let policy = policy_words(alloc, matches)?;
    let report = report_words(alloc, matches)?;
    let context = word(alloc, matches, "ctx")?;
    let (time, processor) = moment_words(alloc, matches)?;
    let (fields, entries, counters) = begun_with(alloc, matches)?;
    Ok(RunWords {
        policy,
        report,
        context,
        fields,
        entries,
        counters,
        time,
        processor,
    })
}

/// Gathers the time and the processor of a run.
fn moment_words(
    alloc: Global,
    matches: &ArgMatches<'_>,
) -> Result<(Option<String>, Option<String>), AllocError>
    ensures time { IfOk result (λ w. IsFirstWord (codes "time") (rows_of (found_of matches.now)) w.0) }
    ensures processor { IfOk result (λ w. IsFirstWord (codes "processor") (rows_of (found_of matches.now)) w.1) }
{
    let time = word(alloc, matches, "time")?;
    let processor = word(alloc, matches, "processor")?;
    Ok((time, processor))
}

/// Gathers the fields, entries and counters that a run begins with.
fn begun_with(
    alloc: Global,
    matches: &ArgMatches<'_>,
) -> Result<(Vec<String>, Vec<String>, Vec<String>), AllocError>
    ensures fields { IfOk result (λ w. AreAll (codes "set") (rows_of (found_of matches.now)) w.0.items) }
    ensures entries { IfOk result (λ w. AreAll (codes "map") (rows_of (found_of matches.now)) w.1.items) }
    ensures counters { IfOk result (λ w. AreAll (codes "counter") (rows_of (found_of matches.now)) w.2.items) }
{
    let fields = all_words(alloc, matches, "set")?;
    let entries = all_words(alloc, matches, "map")?;
    let counters = all_words(alloc, matches, "counter")?;
    Ok((fields, entries, counters))
}

/// Gathers the words on how a run is reported.
fn report_words(alloc: Global, matches: &ArgMatches<'_>) -> Result<ReportWords, AllocError>
    ensures { IfOk result (AreReportWords (rows_of (found_of matches.now))) }
{
    let repeat = word(alloc, matches, "repeat")?;
    Ok(ReportWords {
        is_traced: is_set(matches, "trace"),
        repeat,
    })
}

/// Runs the policy in the file that is named, or on standard input. The clock measures how long runs take.
pub(crate) fn do_run(rt: &HostRuntime, words: &RunWords) -> Result<ExitCode, WordsFault> {
    let most = most_bytes(rt.alloc(), &words.policy.max_bytes)?;
    match whole_input(rt, &words.policy.file, most) {
        Ok(bytes) => Ok(written_answer(rt, &run(rt.alloc(), rt, words, bytes.as_slice()))),
        Err(code) => Ok(code),
    }
}
