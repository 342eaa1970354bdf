//! `dis`: the listing of a policy, or of a program.
ghost use Rattle.std.specs.Prelude.{◌≡◌, IfOk};
ghost use Rattle.clap.specs.Words.{found_of, rows_of};
ghost use Rattle.bq_cli.specs.Words.{AreDisWords, is_plain_dis};

use crate::answer::written_answer;
use crate::policy_words::{name_nothing, policy_words};
use crate::read_limits::most_bytes;
use bq_console::{WordsFault, is_set, whole_input};
use bq_policy_check::{DisWords, list};
use clap::ArgMatches;
use std::alloc::{AllocError, Global};
use std::process::ExitCode;

/// Gathers the words that were found.
pub(crate) fn dis_words(alloc: Global, matches: &ArgMatches<'_>) -> Result<DisWords, AllocError>
    ensures { IfOk result (AreDisWords (rows_of (found_of matches.now))) }
{
    let policy = policy_words(alloc, matches)?;
    Ok(DisWords {
        policy,
        has_slots: is_set(matches, "slots"),
    })
}

/// Tells whether there is no file and no option: then the hex of a program is read from standard input.
pub(crate) fn is_plain_dis(words: &DisWords) -> bool
    ensures { result ≡ is_plain_dis words.now }
{
    name_nothing(&words.policy) && !words.has_slots
}

/// Lists the policy in the file that is named, or on standard input.
pub(crate) fn do_dis(rt: &HostRuntime, words: &DisWords) -> Result<ExitCode, WordsFault> {
    let most = most_bytes(rt.alloc(), &words.policy.max_bytes)?;
    match whole_input(rt, &words.policy.file, most) {
        Ok(bytes) => Ok(written_answer(rt, &list(rt.alloc(), words, bytes.as_slice()))),
        Err(code) => Ok(code),
    }
}
