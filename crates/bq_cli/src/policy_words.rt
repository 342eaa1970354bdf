//! A policy among the words of a command: its file, its hook, its maps and its format.
ghost use Rattle.std.specs.Prelude.{◌≡◌, IfOk, IfErr};
ghost use Rattle.clap.specs.Words.{found_of, rows_of};
ghost use Rattle.bq_policy_check.specs.Given.{option_bytes};
ghost use Rattle.bq_cli.specs.Words.{ArePolicyWords, GivesHook, GivesVersion, OnlyMemoryFails, name_nothing};

use bq_console::{WordsFault, refused_value, word};
use bq_hooks::{Hook, Version};
use bq_policy_check::{FORMAT, HOOK, HOOK_WORDS, PolicyWords};
use clap::ArgMatches;
use std::alloc::{AllocError, Global};

/// Gathers the words that were found for a policy.
pub(crate) fn policy_words(
    alloc: Global,
    matches: &ArgMatches<'_>,
) -> Result<PolicyWords, AllocError>
    ensures { IfOk result (ArePolicyWords (rows_of (found_of matches.now))) }
{
    let file = word(alloc, matches, "file")?;
    let hook = word(alloc, matches, "hook")?;
    let maps = word(alloc, matches, "maps")?;
    let format = word(alloc, matches, "format")?;
    let max_bytes = word(alloc, matches, "max-bytes")?;
    Ok(PolicyWords {
        file,
        hook,
        maps,
        format,
        max_bytes,
    })
}

/// Tells whether no word names a file, a hook, maps, a format or a number of bytes.
pub(crate) fn name_nothing(words: &PolicyWords) -> bool
    ensures { result ≡ name_nothing words.now }
{
    words.file.is_none()
        && words.hook.is_none()
        && words.maps.is_none()
        && words.format.is_none()
        && words.max_bytes.is_none()
}

/// Returns the hook that a word names, if there is a word.
pub(crate) fn hook_in(alloc: Global, word: &Option<String>) -> Result<Option<Hook>, WordsFault>
    ensures ok { IfOk result (GivesHook (option_bytes word.now)) }
    ensures taken { IfErr result (OnlyMemoryFails (GivesHook (option_bytes word.now))) }
{
    let Some(word) = word else {
        return Ok(None);
    };
    match Hook::of_word(word.as_bytes()) {
        Some(hook) => Ok(Some(hook)),
        None => Err(refused_value(alloc, "hook", word, HOOK, HOOK_WORDS)),
    }
}

/// Returns the version that a word names, if there is a word.
pub(crate) fn format_in(alloc: Global, word: &Option<String>) -> Result<Option<Version>, WordsFault>
    ensures ok { IfOk result (GivesVersion (option_bytes word.now)) }
    ensures taken { IfErr result (OnlyMemoryFails (GivesVersion (option_bytes word.now))) }
{
    let Some(word) = word else {
        return Ok(None);
    };
    match Version::of_word(word.as_bytes()) {
        Some(version) => Ok(Some(version)),
        None => Err(refused_value(alloc, "format", word, FORMAT, "")),
    }
}
