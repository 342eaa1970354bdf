//! The most bytes and events that a command reads, from the words of its options.
ghost use Rattle.std.specs.Prelude.{IfErr, IfOk};
ghost use Rattle.bq_console.specs.Words.{GivesWord, IsNumber};
ghost use Rattle.bq_policy_check.specs.Given.{option_bytes};
ghost use Rattle.bq_cli.specs.Words.{IsLimit, OnlyMemoryFails};

use bq_console::{MOST_BYTES, WordsFault, refused_value};
use bq_words::number;
use std::alloc::Global;

/// What a number of bytes is.
const BYTES: &str = "a number of bytes is a whole number below 2^64, as 1048576";
/// What a number of events is.
const EVENTS: &str = "a number of events is a whole number below 2^64, as 1000000";

/// Returns the most bytes that are read, by the word of `--max-bytes` if there is one.
pub(crate) fn most_bytes(alloc: Global, word: &Option<String>) -> Result<u64, WordsFault>
    ensures most { IfOk result (IsLimit MOST_BYTES (option_bytes word.now)) }
    ensures taken { IfErr result (OnlyMemoryFails (IsLimit MOST_BYTES (option_bytes word.now))) }
{
    match limit_of_bytes(alloc, word)? {
        Some(most) => Ok(most),
        None => Ok(MOST_BYTES),
    }
}

/// Returns the number that the word of `--max-bytes` says, if there is one.
pub(crate) fn limit_of_bytes(
    alloc: Global,
    word: &Option<String>,
) -> Result<Option<u64>, WordsFault>
    ensures limit { IfOk result (GivesWord IsNumber (option_bytes word.now)) }
    ensures taken { IfErr result (OnlyMemoryFails (GivesWord IsNumber (option_bytes word.now))) }
{
    limit_in(alloc, word, "max-bytes", BYTES)
}

/// Returns the most events of a run, by the word of `--max-events` if there is one.
pub(crate) fn most_events(alloc: Global, word: &Option<String>) -> Result<u64, WordsFault>
    ensures most { IfOk result (IsLimit u64.MAX (option_bytes word.now)) }
    ensures taken { IfErr result (OnlyMemoryFails (IsLimit u64.MAX (option_bytes word.now))) }
{
    match limit_in(alloc, word, "max-events", EVENTS)? {
        Some(most) => Ok(most),
        None => Ok(u64::MAX),
    }
}

/// Returns the number that the word of an option says, if there is one.
fn limit_in(
    alloc: Global,
    word: &Option<String>,
    option: &str,
    right: &str,
) -> Result<Option<u64>, WordsFault>
    ensures limit { IfOk result (GivesWord IsNumber (option_bytes word.now)) }
    ensures taken { IfErr result (OnlyMemoryFails (GivesWord IsNumber (option_bytes word.now))) }
{
    let Some(word) = word else {
        return Ok(None);
    };
    match number(word.as_bytes(), 10) {
        Some(most) => Ok(Some(most)),
        None => Err(refused_value(alloc, option, word, right, "")),
    }
}
