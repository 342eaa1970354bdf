//! The number of runs before the one that is shown.
ghost use Rattle.std.specs.Prelude.{IfErr, IfOk};
ghost use Rattle.bq_policy_run.specs.Running.{IsCountBeforeLast};
ghost use Rattle.bq_console.specs.Words.{GivesNone};
ghost use Rattle.bq_policy_check.specs.Given.{option_bytes};

use crate::faults::refused;
use bq_console::WordsFault;
use bq_policy_check::small_number;
use bq_words::with_32_bits;
use std::alloc::Global;

/// What a number of runs is.
const RUNS: &str = with_32_bits!("a number of runs is at least 1, and below ", "");

/// Returns the number of runs before the last, of as many as a word says; 0 without a word.
pub(crate) fn runs_before(alloc: Global, word: &Option<String>) -> Result<u32, WordsFault>
    ensures before { IfOk result (IsCountBeforeLast (option_bytes word.now)) }
    ensures none { IfErr result (GivesNone (IsCountBeforeLast (option_bytes word.now))) }
{
    let Some(word) = word else {
        return Ok(0);
    };
    match small_number(word.as_str()) {
        Some(count) if count > 0 => Ok(count - 1),
        _ => Err(refused(alloc, "repeat", word, RUNS)),
    }
}
