//! The time that runs of a policy take.
ghost use Rattle.std.specs.Prelude.{◌≡◌, [], IfErr, IfOk, IsNone, string_bytes};
ghost use Rattle.bq_console.specs.Words.{GivesNone};
ghost use Rattle.bq_policy_run.specs.Running.{HasInputs};

use crate::named_inputs::inputs_named;
use crate::{Inputs, run_often};
use bq_console::WordsFault;
use bq_policy_check::RunWords;
use bq_verify::Verified;
use std::alloc::{AllocError, Global};
use std::time::Clock;

/// Returns the inputs that the words name, and the line that says how long a run on them takes, of one run more than `before`.
/// The line is empty unless the words say how often the policy is run. Words are refused only if they name no inputs.
pub(crate) fn timed_inputs<C: Clock>(
    alloc: Global,
    clock: &C,
    words: &RunWords,
    verified: &Verified,
    before: u32,
) -> Result<(Inputs, String), WordsFault>
    ensures names { IfOk result (λ timed. HasInputs words.now verified.now timed.0) }
    ensures untimed { IfOk result (λ timed. IsNone words.now.report.repeat → string_bytes timed.1 ≡ []) }
    ensures none { IfErr result (GivesNone (HasInputs words.now verified.now)) }
{
    let mut timed = inputs_named(alloc, words, verified)?;
    if words.report.repeat.is_none() {
        return Ok((timed, String::new(alloc)));
    }
    let line = time_line(alloc, clock, verified, &mut timed, before)?;
    // The runs that were timed changed those inputs.
    let inputs = inputs_named(alloc, words, verified)?;
    Ok((inputs, line))
}

/// Runs the policy once more often than `before`, and returns the line that says how often that is and how long a run takes on
/// average, in nanoseconds, or that no time was read. The runs change the maps and counters of the inputs.
fn time_line<C: Clock>(
    alloc: Global,
    clock: &C,
    verified: &Verified,
    inputs: &mut Inputs,
    before: u32,
) -> Result<String, AllocError> {
    let count = before.saturating_add(1);
    match time_on(clock, verified, inputs, count) {
        Some(all) => {
            let each = all / u128::from(count);
            format!(in alloc; "{count} runs, {each} ns a run\n")
        }
        None => format!(in alloc; "{count} runs, no time was read\n"),
    }
}

/// Returns how many nanoseconds this many runs take on these inputs. None if the clock fails or goes back.
fn time_on<C: Clock>(
    clock: &C,
    verified: &Verified,
    inputs: &mut Inputs,
    count: u32,
) -> Option<u128> {
    let Ok(began) = clock.monotonic() else {
        return None;
    };
    run_often(verified, inputs, count)?;
    let Ok(ended) = clock.monotonic() else {
        return None;
    };
    let took = ended.checked_sub(began)?;
    Some(took.as_nanos())
}
