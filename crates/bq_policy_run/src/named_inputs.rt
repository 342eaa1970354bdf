//! The inputs that the words of `run` name.
ghost use Rattle.std.specs.Prelude.{◌≡◌, ◌^◌, ℕ, IfErr, IfNone, IfOk, IfSome, OnOk, replicate};
ghost use Rattle.bq_hooks.specs.Hooks.{context_length_of};
ghost use Rattle.bq_bpf.specs.declared.board.TheConstants.{COUNTERS};
ghost use Rattle.bq_policy_run.specs.Naming.{AreZeroMaps, IsContextNamed, SetsCounter, SetsEntry, SetsFields, TextsInTurn};
ghost use Rattle.bq_policy_run.specs.Running.{HasClock, HasInputs, IsNumberOrZero, IsTime, SetsParts, WritesTime};
ghost use Rattle.bq_console.specs.Words.{GivesNone};
ghost use Rattle.bq_policy_check.specs.Given.{option_bytes};

use crate::faults::refused;
use crate::{Inputs, inputs_of};
use bq_bpf::Env;
use bq_console::WordsFault;
use bq_policy_check::{RunWords, small_number};
use bq_verify::Verified;
use bq_words::{duration, with_32_bits, with_units};
use std::alloc::Global;

/// What a time is.
const TIME: &str = with_units!(
    "a time is a whole number of nanoseconds below 2^64, or one with ",
    ", as 1500 or 5ms"
);

/// What the number of a processor is.
const PROCESSOR: &str = with_32_bits!("a processor is a whole number below ", "");

/// Returns the inputs that the words name; all others are 0. Words are refused only if they name no inputs.
pub(crate) fn inputs_named(
    alloc: Global,
    words: &RunWords,
    verified: &Verified,
) -> Result<Inputs, WordsFault>
    ensures names { IfOk result (HasInputs words.now verified.now) }
    ensures none { IfErr result (GivesNone (HasInputs words.now verified.now)) }
{
    let env = env_named(alloc, words)?;
    let mut inputs = first_inputs(alloc, words, verified, env)?;
    set_parts(alloc, words, verified, &mut inputs)?;
    Ok(inputs)
}

/// Sets the fields, entries and counters that the words name.
fn set_parts(
    alloc: Global,
    words: &RunWords,
    verified: &Verified,
    inputs: &mut Inputs,
) -> Result<(), WordsFault>
    ensures context { OnOk result (TextsInTurn (SetsFields verified.now.hook verified.now.version) words.now.fields.items inputs.old.context.items inputs.new.context.items) }
    ensures maps { OnOk result (TextsInTurn SetsEntry words.now.entries.items inputs.old.maps inputs.new.maps) }
    ensures board { OnOk result (TextsInTurn SetsCounter words.now.counters.items inputs.old.board inputs.new.board) }
    ensures env { OnOk result (inputs.new.env ≡ inputs.old.env) }
    ensures refused { IfErr result (GivesNone (SetsParts words.now verified.now inputs.old)) }
{
    let hook = verified.hook();
    let version = verified.version();
    inputs.set_all_fields(alloc, hook, version, words.fields.as_slice())?;
    inputs.set_all_entries(alloc, words.entries.as_slice())?;
    inputs.set_all_counters(alloc, words.counters.as_slice())?;
    Ok(())
}

/// Makes the inputs before words set parts of them: the context that a word names, and all else 0.
fn first_inputs(
    alloc: Global,
    words: &RunWords,
    verified: &Verified,
    env: Env,
) -> Result<Inputs, WordsFault>
    ensures context { IfOk result (λ i. IsContextNamed (option_bytes words.now.context) (context_length_of verified.now.hook verified.now.version) i.context.items) }
    ensures maps { IfOk result (λ i. AreZeroMaps verified.now.shapes i.maps) }
    ensures env { IfOk result (λ i. i.env ≡ env) }
    ensures board { IfOk result (λ i. i.board ≡ replicate COUNTERS 0) }
    ensures refused { IfErr result (GivesNone (IsContextNamed (option_bytes words.now.context) (context_length_of verified.now.hook verified.now.version))) }
{
    let mut inputs = inputs_of(alloc, verified, env)?;
    if let Some(text) = &words.context {
        inputs.set_context(alloc, text.as_str())?;
    }
    Ok(inputs)
}

/// Returns the time and the processor that the words name.
fn env_named(alloc: Global, words: &RunWords) -> Result<Env, WordsFault>
    ensures clock { IfOk result (HasClock words.now) }
    ensures none { IfErr result (GivesNone (HasClock words.now)) }
{
    let now = time(alloc, &words.time)?;
    let processor = number(alloc, &words.processor)?;
    Ok(Env { now, processor })
}

/// Returns the nanoseconds that a word names, by a unit or without; 0 without a word.
fn time(alloc: Global, word: &Option<String>) -> Result<u64, WordsFault>
    ensures time { IfOk result (IsTime (option_bytes word.now)) }
    ensures none { IfErr result (GivesNone (IsTime (option_bytes word.now))) }
{
    let Some(word) = word else {
        return Ok(0);
    };
    match time_in(word.as_str()) {
        Some(time) => Ok(time),
        None => Err(refused(alloc, "time", word, TIME)),
    }
}

/// Returns the nanoseconds that a word writes: a whole number, with a unit or without.
#[tactic(auto, using(crate::proofs::NamingLemmas::no_time))]
fn time_in(word: &str) -> Option<u64>
    ensures some { IfSome result (WritesTime word.now) }
    ensures none { IfNone result ((time : ℕ) → ¬ WritesTime word.now time) }
{
    match duration(word.as_bytes()) {
        Some(time) => Some(time),
        None => bq_words::number(word.as_bytes(), 10),
    }
}

/// Returns the number of a processor that a word names; 0 without a word.
fn number(alloc: Global, word: &Option<String>) -> Result<u32, WordsFault>
    ensures number { IfOk result (IsNumberOrZero (2 ^ 32) (option_bytes word.now)) }
    ensures none { IfErr result (GivesNone (IsNumberOrZero (2 ^ 32) (option_bytes word.now))) }
{
    let Some(word) = word else {
        return Ok(0);
    };
    match small_number(word.as_str()) {
        Some(number) => Ok(number),
        None => Err(refused(alloc, "processor", word, PROCESSOR)),
    }
}
