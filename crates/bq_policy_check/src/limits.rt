//! A keeper's own limits, from the words of a command.
ghost use Rattle.std.specs.Prelude.{◌≡◌, [], IfErr, IfOk, MatchOption};
ghost use Rattle.bq_console.specs.Words.{GivesNone, GivesWord};
ghost use Rattle.bq_policy_check.specs.Given.{option_bytes};
ghost use Rattle.bq_policy_check.specs.Limiting.{HasLimits, IsHelperWord, IsHook, IsMost, NamesHelpers, NamesHooks, NamesNoHelpers, NamesNoHooks, ReadsParts};

use crate::given::HOOK_WORDS;
use crate::numbers::{helper, small_number};
use crate::words::LimitWords;
use bq_bpf::with_helpers;
use bq_console::{WordsFault, value_words, words_fault};
use bq_explain::Limits;
use bq_hooks::{Hook, with_hooks};
use bq_words::with_32_bits;
use std::alloc::{AllocError, Global};

/// What a limit of steps is.
const STEPS: &str = with_32_bits!("a limit is a number of instructions below ", ", as 100");
/// What another limit is.
const MOST: &str = with_32_bits!("a limit is a number below ", ", as 100");
/// What a list of hooks is.
const HOOKS: &str = with_hooks!("each is one of ", ", with commas between them");
/// What a list of helpers is.
const HELPERS: &str = with_helpers!("each is the number of a helper, with commas between them: ");

/// Returns the limits that the words set. Words are refused only if they set none.
pub fn limits_of(alloc: Global, words: &LimitWords) -> Result<Limits, WordsFault>
    ensures has { IfOk result (HasLimits words.now) }
    ensures none { IfErr result (GivesNone (HasLimits words.now)) }
{
    let steps = most_in(alloc, &words.steps, "max-steps", STEPS)?;
    let helpers = helpers_in(alloc, &words.helpers)?;
    let hooks = hooks_in(alloc, &words.hooks)?;
    let maps = most_in(alloc, &words.maps, "max-maps", MOST)?;
    let map_bytes = most_in(alloc, &words.map_bytes, "max-map-bytes", MOST)?;
    let counters = most_in(alloc, &words.counters, "max-counters", MOST)?;
    Ok(Limits {
        steps,
        helpers,
        hooks,
        maps,
        map_bytes,
        counters,
    })
}

/// Returns the number of a limit, if there is a word of it.
fn most_in(
    alloc: Global,
    word: &Option<String>,
    option: &'static str,
    what: &'static str,
) -> Result<Option<u32>, WordsFault>
    ensures gives { IfOk result (GivesWord IsMost (option_bytes word.now)) }
    ensures none { IfErr result (GivesNone (GivesWord IsMost (option_bytes word.now))) }
{
    let Some(word) = word else {
        return Ok(None);
    };
    match small_number(word.as_str()) {
        Some(most) => Ok(Some(most)),
        None => Err(words_fault(value_words(alloc, option, word, what, ""))),
    }
}

/// Returns the hooks that a policy may be for, if there is a word of them: their words with commas between.
fn hooks_in(alloc: Global, word: &Option<String>) -> Result<Option<Vec<Hook>>, WordsFault>
    ensures gives { IfOk result (GivesWord NamesHooks (option_bytes word.now)) }
    ensures none { IfErr result (GivesNone (GivesWord NamesHooks (option_bytes word.now))) }
{
    let Some(word) = word else {
        return Ok(None);
    };
    match hooks_of(alloc, word.as_str())? {
        Some(hooks) => Ok(Some(hooks)),
        None => {
            let wrong = first_wrong_hook(word);
            Err(words_fault(value_words(alloc, "hooks", wrong, HOOKS, HOOK_WORDS)))
        }
    }
}

/// Returns the first part between commas that is no hook, or the whole text if each is one.
fn first_wrong_hook(text: &str) -> &str {
    for part in text.split(',') {
        if Hook::of_word(part.as_bytes()).is_none() {
            return part;
        }
    }
    text
}

/// Returns the hooks of a text with commas between; none of an empty text.
#[tactic(auto, using(crate::proofs::ListLemmas::none_named, crate::proofs::ListLemmas::all_named, crate::proofs::ListLemmas::not_named))]
fn hooks_of(alloc: Global, text: &str) -> Result<Option<Vec<Hook>>, AllocError>
    ensures { IfOk result (λ named. MatchOption named (NamesNoHooks text.now) (NamesHooks text.now)) }
{
    let mut hooks = Vec::new(alloc);
    if text.is_empty() {
        return Ok(Some(hooks));
    }
    if push_hooks(&mut hooks, text)? {
        return Ok(Some(hooks));
    }
    Ok(None)
}

/// Adds the hooks of a comma-separated text, up to the first part that is no hook. Returns whether all parts are hooks.
fn push_hooks(hooks: &mut Vec<Hook>, text: &str) -> Result<bool, AllocError>
    requires { hooks.old.items ≡ [] }
    ensures { IfOk result (ReadsParts IsHook text.now hooks.new.items) }
{
    for part in text.split(',') {
        match Hook::of_word(part.as_bytes()) {
            Some(hook) => hooks.push(hook)?,
            None => return Ok(false),
        }
    }
    Ok(true)
}

/// Returns the helpers that may be called, if there is a word of them: their numbers with commas between.
fn helpers_in(alloc: Global, word: &Option<String>) -> Result<Option<Vec<i32>>, WordsFault>
    ensures gives { IfOk result (GivesWord NamesHelpers (option_bytes word.now)) }
    ensures none { IfErr result (GivesNone (GivesWord NamesHelpers (option_bytes word.now))) }
{
    let Some(word) = word else {
        return Ok(None);
    };
    match helpers_of(alloc, word.as_str())? {
        Some(helpers) => Ok(Some(helpers)),
        None => {
            let wrong = first_wrong_helper(word);
            Err(words_fault(value_words(alloc, "helpers", wrong, HELPERS, "")))
        }
    }
}

/// Returns the first part between commas that is no helper, or the whole text if each is one.
fn first_wrong_helper(text: &str) -> &str {
    for part in text.split(',') {
        if helper(part.as_bytes()).is_none() {
            return part;
        }
    }
    text
}

/// Returns the helpers of a text with commas between; none of an empty text.
#[tactic(auto, using(crate::proofs::ListLemmas::none_named, crate::proofs::ListLemmas::all_named, crate::proofs::ListLemmas::not_named))]
fn helpers_of(alloc: Global, text: &str) -> Result<Option<Vec<i32>>, AllocError>
    ensures { IfOk result (λ named. MatchOption named (NamesNoHelpers text.now) (NamesHelpers text.now)) }
{
    let mut helpers = Vec::new(alloc);
    if text.is_empty() {
        return Ok(Some(helpers));
    }
    if push_helpers(&mut helpers, text)? {
        return Ok(Some(helpers));
    }
    Ok(None)
}

/// Adds the helpers of a comma-separated text, up to the first part that is no helper's number. Returns whether all parts are.
fn push_helpers(helpers: &mut Vec<i32>, text: &str) -> Result<bool, AllocError>
    requires { helpers.old.items ≡ [] }
    ensures { IfOk result (ReadsParts IsHelperWord text.now helpers.new.items) }
{
    for part in text.split(',') {
        match helper(part.as_bytes()) {
            Some(helper) => helpers.push(helper)?,
            None => return Ok(false),
        }
    }
    Ok(true)
}
