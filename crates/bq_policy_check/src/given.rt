//! What the words of a command say of a policy.
ghost use Rattle.std.specs.Prelude.{◌≡◌, IfErr, IfOk, Some};
ghost use Rattle.bq_console.specs.Words.{GivesNone, GivesWord};
ghost use Rattle.bq_policy_check.specs.Given.{GivesHead, option_bytes};
ghost use Rattle.bq_policy_file.specs.Heads.{NamesMapShapes};
ghost use Rattle.bq_hooks.specs.Hooks.{hook_of, version_of};

use crate::asm_options::maps_option_text;
use crate::words::PolicyWords;
use bq_bpf::MapShape;
use bq_console::{WordsFault, value_words, words_fault};
use bq_hooks::{Hook, Version, with_hooks, with_versions};
use bq_policy_file::{Head, shapes_of};
use std::alloc::Global;

/// What the value of `--hook` is.
pub const HOOK: &str = with_hooks!("a hook is ");
/// The words of hooks as a list.
pub const HOOK_WORDS: &str = with_hooks!("");
/// What the value of `--format` is.
pub const FORMAT: &str = with_versions!("a format is ");

/// Returns what the words say beside the file. Words are refused only if they say no head.
pub fn given_head(alloc: Global, words: &PolicyWords) -> Result<Head, WordsFault>
    ensures gives { IfOk result (GivesHead words.now) }
    ensures none { IfErr result (GivesNone (GivesHead words.now)) }
{
    let hook = hook_in(alloc, &words.hook)?;
    let maps = maps_in(alloc, &words.maps)?;
    let format = format_in(alloc, &words.format)?;
    Ok(Head { hook, maps, format })
}

/// Returns the hook that a word names, if there is a word.
fn hook_in(alloc: Global, word: &Option<String>) -> Result<Option<Hook>, WordsFault>
    ensures gives { IfOk result (GivesWord (λ bytes hook. hook_of bytes ≡ Some hook) (option_bytes word.now)) }
    ensures none { IfErr result (GivesNone (GivesWord (λ bytes hook. hook_of bytes ≡ Some hook) (option_bytes word.now))) }
{
    let Some(word) = word else {
        return Ok(None);
    };
    match Hook::of_word(word.as_bytes()) {
        Some(hook) => Ok(Some(hook)),
        None => Err(words_fault(value_words(alloc, "hook", word, HOOK, HOOK_WORDS))),
    }
}

/// Returns the version that a word names, if there is a word.
fn format_in(alloc: Global, word: &Option<String>) -> Result<Option<Version>, WordsFault>
    ensures gives { IfOk result (GivesWord (λ bytes version. version_of bytes ≡ Some version) (option_bytes word.now)) }
    ensures none { IfErr result (GivesNone (GivesWord (λ bytes version. version_of bytes ≡ Some version) (option_bytes word.now))) }
{
    let Some(word) = word else {
        return Ok(None);
    };
    match Version::of_word(word.as_bytes()) {
        Some(version) => Ok(Some(version)),
        None => Err(words_fault(value_words(alloc, "format", word, FORMAT, ""))),
    }
}

/// Returns the shapes of maps that a text names, if there is a text.
fn maps_in(alloc: Global, text: &Option<String>) -> Result<Option<Vec<MapShape>>, WordsFault>
    ensures gives { IfOk result (GivesWord NamesMapShapes (option_bytes text.now)) }
    ensures none { IfErr result (GivesNone (GivesWord NamesMapShapes (option_bytes text.now))) }
{
    let Some(text) = text else {
        return Ok(None);
    };
    match shapes_of(alloc, text.as_bytes())? {
        Some(shapes) => Ok(Some(shapes)),
        None => Err(words_fault(maps_option_text(alloc, text.as_str()))),
    }
}
