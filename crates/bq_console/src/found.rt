//! What was found for an option.
ghost use Rattle.std.specs.Prelude.{◌≡◌, ◌↔◌, ℕ, List, [], IsTrue, Some, IfOk, codes, map, option_map, unwrap_or};
ghost use Rattle.std.specs.Borrow.{Bor};
ghost use Rattle.std.specs.String.{string_bytes};
ghost use Rattle.clap.specs.Words.{all_of, first_of, found_of, rows_of};

use clap::ArgMatches;
use std::alloc::{AllocError, Global};

/// The first value of an option, if it has one.
pub fn value<'a>(matches: &ArgMatches<'a>, option: &str) -> Option<&'a str>
    ensures { option_map (λ (w : Bor (List ℕ)). w.now) result ≡ first_of option.now (rows_of (found_of matches.now)) }
{
    matches.get_str(option)
}

/// A copy of the first value of an option, if it has one.
pub fn word(
    alloc: Global,
    matches: &ArgMatches<'_>,
    option: &str,
) -> Result<Option<String>, AllocError>
    ensures { IfOk result (λ text. option_map (λ t. string_bytes t) text ≡ first_of option.now (rows_of (found_of matches.now))) }
{
    match value(matches, option) {
        None => Ok(None),
        Some(word) => Ok(Some(String::from_str(alloc, word)?)),
    }
}

/// Whether a flag is given.
pub fn is_set(matches: &ArgMatches<'_>, flag: &str) -> bool
    ensures { IsTrue result ↔ (first_of flag.now (rows_of (found_of matches.now)) ≡ Some (codes "true")) }
{
    match value(matches, flag) {
        Some(word) => word == "true",
        None => false,
    }
}

/// Copies of all values of an option that may be given several times, in their order.
pub fn all_words(
    alloc: Global,
    matches: &ArgMatches<'_>,
    option: &str,
) -> Result<Vec<String>, AllocError>
    ensures { IfOk result (λ all. map (λ t. string_bytes t) all.items ≡ unwrap_or (all_of option.now (rows_of (found_of matches.now))) []) }
{
    match matches.get_strs(option) {
        Some(words) => texts_of(alloc, words),
        None => Ok(Vec::new(alloc)),
    }
}

/// Copies of these words, in their order.
fn texts_of(alloc: Global, words: &[&str]) -> Result<Vec<String>, AllocError>
    ensures { IfOk result (λ all. map (λ t. string_bytes t) all.items ≡ map (λ w. w.now) words.now) }
{
    let mut all = Vec::new(alloc);
    'words: for word in words {
        all.push(String::from_str(alloc, *word)?)?;
    }
    Ok(all)
}
