//! The values that an option does not take: quoted, with what is right, and with the word that was perhaps meant.
ghost use Rattle.std.specs.Prelude.{IfOk, string_bytes};
ghost use Rattle.bq_console.specs.Values.{RefusesValue, IsValueRefusal};

use crate::fault::{WordsFault, words_fault};
use crate::printable::Quoted;
use bq_words::nearest;
use std::alloc::{AllocError, Global};

/// Says why an option does not take a value: the value in quotes, `right`, which says what is right, and if the value is near one
/// of the `known` words, that word. `known` is a list such as `cfs or eevdf`, or empty.
///
/// ```text
/// --discipline "eevd": a discipline is cfs or eevdf; did you mean "eevdf"?
/// ```
pub fn value_words(
    alloc: Global,
    option: &str,
    value: &str,
    right: &str,
    known: &str,
) -> Result<String, AllocError>
    ensures { IfOk result (λ text. RefusesValue option.now value.now right.now (string_bytes text)) }
{
    let shown = Quoted(value);
    let mut text = format!(in alloc; "--{option} \"{shown}\": {right}")?;
    if let Some(meant) = meant_word(alloc, value, known)? {
        write!(text, "; did you mean \"{meant}\"?")?;
    }
    Ok(text)
}

/// The fault of a value that an option does not take: `error: ` and the same words, as a line.
pub fn refused_value(
    alloc: Global,
    option: &str,
    value: &str,
    right: &str,
    known: &str,
) -> WordsFault
    ensures { IsValueRefusal option.now value.now right.now result }
{
    match value_words(alloc, option, value, right, known) {
        Ok(why) => words_fault(format!(in alloc; "error: {why}\n")),
        Err(_) => WordsFault::OutOfMemory,
    }
}

/// The word of a list that is nearest to a word, if one is near. Capital letters are as good as small ones.
fn meant_word<'a>(alloc: Global, word: &str, list: &'a str) -> Result<Option<&'a str>, AllocError> {
    let word = word.to_ascii_lowercase(alloc)?;
    let parts = list.split(' ').map(|part| part.trim_end_matches(','));
    nearest(alloc, word.as_str(), parts.filter(|known| *known != "or"))
}
