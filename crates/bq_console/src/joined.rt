//! Negative numbers after options, which clap would take for options themselves.
ghost use Rattle.std.specs.Prelude.{◌≡◌, ◌==◌, ◌||◌, ◌<◌, ◌∷◌, ◌++◌, IfOk, IfSome, None, codes, false, length, map, string_bytes};
ghost use Rattle.std.specs.List.{list_any};
ghost use Rattle.bq_console.specs.Words.{is_end, is_joined, is_negative, is_option, options_joined};

use std::alloc::{AllocError, Global};

/// The words with each negative number joined to the option before it by `=`: `--seed -1` becomes `--seed=-1`, so that the option
/// judges its value. After the word `--` nothing is joined.
pub fn joined_words(alloc: Global, words: &[String]) -> Result<Vec<String>, AllocError>
    ensures { IfOk result (λ all. map string_bytes all.items ≡ options_joined false (map string_bytes words.now)) }
{
    let mut all = Vec::new(alloc);
    let mut rest = words;
    let mut has_ended = false;
    'words: while let Some((word, more)) = rest.split_first() {
        match value_after(has_ended, word, more) {
            Some((value, behind)) => {
                all.push(format!(in alloc; "{word}={value}")?)?;
                rest = behind;
            }
            None => {
                all.push(String::from_str(alloc, word)?)?;
                has_ended = has_ended || is_end(word);
                rest = more;
            }
        }
    }
    Ok(all)
}

/// The negative number that comes first after an option, and what is behind it. `None` if the word is no option or no such number comes.
fn value_after<'a>(
    has_ended: bool,
    word: &str,
    more: &'a [String],
) -> Option<(&'a String, &'a [String])>
    ensures value { IfSome result (λ p. options_joined has_ended (word.now ∷ map string_bytes more.now) ≡ (word.now ++ (codes "=" ++ string_bytes p.0.now)) ∷ options_joined has_ended (map string_bytes p.1.now)) }
    ensures alone { result ≡ None → options_joined has_ended (word.now ∷ map string_bytes more.now) ≡ word.now ∷ options_joined (has_ended || is_end word.now) (map string_bytes more.now) }
    ensures less { IfSome result (λ p. length p.1.now < length more.now) }
{
    let Some((value, behind)) = more.split_first() else {
        return None;
    };
    if is_joined(has_ended, word, value) {
        Some((value, behind))
    } else {
        None
    }
}

/// Whether a word is joined to the word before it: a negative number to an option, unless the options have ended.
fn is_joined(has_ended: bool, option: &str, value: &str) -> bool
    ensures { result ≡ is_joined has_ended option.now value.now }
{
    !has_ended && is_option(option) && is_negative(value)
}

/// Whether a word ends the options.
fn is_end(word: &str) -> bool
    ensures { result ≡ is_end word.now }
{
    word == "--"
}

/// Whether a word is an option by its name, without a value behind `=`.
fn is_option(word: &str) -> bool
    ensures { result ≡ is_option word.now }
{
    word.len() > 2 && word.starts_with("--") && !has_equals(word.as_bytes())
}

/// Whether a byte is `=`.
fn has_equals(bytes: &[u8]) -> bool
    ensures { result ≡ list_any (λ b. b == 61) bytes.now }
{
    bytes.iter().any(|byte| *byte == b'=')
}

/// Whether a word is a negative number: a digit follows the `-`.
fn is_negative(word: &str) -> bool
    ensures { result ≡ is_negative word.now }
{
    match word.as_bytes() {
        [sign, digit, ..] => *sign == b'-' && digit.is_ascii_digit(),
        _ => false,
    }
}
