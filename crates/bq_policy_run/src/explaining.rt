//! The command that explains why a policy is refused.
use bq_console::{Name, name_of};
use bq_policy_check::PolicyWords;
use std::alloc::{AllocError, Global};

/// Writes the line that says which command explains the refusal of a file: `p.s: bqsim check --explain --hook pull p.s says why`.
pub(crate) fn explaining_line(alloc: Global, words: &PolicyWords) -> Result<String, AllocError> {
    let file = name_of(&words.file);
    let spelled = given_options(alloc, words)?;
    let given = match &words.file {
        Some(path) => path.as_str(),
        None => "-",
    };
    let (file, given) = (Name(file), Name(given));
    format!(in alloc; "{file}: bqsim check --explain{spelled} {given} says why\n")
}

/// Writes the options that the caller gave beside the file, each after a blank, as `check` takes them too.
fn given_options(alloc: Global, words: &PolicyWords) -> Result<String, AllocError> {
    let mut options = String::new(alloc);
    push_option(&mut options, "hook", &words.hook)?;
    push_option(&mut options, "maps", &words.maps)?;
    push_option(&mut options, "format", &words.format)?;
    Ok(options)
}

/// Adds an option after a blank, if it has a word.
fn push_option(
    options: &mut String,
    option: &str,
    word: &Option<String>,
) -> Result<(), AllocError> {
    match word {
        Some(word) => {
            let word = Name(word.as_str());
            write!(options, " --{option} {word}")
        }
        None => Ok(()),
    }
}
