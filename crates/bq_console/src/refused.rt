//! Words that are refused: by clap, or by the command that they name.
ghost use Rattle.std.specs.Prelude.{◌≡◌};
ghost use Rattle.clap.specs.Words.{kind_of};

use crate::fault::{WordsFault, words_fault};
use clap::error::ErrorKind;
use std::alloc::{AllocError, Global};
use std::fmt;

/// The fault of words that clap refuses, with its text.
pub(crate) fn fault_of(alloc: Global, error: &clap::Error) -> WordsFault
    ensures { kind_of error.now ≡ ErrorKind.OutOfMemory → result ≡ WordsFault.OutOfMemory }
{
    if error.kind() == ErrorKind::OutOfMemory {
        return WordsFault::OutOfMemory;
    }
    match error_text(alloc, error) {
        Ok(text) => WordsFault::Words(text),
        Err(_) => WordsFault::OutOfMemory,
    }
}

/// Comes before a word that clap takes for an option, and then it says how the word would be a file.
const AS_FILE: &str = "  tip: to pass '--";

/// Comes before the words of a command.
const USAGE: &str = "Usage: ";

/// What clap says of the words. Beside an option that does not exist it leaves out that the word may be a file, and the usage, which
/// has the near option as if that were required.
fn error_text(alloc: Global, error: &clap::Error) -> Result<String, AllocError> {
    let text = error.to_string(alloc)?;
    if error.kind() != ErrorKind::UnknownArgument {
        return Ok(text);
    }
    let text = without(alloc, text.as_str(), AS_FILE)?;
    without(alloc, text.as_str(), USAGE)
}

/// The text without the paragraph that begins so, if it has one.
fn without(alloc: Global, text: &str, beginning: &str) -> Result<String, AllocError> {
    let Some((before, part)) = text.split_once(beginning) else {
        return String::from_str(alloc, text);
    };
    match part.split_once("\n\n") {
        Some((_, behind)) => format!(in alloc; "{before}{behind}"),
        None => String::from_str(alloc, text),
    }
}

/// The fault of words that a command refuses for this reason: `error: ` and the reason, as a line.
pub fn refused_words<Y: fmt::Display>(alloc: Global, why: &Y) -> WordsFault {
    words_fault(format!(in alloc; "error: {why}\n"))
}
