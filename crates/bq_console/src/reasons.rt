//! Why a call of the system failed, in words.
use std::alloc::{AllocError, Global};
use std::io::Error;

/// Comes before the system's number of an error.
const NUMBER: &str = " (os error ";

/// Why a read, a write or a call on a file failed: what the system says, without its number, in a small letter, as
/// `is a directory`.
pub fn reason(alloc: Global, error: &Error) -> Result<String, AllocError> {
    let message = format!(in alloc; "{error}")?;
    small(alloc, without_number(message.as_str()))
}

/// The text without the system's number of the error.
fn without_number(message: &str) -> &str {
    match message.split_once(NUMBER) {
        Some((words, _)) => words,
        None => message,
    }
}

/// The text with its first letter small.
fn small(alloc: Global, words: &str) -> Result<String, AllocError> {
    let mut text = String::new(alloc);
    for (at, letter) in words.char_indices() {
        let letter = if at == 0 {
            letter.to_ascii_lowercase()
        } else {
            letter
        };
        text.push(letter)?;
    }
    Ok(text)
}
