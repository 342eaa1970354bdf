//! The words after the program's name.
ghost use Rattle.std.specs.Prelude.{◌≡◌, IfOk, map};
ghost use Rattle.std.specs.String.{string_bytes};

use crate::fault::{WordsFault, words_fault};
use crate::printable::NO_TEXT;
use std::alloc::{AllocError, Global};
use std::env;
use std::env::{Env, FillError};
use std::io::ErrorKind;

/// The most bytes that the system hands on as one word.
const WORD: usize = 1 << 17;

/// The words after the program's name, in order. If a word is no UTF-8 text, each byte that is no part of such text
/// becomes `NO_TEXT` and two hex digits; no word has `NO_TEXT` otherwise.
pub fn given_words(rt: &HostRuntime) -> Result<Vec<String>, WordsFault> {
    match env::args(rt) {
        Ok(args) => Ok(args.skip(1).collect(rt.alloc())?),
        Err(error) if error.kind() == ErrorKind::OutOfMemory => Err(WordsFault::OutOfMemory),
        Err(_) => words_of_bytes(rt),
    }
}

/// Reads the words after the program's name one by one, as bytes: they need not be UTF-8 text.
fn words_of_bytes(rt: &HostRuntime) -> Result<Vec<String>, WordsFault> {
    let alloc = rt.alloc();
    let mut buffer = vec![in alloc; 0u8; WORD]?;
    let mut words = Vec::new(alloc);
    for number in 1..usize::MAX {
        match rt.arg(number, buffer.as_mut_slice()) {
            Ok(length) => words.push(text_of(alloc, &buffer.as_slice()[..length])?)?,
            Err(FillError::NotPresent) => break,
            Err(FillError::TooLong) => {
                return Err(words_fault(String::from_str(alloc, "error: a word is too long\n")));
            }
        }
    }
    Ok(words)
}

/// The text of these bytes.
fn text_of(alloc: Global, bytes: &[u8]) -> Result<String, AllocError> {
    let mut text = String::new(alloc);
    for chunk in bytes.utf8_chunks() {
        text.push_str(chunk.valid())?;
        for byte in chunk.invalid() {
            write!(text, "{NO_TEXT}{byte:02x}")?;
        }
    }
    Ok(text)
}

/// The texts of words, in their order.
pub fn as_texts<'a>(alloc: Global, words: &'a Vec<String>) -> Result<Vec<&'a str>, AllocError>
    ensures { IfOk result (λ texts. map (λ t. t.now) texts.items ≡ map (λ w. string_bytes w) words.entry.now.items) }
{
    let mut texts = Vec::new(alloc);
    'words: for word in words {
        texts.push(word.as_str())?;
    }
    Ok(texts)
}
