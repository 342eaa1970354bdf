//! Words that a command refuses.
use bq_console::{WordsFault, refused_value, refused_words};
use bq_timeline::RefusedWord;
use std::alloc::Global;
use std::fmt;

/// Makes the fault of words that are refused for this reason: if it is that of one word, the word is quoted.
pub(crate) fn refusal<Y: fmt::Display>(
    alloc: Global,
    why: &Y,
    refused: Option<RefusedWord<'_>>,
) -> WordsFault {
    let Some(refused) = refused else {
        return refused_words(alloc, why);
    };
    match format!(in alloc; "{why}") {
        Ok(right) => refused_value(alloc, refused.option, refused.word, &right, refused.known),
        Err(_) => WordsFault::OutOfMemory,
    }
}
