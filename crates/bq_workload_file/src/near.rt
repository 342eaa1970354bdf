//! The word that was perhaps meant.

use bq_words::nearest;
use std::alloc::{AllocError, Global};

/// Keys that are often written for another.
const FOREIGN: [(&str, &str); 11] = [
    ("period", "sleep"),
    ("burst", "run"),
    ("compute", "run"),
    ("priority", "nice"),
    ("weight", "nice"),
    ("affinity", "cpus"),
    ("cpus", "processors"),
    ("cores", "processors"),
    ("scheduler", "discipline"),
    ("rule", "discipline"),
    ("time", "duration"),
];

/// Finds the word that was perhaps meant by an unknown key: the one of `words` for which the key is often written, else the nearest
/// of `words`, if one is near.
pub(crate) fn meant_word(
    alloc: Global,
    meant: &str,
    words: &[&'static str],
) -> Result<Option<&'static str>, AllocError> {
    for (foreign, known) in &FOREIGN {
        if *foreign == meant && words.iter().any(|word| *word == *known) {
            return Ok(Some(known));
        }
    }
    nearest(alloc, meant, words.iter().copied())
}

/// Finds the nearest of some names, if one is near.
pub(crate) fn nearest_name<'a>(
    alloc: Global,
    meant: &str,
    names: &'a [String],
) -> Result<Option<&'a str>, AllocError> {
    nearest(alloc, meant, names.iter().map(|name| name.as_str()))
}
