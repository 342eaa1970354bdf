//! What is wrong with a text of maps, in words.
use bq_bpf::shape::{ENTRIES_WORDS, MAPS, SIZE_WORDS};
use bq_console::Quoted;
use bq_policy_file::shapes_of;
use std::alloc::{AllocError, Global};

/// What a part of the text is.
const MAP: &str = "a map is the size of a value, a colon and the number of entries, as 8:2";

/// Says what is wrong with a text that names no maps: its first part that names no map, and what a part may say; or that there are
/// too many parts.
pub(crate) fn maps_fault_text(alloc: Global, text: &str) -> Result<String, AllocError> {
    let mut number: usize = 0;
    for part in text.split(',') {
        number = number.saturating_add(1);
        if !is_maps(alloc, part)? {
            return part_text(alloc, number, part);
        }
    }
    many_text(alloc, number)
}

/// Says what is wrong with this many maps, each of which is one.
fn many_text(alloc: Global, number: usize) -> Result<String, AllocError> {
    format!(in alloc; "{number} maps; a program has {MAPS} at most")
}

/// Returns whether a text names maps.
fn is_maps(alloc: Global, text: &str) -> Result<bool, AllocError> {
    Ok(shapes_of(alloc, text.as_bytes())?.is_some())
}

/// Says what is wrong with the part of that number, which names no map.
fn part_text(alloc: Global, number: usize, part: &str) -> Result<String, AllocError> {
    if part.is_empty() {
        return format!(in alloc; "part {number} is empty: {MAP}");
    }
    let why = map_text(alloc, part)?;
    wrong_text(alloc, number, part, why.as_str())
}

/// Says what is wrong with the part of that number, and why.
fn wrong_text(alloc: Global, number: usize, part: &str, why: &str) -> Result<String, AllocError> {
    let part = Quoted(part);
    format!(in alloc; "part {number} \"{part}\": {why}")
}

/// Says what is wrong with a text that names no map.
fn map_text(alloc: Global, part: &str) -> Result<String, AllocError> {
    match part.split_once(':') {
        Some((size, entries)) if !entries.contains(":") => pair_text(alloc, size, entries),
        _ => String::from_str(alloc, MAP),
    }
}

/// Says what is wrong with a size and a number of entries that no map can have.
fn pair_text(alloc: Global, size: &str, entries: &str) -> Result<String, AllocError> {
    let with_an_entry = format!(in alloc; "{size}:1")?;
    if is_maps(alloc, with_an_entry.as_str())? {
        entries_text(alloc, entries)
    } else {
        size_text(alloc, size)
    }
}

/// Says what is wrong with a text that is the size of no value.
fn size_text(alloc: Global, size: &str) -> Result<String, AllocError> {
    let got = got_text(alloc, size)?;
    format!(in alloc; "the size of a value is {SIZE_WORDS} (got {got})")
}

/// Says what is wrong with a text that is no number of entries.
fn entries_text(alloc: Global, entries: &str) -> Result<String, AllocError> {
    let got = got_text(alloc, entries)?;
    format!(in alloc; "the number of entries is {ENTRIES_WORDS} (got {got})")
}

/// Says a word as it was given, and whether it is no number.
fn got_text(alloc: Global, word: &str) -> Result<String, AllocError> {
    if word.is_empty() {
        return String::from_str(alloc, "nothing");
    }
    if word.as_bytes().iter().all(|byte| byte.is_ascii_digit()) {
        let number = Quoted(word);
        return format!(in alloc; "{number}");
    }
    let word = Quoted(word);
    format!(in alloc; "{word}, which is no number")
}
