//! The line of C that an instruction comes from, as `import` writes it above the instructions of an object.

use bq_explain::{Detail, Explanation};
use std::alloc::{AllocError, Global};
use std::str::from_utf8;

/// Says which line of C the instruction at fault comes from; empty if no comment above the instruction names one.
pub(crate) fn source_text(
    alloc: Global,
    file: &[u8],
    explanation: &Explanation,
) -> Result<String, AllocError> {
    match source_of(file, explanation) {
        Some(source) => format!(in alloc; "  compiled from {source}\n"),
        None => Ok(String::new(alloc)),
    }
}

/// Returns the line of C of the instruction at fault, as `turns.c:10`, by the last comment above it that is of this form.
fn source_of<'a>(file: &'a [u8], explanation: &Explanation) -> Option<&'a str> {
    let line = line_at_fault(explanation)?;
    let text = from_utf8(file).ok()?;
    let mut source = None;
    for (index, stated) in text.lines().enumerate() {
        if index >= line {
            return source;
        }
        if let Some(named) = source_named(stated) {
            source = Some(named);
        }
    }
    source
}

/// Returns the line of the text that has the instruction at fault.
fn line_at_fault(explanation: &Explanation) -> Option<usize> {
    match &explanation.detail {
        Detail::Refused(refusal) => refusal.place.line,
        Detail::Limited(Some(place)) => place.line,
        Detail::Limited(None) | Detail::Accepted(_) => None,
    }
}

/// Returns the line of C that the comment names, if it is one of `import`.
fn source_named(stated: &str) -> Option<&str> {
    let words = stated.strip_prefix("; ")?;
    let (file, line) = words.rsplit_once(':')?;
    let is_number = !line.is_empty() && line.as_bytes().iter().all(|byte| byte.is_ascii_digit());
    if is_number && !file.is_empty() && words.split_once(' ').is_none() {
        Some(words)
    } else {
        None
    }
}
