//! Why a text is no workload, as its reader tells it.
ghost use Rattle.std.specs.Prelude.{◌≡◌, ◌<◌, ◌-◌, ◌^◌, ℕ, List, [], ◌∷◌, ◌++◌, None, IfOk, IsSome};
ghost use Rattle.std.specs.Fmt.{is_char_start};
ghost use Rattle.toml.specs.Errors.{IsMemory};
ghost use Rattle.toml.specs.Parse.{parse_document};
ghost use Rattle.bq_workload_file.specs.Positions.{column_after, line_after};
ghost use Rattle.bq_workload_file.specs.Workloads.{IsWorkloadFault};

use crate::blame::DocumentLocation;
use crate::near::{meant_word, nearest_name};
use crate::workload_cause::WorkloadCause;
use std::alloc::{AllocError, Global};
use std::fmt::Write;
use thiserror::Error;

/// Why a text is no workload. Written after the name of the text's file, as `w.toml:14:9: ..` or `w.toml: [[task]] 2 (server): ..`.
#[derive(Debug, Drop, Error)]
pub enum WorkloadFault {
    /// The text is no TOML: the line and the column, both from 1, and what is wrong there.
    #[error(":{line}:{column}: {message}")]
    Syntax {
        line: usize,
        column: usize,
        message: String,
    },
    /// The text is TOML, but no workload: the place in the document, and what is wrong.
    #[error(": {0}")]
    Meaning(String),
    #[error(": out of memory")]
    OutOfMemory,
}

impl From<AllocError> for WorkloadFault {
    fn from(_e: AllocError) -> WorkloadFault {
        WorkloadFault::OutOfMemory
    }
}

/// Reports where a text is no TOML, and why.
pub(crate) fn syntax(alloc: Global, text: &str, error: &toml::de::Error) -> WorkloadFault
    requires { ¬ IsMemory error.now → parse_document text.now ≡ None }
    ensures { IsWorkloadFault text.now result }
{
    let at = match error.span() {
        Some(span) => span.start.min(text.len()),
        None => return WorkloadFault::OutOfMemory,
    };
    let (line, column) = position(&text.as_bytes()[..at]);
    match String::from_str(alloc, error.message()) {
        Ok(message) => WorkloadFault::Syntax {
            line,
            column,
            message,
        },
        Err(_) => WorkloadFault::OutOfMemory,
    }
}

/// Counts the line and the column, both from 1, of what comes after these bytes. A column counts characters.
fn position(before: &[u8]) -> (usize, usize)
    ensures line { result.0 ≡ line_after before.now }
    ensures column { result.1 ≡ column_after before.now }
{
    let mut place = (1, 1);
    for byte in before {
        place = passed(place.0, place.1, *byte);
    }
    place
}

/// The line and the column of what comes after one more byte.
fn passed(line: usize, column: usize, byte: u8) -> (usize, usize)
    requires line { line < 2 ^ 64 - 1 }
    requires column { column < 2 ^ 64 - 1 }
    ensures line { (before : List ℕ) → line ≡ line_after before → result.0 ≡ line_after (before ++ byte ∷ []) }
    ensures column { (before : List ℕ) → column ≡ column_after before → result.1 ≡ column_after (before ++ byte ∷ []) }
{
    if byte == b'\n' {
        (line + 1, 1)
    } else if is_char_start(byte) {
        (line, column + 1)
    } else {
        (line, column)
    }
}

/// Whether a byte is the first of a character.
fn is_char_start(byte: u8) -> bool
    ensures { result ≡ is_char_start byte }
{
    byte < 0x80 || byte >= 0xC0
}

/// Reports what is wrong, with its place and the word that was perhaps meant.
pub(crate) fn meaning(
    alloc: Global,
    place: &DocumentLocation<'_>,
    why: &WorkloadCause<'_>,
) -> Result<WorkloadFault, AllocError>
    ensures { IfOk result (λ fault. (text : List ℕ) → IsSome (parse_document text) → IsWorkloadFault text fault) }
{
    let mut text = String::new(alloc);
    write!(text, "{place}{why}")?;
    let near = match why {
        WorkloadCause::UnknownKey { key, known } => meant_word(alloc, key, known)?,
        WorkloadCause::UnknownTask { name, names } => nearest_name(alloc, name, names)?,
        _ => None,
    };
    match (near, why) {
        (Some(near), _) => write!(text, ", did you mean {near:?}?")?,
        (None, WorkloadCause::UnknownKey { known, .. }) => add_keys(&mut text, known)?,
        (None, _) => {}
    }
    Ok(WorkloadFault::Meaning(text))
}

/// Adds the keys that there are.
fn add_keys(text: &mut String, keys: &[&str]) -> Result<(), AllocError> {
    let mut before = "; the keys are ";
    for key in keys {
        write!(text, "{before}{key}")?;
        before = ", ";
    }
    Ok(())
}
