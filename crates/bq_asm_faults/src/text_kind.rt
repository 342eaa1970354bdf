//! What a file holds, by its first line that says something.
ghost use Rattle.std.specs.Prelude.{◌≡◌, ◌≢◌};
ghost use Rattle.std.specs.Str.{IsUtf8};
ghost use Rattle.bq_policy_file.specs.Files.{kind_of};
ghost use Rattle.bq_policy_file.specs.declared.kind.FileKind.TheVariants.{Image};

use bq_asm::named;
use bq_policy_file::{FileKind, kind_of};
use std::str::from_utf8;

/// What a file holds.
#[derive(Clone, Copy, Debug, PartialEq, Eq)]
pub enum TextKind {
    /// A policy, as an image or as assembler text.
    Policy,
    /// A policy in C, which has to be compiled.
    C,
    /// A workload.
    Workload,
    /// A trace.
    Trace,
    /// A text that begins as none of the other kinds does.
    Other,
}

/// The first letters of an image, BQPI, in hex.
const IMAGE_IN_HEX: &str = "42515049";

/// The beginnings of lines of C that none of the other texts has.
const BEGINNINGS_OF_C: [&str; 9] = [
    "#include",
    "#define",
    "#pragma",
    "#ifndef",
    "static ",
    "struct ",
    "typedef ",
    "int ",
    "unsigned ",
];

/// Returns what a file of these bytes holds. A text is judged by its first line that is neither empty nor a comment of C, of a
/// workload or of a trace.
///
/// `machine cfs 2` begins a trace, `[machine]` a workload, `mov64 r0, 0` or `;@ hook place` a policy, and `#include "bqsim.h"` C.
pub fn kind_of_text(bytes: &[u8]) -> TextKind
    ensures image { kind_of bytes.now ≡ Image → result ≡ TextKind.Policy }
    ensures no_text { kind_of bytes.now ≢ Image → ¬ IsUtf8 bytes.now → result ≡ TextKind.Other }
{
    if kind_of(bytes) == FileKind::Image {
        return TextKind::Policy;
    }
    let Ok(text) = from_utf8(bytes) else {
        return TextKind::Other;
    };
    for line in text.lines() {
        let line = line.trim();
        if begins_c(line) {
            return TextKind::C;
        }
        if !is_foreign_comment(line) {
            return kind_of_line(line);
        }
    }
    TextKind::Other
}

/// Returns whether the line begins as one of C does.
fn begins_c(line: &str) -> bool {
    BEGINNINGS_OF_C
        .iter()
        .any(|beginning| line.starts_with(*beginning))
}

/// Returns whether the line is empty or a comment of another language than the assembler's.
fn is_foreign_comment(line: &str) -> bool {
    line.is_empty()
        || line.starts_with("#")
        || line.starts_with("//")
        || line.starts_with("/*")
        || line.starts_with("*")
}

/// Returns what a text is that begins with this line.
fn kind_of_line(line: &str) -> TextKind {
    if line.starts_with("[machine]") || line.starts_with("[[task]]") {
        return TextKind::Workload;
    }
    if line.starts_with("machine ") {
        // A line such as `machine = { discipline = "eevdf" }` sets a key of a workload.
        return if line.contains("=") {
            TextKind::Workload
        } else {
            TextKind::Trace
        };
    }
    if line.starts_with(";") || line.starts_with(IMAGE_IN_HEX) || begins_instruction(line) {
        return TextKind::Policy;
    }
    TextKind::Other
}

/// Returns whether the line's first word is one of an instruction.
fn begins_instruction(line: &str) -> bool {
    match line.split(' ').next() {
        Some(first) => named(first.as_bytes()).is_some(),
        None => false,
    }
}
