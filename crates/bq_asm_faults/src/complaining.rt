//! What is wrong with a text that the assembler refuses.
ghost use Rattle.std.specs.Prelude.{IfOk, IfSome, string_bytes};
ghost use Rattle.std.specs.Str.{IsUtf8};
ghost use Rattle.bq_insn.specs.Appending.{StartsWith};
ghost use Rattle.bq_asm_faults.specs.Complaints.{ComplainsOf, NamesLine, line_beginning};

use crate::line_reason::line_reason;
use crate::text_kind::{TextKind, kind_of_text};
use bq_asm::{AsmFault, AssemblyCause, assemble};
use std::alloc::{AllocError, Global};

/// Writes one line on what is wrong with the text, by the number of the line at fault; None exactly if the assembler takes it.
pub fn complaint(alloc: Global, text: &[u8]) -> Result<Option<String>, AllocError>
    ensures complains { IfOk result (ComplainsOf text.now) }
    ensures line { IfOk result (λ c. IfSome c (λ reported. IsUtf8 text.now → NamesLine text.now (string_bytes reported))) }
{
    let Ok(text) = std::str::from_utf8(text) else {
        return Ok(Some(String::from_str(alloc, "the text is no UTF-8\n")?));
    };
    match assemble(alloc, text) {
        Ok(_) => Ok(None),
        Err(AsmFault::OutOfMemory) => Err(AllocError),
        Err(AsmFault::At { line, cause }) => Ok(Some(line_complaint(alloc, text, line, cause)?)),
    }
}

/// Writes the number of a line, and what is wrong with the line.
fn line_complaint(
    alloc: Global,
    text: &str,
    number: usize,
    cause: AssemblyCause,
) -> Result<String, AllocError>
    ensures { IfOk result (λ reported. StartsWith (line_beginning number) (string_bytes reported)) }
{
    if number == 0 {
        return String::from_str(alloc, "the text has no instruction\n");
    }
    let why = reason(alloc, text, number, cause)?;
    format!(in alloc; "line {number}: {why}\n")
}

/// Says why the assembler refuses the line of that number, for that cause; line 0 means that the text has no instruction.
pub fn assembly_fault_text(
    alloc: Global,
    text: &str,
    number: usize,
    cause: AssemblyCause,
) -> Result<String, AllocError> {
    if number == 0 {
        return String::from_str(alloc, "the text has no instruction");
    }
    reason(alloc, text, number, cause)
}

/// Returns the line of that number, counted from 1; empty if there is no such line.
fn line_numbered(text: &str, number: usize) -> &str {
    let mut at: usize = 0;
    for line in text.lines() {
        at = at.saturating_add(1);
        if at == number {
            return line;
        }
    }
    ""
}

/// Says why the assembler refuses the line of that number. If the text is not the assembler's, says what it is.
fn reason(
    alloc: Global,
    text: &str,
    number: usize,
    cause: AssemblyCause,
) -> Result<String, AllocError> {
    match foreign_text(text) {
        Some(what) => String::from_str(alloc, what),
        None => line_reason(alloc, line_numbered(text, number), cause),
    }
}

/// Says what a text is that was not written for the assembler, and what to do with it.
fn foreign_text(text: &str) -> Option<&'static str> {
    if text.as_bytes().starts_with(b"\xef\xbb\xbf") {
        return Some(
            "the text begins with a byte order mark (the bytes ef bb bf); save it as UTF-8 without one",
        );
    }
    match kind_of_text(text.as_bytes()) {
        TextKind::C => Some(
            "this is C; compile it for BPF and let bqsim import make a policy of it, as docs/POLICIES_IN_C.md shows",
        ),
        TextKind::Workload => Some("this is a workload, not a policy; bqsim simulate runs it"),
        TextKind::Trace => Some("this is a trace, not a policy; bqsim timeline shows it"),
        TextKind::Policy | TextKind::Other => None,
    }
}
