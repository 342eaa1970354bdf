//! What `asm` leaves of the marks of its text.
ghost use Rattle.std.specs.Prelude.{◌≡◌, IfOk, string_bytes};
ghost use Rattle.bq_policy_check.specs.Noting.{IsAsmNote, IsNoteBeside, NotesHead, left_out_lines, leaves_format, leaves_maps};

use crate::asm_head::head_of;
use crate::file_fault::fault_reason;
use bq_hooks::Version;
use bq_policy_file::{FileKind, Head, Options, PolicyFault, PolicySource, kind_of, read_policy};
use std::alloc::{AllocError, Global};

/// Writes lines on what the marks of a text say and its image lacks, since the options leave it out; or on the first line that
/// is no mark. Empty if there is nothing to say.
///
/// ```text
/// the text says maps, and the image has none: asm takes them only from --maps; check --image OUT writes the image with them
/// ```
pub fn asm_note(alloc: Global, options: &Options, text: &[u8]) -> Result<String, AllocError>
    ensures { IfOk result (λ note. IsAsmNote options.now text.now (string_bytes note)) }
{
    match head_of(alloc, options)? {
        None => Ok(String::new(alloc)),
        Some(given) => note_beside(alloc, &given, text),
    }
}

/// Writes the note on a text, given what the options say; empty if there is nothing to note.
fn note_beside(alloc: Global, given: &Head, text: &[u8]) -> Result<String, AllocError>
    ensures { IfOk result (λ note. IsNoteBeside text.now given.now (string_bytes note)) }
{
    match kind_of(text) {
        FileKind::Image | FileKind::Hex => return Ok(String::new(alloc)),
        FileKind::Text => {}
    }
    match read_policy(alloc, text, given) {
        Ok(policy) => left_text(alloc, given, &policy),
        Err(PolicyFault::OutOfMemory) => Err(AllocError),
        Err(fault) => head_note(alloc, text, fault),
    }
}

/// Writes the note on the line that is no mark, if that is the fault.
fn head_note(alloc: Global, text: &[u8], fault: PolicyFault) -> Result<String, AllocError>
    ensures { IfOk result (λ note. NotesHead fault (string_bytes note)) }
{
    match fault {
        PolicyFault::Head { line: _, cause: _ } => {
            let reason = fault_reason(alloc, text, fault)?;
            format!(in alloc; "{reason}; asm goes by its options alone\n")
        }
        PolicyFault::Text
        | PolicyFault::Hex
        | PolicyFault::Assembly { .. }
        | PolicyFault::Image(_)
        | PolicyFault::Program { .. }
        | PolicyFault::Disagrees(_)
        | PolicyFault::NoHook
        | PolicyFault::OutOfMemory => Ok(String::new(alloc)),
    }
}

/// Writes the lines on what the options leave out and the policy's text says.
fn left_text(alloc: Global, given: &Head, policy: &PolicySource) -> Result<String, AllocError>
    ensures { IfOk result (λ note. string_bytes note ≡ left_out_lines given.now policy.now) }
{
    let mut note = String::new(alloc);
    if leaves_maps(given, policy) {
        note.push_str(
            "the text says maps, and the image has none: asm takes them only from --maps; check --image OUT writes the image with them\n",
        )?;
    }
    if leaves_format(given, policy) {
        note.push_str(
            "the text says format 2, and the image has version 1: asm takes it only from --format; check --image OUT writes version 2\n",
        )?;
    }
    Ok(note)
}

/// Returns whether the text has maps, and the options none.
fn leaves_maps(given: &Head, policy: &PolicySource) -> bool
    ensures { result ≡ leaves_maps given.now policy.now }
{
    given.maps.is_none() && !policy.form.shapes.is_empty()
}

/// Returns whether the text has the second version, and the options none.
fn leaves_format(given: &Head, policy: &PolicySource) -> bool
    ensures { result ≡ leaves_format given.now policy.now }
{
    given.format.is_none() && policy.form.version == Version::Second
}
