//! A listing with the lines of C that its instructions come from, as comments above them.
ghost use Rattle.std.specs.Prelude.{◌≡◌, IfOk, string_bytes, true};
ghost use Rattle.std.specs.List.{list_all};
ghost use Rattle.bq_import.specs.Noted.{IsNote, IsNotedLine, IsNotedListing, is_note_byte};

use bq_insn::Insn;
use bq_object::SourceLine;
use bq_policy_file::instruction_text;
use std::alloc::{AllocError, Global};

/// The listing of these instructions. If an instruction comes from another line of C than the one before it, that line
/// comes above it as a comment.
pub(crate) fn noted_listing(
    alloc: Global,
    insns: &[Insn],
    sources: &[Option<SourceLine<'_>>],
) -> Result<String, AllocError>
    ensures { IfOk result (λ text. IsNotedListing insns.now (string_bytes text)) }
{
    let mut text = String::new(alloc);
    let mut last = None;
    let mut index: usize = 0;
    'insns: for insn in insns {
        let source = source_at(sources, index);
        let note = note_between(alloc, last, source)?;
        let line = noted_line(alloc, &note, *insn)?;
        text.push_str(line.as_str())?;
        last = source;
        index = index.saturating_add(1);
    }
    Ok(text)
}

/// The line that an instruction comes from, by its number.
pub(crate) fn source_at<'a>(
    sources: &[Option<SourceLine<'a>>],
    index: usize,
) -> Option<SourceLine<'a>> {
    if index >= sources.len() {
        return None;
    }
    sources[index]
}

/// An instruction, below a note.
fn noted_line(alloc: Global, note: &String, insn: Insn) -> Result<String, AllocError>
    requires { IsNote (string_bytes note.now) }
    ensures { IfOk result (λ line. IsNotedLine insn (string_bytes line)) }
{
    let spelled = instruction_text(alloc, insn)?;
    format!(in alloc; "{note}{spelled}\n")
}

/// The note between two instructions: the line of the second, if the first has another line.
fn note_between(
    alloc: Global,
    last: Option<SourceLine<'_>>,
    source: Option<SourceLine<'_>>,
) -> Result<String, AllocError>
    ensures { IfOk result (λ note. IsNote (string_bytes note)) }
{
    match source {
        Some(source) if !is_same(last, source) => note_of(alloc, source),
        _ => Ok(String::new(alloc)),
    }
}

/// Whether both are one line.
fn is_same(last: Option<SourceLine<'_>>, source: SourceLine<'_>) -> bool {
    match last {
        Some(last) => last.line == source.line && last.file == source.file,
        None => false,
    }
}

/// A line of C as a note; empty if the name of its file may not be in a note.
fn note_of(alloc: Global, source: SourceLine<'_>) -> Result<String, AllocError>
    ensures { IfOk result (λ note. IsNote (string_bytes note)) }
{
    let SourceLine { file, line } = source;
    let words = format!(in alloc; "{file}:{line}")?;
    if is_note(words.as_bytes()) {
        comment(alloc, &words)
    } else {
        Ok(String::new(alloc))
    }
}

/// A line with these words as a comment.
fn comment(alloc: Global, words: &String) -> Result<String, AllocError>
    requires { list_all is_note_byte (string_bytes words.now) ≡ true }
    ensures { IfOk result (λ note. IsNote (string_bytes note)) }
{
    format!(in alloc; "; {words}\n")
}

/// Whether the bytes may be in a note.
fn is_note(words: &[u8]) -> bool
    ensures { result ≡ list_all is_note_byte words.now }
{
    words.iter().all(|byte| is_note_byte(*byte))
}

/// A printed letter of ASCII.
fn is_note_byte(byte: u8) -> bool
    ensures { result ≡ is_note_byte byte }
{
    byte > 0x20 && byte < 0x7f
}
