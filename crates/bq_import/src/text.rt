//! The text of a compiled program.
ghost use Rattle.std.specs.Prelude.{◌≡◌, IfErr, IfOk, length};
ghost use Rattle.std.specs.List.{list_all};
ghost use Rattle.std.specs.String.{string_bytes};
ghost use Rattle.bq_import.specs.declared.text.ImportRefusal.TheVariants.{OutOfMemory};
ghost use Rattle.bq_object.specs.Objects.{IsObject};
ghost use Rattle.bq_import.specs.Importing.{Imports};
ghost use Rattle.bq_import.specs.Text.{IsImportedAs, IsNotedTextOf, IsImportRefused, IsTextOf, IsUnimported, is_hex_byte, maps_line, settings_marks};

use crate::fault::Disorder;
use crate::noted::{noted_listing, source_at};
use crate::order::Ordered;
use crate::section::{ImportFault, import};
use bq_asm::listing;
use bq_object::{ObjectFault, SourceLine, is_object, policy_of, source_lines};
use bq_policy_file::{bytes_of, is_blank, marks_text};
use bq_verify::PolicyForm;
use std::alloc::{AllocError, AllocFailed, Global};
use thiserror::Error;

/// What a compiled program is for.
#[derive(Drop)]
pub struct ImportSettings {
    /// Its hook, maps and version.
    pub form: PolicyForm,
    /// The text that names the maps, if there are some.
    pub maps: Option<String>,
}

/// Why there is no text.
#[derive(Clone, Copy, Debug, Error)]
pub enum ImportRefusal {
    /// All of the input is digits of hex and blanks, and the number of digits is odd.
    #[error("the hex has a half byte at its end")]
    Hex,
    /// The input is an object file that has no policy.
    #[error("{0}")]
    Object(ObjectFault),
    /// The program is not imported.
    #[error("{0}")]
    Import(ImportFault),
    #[error("out of memory")]
    OutOfMemory,
}

impl ImportRefusal {
    /// The slot of the compiled program that is at fault, if it is one.
    pub fn slot(&self) -> Option<u64> {
        match self {
            ImportRefusal::Object(ObjectFault::Relocation { slot, .. }) => Some(*slot),
            ImportRefusal::Import(fault) => fault.slot(),
            _ => None,
        }
    }
}

impl From<AllocError> for ImportRefusal {
    ghost from_gives = { λ _ e. e ≡ OutOfMemory };

    fn from(_e: AllocError) -> ImportRefusal {
        ImportRefusal::OutOfMemory
    }
}

impl<T: Drop> From<AllocFailed<T>> for ImportRefusal {
    ghost from_gives = { λ _ e. e ≡ OutOfMemory };

    fn from(_e: AllocFailed<T>) -> ImportRefusal {
        ImportRefusal::OutOfMemory
    }
}

/// A compiled program as an assembler text.
#[derive(Drop)]
pub struct ImportedText<'a> {
    pub text: String,
    /// For each of its instructions the line of C that it comes from, if an object says it.
    pub sources: Vec<Option<SourceLine<'a>>>,
}

/// The assembler text of a compiled program: the marks of the settings, and the listing of a copy of the program in
/// which every jump goes forward. The input is an object file, whose function `policy` is the program, or the bytes of a text
/// section. If the input has only hex digits and blanks, these spell the bytes. Above the instructions of an object are the
/// lines of C that they come from, if the object says them.
pub fn imported(
    alloc: Global,
    settings: &ImportSettings,
    input: &[u8],
) -> Result<String, ImportRefusal>
    ensures text { IfOk result (λ text. IsImportedAs settings.now input.now (string_bytes text)) }
    ensures refused { IfErr result (IsImportRefused input.now) }
{
    match imported_text(alloc, settings, input) {
        Ok(ImportedText { text, .. }) => Ok(text),
        Err(refusal) => Err(refusal),
    }
}

/// Imports a program as `imported` does, and answers beside the text the line of C of each instruction.
#[tactic(auto, using(crate::proofs::RefusalLemmas::refused_by, crate::proofs::RefusalLemmas::refused_for_memory))]
pub fn imported_text<'a>(
    alloc: Global,
    settings: &ImportSettings,
    input: &'a [u8],
) -> Result<ImportedText<'a>, ImportRefusal>
    ensures text { IfOk result (λ made. IsImportedAs settings.now input.now (string_bytes made.text)) }
    ensures refused { IfErr result (IsImportRefused input.now) }
{
    if is_object(input) {
        return imported_object(alloc, settings, input);
    }
    if !is_hex(input) {
        return imported_bytes(alloc, settings, input);
    }
    match bytes_of(alloc, input)? {
        Some(bytes) => imported_bytes(alloc, settings, bytes.as_slice()),
        None => Err(ImportRefusal::Hex),
    }
}

/// The text of the policy of an object file.
#[tactic(auto, using(crate::proofs::RefusalLemmas::refused_by, crate::proofs::RefusalLemmas::refused_for_memory))]
fn imported_object<'a>(
    alloc: Global,
    settings: &ImportSettings,
    file: &'a [u8],
) -> Result<ImportedText<'a>, ImportRefusal>
    requires { IsObject file.now }
    ensures text { IfOk result (λ made. IsImportedAs settings.now file.now (string_bytes made.text)) }
    ensures refused { IfErr result (IsImportRefused file.now) }
{
    match policy_of(file) {
        Ok(policy) => {
            let lines = source_lines(alloc, file)?;
            imported_policy(alloc, settings, policy, lines.as_slice())
        }
        Err(fault) => Err(ImportRefusal::Object(fault)),
    }
}

/// The text of the program that the bytes spell, with the lines that its slots come from as comments.
fn imported_policy<'a>(
    alloc: Global,
    settings: &ImportSettings,
    bytes: &[u8],
    lines: &[Option<SourceLine<'a>>],
) -> Result<ImportedText<'a>, ImportRefusal>
    ensures text { IfOk result (λ made. IsNotedTextOf settings.now bytes.now (string_bytes made.text)) }
    ensures refused { IfErr result (IsUnimported bytes.now) }
{
    let ordered = ordered_for(alloc, settings, bytes)?;
    let sources = sources_of(alloc, &ordered, lines)?;
    let marks = spell_marks(alloc, settings)?;
    let listing = noted_listing(alloc, ordered.insns.as_slice(), sources.as_slice())?;
    let text = format!(in alloc; "{marks}{listing}")?;
    Ok(ImportedText { text, sources })
}

/// For each instruction of a copy the line that its original comes from.
fn sources_of<'a>(
    alloc: Global,
    ordered: &Ordered,
    lines: &[Option<SourceLine<'a>>],
) -> Result<Vec<Option<SourceLine<'a>>>, AllocError> {
    let mut sources = Vec::new(alloc);
    let mut slot: usize = 0;
    for insn in &ordered.insns {
        sources.push(source_of(ordered, lines, slot))?;
        slot = slot.saturating_add(insn.slots());
    }
    Ok(sources)
}

/// The line that the original of the instruction at the slot of a copy comes from.
fn source_of<'a>(
    ordered: &Ordered,
    lines: &[Option<SourceLine<'a>>],
    slot: usize,
) -> Option<SourceLine<'a>> {
    if slot >= ordered.origins.len() {
        return None;
    }
    source_at(lines, ordered.origins[slot])
}

/// The text of the program that the bytes spell: the marks, and the listing of a copy of it in which every jump goes forward.
fn imported_bytes<'a>(
    alloc: Global,
    settings: &ImportSettings,
    bytes: &[u8],
) -> Result<ImportedText<'a>, ImportRefusal>
    ensures text { IfOk result (λ made. IsTextOf settings.now bytes.now (string_bytes made.text)) }
    ensures refused { IfErr result (IsUnimported bytes.now) }
{
    let ordered = ordered_for(alloc, settings, bytes)?;
    let marks = spell_marks(alloc, settings)?;
    let program = listing(alloc, ordered.insns.as_slice())?;
    let text = format!(in alloc; "{marks}{program}")?;
    Ok(ImportedText {
        text,
        sources: Vec::new(alloc),
    })
}

/// The program that the bytes spell, in order.
fn ordered_for(
    alloc: Global,
    settings: &ImportSettings,
    bytes: &[u8],
) -> Result<Ordered, ImportRefusal>
    ensures imported { IfOk result (λ ordered. Imports (length settings.now.form.shapes.items) bytes.now ordered.insns.items ordered.origins.items) }
    ensures refused { IfErr result (IsUnimported bytes.now) }
{
    match import(alloc, bytes, settings.form.shapes.len()) {
        Ok(ordered) => Ok(ordered),
        Err(ImportFault::Order(Disorder::OutOfMemory)) => Err(ImportRefusal::OutOfMemory),
        Err(fault) => Err(ImportRefusal::Import(fault)),
    }
}

/// The lines that say what the program is for: comments to the assembler.
fn spell_marks(alloc: Global, settings: &ImportSettings) -> Result<String, AllocError>
    ensures { IfOk result (λ text. string_bytes text ≡ settings_marks settings.now) }
{
    let maps = maps_line(alloc, &settings.maps)?;
    marks_text(
        alloc,
        settings.form.hook,
        maps.as_str(),
        settings.form.version,
    )
}

/// The line that names the maps, if there are some.
fn maps_line(alloc: Global, maps: &Option<String>) -> Result<String, AllocError>
    ensures { IfOk result (λ text. string_bytes text ≡ maps_line maps.now) }
{
    match maps {
        None => Ok(String::new(alloc)),
        Some(maps) => format!(in alloc; ";@ maps {maps}\n"),
    }
}

/// Whether all bytes are hex digits or blanks.
fn is_hex(input: &[u8]) -> bool
    ensures { result ≡ list_all is_hex_byte input.now }
{
    input.iter().all(|byte| is_hex_byte(*byte))
}

/// A digit of hex, or a blank.
fn is_hex_byte(byte: u8) -> bool
    ensures { result ≡ is_hex_byte byte }
{
    byte.is_ascii_hexdigit() || is_blank(byte)
}
