//! Relocations: the instructions that a linker completes.
ghost use Rattle.std.specs.Prelude.{◌≡◌, ◌≤◌, ◌↔◌, ℕ, IsTrue, OnOk, IfErr};
ghost use Rattle.bq_object.specs.declared.section.Section.{Section as SectionValue};
ghost use Rattle.bq_object.specs.Sections.{IsSection};
ghost use Rattle.bq_object.specs.Relocations.{AreClear, IsEntryFault, IsRelocation, IsRelocationFault, IsSectionClear, IsSectionFault, HoldsOffset, entry_size, filled};

use crate::fault::{Filled, ObjectFault, Piece};
use crate::numbers::{part, wide, word};
use crate::section::{HEADER_LENGTH, Section, section_at};
use crate::symbol::Symbol;

/// The length of a relocation of a section of this kind; 0 if the kind has none.
fn entry_size(kind: u32) -> u64
    ensures { result ≡ entry_size kind }
{
    match kind {
        4 => 24,
        9 => 16,
        _ => 0,
    }
}

/// Refuses a function that a linker would complete: the first relocation within it.
pub fn check(file: &[u8], headers: &[u8], policy: Symbol) -> Result<(), ObjectFault>
    ensures ok { OnOk result (AreClear file.now headers.now policy) }
    ensures err { IfErr result (IsRelocationFault file.now headers.now policy) }
{
    let count = headers.len() as u64 / HEADER_LENGTH;
    for index in 0..count {
        check_at(file, headers, index, policy)?;
    }
    Ok(())
}

/// Refuses the function for the first relocation within it that the section of that number has.
fn check_at(file: &[u8], headers: &[u8], index: u64, policy: Symbol) -> Result<(), ObjectFault>
    ensures ok { OnOk result ((section : SectionValue) → IsSection headers.now index section → IsSectionClear file.now section policy) }
    ensures err { IfErr result (IsRelocationFault file.now headers.now policy) }
{
    match section_at(headers, index) {
        Some(section) => check_section(file, section, policy),
        None => Ok(()),
    }
}

/// Refuses the function for the first relocation within it that this section has.
fn check_section(file: &[u8], section: Section, policy: Symbol) -> Result<(), ObjectFault>
    ensures ok { OnOk result (IsSectionClear file.now section policy) }
    ensures err { IfErr result (IsSectionFault file.now section policy) }
{
    let size = entry_size(section.kind);
    if size == 0 || section.info != u32::from(policy.section) {
        return Ok(());
    }
    let Some(entries) = section.contents(file) else {
        return Err(ObjectFault::Cut(Piece::Relocations));
    };
    for index in 0..entries.len() as u64 / size {
        check_entry(entries, size, index, policy)?;
    }
    Ok(())
}

/// Refuses the function if the relocation of that number is within it.
fn check_entry(entries: &[u8], size: u64, index: u64, policy: Symbol) -> Result<(), ObjectFault>
    requires { 16 ≤ size }
    ensures ok { OnOk result ((at kind : ℕ) → IsRelocation entries.now size index at kind → ¬ HoldsOffset policy at) }
    ensures err { IfErr result (IsEntryFault entries.now size policy) }
{
    let Some(start) = size.checked_mul(index) else {
        return Ok(());
    };
    let Some(entry) = part(entries, start, size) else {
        return Ok(());
    };
    let at = wide(entry, 0);
    if !is_within(policy, at) {
        return Ok(());
    }
    Err(ObjectFault::Relocation {
        slot: (at - policy.at) / 8,
        what: filled(word(entry, 8)),
    })
}

/// What a relocation of that kind fills in.
fn filled(kind: u32) -> Filled
    ensures { result ≡ filled kind }
{
    match kind {
        10 => Filled::Function,
        _ => Filled::Data,
    }
}

/// Whether the bytes at the offset belong to the function.
fn is_within(policy: Symbol, at: u64) -> bool
    ensures { IsTrue result ↔ HoldsOffset policy at }
{
    policy.at <= at && at - policy.at < policy.long
}
