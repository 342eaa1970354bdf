//! Sections by their headers.
ghost use Rattle.std.specs.Prelude.{◌≡◌, ◌≢◌, ◌<◌, ◌+◌, ◌*◌, length, IfSome, IfNone};
ghost use Rattle.bq_object.specs.declared.section.Section.{Section as SectionValue};
ghost use Rattle.bq_object.specs.Numbers.{IsPart};
ghost use Rattle.bq_object.specs.Sections.{HasNone, IsFirstOf, IsSection, section_of};

use crate::numbers::{part, wide, word};

/// What a section header says.
#[derive(Clone, Copy)]
pub struct Section {
    /// Where its name begins among the names of sections.
    pub name: u32,
    /// What kind of section it is: 2 has symbols, 4 and 9 have relocations.
    pub kind: u32,
    /// Where in the file it begins.
    pub at: u64,
    /// How many bytes it has.
    pub long: u64,
    /// Of symbols the section of their names.
    pub link: u32,
    /// Of relocations the section that they change.
    pub info: u32,
}

/// The length of a section header of ELF64 (System V ABI, "Object Files").
pub(crate) const HEADER_LENGTH: u64 = 64;

/// The kind of a section of symbols.
pub const SYMBOLS: u32 = 2;

impl Section {
    /// What the 64 bytes of a header say.
    fn read(header: &[u8]) -> Section
        requires { length header.now ≡ 64 }
        ensures { result ≡ section_of header.now }
    {
        Section {
            name: word(header, 0),
            kind: word(header, 4),
            at: wide(header, 24),
            long: wide(header, 32),
            link: word(header, 40),
            info: word(header, 44),
        }
    }

    /// The bytes of the section, if the file has all of them.
    pub fn contents(self, file: &[u8]) -> Option<&[u8]>
        ensures some { IfSome result (λ bytes. IsPart file.now self.at self.long bytes.now) }
        ensures whole { IfSome result (λ bytes. length bytes.now ≡ self.long) }
        ensures none { IfNone result (length file.now < self.at + self.long) }
    {
        part(file, self.at, self.long)
    }
}

/// The section of that number, if there are that many.
pub fn section_at(headers: &[u8], index: u64) -> Option<Section>
    ensures some { IfSome result (IsSection headers.now index) }
    ensures none { IfNone result (length headers.now < index * 64 + 64) }
{
    let header = part(headers, index.checked_mul(HEADER_LENGTH)?, HEADER_LENGTH)?;
    Some(Section::read(header))
}

/// The section of that number, if it has symbols.
#[tactic(auto, using(crate::proofs::SameLemmas::other_kind, crate::proofs::SameLemmas::no_section))]
fn symbols_at(headers: &[u8], index: u64) -> Option<Section>
    ensures some { IfSome result (λ section. IsSection headers.now index section × (section.kind ≡ 2)) }
    ensures none { IfNone result ((other : SectionValue) → IsSection headers.now index other → other.kind ≢ 2) }
{
    let section = section_at(headers, index)?;
    if section.kind == SYMBOLS {
        Some(section)
    } else {
        None
    }
}

/// The first section of symbols.
pub fn symbols_in(headers: &[u8]) -> Option<Section>
    ensures some { IfSome result (IsFirstOf 2 headers.now) }
    ensures none { IfNone result (HasNone 2 headers.now) }
{
    let count = headers.len() as u64 / HEADER_LENGTH;
    for index in 0..count {
        if let Some(section) = symbols_at(headers, index) {
            return Some(section);
        }
    }
    None
}
