//! Sections by their names.

use crate::header::{HEAD_LENGTH, NAMES};
use crate::numbers::half;
use crate::section::{HEADER_LENGTH, Section, section_at};
use crate::symbol::name_at;

/// The sections of a file, with their names.
#[derive(Clone, Copy)]
pub struct Sections<'a> {
    file: &'a [u8],
    headers: &'a [u8],
    names: &'a [u8],
}

impl<'a> Sections<'a> {
    /// The sections by these headers, if the file has their names.
    pub fn of(file: &'a [u8], headers: &'a [u8]) -> Option<Sections<'a>> {
        if file.len() < HEAD_LENGTH {
            return None;
        }
        let names = section_at(headers, u64::from(half(file, NAMES)))?.contents(file)?;
        Some(Sections {
            file,
            headers,
            names,
        })
    }

    /// The name of a section.
    pub fn name(self, section: Section) -> &'a [u8] {
        name_at(self.names, section.name)
    }

    /// The bytes of the first section of that name.
    pub fn find(self, name: &[u8]) -> Option<&'a [u8]> {
        for index in 0..self.headers.len() as u64 / HEADER_LENGTH {
            let section = section_at(self.headers, index)?;
            if self.name(section) == name {
                return section.contents(self.file);
            }
        }
        None
    }
}
