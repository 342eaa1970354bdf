//! The lines of the C source from which the instructions of `policy` come, by the BTF that clang writes with `-g` (the kernel's
//! "BPF Type Format", sections 2.2 and 4.2). The lines are only shown beside instructions; no proof depends on them.
ghost use Rattle.std.specs.Prelude.{◌≤◌, length, IfSome};

use crate::header::headers_of;
use crate::numbers::{part, word};
use crate::object::read_tables;
use crate::section::section_at;
use crate::sections::Sections;
use crate::symbol::{Symbol, name_at, policy_in};
use std::alloc::{AllocError, Global};
use std::str;

/// A line of a source file.
#[derive(Clone, Copy)]
pub struct SourceLine<'a> {
    /// The file's name, without the folders that it lies in: printable ASCII.
    pub file: &'a str,
    pub line: u32,
}

/// The lines of an object's policy.
#[derive(Clone, Copy)]
struct Table<'a> {
    policy: Symbol,
    /// The records of lines in the section of the policy: one for each instruction that begins a line.
    records: &'a [u8],
    /// The length of each of these.
    size: u64,
    /// The names of files, and of sections.
    strings: &'a [u8],
}

/// The most slots that a policy may have.
const SLOTS: u64 = 4096;

/// The length of the heads of `.BTF` and `.BTF.ext`, as far as they are read: `btf_header` and `btf_ext_header` of the kernel.
const BTF_HEAD: u64 = 24;
/// Where either head tells its whole length, after which the parts of its section lie: `hdr_len`.
const BTF_HEAD_LENGTH: usize = 4;
/// Where either head tells at which byte after it the second part begins: `str_off`, `line_info_off`.
const SECOND_PART: usize = 16;
/// Where either head tells the length of the second part: `str_len`, `line_info_len`.
const SECOND_PART_LENGTH: usize = 20;

/// For each slot of the policy the line that it comes from, if the object says it. The answer is empty if the object has
/// no lines, or no policy.
pub fn source_lines(alloc: Global, file: &[u8]) -> Result<Vec<Option<SourceLine<'_>>>, AllocError> {
    let mut lines = Vec::new(alloc);
    let Some(table) = table_of(file) else {
        return Ok(lines);
    };
    let marks = find_marks(alloc, &table)?;
    let mut last = None;
    for mark in &marks {
        if let Some(record) = mark {
            last = line_of(&table, *record);
        }
        lines.push(last)?;
    }
    Ok(lines)
}

/// Finds for each slot of the policy the number of the last record that begins there.
fn find_marks(alloc: Global, table: &Table<'_>) -> Result<Vec<Option<u64>>, AllocError> {
    let slots = (table.policy.long / 8).min(SLOTS);
    let mut marks = Vec::new(alloc);
    for _ in 0..slots {
        marks.push(None)?;
    }
    for record in 0..table.records.len() as u64 {
        let Some(entry) = record_at(table, record) else {
            return Ok(marks);
        };
        let Some(offset) = u64::from(word(entry, 0)).checked_sub(table.policy.at) else {
            continue;
        };
        let slot = (offset / 8) as usize;
        if slot < marks.len() {
            marks[slot] = Some(record);
        }
    }
    Ok(marks)
}

/// The record of that number.
fn record_at<'a>(table: &Table<'a>, record: u64) -> Option<&'a [u8]>
    ensures { IfSome result (λ entry. 16 ≤ length entry.now) }
{
    let entry = part(table.records, record.checked_mul(table.size)?, table.size)?;
    if entry.len() < 16 {
        return None;
    }
    Some(entry)
}

/// The line that the record of that number tells.
fn line_of<'a>(table: &Table<'a>, record: u64) -> Option<SourceLine<'a>> {
    let entry = record_at(table, record)?;
    let path = str::from_utf8(name_at(table.strings, word(entry, 4))).ok()?;
    let file = match path.rsplit_once('/') {
        Some((_, file)) => file,
        None => path,
    };
    if file.is_empty() || !file.bytes().all(|byte| byte.is_ascii_graphic()) {
        return None;
    }
    let line = word(entry, 12) / 1024;
    Some(SourceLine { file, line })
}

/// The lines of an object's policy, if it has some.
fn table_of(file: &[u8]) -> Option<Table<'_>> {
    let headers = headers_of(file).ok()?;
    let tables = read_tables(file, headers).ok()?;
    let policy = policy_in(tables.entries, tables.names)?;
    let sections = Sections::of(file, headers)?;
    let own = sections.name(section_at(headers, u64::from(policy.section))?);
    let strings = second_part(sections.find(b".BTF")?)?;
    let (records, size) = records_in(sections.find(b".BTF.ext")?, strings, own)?;
    Some(Table {
        policy,
        records,
        size,
        strings,
    })
}

/// Returns the second part of a section of BTF, by the head of that section: the strings of `.BTF`, the lines of `.BTF.ext`.
/// There is none if the section ends before that part does.
fn second_part(section: &[u8]) -> Option<&[u8]> {
    let head = part(section, 0, BTF_HEAD)?;
    let after_head = u64::from(word(head, BTF_HEAD_LENGTH));
    let from = after_head.checked_add(u64::from(word(head, SECOND_PART)))?;
    part(section, from, u64::from(word(head, SECOND_PART_LENGTH)))
}

/// The records of lines in the section `.BTF.ext` that are of the section of that name, and how long each is.
fn records_in<'a>(extension: &'a [u8], strings: &[u8], name: &[u8]) -> Option<(&'a [u8], u64)> {
    let lines = second_part(extension)?;
    let size = u64::from(word(part(lines, 0, 4)?, 0));
    let mut at: u64 = 4;
    for _ in 0..256 {
        let group = part(lines, at, 8)?;
        let long = u64::from(word(group, 4)).checked_mul(size)?;
        at = at.checked_add(8)?;
        if name_at(strings, word(group, 0)) == name {
            return Some((part(lines, at, long)?, size));
        }
        at = at.checked_add(long)?;
    }
    None
}
