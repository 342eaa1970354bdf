//! The function `policy` of an object file.
ghost use Rattle.std.specs.Prelude.{◌↔◌, IsTrue, IfOk, IfErr};
ghost use Rattle.bq_object.specs.Objects.{HasTables, IsCode, IsFunction, IsObject, IsPolicyOfObject};
ghost use Rattle.bq_object.specs.Faults.{IsCodeFault, IsFunctionFault, IsObjectFault, IsTableFault};

use crate::fault::{ObjectFault, Piece};
use crate::header::headers_of;
use crate::numbers::part;
use crate::relocation::check;
use crate::section::{section_at, symbols_in};
use crate::symbol::{SYMBOL_LENGTH, Symbol, name_at, policy_in, symbol_at};
use std::alloc::{AllocError, Global};
use std::str;

/// Whether a file is an object, by its first four bytes.
pub fn is_object(file: &[u8]) -> bool
    ensures { IsTrue result ↔ IsObject file.now }
{
    file.len() >= 4 && file[0] == 0x7f && file[1] == 0x45 && file[2] == 0x4c && file[3] == 0x46
}

/// The symbols of an object, and their names.
#[derive(Clone, Copy)]
pub(crate) struct Tables<'a> {
    pub(crate) entries: &'a [u8],
    pub(crate) names: &'a [u8],
}

/// The instructions of the function `policy`, as they are in the file.
pub fn policy_of(file: &[u8]) -> Result<&[u8], ObjectFault>
    ensures ok { IfOk result (λ policy. IsPolicyOfObject file.now policy.now) }
    ensures err { IfErr result (IsObjectFault file.now) }
{
    let headers = headers_of(file)?;
    let tables = read_tables(file, headers)?;
    function(file, headers, tables.entries, tables.names)
}

/// The symbols and their names.
pub(crate) fn read_tables<'a>(file: &'a [u8], headers: &[u8]) -> Result<Tables<'a>, ObjectFault>
    ensures ok { IfOk result (λ t. HasTables file.now headers.now t.entries.now t.names.now) }
    ensures err { IfErr result (IsTableFault file.now headers.now) }
{
    let Some(table) = symbols_in(headers) else {
        return Err(ObjectFault::NoPolicy);
    };
    let Some(entries) = table.contents(file) else {
        return Err(ObjectFault::Cut(Piece::Symbols));
    };
    let Some(strings) = section_at(headers, u64::from(table.link)) else {
        return Err(ObjectFault::Cut(Piece::Names));
    };
    let Some(names) = strings.contents(file) else {
        return Err(ObjectFault::Cut(Piece::Names));
    };
    Ok(Tables { entries, names })
}

/// The bytes of the function `policy`, which no relocation changes.
fn function<'a>(
    file: &'a [u8],
    headers: &[u8],
    entries: &[u8],
    names: &[u8],
) -> Result<&'a [u8], ObjectFault>
    requires { HasTables file.now headers.now entries.now names.now }
    ensures ok { IfOk result (λ policy. IsFunction file.now headers.now policy.now) }
    ensures err { IfErr result (IsFunctionFault file.now headers.now entries.now names.now) }
{
    let Some(policy) = policy_in(entries, names) else {
        return Err(ObjectFault::NoPolicy);
    };
    check(file, headers, policy)?;
    code(file, headers, policy)
}

/// The bytes of a function, by its symbol.
fn code<'a>(file: &'a [u8], headers: &[u8], policy: Symbol) -> Result<&'a [u8], ObjectFault>
    ensures ok { IfOk result (λ code. IsCode file.now headers.now policy code.now) }
    ensures err { IfErr result (IsCodeFault file.now headers.now policy) }
{
    let Some(section) = section_at(headers, u64::from(policy.section)) else {
        return Err(ObjectFault::Cut(Piece::Policy));
    };
    let Some(bytes) = section.contents(file) else {
        return Err(ObjectFault::Cut(Piece::Policy));
    };
    match part(bytes, policy.at, policy.long) {
        Some(code) => Ok(code),
        None => Err(ObjectFault::Cut(Piece::Policy)),
    }
}

/// The names of the functions beside `policy`, which are left out, in the order of the symbols. There are none if the
/// symbols can't be read; a name that is not UTF-8 is skipped.
pub fn others(alloc: Global, file: &[u8]) -> Result<Vec<&str>, AllocError> {
    let mut found = Vec::new(alloc);
    let Ok(headers) = headers_of(file) else {
        return Ok(found);
    };
    let Ok(tables) = read_tables(file, headers) else {
        return Ok(found);
    };
    let count = tables.entries.len() as u64 / SYMBOL_LENGTH;
    for index in 0..count {
        if let Some(name) = other_at(tables.entries, tables.names, index) {
            found.push(name)?;
        }
    }
    Ok(found)
}

/// The name of the symbol of that number, if it is another function than `policy`.
fn other_at<'a>(entries: &[u8], names: &'a [u8], index: u64) -> Option<&'a str> {
    let symbol = symbol_at(entries, index)?;
    if !symbol.is_function() || symbol.is_policy(names) {
        return None;
    }
    str::from_utf8(name_at(names, symbol.name)).ok()
}
