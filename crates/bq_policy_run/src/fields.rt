//! The fields of contexts by their names, as docs/CONTEXTS.md lists them.
ghost use Rattle.std.specs.Prelude.{◌≡◌, ◌+◌, ◌<◌, ◌≤◌, ◌^◌, List, ℕ, length, map, None, Some, IfNone, IfSome};
ghost use Rattle.std.specs.Bool.{OnFalse, OnTrue};
ghost use Rattle.std.specs.List.{find};
ghost use Rattle.std.specs.Str.{bytes_eq};
ghost use Rattle.bq_policy_run.specs.Fields.{GoesBy, GoesByName, HasNumber, IsField, IsNumbered, IsPasted, IsFieldPut, IsSingle, bytes_in, fields_of, row_named, field_of_row};
ghost use Rattle.bq_policy_run.specs.declared.fields.Field.{Field as FieldValue};
ghost use Rattle.bq_policy_run.specs.declared.fields.FieldRow.{FieldRow as FieldRowValue};

use bq_console::words::{cut, decimal};
use bq_hooks::{Hook, Version, context_length};
use std::alloc::{AllocError, Global};

/// The number of bytes of a field: four, or eight.
#[derive(Clone, Copy)]
pub enum FieldWidth {
    Four,
    Eight,
}

impl FieldWidth {
    /// Returns the number of bytes.
    fn bytes(self) -> usize
        ensures { result ≡ bytes_in self }
    {
        match self {
            FieldWidth::Four => 4,
            FieldWidth::Eight => 8,
        }
    }

    /// Returns the number of bits.
    pub(crate) fn bits(self) -> usize {
        match self {
            FieldWidth::Four => 32,
            FieldWidth::Eight => 64,
        }
    }
}

/// The place of a field: its first byte, and its width.
#[derive(Clone, Copy)]
pub struct Field {
    pub at: usize,
    pub width: FieldWidth,
}

/// A row of the table.
#[derive(Clone, Copy)]
struct FieldRow {
    /// The name, without the number of a field that comes several times.
    name: &'static str,
    /// The first byte; of a field that comes several times, that of number 0.
    at: usize,
    width: FieldWidth,
    /// The distance in bytes from one number to the next; 0 for a field that comes once.
    apart: usize,
    /// How often the field comes.
    count: usize,
}

/// A row of a field that comes once.
macro_rules! once {
    ($name:literal, $at:literal, $width:ident) => {
        FieldRow {
            name: $name,
            at: $at,
            width: FieldWidth::$width,
            apart: 0,
            count: 1,
        }
    };
}

/// A row of a field that comes `count` times, each `apart` bytes behind the one before.
macro_rules! several {
    ($name:literal, $at:literal, $width:ident, apart $apart:literal, count $count:literal) => {
        FieldRow {
            name: $name,
            at: $at,
            width: FieldWidth::$width,
            apart: $apart,
            count: $count,
        }
    };
}

const PLACE: [FieldRow; 9] = [
    once!("task", 0, Four),
    once!("weight", 4, Four),
    once!("mask", 8, Eight),
    once!("slice", 16, Eight),
    once!("waker", 24, Four),
    once!("previous", 28, Four),
    once!("processors", 32, Four),
    once!("own", 36, Four),
    several!("load", 40, Four, apart 4, count 64),
];

const PREEMPT: [FieldRow; 10] = [
    once!("processor", 0, Four),
    once!("queued", 4, Four),
    once!("task", 8, Four),
    once!("weight", 12, Four),
    once!("v", 16, Eight),
    once!("deadline", 24, Eight),
    once!("next", 32, Four),
    once!("next_weight", 36, Four),
    once!("next_v", 40, Eight),
    once!("own", 48, Four),
];

const PULL: [FieldRow; 10] = [
    once!("puller", 0, Four),
    once!("other", 4, Four),
    once!("size", 8, Four),
    once!("other_size", 12, Four),
    once!("movable", 16, Four),
    once!("shown", 20, Four),
    once!("own", 24, Four),
    several!("task", 32, Four, apart 16, count 8),
    several!("weight", 36, Four, apart 16, count 8),
    several!("v", 40, Eight, apart 16, count 8),
];

/// Finds the field of that name. If the field comes several times, the name has a dot and the number.
pub(crate) fn field_named(hook: Hook, version: Version, name: &str) -> Option<Field>
    ensures some { IfSome result (IsField hook version name.now) }
    ensures none { IfNone result ((field : FieldValue) → ¬ IsField hook version name.now field) }
{
    let field = field_by(hook, name)?;
    let end = field.at.checked_add(field.width.bytes())?;
    if end > context_length(hook, version) {
        return None;
    }
    Some(field)
}

/// Finds the field of that name, wherever the context ends.
fn field_by(hook: Hook, name: &str) -> Option<Field>
    ensures some { IfSome result (GoesBy hook name.now) }
    ensures none { IfNone result ((field : FieldValue) → field.at < 2 ^ 64 → ¬ GoesBy hook name.now field) }
{
    match cut(name, '.') {
        None => by_name(hook, name),
        Some((stem, digits)) => by_number(hook, stem, digits),
    }
}

/// Finds the field of that name, if it comes once.
fn by_name(hook: Hook, name: &str) -> Option<Field>
    ensures some { IfSome result (GoesByName hook name.now) }
    ensures none { IfNone result ((field : FieldValue) → ¬ GoesByName hook name.now field) }
{
    let row = row_named(hook, name)?;
    single(row)
}

/// Finds the field of that name and that number, if there are several.
fn by_number(hook: Hook, stem: &str, digits: &str) -> Option<Field>
    ensures some { IfSome result (HasNumber hook stem.now digits.now) }
    ensures none { IfNone result ((field : FieldValue) → field.at < 2 ^ 64 → ¬ HasNumber hook stem.now digits.now field) }
{
    let row = row_named(hook, stem)?;
    let number = decimal(digits)?;
    numbered(row, number)
}

/// Returns the table of a hook.
fn rows(hook: Hook) -> &'static [FieldRow]
    ensures { map field_of_row result.now ≡ fields_of hook }
{
    match hook {
        Hook::Place => PLACE.as_slice(),
        Hook::Preempt => PREEMPT.as_slice(),
        Hook::Pull => PULL.as_slice(),
    }
}

/// Finds the row of that name of a hook, if there is one.
fn row_named(hook: Hook, name: &str) -> Option<FieldRow>
    ensures some { IfSome result (λ row. row_named (fields_of hook) name.now ≡ Some (field_of_row row)) }
    ensures none { IfNone result (row_named (fields_of hook) name.now ≡ None) }
{
    first_named(rows(hook), name)
}

/// Finds the first row of that name, if there is one.
fn first_named(rows: &[FieldRow], name: &str) -> Option<FieldRow>
    ensures { result ≡ find (λ (row : FieldRowValue). bytes_eq row.name.now name.now) rows.now }
{
    rows.iter().copied().find(|row| row.name == name)
}

/// Returns the field of a row, if it comes once.
fn single(row: FieldRow) -> Option<Field>
    ensures some { IfSome result (IsSingle (field_of_row row)) }
    ensures none { IfNone result ((field : FieldValue) → ¬ IsSingle (field_of_row row) field) }
{
    if row.count != 1 {
        return None;
    }
    Some(Field {
        at: row.at,
        width: row.width,
    })
}

/// Returns the field of that number of a row, if the row's field comes several times.
fn numbered(row: FieldRow, number: usize) -> Option<Field>
    ensures some { IfSome result (IsNumbered (field_of_row row) number) }
    ensures none { IfNone result ((field : FieldValue) → field.at < 2 ^ 64 → ¬ IsNumbered (field_of_row row) number field) }
{
    if row.count < 2 || number >= row.count {
        return None;
    }
    let at = row.at.checked_add(number.checked_mul(row.apart)?)?;
    Some(Field {
        at,
        width: row.width,
    })
}

/// Puts a word into a field, and says whether it fits there.
pub(crate) fn put(context: &mut [u8], field: Field, word: u64) -> bool
    ensures put { OnTrue result (IsFieldPut field word context.old context.new) }
    ensures none { OnFalse result ((after : List ℕ) → ¬ IsFieldPut field word context.old after) }
{
    match field.width {
        FieldWidth::Four => match u32::try_from(word) {
            Ok(word) => paste(context, field.at, &word.to_le_bytes()),
            Err(_) => false,
        },
        FieldWidth::Eight => paste(context, field.at, &word.to_le_bytes()),
    }
}

/// Puts bytes there, if there is room.
fn paste(context: &mut [u8], at: usize, bytes: &[u8]) -> bool
    ensures pasted { OnTrue result (IsPasted at bytes.now context.old context.new) }
    ensures none { OnFalse result (¬ (at + length bytes.now ≤ length context.old)) }
{
    let Some(end) = at.checked_add(bytes.len()) else {
        return false;
    };
    if end > context.len() {
        return false;
    }
    context[at..end].copy_from_slice(bytes);
    true
}

/// Returns the names of the fields of a hook with commas between, for a message.
pub(crate) fn field_names(alloc: Global, hook: Hook) -> Result<String, AllocError> {
    let mut names = String::new(alloc);
    for row in rows(hook) {
        if !names.is_empty() {
            names.push_str(", ")?;
        }
        write_row_names(hook, row, &mut names)?;
    }
    Ok(names)
}

/// Writes the name of a row's field. If the field comes several times, this is its first and its last name in contexts of the first
/// version, and the last in those of the second version if they have more.
fn write_row_names(hook: Hook, row: &FieldRow, names: &mut String) -> Result<(), AllocError> {
    let name = row.name;
    if row.count == 1 {
        return write!(names, "{name}");
    }
    let last = last_number(hook, Version::First, row);
    write!(names, "{name}.0 to {name}.{last}")?;
    let last_of_second = last_number(hook, Version::Second, row);
    if last_of_second > last {
        let second = Version::Second.number();
        write!(names, " (in version {second} to {name}.{last_of_second})")?;
    }
    Ok(())
}

/// Returns the greatest number of a row's field, counted from 0, with which the field ends within the context of a version.
fn last_number(hook: Hook, version: Version, row: &FieldRow) -> usize {
    let behind_first = context_length(hook, version)
        .saturating_sub(row.at)
        .saturating_sub(row.width.bytes());
    let more = behind_first.checked_div(row.apart).unwrap_or(0);
    more.min(row.count.saturating_sub(1))
}
