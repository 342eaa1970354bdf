//! Why a file is no policy: the line that refuses it, and what is wrong, as a value and in words.
ghost use Rattle.std.specs.Prelude.{◌≡◌, ◌≢◌, IfOk, OnOk, string_bytes};
ghost use Rattle.serde_json.specs.View.{members_view, view};
ghost use Rattle.bq_policy_check.specs.Refusing.{policy_fault_line};
ghost use Rattle.bq_policy_check.specs.Showing.{of_fault, put_all, slot_of, stage_of};
ghost use Rattle.bq_policy_file.specs.declared.fault.PolicyFault.TheVariants.{OutOfMemory};

use crate::image_fault_text::{image_fault_text, spelling_fault_text};
use crate::json_parts::{number_value, put_text};
use crate::maps_fault_text::maps_fault_text;
use bq_asm::AssemblyCause;
use bq_asm_faults::{assembly_fault_text, with_nul_shown};
use bq_console::{Lines, Name, Quoted};
use bq_hooks::hook::{NO_HOOK, NO_VERSION};
use bq_object::is_object;
use bq_policy_file::{Head, HeadCause, Key, PolicyFault, SHAPES_FORM, read_policy};
use bq_words::nearest;
use serde_json::{Map, Value, put};
use std::alloc::{AllocError, Global};

/// The reason against a text that names no hook.
pub const HOOK_UNNAMED: &str = "no hook is named: write a line ;@ hook place in the text's head";

/// Writes the line that refuses the file. If memory ran out, that is handed on.
pub fn fault_line(alloc: Global, fault: PolicyFault) -> Result<String, AllocError>
    ensures line { IfOk result (λ text. string_bytes text ≡ policy_fault_line fault) }
    ensures other { OnOk result (fault ≢ OutOfMemory) }
{
    match fault {
        PolicyFault::OutOfMemory => Err(AllocError),
        fault => format!(in alloc; "refused {fault}\n"),
    }
}

/// The fault of a file: its place, if it has one, and its reason.
#[derive(Drop)]
pub struct FileFault {
    /// The line, counted from 1.
    pub line: Option<usize>,
    /// The slot of an instruction.
    pub slot: Option<usize>,
    pub why: String,
}

/// Makes a reason for the whole file.
fn whole(why: String) -> FileFault {
    FileFault {
        line: None,
        slot: None,
        why,
    }
}

/// Makes a reason for that line.
fn at_line(line: usize, why: String) -> FileFault {
    FileFault {
        line: Some(line),
        slot: None,
        why,
    }
}

/// The reason why an object file is no policy.
const OBJECT: &str =
    "the file is an ELF object file, and no policy: bqsim import makes a policy of it (docs/POLICIES_IN_C.md)";

/// Says what is wrong with the file of these bytes.
pub(crate) fn reason_of(
    alloc: Global,
    bytes: &[u8],
    fault: PolicyFault,
) -> Result<FileFault, AllocError> {
    match fault {
        PolicyFault::Text if is_object(bytes) => plain(alloc, OBJECT),
        PolicyFault::Assembly { .. } if is_object(bytes) => plain(alloc, OBJECT),
        PolicyFault::Text => plain(alloc, "the file is no UTF-8 text"),
        PolicyFault::Hex => plain(
            alloc,
            "the file begins as hex does, and is none: hex is two digits for each byte, and nothing else",
        ),
        PolicyFault::Head { line, cause } => head_reason(alloc, bytes, line, cause),
        PolicyFault::Assembly { line, cause } => assembly_reason(alloc, bytes, line, cause),
        PolicyFault::Image(fault) => plain(alloc, image_fault_text(fault)),
        PolicyFault::Program { slot, cause } => {
            let why = String::from_str(alloc, spelling_fault_text(cause))?;
            Ok(FileFault {
                line: None,
                slot: Some(slot),
                why,
            })
        }
        PolicyFault::Disagrees(key) => Ok(whole(difference_text(alloc, bytes, key)?)),
        PolicyFault::NoHook => Ok(whole(format!(in alloc;
            "{HOOK_UNNAMED}, or give --hook place"
        )?)),
        PolicyFault::OutOfMemory => Err(AllocError),
    }
}

/// Makes a reason for the whole file, in these words.
fn plain(alloc: Global, why: &str) -> Result<FileFault, AllocError> {
    Ok(whole(String::from_str(alloc, why)?))
}

/// Says what is wrong with the file of these bytes, by its line or slot if it has one.
pub fn fault_reason(alloc: Global, bytes: &[u8], fault: PolicyFault) -> Result<String, AllocError> {
    let reason = reason_of(alloc, bytes, fault)?;
    reason_text(alloc, None, &reason)
}

/// Writes the reason after the file's name, if there is one: `p.s line 3: why`, `p.s: why`.
pub(crate) fn reason_text(
    alloc: Global,
    name: Option<&str>,
    reason: &FileFault,
) -> Result<String, AllocError> {
    let at = place_text(alloc, reason)?;
    let why = reason.why.as_str();
    match name {
        Some(name) => named_text(alloc, Name(name), at.as_str(), why),
        None if at.is_empty() => String::from_str(alloc, why),
        None => format!(in alloc; "{at}: {why}"),
    }
}

/// Writes the reason after the file's name and its place, unless the place is the whole file.
fn named_text(alloc: Global, name: Name<'_>, at: &str, why: &str) -> Result<String, AllocError> {
    if at.is_empty() {
        return format!(in alloc; "{name}: {why}");
    }
    format!(in alloc; "{name} {at}: {why}")
}

/// Says the place; empty if the fault is of the whole file.
fn place_text(alloc: Global, reason: &FileFault) -> Result<String, AllocError> {
    match (reason.line, reason.slot) {
        (Some(line), _) => format!(in alloc; "line {line}"),
        (None, Some(slot)) => format!(in alloc; "slot {slot}"),
        (None, None) => Ok(String::new(alloc)),
    }
}

/// Makes the fields of a JSON object that say a reason: `line` and `need`.
pub(crate) fn fields_of_reason(
    alloc: Global,
    reason: &FileFault,
) -> Result<Map<String, Value>, AllocError> {
    let mut fields = Map::new(alloc);
    put(&mut fields, alloc, "line", number_value(reason.line))?;
    put_text(&mut fields, alloc, "need", reason.why.as_str())?;
    Ok(fields)
}

/// Adds stage, code and slot of the fault to the fields of a JSON object.
pub(crate) fn put_fault(
    fields: &mut Map<String, Value>,
    alloc: Global,
    fault: PolicyFault,
) -> Result<(), AllocError>
    ensures { OnOk result (members_view fields.new.entries ≡ put_all (of_fault fault) (members_view fields.old.entries)) }
{
    let code = format!(in alloc; "{fault}")?;
    put_text(fields, alloc, "stage", stage_of(fault))?;
    put_text(fields, alloc, "code", code.as_str())?;
    put(fields, alloc, "slot", slot_value(fault))
}

/// Returns the slot that a fault names, or null.
fn slot_value(fault: PolicyFault) -> Value
    ensures { view result ≡ slot_of fault }
{
    match fault {
        PolicyFault::Program { slot, .. } => Value::from(slot as u64),
        _ => Value::Null,
    }
}

/// Names the part of the program that refuses the file.
fn stage_of(fault: PolicyFault) -> &'static str
    ensures { result.now ≡ stage_of fault }
{
    match fault {
        PolicyFault::Head { .. } => "head",
        PolicyFault::Assembly { .. } => "assembler",
        PolicyFault::Image(_) => "image",
        PolicyFault::Program { .. } => "decoder",
        PolicyFault::Text
        | PolicyFault::Hex
        | PolicyFault::Disagrees(_)
        | PolicyFault::NoHook
        | PolicyFault::OutOfMemory => "file",
    }
}

/// Says what is wrong with words that say another thing than the file of these bytes.
fn difference_text(alloc: Global, bytes: &[u8], key: Key) -> Result<String, AllocError> {
    match key {
        Key::Hook => hook_difference(alloc, bytes),
        Key::Maps => String::from_str(alloc, "--maps says other maps than the file"),
        Key::Format => String::from_str(alloc, "--format says another format than the file"),
    }
}

/// Says that `--hook` says another hook than the file of these bytes, and which one the file says.
fn hook_difference(alloc: Global, bytes: &[u8]) -> Result<String, AllocError> {
    match read_policy(alloc, bytes, &Head::nothing()) {
        Ok(policy) => {
            let own = policy.form.hook.word();
            format!(in alloc; "the file says the hook {own}, and --hook says another")
        }
        Err(_) => String::from_str(alloc, "--hook says another hook than the file"),
    }
}

/// Says what is wrong with a text that the assembler refuses there; line 0 means that the text has no instruction.
fn assembly_reason(
    alloc: Global,
    bytes: &[u8],
    line: usize,
    cause: AssemblyCause,
) -> Result<FileFault, AllocError> {
    let text = std::str::from_utf8(bytes).unwrap_or("");
    let stated = assembly_fault_text(alloc, text, line, cause)?;
    let shown = Lines(stated.as_str());
    let why = format!(in alloc; "{shown}")?;
    if line == 0 {
        return Ok(whole(why));
    }
    Ok(at_line(line, why))
}

/// Says what is wrong with a line that begins with `;@`.
fn head_reason(
    alloc: Global,
    bytes: &[u8],
    line: usize,
    cause: HeadCause,
) -> Result<FileFault, AllocError> {
    if let HeadCause::Value(key) = cause {
        if let Some(value) = last_word(bytes, line) {
            return Ok(at_line(line, value_text(alloc, key, value)?));
        }
    }
    let words = head_text(cause);
    let why = match near_key(alloc, bytes, line, cause)? {
        Some(key) => format!(in alloc; "{words}; did you mean ;@ {key}?")?,
        None => String::from_str(alloc, words)?,
    };
    Ok(at_line(line, why))
}

/// Returns the key that the line of that number has misspelled, if it is a near one.
fn near_key(
    alloc: Global,
    bytes: &[u8],
    line: usize,
    cause: HeadCause,
) -> Result<Option<&'static str>, AllocError> {
    let (HeadCause::Unknown, Some(text)) = (cause, line_at(bytes, line)) else {
        return Ok(None);
    };
    let Some((_, behind)) = text.split_once('@') else {
        return Ok(None);
    };
    let Some(written) = behind.split_whitespace().next() else {
        return Ok(None);
    };
    let words = Key::ALL.map(|key| key.word());
    nearest(
        alloc,
        written,
        words.iter().copied().filter(|key| *key != written),
    )
}

/// Says what is wrong with what a line says of a key.
fn value_text(alloc: Global, key: Key, value: &str) -> Result<String, AllocError> {
    let shown = with_nul_shown(alloc, value)?;
    let value = shown.as_str();
    let quoted = Quoted(value);
    match key {
        Key::Hook => format!(in alloc; "{quoted} {NO_HOOK}"),
        Key::Maps => {
            let why = maps_fault_text(alloc, value)?;
            format!(in alloc; "maps: {why}")
        }
        Key::Format => format!(in alloc; "{quoted} {NO_VERSION}"),
    }
}

/// Returns the last word of the line of that number, counted from 1.
fn last_word(bytes: &[u8], number: usize) -> Option<&str> {
    line_at(bytes, number)?.split_whitespace().last()
}

/// Returns the line of that number, counted from 1.
fn line_at(bytes: &[u8], number: usize) -> Option<&str> {
    let text = std::str::from_utf8(bytes).ok()?;
    text.lines().nth(number.checked_sub(1)?)
}

/// Says what is wrong with a line that begins with `;@`, for this cause, and what such a line may say.
fn head_text(cause: HeadCause) -> &'static str {
    match cause {
        HeadCause::Unknown => {
            "a line that begins with ;@ says one thing: ;@ hook place, ;@ maps 8:1,16:4 or ;@ format 2"
        }
        HeadCause::Value(Key::Hook) => NO_HOOK,
        HeadCause::Value(Key::Maps) => SHAPES_FORM,
        HeadCause::Value(Key::Format) => NO_VERSION,
        HeadCause::Twice(_) => "an earlier line says this already",
    }
}
