//! The tasks that are asked for by name.
ghost use Rattle.std.specs.Prelude.{◌≡◌, ◌++◌, IfOk, OnOk, option_map, string_bytes};
ghost use Rattle.bq_timeline.specs.TasksByName.{is_named, lacking_note, meant_note, near_note, quoted_name, shown_letter, tasks_with_name, tasks_for_names, unknown_name_note, unknown_name_notes};

use crate::meant::name_meant;
use bq_disc::limits::TASKS;
use bq_report::Names;
use std::alloc::{AllocError, Global};

/// A number that no task can have: tasks are 0 to 1023. It follows the tasks that have the names, because an empty list of tasks would
/// mean every task.
pub const NO_TASK: u16 = u16::MAX;

/// Adds the tasks that have the names that are asked for, and `NO_TASK`. Adds nothing if no name is asked for.
#[tactic(auto, using(crate::proofs::TasksByNameLemmas::tasks_for_some_names))]
pub fn add_tasks_by_name(
    alloc: Global,
    tasks: &mut Vec<u16>,
    asked: &[String],
    names: &Names,
) -> Result<(), AllocError>
    ensures { OnOk result (tasks.new.items ≡ tasks.old.items ++ tasks_for_names names.now asked.now) }
{
    if asked.is_empty() {
        return Ok(());
    }
    for name in asked {
        let found = tasks_with_name(alloc, name.as_str(), names)?;
        tasks.extend_from_slice(found.as_slice())?;
    }
    tasks.push(NO_TASK)?;
    Ok(())
}

/// Notes the names that no task has.
pub fn note_unknown_names(
    alloc: Global,
    notes: &mut String,
    asked: &[String],
    names: &Names,
) -> Result<(), AllocError>
    ensures { OnOk result (string_bytes notes.new ≡ string_bytes notes.old ++ unknown_name_notes names.now asked.now) }
{
    for name in asked {
        note_if_unknown(alloc, notes, name.as_str(), names)?;
    }
    Ok(())
}

/// Notes a name, if no task has it.
fn note_if_unknown(
    alloc: Global,
    notes: &mut String,
    name: &str,
    names: &Names,
) -> Result<(), AllocError>
    ensures { OnOk result (string_bytes notes.new ≡ string_bytes notes.old ++ unknown_name_note names.now name.now) }
{
    let found = tasks_with_name(alloc, name, names)?;
    if !found.is_empty() {
        return Ok(());
    }
    let near = name_meant(alloc, name, names)?;
    note_meant(alloc, notes, name, near)
}

/// Notes that no task has this name, with the name that was perhaps meant, if there is one.
fn note_meant(
    alloc: Global,
    notes: &mut String,
    name: &str,
    near: Option<&str>,
) -> Result<(), AllocError>
    ensures { OnOk result (string_bytes notes.new ≡ string_bytes notes.old ++ meant_note name.now (option_map (λ n. n.now) near.entry)) }
{
    match near {
        Some(near) => note_near(alloc, notes, name, near),
        None => note_lacking(alloc, notes, name),
    }
}

/// Notes that no task has this name.
fn note_lacking(alloc: Global, notes: &mut String, name: &str) -> Result<(), AllocError>
    ensures { OnOk result (string_bytes notes.new ≡ string_bytes notes.old ++ lacking_note name.now) }
{
    let name = quoted(alloc, name)?;
    write!(notes, "--tasks: no task is called {name}\n")
}

/// Notes that no task has this name, but one has a name that is near.
fn note_near(alloc: Global, notes: &mut String, name: &str, near: &str) -> Result<(), AllocError>
    ensures { OnOk result (string_bytes notes.new ≡ string_bytes notes.old ++ near_note name.now near.now) }
{
    let name = quoted(alloc, name)?;
    let near = quoted(alloc, near)?;
    write!(
        notes,
        "--tasks: no task is called {name}; did you mean {near}?\n"
    )
}

/// How many characters of a name a message quotes.
pub const QUOTED: usize = 40;

/// Returns a name as a message quotes it: its first 40 characters, and `?` for each control character.
fn quoted(alloc: Global, name: &str) -> Result<String, AllocError>
    ensures { IfOk result (λ text. string_bytes text ≡ quoted_name name.now) }
{
    let mut text = String::new(alloc);
    for letter in name.chars().take(QUOTED) {
        text.push(shown_letter(letter))?;
    }
    Ok(text)
}

/// Returns the letter as a message shows it: `?` for a control character.
pub fn shown_letter(letter: char) -> char
    ensures { result ≡ shown_letter letter }
{
    match letter {
        '\u{0}'..='\u{1f}' | '\u{7f}'..='\u{9f}' => '?',
        other => other,
    }
}

/// Returns the tasks that have the name, in order of their numbers.
#[tactic(auto, using(crate::proofs::TasksByNameLemmas::with_name_none, crate::proofs::TasksByNameLemmas::with_name_on, crate::proofs::TasksByNameLemmas::with_name_off))]
fn tasks_with_name(alloc: Global, name: &str, names: &Names) -> Result<Vec<u16>, AllocError>
    ensures { IfOk result (λ tasks. tasks.items ≡ tasks_with_name names.now name.now) }
{
    let mut tasks = Vec::new(alloc);
    for task in 0..TASKS {
        if is_named(name, names.of(task)) {
            tasks.push(task)?;
        }
    }
    Ok(tasks)
}

/// Tells whether there is another name, and it equals this one.
fn is_named(name: &str, other: Option<&str>) -> bool
    ensures { result ≡ is_named name.now (option_map (λ o. o.now) other.entry) }
{
    match other {
        Some(other) => other == name,
        None => false,
    }
}
