//! The tasks that a choice is distinguished from, in words.
ghost use Rattle.std.specs.Prelude.{◌≤◌, length};

use crate::reasons::find_task;
use crate::rivals::{passed_over, tied_with};
use crate::texts::{TaskText, VirtualTime};
use bq_disc::Entity;
use bq_disc::limits::TASKS;
use bq_report::{Millis, Names};
use bq_words::DisciplineName;
use std::alloc::AllocError;

/// Ends a line with the eligible task of the same deadline, if there is one, and the task that is due first of all but not
/// eligible.
pub(crate) fn write_deadlines(
    text: &mut String,
    names: &Names,
    run: u16,
    tasks: &[Entity],
) -> Result<(), AllocError>
    requires { length tasks.now ≤ TASKS }
{
    if let Some(chosen) = find_task(tasks, run) {
        if let Some(other) = tied_with(DisciplineName::Eevdf, &chosen, tasks) {
            let who = name_task(names, &other);
            let tied = other.id();
            write!(
                text,
                "; {who} has the same deadline, and the lower id wins ({run} < {tied})"
            )?;
        }
        if let Some(first) = passed_over(tasks) {
            write_passed_over(text, names, &chosen, &first)?;
        }
    }
    text.push_str("\n")
}

/// Adds the task that is due first of all but not eligible.
fn write_passed_over(
    text: &mut String,
    names: &Names,
    chosen: &Entity,
    first: &Entity,
) -> Result<(), AllocError> {
    let who = name_task(names, first);
    if first.deadline() == chosen.deadline() {
        let (first, chosen) = (first.id(), chosen.id());
        return write!(
            text,
            "; {who} has the same deadline and the lower id ({first} < {chosen}), but is not eligible"
        );
    }
    let deadline = VirtualTime(first.deadline());
    write!(text, "; {who} is due first ({deadline}) but not eligible")
}

/// Adds which task gives way, and how far ahead it is.
pub(crate) fn write_giving_way(
    text: &mut String,
    names: &Names,
    was: Option<u16>,
    run: u16,
    ahead: u64,
) -> Result<(), AllocError> {
    let Some(was) = was else {
        return text.push_str("least virtual runtime");
    };
    let was = TaskText { names, task: was };
    let run = TaskText { names, task: run };
    let ahead = Millis(ahead);
    write!(text, "{was} gives way: {ahead} ms ahead of {run}")
}

/// Ends a line with the task of the same virtual runtime as the running one, if there is one. If the running task ran before, it
/// runs on; otherwise the lower id wins.
pub(crate) fn write_equal_runtime(
    text: &mut String,
    names: &Names,
    run: u16,
    was: Option<u16>,
    tasks: &[Entity],
) -> Result<(), AllocError>
    requires { length tasks.now ≤ TASKS }
{
    if let Some(chosen) = find_task(tasks, run) {
        if let Some(other) = tied_with(DisciplineName::Cfs, &chosen, tasks) {
            let who = name_task(names, &other);
            let tied = other.id();
            write!(text, "; {who} has the same v")?;
            if was == Some(run) {
                let run = TaskText { names, task: run };
                write!(text, ", and {run} runs on")?;
            } else {
                write!(text, ", and the lower id wins ({run} < {tied})")?;
            }
        }
    }
    text.push_str("\n")
}

/// Returns the text of a task: its name, or its number if it has none.
fn name_task<'a>(names: &'a Names, task: &Entity) -> TaskText<'a> {
    TaskText {
        names,
        task: task.id(),
    }
}
