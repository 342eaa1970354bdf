//! Where a woken task is placed, and which task is pulled, in words.

use crate::asked::Asked;
use crate::pull_facts::{OwnPull, PullFacts};
use crate::texts::TaskText;
use bq_hooks::{By, Hook};
use bq_report::Names;
use std::alloc::AllocError;

/// Adds where a woken task is placed, and why.
pub(crate) fn write_place(
    text: &mut String,
    names: &Names,
    task: u16,
    to: u8,
    by: By,
    asked: &Asked,
) -> Result<(), AllocError> {
    let who = TaskText { names, task };
    write!(text, "    {who} is placed on {to}: ")?;
    match by {
        By::Policy => asked.write_answer(text, Hook::Place.word()),
        By::Discipline => {
            asked.write_overruled(text)?;
            text.push_str("the least load in its mask, where it was last if that ties\n")
        }
    }
}

/// Adds the sizes of both processors, how many tasks may go, and the first of these by falling (v, id).
pub(crate) fn write_pull_facts(
    text: &mut String,
    names: &Names,
    facts: &PullFacts,
) -> Result<(), AllocError> {
    let PullFacts {
        puller,
        other,
        size,
        other_size,
        ref movable,
    } = *facts;
    let count = movable.count;
    write!(
        text,
        "    sizes: {size} at cpu {puller}, {other_size} at cpu {other}; "
    )?;
    if count == 0 {
        return text.push_str("none may go\n");
    }
    write!(text, "{count} may go")?;
    let mut shown: u32 = 0;
    for task in movable.first.as_slice() {
        let who = TaskText { names, task: *task };
        let before = if shown == 0 { ": " } else { ", " };
        write!(text, "{before}{who}")?;
        shown = shown.saturating_add(1);
    }
    if shown < count {
        let more = count - shown;
        write!(text, " and {more} more")?;
    }
    text.push_str("\n")
}

/// Adds which task is pulled, and why.
pub(crate) fn write_pull(
    text: &mut String,
    names: &Names,
    facts: &PullFacts,
    task: Option<u16>,
    by: By,
    asked: &Asked,
) -> Result<(), AllocError> {
    match task {
        Some(task) => {
            let who = TaskText { names, task };
            write!(text, "    {who} is pulled: ")?;
        }
        None => text.push_str("    nothing is pulled: ")?,
    }
    match by {
        By::Policy => asked.write_answer(text, Hook::Pull.word()),
        By::Discipline => {
            asked.write_overruled(text)?;
            write_own_pull(text, facts)
        }
    }
}

/// Ends a line with why the discipline takes the task that it takes, or none.
fn write_own_pull(text: &mut String, facts: &PullFacts) -> Result<(), AllocError> {
    let size = facts.size;
    let other_size = facts.other_size;
    match facts.own() {
        OwnPull::TooFew => write!(text, "{other_size} < {size} + 2\n"),
        OwnPull::NoneMayGo => text.push_str("none may go\n"),
        OwnPull::Greatest => write!(
            text,
            "{other_size} >= {size} + 2, and of those that may go it has the greatest (v, id)\n"
        ),
    }
}
