//! The tasks that a choice was among, and why the running one was chosen, in words.

ghost use Rattle.std.specs.Prelude.{◌≤◌, length};

use crate::asked::Asked;
use crate::presence::list_present;
use crate::reasons::{Reason, choice_reason};
use crate::rival_text::{write_deadlines, write_equal_runtime, write_giving_way};
use crate::task_row::{TaskRow, make_rows, measured_from};
use crate::texts::{IdsText, LagText, MarkText, TaskText, VirtualTime, eligibility};
use bq_cfs::GRANULARITY;
use bq_disc::Entity;
use bq_disc::limits::TASKS;
use bq_hooks::{By, Hook};
use bq_report::{Millis, Names};
use bq_trace::{AnyCore, AnyCpu};
use bq_words::DisciplineName;
use std::alloc::{AllocError, Global};

/// A choice of the task that runs at a processor.
#[derive(Clone, Copy)]
pub(crate) struct RunChoice {
    pub processor: u8,
    /// The task that ran before.
    pub was: Option<u16>,
    /// The task that runs now.
    pub run: Option<u16>,
    pub by: By,
    pub asked: Asked,
}

/// Adds the tasks that were there, and why the running one was chosen.
pub(crate) fn write_choice(
    alloc: Global,
    text: &mut String,
    names: &Names,
    machine: &AnyCore,
    choice: &RunChoice,
) -> Result<(), AllocError> {
    let discipline = machine.discipline();
    let (mark, tasks) = match machine.cpu(choice.processor) {
        Some(AnyCpu::Cfs(cpu)) => (cpu.mark(), list_present(alloc, cpu)?),
        Some(AnyCpu::Eevdf(cpu)) => (cpu.mark(), list_present(alloc, cpu)?),
        None => return Ok(()),
    };
    if let Some(from) = measured_from(discipline, tasks.as_slice()) {
        let mark_text = MarkText {
            discipline,
            mark,
            from,
        };
        write!(text, "    {mark_text}\n")?;
    }
    let rows = make_rows(alloc, tasks.as_slice())?;
    write_rows(alloc, text, names, discipline, rows.as_slice(), choice.run)?;
    write_reason(
        text,
        names,
        discipline,
        choice,
        tasks.as_slice(),
        rows.as_slice(),
    )
}

/// Adds a head and one line for each task, if there are tasks.
fn write_rows(
    alloc: Global,
    text: &mut String,
    names: &Names,
    discipline: DisciplineName,
    rows: &[TaskRow],
    run: Option<u16>,
) -> Result<(), AllocError> {
    if rows.is_empty() {
        return Ok(());
    }
    match discipline {
        DisciplineName::Cfs => text.push_str("      task            weight          v\n")?,
        DisciplineName::Eevdf => text.push_str(
            "      task            weight          v   deadline        lag\n",
        )?,
    }
    for row in rows {
        write_row(alloc, text, names, discipline, row, run == Some(row.task))?;
    }
    Ok(())
}

/// Adds the line of a task.
fn write_row(
    alloc: Global,
    text: &mut String,
    names: &Names,
    discipline: DisciplineName,
    row: &TaskRow,
    runs: bool,
) -> Result<(), AllocError> {
    let who = format!(in alloc;
        "{}",
        TaskText {
            names,
            task: row.task
        }
    )?;
    let sign = if runs { '>' } else { ' ' };
    let weight = row.weight;
    let v = format!(in alloc; "{}", VirtualTime(row.v))?;
    write!(text, "    {sign} {who:<14.14}{weight:>8} {v:>10}")?;
    match discipline {
        DisciplineName::Cfs => {}
        DisciplineName::Eevdf => {
            let deadline = format!(in alloc; "{}", VirtualTime(row.deadline))?;
            let lag = format!(in alloc; "{}", LagText(row))?;
            let eligible = eligibility(row);
            write!(text, " {deadline:>10} {lag:>10}  {eligible}")?;
        }
    }
    text.push_str("\n")
}

/// Adds why the running task was chosen.
fn write_reason(
    text: &mut String,
    names: &Names,
    discipline: DisciplineName,
    choice: &RunChoice,
    tasks: &[Entity],
    rows: &[TaskRow],
) -> Result<(), AllocError>
    requires { length tasks.now ≤ TASKS }
{
    let Some(run) = choice.run else {
        return text.push_str("    nothing runs: nobody is there\n");
    };
    let who = TaskText { names, task: run };
    write!(text, "    {who} runs: ")?;
    if choice.by == By::Discipline {
        choice.asked.write_overruled(text)?;
    }
    match choice_reason(discipline, choice.by, choice.was, choice.run, tasks) {
        Reason::Policy => choice.asked.write_answer(text, Hook::Preempt.word()),
        Reason::EarliestDeadline => {
            let eligible = IdsText { names, rows };
            write!(text, "the earliest deadline of the eligible {eligible}")?;
            write_deadlines(text, names, run, tasks)
        }
        Reason::LeastRuntime => {
            text.push_str("least virtual runtime")?;
            write_equal_runtime(text, names, run, choice.was, tasks)
        }
        Reason::GivesWay { ahead } => {
            write_giving_way(text, names, choice.was, run, ahead)?;
            write_equal_runtime(text, names, run, choice.was, tasks)
        }
        Reason::Stays { ahead, of } => {
            let ahead = Millis(ahead);
            let of = TaskText { names, task: of };
            let bound = Millis(GRANULARITY);
            write!(
                text,
                "{ahead} ms ahead of {of}, and gives way only beyond {bound} ms\n"
            )
        }
        Reason::Nobody | Reason::Other => text.push_str("not the rule's choice\n"),
    }
}
