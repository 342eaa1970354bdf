//! Notes on what is asked for and is not there, on what waits, and on bad and refused lines.
ghost use Rattle.std.specs.Prelude.{◌≡◌, ◌++◌, OnOk, Some, string_bytes};
ghost use Rattle.std.specs.List.{list_any};
ghost use Rattle.bq_schedule.specs.Figures.{task_in_figures};
ghost use Rattle.bq_timeline.specs.Notes.{absent_notes, is_number, lacks_processors, lacks_tasks, past_note, processors_note, reaches, tasks_note, bad_or_refused_note, unmade_note, waiting_note, waiting_notes};

use crate::screen::Part;
use crate::tasks_by_name::NO_TASK;
use bq_disc::limits::{PROCESSORS, TASKS};
use bq_lines::with_first_line;
use bq_schedule::Schedule;
use std::alloc::AllocError;

/// Adds a note if none of the tasks exists that are asked for by number, one if none of the processors exists that are asked
/// for, and one if the trace ends before the first moment that is asked for.
pub(crate) fn note_absent(
    notes: &mut String,
    schedule: &Schedule,
    tasks: &[u16],
    part: Part,
) -> Result<(), AllocError>
    ensures { OnOk result (string_bytes notes.new ≡ string_bytes notes.old ++ absent_notes (Some schedule.now) tasks.now part) }
{
    note_tasks(notes, schedule, tasks)?;
    note_processors(notes, schedule.processors(), part.processors)?;
    note_past(notes, schedule, part.from)
}

/// Adds a note if no clock of the trace reaches the first moment that is asked for.
fn note_past(notes: &mut String, schedule: &Schedule, from: u64) -> Result<(), AllocError>
    ensures { OnOk result (string_bytes notes.new ≡ string_bytes notes.old ++ past_note schedule.now from) }
{
    if reaches(schedule, from) {
        return Ok(());
    }
    notes.push_str("--from: the trace ends before that time\n")
}

/// Tells whether the clock of a processor reaches a moment.
#[tactic(auto, using(crate::proofs::NoteLemmas::reaches_none, crate::proofs::NoteLemmas::reaches_more))]
fn reaches(schedule: &Schedule, from: u64) -> bool
    ensures { result ≡ reaches schedule.now from PROCESSORS }
{
    let mut is_reached = false;
    for number in 0..PROCESSORS {
        is_reached = is_reached || from <= schedule.processor(number).last;
    }
    is_reached
}

/// Adds a note if tasks are asked for by number and none of them exists.
fn note_tasks(notes: &mut String, schedule: &Schedule, tasks: &[u16]) -> Result<(), AllocError>
    ensures { OnOk result (string_bytes notes.new ≡ string_bytes notes.old ++ tasks_note schedule.now tasks.now) }
{
    if !lacks_tasks(schedule, tasks) {
        return Ok(());
    }
    notes.push_str("--tasks: there is no task with such a number\n")
}

/// Tells whether tasks are asked for by number and none of them was admitted.
fn lacks_tasks(schedule: &Schedule, tasks: &[u16]) -> bool
    ensures { result ≡ lacks_tasks schedule.now tasks.now }
{
    has_number(tasks) && !admits_any(schedule, tasks)
}

/// Tells whether a task is asked for by number. Names have notes of their own.
fn has_number(tasks: &[u16]) -> bool
    ensures { result ≡ list_any is_number tasks.now }
{
    tasks.iter().any(|id| *id < NO_TASK)
}

/// Tells whether one of some tasks was ever admitted.
fn admits_any(schedule: &Schedule, tasks: &[u16]) -> bool
    ensures { result ≡ list_any (λ id. (task_in_figures schedule.now id).is_admitted) tasks.now }
{
    tasks.iter().any(|id| is_admitted(schedule, *id))
}

/// Tells whether a task was ever admitted.
fn is_admitted(schedule: &Schedule, id: u16) -> bool
    ensures { result ≡ (task_in_figures schedule.now id).is_admitted }
{
    schedule.task(id).is_admitted
}

/// Adds a note if none of the processors that the bits name is one of this many.
fn note_processors(notes: &mut String, count: usize, processors: u64) -> Result<(), AllocError>
    ensures { OnOk result (string_bytes notes.new ≡ string_bytes notes.old ++ processors_note count processors) }
{
    if !lacks_processors(count, processors) {
        return Ok(());
    }
    write!(
        notes,
        "--cpus: the machine has none of these processors; how many it has: {count}\n"
    )
}

/// Tells whether none of the processors that the bits name is one of this many.
fn lacks_processors(count: usize, processors: u64) -> bool
    ensures { result ≡ lacks_processors count processors }
{
    count < usize::from(PROCESSORS) && processors % (1u64 << count) == 0
}

/// Adds a note that no line made a machine, if no line was bad or refused.
pub(crate) fn note_unmade(notes: &mut String, bad_or_refused: u64) -> Result<(), AllocError>
    ensures { OnOk result (string_bytes notes.new ≡ string_bytes notes.old ++ unmade_note bad_or_refused) }
{
    if bad_or_refused != 0 {
        return Ok(());
    }
    notes.push_str(with_first_line!(
        "the trace makes no machine, so there is nothing to show: ",
        "\n"
    ))
}

/// Notes each task that was placed on a processor that was never drained after.
pub(crate) fn note_waiting(notes: &mut String, schedule: &Schedule) -> Result<(), AllocError>
    ensures { OnOk result (string_bytes notes.new ≡ string_bytes notes.old ++ waiting_notes schedule.now TASKS) }
{
    for task in 0..TASKS {
        note_task(notes, task, schedule.undrained(task))?;
    }
    Ok(())
}

/// Notes a task that was placed on a processor that was never drained after, if there is such a processor.
fn note_task(notes: &mut String, task: u16, processor: Option<u8>) -> Result<(), AllocError>
    ensures { OnOk result (string_bytes notes.new ≡ string_bytes notes.old ++ waiting_note task processor) }
{
    match processor {
        Some(processor) => write!(
            notes,
            "task {task} was placed on processor {processor}, which was never drained after\n"
        ),
        None => Ok(()),
    }
}

/// Adds a note on how many lines were bad or refused, if any were.
pub(crate) fn note_bad_or_refused(notes: &mut String, bad_or_refused: u64) -> Result<(), AllocError>
    ensures { OnOk result (string_bytes notes.new ≡ string_bytes notes.old ++ bad_or_refused_note bad_or_refused) }
{
    if bad_or_refused == 0 {
        return Ok(());
    }
    write!(notes, "lines bad or refused: {bad_or_refused}\n")
}
