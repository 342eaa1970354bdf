//! The legend below a map's rows, and the signs of its columns.
ghost use Rattle.std.specs.Prelude.{◌≡◌, ◌<◌, ◌++◌, ◌∷◌, [], ℕ, List, map, length, option_map, OnOk, string_bytes};
ghost use Rattle.bq_schedule.specs.declared.slice.Slice.{Slice};
ghost use Rattle.bq_report.specs.declared.extent.Extent.{Extent};
ghost use Rattle.bq_report.specs.declared.map_row.Column.{Column};
ghost use Rattle.bq_report.specs.Legends.{GrowsAsNoted, Notes, NotesMore};
ghost use Rattle.bq_report.specs.Maps.{IsColumnNote, IsHiddenNote, IsLegend, IsLegendLine, IsLineOfTask, RunsIn, behind_task, column_sign, letter_at, letter_if, lettered_task};
ghost use Rattle.bq_report.specs.Reports.{GrowsByPart, AreParts, IsPartIf};

use crate::admitted_tasks::AdmittedTasks;
use crate::amounts::{MomentText, Unit};
use crate::extent::Extent;
use crate::grid::Grid;
use crate::longest::time_between;
use crate::map_row::Column;
use crate::names::Names;
use bq_schedule::Slice;
use std::alloc::{AllocError, Global};
use std::collections::BTreeSet;

/// The letters of tasks, in the order in which tasks are admitted.
const LETTERS: [char; 62] = [
    'A', 'B', 'C', 'D', 'E', 'F', 'G', 'H', 'I', 'J', 'K', 'L', 'M', 'N', 'O', 'P', 'Q', 'R', 'S',
    'T', 'U', 'V', 'W', 'X', 'Y', 'Z', 'a', 'b', 'c', 'd', 'e', 'f', 'g', 'h', 'i', 'j', 'k', 'l',
    'm', 'n', 'o', 'p', 'q', 'r', 's', 't', 'u', 'v', 'w', 'x', 'y', 'z', '0', '1', '2', '3', '4',
    '5', '6', '7', '8', '9',
];

/// The sign of the tasks that are admitted after the letters are used up.
const BEYOND: char = '*';

/// The sign of a task that is not shown.
const HIDDEN: char = '-';

/// The sign of a column in which the processor was idle.
const IDLE: char = '.';

/// What the rows of a map show.
#[derive(Drop)]
pub(crate) struct Legend {
    /// The tasks that run in the time that is shown.
    ran: BTreeSet<u16>,
    /// The tasks that appear in a column.
    tasks: BTreeSet<u16>,
    /// Whether a column shows that only hidden tasks ran.
    has_hidden: bool,
}

impl Legend {
    /// Returns the legend of no rows yet.
    pub(crate) fn new(alloc: Global) -> Legend
        ensures { (extent : Extent) → Notes extent [] [] result }
    {
        Legend {
            ran: BTreeSet::new(alloc),
            tasks: BTreeSet::new(alloc),
            has_hidden: false,
        }
    }

    /// Notes which tasks run in an extent, of these runs.
    pub(crate) fn note_runs(&mut self, runs: &[Slice], extent: &Extent) -> Result<(), AllocError>
        ensures { OnOk result (NotesMore extent.now runs.now [] self.old self.new) }
    {
        for run in runs {
            self.note_run(run, extent)?;
        }
        Ok(())
    }

    /// Notes the task of a run, if any of the run is in the extent.
    fn note_run(&mut self, run: &Slice, extent: &Extent) -> Result<(), AllocError>
        ensures { OnOk result (NotesMore extent.now (run.now ∷ []) [] self.old self.new) }
    {
        if time_between(run, extent.from, extent.to) > 0 {
            self.ran.insert(run.task)?;
        }
        Ok(())
    }

    /// Notes what columns show.
    pub(crate) fn note_columns(&mut self, columns: &[Column]) -> Result<(), AllocError>
        ensures { OnOk result ((extent : Extent) → NotesMore extent [] columns.now self.old self.new) }
    {
        for column in columns {
            self.note_column(*column)?;
        }
        Ok(())
    }

    /// Notes what a column shows.
    fn note_column(&mut self, column: Column) -> Result<(), AllocError>
        ensures { OnOk result ((extent : Extent) → NotesMore extent [] (column ∷ []) self.old self.new) }
    {
        match column {
            Column::Task(task) => {
                self.tasks.insert(task)?;
            }
            Column::Hidden => self.has_hidden = true,
            Column::Idle => {}
        }
        Ok(())
    }

    /// Adds the legend of a map whose rows are noted.
    pub(crate) fn write(
        &self,
        admitted: &AdmittedTasks,
        grid: &Grid,
        names: &Names,
        text: &mut String,
    ) -> Result<(), AllocError>
        ensures { OnOk result ((runs : List Slice) → (columns : List Column) → Notes grid.now.extent runs columns self.now
            → GrowsByPart (IsLegend names.now admitted.now grid.now runs columns) (string_bytes text.old) (string_bytes text.new)) }
    {
        let unit = Unit::for_step(grid.step);
        let length = MomentText {
            time: grid.step,
            unit,
        };
        write!(text, "\na column is {length}; {IDLE} is idle")?;
        self.write_hidden(text)?;
        text.push_str("\n")?;
        self.write_lines(admitted.tasks(), names, text)
    }

    /// Adds what the sign of hidden tasks means, if a column has that sign.
    fn write_hidden(&self, text: &mut String) -> Result<(), AllocError>
        ensures { OnOk result (GrowsAsNoted self.now (λ extent runs columns. IsHiddenNote columns)
            (string_bytes text.old) (string_bytes text.new)) }
    {
        if !self.has_hidden {
            return Ok(());
        }
        write!(text, "; {HIDDEN} runs a task that is not shown")
    }

    /// Adds the lines of the tasks that run in the time that is shown, in the order of their letters.
    fn write_lines(&self, tasks: &[u16], names: &Names, text: &mut String) -> Result<(), AllocError>
        ensures { OnOk result (GrowsAsNoted self.now (λ extent runs columns. AreParts (IsLegendLine names.now tasks.now extent runs columns) (length tasks.now))
            (string_bytes text.old) (string_bytes text.new)) }
    {
        for place in 0..tasks.len() {
            self.write_line_if(place, tasks[place], names, text)?;
        }
        Ok(())
    }

    /// Adds the line of the task at this place among all that are admitted, if it runs in the time that is shown.
    fn write_line_if(
        &self,
        place: usize,
        task: u16,
        names: &Names,
        text: &mut String,
    ) -> Result<(), AllocError>
        ensures { OnOk result (GrowsAsNoted self.now (λ extent runs columns. IsPartIf ℕ (RunsIn extent runs task) (IsLineOfTask names.now columns place task))
            (string_bytes text.old) (string_bytes text.new)) }
    {
        if !self.ran.contains(&task) {
            return Ok(());
        }
        self.write_line(place, task, names, text)
    }

    /// Adds the line of a task at this place, with a note if it appears in no column.
    fn write_line(
        &self,
        place: usize,
        task: u16,
        names: &Names,
        text: &mut String,
    ) -> Result<(), AllocError>
        ensures { OnOk result (GrowsAsNoted self.now (λ extent runs columns. IsLineOfTask names.now columns place task)
            (string_bytes text.old) (string_bytes text.new)) }
    {
        write_task(place, task, names, text)?;
        self.write_note(task, text)?;
        text.push_str("\n")
    }

    /// Adds a note if a task appears in no column.
    fn write_note(&self, task: u16, text: &mut String) -> Result<(), AllocError>
        ensures { OnOk result (GrowsAsNoted self.now (λ extent runs columns. IsColumnNote columns task)
            (string_bytes text.old) (string_bytes text.new)) }
    {
        if self.tasks.contains(&task) {
            return Ok(());
        }
        text.push_str("  (in no column)")
    }
}

/// Adds the letter of the task at this place, its number, and its name if it has one.
fn write_task(place: usize, task: u16, names: &Names, text: &mut String) -> Result<(), AllocError>
    ensures { OnOk result (string_bytes text.new ≡ string_bytes text.old ++ lettered_task names.now place task) }
{
    let letter = letter_at(place);
    write!(text, "{letter}  task {task}")?;
    write_name(names.of(task), text)
}

/// Adds a task's name, if it has one.
fn write_name(name: Option<&str>, text: &mut String) -> Result<(), AllocError>
    ensures { OnOk result (string_bytes text.new ≡ string_bytes text.old ++ behind_task (option_map (λ name. name.now) name.entry)) }
{
    match name {
        Some(name) => write!(text, "  {name}"),
        None => Ok(()),
    }
}

/// Adds the signs of columns: a task's letter, or the sign of hidden tasks or of an idle processor.
pub(crate) fn write_signs(
    admitted: &AdmittedTasks,
    columns: &[Column],
    text: &mut String,
) -> Result<(), AllocError>
    ensures { OnOk result (string_bytes text.new ≡ string_bytes text.old ++ map (column_sign admitted.now) columns.now) }
{
    for column in columns {
        text.push(sign(admitted, *column))?;
    }
    Ok(())
}

/// Returns the sign of a column.
fn sign(admitted: &AdmittedTasks, column: Column) -> char
    ensures sign { result ≡ column_sign admitted.now column }
    ensures ascii { result < 128 }
{
    match column {
        Column::Task(task) => letter_if(admitted.place(task)),
        Column::Hidden => HIDDEN,
        Column::Idle => IDLE,
    }
}

/// Returns the letter of a task by its place. A task without a place has `*`.
fn letter_if(place: Option<usize>) -> char
    ensures letter { result ≡ letter_if place }
    ensures ascii { result < 128 }
{
    match place {
        Some(place) => letter_at(place),
        None => BEYOND,
    }
}

/// Returns the letter of the task at this place among all that are admitted. `*` if the letters are used up.
fn letter_at(place: usize) -> char
    ensures letter { result ≡ letter_at place }
    ensures ascii { result < 128 }
{
    LETTERS.get(place).copied().unwrap_or(BEYOND)
}
