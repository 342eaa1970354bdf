//! The map: a row for each processor, a column for each step of time, a letter for each task.
ghost use Rattle.std.specs.Prelude.{◌≡◌, ◌++◌, [], List, length, replicate, OnOk, OnErr, string_bytes};
ghost use Rattle.bq_report.specs.Legends.{DrawsRows};
ghost use Rattle.bq_report.specs.MapRows.{RunsRow};
ghost use Rattle.bq_report.specs.Maps.{RowsHold, HoldsLast, HoldsPart, IsDrawn, IsDrawnBy, IsHeldPart, IsMap, KeepsSettings, columns_in, empty_map_row, map_row_text, step_over};
ghost use Rattle.bq_report.specs.Reports.{GrowsByPart};
ghost use Rattle.bq_report.specs.AdmittedTasks.{with_admitted};

use crate::admitted_tasks::AdmittedTasks;
use crate::extent::Extent;
use crate::form::ScheduleForm;
use crate::grid::Grid;
use crate::legend::{Legend, write_signs};
use crate::map_row::{Column, MapRow};
use crate::names::Names;
use crate::steps::round_step;
use crate::window::Window;
use bq_disc::limits::PROCESSORS;
use bq_schedule::{Change, Schedule, Slice};
use std::alloc::{AllocError, Global};

/// How wide the names of the rows are.
const MARGIN: usize = 8;

/// A row for each processor, a column for each step of time. A column shows the letter of the shown task that ran longest in it, `-`
/// if only hidden tasks ran, and `.` if nothing ran for longer. The map holds the runs, because the step depends on where the trace ends.
#[derive(Drop)]
pub struct Map {
    alloc: Global,
    window: Window,
    width: usize,
    admitted: AdmittedTasks,
    rows: Vec<MapRow>,
}

impl Map {
    /// Returns a map of the window, this many columns wide.
    pub fn new(alloc: Global, window: Window, width: usize) -> Map
        ensures given { (result.window ≡ window) × (result.width ≡ width) }
        ensures empty { (result.admitted ≡ []) × (result.rows.items ≡ []) }
    {
        Map {
            alloc,
            window,
            width,
            admitted: AdmittedTasks::new(alloc),
            rows: Vec::new(alloc),
        }
    }

    /// Holds the part of a run that is in the window, whether its task is shown or not. If memory runs out, nothing changes.
    fn hold(&mut self, run: Option<Slice>) -> Result<(), AllocError>
        ensures ok { OnOk result (RowsHold self.old.window run self.old.rows.items self.new.rows.items) }
        ensures fault { OnErr result (self.new.rows.items ≡ self.old.rows.items) }
        ensures unchanged { KeepsSettings self.old self.new }
    {
        match held_part(self.alloc, &self.window, run) {
            Some(run) => hold_part(&self.window, run, &mut self.rows),
            None => Ok(()),
        }
    }

    /// Holds the last run of each processor, which may still go on when the schedule ends.
    fn hold_last(&mut self, schedule: &Schedule) -> Result<(), AllocError>
        ensures rows { OnOk result (HoldsLast self.old.window schedule.now PROCESSORS self.old.rows.items self.new.rows.items) }
        ensures unchanged { KeepsSettings self.old self.new }
    {
        for number in 0..PROCESSORS {
            self.hold(schedule.processor(number).run)?;
        }
        Ok(())
    }

    /// Adds the map over an extent. Adds nothing if the extent is longer than any clock counts.
    fn write_over(
        &mut self,
        extent: &Extent,
        names: &Names,
        text: &mut String,
    ) -> Result<(), AllocError>
        ensures { OnOk result (GrowsByPart
            (IsDrawnBy self.old.window names.now self.old.admitted self.old.rows.items extent.now (step_over extent.now self.old.width))
            (string_bytes text.old) (string_bytes text.new)) }
    {
        match round_step(extent.length(), columns_in(self.width)) {
            Some(step) => self.write_columns(&Grid::new(extent, step), names, text),
            None => Ok(()),
        }
    }

    /// Adds the map of these columns.
    fn write_columns(
        &mut self,
        grid: &Grid,
        names: &Names,
        text: &mut String,
    ) -> Result<(), AllocError>
        ensures { OnOk result (GrowsByPart (IsDrawn self.old.window names.now self.old.admitted self.old.rows.items grid.now)
            (string_bytes text.old) (string_bytes text.new)) }
    {
        grid.write_ruler(self.alloc, text)?;
        let mut legend = Legend::new(self.alloc);
        write_rows(
            self.alloc,
            &self.window,
            &mut self.rows,
            &self.admitted,
            grid,
            &mut legend,
            text,
        )?;
        legend.write(&self.admitted, grid, names, text)
    }
}

/// Adds this many rows without a run.
fn add_rows(alloc: Global, count: usize, rows: &mut Vec<MapRow>) -> Result<(), AllocError>
    ensures { OnOk result (rows.new.items ≡ rows.old.items ++ replicate count empty_map_row) }
{
    for _ in 0..count {
        rows.push(MapRow::new(alloc))?;
    }
    Ok(())
}

/// Returns the part of a run that is in the window at a shown processor, whether its task is shown or not.
fn held_part(alloc: Global, window: &Window, run: Option<Slice>) -> Option<Slice>
    ensures { IsHeldPart window.now run result }
{
    window.with_every_task(alloc).shown_part(run)
}

/// Holds a part of a run in its processor's row, if there is one. If memory runs out, nothing changes.
fn hold_part(window: &Window, run: Slice, rows: &mut Vec<MapRow>) -> Result<(), AllocError>
    ensures ok { OnOk result (HoldsPart window.now (Some run) rows.old.items rows.new.items) }
    ensures fault { OnErr result (rows.new.items ≡ rows.old.items) }
{
    let is_shown = window.shows_task(run.task);
    let number = usize::from(run.processor);
    if number < rows.len() {
        let row = &mut rows[number];
        row.hold(run, is_shown)?;
    }
    Ok(())
}

/// Returns how many columns of a line show steps of time: at least 1.
fn columns_in(width: usize) -> u16
    ensures { result ≡ columns_in width }
{
    u16::try_from(width.saturating_sub(MARGIN))
        .unwrap_or(u16::MAX)
        .max(1)
}

/// Adds the lines of the shown rows, and notes which tasks run there and what the columns show.
fn write_rows(
    alloc: Global,
    window: &Window,
    rows: &mut Vec<MapRow>,
    admitted: &AdmittedTasks,
    grid: &Grid,
    legend: &mut Legend,
    text: &mut String,
) -> Result<(), AllocError>
    ensures { OnOk result (DrawsRows window.now rows.old.items admitted.now grid.now (length rows.old.items)
        legend.old legend.new (string_bytes text.old) (string_bytes text.new)) }
{
    for number in 0..rows.len() {
        if window.shows_row(number) {
            let row = &mut rows[number];
            legend.note_runs(row.shown(), &grid.extent)?;
            let columns = row.columns(alloc, grid)?;
            write_row(admitted, number, columns.as_slice(), text)?;
            legend.note_columns(columns.as_slice())?;
        }
    }
    Ok(())
}

/// Adds the line of a row with these columns.
fn write_row(
    admitted: &AdmittedTasks,
    number: usize,
    columns: &[Column],
    text: &mut String,
) -> Result<(), AllocError>
    ensures { OnOk result (string_bytes text.new ≡ string_bytes text.old ++ map_row_text admitted.now number columns.now) }
{
    write!(text, "cpu {number:<4}")?;
    write_signs(admitted, columns, text)?;
    text.push_str("\n")
}

impl ScheduleForm for Map {
    /// Adds a row for each processor. The text stays as it is.
    fn begin(
        &mut self,
        schedule: &Schedule,
        _names: &Names,
        text: &mut String,
    ) -> Result<(), AllocError>
        ensures rows { OnOk result (self.new.rows.items ≡ self.old.rows.items ++ replicate (length schedule.now.processors) empty_map_row) }
        ensures none { string_bytes text.new ≡ string_bytes text.old }
        ensures unchanged { KeepsSettings self.old self.new }
    {
        add_rows(self.alloc, schedule.processors(), &mut self.rows)
    }

    /// Gives a task the next letter, unless it has one.
    fn admit(&mut self, task: u16) -> Result<(), AllocError>
        ensures ok { OnOk result (self.new ≡ record self.old { admitted = with_admitted task self.old.admitted }) }
        ensures fault { OnErr result (self.new ≡ self.old) }
    {
        self.admitted.admit(task)
    }

    /// Holds the run that ends, if there is one. The text stays as it is.
    fn add_change(
        &mut self,
        change: &Change,
        _schedule: &Schedule,
        _names: &Names,
        text: &mut String,
    ) -> Result<(), AllocError>
        ensures ok { OnOk result (RowsHold self.old.window change.now.run self.old.rows.items self.new.rows.items) }
        ensures fault { OnErr result (self.new.rows.items ≡ self.old.rows.items) }
        ensures none { string_bytes text.new ≡ string_bytes text.old }
        ensures unchanged { KeepsSettings self.old self.new }
    {
        self.hold(change.run)
    }

    /// Holds the last runs, and adds the map.
    fn end(
        &mut self,
        schedule: &Schedule,
        names: &Names,
        text: &mut String,
    ) -> Result<(), AllocError>
        ensures { OnOk result ((rows : List RunsRow) × HoldsLast self.old.window schedule.now PROCESSORS self.old.rows.items rows
            × GrowsByPart (IsMap self.old.window names.now schedule.now self.old.admitted self.old.width rows) (string_bytes text.old) (string_bytes text.new)) }
    {
        self.hold_last(schedule)?;
        match Extent::of(schedule, &self.window) {
            Some(extent) => self.write_over(&extent, names, text),
            None => text.push_str("no time passes in what is shown\n"),
        }
    }
}
