//! The row of a processor: what is drawn in it, and where it begins and ends.
ghost use Rattle.std.specs.Prelude.{◌≡◌, ◌+◌, ◌*◌, ◌++◌, IfOk, OnOk, flat_map, string_bytes};
ghost use Rattle.bq_disc.specs.Counts.{saturating_sum};
ghost use Rattle.bq_drawing.specs.Holdings.{row_with_run, row_with_wait, row_with_wake, waking};
ghost use Rattle.bq_drawing.specs.Scales.{band_height, lane_height, level_height, row_gap};
ghost use Rattle.bq_drawing.specs.Rows.{ArePutInOrder, empty_drawing_row};
ghost use Rattle.bq_drawing.specs.Frames.{picture_setting};
ghost use Rattle.bq_drawing.specs.Shapes.{drawn_run_text, label_text};
ghost use Rattle.bq_drawing.specs.Writing.{IsRowWritten};

use crate::frame::Frame;
use crate::lanes::TaskInterval;
use crate::row_lanes::{count_levels, draw_waits, draw_wakes};
use crate::shapes::{BAND, DrawnRun, GAP, LANE, LEVEL, write_label, write_row_name, write_run};
use crate::written_rows::WrittenRows;
use bq_schedule::Wake;
use std::alloc::{AllocError, Global};
use std::marker::Model;

/// The height above the wakes of a row.
const ABOVE: usize = 4;

/// What is drawn of a processor, in the order in which it came.
#[derive(Drop)]
pub struct ProcessorRow {
    runs: Vec<DrawnRun>,
    waits: Vec<TaskInterval>,
    wakes: Vec<TaskInterval>,
}

impl Model for ProcessorRow {
    ghost use Rattle.bq_drawing.specs.Rows.{DrawingRow};

    ghost Value = { DrawingRow };

    ghost view = { λ r. record { runs = r.runs.items; waits = r.waits.items; wakes = r.wakes.items } };
}

impl ProcessorRow {
    /// Returns a row with nothing in it.
    pub(crate) fn new(alloc: Global) -> ProcessorRow
        ensures { result ≡ empty_drawing_row }
    {
        ProcessorRow {
            runs: Vec::new(alloc),
            waits: Vec::new(alloc),
            wakes: Vec::new(alloc),
        }
    }

    /// Adds a run.
    pub(crate) fn push_run(&mut self, run: DrawnRun) -> Result<(), AllocError>
        ensures { OnOk result (self.new ≡ row_with_run run self.old) }
    {
        self.runs.push(run)?;
        Ok(())
    }

    /// Adds a wait.
    pub(crate) fn push_wait(&mut self, wait: TaskInterval) -> Result<(), AllocError>
        ensures { OnOk result (self.new ≡ row_with_wait wait self.old) }
    {
        self.waits.push(wait)?;
        Ok(())
    }

    /// Adds a wake.
    pub(crate) fn push_wake(&mut self, wake: &Wake) -> Result<(), AllocError>
        ensures { OnOk result (self.new ≡ row_with_wake (waking wake.now) self.old) }
    {
        self.wakes.push(TaskInterval {
            from: wake.at,
            to: wake.at,
            task: wake.task,
        })?;
        Ok(())
    }

    /// Adds the names on the runs.
    fn write_labels(
        &self,
        top: usize,
        frame: &Frame<'_>,
        labels: &mut String,
    ) -> Result<(), AllocError>
        ensures { OnOk result (string_bytes labels.new ≡ string_bytes labels.old ++ flat_map (label_text (picture_setting frame.now) top) self.now.runs) }
    {
        for run in self.runs.iter() {
            write_label(run, top, frame, labels)?;
        }
        Ok(())
    }

    /// Draws the row below the rows that are written.
    pub(crate) fn write(
        &self,
        alloc: Global,
        number: u8,
        frame: &Frame<'_>,
        rows: &mut WrittenRows,
    ) -> Result<(), AllocError>
        ensures { OnOk result (IsRowWritten (picture_setting frame.now) number self.now rows.old rows.new) }
    {
        let waits = in_order(alloc, self.waits.as_slice())?;
        let wakes = in_order(alloc, self.wakes.as_slice())?;
        let levels = count_levels(alloc, wakes.as_slice(), frame)?;
        let top = band_top(rows.bottom, levels);
        rows.bands.insert(number, top)?;
        write_row_name(number, top, &mut rows.text)?;
        write_runs(alloc, self.runs.as_slice(), top, frame, &mut rows.text)?;
        self.write_labels(top, frame, &mut rows.labels)?;
        let below = draw_waits(alloc, waits.as_slice(), top, frame)?;
        let above = draw_wakes(alloc, wakes.as_slice(), top, frame)?;
        rows.text.push_str(below.text.as_str())?;
        rows.text.push_str(above.text.as_str())?;
        rows.waits_left_out = rows.waits_left_out.saturating_add(below.left_out);
        rows.wakes_left_out = rows.wakes_left_out.saturating_add(above.left_out);
        rows.bottom = row_end(top, below.lanes);
        Ok(())
    }
}

/// Returns the waits or the wakes of a row in the order in which they begin.
fn in_order(alloc: Global, given: &[TaskInterval]) -> Result<Vec<TaskInterval>, AllocError>
    ensures { IfOk result (λ sorted. ArePutInOrder given.now sorted.items) }
{
    let mut sorted = Vec::from_slice(alloc, given)?;
    sorted.sort_unstable();
    Ok(sorted)
}

/// Returns where the band of a row begins that is below this height and has this many levels of wakes above it.
fn band_top(bottom: usize, levels: usize) -> usize
    ensures { result ≡ saturating_sum bottom (levels * level_height + 4) }
{
    bottom
        .saturating_add(levels.saturating_mul(LEVEL))
        .saturating_add(ABOVE)
}

/// Returns where a row ends whose band begins at `top` and has this many lanes of waits below it.
fn row_end(top: usize, lanes: usize) -> usize
    ensures { result ≡ saturating_sum top (band_height + (lanes * lane_height + row_gap)) }
{
    top.saturating_add(BAND)
        .saturating_add(lanes.saturating_mul(LANE))
        .saturating_add(GAP)
}

/// Draws the runs.
fn write_runs(
    alloc: Global,
    runs: &[DrawnRun],
    top: usize,
    frame: &Frame<'_>,
    text: &mut String,
) -> Result<(), AllocError>
    ensures { OnOk result (string_bytes text.new ≡ string_bytes text.old ++ flat_map (drawn_run_text (picture_setting frame.now) top) runs.now) }
{
    for run in runs {
        write_run(alloc, run, top, frame, text)?;
    }
    Ok(())
}
