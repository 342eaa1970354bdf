//! The shapes of a row: its name, its runs, the waits below them, and the wakes above.
ghost use Rattle.std.specs.Prelude.{◌≡◌, ◌++◌, IfOk, OnOk, codes, string_bytes};
ghost use Rattle.bq_drawing.specs.Frames.{picture_setting};
ghost use Rattle.bq_drawing.specs.Shapes.{arrow_text, band_text, hatched_text, label_start, label_text, latency_text, name_upon, number_within, number_width, rectangle_text, row_name, drawn_run_text, run_times, run_title, run_waits, wait_height, wait_text, wait_times, wake_height, drawn_wake_text, wake_time};

use crate::frame::Frame;
use crate::lanes::TaskInterval;
use crate::scale::{Hundredths, LEFT, WIDTH};
use bq_schedule::{Slice, Start};
use std::alloc::{AllocError, Global};

/// How high a run is drawn.
pub const BAND: usize = 36;

/// How high a wait is drawn, with the space above it.
pub const LANE: usize = 12;

/// How high a wake is drawn, with the space below it.
pub const LEVEL: usize = 13;

/// How far the line of a name is below the upper edge of a band.
const NAME: usize = 24;

/// The height between two rows.
pub const GAP: usize = 24;

/// The shown part of a run, and how the run began.
#[derive(Clone, Copy)]
pub struct DrawnRun {
    pub task: u16,
    pub from: u64,
    pub to: u64,
    pub waited: u64,
    pub latency: Option<u64>,
}

impl DrawnRun {
    ghost use Rattle.bq_drawing.specs.Holdings.{drawn_run};

    /// Returns what is drawn of this part of a run with this start.
    pub fn of(start: &Start, part: &Slice) -> DrawnRun
        ensures { result ≡ drawn_run start.now part.now }
    {
        DrawnRun {
            task: part.task,
            from: part.from,
            to: part.to,
            waited: start.waited,
            latency: start.latency,
        }
    }
}

/// Adds the name of a row, and the band in which its runs are drawn.
pub fn write_row_name(number: u8, top: usize, text: &mut String) -> Result<(), AllocError>
    ensures { OnOk result (string_bytes text.new ≡ string_bytes text.old ++ (band_text top ++ row_name number top)) }
{
    let line = top.saturating_add(NAME);
    write!(
        text,
        "<rect class=\"band\" x=\"{LEFT}\" y=\"{top}\" width=\"{WIDTH}\" height=\"{BAND}\"/>\n"
    )?;
    write!(
        text,
        "<text class=\"cpu\" x=\"10\" y=\"{line}\">cpu {number}</text>\n"
    )
}

/// Adds a run, with a tooltip that says all of it.
pub fn write_run(
    alloc: Global,
    run: &DrawnRun,
    top: usize,
    frame: &Frame<'_>,
    text: &mut String,
) -> Result<(), AllocError>
    ensures { OnOk result (string_bytes text.new ≡ string_bytes text.old ++ drawn_run_text (picture_setting frame.now) top run.now) }
{
    let title = run_title(alloc, run, frame)?;
    write_rectangle(run, top, frame, text)?;
    write_title(title.as_str(), text)
}

/// Adds the rectangle of a run.
fn write_rectangle(
    run: &DrawnRun,
    top: usize,
    frame: &Frame<'_>,
    text: &mut String,
) -> Result<(), AllocError>
    ensures { OnOk result (string_bytes text.new ≡ string_bytes text.old ++ rectangle_text (picture_setting frame.now) top run.now) }
{
    let place = frame.scale.place(run.from);
    let width = frame.scale.width(run.from, run.to);
    let colour = frame.colour(run.task);
    write!(
        text,
        "<g><rect class=\"run c{colour}\" x=\"{place}\" y=\"{top}\" width=\"{width}\" height=\"{BAND}\" rx=\"2\"/>"
    )
}

/// Adds a tooltip, and the end of the group that it belongs to.
fn write_title(title: &str, text: &mut String) -> Result<(), AllocError>
    ensures { OnOk result (string_bytes text.new ≡ string_bytes text.old ++ (title.now ++ codes "</g>\n")) }
{
    write!(text, "{title}</g>\n")
}

/// Adds the name of a run's task on the run, or the task's number if there is no room for the name. Adds nothing if there is room for
/// neither.
pub fn write_label(
    run: &DrawnRun,
    top: usize,
    frame: &Frame<'_>,
    labels: &mut String,
) -> Result<(), AllocError>
    ensures { OnOk result (string_bytes labels.new ≡ string_bytes labels.old ++ label_text (picture_setting frame.now) top run.now) }
{
    let place = frame.scale.place(run.from);
    let width = frame.scale.width(run.from, run.to);
    let middle = Hundredths(place.0.saturating_add(width.0 / 2));
    if width.0 < frame.label_width(run.task) {
        return write_number_within(width, run.task, middle, top, frame, labels);
    }
    write_run_name(run.task, middle, top, frame, labels)
}

/// Adds the name of a run's task, around this place.
fn write_run_name(
    task: u16,
    middle: Hundredths,
    top: usize,
    frame: &Frame<'_>,
    text: &mut String,
) -> Result<(), AllocError>
    ensures { OnOk result (string_bytes text.new ≡ string_bytes text.old ++ name_upon (picture_setting frame.now) task middle.0 top) }
{
    write_label_start(task, middle, top, frame, text)?;
    frame.write_name(task, usize::MAX, text)?;
    text.push_str("</text>\n")
}

/// Returns the width that a task's number needs: ten units for each digit, and ten more.
fn number_width(task: u16) -> u64
    ensures { result ≡ number_width task }
{
    if task < 10 {
        2_000
    } else if task < 100 {
        3_000
    } else if task < 1_000 {
        4_000
    } else {
        5_000
    }
}

/// Adds a task's number around this place, if that much width has room for it.
fn write_number_within(
    width: Hundredths,
    task: u16,
    middle: Hundredths,
    top: usize,
    frame: &Frame<'_>,
    text: &mut String,
) -> Result<(), AllocError>
    ensures { OnOk result (string_bytes text.new ≡ string_bytes text.old ++ number_within (picture_setting frame.now) width.0 task middle.0 top) }
{
    if width.0 < number_width(task) {
        return Ok(());
    }
    write_label_start(task, middle, top, frame, text)?;
    write!(text, "{task}</text>\n")
}

/// Adds the beginning of a label of this task, around this place.
fn write_label_start(
    task: u16,
    middle: Hundredths,
    top: usize,
    frame: &Frame<'_>,
    text: &mut String,
) -> Result<(), AllocError>
    ensures { OnOk result (string_bytes text.new ≡ string_bytes text.old ++ label_start (picture_setting frame.now) task middle.0 top) }
{
    let line = top.saturating_add(NAME);
    let colour = frame.colour(task);
    write!(
        text,
        "<text class=\"in l{colour}\" x=\"{middle}\" y=\"{line}\">"
    )
}

/// Returns the tooltip of a run.
fn run_title(alloc: Global, run: &DrawnRun, frame: &Frame<'_>) -> Result<String, AllocError>
    ensures { IfOk result (λ title. string_bytes title ≡ run_title (picture_setting frame.now) run.now) }
{
    let mut text = String::new(alloc);
    text.push_str("<title>")?;
    frame.write_name(run.task, usize::MAX, &mut text)?;
    write_run_times(run, frame, &mut text)?;
    write_run_waits(run, frame, &mut text)?;
    text.push_str("</title>")?;
    Ok(text)
}

/// Adds when a run begins and ends, and how long it is.
fn write_run_times(run: &DrawnRun, frame: &Frame<'_>, text: &mut String) -> Result<(), AllocError>
    ensures { OnOk result (string_bytes text.new ≡ string_bytes text.old ++ run_times (picture_setting frame.now) run.now) }
{
    let task = run.task;
    let from = frame.amount(run.from);
    let to = frame.amount(run.to);
    let length = frame.amount(run.to.saturating_sub(run.from));
    let unit = frame.unit.name();
    write!(text, " ({task}) runs {from} to {to} {unit}: ")?;
    write!(text, "{length} {unit}")
}

/// Adds how long the task waited for a run.
fn write_run_waits(run: &DrawnRun, frame: &Frame<'_>, text: &mut String) -> Result<(), AllocError>
    ensures { OnOk result (string_bytes text.new ≡ string_bytes text.old ++ run_waits (picture_setting frame.now) run.now) }
{
    let waited = frame.amount(run.waited);
    let unit = frame.unit.name();
    write!(text, ", after {waited} {unit} of waiting")?;
    write_latency(run.latency, frame, text)
}

/// Adds how long after its wake a run began, if that is known.
fn write_latency(
    latency: Option<u64>,
    frame: &Frame<'_>,
    text: &mut String,
) -> Result<(), AllocError>
    ensures { OnOk result (string_bytes text.new ≡ string_bytes text.old ++ latency_text frame.now.unit latency) }
{
    let Some(latency) = latency else {
        return Ok(());
    };
    let latency = frame.amount(latency);
    let unit = frame.unit.name();
    write!(text, ", {latency} {unit} since its wake")
}

/// Returns the height of a wait in this lane, below the band that begins at `top`.
pub fn wait_height(top: usize, lane: usize) -> usize
    ensures { result ≡ wait_height top lane }
{
    lane.saturating_mul(LANE)
        .saturating_add(BAND)
        .saturating_add(top)
        .saturating_add(3)
}

/// Adds a wait, hatched.
pub fn write_wait(
    wait: &TaskInterval,
    height: usize,
    frame: &Frame<'_>,
    text: &mut String,
) -> Result<(), AllocError>
    ensures { OnOk result (string_bytes text.new ≡ string_bytes text.old ++ wait_text (picture_setting frame.now) height wait.now) }
{
    write_hatched(wait, height, frame, text)?;
    frame.write_name(wait.task, usize::MAX, text)?;
    write_wait_times(wait, frame, text)
}

/// Adds the hatched rectangle of a wait, up to the name in its tooltip.
fn write_hatched(
    wait: &TaskInterval,
    height: usize,
    frame: &Frame<'_>,
    text: &mut String,
) -> Result<(), AllocError>
    ensures { OnOk result (string_bytes text.new ≡ string_bytes text.old ++ hatched_text (picture_setting frame.now) height wait.now) }
{
    let place = frame.scale.place(wait.from);
    let width = frame.scale.width(wait.from, wait.to);
    let colour = frame.colour(wait.task);
    write!(
        text,
        "<rect class=\"wait w{colour}\" x=\"{place}\" y=\"{height}\" width=\"{width}\" height=\"8\"><title>"
    )
}

/// Adds when a wait begins and ends.
fn write_wait_times(
    wait: &TaskInterval,
    frame: &Frame<'_>,
    text: &mut String,
) -> Result<(), AllocError>
    ensures { OnOk result (string_bytes text.new ≡ string_bytes text.old ++ wait_times (picture_setting frame.now) wait.now) }
{
    let from = frame.amount(wait.from);
    let to = frame.amount(wait.to);
    let unit = frame.unit.name();
    write!(text, " waits {from} to {to} {unit}</title></rect>\n")
}

/// Returns the height at which the arrow of a wake at this level ends, above the band that begins at `top`.
pub fn wake_height(top: usize, level: usize) -> usize
    ensures { result ≡ wake_height top level }
{
    top.saturating_sub(level.saturating_mul(LEVEL))
}

/// Adds a wake, as an arrow that ends at this height.
pub fn write_wake(
    wake: &TaskInterval,
    end: usize,
    frame: &Frame<'_>,
    text: &mut String,
) -> Result<(), AllocError>
    ensures { OnOk result (string_bytes text.new ≡ string_bytes text.old ++ drawn_wake_text (picture_setting frame.now) end wake.now) }
{
    write_arrow(wake, end, frame, text)?;
    frame.write_name(wake.task, usize::MAX, text)?;
    write_wake_time(wake, frame, text)
}

/// Adds the arrow of a wake, up to the name in its tooltip.
fn write_arrow(
    wake: &TaskInterval,
    end: usize,
    frame: &Frame<'_>,
    text: &mut String,
) -> Result<(), AllocError>
    ensures { OnOk result (string_bytes text.new ≡ string_bytes text.old ++ arrow_text (picture_setting frame.now) end wake.now) }
{
    let place = frame.scale.place(wake.from);
    let colour = frame.colour(wake.task);
    let begin = end.saturating_sub(12);
    write!(
        text,
        "<path class=\"arrow c{colour}\" d=\"M{place} {begin}v11l-4 -6h8l-4 6\"><title>"
    )
}

/// Adds when a wake happens.
fn write_wake_time(
    wake: &TaskInterval,
    frame: &Frame<'_>,
    text: &mut String,
) -> Result<(), AllocError>
    ensures { OnOk result (string_bytes text.new ≡ string_bytes text.old ++ wake_time (picture_setting frame.now) wake.now) }
{
    let at = frame.amount(wake.from);
    let unit = frame.unit.name();
    write!(text, " is woken at {at} {unit}</title></path>\n")
}
