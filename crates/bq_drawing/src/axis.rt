//! The axis of time.
ghost use Rattle.std.specs.Prelude.{◌≡◌, ◌++◌, OnOk, string_bytes};
ghost use Rattle.bq_drawing.specs.Axes.{axis_name, axis_text, first_axis_line, grid_count, grid_line, line_at, mark_if};
ghost use Rattle.bq_drawing.specs.Frames.{picture_setting};

use crate::frame::Frame;
use crate::scale::{Hundredths, LEFT, Scale, WIDTH};
use std::alloc::AllocError;

/// How high the axis is below the rows, with its numbers and its name.
pub const AXIS: usize = 48;

/// How far the numbers are below the rows.
const NUMBERS: usize = 20;

/// How far the name of the axis is below the rows.
const NAME: usize = 42;

/// How many lines the axis has at most.
const MOST_LINES: u8 = 12;

/// Adds the axis of time: lines at each multiple of `step` ns, from above the rows to below them, and the axis's name.
pub fn write_axis(
    step: u64,
    frame: &Frame<'_>,
    top: usize,
    bottom: usize,
    text: &mut String,
) -> Result<(), AllocError>
    ensures { OnOk result (string_bytes text.new ≡ string_bytes text.old ++ axis_text (picture_setting frame.now) step top bottom) }
{
    for number in 0..MOST_LINES {
        let at = line_at(step, number, &frame.scale);
        write_mark(at, frame, top, bottom, text)?;
    }
    write_axis_name(frame.unit.name(), bottom.saturating_add(NAME), text)
}

/// Returns the moment of a line: `number` steps after the first line.
fn line_at(step: u64, number: u8, scale: &Scale) -> u64
    ensures { result ≡ line_at scale.now.extent step number }
{
    first_line(step, scale).saturating_add(step.saturating_mul(u64::from(number)))
}

/// Returns the first multiple of the step that is not before the time that is drawn.
fn first_line(step: u64, scale: &Scale) -> u64
    ensures { result ≡ first_axis_line scale.now.extent step }
{
    scale.extent.from.div_ceil(step.max(1)).saturating_mul(step)
}

/// Adds a line of the axis and its number, if the line's moment is drawn.
fn write_mark(
    at: u64,
    frame: &Frame<'_>,
    top: usize,
    bottom: usize,
    text: &mut String,
) -> Result<(), AllocError>
    ensures { OnOk result (string_bytes text.new ≡ string_bytes text.old ++ mark_if (picture_setting frame.now) top bottom at) }
{
    if at > frame.scale.extent.to {
        return Ok(());
    }
    let place = frame.scale.place(at);
    let count = at / frame.unit.length();
    write_grid_line(place, top, bottom, text)?;
    write_grid_count(place, bottom.saturating_add(NUMBERS), count, text)
}

/// Adds a line of the axis.
fn write_grid_line(
    place: Hundredths,
    top: usize,
    bottom: usize,
    text: &mut String,
) -> Result<(), AllocError>
    ensures { OnOk result (string_bytes text.new ≡ string_bytes text.old ++ grid_line place.0 top bottom) }
{
    write!(text, "<path class=\"grid\" d=\"M{place} {top}V{bottom}\"/>")
}

/// Adds the number at a line of the axis.
fn write_grid_count(
    place: Hundredths,
    line: usize,
    count: u64,
    text: &mut String,
) -> Result<(), AllocError>
    ensures { OnOk result (string_bytes text.new ≡ string_bytes text.old ++ grid_count place.0 line count) }
{
    write!(
        text,
        "<text class=\"small middle\" x=\"{place}\" y=\"{line}\">{count}</text>\n"
    )
}

/// Adds the name of the axis, with the name of its unit.
fn write_axis_name(name: &str, line: usize, text: &mut String) -> Result<(), AllocError>
    ensures { OnOk result (string_bytes text.new ≡ string_bytes text.old ++ axis_name name.now line) }
{
    let middle = LEFT + WIDTH / 2;
    write!(
        text,
        "<text class=\"small middle\" x=\"{middle}\" y=\"{line}\">time in {name}</text>\n"
    )
}
