//! The waits and the wakes of a row, each in its lane.
ghost use Rattle.std.specs.Prelude.{◌≡◌, ◌++◌, [], IfOk, OnOk, length, string_bytes};
ghost use Rattle.bq_disc.specs.Counts.{saturating_sum};
ghost use Rattle.bq_drawing.specs.Lanes.{lanes_after, left_out, without_lane};
ghost use Rattle.bq_drawing.specs.Frames.{picture_setting};
ghost use Rattle.bq_drawing.specs.Shapes.{arrow_of, shape_in, wait_in, waits_text, wake_in, wakes_text};

use crate::frame::Frame;
use crate::lanes::{Lanes, TaskInterval};
use crate::shapes::{wait_height, wake_height, write_wait, write_wake};
use std::alloc::{AllocError, Global};

/// The waits or the wakes of a row, as they are drawn.
#[derive(Drop)]
pub(crate) struct LaneShapes {
    pub(crate) text: String,
    /// How many lanes they take.
    pub(crate) lanes: usize,
    /// How many of them found no lane.
    pub(crate) left_out: usize,
}

/// Returns how many levels the wakes need, so that no two arrows overlap.
pub(crate) fn count_levels(
    alloc: Global,
    wakes: &[TaskInterval],
    frame: &Frame<'_>,
) -> Result<usize, AllocError>
    ensures { IfOk result (λ levels. levels ≡ length (lanes_after (arrow_of frame.now.scale.extent) [] wakes.now)) }
{
    let mut levels = Lanes::new(alloc);
    for wake in wakes {
        let _ = levels.allot(&drawn_wake(wake, frame))?;
    }
    Ok(levels.count())
}

/// Draws the waits below the runs, in lanes.
pub(crate) fn draw_waits(
    alloc: Global,
    waits: &[TaskInterval],
    top: usize,
    frame: &Frame<'_>,
) -> Result<LaneShapes, AllocError>
    ensures text { IfOk result (λ drawn. string_bytes drawn.text ≡ waits_text (picture_setting frame.now) top waits.now) }
    ensures lanes { IfOk result (λ drawn. drawn.lanes ≡ length (lanes_after (λ wait. wait) [] waits.now)) }
    ensures left_out { IfOk result (λ drawn. drawn.left_out ≡ saturating_sum 0 (left_out (λ wait. wait) [] waits.now)) }
{
    let mut lanes = Lanes::new(alloc);
    let mut text = String::new(alloc);
    let mut left_out = 0usize;
    for wait in waits {
        let lane = lanes.allot(wait)?;
        write_wait_in(lane, wait, top, frame, &mut text)?;
        left_out = left_out.saturating_add(without_lane(lane));
    }
    let lanes = lanes.count();
    Ok(LaneShapes {
        text,
        lanes,
        left_out,
    })
}

/// Draws the wakes above the runs. Wakes that would overlap are drawn one above another.
pub(crate) fn draw_wakes(
    alloc: Global,
    wakes: &[TaskInterval],
    top: usize,
    frame: &Frame<'_>,
) -> Result<LaneShapes, AllocError>
    ensures text { IfOk result (λ drawn. string_bytes drawn.text ≡ wakes_text (picture_setting frame.now) top wakes.now) }
    ensures left_out { IfOk result (λ drawn. drawn.left_out ≡ saturating_sum 0 (left_out (arrow_of frame.now.scale.extent) [] wakes.now)) }
{
    let mut lanes = Lanes::new(alloc);
    let mut text = String::new(alloc);
    let mut left_out = 0usize;
    for wake in wakes {
        let level = lanes.allot(&drawn_wake(wake, frame))?;
        write_wake_in(level, wake, top, frame, &mut text)?;
        left_out = left_out.saturating_add(without_lane(level));
    }
    let lanes = lanes.count();
    Ok(LaneShapes {
        text,
        lanes,
        left_out,
    })
}

/// Returns 1 if an interval found no lane, otherwise 0.
fn without_lane(lane: Option<usize>) -> usize
    ensures { result ≡ without_lane lane }
{
    match lane {
        Some(_) => 0,
        None => 1,
    }
}

/// Draws a wait in its lane, if it found one.
fn write_wait_in(
    lane: Option<usize>,
    wait: &TaskInterval,
    top: usize,
    frame: &Frame<'_>,
    text: &mut String,
) -> Result<(), AllocError>
    ensures { OnOk result (string_bytes text.new ≡ string_bytes text.old ++ shape_in (wait_in (picture_setting frame.now) top) lane wait.now) }
{
    match lane {
        Some(lane) => write_wait(wait, wait_height(top, lane), frame, text),
        None => Ok(()),
    }
}

/// Draws a wake at its level, if it found one.
fn write_wake_in(
    level: Option<usize>,
    wake: &TaskInterval,
    top: usize,
    frame: &Frame<'_>,
    text: &mut String,
) -> Result<(), AllocError>
    ensures { OnOk result (string_bytes text.new ≡ string_bytes text.old ++ shape_in (wake_in (picture_setting frame.now) top) level wake.now) }
{
    match level {
        Some(level) => write_wake(wake, wake_height(top, level), frame, text),
        None => Ok(()),
    }
}

/// Returns a wake, made as long as its arrow is wide.
fn drawn_wake(wake: &TaskInterval, frame: &Frame<'_>) -> TaskInterval
    ensures { result ≡ arrow_of frame.now.scale.extent wake.now }
{
    TaskInterval {
        from: wake.from,
        to: wake.from.saturating_add(frame.scale.arrow()),
        task: wake.task,
    }
}
