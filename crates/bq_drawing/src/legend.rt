//! The legend: the tasks with their colours, what the shapes mean, and what found no room.
ghost use Rattle.std.specs.Prelude.{◌≡◌, ◌++◌, OnOk, string_bytes};
ghost use Rattle.bq_drawing.specs.Legends.{entry_text, key_text, key_top, leaves_out, left_out_text, legend_height, legend_text, migration_key, task_number_text, pull_key, short_name, swatch_text, text_if, wait_key, wake_key};
ghost use Rattle.bq_drawing.specs.Frames.{picture_setting};

use crate::colours::GREY;
use crate::frame::Frame;
use crate::lanes::LANES;
use crate::scale::LEFT;
use std::alloc::AllocError;

/// How many tasks are in a line of the legend.
const ABREAST: usize = 4;

/// How wide a task is in the legend.
const COLUMN: usize = 270;

/// How high a line of the legend is.
pub const LINE: usize = 28;

/// How many characters of a name are in the legend.
const SHORT: usize = 18;

/// What the legend explains besides the tasks.
#[derive(Clone, Copy)]
pub struct Key {
    /// Whether a pull is drawn.
    pub has_pulls: bool,
    /// Whether a migration is drawn.
    pub has_migrations: bool,
    /// How many waits found no room.
    pub waits_left_out: usize,
    /// How many wakes found no room.
    pub wakes_left_out: usize,
}

impl Key {
    /// Tells whether something found no room.
    fn leaves_out(&self) -> bool
        ensures { result ≡ leaves_out self.now }
    {
        self.waits_left_out > 0 || self.wakes_left_out > 0
    }
}

/// Returns how high the legend of this many tasks is, with this key.
pub fn legend_height(tasks: usize, key: &Key) -> usize
    ensures { result ≡ legend_height tasks key.now }
{
    let rest = if key.leaves_out() { 2 } else { 1 };
    tasks
        .div_ceil(ABREAST)
        .saturating_add(rest)
        .saturating_mul(LINE)
}

/// Adds the legend of these tasks, from this height on.
pub fn write_legend(
    tasks: &[u16],
    key: &Key,
    first: usize,
    frame: &Frame<'_>,
    text: &mut String,
) -> Result<(), AllocError>
    ensures { OnOk result (string_bytes text.new ≡ string_bytes text.old ++ legend_text (picture_setting frame.now) tasks.now key.now first) }
{
    for (place, task) in tasks.iter().enumerate() {
        write_entry(place, *task, first, frame, text)?;
    }
    let top = key_top(tasks.len(), first);
    write_key(key, top, text)?;
    write_left_out(key, top.saturating_add(LINE).saturating_add(14), text)
}

/// Returns the height of the key, below this many tasks.
fn key_top(tasks: usize, first: usize) -> usize
    ensures { result ≡ key_top tasks first }
{
    tasks
        .div_ceil(ABREAST)
        .saturating_mul(LINE)
        .saturating_add(first)
}

/// Adds a task at its place in the legend.
fn write_entry(
    place: usize,
    task: u16,
    first: usize,
    frame: &Frame<'_>,
    text: &mut String,
) -> Result<(), AllocError>
    ensures { OnOk result (string_bytes text.new ≡ string_bytes text.old ++ entry_text (picture_setting frame.now) first place task) }
{
    let left = (place % ABREAST)
        .saturating_mul(COLUMN)
        .saturating_add(LEFT as usize);
    let top = (place / ABREAST).saturating_mul(LINE).saturating_add(first);
    write_swatch(frame.colour(task), left, top, text)?;
    write_short_name(task, frame, text)
}

/// Adds a colour of the legend, and the beginning of the name beside it.
fn write_swatch(colour: usize, left: usize, top: usize, text: &mut String) -> Result<(), AllocError>
    ensures { OnOk result (string_bytes text.new ≡ string_bytes text.old ++ swatch_text colour left top) }
{
    let right = left.saturating_add(26);
    let line = top.saturating_add(15);
    write!(
        text,
        "<rect class=\"run c{colour}\" x=\"{left}\" y=\"{top}\" width=\"18\" height=\"18\" rx=\"2\"/>"
    )?;
    write!(text, "<text x=\"{right}\" y=\"{line}\">")
}

/// Adds the name of a task in the legend, and its number.
fn write_short_name(task: u16, frame: &Frame<'_>, text: &mut String) -> Result<(), AllocError>
    ensures { OnOk result (string_bytes text.new ≡ string_bytes text.old ++ short_name (picture_setting frame.now) task) }
{
    frame.write_name(task, SHORT, text)?;
    write_number(frame.names.of(task).is_some(), task, text)?;
    text.push_str("</text>\n")
}

/// Adds the number of a task after its name, if it has one.
fn write_number(is_named: bool, task: u16, text: &mut String) -> Result<(), AllocError>
    ensures { OnOk result (string_bytes text.new ≡ string_bytes text.old ++ task_number_text is_named task) }
{
    if !is_named {
        return Ok(());
    }
    write!(text, " ({task})")
}

/// Adds what the shapes mean.
fn write_key(key: &Key, top: usize, text: &mut String) -> Result<(), AllocError>
    ensures { OnOk result (string_bytes text.new ≡ string_bytes text.old ++ key_text key.now top) }
{
    let line = top.saturating_add(14);
    let height = top.saturating_add(9);
    write_wait_key(top.saturating_add(5), line, text)?;
    write_wake_key(top.saturating_add(3), line, text)?;
    write_pull_key(key.has_pulls, height, line, text)?;
    write_migration_key(key.has_migrations, height, line, text)?;
    write!(text, "\n")
}

/// Adds what hatches mean.
fn write_wait_key(bar: usize, line: usize, text: &mut String) -> Result<(), AllocError>
    ensures { OnOk result (string_bytes text.new ≡ string_bytes text.old ++ wait_key bar line) }
{
    write!(
        text,
        "<rect class=\"wait w{GREY}\" x=\"{LEFT}\" y=\"{bar}\" width=\"30\" height=\"8\"/>"
    )?;
    write!(
        text,
        "<text class=\"small\" x=\"110\" y=\"{line}\">waits</text>"
    )
}

/// Adds what arrows above a row mean.
fn write_wake_key(begin: usize, line: usize, text: &mut String) -> Result<(), AllocError>
    ensures { OnOk result (string_bytes text.new ≡ string_bytes text.old ++ wake_key begin line) }
{
    write!(
        text,
        "<path class=\"arrow c{GREY}\" d=\"M198 {begin}v11l-4 -6h8l-4 6\"/>"
    )?;
    write!(
        text,
        "<text class=\"small\" x=\"212\" y=\"{line}\">is woken</text>"
    )
}

/// Adds what arrows between rows mean, if there are any.
fn write_pull_key(
    has_pulls: bool,
    height: usize,
    line: usize,
    text: &mut String,
) -> Result<(), AllocError>
    ensures { OnOk result (string_bytes text.new ≡ string_bytes text.old ++ text_if has_pulls (pull_key height line)) }
{
    if !has_pulls {
        return Ok(());
    }
    write!(
        text,
        "<path class=\"c{GREY} link\" d=\"M324 {height}h30\"/><path class=\"c{GREY} run\" d=\"M356 {height}l-10 -5v10z\"/>"
    )?;
    write!(
        text,
        "<text class=\"small\" x=\"366\" y=\"{line}\">is pulled</text>"
    )
}

/// Adds what dashed lines between rows mean, if there are any.
fn write_migration_key(
    has_migrations: bool,
    height: usize,
    line: usize,
    text: &mut String,
) -> Result<(), AllocError>
    ensures { OnOk result (string_bytes text.new ≡ string_bytes text.old ++ text_if has_migrations (migration_key height line)) }
{
    if !has_migrations {
        return Ok(());
    }
    write!(
        text,
        "<path class=\"c{GREY} link dashed\" d=\"M478 {height}h30\"/><circle class=\"c{GREY} run\" cx=\"508\" cy=\"{height}\" r=\"4.5\"/>"
    )?;
    write!(
        text,
        "<text class=\"small\" x=\"520\" y=\"{line}\">runs on another processor than before</text>"
    )
}

/// Adds how much found no room, if anything did not.
fn write_left_out(key: &Key, line: usize, text: &mut String) -> Result<(), AllocError>
    ensures { OnOk result (string_bytes text.new ≡ string_bytes text.old ++ text_if (leaves_out key.now) (left_out_text key.now line)) }
{
    if !key.leaves_out() {
        return Ok(());
    }
    let waits = key.waits_left_out;
    let wakes = key.wakes_left_out;
    write!(
        text,
        "<text class=\"small\" x=\"{LEFT}\" y=\"{line}\">left out, beyond {LANES} at a time: waits {waits}, wakes {wakes}</text>\n"
    )
}
