//! The lines between rows: pulls and migrations.
ghost use Rattle.std.specs.Prelude.{◌≡◌, ◌++◌, OnOk, codes, string_bytes};
ghost use Rattle.bq_drawing.specs.declared.links.LinkKind.TheVariants.{Migration, Pull};
ghost use Rattle.bq_drawing.specs.Links.{act_text, dot_text, link_end, enters_at, head_text, height_left, leaves_at, link_text, link_between, link_title, name_head, same_kind};
ghost use Rattle.bq_drawing.specs.Frames.{picture_setting};

use crate::frame::Frame;
use crate::scale::Hundredths;
use crate::shapes::BAND;
use std::alloc::AllocError;

/// Why a line leads from one row to another.
#[derive(Clone, Copy)]
pub enum LinkKind {
    /// A task that waited at one processor was pulled by another.
    Pull,
    /// A task started at another processor than the one where it ran last.
    Migration,
}

/// A moment at a processor.
#[derive(Clone, Copy)]
pub struct Spot {
    pub processor: u8,
    pub at: u64,
}

/// A line from one row to another.
#[derive(Clone, Copy)]
pub struct RowLink {
    pub kind: LinkKind,
    pub task: u16,
    pub from: Spot,
    pub to: Spot,
}

/// The ends of a line, each with its place and its height.
#[derive(Clone, Copy)]
struct Line {
    left: Hundredths,
    begin: usize,
    right: Hundredths,
    end: usize,
    is_down: bool,
}

impl LinkKind {
    /// Tells whether both kinds are the same.
    pub fn is_same(self, other: LinkKind) -> bool
        ensures { result ≡ same_kind self other }
    {
        match (self, other) {
            (LinkKind::Pull, LinkKind::Pull) => true,
            (LinkKind::Migration, LinkKind::Migration) => true,
            _ => false,
        }
    }
}

impl RowLink {
    /// Draws the line between two bands that begin at these heights.
    pub fn write(
        &self,
        top_from: usize,
        top_to: usize,
        frame: &Frame<'_>,
        text: &mut String,
    ) -> Result<(), AllocError>
        ensures { OnOk result (string_bytes text.new ≡ string_bytes text.old ++ link_between (picture_setting frame.now) self.now top_from top_to) }
    {
        let begin = leaves_at(top_from, top_to);
        let end = ends_at(top_from, top_to);
        let line = Line {
            left: frame.scale.place(self.from.at),
            begin: self.enters_at(begin, end, frame.scale.extent.from),
            right: frame.scale.place(self.to.at),
            end,
            is_down: top_from < top_to,
        };
        let colour = frame.colour(self.task);
        write_group(text)?;
        write_line(self.kind, colour, &line, text)?;
        self.write_title(frame, text)
    }

    /// Returns the height at which a line between two heights enters a picture that begins at a moment.
    fn enters_at(&self, begin: usize, end: usize, first: u64) -> usize
        ensures { result ≡ enters_at self.now begin end first }
    {
        if first <= self.from.at {
            return begin;
        }
        let height = self.height_left(begin, end, first);
        if begin < end {
            end.saturating_sub(height)
        } else {
            end.saturating_add(height)
        }
    }

    /// Returns how much of the height between the line's ends is left from a moment on.
    fn height_left(&self, begin: usize, end: usize, first: u64) -> usize
        ensures { result ≡ height_left self.now begin end first }
    {
        let whole = self.to.at.saturating_sub(self.from.at);
        let shown = self.to.at.saturating_sub(first);
        let height = (begin.abs_diff(end) as u64).saturating_mul(shown) / whole.max(1);
        height as usize
    }

    /// Adds the tooltip of the line.
    fn write_title(&self, frame: &Frame<'_>, text: &mut String) -> Result<(), AllocError>
        ensures { OnOk result (string_bytes text.new ≡ string_bytes text.old ++ link_title (picture_setting frame.now) self.now) }
    {
        write_name_head(self.task, frame, text)?;
        write_act(self.kind, self.from.processor, self.to.processor, text)?;
        let at = frame.amount(self.to.at);
        let unit = frame.unit.name();
        write!(text, " at {at} {unit}</title></g>\n")
    }
}

/// Returns the height at which a line leaves its band: at the edge that is nearer to the other band.
fn leaves_at(top_from: usize, top_to: usize) -> usize
    ensures { result ≡ leaves_at top_from top_to }
{
    if top_from < top_to {
        top_from.saturating_add(BAND)
    } else {
        top_from
    }
}

/// Returns the height at which a line ends: at the nearer edge of the other band.
fn ends_at(top_from: usize, top_to: usize) -> usize
    ensures { result ≡ link_end top_from top_to }
{
    if top_from < top_to {
        top_to
    } else {
        top_to.saturating_add(BAND)
    }
}

/// Adds the beginning of a tooltip, with the name of the task.
fn write_name_head(task: u16, frame: &Frame<'_>, text: &mut String) -> Result<(), AllocError>
    ensures { OnOk result (string_bytes text.new ≡ string_bytes text.old ++ name_head (picture_setting frame.now) task) }
{
    text.push_str("<title>")?;
    frame.write_name(task, usize::MAX, text)
}

/// Adds what a line means.
fn write_act(kind: LinkKind, from: u8, to: u8, text: &mut String) -> Result<(), AllocError>
    ensures { OnOk result (string_bytes text.new ≡ string_bytes text.old ++ act_text kind from to) }
{
    match kind {
        LinkKind::Pull => write!(text, " is pulled from cpu {from} by cpu {to}"),
        LinkKind::Migration => write!(text, " migrates from cpu {from} to cpu {to}"),
    }
}

/// Adds the beginning of a group.
fn write_group(text: &mut String) -> Result<(), AllocError>
    ensures { OnOk result (string_bytes text.new ≡ string_bytes text.old ++ codes "<g>") }
{
    text.push_str("<g>")
}

/// Adds a line in a colour, and its end.
fn write_line(
    kind: LinkKind,
    colour: usize,
    line: &Line,
    text: &mut String,
) -> Result<(), AllocError>
    ensures { OnOk result (string_bytes text.new
        ≡ string_bytes text.old ++ link_text kind colour line.now.left.0 line.now.begin line.now.right.0 line.now.end line.now.is_down) }
{
    match kind {
        LinkKind::Pull => write_arrow_line(colour, line, text),
        LinkKind::Migration => write_dashed_line(colour, line, text),
    }
}

/// Adds an arrow.
fn write_arrow_line(colour: usize, line: &Line, text: &mut String) -> Result<(), AllocError>
    ensures { OnOk result (string_bytes text.new
        ≡ string_bytes text.old ++ link_text Pull colour line.now.left.0 line.now.begin line.now.right.0 line.now.end line.now.is_down) }
{
    let Line {
        left,
        begin,
        right,
        end,
        is_down,
    } = *line;
    write!(
        text,
        "<path class=\"c{colour} link\" d=\"M{left} {begin}L{right} {end}\"/>"
    )?;
    write_head(colour, right, end, is_down, text)
}

/// Adds a dashed line to a dot.
fn write_dashed_line(colour: usize, line: &Line, text: &mut String) -> Result<(), AllocError>
    ensures { OnOk result (string_bytes text.new
        ≡ string_bytes text.old ++ link_text Migration colour line.now.left.0 line.now.begin line.now.right.0 line.now.end line.now.is_down) }
{
    let Line {
        left,
        begin,
        right,
        end,
        ..
    } = *line;
    write!(
        text,
        "<path class=\"c{colour} link dashed\" d=\"M{left} {begin}L{right} {end}\"/>"
    )?;
    write_dot(colour, right, end, text)
}

/// Adds the head of an arrow that ends at this place.
fn write_head(
    colour: usize,
    place: Hundredths,
    end: usize,
    is_down: bool,
    text: &mut String,
) -> Result<(), AllocError>
    ensures { OnOk result (string_bytes text.new ≡ string_bytes text.old ++ head_text colour place.0 end is_down) }
{
    if is_down {
        write!(
            text,
            "<path class=\"c{colour} run\" d=\"M{place} {end}l-5 -10h10z\"/>"
        )
    } else {
        write!(
            text,
            "<path class=\"c{colour} run\" d=\"M{place} {end}l-5 10h10z\"/>"
        )
    }
}

/// Adds a dot.
fn write_dot(
    colour: usize,
    place: Hundredths,
    height: usize,
    text: &mut String,
) -> Result<(), AllocError>
    ensures { OnOk result (string_bytes text.new ≡ string_bytes text.old ++ dot_text colour place.0 height) }
{
    write!(
        text,
        "<circle class=\"c{colour} run\" cx=\"{place}\" cy=\"{height}\" r=\"4.5\"/>"
    )
}
