//! The heading of a picture: its title, the discipline, and the time that it is drawn over.
ghost use Rattle.std.specs.Prelude.{◌≡◌, ◌++◌, OnOk, string_bytes};
ghost use Rattle.bq_drawing.specs.Headings.{acronym, heading_text, discipline_text, span_text, times_text, title_text};
ghost use Rattle.bq_drawing.specs.Frames.{picture_setting};

use crate::escaped::write_escaped;
use crate::frame::Frame;
use crate::scale::LEFT;
use bq_words::DisciplineName;
use std::alloc::AllocError;

/// How many characters of a title are written above the picture.
const MOST_TITLE_CHARACTERS: usize = 90;

/// The heading above a picture.
#[derive(Clone, Copy)]
pub struct Heading<'a> {
    /// The title of the picture.
    pub title: &'a str,
    /// The discipline by which processors choose, once it is known.
    pub discipline: Option<DisciplineName>,
}

impl Heading<'_> {
    /// Adds the title, and below it the discipline and the time that the picture is drawn over.
    pub fn write(&self, frame: &Frame<'_>, text: &mut String) -> Result<(), AllocError>
        ensures { OnOk result (string_bytes text.new ≡ string_bytes text.old ++ heading_text (picture_setting frame.now) self.now.title.now self.now.discipline) }
    {
        write_title(self.title, text)?;
        write_span(self.discipline, frame, text)
    }
}

/// Adds the title, cut if it is long.
fn write_title(title: &str, text: &mut String) -> Result<(), AllocError>
    ensures { OnOk result (string_bytes text.new ≡ string_bytes text.old ++ title_text title.now) }
{
    write!(text, "<text class=\"title\" x=\"{LEFT}\" y=\"34\">")?;
    write_escaped(title, MOST_TITLE_CHARACTERS, text)?;
    text.push_str("</text>\n")
}

/// Adds the line below the title: the discipline and the time.
fn write_span(
    discipline: Option<DisciplineName>,
    frame: &Frame<'_>,
    text: &mut String,
) -> Result<(), AllocError>
    ensures { OnOk result (string_bytes text.new ≡ string_bytes text.old ++ span_text (picture_setting frame.now) discipline) }
{
    write!(text, "<text class=\"small\" x=\"{LEFT}\" y=\"58\">")?;
    write_discipline(discipline, text)?;
    write_times(frame, text)
}

/// Adds the discipline, if it is known.
fn write_discipline(discipline: Option<DisciplineName>, text: &mut String) -> Result<(), AllocError>
    ensures { OnOk result (string_bytes text.new ≡ string_bytes text.old ++ discipline_text discipline) }
{
    let Some(discipline) = discipline else {
        return Ok(());
    };
    let acronym = acronym(discipline);
    write!(text, "{acronym}, ")
}

/// Adds the time that the picture is drawn over.
fn write_times(frame: &Frame<'_>, text: &mut String) -> Result<(), AllocError>
    ensures { OnOk result (string_bytes text.new ≡ string_bytes text.old ++ times_text (picture_setting frame.now)) }
{
    let from = frame.amount(frame.scale.extent.from);
    let to = frame.amount(frame.scale.extent.to);
    let unit = frame.unit.name();
    write!(text, "{from} to {to} {unit}</text>\n")
}

/// Returns the name of a discipline.
fn acronym(discipline: DisciplineName) -> &'static str
    ensures { result.now ≡ acronym discipline }
{
    match discipline {
        DisciplineName::Cfs => "CFS",
        DisciplineName::Eevdf => "EEVDF",
    }
}
