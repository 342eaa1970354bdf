//! The styles of a picture, and the hatches of its waits. Each rule and each id begins with the name of the picture.

use crate::colours::{COLOURS, DARK, LIGHT, Palette};
use crate::picture_name::PictureName;
use crate::theme::Theme;
use std::alloc::AllocError;

/// Adds the styles of the shapes, and the colours of a theme.
pub fn write_styles(name: PictureName, theme: Theme, text: &mut String) -> Result<(), AllocError> {
    text.push_str("<style>\n")?;
    match theme {
        Theme::Light => write_colours(name, &LIGHT, text)?,
        Theme::Dark => write_colours(name, &DARK, text)?,
        Theme::Auto => {
            write_colours(name, &LIGHT, text)?;
            text.push_str("@media (prefers-color-scheme:dark){\n")?;
            write_colours(name, &DARK, text)?;
            text.push_str("}\n")?;
        }
    }
    for rule in &SHAPES {
        write!(text, ".{name} {rule}\n")?;
    }
    text.push_str("</style>\n")
}

/// The styles that are the same in each theme.
const SHAPES: [&str; 13] = [
    "text{font:16px system-ui,-apple-system,'Segoe UI',Roboto,Helvetica,Arial,sans-serif}",
    ".title{font-size:22px;font-weight:600}",
    ".cpu{font-weight:600}",
    ".in{text-anchor:middle;font-weight:600;pointer-events:none;paint-order:stroke;stroke-width:5px;stroke-linejoin:round}",
    ".middle{text-anchor:middle}",
    ".grid{stroke-width:1}",
    ".run{stroke:none}",
    ".hatch{stroke:none}",
    ".tint{fill-opacity:.22}",
    ".wait{stroke-width:1}",
    ".arrow{stroke-width:1.5}",
    ".link{fill:none;stroke-width:2.5}",
    ".dashed{stroke-dasharray:6 4}",
];

/// Adds the colours of a theme.
fn write_colours(
    name: PictureName,
    palette: &Palette,
    text: &mut String,
) -> Result<(), AllocError> {
    write_fill(name, "text", palette.ink, text)?;
    write_fill(name, ".small", palette.faint, text)?;
    write_fill(name, ".page", palette.page, text)?;
    write_fill(name, ".band", palette.band, text)?;
    write_stroke(name, ".grid", palette.grid, text)?;
    for place in 0..COLOURS {
        write_task(name, place, palette.tasks[place], text)?;
        write_letters(
            name,
            place,
            palette.letters[place],
            palette.tasks[place],
            text,
        )?;
    }
    Ok(())
}

/// Adds the rule that fills what a selector names with a colour.
fn write_fill(
    name: PictureName,
    what: &str,
    colour: &str,
    text: &mut String,
) -> Result<(), AllocError> {
    write!(text, ".{name} {what}{{fill:{colour}}}\n")
}

/// Adds the rule that draws the lines of what a selector names in a colour, and fills nothing.
fn write_stroke(
    name: PictureName,
    what: &str,
    colour: &str,
    text: &mut String,
) -> Result<(), AllocError> {
    write!(text, ".{name} {what}{{stroke:{colour};fill:none}}\n")
}

/// Adds the colour of tasks, and of what is hatched in it.
fn write_task(
    name: PictureName,
    place: usize,
    colour: &str,
    text: &mut String,
) -> Result<(), AllocError> {
    write!(text, ".{name} .c{place}{{fill:{colour};stroke:{colour}}}\n")?;
    write!(
        text,
        ".{name} .w{place}{{fill:url(#{name}-h{place});stroke:{colour}}}\n"
    )
}

/// Adds the colour of text on tasks of one colour. The text has an edge in that colour, for names that are wider than their runs.
fn write_letters(
    name: PictureName,
    place: usize,
    colour: &str,
    edge: &str,
    text: &mut String,
) -> Result<(), AllocError> {
    write!(text, ".{name} .l{place}{{fill:{colour};stroke:{edge}}}\n")
}

/// Adds the hatches of the colours, and the page.
pub fn write_hatches(name: PictureName, text: &mut String) -> Result<(), AllocError> {
    text.push_str("<defs>\n")?;
    for place in 0..COLOURS {
        write_hatch(name, place, text)?;
        write_hatch_lines(place, text)?;
    }
    text.push_str("</defs>\n<rect class=\"page\" width=\"100%\" height=\"100%\"/>\n")
}

/// Adds the beginning of the hatch of a colour.
fn write_hatch(name: PictureName, place: usize, text: &mut String) -> Result<(), AllocError> {
    write!(
        text,
        "<pattern id=\"{name}-h{place}\" width=\"6\" height=\"6\" patternUnits=\"userSpaceOnUse\" patternTransform=\"rotate(45)\">"
    )
}

/// Adds what is inside the hatch of a colour.
fn write_hatch_lines(place: usize, text: &mut String) -> Result<(), AllocError> {
    write!(
        text,
        "<rect class=\"c{place} hatch tint\" width=\"6\" height=\"6\"/>"
    )?;
    write!(
        text,
        "<rect class=\"c{place} hatch\" width=\"2.4\" height=\"6\"/></pattern>\n"
    )
}
