//! An aligned table of figures.

use crate::cells::{cell, deviation_of, difference_deviation_of, difference_of, mean_of, signed};
use crate::difference::Difference;
use crate::labels::{is_time, name_of_figure, subject_text, word_of_figure};
use crate::line::FigureLine;
use std::alloc::{AllocError, Global};

/// The head of a table without others.
const HEAD: &str =
    "of             name            figure        unit          mean     deviation\n";

/// The head of a table with others, below a line that says which side is which.
const WIDE_HEAD: &str = concat!(
    "against: with the policies of --against; difference: against less mean, seed by seed\n",
    "of             name            figure        unit          mean     deviation       against     deviation    difference     deviation\n",
);

/// Writes one line for each figure, below the head of a table with others or without. Times are in microseconds.
pub(crate) fn table_text(
    alloc: Global,
    has_others: bool,
    lines: &[FigureLine],
    names: &[String],
) -> Result<String, AllocError> {
    let head = if has_others { WIDE_HEAD } else { HEAD };
    let mut text = String::from_str(alloc, head)?;
    for line in lines {
        write_label(alloc, &mut text, line, names)?;
        write_cells(alloc, &mut text, line)?;
        text.push_str("\n")?;
    }
    Ok(text)
}

/// Writes what the figure is of, the name of its task, its word and the unit.
fn write_label(
    alloc: Global,
    text: &mut String,
    line: &FigureLine,
    names: &[String],
) -> Result<(), AllocError> {
    let figure = line.ours.figure;
    let subject = subject_text(alloc, figure)?;
    let name = name_of_figure(figure, names);
    let word = word_of_figure(figure);
    let unit = if is_time(figure) { "us" } else { "" };
    write!(text, "{subject:<14} {name:<15.15} {word:<13} {unit:<4}")
}

/// Writes the means and the deviations of a line, and those of the differences.
fn write_cells(alloc: Global, text: &mut String, line: &FigureLine) -> Result<(), AllocError> {
    let is_time = is_time(line.ours.figure);
    write_cell(alloc, text, is_time, line.ours.mean)?;
    write_cell(alloc, text, is_time, line.ours.deviation)?;
    if line.theirs.is_none() {
        return Ok(());
    }
    write_cell(alloc, text, is_time, mean_of(line.theirs))?;
    write_cell(alloc, text, is_time, deviation_of(line.theirs))?;
    let difference = shown_difference(is_time, difference_of(line.paired));
    write_padded(text, signed(alloc, difference, "-")?.as_str())?;
    write_cell(alloc, text, is_time, difference_deviation_of(line.paired))
}

/// Writes a value in its unit as a cell, or `-` if there is no value.
fn write_cell(
    alloc: Global,
    text: &mut String,
    is_time: bool,
    value: Option<u128>,
) -> Result<(), AllocError> {
    let shown = match value {
        Some(value) => Some(in_unit(is_time, value)),
        None => None,
    };
    write_padded(text, cell(alloc, shown, "-")?.as_str())
}

/// Writes a cell at the width of its column.
fn write_padded(text: &mut String, cell: &str) -> Result<(), AllocError> {
    write!(text, " {cell:>13}")
}

/// Returns the difference in thousandths of the unit that it is shown in.
fn shown_difference(is_time: bool, difference: Option<Difference>) -> Option<Difference> {
    match difference {
        Some(Difference::More(size)) => Some(Difference::More(in_unit(is_time, size))),
        Some(Difference::Less(size)) => Some(Difference::Less(in_unit(is_time, size))),
        None => None,
    }
}

/// Returns a value in thousandths of the unit that it is shown in. Of a time that is its nanoseconds, thousandths of a microsecond.
fn in_unit(is_time: bool, value: u128) -> u128 {
    if is_time { value / 1000 } else { value }
}
