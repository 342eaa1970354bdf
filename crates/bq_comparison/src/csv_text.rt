//! Figures as comma-separated values.

use crate::cells::{cell, deviation_of, difference_deviation_of, difference_of, mean_of, signed};
use crate::labels::{name_of_figure, subject_text, unit_of_figure, word_of_figure};
use crate::line::FigureLine;
use crate::{Figure, FigureRow, PairedRow};
use csv::{Error, Writer, WriterBuilder};
use std::alloc::{AllocError, Global};

/// The first row.
const HEAD: &str =
    "of,name,figure,unit,runs,mean,deviation,against_runs,against_mean,against_deviation,difference,difference_deviation,difference_runs\n";

/// Writes one row for each figure. Times are in nanoseconds, and what is not there is left empty.
pub(crate) fn csv_text(
    alloc: Global,
    lines: &[FigureLine],
    names: &[String],
) -> Result<String, AllocError> {
    let mut text = String::from_str(alloc, HEAD)?;
    for line in lines {
        write_line(alloc, &mut text, line, names)?;
    }
    Ok(text)
}

/// Adds the row of a figure. Each field is a `str`, so the row is UTF-8, and no byte of it is replaced.
fn write_line(
    alloc: Global,
    text: &mut String,
    line: &FigureLine,
    names: &[String],
) -> Result<(), AllocError> {
    let bytes = row(alloc, line, names)?;
    let row = String::from_utf8_lossy(alloc, bytes.as_slice())?;
    text.push_str(row.as_str())
}

/// Makes the row of a figure, with its line end.
fn row(alloc: Global, line: &FigureLine, names: &[String]) -> Result<Vec<u8>, AllocError> {
    let mut writer = WriterBuilder::new().from_writer(Vec::new(alloc));
    write_label(alloc, &mut writer, line.ours.figure, names)?;
    write_side(alloc, &mut writer, Some(line.ours))?;
    write_side(alloc, &mut writer, line.theirs)?;
    write_differences(alloc, &mut writer, line.paired)?;
    match ended(writer) {
        Ok(bytes) => Ok(bytes),
        Err(_) => Err(AllocError),
    }
}

/// Writes what a figure is of, the name of its task, its word and its unit.
fn write_label(
    alloc: Global,
    writer: &mut Writer<Vec<u8>>,
    figure: Figure,
    names: &[String],
) -> Result<(), AllocError> {
    write_field(writer, subject_text(alloc, figure)?.as_str())?;
    write_field(writer, name_of_figure(figure, names))?;
    write_field(writer, word_of_figure(figure))?;
    write_field(writer, unit_of_figure(figure))
}

/// Writes how many runs of a side have a value, their mean and their deviation; of a side that is not there three empty fields.
fn write_side(
    alloc: Global,
    writer: &mut Writer<Vec<u8>>,
    side: Option<FigureRow>,
) -> Result<(), AllocError> {
    match side {
        Some(side) => write_field(writer, side.runs.to_string(alloc)?.as_str())?,
        None => write_field(writer, "")?,
    }
    write_field(writer, cell(alloc, mean_of(side), "")?.as_str())?;
    write_field(writer, cell(alloc, deviation_of(side), "")?.as_str())
}

/// Writes the difference of the means, the deviation of the differences and how many there are; of no pairs three empty fields.
fn write_differences(
    alloc: Global,
    writer: &mut Writer<Vec<u8>>,
    paired: Option<PairedRow>,
) -> Result<(), AllocError> {
    write_field(writer, signed(alloc, difference_of(paired), "")?.as_str())?;
    write_field(
        writer,
        cell(alloc, difference_deviation_of(paired), "")?.as_str(),
    )?;
    match paired {
        Some(paired) => write_field(writer, paired.runs.to_string(alloc)?.as_str()),
        None => write_field(writer, ""),
    }
}

/// Writes a field; fails if memory runs out.
fn write_field(writer: &mut Writer<Vec<u8>>, field: &str) -> Result<(), AllocError> {
    match writer.write_field(field.as_bytes()) {
        Ok(()) => Ok(()),
        Err(_) => Err(AllocError),
    }
}

/// Ends a row whose fields are written, and returns its bytes.
fn ended(mut writer: Writer<Vec<u8>>) -> Result<Vec<u8>, Error> {
    writer.end_record()?;
    match writer.into_inner() {
        Ok(bytes) => Ok(bytes),
        Err(error) => Err(error.into_error()),
    }
}
