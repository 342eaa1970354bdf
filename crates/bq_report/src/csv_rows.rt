//! The slices as comma-separated values.
ghost use Rattle.std.specs.Prelude.{◌≡◌, ◌++◌, Option, IfOk, OnOk, map, string_bytes};
ghost use Rattle.std.specs.Str.{IsUtf8};
ghost use Rattle.csv.specs.Writing.{default_writer, row_text};
ghost use Rattle.bq_schedule.specs.declared.slice.Slice.{Slice};
ghost use Rattle.bq_report.specs.Rows.{head_row, slice_row, optional_slice_row};
ghost use Rattle.bq_report.specs.Windows.{IsShownPart};

use crate::form::ScheduleForm;
use crate::names::Names;
use crate::window::Window;
use bq_schedule::{Change, Schedule, Slice};
use csv::{Error, WriterBuilder};
use std::alloc::{AllocError, Global};
use std::marker::Model;
use std::str;

/// The slices that are shown, a row for each, in the order in which they were charged: processor, task, from, to. Contracts see the
/// form's window.
#[derive(Drop)]
pub struct Csv {
    alloc: Global,
    window: Window,
}

impl Model for Csv {
    ghost use Rattle.bq_report.specs.declared.window.Window.{Window};

    ghost Value = { Window };

    ghost view = { λ c. c.window };
}

impl Csv {
    /// Returns a form for the slices in the window.
    pub fn new(alloc: Global, window: Window) -> Csv
        ensures { result ≡ window }
    {
        Csv { alloc, window }
    }

    /// Adds the row of a slice.
    fn write_slice(&self, slice: Slice, text: &mut String) -> Result<(), AllocError>
        ensures { OnOk result (string_bytes text.new ≡ string_bytes text.old ++ slice_row slice) }
    {
        let processor = slice.processor.to_string(self.alloc)?;
        let task = slice.task.to_string(self.alloc)?;
        let from = slice.from.to_string(self.alloc)?;
        let to = slice.to.to_string(self.alloc)?;
        let fields = [
            processor.as_bytes(),
            task.as_bytes(),
            from.as_bytes(),
            to.as_bytes(),
        ];
        write_row(self.alloc, &fields, text)
    }
}

/// Adds a row of these fields, if it is UTF-8.
fn write_row(alloc: Global, fields: &[&[u8]], text: &mut String) -> Result<(), AllocError>
    ensures { OnOk result (IsUtf8 (row_text default_writer (map (λ f. f.now) fields.now))
        → string_bytes text.new ≡ string_bytes text.old ++ row_text default_writer (map (λ f. f.now) fields.now)) }
{
    let Ok(bytes) = row(alloc, fields) else {
        return Err(AllocError);
    };
    match str::from_utf8(bytes.as_slice()) {
        Ok(row) => text.push_str(row),
        Err(_) => Ok(()),
    }
}

/// Returns a row of these fields.
///
/// A writer has a large buffer on the stack, so this is kept out of the path of a change without a row.
#[inline(never)]
fn row(alloc: Global, fields: &[&[u8]]) -> Result<Vec<u8>, Error>
    ensures { IfOk result (λ v. v.items ≡ row_text default_writer (map (λ f. f.now) fields.now)) }
{
    let mut writer = WriterBuilder::new().from_writer(Vec::new(alloc));
    writer.write_fields(fields)?;
    match writer.into_inner() {
        Ok(text) => Ok(text),
        Err(error) => Err(error.into_error()),
    }
}

impl ScheduleForm for Csv {
    /// Adds the head of the columns.
    fn begin(
        &mut self,
        _schedule: &Schedule,
        _names: &Names,
        text: &mut String,
    ) -> Result<(), AllocError>
        ensures head { OnOk result (string_bytes text.new ≡ string_bytes text.old ++ head_row) }
        ensures unchanged { self.new ≡ self.old }
    {
        text.push_str("processor,task,from,to\n")
    }

    /// Adds the row of the slice that was charged, if any of it is shown.
    fn add_change(
        &mut self,
        change: &Change,
        _schedule: &Schedule,
        _names: &Names,
        text: &mut String,
    ) -> Result<(), AllocError>
        ensures row { OnOk result ((part : Option Slice) × IsShownPart self.old change.now.slice part
            × (string_bytes text.new ≡ string_bytes text.old ++ optional_slice_row part)) }
        ensures unchanged { self.new ≡ self.old }
    {
        match self.window.shown_part(change.slice) {
            Some(slice) => self.write_slice(slice, text),
            None => Ok(()),
        }
    }

    /// Adds nothing.
    fn end(
        &mut self,
        _schedule: &Schedule,
        _names: &Names,
        text: &mut String,
    ) -> Result<(), AllocError>
        ensures none { string_bytes text.new ≡ string_bytes text.old }
        ensures unchanged { self.new ≡ self.old }
    {
        Ok(())
    }
}
