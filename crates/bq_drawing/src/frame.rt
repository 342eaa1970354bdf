//! What all shapes of a picture use: the scale of time, the unit, and the colours and names of tasks.
ghost use Rattle.std.specs.Prelude.{◌≡◌, ◌++◌, OnOk, chars, length, string_bytes};
ghost use Rattle.bq_drawing.specs.Frames.{colour_of, label_width, name_length, name_or_number};

use crate::colours::COLOURS;
use crate::escaped::write_escaped;
use crate::scale::Scale;
use crate::unit::{Amount, TimeUnit};
use bq_report::{AdmittedTasks, Names};
use std::alloc::AllocError;

/// How wide a character of a name is, in hundredths of a unit. The room on both sides of the name is as wide.
const CHARACTER: u64 = 1000;

/// How many characters the number of a task has that has no name: those of `task 1023`.
const UNNAMED: u64 = 9;

/// What the shapes of a picture share: where a moment is, the unit of times, and the colours and the names of tasks.
#[derive(Clone, Copy)]
pub struct Frame<'a> {
    pub scale: Scale,
    pub unit: TimeUnit,
    pub admitted: &'a AdmittedTasks,
    pub names: &'a Names,
}

impl Frame<'_> {
    /// Returns the number of a task's colour, by its place among all tasks of the trace, whether these are shown or not. The colours
    /// go round, one further each time: if tasks go round a few processors, a row still has tasks of every colour.
    pub fn colour(&self, task: u16) -> usize
        ensures { result ≡ colour_of self.now.admitted.now task }
    {
        let place = self.admitted.place(task).unwrap_or(0);
        (place % COLOURS + place / COLOURS % COLOURS) % COLOURS
    }

    /// Returns a time, to be written in the picture's unit.
    pub fn amount(&self, time: u64) -> Amount
        ensures { result ≡ record { time = time; unit = self.now.unit } }
    {
        let unit = self.unit;
        Amount { time, unit }
    }

    /// Adds the name of a task, cut after this many characters, or its number if it has no name.
    pub fn write_name(&self, task: u16, most: usize, text: &mut String) -> Result<(), AllocError>
        ensures { OnOk result (string_bytes text.new ≡ string_bytes text.old ++ name_or_number most self.now.names.now task) }
    {
        match self.names.of(task) {
            Some(name) => write_escaped(name, most, text),
            None => write!(text, "task {task}"),
        }
    }

    /// Returns how wide the name of a task is on a run, in hundredths of a unit.
    pub fn label_width(&self, task: u16) -> u64
        ensures { result ≡ label_width self.now.names.now task }
    {
        self.name_length(task)
            .saturating_mul(CHARACTER)
            .saturating_add(CHARACTER)
    }

    /// Returns how many characters the name of a task has, or its number if it has no name.
    fn name_length(&self, task: u16) -> u64
        ensures { result ≡ name_length self.now.names.now task }
    {
        match self.names.of(task) {
            Some(name) => letters(name),
            None => UNNAMED,
        }
    }
}

/// Returns how many characters a text has.
fn letters(text: &str) -> u64
    ensures { result ≡ length (chars text.now) }
{
    text.chars().count() as u64
}
