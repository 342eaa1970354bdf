//! The values of the figures in one run.
ghost use Rattle.std.specs.Prelude.{◌≡◌, IfOk};
ghost use Rattle.bq_comparison.specs.Runs.{IsRunOf, figure_value_at};

use crate::figure::Figure;
use crate::values::value_of;
use bq_schedule::{Schedule, WakeLatencies};
use std::alloc::{AllocError, Global};

/// A figure with its value in a run, if it has one there.
#[derive(Clone, Copy)]
pub struct FigureValue {
    pub figure: Figure,
    pub value: Option<u64>,
}

/// The figures of one run, each with its value, and how many events it had.
#[derive(Drop)]
pub struct RunFigures {
    pub values: Vec<FigureValue>,
    pub events: u64,
}

/// Returns the values that figures have in a schedule of this many events, in which tasks had these latencies. Sorts the latencies.
pub fn run_of(
    alloc: Global,
    schedule: &Schedule,
    latencies: &mut WakeLatencies,
    events: u64,
    figures: &[Figure],
) -> Result<RunFigures, AllocError>
    ensures { IfOk result (IsRunOf schedule.now latencies.old figures.now) }
{
    let mut values = Vec::new(alloc);
    'figures: for figure in figures {
        let figure = *figure;
        let value = value_of(schedule, latencies, figure);
        values.push(FigureValue { figure, value })?;
    }
    Ok(RunFigures { values, events })
}

impl RunFigures {
    /// Returns the number at a place among the figures, if there is one.
    pub(crate) fn number_at(&self, place: usize) -> Option<u64>
        ensures { result ≡ figure_value_at place self.now }
    {
        match self.values.get(place) {
            Some(value) => value.value,
            None => None,
        }
    }
}
