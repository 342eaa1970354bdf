//! What several runs say of each figure.
ghost use Rattle.std.specs.Prelude.{◌≡◌, ◌≤◌, IfOk, length};
ghost use Rattle.bq_comparison.specs.Rows.{AreRows, IsRow, numbers_at};
ghost use Rattle.bq_comparison.specs.declared.means.TheConstants.{MOST_NUMBERS};

use crate::figure::Figure;
use crate::runs::RunFigures;
use crate::{deviation, mean};
use std::alloc::{AllocError, Global};

/// What several runs say of a figure, in thousandths of its unit, rounded down.
#[derive(Clone, Copy)]
pub struct FigureRow {
    pub figure: Figure,
    /// How many runs have a value.
    pub runs: usize,
    /// The mean of the values, if there are any.
    pub mean: Option<u128>,
    /// Their standard deviation, if there are at least two. None too if they are beyond the arithmetic of 128 bits; no n numbers
    /// below 2^54 / n are.
    pub deviation: Option<u128>,
}

/// Makes a row for each figure: what some runs of these figures say of it.
pub fn make_rows(
    alloc: Global,
    figures: &[Figure],
    runs: &[RunFigures],
) -> Result<Vec<FigureRow>, AllocError>
    requires { length runs.now ≤ MOST_NUMBERS }
    ensures { IfOk result (λ v. AreRows runs.now figures.now v.items) }
{
    let mut rows = Vec::new(alloc);
    'figures: for (place, figure) in figures.iter().enumerate() {
        let numbers = numbers_at(alloc, runs, place)?;
        rows.push(row_of(*figure, numbers.as_slice()))?;
    }
    Ok(rows)
}

/// Makes the row of a figure from its numbers.
fn row_of(figure: Figure, numbers: &[u64]) -> FigureRow
    requires { length numbers.now ≤ MOST_NUMBERS }
    ensures { IsRow figure numbers.now result }
{
    let runs = numbers.len();
    let mean = if runs == 0 { None } else { Some(mean(numbers)) };
    let deviation = if runs < 2 { None } else { deviation(numbers) };
    FigureRow {
        figure,
        runs,
        mean,
        deviation,
    }
}

/// Lists the numbers at a place in the runs that have one there.
fn numbers_at(alloc: Global, runs: &[RunFigures], place: usize) -> Result<Vec<u64>, AllocError>
    ensures value { IfOk result (λ v. v.items ≡ numbers_at place runs.now) }
    ensures few { IfOk result (λ v. length v.items ≤ length runs.now) }
{
    let mut numbers = Vec::new(alloc);
    'runs: for run in runs {
        if let Some(number) = run.number_at(place) {
            numbers.push(number)?;
        }
    }
    Ok(numbers)
}
