//! Means, deviations and differences as text.
ghost use Rattle.std.specs.Prelude.{◌≡◌, IfOk, option_and_then, option_map, string_bytes};
ghost use Rattle.bq_comparison.specs.Cells.{cell_text, decimal_text, difference_text};

use crate::difference::Difference;
use crate::{FigureRow, PairedRow};
use std::alloc::{AllocError, Global};

/// Writes thousandths as a number with three decimals.
pub(crate) fn decimal(alloc: Global, thousandths: u128) -> Result<String, AllocError>
    ensures { IfOk result (λ text. string_bytes text ≡ decimal_text thousandths) }
{
    let whole = thousandths / 1000;
    let part = thousandths % 1000;
    format!(in alloc; "{whole}.{part:03}")
}

/// Writes thousandths as a number with three decimals, if there are any; else the other text.
pub(crate) fn cell(
    alloc: Global,
    thousandths: Option<u128>,
    otherwise: &str,
) -> Result<String, AllocError>
    ensures { IfOk result (λ text. string_bytes text ≡ cell_text thousandths otherwise.now) }
{
    match thousandths {
        Some(thousandths) => decimal(alloc, thousandths),
        None => String::from_str(alloc, otherwise),
    }
}

/// Writes a difference with its sign, if there is one; otherwise another text.
pub(crate) fn signed(
    alloc: Global,
    difference: Option<Difference>,
    otherwise: &str,
) -> Result<String, AllocError>
    ensures { IfOk result (λ text. string_bytes text ≡ difference_text difference otherwise.now) }
{
    let (sign, size) = match difference {
        Some(Difference::More(size)) => ("+", size),
        Some(Difference::Less(size)) => ("-", size),
        None => return String::from_str(alloc, otherwise),
    };
    let size = decimal(alloc, size)?;
    format!(in alloc; "{sign}{size}")
}

/// Returns how many runs have the value of a row, if there is a row.
pub(crate) fn runs_of(row: Option<FigureRow>) -> Option<u128>
    ensures { result ≡ option_map (λ r. r.runs) row }
{
    let row = row?;
    Some(row.runs as u128)
}

/// Returns the mean of a row, if there is a row and it has one.
pub(crate) fn mean_of(row: Option<FigureRow>) -> Option<u128>
    ensures { result ≡ option_and_then (λ r. r.mean) row }
{
    row?.mean
}

/// Returns the deviation of a row, if there is a row and it has one.
pub(crate) fn deviation_of(row: Option<FigureRow>) -> Option<u128>
    ensures { result ≡ option_and_then (λ r. r.deviation) row }
{
    row?.deviation
}

/// Returns the number of seeds with which both sides have the value of a row, if there is a row.
pub(crate) fn difference_runs_of(row: Option<PairedRow>) -> Option<u128>
    ensures { result ≡ option_map (λ r. r.runs) row }
{
    let row = row?;
    Some(row.runs as u128)
}

/// Returns the difference of a row, if there is a row and it has one.
pub(crate) fn difference_of(row: Option<PairedRow>) -> Option<Difference>
    ensures { result ≡ option_and_then (λ r. r.difference) row }
{
    row?.difference
}

/// Returns the deviation of the differences of a row, if there is a row and it has one.
pub(crate) fn difference_deviation_of(row: Option<PairedRow>) -> Option<u128>
    ensures { result ≡ option_and_then (λ r. r.deviation) row }
{
    row?.deviation
}
