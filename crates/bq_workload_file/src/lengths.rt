//! How long a phase takes.
ghost use Rattle.std.specs.Prelude.{◌≡◌};
ghost use Rattle.toml.specs.Data.{no_items, item};
ghost use Rattle.toml.specs.View.{view, table_view};
ghost use Rattle.bq_workload_file.specs.Lengths.{read_length, drawn_of, ends_of, uniform_of, read_time};

use crate::fields::span;
use crate::tables::only;
use crate::workload_cause::PHASE;
use bq_workload::Length;
use toml::{Table, Value};

/// A length: a duration, or a table that says how it is drawn.
pub(crate) fn length(value: &Value) -> Option<Length>
    ensures { result ≡ read_length (view value.now) }
{
    match value.as_table() {
        Some(table) => drawn(table),
        None => {
            let always = time(value)?;
            Some(Length::Fixed(always))
        }
    }
}

/// The length that a table says to draw.
fn drawn(table: &Table) -> Option<Length>
    ensures { result ≡ drawn_of (table_view table.now) }
{
    let (key, value) = only(table)?;
    match key {
        "uniform" => uniform(value),
        "exponential" => {
            let mean = time(value)?;
            Some(Length::Exponential { mean })
        }
        _ => None,
    }
}

/// The least and the greatest of a length.
fn uniform(value: &Value) -> Option<Length>
    ensures { result ≡ uniform_of (view value.now) }
{
    let ends = value.as_array()?;
    match ends.as_slice() {
        [first, last] => between(first, last),
        _ => None,
    }
}

/// A length from the first value to the last.
fn between(first: &Value, last: &Value) -> Option<Length>
    ensures { result ≡ ends_of (item (view first.now) (item (view last.now) no_items)) }
{
    let least = time(first)?;
    let greatest = time(last)?;
    if least <= greatest {
        Some(Length::Uniform { least, greatest })
    } else {
        None
    }
}

/// A duration that takes time.
fn time(value: &Value) -> Option<u64>
    ensures { result ≡ read_time (view value.now) }
{
    span(value, PHASE)
}
