//! Figures as JSON.

use crate::Figure;
use crate::cells::{
    deviation_of, difference_deviation_of, difference_of, difference_runs_of, mean_of, runs_of,
};
use crate::difference::Difference;
use crate::labels::{name_of_figure, subject_text, unit_of_figure, word_of_figure};
use crate::line::FigureLine;
use serde_json::{Map, Value, put};
use std::alloc::{AllocError, Global};

/// The version of what the object holds. It changes if a key goes or means something else.
const SCHEMA: u64 = 1;

/// Writes one object: `schema`, and `figures`, an array with one object for each figure. Means, deviations and differences are
/// whole thousandths of the unit. What is not there is null, and so is what does not fit 64 bits (a difference: 63).
pub(crate) fn json_text(
    alloc: Global,
    lines: &[FigureLine],
    names: &[String],
) -> Result<String, AllocError> {
    let mut text = format!(in alloc; "{{\"schema\":{SCHEMA},\"figures\":[")?;
    let mut is_first = true;
    for line in lines {
        let object = object(alloc, line, names)?.to_string(alloc)?;
        text.push_str(if is_first { "\n" } else { ",\n" })?;
        text.push_str(object.as_str())?;
        is_first = false;
    }
    text.push_str("\n]}\n")?;
    Ok(text)
}

/// Makes the object of a figure.
fn object(alloc: Global, line: &FigureLine, names: &[String]) -> Result<Value, AllocError> {
    let mut object = Map::new(alloc);
    put_words(alloc, &mut object, line.ours.figure, names)?;
    put_numbers(alloc, &mut object, line)?;
    Ok(Value::Object(object))
}

/// Adds what a figure is of, the name of its task, its word and its unit.
fn put_words(
    alloc: Global,
    object: &mut Map<String, Value>,
    figure: Figure,
    names: &[String],
) -> Result<(), AllocError> {
    put_word(alloc, object, "of", subject_text(alloc, figure)?.as_str())?;
    put_word(alloc, object, "name", name_of_figure(figure, names))?;
    put_word(alloc, object, "figure", word_of_figure(figure))?;
    put_word(alloc, object, "unit", unit_of_figure(figure))
}

/// Adds a member with a word.
fn put_word(
    alloc: Global,
    object: &mut Map<String, Value>,
    key: &str,
    word: &str,
) -> Result<(), AllocError> {
    put(object, alloc, key, Value::try_from_str(alloc, word)?)
}

/// Adds how many runs of each side have a value, the means and the deviations, and the same of the differences.
fn put_numbers(
    alloc: Global,
    object: &mut Map<String, Value>,
    line: &FigureLine,
) -> Result<(), AllocError> {
    let sizes = [
        ("runs", runs_of(Some(line.ours))),
        ("mean_thousandths", line.ours.mean),
        ("deviation_thousandths", line.ours.deviation),
        ("against_runs", runs_of(line.theirs)),
        ("against_mean_thousandths", mean_of(line.theirs)),
        ("against_deviation_thousandths", deviation_of(line.theirs)),
        ("difference_runs", difference_runs_of(line.paired)),
        (
            "difference_deviation_thousandths",
            difference_deviation_of(line.paired),
        ),
    ];
    for (key, size) in &sizes {
        put(object, alloc, key, number(*size))?;
    }
    let difference = signed_number(difference_of(line.paired));
    put(object, alloc, "difference_thousandths", difference)
}

/// Returns a number that fits in 64 bits; null otherwise.
fn number(value: Option<u128>) -> Value {
    match value {
        Some(value) => match u64::try_from(value) {
            Ok(value) => Value::from(value),
            Err(_) => Value::Null,
        },
        None => Value::Null,
    }
}

/// Returns a difference whose size fits in 63 bits; null otherwise.
fn signed_number(difference: Option<Difference>) -> Value {
    let (is_more, size) = match difference {
        Some(Difference::More(size)) => (true, size),
        Some(Difference::Less(size)) => (false, size),
        None => return Value::Null,
    };
    match i64::try_from(size) {
        Ok(size) => Value::from(if is_more { size } else { 0 - size }),
        Err(_) => Value::Null,
    }
}
