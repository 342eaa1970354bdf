//! What can be wrong with a table or a value.

use crate::fields::span;
use crate::tables::only;
use bq_disc::limits::TASKS;
use bq_disc::with_processors;
use bq_weights::with_nice_values;
use bq_words::quantities::NO_SIZE;
use bq_words::{duration, with_disciplines, with_units};
use bq_workload::limits::{LONGEST, LONGEST_NAME};
use std::fmt;
use toml::{Table, Value};

/// A stretch of numbers, both ends included.
#[derive(Clone, Copy)]
pub(crate) struct NumberRange {
    pub(crate) least: u64,
    pub(crate) greatest: u64,
}

/// How long a phase may be.
pub(crate) const PHASE: NumberRange = NumberRange {
    least: 1,
    greatest: LONGEST,
};

/// What a key takes.
#[derive(Clone, Copy)]
pub(crate) enum Wanted {
    /// A duration in this range of nanoseconds.
    Time(NumberRange),
    /// A whole number in this range.
    Number(NumberRange),
    /// A length of a phase: a duration, or how it is drawn.
    Length,
    Nice,
    Discipline,
    Size,
    Processors,
    /// A name of a task.
    Name,
    /// `true`, the only value that `wait` takes.
    True,
    Action,
    Actions,
    Table,
    Tables,
}

/// What is wrong with a table or a value.
#[derive(Clone, Copy)]
pub(crate) enum WorkloadCause<'a> {
    /// The table has an unknown key. Such a table takes the keys `known`.
    UnknownKey {
        key: &'a str,
        known: &'static [&'static str],
    },
    /// A key is missing that has to be there.
    Missing(&'static str),
    /// The value is not what its key takes.
    NoSuch {
        key: &'static str,
        value: &'a Value,
        wanted: Wanted,
    },
    /// An item of a list is not what the list takes.
    NoItem {
        value: &'a Value,
        wanted: Wanted,
    },
    /// No task has the name `name`. The tasks have the names `names`.
    UnknownTask {
        name: &'a str,
        names: &'a [String],
    },
    /// A name has more bytes than a name may have.
    LongName,
    /// An earlier table has the same name: the table of the number `first`.
    TwoOfName {
        name: &'a str,
        first: usize,
    },
    /// A `do` stands beside the keys that are short for a `do`.
    TwoForms,
    /// Nothing in a `do` takes time.
    NoTime,
    /// The value names no processor of the machine, which has this many processors.
    NoProcessor {
        value: &'a Value,
        processors: u8,
    },
    /// All kinds together have more tasks than a machine may have.
    TooMany,
}

impl fmt::Display for WorkloadCause<'_> {
    fn fmt<W: fmt::Write>(&self, f: &mut fmt::Formatter<W>) -> fmt::Result {
        match self {
            WorkloadCause::UnknownKey { key, known: _ } => write!(f, "unknown key {}", Quoted(key)),
            WorkloadCause::Missing(key) => write!(f, "{key} is missing"),
            WorkloadCause::NoSuch { key, value, wanted } => {
                write!(f, "{key}: ")?;
                misfit(f, value, wanted)
            }
            WorkloadCause::NoItem { value, wanted } => misfit(f, value, wanted),
            WorkloadCause::UnknownTask { name, names: _ } => {
                write!(f, "wake: no task has the name {}", Quoted(name))
            }
            WorkloadCause::LongName => write!(f, "name: it has more than {LONGEST_NAME} bytes"),
            WorkloadCause::TwoOfName { name, first } => {
                write!(
                    f,
                    "name: {} is the name of [[task]] {first} too",
                    Quoted(name)
                )
            }
            WorkloadCause::TwoForms => f.write_str(
                "do stands beside run or sleep, which are short for one",
            ),
            WorkloadCause::NoTime => f.write_str(
                "do: nothing in it takes time; let it run or sleep",
            ),
            WorkloadCause::NoProcessor { value, processors } => {
                write!(f, "cpus: ")?;
                shown(f, value)?;
                write!(
                    f,
                    " names none of the machine's processors, 0 to {}",
                    processors.saturating_sub(1)
                )
            }
            WorkloadCause::TooMany => write!(
                f,
                "there are more than {TASKS} tasks in all; a machine has room for no more"
            ),
        }
    }
}

/// Says that a value is not what `wanted` describes.
fn misfit<W: fmt::Write>(f: &mut fmt::Formatter<W>, value: &Value, wanted: &Wanted) -> fmt::Result {
    if let (Wanted::Length, Value::Table(table)) = (wanted, value) {
        return no_draw(f, table);
    }
    if let (Wanted::Action, Value::Table(_)) = (wanted, value) {
        return f.write_str(
            "an action is a table of one key: { run = LENGTH }, { sleep = LENGTH }, { wait = true } or { wake = TASK }",
        );
    }
    shown(f, value)?;
    match wanted {
        Wanted::Time(range) => no_time(f, value, range),
        Wanted::Length => match value {
            Value::String(_) => no_time(f, value, &PHASE),
            _ => f.write_str(
                " is not a length (a duration, { uniform = [LEAST, GREATEST] } or { exponential = MEAN })",
            ),
        },
        Wanted::Number(range) => write!(
            f,
            " is not a whole number from {} to {}",
            range.least, range.greatest
        ),
        other => write!(f, " {}", described(other)),
    }
}

/// Says why a table draws no length.
fn no_draw<W: fmt::Write>(f: &mut fmt::Formatter<W>, table: &Table) -> fmt::Result {
    match only(table) {
        Some(("uniform", ends)) => no_ends(f, ends),
        Some(("exponential", mean)) => {
            f.write_str("exponential: ")?;
            no_phase(f, mean)
        }
        Some((key, _)) => write!(
            f,
            "unknown key {}; a length is drawn by uniform or exponential",
            Quoted(key)
        ),
        None => write!(
            f,
            "a table of {} keys is not a length; it takes one key, uniform or exponential",
            table.len()
        ),
    }
}

/// Says why a value is no least and greatest of a length: the value is no pair, an end is not a duration, or the ends are not in
/// order.
fn no_ends<W: fmt::Write>(f: &mut fmt::Formatter<W>, ends: &Value) -> fmt::Result {
    f.write_str("uniform: ")?;
    let Some((least, greatest)) = pair(ends) else {
        shown(f, ends)?;
        return f.write_str(" is not [LEAST, GREATEST]");
    };
    if span(least, PHASE).is_none() {
        return no_phase(f, least);
    }
    if span(greatest, PHASE).is_none() {
        return no_phase(f, greatest);
    }
    f.write_str("the least, ")?;
    shown(f, least)?;
    f.write_str(", is more than the greatest, ")?;
    shown(f, greatest)
}

/// Says that a value is not a duration that a phase may have.
fn no_phase<W: fmt::Write>(f: &mut fmt::Formatter<W>, value: &Value) -> fmt::Result {
    shown(f, value)?;
    no_time(f, value, &PHASE)
}

/// The two items of an array of two.
fn pair(value: &Value) -> Option<(&Value, &Value)> {
    match value.as_array()?.as_slice() {
        [first, second] => Some((first, second)),
        _ => None,
    }
}

/// Says that a value is not a duration, or not a duration in a range.
fn no_time<W: fmt::Write>(
    f: &mut fmt::Formatter<W>,
    value: &Value,
    range: &NumberRange,
) -> fmt::Result {
    let given = match value.as_str() {
        Some(word) => duration(word.as_bytes()),
        None => None,
    };
    match given {
        Some(_) => write!(
            f,
            " is not from {} ns to {} ns",
            range.least, range.greatest
        ),
        None => f.write_str(with_units!(
            " is not a duration (a number and ",
            ", as 1500us or 1.5ms)"
        )),
    }
}

/// Says what a value is not, if the words do not depend on the value.
fn described(wanted: &Wanted) -> &'static str {
    match wanted {
        Wanted::Nice => with_nice_values!("is not a nice value (a whole number from ", ")"),
        Wanted::Discipline => with_disciplines!("is not a discipline (\"", "\" or \"", "\")"),
        Wanted::Size => NO_SIZE,
        Wanted::Processors => with_processors!(
            "is not a list of processors (numbers from ",
            " and ranges, as \"0-2,5\")"
        ),
        Wanted::Name => "is not a name (a text with something in it)",
        Wanted::True => "is not true, the only value that it takes",
        Wanted::Action =>
            "is not an action (one of { run = LENGTH }, { sleep = LENGTH }, { wait = true } and { wake = TASK })",
        Wanted::Actions => "is not a list of actions",
        Wanted::Table => "is not a table",
        _ => "is not a list of tables ([[task]])",
    }
}

/// The most characters of a text that are quoted.
const QUOTED: usize = 40;

/// A text in quotes, cut after 40 characters, and then `..`.
#[derive(Clone, Copy)]
struct Quoted<'a>(&'a str);

impl fmt::Display for Quoted<'_> {
    fn fmt<W: fmt::Write>(&self, f: &mut fmt::Formatter<W>) -> fmt::Result {
        let cut = self.0.char_indices().nth(QUOTED);
        match cut.and_then(|(at, _)| self.0.get(..at)) {
            Some(beginning) => {
                fmt::Debug::fmt(beginning, f)?;
                f.write_str("..")
            }
            None => fmt::Debug::fmt(self.0, f),
        }
    }
}

/// Writes a value on one line.
fn shown<W: fmt::Write>(f: &mut fmt::Formatter<W>, value: &Value) -> fmt::Result {
    match value {
        Value::String(text) => fmt::Display::fmt(&Quoted(text.as_str()), f),
        Value::Integer(number) => fmt::Display::fmt(number, f),
        Value::Boolean(truth) => fmt::Display::fmt(truth, f),
        Value::Float(number) => fmt::Display::fmt(number, f),
        Value::Datetime(_) => f.write_str("a date"),
        Value::Array(_) => f.write_str("an array"),
        Value::Table(_) => f.write_str("a table"),
    }
}
