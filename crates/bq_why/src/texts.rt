//! Tasks, virtual times and lags as text.
ghost use Rattle.std.specs.Prelude.{◌≡◌, ◌^◌, ◌-◌, min, Some};
ghost use Rattle.bq_why.specs.Words.{lag_text, lag_sign, eligibility, mark_text, origin_name, virtual_text, sign_before};

use crate::task_row::TaskRow;
use bq_disc::limits::FIRST_MARK;
use bq_report::{Millis, Names};
use bq_words::DisciplineName;
use std::fmt;

/// A task's name, or its number if it has none.
#[derive(Clone, Copy)]
pub struct TaskText<'a> {
    pub names: &'a Names,
    pub task: u16,
}

impl fmt::Display for TaskText<'_> {
    fn fmt<W: fmt::Write>(&self, f: &mut fmt::Formatter<W>) -> fmt::Result {
        match self.names.of(self.task) {
            Some(name) => f.write_str(name),
            None => {
                let task = self.task;
                write!(f, "{task}")
            }
        }
    }
}

/// The eligible tasks of some rows, in braces.
#[derive(Clone, Copy)]
pub struct IdsText<'a> {
    pub names: &'a Names,
    pub rows: &'a [TaskRow],
}

impl fmt::Display for IdsText<'_> {
    fn fmt<W: fmt::Write>(&self, f: &mut fmt::Formatter<W>) -> fmt::Result {
        f.write_str("{")?;
        let mut is_first = true;
        for row in self.rows {
            if row.is_eligible {
                if !is_first {
                    f.write_str(", ")?;
                }
                is_first = false;
                let who = TaskText {
                    names: self.names,
                    task: row.task,
                };
                write!(f, "{who}")?;
            }
        }
        f.write_str("}")
    }
}

/// Virtual time, in milliseconds from where it begins.
#[derive(Clone, Copy)]
pub struct VirtualTime(pub u64);

impl fmt::Display for VirtualTime {
    ghost output = { λ v. Some (virtual_text v.0) };

    fn fmt<W: fmt::Write>(&self, f: &mut fmt::Formatter<W>) -> fmt::Result {
        let distance = Millis(self.0.abs_diff(FIRST_MARK));
        let sign = sign_before(self.0);
        write!(f, "{sign}{distance}")
    }
}

/// Returns the sign of a virtual time: a minus if it is before the first mark, otherwise nothing.
fn sign_before(time: u64) -> &'static str
    ensures { result.now ≡ sign_before time }
{
    if time < FIRST_MARK { "-" } else { "" }
}

/// The mark of a processor, and the virtual time that its discipline measures its tasks from.
#[derive(Clone, Copy)]
pub struct MarkText {
    pub discipline: DisciplineName,
    pub mark: u64,
    pub from: u64,
}

impl fmt::Display for MarkText {
    ghost output = { λ s. Some (mark_text s) };

    fn fmt<W: fmt::Write>(&self, f: &mut fmt::Formatter<W>) -> fmt::Result {
        let mark = VirtualTime(self.mark);
        let name = origin_name(self.discipline);
        let from = VirtualTime(self.from);
        write!(f, "mark {mark}  {name} {from}")
    }
}

/// Names what a discipline measures its tasks from.
fn origin_name(discipline: DisciplineName) -> &'static str
    ensures { result.now ≡ origin_name discipline }
{
    match discipline {
        DisciplineName::Cfs => "least v",
        DisciplineName::Eevdf => "mean",
    }
}

/// The lag of a row, in milliseconds of the processor: above 0 if the task is owed time.
#[derive(Clone, Copy)]
pub struct LagText<'a>(pub &'a TaskRow);

impl fmt::Display for LagText<'_> {
    ghost output = { λ l. Some (lag_text l.0.now) };

    fn fmt<W: fmt::Write>(&self, f: &mut fmt::Formatter<W>) -> fmt::Result {
        let amount = Millis(amount(self.0));
        let sign = lag_sign(self.0);
        write!(f, "{sign}{amount}")
    }
}

/// Returns a row's lag in nanoseconds, at most the greatest number of 64 bits.
fn amount(row: &TaskRow) -> u64
    ensures { result ≡ min row.now.lag (2 ^ 64 - 1) }
{
    u64::try_from(row.lag).unwrap_or(u64::MAX)
}

/// Returns the sign of a row's lag: a plus if the task is owed time, otherwise a minus.
fn lag_sign(row: &TaskRow) -> &'static str
    ensures { result.now ≡ lag_sign row.now.is_eligible }
{
    if row.is_eligible { "+" } else { "-" }
}

/// Says whether a row's task may run.
pub fn eligibility(row: &TaskRow) -> &'static str
    ensures { result.now ≡ eligibility row.now }
{
    if row.is_eligible {
        "eligible"
    } else {
        "not eligible"
    }
}
