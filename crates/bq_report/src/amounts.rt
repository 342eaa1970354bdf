//! Times as text.
ghost use Rattle.std.specs.Prelude.{◌≡◌, nat_lt, if◌then◌else◌, Some};
ghost use Rattle.bq_report.specs.Amounts.{three_decimals, thousandths, millis_text, micros_text, moment_text};

use std::fmt;

/// Nanoseconds, as milliseconds with three decimals. A part of a microsecond is cut off.
///
/// 1,234,567 ns are `1.234`.
#[derive(Clone, Copy)]
pub struct Millis(pub u64);

impl fmt::Display for Millis {
    ghost output = { λ t. Some (millis_text t.0) };

    /// Writes the milliseconds, without the unit.
    fn fmt<W: fmt::Write>(&self, f: &mut fmt::Formatter<W>) -> fmt::Result {
        let time = Thousandths(self.0 / 1000);
        write!(f, "{time}")
    }
}

/// Nanoseconds, as microseconds with three decimals.
///
/// 1,234,567 ns are `1234.567`.
#[derive(Clone, Copy)]
pub struct Micros(pub u64);

impl fmt::Display for Micros {
    ghost output = { λ t. Some (micros_text t.0) };

    /// Writes the microseconds, without the unit.
    fn fmt<W: fmt::Write>(&self, f: &mut fmt::Formatter<W>) -> fmt::Result {
        let time = Thousandths(self.0);
        write!(f, "{time}")
    }
}

/// A unit of time to show moments in.
#[derive(Clone, Copy)]
pub enum Unit {
    Microseconds,
    Milliseconds,
}

impl Unit {
    /// Returns the unit for moments that are this many nanoseconds apart.
    pub fn for_step(step: u64) -> Unit
        ensures { result ≡ (if nat_lt step 1000 then Unit.Microseconds else Unit.Milliseconds) }
    {
        if step < 1000 {
            Unit::Microseconds
        } else {
            Unit::Milliseconds
        }
    }
}

/// A moment or a length of time, with its unit.
///
/// 1,234,567 ns are `1.234 ms` or `1234.567 us`.
#[derive(Clone, Copy)]
pub struct MomentText {
    pub time: u64,
    pub unit: Unit,
}

impl fmt::Display for MomentText {
    ghost output = { λ m. Some (moment_text m.time m.unit) };

    /// Writes the time and its unit.
    fn fmt<W: fmt::Write>(&self, f: &mut fmt::Formatter<W>) -> fmt::Result {
        match self.unit {
            Unit::Microseconds => {
                let time = Micros(self.time);
                write!(f, "{time} us")
            }
            Unit::Milliseconds => {
                let time = Millis(self.time);
                write!(f, "{time} ms")
            }
        }
    }
}

/// The three decimals of a number of thousandths.
#[derive(Clone, Copy)]
pub(crate) struct Decimals(pub(crate) u64);

impl fmt::Display for Decimals {
    ghost output = { λ n. Some (three_decimals n.0) };

    /// Writes the three digits.
    fn fmt<W: fmt::Write>(&self, f: &mut fmt::Formatter<W>) -> fmt::Result {
        let tenths = self.0 / 100 % 10;
        let hundredths = self.0 / 10 % 10;
        let last = self.0 % 10;
        write!(f, "{tenths}{hundredths}{last}")
    }
}

/// A number of thousandths, with three decimals.
#[derive(Clone, Copy)]
struct Thousandths(u64);

impl fmt::Display for Thousandths {
    ghost output = { λ n. Some (thousandths n.0) };

    /// Writes the whole part, a point and the three decimals.
    fn fmt<W: fmt::Write>(&self, f: &mut fmt::Formatter<W>) -> fmt::Result {
        let whole = self.0 / 1000;
        let decimals = Decimals(self.0);
        write!(f, "{whole}.{decimals}")
    }
}
