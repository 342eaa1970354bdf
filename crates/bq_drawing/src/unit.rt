//! The unit of the times in a picture.
ghost use Rattle.std.specs.Prelude.{◌≡◌, ◌<◌, Some};
ghost use Rattle.bq_drawing.specs.Units.{amount_text, unit_length, unit_name, unit_of_step};

use std::fmt;

/// The unit in which a picture writes all its times. Each step of its axis is a whole number of this unit.
#[derive(Clone, Copy)]
pub enum TimeUnit {
    Nanoseconds,
    Microseconds,
    Milliseconds,
    Seconds,
}

impl TimeUnit {
    /// Returns the unit of an axis with steps of this many nanoseconds.
    pub fn of_step(step: u64) -> TimeUnit
        ensures { result ≡ unit_of_step step }
    {
        if step < 1000 {
            TimeUnit::Nanoseconds
        } else if step < 1_000_000 {
            TimeUnit::Microseconds
        } else if step < 1_000_000_000 {
            TimeUnit::Milliseconds
        } else {
            TimeUnit::Seconds
        }
    }

    /// Returns how many nanoseconds the unit has.
    pub fn length(self) -> u64
        ensures value { result ≡ unit_length self }
        ensures some { 0 < result }
    {
        match self {
            TimeUnit::Nanoseconds => 1,
            TimeUnit::Microseconds => 1000,
            TimeUnit::Milliseconds => 1_000_000,
            TimeUnit::Seconds => 1_000_000_000,
        }
    }

    /// Returns how the unit is written after a number.
    pub fn name(self) -> &'static str
        ensures { result.now ≡ unit_name self }
    {
        match self {
            TimeUnit::Nanoseconds => "ns",
            TimeUnit::Microseconds => "us",
            TimeUnit::Milliseconds => "ms",
            TimeUnit::Seconds => "s",
        }
    }
}

/// A time in a unit, without the unit's name: to the microsecond, or in microseconds to the nanosecond. What is less is cut off.
///
/// 1,234,567 ns are `1.234` in milliseconds, `1234.567` in microseconds and `0.001234` in seconds.
#[derive(Clone, Copy)]
pub struct Amount {
    pub time: u64,
    pub unit: TimeUnit,
}

impl fmt::Display for Amount {
    ghost output = { λ a. Some (amount_text a.unit a.time) };

    /// Writes the time, without the unit's name.
    fn fmt<W: fmt::Write>(&self, f: &mut fmt::Formatter<W>) -> fmt::Result {
        let time = self.time;
        match self.unit {
            TimeUnit::Nanoseconds => write!(f, "{time}"),
            TimeUnit::Microseconds => {
                let whole = time / 1000;
                let part = time % 1000;
                write!(f, "{whole}.{part:03}")
            }
            TimeUnit::Milliseconds => {
                let whole = time / 1_000_000;
                let part = time / 1000 % 1000;
                write!(f, "{whole}.{part:03}")
            }
            TimeUnit::Seconds => {
                let whole = time / 1_000_000_000;
                let part = time / 1000 % 1_000_000;
                write!(f, "{whole}.{part:06}")
            }
        }
    }
}
