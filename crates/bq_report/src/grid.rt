//! The columns of a map, over an extent.
ghost use Rattle.std.specs.Prelude.{◌≡◌, ◌<◌, ◌*◌, ◌^◌, ◌++◌, OnOk, string_bytes};
ghost use Rattle.bq_report.specs.declared.grid.Grid.{Grid};
ghost use Rattle.bq_report.specs.Maps.{grid_over, ruler_marks_text, moment_at, ruler_text, unit_for};

use crate::amounts::{MomentText, Unit};
use crate::extent::Extent;
use std::alloc::{AllocError, Global};

/// How many columns are between two marks of the ruler.
const TICK: u64 = 20;

/// The columns over an extent: how many there are, and how long each is. The last column may be shorter: it ends where the extent does.
#[derive(Clone, Copy)]
pub(crate) struct Grid {
    pub(crate) extent: Extent,
    pub(crate) step: u64,
    pub(crate) count: u64,
}

impl Grid {
    /// Returns as many columns of this length, in nanoseconds, as cover the extent.
    pub(crate) fn new(extent: &Extent, step: u64) -> Grid
        requires { 0 < step }
        ensures { result ≡ grid_over extent.now step }
    {
        Grid {
            extent: *extent,
            step,
            count: extent.length().div_ceil(step),
        }
    }

    /// Returns the moment at which a column begins and the column before it ends.
    pub(crate) fn moment(&self, column: u64) -> u64
        ensures { result ≡ moment_at self.now column }
    {
        let from = self.extent.from;
        from.saturating_add(column.saturating_mul(self.step))
            .min(self.extent.to)
    }

    /// Adds the ruler above the rows: the moments of every 20th column.
    pub(crate) fn write_ruler(&self, alloc: Global, text: &mut String) -> Result<(), AllocError>
        ensures { OnOk result (string_bytes text.new ≡ string_bytes text.old ++ ruler_text self.now) }
    {
        let last = self.count.saturating_sub(1) / TICK;
        text.push_str("        ")?;
        self.write_marks(alloc, last, text)?;
        let moment = self.mark(last);
        write!(text, "|{moment}\n")
    }

    /// Adds the marks of the ruler before the last, each as wide as the columns to the next.
    fn write_marks(&self, alloc: Global, last: u64, text: &mut String) -> Result<(), AllocError>
        requires { last * TICK < 2 ^ 64 }
        ensures { OnOk result (string_bytes text.new ≡ string_bytes text.old ++ ruler_marks_text self.now last) }
    {
        for number in 0..last {
            let moment = self.mark(number);
            let mark = format!(in alloc; "|{moment}")?;
            write!(text, "{mark:<20}")?;
        }
        Ok(())
    }

    /// Returns the moment at a mark of the ruler.
    fn mark(&self, number: u64) -> MomentText
        requires { number * TICK < 2 ^ 64 }
        ensures { result ≡ record { time = moment_at self.now (number * TICK); unit = unit_for self.now.step } }
    {
        MomentText {
            time: self.moment(number * TICK),
            unit: Unit::for_step(self.step),
        }
    }
}
