//! Parts of a whole.
ghost use Rattle.std.specs.Prelude.{◌≡◌, Some};
ghost use Rattle.bq_report.specs.Columns.{hundredths_of, percent_text};

use std::fmt;

/// How much of a whole a part is, in percent with two decimals. Less than a hundredth of a percent is cut off. If the whole is 0, so is
/// the result.
///
/// 3 of 4 are `75.00`.
#[derive(Clone, Copy)]
pub struct Percent {
    pub part: u64,
    pub whole: u64,
}

impl Percent {
    /// Returns the part, in hundredths of a percent.
    fn hundredths(&self) -> u128
        ensures { result ≡ hundredths_of self.now.part self.now.whole }
    {
        if self.whole == 0 {
            0
        } else {
            u128::from(self.part) * 10_000 / u128::from(self.whole)
        }
    }
}

impl fmt::Display for Percent {
    ghost output = { λ p. Some (percent_text p.part p.whole) };

    /// Writes the percent with two decimals, in six columns: wider if needed.
    fn fmt<W: fmt::Write>(&self, f: &mut fmt::Formatter<W>) -> fmt::Result {
        let hundredths = self.hundredths();
        let whole = hundredths / 100;
        let part = hundredths % 100;
        write!(f, "{whole:>3}.{part:02}")
    }
}
