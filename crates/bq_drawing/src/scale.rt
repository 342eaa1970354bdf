//! Where a moment is in the picture.
ghost use Rattle.std.specs.Prelude.{◌≡◌, Some};
ghost use Rattle.bq_drawing.specs.Scales.{arrow_time, hundredths, moment_place, drawn_width};

use bq_report::Extent;
use std::fmt;

/// Hundredths of a unit of the picture.
///
/// 1250 is `12.50`.
#[derive(Clone, Copy)]
pub struct Hundredths(pub u64);

impl fmt::Display for Hundredths {
    ghost output = { λ h. Some (hundredths h.0) };

    /// Writes the number of units, with two decimals.
    fn fmt<W: fmt::Write>(&self, f: &mut fmt::Formatter<W>) -> fmt::Result {
        let whole = self.0 / 100;
        let tenths = self.0 / 10 % 10;
        let last = self.0 % 10;
        write!(f, "{whole}.{tenths}{last}")
    }
}

/// How wide an extent is drawn.
pub const WIDTH: u64 = 1080;

/// How wide the arrow of a wake is.
const ARROW: u64 = 9;

/// How far an extent is from the left edge.
pub const LEFT: u64 = 72;

/// How far an extent is from the right edge.
const RIGHT: u64 = 24;

/// How wide the picture is.
pub const PAGE: u64 = LEFT + WIDTH + RIGHT;

/// The least width that can be seen, in hundredths.
const LEAST: u64 = 40;

/// An extent, drawn over `WIDTH`.
#[derive(Clone, Copy)]
pub struct Scale {
    pub extent: Extent,
}

impl Scale {
    /// Returns how far a moment is from the left edge.
    pub fn place(&self, time: u64) -> Hundredths
        ensures { result.0 ≡ moment_place self.now.extent time }
    {
        let length = self.extent.to.saturating_sub(self.extent.from).max(1);
        let after = time.min(self.extent.to).saturating_sub(self.extent.from);
        let part = u128::from(after) * u128::from(WIDTH * 100) / u128::from(length);
        Hundredths(LEFT * 100 + part as u64)
    }

    /// Returns how wide the time between two moments is drawn: at least as wide as can be seen.
    pub fn width(&self, from: u64, to: u64) -> Hundredths
        ensures { result.0 ≡ drawn_width self.now.extent from to }
    {
        let Hundredths(begin) = self.place(from);
        let Hundredths(end) = self.place(to);
        Hundredths(end.saturating_sub(begin).max(LEAST))
    }

    /// Returns the time that the arrow of a wake covers, in nanoseconds.
    pub fn arrow(&self) -> u64
        ensures { result ≡ arrow_time self.now.extent }
    {
        self.extent.length() / WIDTH * ARROW + 1
    }
}
