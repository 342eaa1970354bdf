//! Differences of means.
ghost use Rattle.bq_comparison.specs.Differences.{IsDifference};

/// The amount by which one mean is more or less than another.
#[derive(Clone, Copy)]
pub enum Difference {
    More(u128),
    Less(u128),
}

impl Difference {
    /// Returns how much more or less their mean is than ours.
    pub fn of(ours: u128, theirs: u128) -> Difference
        ensures { IsDifference ours theirs result }
    {
        if ours <= theirs {
            Difference::More(theirs - ours)
        } else {
            Difference::Less(ours - theirs)
        }
    }
}
