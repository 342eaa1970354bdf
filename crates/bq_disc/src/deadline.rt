//! When a task is due.
ghost use Rattle.std.specs.Prelude.{◌≡◌, Option, Some, None};
ghost use Rattle.bq_disc.specs.Dues.{is_earlier, earlier_of, earliest_of};

/// A virtual deadline, and the id of its task. Of two equal deadlines, the one with the lesser id comes first.
#[derive(Clone, Copy)]
pub struct Deadline {
    pub deadline: u64,
    pub id: u16,
}

impl Deadline {
    /// Whether this deadline comes before another.
    pub fn is_before(&self, other: &Deadline) -> bool
        ensures { result ≡ is_earlier self.now other.now }
    {
        self.deadline < other.deadline || (self.deadline == other.deadline && self.id < other.id)
    }

    /// The earlier of two deadlines.
    pub fn earlier(self, other: Deadline) -> Deadline
        ensures { result ≡ earlier_of self other }
    {
        if other.is_before(&self) { other } else { self }
    }

    /// The earlier of this deadline and another one, if there is another.
    pub fn earliest(self, other: Option<Deadline>) -> Deadline
        ensures { result ≡ earliest_of self other }
    {
        match other {
            None => self,
            Some(other) => self.earlier(other),
        }
    }
}
