//! What a task does.
ghost use Rattle.std.specs.Prelude.{◌≡◌};
ghost use Rattle.std.specs.List.{list_any};
ghost use Rattle.bq_workload.specs.Lengths.{is_length, takes_time};

use crate::limits::LONGEST;

/// How long something takes, in nanoseconds. Each is from 1 to `LONGEST`, 2^48 - 1: so nothing takes no time.
#[derive(Clone, Copy, PartialEq, Eq)]
pub enum Length {
    /// A fixed length.
    Fixed(u64),
    /// Each whole number from `least` to `greatest`, both included, as likely as another.
    Uniform { least: u64, greatest: u64 },
    /// Exponential with this mean, as far as whole numbers go: at least 1, and at most 46 means and `LONGEST`.
    Exponential { mean: u64 },
}

impl Length {
    /// Whether its numbers are from 1 to `LONGEST` and its least is at most its greatest.
    pub fn is_sound(&self) -> bool
        ensures { result ≡ is_length self.now }
    {
        match self {
            Length::Fixed(length) => 1 <= *length && *length <= LONGEST,
            Length::Uniform { least, greatest } => {
                1 <= *least && *least <= *greatest && *greatest <= LONGEST
            }
            Length::Exponential { mean } => 1 <= *mean && *mean <= LONGEST,
        }
    }
}

/// One thing that a task does, while it runs.
#[derive(Clone, Copy, PartialEq, Eq)]
pub enum Action {
    /// It runs for this much time of a processor: a run phase.
    Run(Length),
    /// It sleeps for this long; then a timer wakes it.
    Sleep(Length),
    /// It sleeps until another task wakes it.
    Wait,
    /// It wakes each task of a kind, one after another by their numbers. The kind is an index into the workload's tasks.
    Wake(usize),
}

impl Action {
    /// Whether the action takes time whatever other tasks do: `Run` and `Sleep` do.
    pub fn takes_time(&self) -> bool
        ensures { result ≡ takes_time self.now }
    {
        matches!(self, Action::Run(_) | Action::Sleep(_))
    }
}

/// Whether at least one of these actions takes time.
pub fn take_time(actions: &[Action]) -> bool
    ensures { result ≡ list_any takes_time actions.now }
{
    actions.iter().any(|action| action.takes_time())
}
