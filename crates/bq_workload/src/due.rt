//! What comes due, and its rank. Of the things that are due at one instant, the one of the least rank comes first.
ghost use Rattle.std.specs.Prelude.{◌≡◌, ◌<◌, Some};
ghost use Rattle.bq_workload.specs.Dues.{IsDue, due_rank, due_at};

use bq_disc::limits::{PROCESSORS, TASKS};

/// Something that comes due. Things of one instant come in this order, and things of one kind by their numbers. Processors have
/// numbers below `PROCESSORS`, and tasks below `TASKS`.
#[derive(Clone, Copy)]
pub enum Due {
    /// The run phase of the task that runs at a processor ends.
    End(u8),
    /// A timer wakes a task.
    Wake(u16),
    /// The clock of a processor ticks.
    Tick(u8),
    /// A processor looks for a task to pull.
    Look(u8),
}

/// The rank of the first wake, after the ranks of the phase ends.
const FIRST_WAKE: u16 = PROCESSORS as u16;

/// The rank of the first tick.
const FIRST_TICK: u16 = FIRST_WAKE + TASKS;

/// The rank of the first look.
const FIRST_LOOK: u16 = FIRST_TICK + PROCESSORS as u16;

/// How many ranks there are.
pub(crate) const RANKS: u16 = FIRST_LOOK + PROCESSORS as u16;

impl Due {
    /// Its rank among the things that are due at one instant.
    pub fn rank(self) -> u16
        requires { IsDue self }
        ensures rank { result ≡ due_rank self }
        ensures few { result < RANKS }
        ensures back { due_at result ≡ Some self }
    {
        match self {
            Due::End(processor) => u16::from(processor),
            Due::Wake(task) => FIRST_WAKE + task,
            Due::Tick(processor) => FIRST_TICK + u16::from(processor),
            Due::Look(processor) => FIRST_LOOK + u16::from(processor),
        }
    }

    /// What comes due at a rank.
    pub fn at(rank: u16) -> Due
        requires { rank < RANKS }
        ensures { due_at rank ≡ Some result }
    {
        if rank < FIRST_WAKE {
            Due::End(rank as u8)
        } else if rank < FIRST_TICK {
            Due::Wake(rank - FIRST_WAKE)
        } else if rank < FIRST_LOOK {
            Due::Tick((rank - FIRST_TICK) as u8)
        } else {
            Due::Look((rank - FIRST_LOOK) as u8)
        }
    }
}
