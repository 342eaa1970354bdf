//! The world at the start, before the machine has a name.
ghost use Rattle.std.specs.Prelude.{◌≡◌, IfOk};
ghost use Rattle.bq_history.specs.Tables.{start_of};

use bq_disc::RunQueue;
use bq_history::{FixedAtStart, Opened, open};
use bq_shared::{SchedulerLaw, UnnamedCounters};
use std::alloc::{AllocError, Global};

/// A world with an empty history, which has no name yet.
pub type Prepared<Q> = Opened<SchedulerLaw<Q>>;

/// Makes the world at the start, and its counters, for a machine of this many processors and seats.
pub fn prepare<Q: RunQueue>(
    alloc: Global,
    processors: u64,
    seats: u64,
) -> Result<(Prepared<Q>, UnnamedCounters), AllocError>
    ensures world { IfOk result (λ p. ((start_of p.0).setup ≡ processors) × ((start_of p.0).callers ≡ seats)) }
    ensures counters { IfOk result (λ p. start_of p.1 ≡ seats) }
{
    let prepared = open::<SchedulerLaw<Q>>(
        alloc,
        &FixedAtStart {
            setup: processors,
            callers: seats,
        },
    )?;
    let unnamed = UnnamedCounters::new(alloc, seats)?;
    Ok((prepared, unnamed))
}
