//! A machine at the start.
ghost use Rattle.std.specs.Prelude.{◌≡◌, ◌≤◌, IfOk, length};
ghost use Rattle.bq_history.specs.Tables.{table_of};
ghost use Rattle.bq_shared.specs.Calls.{fresh_callers};
ghost use Rattle.bq_shared.specs.Prepared.{ArePrepared};
ghost use Rattle.bq_recording.specs.Queues.{AreFresh};

use crate::clock::Clock;
use crate::machine::Machine;
use bq_disc::RunQueue;
use bq_disc::limits::PROCESSORS;
use bq_history::Naming;
use bq_recording::{MachineSeat, Opening, Prepared, empty_queues};
use bq_shared::{Counting, UnnamedCounters};
use std::alloc::{AllocError, Global};

impl<Q: RunQueue + Drop, K: Clock + Drop, N: Naming + Counting, const P: usize> Machine<
    Q,
    K,
    N,
    P,
> {
    /// Makes the machine that `N` names. Returns it with its seats, numbered from 0. Allocates all locks and seats.
    pub fn new(
        alloc: Global,
        clock: K,
        prepared: Prepared<Q>,
        unnamed: UnnamedCounters,
        seat_count: u64,
    ) -> Result<(Machine<Q, K, N, P>, Vec<MachineSeat<N>>), AllocError>
        requires few { P ≤ PROCESSORS }
        requires name { table_of prepared ≡ N.table }
        requires counters { table_of unnamed ≡ N.counters }
        requires counts { ArePrepared P seat_count prepared unnamed }
        ensures seats { IfOk result (λ r. r.1.items ≡ fresh_callers 0 seat_count) }
        ensures history { IfOk result (λ r. (r.0.recorder.history.setup ≡ P) × (r.0.recorder.history.callers ≡ seat_count)) }
    {
        let queues = empty_queues(alloc, P)?;
        Machine::with_queues(alloc, clock, queues, prepared, unnamed, seat_count)
    }

    /// Makes the machine that `N` names over queues that you hand in: one for each processor, without tasks and at the first
    /// mark. Returns it with its seats, numbered from 0. Allocates all locks and seats.
    pub fn with_queues(
        alloc: Global,
        clock: K,
        queues: Vec<Q>,
        prepared: Prepared<Q>,
        unnamed: UnnamedCounters,
        seat_count: u64,
    ) -> Result<(Machine<Q, K, N, P>, Vec<MachineSeat<N>>), AllocError>
        requires few { P ≤ PROCESSORS }
        requires name { table_of prepared ≡ N.table }
        requires counters { table_of unnamed ≡ N.counters }
        requires counts { ArePrepared P seat_count prepared unnamed }
        requires many { length queues.items ≡ P }
        requires empty { AreFresh Q.members Q.last_mark queues.items }
        ensures seats { IfOk result (λ r. r.1.items ≡ fresh_callers 0 seat_count) }
        ensures history { IfOk result (λ r. (r.0.recorder.history.setup ≡ P) × (r.0.recorder.history.callers ≡ seat_count)) }
    {
        let (opening, seats) = Opening::with_queues(alloc, queues, prepared, unnamed, seat_count)?;
        let Opening {
            recorder,
            cpus,
            inboxes,
            lobby,
            room,
            seats: count,
        } = opening;
        let machine = Machine {
            clock,
            recorder,
            cpus,
            inboxes,
            lobby,
            room,
            seats: count,
        };
        Ok((machine, seats))
    }
}
