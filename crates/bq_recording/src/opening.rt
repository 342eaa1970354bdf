//! A machine's parts, its history, its counters and its seats at the start.
ghost use Rattle.std.specs.Prelude.{◌≡◌, ◌≤◌, ◌++◌, IfOk, length, map, vec_len, replicate};
ghost use Rattle.bq_disc.specs.declared.limits.TheConstants.{PROCESSORS};
ghost use Rattle.bq_history.specs.Tables.{table_of, start_of};
ghost use Rattle.bq_history.specs.Items.{callers_from, part_item};
ghost use Rattle.bq_shared.specs.Calls.{fresh_callers};
ghost use Rattle.bq_shared.specs.Sums.{fresh_account};
ghost use Rattle.bq_shared.specs.Parts.{first_parts};
ghost use Rattle.bq_shared.specs.Prepared.{ArePrepared};
ghost use Rattle.bq_recording.specs.Queues.{AreFresh};

use crate::locked_parts::{PartLocks, part_locks};
use crate::prepared::Prepared;
use crate::{ClosingRoom, MachineSeat, Recorder};
use bq_disc::RunQueue;
use bq_history::{Holder, Item, Journal, Naming};
use bq_hooks::Loads;
use bq_shared::{
    CounterAccount, Counting, JournalState, NumberedCpu, NumberedInbox, OneLobby, Record,
    UnderLock, UnnamedCounters, WorldPart, seats,
};
use std::alloc::{AllocError, Global};
use std::sync::Mutex;

/// The machine that `N` names, of `P` processors, in pieces: the recorder of its events, a lock for each part, the room that
/// its end needs, and its number of seats.
#[derive(Drop)]
pub struct Opening<Q: RunQueue + Drop, N: Naming + Counting, const P: usize> {
    pub recorder: Recorder<Q, N>,
    pub cpus: Vec<Mutex<UnderLock<NumberedCpu<Q>, N>>>,
    pub inboxes: Vec<Mutex<UnderLock<NumberedInbox, N>>>,
    pub lobby: Mutex<UnderLock<OneLobby, N>>,
    pub room: Mutex<ClosingRoom<Q, P>>,
    pub seats: u64,
    ghost setup: { recorder.history.setup ≡ P },
    ghost counted: { vec_len cpus ≡ P },
    ghost one_each: { vec_len inboxes ≡ P },
    ghost few: { P ≤ PROCESSORS },
    ghost seated: { seats ≡ recorder.history.callers },
}

impl<Q: RunQueue + Drop, N: Naming + Counting, const P: usize> Opening<Q, N, P> {
    /// Opens a machine over `queues`, one for each processor, without tasks and at the first mark. Returns it with its
    /// seats, numbered from 0. It takes memory for all locks and seats.
    pub fn with_queues(
        alloc: Global,
        queues: Vec<Q>,
        prepared: Prepared<Q>,
        unnamed: UnnamedCounters,
        seat_count: u64,
    ) -> Result<(Opening<Q, N, P>, Vec<MachineSeat<N>>), AllocError>
        requires few { P ≤ PROCESSORS }
        requires name { table_of prepared ≡ N.table }
        requires counters { table_of unnamed ≡ N.counters }
        requires counts { ArePrepared P seat_count prepared unnamed }
        requires many { length queues.items ≡ P }
        requires empty { AreFresh Q.members Q.last_mark queues.items }
        ensures seats { IfOk result (λ r. r.1.items ≡ fresh_callers 0 seat_count) }
        ensures count { IfOk result (λ r. r.0.seats ≡ seat_count) }
    {
        let (recorder, mut all, account) = recorder_at_start(prepared, unnamed, P);
        let locks = part_locks(alloc, &recorder.history, &mut all, queues, P as u8)?;
        let seats = seats(
            alloc,
            &recorder.history,
            &mut all,
            &recorder.counters,
            account,
            seat_count,
        )?;
        let room = ClosingRoom::new(alloc)?;
        let PartLocks {
            lobby,
            cpus,
            inboxes,
        } = locks;
        let opening = Opening {
            recorder,
            cpus,
            inboxes,
            lobby,
            room: Mutex::new(room),
            seats: seat_count,
        };
        Ok((opening, seats))
    }
}

/// Makes the recorder of a machine of `count` processors. Returns it with one holder of all parts and callers, and the account
/// of all seats.
fn recorder_at_start<Q: RunQueue + Drop, N: Naming + Counting>(
    prepared: Prepared<Q>,
    unnamed: UnnamedCounters,
    count: usize,
) -> (
    Recorder<Q, N>,
    Holder<Item<Record, WorldPart, JournalState>, N>,
    CounterAccount<N>,
)
    requires few { count ≤ PROCESSORS }
    requires name { table_of prepared ≡ N.table }
    requires counters { table_of unnamed ≡ N.counters }
    requires counts { ((start_of prepared).setup ≡ count) × (start_of unnamed ≡ (start_of prepared).callers) }
    ensures history { result.0.history ≡ start_of prepared }
    ensures items { result.1 ≡ map part_item (first_parts count) ++ callers_from 0 (start_of prepared).callers }
    ensures account { result.2 ≡ fresh_account (start_of unnamed) }
{
    let (history, mut all) = prepared.named::<N>();
    let (counters, account) = unnamed.named::<N>();
    let kept = JournalState {
        drawn: 0,
        loads: zero_loads(count),
    };
    let journal = Journal::open(&history, &mut all, kept);
    let recorder = Recorder {
        history,
        counters,
        journal: Mutex::new(journal),
    };
    (recorder, all, account)
}

/// Makes the loads of processors without tasks: all are 0.
fn zero_loads(count: usize) -> Loads
    requires { count ≤ PROCESSORS }
    ensures { result ≡ replicate count 0 }
{
    let mut loads = Loads::new();
    'loads: for _ in 0..count {
        loads.push(0);
    }
    loads
}
