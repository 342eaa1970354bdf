//! What all callers share besides the locks of the world's parts.
ghost use Rattle.std.specs.Prelude.{◌≡◌, ◌≤◌};
ghost use Rattle.std.specs.Sync.Mutex.{mutex_guard_value};
ghost use Rattle.bq_history.specs.Journals.{HasFreePlace};
ghost use Rattle.bq_disc.specs.declared.limits.TheConstants.{PROCESSORS};

use bq_disc::RunQueue;
use bq_history::{Cell, Journal, Naming};
use bq_shared::{
    Counters, Counting, JournalState, NumberedCpu, Record, Shared, Working, WorldPart,
};
use std::sync::{Mutex, MutexGuard, Wait};

/// A caller's access to a machine. Contracts see its number and its receipts, in order.
pub type MachineSeat<N> = bq_shared::Seat<Record, WorldPart, JournalState, N>;

/// What a seat has while an event is under way.
pub type WorkingSeat<N> = Working<Record, WorldPart, JournalState, N>;

/// A processor whose lock is held. Its hand may be full.
pub type CpuCell<Q, N> = Cell<NumberedCpu<Q>, Record, WorldPart, JournalState, N>;

/// The journal, whose lock is held.
pub type LockedJournal<'a, N> = MutexGuard<'a, Journal<Record, WorldPart, JournalState, N>>;

/// The history with its journal, and the counters. Each event of a machine is recorded here, under the locks of all parts that
/// it touches; the journal's lock is taken last.
#[derive(Drop)]
pub struct Recorder<Q: RunQueue + Drop, N: Naming + Counting> {
    pub history: Shared<Q, N>,
    pub counters: Counters<N>,
    pub journal: Mutex<Journal<Record, WorldPart, JournalState, N>>,
    pub ghost few: { history.setup ≤ PROCESSORS },
    pub ghost same: { counters ≡ history.callers },
}

impl<Q: RunQueue + Drop, N: Naming + Counting> Recorder<Q, N> {
    /// Locks the journal. Waits for ever if there is no room for another record.
    #[inline(always)]
    pub fn lock_journal<R: Wait>(&self, rt: &R) -> LockedJournal<'_, N>
        ensures { HasFreePlace (mutex_guard_value result) }
    {
        let guard = lock(rt, &self.journal);
        guard.need_room(rt);
        guard
    }
}

/// Locks a mutex that is mostly free. If it is free, that is done in place; a call is made only to wait for it.
#[inline(always)]
pub fn lock<'a, R: Wait, T>(rt: &R, of: &'a Mutex<T>) -> MutexGuard<'a, T> {
    match of.try_lock() {
        Some(guard) => guard,
        None => of.lock(rt),
    }
}

/// Waits for ever if a lock has the content of another number, and returns at once if it has its own.
pub fn hang_unless_own<R: Wait>(rt: &R, number: u8, wanted: u8)
    ensures { number ≡ wanted }
{
    if number != wanted {
        for _ in rt.forever() {}
        unreachable!()
    }
}
