//! The locks. Their order is: processors by rising number, the lobby, inboxes, the journal.
//! A call whose share needs a fact of the whole world, such as that no task is at two processors, looks at the history first
//! (`look`, `look_at_both`): that brings the fact to the proof, and changes nothing.
ghost use Rattle.std.specs.Prelude.{◌≡◌, ◌≤◌, ◌<◌, vec_len};
ghost use Rattle.std.specs.Sync.Mutex.{mutex_guard_value};
ghost use Rattle.bq_disc.specs.declared.limits.TheConstants.{PROCESSORS};

use crate::clock::Clock;
use bq_bpf::board::COUNTERS;
use bq_disc::RunQueue;
use bq_history::Naming;
use bq_recording::{ClosingRoom, MachineSeat, Recorder, hang_unless_own, lock};
use bq_shared::{Counting, NumberedCpu, NumberedInbox, OneLobby, UnderLock};
use std::sync::{Mutex, MutexGuard, Wait};

/// A processor whose lock is held.
pub(crate) type LockedProcessor<'a, Q, N> = MutexGuard<'a, UnderLock<NumberedCpu<Q>, N>>;

/// The machine that `N` names, of `P` processors.
///
/// To open one, call `bq_recording::prepare::<Q>(alloc, P, seats)`, and pass what it answers to a function over `N` at
/// `std::marker::Brand`. The contract of that function says that these two are the ones that `N` names
/// (`table_of prepared ≡ N.table`, `table_of unnamed ≡ N.counters`).
/// The example is the body of such a function, with one processor under CFS, one seat, and a clock `Steady`.
///
/// # Example
///
/// ```
/// let (machine, mut seats) = Machine::<CfsQueue, Steady, N, 1>::new(
///     alloc, Steady, prepared, unnamed, 1,
/// )?;
/// let Some(mut seat) = seats.pop() else {
///     return Err(Fail::from("no seat"));
/// };
/// let admission = Admission {
///     task: 1,
///     nice: 0,
///     mask: 1,
///     slice: 3_000_000,
/// };
/// machine.admit(rt, alloc, &mut seat, admission)?;
/// machine.wake(rt, alloc, &mut seat, 0, 1)?;
/// machine.drain(rt, alloc, &mut seat, 0)?;
/// let ticked = machine.tick(rt, alloc, &mut seat, 0)?;
/// seats.push(seat)?;
/// if !machine.owns(&seats) {
///     return Err(Fail::from("a seat is missing"));
/// }
/// let closed = machine.close(seats);
/// Ok((closed.len(), closed.confirms(&ticked)))
/// ```
#[derive(Drop)]
pub struct Machine<Q: RunQueue + Drop, K: Clock + Drop, N: Naming + Counting, const P: usize> {
    pub(crate) clock: K,
    pub(crate) recorder: Recorder<Q, N>,
    pub(crate) cpus: Vec<Mutex<UnderLock<NumberedCpu<Q>, N>>>,
    pub(crate) inboxes: Vec<Mutex<UnderLock<NumberedInbox, N>>>,
    pub(crate) lobby: Mutex<UnderLock<OneLobby, N>>,
    pub(crate) room: Mutex<ClosingRoom<Q, P>>,
    pub(crate) seats: u64,
    ghost setup: { recorder.history.setup ≡ P },
    ghost counted: { vec_len cpus ≡ P },
    ghost one_each: { vec_len inboxes ≡ P },
    ghost few: { P ≤ PROCESSORS },
    ghost seated: { seats ≡ recorder.history.callers },
}

impl<Q: RunQueue + Drop, K: Clock + Drop, N: Naming + Counting, const P: usize> Machine<
    Q,
    K,
    N,
    P,
> {
    /// Reads a counter. It takes no lock and no memory, and is not recorded.
    pub fn counter(&self, seat: &mut MachineSeat<N>, counter: u8) -> u64
        requires { counter < COUNTERS }
        ensures { seat.new ≡ seat.old }
    {
        seat.counter(&self.recorder.counters, counter)
    }

    /// Locks a processor.
    #[inline(always)]
    pub(crate) fn lock_processor<R: Wait>(&self, rt: &R, processor: u8) -> LockedProcessor<'_, Q, N>
        requires inside { processor < P }
        ensures own { (mutex_guard_value result).number ≡ processor }
    {
        let guard = lock(rt, &self.cpus[usize::from(processor)]);
        hang_unless_own(rt, guard.cell.content.number, processor);
        guard
    }

    /// Locks the inbox of a processor.
    pub(crate) fn lock_inbox<R: Wait>(
        &self,
        rt: &R,
        processor: u8,
    ) -> MutexGuard<'_, UnderLock<NumberedInbox, N>>
        requires inside { processor < P }
        ensures own { (mutex_guard_value result).number ≡ processor }
    {
        let guard = lock(rt, &self.inboxes[usize::from(processor)]);
        hang_unless_own(rt, guard.cell.content.number, processor);
        guard
    }
}
