//! The end of a machine: once all its seats are back, all that happened is known.
ghost use Rattle.std.specs.Prelude.{◌↔◌, IsTrue};
ghost use Rattle.bq_history.specs.History.{IsHistory, EachOnce, AreReceiptsOf};
ghost use Rattle.bq_shared.specs.Sums.{AreSumsOf};
ghost use Rattle.bq_shared.specs.Calls.{calls_in};
ghost use Rattle.bq_parts.specs.World.{opening_world};
ghost use Rattle.bq_shared.specs.Parts.{RecordStep, reported_calls};

use crate::clock::Clock;
use crate::machine::Machine;
use bq_disc::RunQueue;
use bq_history::Naming;
use bq_recording::{Closed, Locks, MachineSeat, Recorder};
use bq_shared::Counting;

impl<Q: RunQueue + Drop, K: Clock + Drop, N: Naming + Counting, const P: usize> Machine<
    Q,
    K,
    N,
    P,
> {
    /// Returns whether these are all seats of the machine, each once. It takes no lock and no memory.
    pub fn owns(&self, seats: &[MachineSeat<N>]) -> bool
        ensures { IsTrue result ↔ EachOnce self.now.recorder.history.callers seats.now }
    {
        bq_history::owns(self.seats, seats)
    }

    /// Ends the machine and takes all its seats, each once. The history is a chain of steps of the world, from the opening
    /// world to that of the core; no event in it has refused arguments or ran out of memory. Each receipt is at its place,
    /// the places of each seat rise, and each place of the history has exactly one receipt. Each counter is the sum, modulo
    /// 2^64, of the adds in the history. Allocates nothing.
    pub fn close(self, seats: Vec<MachineSeat<N>>) -> Closed<Q, P>
        requires { EachOnce self.recorder.history.callers seats.items }
        ensures history { IsHistory (RecordStep Q.R.discipline) (opening_world P) result.history result.core }
        ensures receipts { AreReceiptsOf result.history seats.items }
        ensures counters { AreSumsOf (calls_in reported_calls result.history) result.counters }
    {
        let Machine {
            clock: _,
            recorder,
            cpus,
            inboxes,
            lobby,
            room,
            seats: _,
        } = self;
        let Recorder {
            history,
            counters,
            journal,
        } = recorder;
        let locks = Locks {
            history,
            counters,
            cpus,
            inboxes,
            lobby,
            journal,
            room,
        };
        bq_recording::close(locks, seats)
    }
}
