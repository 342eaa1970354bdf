//! What is left of a machine at its end.
ghost use Rattle.std.specs.Prelude.{◌≡◌, ◌↔◌, IsTrue, length, slice_get};
ghost use Rattle.std.specs.Option.{option_map};
ghost use Rattle.bq_history.specs.History.{IsConfirmed};

use bq_bpf::CounterCall;
use bq_bpf::board::COUNTERS;
use bq_core::Core;
use bq_disc::RunQueue;
use bq_history::{ClosedRecords as History, Receipt};
use bq_parts::{Event, Refusal, Reply};
use bq_shared::Record;

/// The history of a machine, the world that it leads to, and the machine's counters.
#[derive(Drop)]
pub struct Closed<Q: RunQueue + Drop, const P: usize> {
    pub history: History<Record>,
    pub core: Core<Q, P>,
    pub counters: [u64; COUNTERS],
}

impl<Q: RunQueue + Drop, const P: usize> Closed<Q, P> {
    /// Returns how many events the history has.
    pub fn len(&self) -> u64
        ensures { result ≡ length self.now.history }
    {
        self.history.len()
    }

    /// Returns the event at a place, counted from 0, with its answer and its calls of counters; None if the history is not that long.
    pub fn logged(&self, place: u64) -> Option<(&Event, Result<Reply, Refusal>, &[CounterCall])>
        ensures { option_map (λ r. record { event = r.0.now; reply = r.1; calls = r.2.now }) result ≡ slice_get self.now.history place }
    {
        let record = self.history.logged(place)?;
        Some((
            &record.event,
            record.reply.unpack(),
            record.calls.as_slice(),
        ))
    }

    /// Returns whether the history has the receipt's event at the receipt's place, with the same answer and the same calls of
    /// counters. Policies are compared by their contents.
    pub fn confirms(&self, receipt: &Receipt<Record>) -> bool
        ensures { IsTrue result ↔ IsConfirmed (λ r s. r ≡ s) self.now.history receipt.now }
    {
        self.history.confirms(receipt)
    }
}
