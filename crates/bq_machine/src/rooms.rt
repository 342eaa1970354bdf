//! Room for what an event records. A caller makes it before any lock is taken, and lends it to the event.

use bq_history::Room;
use bq_hooks::Loads;
use bq_shared::{CallRooms, Record};

/// Room for the record of an event, and for the event's calls of counters.
#[derive(Drop)]
pub(crate) struct EventRooms<'a> {
    /// Room for the record.
    pub record: &'a mut Room<Record>,
    /// Room for the calls. It remains for another event if there are no calls.
    pub calls: &'a mut Option<CallRooms>,
}

/// Room for the record of the beginning of a wake, and for the loads in that record.
#[derive(Drop)]
pub(crate) struct BeginRooms<'a> {
    /// Room for the record.
    pub record: &'a mut Room<Record>,
    /// Room for the loads.
    pub loads: LoadRooms,
}

/// Room for the loads at the beginning of a wake, for the history and for the receipt.
#[derive(Drop)]
pub(crate) struct LoadRooms {
    /// Room for the loads of the record in the history.
    pub for_history: Box<Loads>,
    /// Room for the loads of the receipt.
    pub for_receipt: Box<Loads>,
}
