//! The calls of counters of one event.
ghost use Rattle.std.specs.Prelude.{◌≡◌, ◌≤◌, [], length, true, is_some};

use arrayvec::ArrayVec;
use bq_bpf::CounterCall;
use bq_bpf::board::MOST_CALLS;
use std::alloc::{AllocError, Global};
use std::marker::Model;

/// The calls of counters of one event, at most `MOST_CALLS`. They are in a box of their own, so that an event without calls
/// takes no memory for them. Contracts see the list.
#[derive(Drop)]
pub struct Calls {
    list: Option<Box<ArrayVec<CounterCall, MOST_CALLS>>>,
}

impl Model for Calls {
    ghost use Rattle.std.specs.Prelude.{List};
    ghost use Rattle.bq_bpf.specs.declared.board.CounterCall.{CounterCall as CounterCallValue};
    ghost use Rattle.bq_shared.specs.Listed.{listed};

    ghost Value = { List CounterCallValue };

    ghost view = { λ c. listed c.list (λ b. b.value.items) };
}

impl Calls {
    ghost use Rattle.std.specs.Prelude.{◌↔◌, IsTrue};

    /// Makes a list without calls. It takes no memory.
    pub fn none() -> Calls
        ensures { result ≡ [] }
    {
        Calls { list: None }
    }

    /// Returns the calls, in order.
    pub fn as_slice(&self) -> &[CounterCall]
        ensures { result.now ≡ self.now }
    {
        match &self.list {
            None => &[],
            Some(list) => list.as_slice(),
        }
    }

    /// Returns whether both have equal calls, with equal answers.
    #[inline(always)]
    pub fn is_same(&self, other: &Calls) -> bool
        ensures { IsTrue result ↔ (self.now ≡ other.now) }
    {
        // Most events have no calls; other lists are compared item by item.
        if self.list.is_none() && other.list.is_none() {
            return true;
        }
        self.as_slice() == other.as_slice()
    }
}

/// Room for the calls of one event, once for its record and once for its receipt. It is made before any lock is taken.
#[derive(Drop)]
pub struct CallRooms {
    record: Box<ArrayVec<CounterCall, MOST_CALLS>>,
    receipt: Box<ArrayVec<CounterCall, MOST_CALLS>>,
}

impl CallRooms {
    /// Makes empty rooms. Only events with calls use them up, so they are seldom made.
    #[cold]
    #[inline(never)]
    pub fn new(alloc: Global) -> Result<CallRooms, AllocError> {
        let record = Box::new(alloc, ArrayVec::new())?;
        let receipt = Box::new(alloc, ArrayVec::new())?;
        Ok(CallRooms { record, receipt })
    }
}

/// Puts these calls into the rooms, for the record and for the receipt. If there are no calls, the rooms remain for another
/// event.
#[inline(always)]
pub fn hold_calls(rooms: &mut Option<CallRooms>, calls: &[CounterCall]) -> (Calls, Calls)
    requires few { length calls.now ≤ MOST_CALLS }
    requires ready { is_some rooms.old ≡ true }
    ensures record { result.0 ≡ calls.now }
    ensures receipt { result.1 ≡ calls.now }
{
    if calls.is_empty() {
        return (Calls::none(), Calls::none());
    }
    filled_twice(rooms, calls)
}

/// Puts these calls, at least one, into the rooms. It is a function of its own since most events have no calls.
#[inline(never)]
fn filled_twice(rooms: &mut Option<CallRooms>, calls: &[CounterCall]) -> (Calls, Calls)
    requires few { length calls.now ≤ MOST_CALLS }
    requires ready { is_some rooms.old ≡ true }
    ensures record { result.0 ≡ calls.now }
    ensures receipt { result.1 ≡ calls.now }
{
    let Some(CallRooms { record, receipt }) = rooms.take() else {
        unreachable!()
    };
    (filled(record, calls), filled(receipt, calls))
}

/// Puts these calls into a room, in place of what is there.
fn filled(room: Box<ArrayVec<CounterCall, MOST_CALLS>>, calls: &[CounterCall]) -> Calls
    requires { length calls.now ≤ MOST_CALLS }
    ensures { result ≡ calls.now }
{
    let mut list = room;
    list.clear();
    if list.try_extend_from_slice(calls).is_err() {
        unreachable!();
    }
    Calls { list: Some(list) }
}
