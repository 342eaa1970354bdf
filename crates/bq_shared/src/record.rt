//! What the history records of each event.
ghost use Rattle.std.specs.Prelude.{◌≡◌, true, is_some, IfErr, OnOk};
ghost use Rattle.bq_parts.specs.declared.refusal.Refusal.TheVariants as no;

use crate::{CallRooms, Calls, PackedAnswer, ReportsCalls, is_same_event};
use bq_history::{Compared, Room};
use bq_hooks::Loads;
use bq_parts::{Event, Refusal};
use std::alloc::Global;

/// An event, its answer, and its calls of counters in their order.
#[derive(Drop)]
pub struct Record {
    pub event: Event,
    pub reply: PackedAnswer,
    pub calls: Calls,
}

impl ReportsCalls for Record {
    ghost use Rattle.bq_shared.specs.Parts.{reported_calls};

    ghost calls = { reported_calls };
}

/// Two records are alike if their events, answers and calls are equal. Policies are compared by their contents.
impl Compared for Record {
    ghost use Rattle.std.specs.Prelude.{◌≡◌};

    ghost alike = { λ r s. r ≡ s };

    fn is_alike(&self, other: &Record) -> bool {
        is_same_event(&self.event, &other.event)
            && self.reply.is_same(&other.reply)
            && self.calls.is_same(&other.calls)
    }
}

/// Makes room for a record, if there is no room yet.
#[inline(always)]
pub fn record_room(alloc: Global, room: &mut Room<Record>) -> Result<(), Refusal>
    ensures memory { IfErr result (λ refusal. refusal ≡ no.OutOfMemory) }
    ensures ready { OnOk result (room.new ≡ true) }
{
    room.prepare(alloc).map_err(|_| Refusal::OutOfMemory)
}

/// Makes room for the calls of counters of an event, once for its record and once for its receipt, if there is no room yet.
#[inline(always)]
pub fn call_rooms(alloc: Global, rooms: &mut Option<CallRooms>) -> Result<(), Refusal>
    ensures memory { IfErr result (λ refusal. refusal ≡ no.OutOfMemory) }
    ensures ready { OnOk result (is_some rooms.new ≡ true) }
{
    if rooms.is_none() {
        match CallRooms::new(alloc) {
            Ok(made) => *rooms = Some(made),
            Err(_) => return Err(Refusal::OutOfMemory),
        }
    }
    Ok(())
}

/// Makes room for the loads that a wake gets as it begins.
pub fn loads_room(alloc: Global) -> Result<Box<Loads>, Refusal>
    ensures memory { IfErr result (λ refusal. refusal ≡ no.OutOfMemory) }
{
    Box::new(alloc, Loads::new()).map_err(|_| Refusal::OutOfMemory)
}
