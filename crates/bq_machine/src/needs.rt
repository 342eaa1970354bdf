//! How each call at a processor begins: it checks that the processor exists, and makes room for what is recorded.
ghost use Rattle.std.specs.Prelude.{◌≡◌, ◌<◌, ◌∷◌, [], Some, IfErr, OnOk, is_some, true};
ghost use Rattle.bq_parts.specs.Refusals.{first_refusal, no_processor};
ghost use Rattle.bq_parts.specs.declared.refusal.Refusal.TheVariants as no;
ghost use Rattle.bq_machine.specs.Calls.{IsProcessorCallRefused};

use crate::clock::Clock;
use crate::machine::Machine;
use bq_disc::RunQueue;
use bq_history::{Naming, Room};
use bq_parts::Refusal;
use bq_shared::{CallRooms, Counting, Record, call_rooms, record_room};
use std::alloc::Global;

/// Makes room for the record of an event, and for its calls of counters.
#[inline(always)]
pub(crate) fn rooms_of_event(
    alloc: Global,
    room: &mut Room<Record>,
    calls: &mut Option<CallRooms>,
) -> Result<(), Refusal>
    ensures memory { IfErr result (λ refusal. refusal ≡ no.OutOfMemory) }
    ensures ready { OnOk result (room.new ≡ true) }
    ensures calls { OnOk result (is_some calls.new ≡ true) }
{
    record_room(alloc, room)?;
    call_rooms(alloc, calls)
}

impl<Q: RunQueue + Drop, K: Clock + Drop, N: Naming + Counting, const P: usize> Machine<
    Q,
    K,
    N,
    P,
> {
    /// Refuses a number that names no processor.
    #[inline(always)]
    pub(crate) fn check_processor(&self, processor: u8) -> Result<(), Refusal>
        ensures inside { OnOk result (processor < P) }
        ensures refused { IfErr result (λ e. first_refusal (no_processor P processor ∷ []) ≡ Some e) }
    {
        if usize::from(processor) >= self.cpus.len() {
            return Err(Refusal::NoProcessor);
        }
        Ok(())
    }

    /// Prepares an event at a processor before the processor is locked. It is refused only for the processor's number or for
    /// lack of memory.
    #[inline(always)]
    pub(crate) fn begin_call(
        &self,
        alloc: Global,
        room: &mut Room<Record>,
        calls: &mut Option<CallRooms>,
        processor: u8,
    ) -> Result<(), Refusal>
        ensures inside { OnOk result (processor < P) }
        ensures ready { OnOk result (room.new ≡ true) }
        ensures calls { OnOk result (is_some calls.new ≡ true) }
        ensures refused { IfErr result (IsProcessorCallRefused P processor) }
    {
        self.check_processor(processor)?;
        rooms_of_event(alloc, room, calls)
    }
}
