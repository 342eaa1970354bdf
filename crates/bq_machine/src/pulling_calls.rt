//! A pull: a processor takes a task from the queue of another. Both are locked, by rising number.
ghost use Rattle.std.specs.Prelude.{◌≡◌, ◌≢◌, ◌<◌, None, Some, IfOk, IfErr, OnOk, OnErr, is_some, true};
ghost use Rattle.std.specs.Sync.Mutex.{mutex_guard_value};
ghost use Rattle.bq_history.specs.Callers.{with_receipt};
ghost use Rattle.bq_parts.specs.Refusals.{argument_refusal};
ghost use Rattle.bq_shared.specs.Calls.{AccountMatchesReceipts};
ghost use Rattle.bq_shared.specs.Parts.{reported_calls};
ghost use Rattle.bq_machine.specs.Calls.{IsCallRefused, RecordsAtReading};

use crate::clock::Clock;
use crate::machine::{LockedProcessor, Machine};
use crate::needs::rooms_of_event;
use crate::records::Records;
use crate::rooms::EventRooms;
use bq_disc::RunQueue;
use bq_history::{Naming, Receipt, look_at_both};
use bq_parts::{Event, Refusal};
use bq_recording::{MachineSeat, WorkingSeat};
use bq_shared::{Counting, Record, hold_calls};
use std::alloc::Global;
use std::sync::Wait;

impl<Q: RunQueue + Drop, K: Clock + Drop, N: Naming + Counting, const P: usize> Machine<
    Q,
    K,
    N,
    P,
> {
    /// Takes a task from the queue of another processor, if the policy or the discipline chooses one. Allocates the record.
    ///
    /// Records nothing if one of the processors does not exist, both are the same, or memory runs out.
    pub fn pull<R: Wait>(
        &self,
        rt: &R,
        alloc: Global,
        seat: &mut MachineSeat<N>,
        processor: u8,
        from: u8,
    ) -> Result<Receipt<Record>, Refusal>
        ensures receipt { IfOk result (λ r. seat.new ≡ with_receipt r seat.old) }
        ensures event { IfOk result (RecordsAtReading (K.gives processor) (λ now. Event.Pull processor from now)) }
        ensures passed { IfOk result (λ _. argument_refusal P (Event.Pull processor from 0) ≡ None) }
        ensures refused { IfErr result (IsCallRefused P (Event.Pull processor from 0)) }
        ensures err { OnErr result (seat.new ≡ seat.old) }
    {
        self.check_pair(processor, from)?;
        rooms_of_event(alloc, &mut seat.record_room, &mut seat.call_rooms)?;
        let rooms = EventRooms {
            record: &mut seat.record_room,
            calls: &mut seat.call_rooms,
        };
        Ok(self.pull_at(rt, &mut seat.working, rooms, processor, from))
    }

    /// Locks both processors, pulls a task from one to the other, and records that.
    fn pull_at<R: Wait>(
        &self,
        rt: &R,
        working: &mut WorkingSeat<N>,
        rooms: EventRooms<'_>,
        processor: u8,
        from: u8,
    ) -> Receipt<Record>
        requires inside { (processor < P) × (from < P) }
        requires apart { processor ≢ from }
        requires ready { rooms.record.now ≡ true }
        requires calls { is_some rooms.calls.now ≡ true }
        requires account { AccountMatchesReceipts reported_calls working.old }
        ensures caller { working.new.caller ≡ with_receipt result working.old.caller }
        ensures account { AccountMatchesReceipts reported_calls working.new }
        ensures event { RecordsAtReading (K.gives processor) (λ now. Event.Pull processor from now) result }
    {
        // The clock is read before any lock, since both locks may be waited for. A reading below the processor's last counts
        // as the last.
        let now = self.clock.now(processor);
        let (mut guard, mut source_guard) = self.lock_both(rt, processor, from);
        let cpu = &mut *guard;
        let source = &mut *source_guard;
        look_at_both(&self.recorder.history, cpu, source);
        let content = &mut cpu.cell.content;
        content.scratch.clear();
        let mut counter_board = working.open_board(&self.recorder.counters);
        let reply = content.state.pull(
            &mut source.cell.content.state,
            processor,
            from,
            now,
            &mut content.scratch,
            &mut counter_board,
        );
        working.close_board(counter_board);
        let held = hold_calls(rooms.calls, content.scratch.calls());
        let mut journal = self.recorder.lock_journal(rt);
        let kept = journal.kept().after_pull(processor, from, &reply);
        let event = Event::Pull {
            processor,
            from,
            now,
        };
        let draft = Records::of(event, &Ok(reply), held).draft(rooms.record, kept);
        working.commit_two(
            &self.recorder.history,
            &mut *journal,
            &mut cpu.cell,
            &mut source.cell,
            draft,
        )
    }

    /// Refuses a number that names no processor, and two equal numbers.
    fn check_pair(&self, processor: u8, from: u8) -> Result<(), Refusal>
        ensures inside { OnOk result ((processor < P) × (from < P)) }
        ensures apart { OnOk result (processor ≢ from) }
        ensures passed { OnOk result (argument_refusal P (Event.Pull processor from 0) ≡ None) }
        ensures refused { IfErr result (λ e. argument_refusal P (Event.Pull processor from 0) ≡ Some e) }
    {
        let count = self.cpus.len();
        if usize::from(processor) >= count || usize::from(from) >= count {
            return Err(Refusal::NoProcessor);
        }
        if processor == from {
            return Err(Refusal::SameProcessor);
        }
        Ok(())
    }

    /// Locks two processors, the one of lesser number first.
    fn lock_both<R: Wait>(
        &self,
        rt: &R,
        processor: u8,
        from: u8,
    ) -> (LockedProcessor<'_, Q, N>, LockedProcessor<'_, Q, N>)
        requires inside { (processor < P) × (from < P) }
        ensures own { (mutex_guard_value result.0).number ≡ processor }
        ensures own_source { (mutex_guard_value result.1).number ≡ from }
    {
        if processor < from {
            let guard = self.lock_processor(rt, processor);
            let source_guard = self.lock_processor(rt, from);
            return (guard, source_guard);
        }
        let source_guard = self.lock_processor(rt, from);
        let guard = self.lock_processor(rt, processor);
        (guard, source_guard)
    }
}
