//! The calls at one processor: its clock ticks, the tasks of its inbox enter its queue, and its running task goes to sleep.
ghost use Rattle.std.specs.Prelude.{◌≡◌, ◌<◌, IfOk, IfErr, OnErr, is_some, true};
ghost use Rattle.bq_history.specs.Callers.{with_receipt};
ghost use Rattle.bq_shared.specs.Calls.{AccountMatchesReceipts};
ghost use Rattle.bq_shared.specs.Parts.{reported_calls};
ghost use Rattle.bq_machine.specs.Calls.{IsProcessorCallRefused, RecordsAtReading};

use crate::clock::Clock;
use crate::machine::Machine;
use crate::records::Records;
use crate::rooms::EventRooms;
use bq_disc::RunQueue;
use bq_history::{Naming, Receipt, Room, look_at_both};
use bq_parts::{Event, Refusal};
use bq_recording::{MachineSeat, WorkingSeat};
use bq_shared::{Counting, Record, hold_calls, record_room};
use std::alloc::Global;
use std::sync::Wait;

impl<Q: RunQueue + Drop, K: Clock + Drop, N: Naming + Counting, const P: usize> Machine<
    Q,
    K,
    N,
    P,
> {
    /// Reads the clock of a processor, charges its running task, and decides who runs. Allocates the record.
    ///
    /// Records nothing if there is no such processor or memory runs out.
    #[inline(always)]
    pub fn tick<R: Wait>(
        &self,
        rt: &R,
        alloc: Global,
        seat: &mut MachineSeat<N>,
        processor: u8,
    ) -> Result<Receipt<Record>, Refusal>
        ensures receipt { IfOk result (λ r. seat.new ≡ with_receipt r seat.old) }
        ensures event { IfOk result (RecordsAtReading (K.gives processor) (λ now. Event.Tick processor now)) }
        ensures passed { IfOk result (λ _. processor < P) }
        ensures refused { IfErr result (IsProcessorCallRefused P processor) }
        ensures err { OnErr result (seat.new ≡ seat.old) }
    {
        self.begin_call(
            alloc,
            &mut seat.record_room,
            &mut seat.call_rooms,
            processor,
        )?;
        let rooms = EventRooms {
            record: &mut seat.record_room,
            calls: &mut seat.call_rooms,
        };
        Ok(self.tick_at(rt, &mut seat.working, rooms, processor))
    }

    /// Locks the processor, ticks there, and records that.
    #[inline(always)]
    fn tick_at<R: Wait>(
        &self,
        rt: &R,
        working: &mut WorkingSeat<N>,
        rooms: EventRooms<'_>,
        processor: u8,
    ) -> Receipt<Record>
        requires inside { processor < P }
        requires ready { rooms.record.now ≡ true }
        requires calls { is_some rooms.calls.now ≡ true }
        requires account { AccountMatchesReceipts reported_calls working.old }
        ensures caller { working.new.caller ≡ with_receipt result working.old.caller }
        ensures account { AccountMatchesReceipts reported_calls working.new }
        ensures event { RecordsAtReading (K.gives processor) (λ now. Event.Tick processor now) result }
    {
        let mut guard = self.lock_processor(rt, processor);
        let cpu = &mut *guard;
        let now = self.clock.now(processor);
        cpu.look(&self.recorder.history);
        let content = &mut cpu.cell.content;
        content.scratch.clear();
        let mut counter_board = working.open_board(&self.recorder.counters);
        let reply = content
            .state
            .tick(processor, now, &mut content.scratch, &mut counter_board);
        working.close_board(counter_board);
        let held = hold_calls(rooms.calls, content.scratch.calls());
        let draft = Records::of_tick(processor, now, reply, held).draft(rooms.record, None);
        let mut journal = self.recorder.lock_journal(rt);
        working.commit_one(&self.recorder.history, &mut *journal, &mut cpu.cell, draft)
    }

    /// Moves all tasks of a processor's inbox to its queue, and decides who runs. Allocates the record.
    ///
    /// Records nothing if there is no such processor or memory runs out.
    pub fn drain<R: Wait>(
        &self,
        rt: &R,
        alloc: Global,
        seat: &mut MachineSeat<N>,
        processor: u8,
    ) -> Result<Receipt<Record>, Refusal>
        ensures receipt { IfOk result (λ r. seat.new ≡ with_receipt r seat.old) }
        ensures event { IfOk result (RecordsAtReading (K.gives processor) (λ now. Event.Drain processor now)) }
        ensures passed { IfOk result (λ _. processor < P) }
        ensures refused { IfErr result (IsProcessorCallRefused P processor) }
        ensures err { OnErr result (seat.new ≡ seat.old) }
    {
        self.begin_call(
            alloc,
            &mut seat.record_room,
            &mut seat.call_rooms,
            processor,
        )?;
        let rooms = EventRooms {
            record: &mut seat.record_room,
            calls: &mut seat.call_rooms,
        };
        Ok(self.drain_at(rt, &mut seat.working, rooms, processor))
    }

    /// Locks the processor and its inbox, drains the inbox, and records that.
    fn drain_at<R: Wait>(
        &self,
        rt: &R,
        working: &mut WorkingSeat<N>,
        rooms: EventRooms<'_>,
        processor: u8,
    ) -> Receipt<Record>
        requires inside { processor < P }
        requires ready { rooms.record.now ≡ true }
        requires calls { is_some rooms.calls.now ≡ true }
        requires account { AccountMatchesReceipts reported_calls working.old }
        ensures caller { working.new.caller ≡ with_receipt result working.old.caller }
        ensures account { AccountMatchesReceipts reported_calls working.new }
        ensures event { RecordsAtReading (K.gives processor) (λ now. Event.Drain processor now) result }
    {
        let mut guard = self.lock_processor(rt, processor);
        let cpu = &mut *guard;
        let now = self.clock.now(processor);
        let mut inbox_guard = self.lock_inbox(rt, processor);
        let inbox = &mut *inbox_guard;
        look_at_both(&self.recorder.history, cpu, inbox);
        let content = &mut cpu.cell.content;
        content.scratch.clear();
        let mut counter_board = working.open_board(&self.recorder.counters);
        let reply = content.state.drain(
            &mut inbox.cell.content.state,
            processor,
            now,
            &mut content.scratch,
            &mut counter_board,
        );
        working.close_board(counter_board);
        let held = hold_calls(rooms.calls, content.scratch.calls());
        let event = Event::Drain { processor, now };
        let draft = Records::of(event, &Ok(reply), held).draft(rooms.record, None);
        let mut journal = self.recorder.lock_journal(rt);
        working.commit_two(
            &self.recorder.history,
            &mut *journal,
            &mut cpu.cell,
            &mut inbox.cell,
            draft,
        )
    }

    /// Puts the running task of a processor to sleep, and runs the queue's choice. Allocates the record.
    ///
    /// Records nothing if there is no such processor or memory runs out. If nothing runs there, the receipt has that answer.
    pub fn block<R: Wait>(
        &self,
        rt: &R,
        alloc: Global,
        seat: &mut MachineSeat<N>,
        processor: u8,
    ) -> Result<Receipt<Record>, Refusal>
        ensures receipt { IfOk result (λ r. seat.new ≡ with_receipt r seat.old) }
        ensures event { IfOk result (RecordsAtReading (K.gives processor) (λ now. Event.Block processor now)) }
        ensures passed { IfOk result (λ _. processor < P) }
        ensures refused { IfErr result (IsProcessorCallRefused P processor) }
        ensures err { OnErr result (seat.new ≡ seat.old) }
    {
        self.check_processor(processor)?;
        record_room(alloc, &mut seat.record_room)?;
        Ok(self.block_at(rt, &mut seat.working, &mut seat.record_room, processor))
    }

    /// Locks the processor and the lobby, blocks the running task, and records that.
    fn block_at<R: Wait>(
        &self,
        rt: &R,
        working: &mut WorkingSeat<N>,
        room: &mut Room<Record>,
        processor: u8,
    ) -> Receipt<Record>
        requires inside { processor < P }
        requires ready { room.old ≡ true }
        requires account { AccountMatchesReceipts reported_calls working.old }
        ensures caller { working.new.caller ≡ with_receipt result working.old.caller }
        ensures account { AccountMatchesReceipts reported_calls working.new }
        ensures event { RecordsAtReading (K.gives processor) (λ now. Event.Block processor now) result }
    {
        let mut guard = self.lock_processor(rt, processor);
        let cpu = &mut *guard;
        let now = self.clock.now(processor);
        let mut lobby_guard = self.lobby.lock(rt);
        let lobby = &mut *lobby_guard;
        cpu.look(&self.recorder.history);
        let reply = cpu
            .cell
            .content
            .state
            .block(&mut lobby.cell.content.state, processor, now);
        let records = Records::without_calls(Event::Block { processor, now }, &reply);
        let mut journal = self.recorder.lock_journal(rt);
        let kept = journal.kept().after_block(processor, &reply);
        working.commit_two(
            &self.recorder.history,
            &mut *journal,
            &mut cpu.cell,
            &mut lobby.cell,
            records.draft(room, kept),
        )
    }
}
