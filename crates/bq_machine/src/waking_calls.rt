//! A wake: a task of the lobby comes into a processor's hand, and is placed. The processor's lock is held throughout.
ghost use Rattle.std.specs.Prelude.{◌≡◌, ◌<◌, ◌≤◌, ◌⊎◌, None, Some, IfOk, IfErr, IfSome, OnOk, OnErr, is_some, true};
ghost use Rattle.std.specs.Option.{option_to_list, option_map};
ghost use Rattle.bq_history.specs.Callers.{receipts_of, with_receipt, with_receipts};
ghost use Rattle.bq_hooks.specs.OwnPlace.{HasPlace};
ghost use Rattle.bq_shared.specs.Calls.{ahead, AccountMatchesReceipts};
ghost use Rattle.bq_parts.specs.Choices.{by_programs};
ghost use Rattle.bq_parts.specs.Refusals.{argument_refusal};
ghost use Rattle.bq_parts.specs.Shares.{Places};
ghost use Rattle.bq_parts.specs.declared.refusal.Refusal.TheVariants as no;
ghost use Rattle.bq_shared.specs.Parts.{reported_calls};
ghost use Rattle.bq_machine.specs.Calls.{IsCallRefused};
ghost use Rattle.bq_machine.specs.Placing.{WasPlaced};
ghost use Rattle.bq_machine.specs.Waking.{HoldsItsPart, IsWake};

use crate::clock::Clock;
use crate::machine::Machine;
use crate::needs::rooms_of_event;
use crate::records::{Records, event_twice, no_calls};
use crate::rooms::{BeginRooms, EventRooms, LoadRooms};
use bq_core::argument_refusal;
use bq_disc::RunQueue;
use bq_disc::limits::{PROCESSORS, TASKS};
use bq_history::{Naming, Receipt, Room};
use bq_parts::{Event, Placement, Refusal, Reply};
use bq_recording::{CpuCell, MachineSeat, WorkingSeat};
use bq_shared::{
    CallRooms, Counters, Counting, NumberedCpu, PackedAnswer, Record, hold_calls, loads_room,
    record_room,
};
use std::alloc::Global;
use std::sync::Wait;

/// The receipts of a wake: that it began, and where the task went; no second one if the beginning was refused.
#[derive(Drop)]
pub struct WakeReceipts {
    pub begin: Receipt<Record>,
    pub end: Option<Receipt<Record>>,
}

/// Makes room for both records of a wake, for the loads in the first, and for the calls of counters in the second.
fn wake_rooms(
    alloc: Global,
    first: &mut Room<Record>,
    second: &mut Room<Record>,
    calls: &mut Option<CallRooms>,
) -> Result<LoadRooms, Refusal>
    ensures memory { IfErr result (λ refusal. refusal ≡ no.OutOfMemory) }
    ensures ready { IfOk result (λ _. (first.new ≡ true) × (second.new ≡ true)) }
    ensures calls { IfOk result (λ _. is_some calls.new ≡ true) }
{
    record_room(alloc, first)?;
    rooms_of_event(alloc, second, calls)?;
    Ok(LoadRooms {
        for_history: loads_room(alloc)?,
        for_receipt: loads_room(alloc)?,
    })
}

impl<Q: RunQueue + Drop, K: Clock + Drop, N: Naming + Counting, const P: usize> Machine<
    Q,
    K,
    N,
    P,
> {
    /// Wakes a task of the lobby at a processor, whose lock is held throughout. There are two events, or only the first if it is
    /// refused. Allocates both records.
    ///
    /// Records nothing if there is no such processor, the id is over 1023, or memory runs out. If the task does not exist,
    /// or does not sleep, the receipt has that answer.
    pub fn wake<R: Wait>(
        &self,
        rt: &R,
        alloc: Global,
        seat: &mut MachineSeat<N>,
        processor: u8,
        task: u16,
    ) -> Result<WakeReceipts, Refusal>
        ensures receipts { IfOk result (λ w. seat.new ≡ with_receipts (option_to_list w.end) (with_receipt w.begin seat.old)) }
        ensures wake { IfOk result (IsWake (K.gives processor) processor task) }
        ensures passed { IfOk result (λ _. argument_refusal P (Event.BeginWake processor task) ≡ None) }
        ensures refused { IfErr result (IsCallRefused P (Event.BeginWake processor task)) }
        ensures err { OnErr result (seat.new ≡ seat.old) }
    {
        let event = Event::BeginWake { processor, task };
        if let Some(refusal) = argument_refusal(self.cpus.len(), &event) {
            return Err(refusal);
        }
        let loads = wake_rooms(
            alloc,
            &mut seat.record_room,
            &mut seat.second_record_room,
            &mut seat.call_rooms,
        )?;
        let begin = BeginRooms {
            record: &mut seat.record_room,
            loads,
        };
        let end = EventRooms {
            record: &mut seat.second_record_room,
            calls: &mut seat.call_rooms,
        };
        Ok(self.wake_at(rt, &mut seat.working, processor, task, begin, end))
    }

    /// Locks the processor, and does both halves of a wake there: it begins the wake, and ends it unless the beginning is refused.
    fn wake_at<R: Wait>(
        &self,
        rt: &R,
        working: &mut WorkingSeat<N>,
        processor: u8,
        task: u16,
        begin_rooms: BeginRooms<'_>,
        end_rooms: EventRooms<'_>,
    ) -> WakeReceipts
        requires inside { (processor < P) × (task < TASKS) }
        requires ready { (begin_rooms.record.now ≡ true) × (end_rooms.record.now ≡ true) }
        requires calls { is_some end_rooms.calls.now ≡ true }
        requires account { AccountMatchesReceipts reported_calls working.old }
        ensures caller { working.new.caller ≡ with_receipts (option_to_list result.end) (with_receipt result.begin working.old.caller) }
        ensures account { AccountMatchesReceipts reported_calls working.new }
        ensures wake { IsWake (K.gives processor) processor task result }
    {
        let mut guard = self.lock_processor(rt, processor);
        let cpu = &mut *guard;
        let begin = self.begin_in_lobby(rt, working, &mut cpu.cell, task, begin_rooms);
        if begin.entry.reply.is_err() {
            return WakeReceipts { begin, end: None };
        }
        let now = self.clock.now(processor);
        let end = self.end_in_inbox(rt, working, &mut cpu.cell, task, now, end_rooms);
        WakeReceipts {
            begin,
            end: Some(end),
        }
    }

    /// Locks the lobby, takes the task from it into the hand, and records that. Unlocks the lobby.
    fn begin_in_lobby<R: Wait>(
        &self,
        rt: &R,
        working: &mut WorkingSeat<N>,
        cpu: &mut CpuCell<Q, N>,
        task: u16,
        rooms: BeginRooms<'_>,
    ) -> Receipt<Record>
        requires below { task < TASKS }
        requires ready { rooms.record.now ≡ true }
        requires account { AccountMatchesReceipts reported_calls working.old }
        requires held { HoldsItsPart cpu.old }
        requires rests { cpu.old.content.state.hand ≡ None }
        ensures caller { working.new.caller ≡ with_receipt result working.old.caller }
        ensures account { AccountMatchesReceipts reported_calls working.new }
        ensures event { result.entry.event ≡ Event.BeginWake cpu.old.content.number task }
        ensures held { HoldsItsPart cpu.new }
        ensures number { cpu.new.content.number ≡ cpu.old.content.number }
        ensures hand { OnOk result.entry.reply (option_map (λ c. c.task.id) cpu.new.content.state.hand ≡ Some task) }
        ensures rests { OnErr result.entry.reply (cpu.new.content.state.hand ≡ None) }
        ensures begun { IfErr result.entry.reply (λ e. (e ≡ no.NoTask) ⊎ (e ≡ no.NotBlocked)) }
    {
        let mut guard = self.lobby.lock(rt);
        let lobby = &mut *guard;
        lobby.look(&self.recorder.history);
        let processor = cpu.content.number;
        let mut journal_guard = self.recorder.lock_journal(rt);
        let journal = &mut *journal_guard;
        let reply = cpu
            .content
            .state
            .begin_wake(&mut lobby.cell.content.state, task, &journal.kept().loads);
        let events = event_twice(Event::BeginWake { processor, task });
        let answers = (
            PackedAnswer::with_room(&reply, rooms.loads.for_history),
            PackedAnswer::with_room(&reply, rooms.loads.for_receipt),
        );
        let draft = Records::new(events, answers, no_calls()).draft(rooms.record, None);
        working.commit_two(&self.recorder.history, journal, cpu, &mut lobby.cell, draft)
    }

    /// Places the task in the hand: locks the inbox that is chosen, puts the task there, and records that. Unlocks the inbox.
    fn end_in_inbox<R: Wait>(
        &self,
        rt: &R,
        working: &mut WorkingSeat<N>,
        cpu: &mut CpuCell<Q, N>,
        task: u16,
        now: u64,
        rooms: EventRooms<'_>,
    ) -> Receipt<Record>
        requires calls { is_some rooms.calls.now ≡ true }
        requires ready { rooms.record.now ≡ true }
        requires account { AccountMatchesReceipts reported_calls working.old }
        requires held { HoldsItsPart cpu.old }
        requires hand { option_map (λ c. c.task.id) cpu.old.content.state.hand ≡ Some task }
        ensures caller { working.new.caller ≡ with_receipt result working.old.caller }
        ensures account { AccountMatchesReceipts reported_calls working.new }
        ensures event { result.entry.event ≡ Event.EndWake cpu.old.content.number now }
        ensures placed { WasPlaced task result.entry.reply }
        ensures held { HoldsItsPart cpu.new }
        ensures rests { cpu.new.content.state.hand ≡ None }
    {
        cpu.look(&self.recorder.history);
        let processor = cpu.content.number;
        let Placement {
            task: woken,
            to,
            by,
            steps,
        } = Self::place_task(&self.recorder.counters, working, &mut cpu.content, now);
        let mut guard = self.lock_inbox(rt, to);
        let inbox = &mut *guard;
        inbox.look(&self.recorder.history);
        inbox.cell.content.state.push(woken);
        let reply = Ok(Reply::Placed {
            task,
            to,
            by,
            steps,
        });
        let calls = hold_calls(rooms.calls, cpu.content.scratch.calls());
        let records = Records::of(Event::EndWake { processor, now }, &reply, calls);
        let mut journal_guard = self.recorder.lock_journal(rt);
        let journal = &mut *journal_guard;
        let mut kept = journal.kept().copy();
        kept.one_more(to);
        let draft = records.draft(rooms.record, Some(kept));
        working.commit_two(&self.recorder.history, journal, cpu, &mut inbox.cell, draft)
    }

    /// Takes the task out of the hand, and chooses a processor for it.
    fn place_task(
        counters: &Counters<N>,
        working: &mut WorkingSeat<N>,
        content: &mut NumberedCpu<Q>,
        now: u64,
    ) -> Placement
        requires few { P ≤ PROCESSORS }
        requires hand { is_some content.old.state.hand ≡ true }
        requires usable { IfSome content.old.state.hand (λ c. HasPlace P c.task) }
        requires account { AccountMatchesReceipts reported_calls working.old }
        ensures number { content.new.number ≡ content.old.number }
        ensures share { Places (by_programs Q.R.discipline) P content.old.number now content.old.state content.new.scratch (Some result) content.new.state }
        ensures below { result.to < P }
        ensures caller { working.new.caller ≡ working.old.caller }
        ensures account { working.new.account ≡ ahead reported_calls (receipts_of working.new.caller) content.new.scratch }
    {
        content.scratch.clear();
        let mut counter_board = working.open_board(counters);
        let placement = content.state.end_wake(
            content.number,
            P,
            now,
            &mut content.scratch,
            &mut counter_board,
        );
        working.close_board(counter_board);
        let Some(placement) = placement else {
            unreachable!()
        };
        placement
    }
}
