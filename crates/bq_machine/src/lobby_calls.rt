//! The calls that need only the lobby: tasks come to the machine, and leave it.
ghost use Rattle.std.specs.Prelude.{◌≡◌, ◌≤◌, None, IfOk, IfErr, OnErr, true};
ghost use Rattle.bq_history.specs.Callers.{with_receipt};
ghost use Rattle.bq_parts.specs.Refusals.{argument_refusal};
ghost use Rattle.bq_parts.specs.Moves.{admitted};
ghost use Rattle.bq_shared.specs.Calls.{AccountMatchesReceipts};
ghost use Rattle.bq_shared.specs.Parts.{reported_calls};
ghost use Rattle.bq_machine.specs.Calls.{IsCallRefused};

use crate::clock::Clock;
use crate::machine::Machine;
use crate::records::Records;
use bq_core::argument_refusal;
use bq_disc::RunQueue;
use bq_disc::limits::PROCESSORS;
use bq_history::{Naming, Receipt, Room};
use bq_parts::{Event, Refusal, Unlinked, new_task};
use bq_recording::{MachineSeat, WorkingSeat};
use bq_shared::{Counting, Record, record_room};
use std::alloc::Global;
use std::sync::Wait;

/// The facts of a new task.
#[derive(Clone, Copy)]
pub struct Admission {
    /// Its id.
    pub task: u16,
    /// The nice value at which it runs.
    pub nice: i8,
    /// The processors on which it may run, a bit for each.
    pub mask: u64,
    /// Its slice, in nanoseconds.
    pub slice: u64,
}

impl Admission {
    /// Makes the event by which the task comes.
    pub fn event(self) -> Event
        ensures { result ≡ Event.Admit self.task self.nice self.mask self.slice }
    {
        Event::Admit {
            task: self.task,
            nice: self.nice,
            mask: self.mask,
            slice: self.slice,
        }
    }
}

/// Makes a new task of a machine of this many processors, and room for the record of its admission. Refuses arguments that are
/// out of range, and for lack of memory.
fn new_task_with_room(
    alloc: Global,
    room: &mut Room<Record>,
    count: usize,
    admission: Admission,
) -> Result<Unlinked, Refusal>
    requires few { count ≤ PROCESSORS }
    ensures ready { IfOk result (λ _. room.new ≡ true) }
    ensures new { IfOk result (λ t. t ≡ admitted count admission.task admission.nice admission.mask admission.slice) }
    ensures passed { IfOk result (λ _. argument_refusal count (Event.Admit admission.task admission.nice admission.mask admission.slice) ≡ None) }
    ensures refused { IfErr result (IsCallRefused count (Event.Admit admission.task admission.nice admission.mask admission.slice)) }
{
    let event = admission.event();
    if let Some(refusal) = argument_refusal(count, &event) {
        return Err(refusal);
    }
    record_room(alloc, room)?;
    let Admission {
        task,
        nice,
        mask,
        slice,
    } = admission;
    new_task(alloc, count, task, nice, mask, slice).map_err(|_| Refusal::OutOfMemory)
}

impl<Q: RunQueue + Drop, K: Clock + Drop, N: Naming + Counting, const P: usize> Machine<
    Q,
    K,
    N,
    P,
> {
    /// Puts a new task into the lobby: its nice value is -20 to 19, its mask names the processors that it may use, and its
    /// slice is 100,000 to 100,000,000 nanoseconds. Allocates the task and the record.
    ///
    /// Records nothing if an argument is out of range or memory runs out. If the task exists already, the receipt has that
    /// answer.
    pub fn admit<R: Wait>(
        &self,
        rt: &R,
        alloc: Global,
        seat: &mut MachineSeat<N>,
        admission: Admission,
    ) -> Result<Receipt<Record>, Refusal>
        ensures receipt { IfOk result (λ r. seat.new ≡ with_receipt r seat.old) }
        ensures event { IfOk result (λ r. r.entry.event ≡ Event.Admit admission.task admission.nice admission.mask admission.slice) }
        ensures passed { IfOk result (λ r. argument_refusal P (Event.Admit admission.task admission.nice admission.mask admission.slice) ≡ None) }
        ensures refused { IfErr result (IsCallRefused P (Event.Admit admission.task admission.nice admission.mask admission.slice)) }
        ensures err { OnErr result (seat.new ≡ seat.old) }
    {
        let count = self.cpus.len();
        let new = new_task_with_room(alloc, &mut seat.record_room, count, admission)?;
        Ok(self.admit_to_lobby(rt, &mut seat.working, &mut seat.record_room, admission, new))
    }

    /// Locks the lobby, puts a new task into it, and records that.
    fn admit_to_lobby<R: Wait>(
        &self,
        rt: &R,
        working: &mut WorkingSeat<N>,
        room: &mut Room<Record>,
        admission: Admission,
        new: Unlinked,
    ) -> Receipt<Record>
        requires passed { argument_refusal P (Event.Admit admission.task admission.nice admission.mask admission.slice) ≡ None }
        requires new { new ≡ admitted P admission.task admission.nice admission.mask admission.slice }
        requires ready { room.old ≡ true }
        requires account { AccountMatchesReceipts reported_calls working.old }
        ensures caller { working.new.caller ≡ with_receipt result working.old.caller }
        ensures account { AccountMatchesReceipts reported_calls working.new }
        ensures event { result.entry.event ≡ Event.Admit admission.task admission.nice admission.mask admission.slice }
    {
        let mut guard = self.lobby.lock(rt);
        let lobby = &mut *guard;
        let reply = lobby.cell.content.state.admit(admission.task, new);
        let draft = Records::without_calls(admission.event(), &reply).draft(room, None);
        let mut journal = self.recorder.lock_journal(rt);
        working.commit_one(
            &self.recorder.history,
            &mut *journal,
            &mut lobby.cell,
            draft,
        )
    }

    /// Removes a task of the lobby from the machine for good. Allocates the record.
    ///
    /// Records nothing if the id is over 1023 or memory runs out. If the task does not exist, or does not sleep, the receipt
    /// has that answer.
    pub fn retire<R: Wait>(
        &self,
        rt: &R,
        alloc: Global,
        seat: &mut MachineSeat<N>,
        task: u16,
    ) -> Result<Receipt<Record>, Refusal>
        ensures receipt { IfOk result (λ r. seat.new ≡ with_receipt r seat.old) }
        ensures event { IfOk result (λ r. r.entry.event ≡ Event.Retire task) }
        ensures passed { IfOk result (λ r. argument_refusal P (Event.Retire task) ≡ None) }
        ensures refused { IfErr result (IsCallRefused P (Event.Retire task)) }
        ensures err { OnErr result (seat.new ≡ seat.old) }
    {
        let event = Event::Retire { task };
        if let Some(refusal) = argument_refusal(self.cpus.len(), &event) {
            return Err(refusal);
        }
        record_room(alloc, &mut seat.record_room)?;
        Ok(self.retire_from_lobby(rt, &mut seat.working, &mut seat.record_room, task))
    }

    /// Locks the lobby, removes a task from it, and records that.
    fn retire_from_lobby<R: Wait>(
        &self,
        rt: &R,
        working: &mut WorkingSeat<N>,
        room: &mut Room<Record>,
        task: u16,
    ) -> Receipt<Record>
        requires passed { argument_refusal P (Event.Retire task) ≡ None }
        requires ready { room.old ≡ true }
        requires account { AccountMatchesReceipts reported_calls working.old }
        ensures caller { working.new.caller ≡ with_receipt result working.old.caller }
        ensures account { AccountMatchesReceipts reported_calls working.new }
        ensures event { result.entry.event ≡ Event.Retire task }
    {
        let mut guard = self.lobby.lock(rt);
        let lobby = &mut *guard;
        let reply = lobby.cell.content.state.retire(task);
        let draft = Records::without_calls(Event::Retire { task }, &reply).draft(room, None);
        let mut journal = self.recorder.lock_journal(rt);
        working.commit_one(
            &self.recorder.history,
            &mut *journal,
            &mut lobby.cell,
            draft,
        )
    }
}
