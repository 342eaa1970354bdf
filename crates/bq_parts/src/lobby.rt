//! The place of the sleeping tasks, and what an admission and a retirement do to it.
ghost use Rattle.std.specs.Prelude.{◌≡◌, ◌<◌, ◌≤◌, None, false, length, IfOk, replicate, slice_index_or, slice_set};
ghost use Rattle.bq_parts.specs.Moves.{admitted};
ghost use Rattle.bq_parts.specs.Refusals.{argument_refusal, is_absent, is_away};
ghost use Rattle.bq_parts.specs.Shares.{Admits, Retires};
ghost use Rattle.bq_parts.specs.declared.lobby_entry.LobbyEntry.TheVariants.{Absent, Sleeping, Away};

use crate::{Event, LobbyEntry, Refusal, Reply, Unlinked};
use bq_disc::Node;
use bq_disc::limits::{PROCESSORS, TASKS};
use bq_disc::mask::low_bits;
use std::alloc::{AllocError, Global};
use std::marker::Model;

/// The place of the sleeping tasks: an entry for each id, so that a task is found by its id at once.
#[derive(Drop)]
pub struct Lobby {
    entries: Vec<LobbyEntry>,
}

impl Model for Lobby {
    ghost use Rattle.std.specs.Prelude.{◌≡◌, List, length};
    ghost use Rattle.bq_disc.specs.declared.limits.TheConstants.{TASKS};
    ghost use Rattle.bq_parts.specs.declared.lobby_entry.LobbyEntry.{LobbyEntry};

    ghost Value = { List LobbyEntry };

    ghost view = { λ l. l.entries.items };

    ghost invariant = { λ l. length l.entries.items ≡ TASKS };
}

impl Lobby {
    /// Makes a lobby in which no id is admitted. It takes the memory for all entries.
    pub fn new(alloc: Global) -> Result<Lobby, AllocError>
        ensures { IfOk result (λ l. l ≡ replicate TASKS Absent) }
    {
        let mut entries = Vec::with_capacity(alloc, usize::from(TASKS))?;
        'entries: for _ in 0..usize::from(TASKS) {
            entries.push(LobbyEntry::Absent)?;
        }
        Ok(Lobby { entries })
    }

    /// Puts a new task into the lobby. Refuses if its id is admitted already.
    pub fn admit(&mut self, id: u16, task: Unlinked) -> Result<Reply, Refusal>
        requires below { id < TASKS }
        ensures share { Admits id task self.old result self.new }
    {
        if !self.is_absent(id) {
            return Err(Refusal::TaskExists);
        }
        self.enter(id, task);
        Ok(Reply::Admitted)
    }

    /// Removes a sleeping task from the lobby for good. Refuses if there is no such task, or if it does not sleep.
    pub fn retire(&mut self, id: u16) -> Result<Reply, Refusal>
        requires below { id < TASKS }
        ensures share { Retires id self.old result self.new }
    {
        if self.is_absent(id) {
            return Err(Refusal::NoTask);
        }
        if self.is_away(id) {
            return Err(Refusal::NotBlocked);
        }
        self.clear(id);
        Ok(Reply::Retired)
    }

    /// Returns true if this id is not admitted.
    pub fn is_absent(&self, id: u16) -> bool
        requires { id < TASKS }
        ensures { result ≡ is_absent (slice_index_or self.now id Absent) }
    {
        matches!(self.entries[usize::from(id)], LobbyEntry::Absent)
    }

    /// Returns true if the task with this id is with a processor.
    pub fn is_away(&self, id: u16) -> bool
        requires { id < TASKS }
        ensures { result ≡ is_away (slice_index_or self.now id Absent) }
    {
        matches!(self.entries[usize::from(id)], LobbyEntry::Away)
    }

    /// Puts a task into the lobby.
    pub fn enter(&mut self, id: u16, task: Unlinked)
        requires { id < TASKS }
        ensures { self.new ≡ slice_set self.old id (Sleeping task) }
    {
        self.entries[usize::from(id)] = LobbyEntry::Sleeping(task);
    }

    /// Gives up an entry for good.
    pub fn clear(&mut self, id: u16)
        requires { id < TASKS }
        ensures { self.new ≡ slice_set self.old id Absent }
    {
        self.entries[usize::from(id)] = LobbyEntry::Absent;
    }

    /// Gives the sleeping task of an entry to a processor.
    pub fn take_sleeper(&mut self, id: u16) -> Unlinked
        requires below { id < TASKS }
        requires there { is_absent (slice_index_or self.old id Absent) ≡ false }
        requires here { is_away (slice_index_or self.old id Absent) ≡ false }
        ensures task { slice_index_or self.old id Absent ≡ Sleeping result }
        ensures lobby { self.new ≡ slice_set self.old id Away }
    {
        match std::mem::replace(&mut self.entries[usize::from(id)], LobbyEntry::Away) {
            LobbyEntry::Sleeping(task) => task,
            LobbyEntry::Absent | LobbyEntry::Away => unreachable!(),
        }
    }
}

/// Makes a task as it is admitted in a world of `count` processors. It takes memory for the task. `slice` is in nanoseconds.
pub fn new_task(
    alloc: Global,
    count: usize,
    task: u16,
    nice: i8,
    mask: u64,
    slice: u64,
) -> Result<Unlinked, AllocError>
    requires few { count ≤ PROCESSORS }
    requires fits { argument_refusal count (Event.Admit task nice mask slice) ≡ None }
    ensures { IfOk result (λ t. t ≡ admitted count task nice mask slice) }
{
    let mask = low_bits(mask, count);
    let node = Node::new(task, bq_weights::weight(nice), mask, slice);
    match Box::new(alloc, node) {
        Ok(node) => Ok(Unlinked::new(node)),
        Err(error) => Err(error.into()),
    }
}
