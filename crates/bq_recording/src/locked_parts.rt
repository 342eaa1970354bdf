//! A lock for each part of the world.
ghost use Rattle.std.specs.Prelude.{◌≡◌, ◌≤◌, ◌++◌, ℕ, List, IfOk, length, map, vec_len};
ghost use Rattle.bq_history.specs.Items.{callers_from, part_item};
ghost use Rattle.bq_shared.specs.Parts.{first_parts};
ghost use Rattle.bq_shared.specs.Opened.{ItemOf, cpu_items, inbox_items};
ghost use Rattle.bq_recording.specs.Queues.{AreFresh};

use bq_disc::RunQueue;
use bq_disc::limits::PROCESSORS;
use bq_history::{Holder, Item, Locked, Naming};
use bq_installed::Scratch;
use bq_parts::{Cpu, Inbox, Lobby};
use bq_shared::{
    JournalState, NumberedCpu, NumberedInbox, OneLobby, Record, Shared, UnderLock, WorldPart,
};
use std::alloc::{AllocError, Global};
use std::sync::Mutex;

/// The locks of all parts of a world.
#[derive(Drop)]
pub struct PartLocks<Q: RunQueue + Drop, N: Naming> {
    pub lobby: Mutex<UnderLock<OneLobby, N>>,
    pub cpus: Vec<Mutex<UnderLock<NumberedCpu<Q>, N>>>,
    pub inboxes: Vec<Mutex<UnderLock<NumberedInbox, N>>>,
}

/// Makes a lock for each part, from the parts at the start. The items of the callers remain with the holder. It takes memory
/// for the locks and the lobby.
pub fn part_locks<Q: RunQueue + Drop, N: Naming>(
    alloc: Global,
    history: &Shared<Q, N>,
    all: &mut Holder<Item<Record, WorldPart, JournalState>, N>,
    queues: Vec<Q>,
    count: u8,
) -> Result<PartLocks<Q, N>, AllocError>
    requires few { count ≤ PROCESSORS }
    requires many { length queues.items ≡ count }
    requires empty { AreFresh Q.members Q.last_mark queues.items }
    requires items { (s : ℕ) × (all.old ≡ map part_item (first_parts count) ++ callers_from 0 s) }
    ensures cpus { IfOk result (λ l. vec_len l.cpus ≡ count) }
    ensures inboxes { IfOk result (λ l. vec_len l.inboxes ≡ count) }
    ensures rest { IfOk result (λ _. (s : ℕ) → all.old ≡ map part_item (first_parts count) ++ callers_from 0 s → all.new ≡ callers_from 0 s) }
{
    let lobby_content = OneLobby {
        state: Lobby::new(alloc)?,
    };
    let lobby = Locked::open(history, all, lobby_content);
    let cpus = cpu_locks(alloc, history, all, queues)?;
    let inboxes = inbox_locks(alloc, history, all, count)?;
    Ok(PartLocks {
        lobby: Mutex::new(lobby),
        cpus,
        inboxes,
    })
}

/// Makes a lock for each processor, numbered from 0, with its queue.
fn cpu_locks<Q: RunQueue + Drop, N: Naming>(
    alloc: Global,
    history: &Shared<Q, N>,
    all: &mut Holder<Item<Record, WorldPart, JournalState>, N>,
    queues: Vec<Q>,
) -> Result<Vec<Mutex<UnderLock<NumberedCpu<Q>, N>>>, AllocError>
    requires few { length queues.items ≤ PROCESSORS }
    requires empty { AreFresh Q.members Q.last_mark queues.items }
    requires items { (rest : List ItemOf) × (all.old ≡ cpu_items 0 (length queues.items) ++ rest) }
    ensures locks { IfOk result (λ v. vec_len v ≡ length queues.items) }
    ensures rest { IfOk result (λ _. (rest : List ItemOf) → all.old ≡ cpu_items 0 (length queues.items) ++ rest → all.new ≡ rest) }
{
    let mut locks = Vec::with_capacity(alloc, queues.len())?;
    let mut number: u8 = 0;
    for queue in queues {
        let content = NumberedCpu {
            number,
            state: Cpu::with_queue(queue),
            scratch: Scratch::new(),
        };
        locks.push(Mutex::new(Locked::open(history, all, content)))?;
        number += 1;
    }
    Ok(locks)
}

/// Makes a lock for each of `count` inboxes, numbered from 0, without tasks.
fn inbox_locks<Q: RunQueue + Drop, N: Naming>(
    alloc: Global,
    history: &Shared<Q, N>,
    all: &mut Holder<Item<Record, WorldPart, JournalState>, N>,
    count: u8,
) -> Result<Vec<Mutex<UnderLock<NumberedInbox, N>>>, AllocError>
    requires { (rest : List ItemOf) × (all.old ≡ inbox_items 0 count ++ rest) }
    ensures locks { IfOk result (λ v. vec_len v ≡ count) }
    ensures rest { IfOk result (λ _. (rest : List ItemOf) → all.old ≡ inbox_items 0 count ++ rest → all.new ≡ rest) }
{
    let mut locks = Vec::with_capacity(alloc, usize::from(count))?;
    for number in 0..count {
        let content = NumberedInbox {
            number,
            state: Inbox::new(),
        };
        locks.push(Mutex::new(Locked::open(history, all, content)))?;
    }
    Ok(locks)
}
