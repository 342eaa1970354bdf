//! The locks are taken apart, and their contents become the history and the core.
ghost use Rattle.std.specs.Prelude.{◌≡◌, ◌≤◌, map, length, vec_len, vec_capacity};
ghost use Rattle.bq_disc.specs.declared.limits.TheConstants.{PROCESSORS};
ghost use Rattle.bq_history.specs.Whole.{count};
ghost use Rattle.bq_history.specs.Items.{part_item};
ghost use Rattle.bq_history.specs.History.{IsHistory, EachOnce, AreReceiptsOf};
ghost use Rattle.bq_shared.specs.Sums.{AreSumsOf};
ghost use Rattle.bq_shared.specs.Calls.{calls_in};
ghost use Rattle.bq_parts.specs.World.{World, opening_world};
ghost use Rattle.bq_parts.specs.Orderly.{IsOrderly};
ghost use Rattle.bq_shared.specs.Parts.{RecordStep, reported_calls, same_part};
ghost use Rattle.bq_shared.specs.declared.world_part.WorldPart.{WorldPart as WorldPartValue};
ghost use Rattle.bq_recording.specs.AllParts.{parts_out, IsMadeOf};

use crate::closed_machine::Closed;
use crate::closing_room::ClosingRoom;
use bq_core::Core;
use bq_disc::RunQueue;
use bq_history::{Holder, Item, Journal, Naming, contents_in_order, gather};
use bq_parts::{Cpu, Inbox, Lobby};
use bq_shared::{
    Counters, Counting, JournalState, NumberedCpu, NumberedInbox, OneLobby, Record, Seat, Shared,
    UnderLock, WorldPart,
};
use std::sync::Mutex;

/// All that the threads of a machine share, and the room for its end.
#[derive(Drop)]
pub struct Locks<Q: RunQueue + Drop, N: Naming + Counting, const P: usize> {
    pub history: Shared<Q, N>,
    pub counters: Counters<N>,
    pub cpus: Vec<Mutex<UnderLock<NumberedCpu<Q>, N>>>,
    pub inboxes: Vec<Mutex<UnderLock<NumberedInbox, N>>>,
    pub lobby: Mutex<UnderLock<OneLobby, N>>,
    pub journal: Mutex<Journal<Record, WorldPart, JournalState, N>>,
    pub room: Mutex<ClosingRoom<Q, P>>,
    pub ghost setup: { history.setup ≡ P },
    pub ghost counted: { vec_len cpus ≡ P },
    pub ghost one_each: { vec_len inboxes ≡ P },
    pub ghost few: { P ≤ PROCESSORS },
    pub ghost same: { counters ≡ history.callers },
}

/// Ends a machine. `seats` must be all its seats, each once. Each event of the history is a step of the world, from the
/// opening world to the core's. No event in it has refused arguments or ran out of memory. Each event has one
/// receipt, at one of the seats. Each counter is the sum of the adds in the history, modulo 2^64. It takes no memory.
pub fn close<Q: RunQueue + Drop, N: Naming + Counting, const P: usize>(
    locks: Locks<Q, N, P>,
    seats: Vec<Seat<Record, WorldPart, JournalState, N>>,
) -> Closed<Q, P>
    requires { EachOnce locks.history.callers seats.items }
    ensures history { IsHistory (RecordStep Q.R.discipline) (opening_world P) result.history result.core }
    ensures receipts { AreReceiptsOf result.history seats.items }
    ensures counters { AreSumsOf (calls_in reported_calls result.history) result.counters }
{
    let Locks {
        history,
        counters,
        cpus,
        inboxes,
        lobby,
        journal,
        room,
    } = locks;
    let (contents, all) = take_contents(&history, cpus, inboxes, lobby, room);
    let journal = journal.into_inner();
    let drawn = journal.kept().drawn;
    let (log, words) = bq_shared::close(history, journal, all, counters, seats);
    Closed {
        history: log,
        core: core_of(contents, drawn),
        counters: words,
    }
}

/// The contents of the locks, and room for the processors and inboxes without their numbers.
#[derive(Drop)]
struct Contents<Q: RunQueue + Drop, const P: usize> {
    cpus: Vec<NumberedCpu<Q>>,
    inboxes: Vec<NumberedInbox>,
    lobby: Lobby,
    room_for_cpus: Vec<Cpu<Q>>,
    room_for_inboxes: Vec<Inbox>,
    ghost many: { (length cpus.items ≡ P) × (length inboxes.items ≡ P) },
    ghost for_cpus: { (vec_len room_for_cpus ≡ 0) × (P ≤ vec_capacity room_for_cpus) },
    ghost for_inboxes: { (vec_len room_for_inboxes ≡ 0) × (P ≤ vec_capacity room_for_inboxes) },
}

/// Takes all contents out of their locks. Returns them with one holder of their parts.
fn take_contents<Q: RunQueue + Drop, N: Naming + Counting, const P: usize>(
    history: &Shared<Q, N>,
    cpus: Vec<Mutex<UnderLock<NumberedCpu<Q>, N>>>,
    inboxes: Vec<Mutex<UnderLock<NumberedInbox, N>>>,
    lobby: Mutex<UnderLock<OneLobby, N>>,
    room: Mutex<ClosingRoom<Q, P>>,
) -> (
    Contents<Q, P>,
    Holder<Item<Record, WorldPart, JournalState>, N>,
)
    requires cpus { vec_len cpus ≡ P }
    requires inboxes { vec_len inboxes ≡ P }
    ensures { result.1 ≡ map part_item (parts_out result.0.lobby result.0.cpus.items result.0.inboxes.items) }
{
    let ClosingRoom {
        numbered_cpus,
        numbered_inboxes,
        cpus: room_for_cpus,
        inboxes: room_for_inboxes,
    } = room.into_inner();
    let (lobby_content, mut all) = lobby.into_inner().into_parts();
    let cpus = gather(history, &mut all, cpus, numbered_cpus);
    let inboxes = gather(history, &mut all, inboxes, numbered_inboxes);
    let contents = Contents {
        cpus,
        inboxes,
        lobby: lobby_content.state,
        room_for_cpus,
        room_for_inboxes,
    };
    (contents, all)
}

/// Makes the core of the world that has these parts.
fn core_of<Q: RunQueue + Drop, const P: usize>(contents: Contents<Q, P>, drawn: u64) -> Core<Q, P>
    requires few { P ≤ PROCESSORS }
    requires once { (p : WorldPartValue) → count (same_part p) (parts_out contents.lobby contents.cpus.items contents.inboxes.items) ≤ 1 }
    requires world { (w : World) × IsOrderly w × IsMadeOf P drawn (parts_out contents.lobby contents.cpus.items contents.inboxes.items) w }
    ensures { (w : World) → IsMadeOf P drawn (parts_out contents.lobby contents.cpus.items contents.inboxes.items) w → result ≡ w }
{
    let Contents {
        cpus,
        inboxes,
        lobby,
        room_for_cpus,
        room_for_inboxes,
    } = contents;
    let cpus = contents_in_order(cpus, room_for_cpus);
    let inboxes = contents_in_order(inboxes, room_for_inboxes);
    Core::from_parts(cpus, inboxes, lobby, drawn)
}
