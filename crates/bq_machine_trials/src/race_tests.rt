//! Long races of drawn calls by eight threads, whose histories a core then goes through again.
ghost use Rattle.std.specs.Prelude.{◌≡◌};
ghost use Rattle.bq_history.specs.Tables.{table_of};
ghost use Rattle.bq_shared.specs.Prepared.{ArePrepared};

use crate::asserting::is_true;
use crate::drawn::{RaceTrack, race, racers};
use crate::replayed::is_replayed;
use bq_bpf::CounterCall;
use bq_cfs::CfsQueue;
use bq_disc::RunQueue;
use bq_eevdf::EevdfQueue;
use bq_history::Naming;
use bq_par::Metronome;
use bq_parts::{Refusal, Reply};
use bq_recording::{Closed, MachineSeat, Prepared, prepare};
use bq_shared::{Counting, UnnamedCounters};
use std::alloc::Global;
use std::marker::Brand;
use std::process::Abort;
use std::sync::Wait;
use std::thread::{Threads, map_vec};

/// How many threads race.
const THREADS: u64 = 8;

/// How many calls each of them makes.
const CALLS: u32 = 125_000;

/// The least number of events that the calls of all are.
const EVENTS: u64 = 1_000_000;

/// The least number of wakes that place a task. A race places some 50,000 or more.
const LEAST_WAKES: u64 = 10_000;

/// The least number of pulls that take a task. A race has some 6,000 or more.
const LEAST_PULLS: u64 = 1_000;

/// The least number of installs that are accepted. A race tries some 124,000.
const LEAST_INSTALLS: u64 = 25_000;

/// The least number of adds to counters. Policies make some 120,000 or more in a race.
const LEAST_ADDS: u64 = 10_000;

/// What the events of a race did, so far as a floor asks for it.
#[derive(Clone, Copy)]
struct Deeds {
    /// How many wakes placed a task.
    wakes: u64,
    /// How many pulls took a task.
    pulls: u64,
    /// How many installs were accepted.
    installs: u64,
    /// How many adds to counters policies made.
    adds: u64,
}

impl Deeds {
    /// Counts the answer to an event. A refusal counts nothing.
    fn add_reply(&mut self, reply: &Result<Reply, Refusal>) {
        match reply {
            Ok(Reply::Placed { .. }) => self.wakes = self.wakes.wrapping_add(1),
            Ok(Reply::Pulled { task: Some(_), .. }) => self.pulls = self.pulls.wrapping_add(1),
            Ok(Reply::Installed) => self.installs = self.installs.wrapping_add(1),
            _ => {}
        }
    }

    /// Counts the adds among the calls of an event.
    fn add_calls(&mut self, calls: &[CounterCall]) {
        for call in calls {
            if matches!(call, CounterCall::Add { .. }) {
                self.adds = self.adds.wrapping_add(1);
            }
        }
    }

    /// Returns whether each number is at least its floor.
    fn are_enough(&self) -> bool {
        self.wakes >= LEAST_WAKES
            && self.pulls >= LEAST_PULLS
            && self.installs >= LEAST_INSTALLS
            && self.adds >= LEAST_ADDS
    }
}

/// The seats that came back.
fn returned<N: Naming + Counting>(
    rt: &impl Abort,
    alloc: Global,
    done: Vec<Option<MachineSeat<N>>>,
) -> Vec<MachineSeat<N>> {
    let mut seats = Vec::new(alloc);
    for seat in done {
        seats.push(seat.expect(rt, "memory")).expect(rt, "memory");
    }
    seats
}

/// The end of a machine of 64 processors at which the calls of all threads were made.
fn race_under<
    Q: RunQueue + Drop + Send,
    N: Naming + Counting + Send + Sync,
    T: Abort + Threads + Wait + Sync,
>(rt: &T, alloc: Global, prepared: Prepared<Q>, unnamed: UnnamedCounters) -> Closed<Q, 64>
where
    Q::R: Send,
    requires name { table_of prepared ≡ N.table }
    requires counters { table_of unnamed ≡ N.counters }
    requires counts { ArePrepared 64 THREADS prepared unnamed }
{
    let clock = Metronome::new(alloc, 64).expect(rt, "memory");
    let (machine, seats) = RaceTrack::<Q, N>::new(alloc, clock, prepared, unnamed, THREADS).expect(
        rt, "memory",
    );
    let racers = racers(alloc, seats).expect(rt, "memory");
    let shared = &machine;
    let done = map_vec(rt, racers, &|racer| race(rt, alloc, shared, racer, CALLS)).expect(
        rt, "memory",
    );
    let seats = returned(rt, alloc, done);
    assert!(rt; machine.owns(&seats));
    machine.close(seats)
}

/// Counts what the events of a race did.
fn count_deeds<Q: RunQueue + Drop>(rt: &impl Abort, closed: &Closed<Q, 64>) -> Deeds {
    let mut deeds = Deeds {
        wakes: 0,
        pulls: 0,
        installs: 0,
        adds: 0,
    };
    for place in 0..closed.len() {
        let Some((_, reply, calls)) = closed.logged(place) else {
            panic!(rt; "a place without an event")
        };
        deeds.add_reply(&reply);
        deeds.add_calls(calls);
    }
    deeds
}

/// Returns whether a race has at least `EVENTS` events that did enough, and a core goes through them to the same end. Refused calls are
/// events too, so their number alone says little.
fn is_run_again<Q: RunQueue + Drop + Send, T: Abort + Threads + Wait + Sync>(
    rt: &T,
    alloc: Global,
) -> bool
where
    Q::R: Send,
{
    let Ok((prepared, unnamed)) = prepare::<Q>(alloc, 64, THREADS) else {
        panic!(rt; "memory")
    };
    let closed = race_under::<Q, Brand, T>(rt, alloc, prepared, unnamed);
    closed.len() >= EVENTS
        && count_deeds(rt, &closed).are_enough()
        && is_replayed(rt, alloc, closed)
}

/// A core answers a race under CFS as the machine did.
#[test]
fn a_race_under_cfs_is_replayed(rt: HostRuntime) {
    is_true(&rt, is_run_again::<CfsQueue, _>(&rt, rt.alloc()));
}

/// And so it does one under EEVDF.
#[test]
fn a_race_under_eevdf_is_replayed(rt: HostRuntime) {
    is_true(&rt, is_run_again::<EevdfQueue, _>(&rt, rt.alloc()));
}
