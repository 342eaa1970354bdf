//! Scripts, and what comes of them.
ghost use Rattle.std.specs.Prelude.{◌≡◌, [], All, IfOk, length, vec_len};
ghost use Rattle.bq_history.specs.Tables.{table_of};
ghost use Rattle.bq_shared.specs.Prepared.{ArePrepared};

use crate::counting_clock::CountingClock;
use crate::gate::{Gate, Point};
use crate::held_queue::HeldQueue;
use crate::play::{Play, Script};
use crate::player::{Player, Raced};
use bq_disc::limits::FIRST_MARK;
use bq_history::{Naming, Receipt};
use bq_recording::{Closed, MachineSeat, Prepared, prepare};
use bq_shared::{Counting, Record, UnnamedCounters};
use std::alloc::{AllocError, Global};
use std::marker::Brand;
use std::process::Abort;
use std::sync::{Arc, Wait};
use std::thread::{Threads, map_vec};

/// A seat, and what its thread is to do.
#[derive(Drop)]
pub struct Job<N: Naming + Counting> {
    pub seat: MachineSeat<N>,
    pub play: Play,
}

/// A seat with the receipts that it got, and counters 0, 3 and 63, if it read them.
#[derive(Drop)]
pub struct Played<N: Naming + Counting> {
    pub seat: MachineSeat<N>,
    pub receipts: Vec<Receipt<Record>>,
    pub read: Option<[u64; 3]>,
}

/// What came of all plays: whether a thread was held at the gate until another opened it, the machine's end, the receipts of
/// each play, and what was read last of counters 0, 3 and 63.
#[derive(Drop)]
pub struct AllPlayed {
    pub opened: bool,
    pub closed: Closed<HeldQueue, 4>,
    pub receipts: Vec<Vec<Receipt<Record>>>,
    pub read: Option<[u64; 3]>,
}

impl AllPlayed {
    /// Returns how many receipts stand in the history.
    pub fn confirmed(&self) -> u64 {
        let mut count = 0u64;
        for list in &self.receipts {
            for receipt in list {
                if self.closed.confirms(receipt) {
                    count = count.wrapping_add(1);
                }
            }
        }
        count
    }

    /// Returns whether each event of the history has a receipt that was given.
    pub fn is_confirmed(&self) -> bool {
        self.confirmed() == self.closed.len()
    }
}

/// One thread's work.
fn work<N: Naming + Counting, R: Abort + Wait>(
    rt: &R,
    alloc: Global,
    machine: &Raced<N>,
    gate: &Gate,
    job: Job<N>,
) -> Played<N> {
    let Job { seat, play } = job;
    let mut player = Player {
        rt,
        alloc,
        machine,
        gate,
        seat,
        receipts: Vec::new(alloc),
        read: None,
    };
    player.play(play);
    let Player {
        seat,
        receipts,
        read,
        ..
    } = player;
    Played {
        seat,
        receipts,
        read,
    }
}

/// What was collected so far: seats that have come back, receipts, and what was read last of the counters.
#[derive(Drop)]
struct Collected<N: Naming + Counting> {
    seats: Vec<MachineSeat<N>>,
    receipts: Vec<Vec<Receipt<Record>>>,
    read: Option<[u64; 3]>,
}

impl<N: Naming + Counting> Collected<N> {
    fn add(&mut self, rt: &impl Abort, played: Played<N>) {
        let Played {
            seat,
            receipts,
            read,
        } = played;
        self.seats.push(seat).expect(rt, "memory");
        self.receipts.push(receipts).expect(rt, "memory");
        if read.is_some() {
            self.read = read;
        }
    }

    /// A play by the seat that came last.
    fn alone<R: Abort + Wait>(
        &mut self,
        rt: &R,
        alloc: Global,
        machine: &Raced<N>,
        gate: &Gate,
        play: Play,
    ) {
        let seat = self.seats.pop().expect(rt, "a seat");
        self.add(rt, work(rt, alloc, machine, gate, Job { seat, play }));
    }

    /// The jobs of plays that are made at once, each with a seat.
    fn jobs(&mut self, rt: &impl Abort, alloc: Global, plays: &[Play]) -> Vec<Job<N>> {
        let mut jobs = Vec::new(alloc);
        for play in plays {
            let seat = self.seats.pop().expect(rt, "a seat");
            jobs.push(Job { seat, play: *play }).expect(rt, "memory");
        }
        jobs
    }
}

/// Does each job by a thread of its own, all at once.
fn at_once<N: Naming + Counting + Send + Sync, R: Abort + Threads + Wait + Sync>(
    rt: &R,
    alloc: Global,
    machine: &Raced<N>,
    gate: &Gate,
    jobs: Vec<Job<N>>,
) -> Vec<Played<N>> {
    map_vec(rt, jobs, &|job| work(rt, alloc, machine, gate, job)).expect(rt, "memory")
}

/// Plays a script at a machine. Its seats come back.
fn play_script<N: Naming + Counting + Send + Sync, R: Abort + Threads + Wait + Sync>(
    rt: &R,
    alloc: Global,
    machine: &Raced<N>,
    gate: &Gate,
    seats: Vec<MachineSeat<N>>,
    script: &Script<'_>,
) -> Collected<N> {
    let mut collected = Collected {
        seats,
        receipts: Vec::new(alloc),
        read: None,
    };
    collected.alone(rt, alloc, machine, gate, script.before);
    let jobs = collected.jobs(rt, alloc, script.at_once);
    for played in at_once(rt, alloc, machine, gate, jobs) {
        collected.add(rt, played);
    }
    collected.alone(rt, alloc, machine, gate, script.after);
    collected
}

/// What a machine is made of: its clock, and a queue for each processor.
#[derive(Drop)]
struct Parts {
    clock: CountingClock,
    queues: Vec<HeldQueue>,
}

/// Plays a script on a machine of these parts, and ends it. `count` is the number of its seats, one for each play at once.
fn play_all<N: Naming + Counting + Send + Sync, R: Abort + Threads + Wait + Sync>(
    rt: &R,
    alloc: Global,
    prepared: Prepared<HeldQueue>,
    unnamed: UnnamedCounters,
    parts: Parts,
    gate: &Gate,
    script: &Script<'_>,
    count: u64,
) -> AllPlayed
    requires name { table_of prepared ≡ N.table }
    requires counters { table_of unnamed ≡ N.counters }
    requires counts { ArePrepared 4 count prepared unnamed }
    requires many { length parts.queues.items ≡ 4 }
    requires empty { All (λ q. (q.queue.members ≡ []) × (q.queue.mark ≡ FIRST_MARK)) parts.queues.items }
{
    let Parts { clock, queues } = parts;
    let (machine, seats) = Raced::<N>::with_queues(
        alloc, clock, queues, prepared, unnamed, count,
    ).expect(rt, "memory");
    let Collected {
        seats,
        receipts,
        read,
    } = play_script(rt, alloc, &machine, gate, seats, script);
    if !machine.owns(&seats) {
        panic!(rt; "a seat is missing")
    }
    let closed = machine.close(seats);
    AllPlayed {
        opened: gate.was_opened(),
        closed,
        receipts,
        read,
    }
}

/// Queues without tasks. Calls of the first come to the gate.
fn queues(
    alloc: Global,
    count: usize,
    gate: Arc<Gate, Global>,
) -> Result<Vec<HeldQueue>, AllocError>
    ensures many { IfOk result (λ v. vec_len v ≡ count) }
    ensures empty { IfOk result (λ v. All (λ q. (q.queue.members ≡ []) × (q.queue.mark ≡ FIRST_MARK)) v.items) }
{
    let mut queues = Vec::new(alloc);
    let mut gate = Some(gate);
    'queues: for _ in 0..count {
        queues.push(HeldQueue::at(gate.take()))?;
    }
    Ok(queues)
}

/// The same gate again.
fn again(rt: &impl Abort, gate: &Arc<Gate, Global>) -> Arc<Gate, Global> {
    Arc::try_clone(gate).expect(rt, "memory")
}

/// The parts of a machine of four processors, where the clocks' readings and the calls of processor 0's queue come to the gate.
fn parts_of_four(rt: &impl Abort, alloc: Global, gate: &Arc<Gate, Global>) -> Parts
    ensures many { length result.queues.items ≡ 4 }
    ensures empty { All (λ q. (q.queue.members ≡ []) × (q.queue.mark ≡ FIRST_MARK)) result.queues.items }
{
    let clock = CountingClock::new(alloc, 4, again(rt, gate)).expect(rt, "memory");
    let Ok(queues) = queues(alloc, 4, again(rt, gate)) else {
        panic!(rt; "memory")
    };
    Parts { clock, queues }
}

/// What comes of a script on a machine of four processors, with a gate at this point.
pub fn run_script<R: Abort + Threads + Wait + Sync>(
    rt: &R,
    alloc: Global,
    at: Point,
    script: &Script<'_>,
) -> AllPlayed {
    let gate = Arc::new(alloc, Gate::new(at)).expect(rt, "memory");
    let parts = parts_of_four(rt, alloc, &gate);
    let count = script.at_once.len() as u64;
    let Ok((prepared, unnamed)) = prepare::<HeldQueue>(alloc, 4, count) else {
        panic!(rt; "memory")
    };
    play_all::<Brand, R>(rt, alloc, prepared, unnamed, parts, &gate, script, count)
}
