//! Calls that are drawn.

use crate::images::{ADDS, COUNTING, IN_TURN, OWN_PULL};
use crate::requests::{Request, call};
use bq_disc::RunQueue;
use bq_history::Naming;
use bq_hooks::Hook;
use bq_load::LoadFault;
use bq_machine::{Admission, LoadRefused, Machine};
use bq_par::Metronome;
use bq_parts::Refusal;
use bq_recording::MachineSeat;
use bq_shared::Counting;
use std::alloc::{AllocError, Global};
use std::sync::Wait;

/// The nice values of tasks that are admitted.
const NICES: [i8; 8] = [-20, -10, -5, -1, 0, 1, 10, 19];

/// The machine that races are run on, of 64 processors.
pub type RaceTrack<Q, N> = Machine<Q, Metronome, N, 64>;

/// A seat, and the seed of what its thread draws.
#[derive(Drop)]
pub struct Racer<N: Naming + Counting> {
    pub seat: MachineSeat<N>,
    pub seed: u64,
}

/// Seats with seeds of their own.
pub fn racers<N: Naming + Counting>(
    alloc: Global,
    seats: Vec<MachineSeat<N>>,
) -> Result<Vec<Racer<N>>, AllocError> {
    let mut racers = Vec::new(alloc);
    let mut seed = 0x9e37_79b9_7f4a_7c15u64;
    for seat in seats {
        seed = next(seed);
        racers.push(Racer { seat, seed })?;
    }
    Ok(racers)
}

/// The next of the numbers that look drawn (xorshift).
fn next(state: u64) -> u64 {
    let mut x = state;
    x ^= x << 13;
    x ^= x >> 7;
    x ^= x << 17;
    x
}

/// The hook and the image, if any, that a number says.
fn image(number: u64) -> (Hook, Option<&'static [u8]>) {
    match number % 8 {
        0 => (Hook::Preempt, Some(&ADDS)),
        1 => (Hook::Preempt, Some(&COUNTING)),
        2 => (Hook::Preempt, None),
        3 | 4 => (Hook::Place, Some(&IN_TURN)),
        5 => (Hook::Place, None),
        6 => (Hook::Pull, Some(&OWN_PULL)),
        _ => (Hook::Pull, None),
    }
}

/// The request that two numbers say, at any of 64 processors, of any of 1024 tasks.
fn request(number: u64, other: u64) -> Request {
    let processor = ((number >> 10) % 64) as u8;
    let task = ((number >> 16) % 1024) as u16;
    match number % 1024 {
        0..=7 => Request::Retire { task },
        8..=107 => Request::Admit {
            admission: Admission {
                task,
                nice: NICES[((number >> 32) % 8) as usize],
                mask: other,
                slice: 100_000 + (number >> 40) % 10_000_000,
            },
        },
        108..=407 => Request::Wake { processor, task },
        408..=607 => Request::Drain { processor },
        608..=807 => Request::Tick { processor },
        808..=917 => Request::Block { processor },
        _ => Request::Pull {
            processor,
            from: (other % 64) as u8,
        },
    }
}

/// Makes a call that two numbers say: of 512 one loads an image, one reads a counter, the others are requests. False where memory
/// was wanting.
fn draw<Q: RunQueue + Drop, N: Naming + Counting, R: Wait>(
    rt: &R,
    alloc: Global,
    machine: &RaceTrack<Q, N>,
    seat: &mut MachineSeat<N>,
    number: u64,
    other: u64,
) -> bool {
    match (number >> 48) % 512 {
        0 => {
            let (hook, image) = image(number >> 32);
            let loaded = machine.load_all(rt, alloc, seat, hook, image);
            !matches!(
                loaded,
                Err(
                    LoadRefused::Fault(LoadFault::OutOfMemory)
                        | LoadRefused::Refusal(Refusal::OutOfMemory)
                )
            )
        }
        1 => {
            machine.counter(seat, ((number >> 10) % 64) as u8);
            true
        }
        _ => {
            let answer = call(rt, alloc, machine, seat, request(number, other));
            !matches!(answer, Err(Refusal::OutOfMemory))
        }
    }
}

/// Makes that number of drawn calls. Returns the seat; None if memory ran out.
pub fn race<Q: RunQueue + Drop, N: Naming + Counting, R: Wait>(
    rt: &R,
    alloc: Global,
    machine: &RaceTrack<Q, N>,
    racer: Racer<N>,
    calls: u32,
) -> Option<MachineSeat<N>> {
    let Racer { mut seat, seed } = racer;
    let mut number = seed;
    for _ in 0..calls {
        let other = next(number);
        if !draw(rt, alloc, machine, &mut seat, number, other) {
            return None;
        }
        number = next(other);
    }
    Some(seat)
}
