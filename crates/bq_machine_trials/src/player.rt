//! A seat at play.

use crate::counting_clock::CountingClock;
use crate::gate::Gate;
use crate::held_queue::HeldQueue;
use crate::play::{Play, Step};
use crate::requests::{Receipts, Request, call};
use bq_history::{Naming, Receipt};
use bq_hooks::Hook;
use bq_machine::Machine;
use bq_recording::MachineSeat;
use bq_shared::{Counting, Record};
use std::alloc::Global;
use std::process::Abort;
use std::sync::Wait;
use std::thread::yield_now;

/// The machine that scripts are played on, of four processors.
pub type Raced<N> = Machine<HeldQueue, CountingClock, N, 4>;

/// How many ticks a watching seat makes at most, and how often it lets others go on between two of them.
const LOOKS: u32 = 1000;

/// Lets other threads go on.
fn let_others_go_on() {
    for _ in 0..LOOKS {
        yield_now();
    }
}

/// A seat, with the receipts that it got, and what it read last of counters 0, 3 and 63. A call that is refused ends the test.
#[derive(Drop)]
pub struct Player<'a, N: Naming + Counting, R: Abort + Wait> {
    pub rt: &'a R,
    pub alloc: Global,
    pub machine: &'a Raced<N>,
    pub gate: &'a Gate,
    pub seat: MachineSeat<N>,
    pub receipts: Vec<Receipt<Record>>,
    pub read: Option<[u64; 3]>,
}

impl<'a, N: Naming + Counting, R: Abort + Wait> Player<'a, N, R> {
    /// Adds a receipt to those that the seat got.
    fn push_receipt(&mut self, receipt: Receipt<Record>) {
        self.receipts.push(receipt).expect(self.rt, "memory");
    }

    /// Makes the call, and keeps its receipts. Returns the place of the first.
    fn call(&mut self, request: Request) -> u64 {
        let answer = call(self.rt, self.alloc, self.machine, &mut self.seat, request);
        let Receipts { first, second } = answer.expect(self.rt, "a call was refused");
        let place = first.place;
        self.push_receipt(first);
        if let Some(second) = second {
            self.push_receipt(second);
        }
        place
    }

    /// Makes calls one after another, and all of them this number of times.
    fn call_all(&mut self, times: u32, requests: &[Request]) {
        for _ in 0..times {
            for request in requests {
                self.call(*request);
            }
        }
    }

    /// Loads an image at the hook preempt, and keeps the receipts.
    fn load(&mut self, image: &[u8]) {
        let Ok(loaded) = self.machine.load_all(
            self.rt,
            self.alloc,
            &mut self.seat,
            Hook::Preempt,
            Some(image),
        )
        else {
            panic!(self.rt; "a load was refused")
        };
        self.push_receipt(loaded.draw);
        for install in loaded.installs {
            self.push_receipt(install);
        }
    }

    /// Lets a processor tick until `others` events of other seats stand before its last tick, or until it has looked often
    /// enough. Returns whether they do. The history has `events` events before.
    fn sees_others(&mut self, processor: u8, events: u64, others: u64) -> bool {
        let mut next = events;
        for _ in 0..LOOKS {
            let place = self.call(Request::Tick { processor });
            if place.wrapping_sub(next) >= others {
                return true;
            }
            next = next.wrapping_add(1);
            let_others_go_on();
        }
        false
    }

    /// Counters 0, 3 and 63, as they are now.
    fn counters(&mut self) -> [u64; 3] {
        [
            self.machine.counter(&mut self.seat, 0),
            self.machine.counter(&mut self.seat, 3),
            self.machine.counter(&mut self.seat, 63),
        ]
    }

    /// Does one step. Returns whether the play goes on.
    fn step(&mut self, step: Step) -> bool {
        match step {
            Step::Calls(times, requests) => self.call_all(times, requests),
            Step::Load(image) => self.load(image),
            Step::Read => self.read = Some(self.counters()),
            Step::Arm => self.gate.arm(),
            Step::Await => return self.gate.is_entered(),
            Step::Watch {
                processor,
                events,
                others,
            } => return self.sees_others(processor, events, others),
            Step::Open => self.gate.open(),
        }
        true
    }

    /// Does what the play says.
    pub fn play(&mut self, play: Play) {
        for step in play {
            if !self.step(*step) {
                return;
            }
        }
    }
}
