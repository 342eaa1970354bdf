//! Counters that four threads add to.

use crate::asserting::{is_number, is_true};
use crate::gate::Point;
use crate::images::{ADDS, READS};
use crate::play::{Script, Step};
use crate::requests::Request;
use crate::script::{AllPlayed, run_script};
use crate::{admit, life};
use bq_bpf::CounterCall;
use bq_machine::Admission;
use std::alloc::Global;
use std::process::Abort;

/// The answers to the adds of 5 that were found, by a fifth of each, and how often the counter was read.
#[derive(Drop)]
struct Tally {
    seen: Vec<bool>,
    reads: u32,
}

impl Tally {
    /// Adds a call. Returns whether it is an add of 5 to counter 3 whose answer is a multiple of 5 that was not seen, or a read
    /// that answers this sum.
    fn add(&mut self, call: &CounterCall, sum: u64) -> bool {
        match call {
            CounterCall::Read { counter: 3, answer } => {
                self.reads = self.reads.wrapping_add(1);
                *answer == sum
            }
            CounterCall::Add {
                counter: 3,
                amount: 5,
                answer,
            } => {
                let Some(one) = self.seen.get_mut((*answer / 5) as usize) else {
                    return false;
                };
                let is_new = *answer % 5 == 0 && !*one;
                *one = true;
                is_new
            }
            _ => false,
        }
    }

    /// Adds calls. Returns whether each is so.
    fn add_all(&mut self, calls: &[CounterCall], sum: u64) -> bool {
        for call in calls {
            if !self.add(call, sum) {
                return false;
            }
        }
        true
    }

    /// Returns whether all answers were seen, and the counter was read once.
    fn is_whole(&self) -> bool {
        for one in &self.seen {
            if !*one {
                return false;
            }
        }
        self.reads == 1
    }
}

/// The answers to that number of adds of 5 are 0, 5, 10 and so on, each once, and the one read answers their sum.
fn adds_up(rt: &impl Abort, alloc: Global, outcome: &AllPlayed, adds: usize, sum: u64) {
    let mut tally = Tally {
        seen: vec![in alloc; false; adds].expect(rt, "memory"),
        reads: 0,
    };
    for place in 0..outcome.closed.len() {
        let Some((_, _, calls)) = outcome.closed.logged(place) else {
            panic!(rt; "a place without an event")
        };
        is_true(rt, tally.add_all(calls, sum));
    }
    is_true(rt, tally.is_whole());
}

/// Four lives of adds, and then a read.
static ADDING: Script<'static> = Script {
    before: &[Step::Load(&ADDS)],
    at_once: &[
        life!(0, 1, 1000),
        life!(1, 2, 1000),
        life!(2, 4, 1000),
        life!(3, 8, 1000),
    ],
    after: &[
        Step::Load(&READS),
        Step::Calls(1, &[Request::Tick { processor: 0 }]),
        Step::Read,
    ],
};

/// 4 times 1,000 ticks added 5 each.
fn counts_once(rt: &impl Abort, alloc: Global, outcome: &AllPlayed) {
    is_true(rt, outcome.read == Some([0, 20_000, 0]));
    is_number(rt, outcome.closed.counters[3], 20_000);
    adds_up(rt, alloc, outcome, 4000, 20_000);
}

/// No add is lost or counted twice where four threads add to one counter.
#[test]
fn each_add_counts_once(rt: HostRuntime) {
    let outcome = run_script(&rt, rt.alloc(), Point::Nowhere, &ADDING);
    counts_once(&rt, rt.alloc(), &outcome);
}
