//! Four seats on four threads share one history. The numbers follow from how many calls there are.

use crate::asserting::{is_number, is_true};
use crate::gate::Point;
use crate::play::{Script, Step};
use crate::requests::Request;
use crate::script::{AllPlayed, run_script};
use crate::{admit, life};
use bq_machine::Admission;
use bq_parts::{Event, Reply};
use bq_shared::PackedAnswer;
use std::process::Abort;

/// The processor at whose clock an event was read, and the reading.
fn reading(event: &Event) -> Option<(u8, u64)> {
    match event {
        Event::EndWake { processor, now }
        | Event::Drain { processor, now }
        | Event::Tick { processor, now }
        | Event::Block { processor, now }
        | Event::Pull { processor, now, .. } => Some((*processor, *now)),
        Event::Admit { .. }
        | Event::Retire { .. }
        | Event::BeginWake { .. }
        | Event::Draw
        | Event::Install { .. } => None,
    }
}

/// What a history tells of its clocks.
#[derive(Clone, Copy)]
struct Readings {
    /// How many events are ticks.
    ticks: u64,
    /// How many events read a clock.
    all: u64,
    /// The last reading of each processor.
    last: [u64; 4],
}

impl Readings {
    /// Adds an event. Returns whether it reads no clock, or the next number of one.
    fn add(&mut self, event: &Event) -> bool {
        if matches!(event, Event::Tick { .. }) {
            self.ticks = self.ticks.wrapping_add(1);
        }
        let Some((processor, now)) = reading(event) else {
            return true;
        };
        self.all = self.all.wrapping_add(1);
        let Some(last) = self.last.get_mut(usize::from(processor)) else {
            return false;
        };
        let is_next = now == last.wrapping_add(1);
        *last = now;
        is_next
    }
}

/// What a history tells of its clocks, whose events read 1, 2, 3 and so on at each processor, in the order of the history.
fn clock_readings(rt: &impl Abort, outcome: &AllPlayed) -> Readings {
    let mut readings = Readings {
        ticks: 0,
        all: 0,
        last: [0; 4],
    };
    for place in 0..outcome.closed.len() {
        let Some((event, _, _)) = outcome.closed.logged(place) else {
            panic!(rt; "a place without an event")
        };
        is_true(rt, readings.add(event));
    }
    readings
}

/// Four lives at once.
static LIVES: Script<'static> = Script {
    before: &[],
    at_once: &[
        life!(0, u64::MAX, 1000),
        life!(1, u64::MAX, 1000),
        life!(2, u64::MAX, 1000),
        life!(3, u64::MAX, 1000),
    ],
    after: &[],
};

/// Of each seat an admit, both halves of a wake, a drain and 1,000 ticks; the clock is read at the end of a wake, a drain and
/// each tick.
fn is_whole(rt: &impl Abort, outcome: &AllPlayed) {
    is_number(rt, outcome.closed.len(), 4016);
    is_number(rt, outcome.confirmed(), 4016);
    let readings = clock_readings(rt, outcome);
    is_number(rt, readings.ticks, 4000);
    is_true(rt, readings.last == [1002; 4]);
}

/// Once each seat has a receipt of another reply, that one is not confirmed.
fn bent_receipts_are_not_confirmed(rt: &impl Abort, outcome: &mut AllPlayed) {
    for list in &mut outcome.receipts {
        if let Some(first) = list.get_mut(0) {
            first.entry.reply = PackedAnswer::of(&Ok(Reply::Retired));
        }
    }
    is_number(rt, outcome.confirmed(), 4012);
}

/// The history of four seats has the events of all, in the order of the clocks, and what a receipt says.
#[test]
fn four_seats_share_one_history(rt: HostRuntime) {
    let mut outcome = run_script(&rt, rt.alloc(), Point::Nowhere, &LIVES);
    is_whole(&rt, &outcome);
    bent_receipts_are_not_confirmed(&rt, &mut outcome);
}

/// A task is admitted, and then, a thousand times, it is woken at processor 0, which drains its inbox, ticks, and blocks what runs there.
macro_rules! rounds {
    ($task:expr) => {
        &[
            Step::Calls(1, &[admit!($task, 1)]),
            Step::Calls(
                1000,
                &[
                    Request::Wake {
                        processor: 0,
                        task: $task,
                    },
                    Request::Drain { processor: 0 },
                    Request::Tick { processor: 0 },
                    Request::Block { processor: 0 },
                ],
            ),
        ]
    };
}

/// Rounds by four seats at processor 0.
static ROUNDS: Script<'static> = Script {
    before: &[],
    at_once: &[rounds!(0), rounds!(1), rounds!(2), rounds!(3)],
    after: &[],
};

/// The task of the processor's number is admitted, and then, a thousand times, it is woken at the processor, which drains its inbox,
/// ticks, pulls from another, and blocks what runs there.
macro_rules! rounds_with_pulls {
    ($processor:expr, $from:expr) => {
        &[
            Step::Calls(1, &[admit!($processor, u64::MAX)]),
            Step::Calls(
                1000,
                &[
                    Request::Wake {
                        processor: $processor,
                        task: $processor,
                    },
                    Request::Drain {
                        processor: $processor,
                    },
                    Request::Tick {
                        processor: $processor,
                    },
                    Request::Pull {
                        processor: $processor,
                        from: $from,
                    },
                    Request::Block {
                        processor: $processor,
                    },
                ],
            ),
        ]
    };
}

/// Rounds by four seats, each at its own processor, which pulls from the next.
static ROUNDS_WITH_PULLS: Script<'static> = Script {
    before: &[],
    at_once: &[
        rounds_with_pulls!(0, 1),
        rounds_with_pulls!(1, 2),
        rounds_with_pulls!(2, 3),
        rounds_with_pulls!(3, 0),
    ],
    after: &[],
};

/// Each event of the history has a receipt, and at least this number of them read a clock. Returns what it tells of its clocks.
fn are_read(rt: &impl Abort, outcome: &AllPlayed, least: u64) -> Readings {
    is_true(rt, outcome.is_confirmed());
    let readings = clock_readings(rt, outcome);
    is_true(rt, readings.all >= least);
    readings
}

/// All readings are those of processor 0's clock.
fn one_clock_is_read(rt: &impl Abort, readings: Readings) {
    is_true(rt, readings.last == [readings.all, 0, 0, 0]);
}

/// A clock is read under the lock of its processor: otherwise another seat's event may come between a reading and its own event. Of
/// 4,000 rounds each reads it at a drain, a tick and a block, and where a wake ends.
#[test]
fn four_seats_at_one_processor_read_its_clock_in_order(rt: HostRuntime) {
    let outcome = run_script(&rt, rt.alloc(), Point::Nowhere, &ROUNDS);
    one_clock_is_read(&rt, are_read(&rt, &outcome, 12_000));
}

/// A pull reads the clock of the processor that pulls, and no other event does while only one seat calls there. Of 4,000 rounds each
/// reads one at a drain, a tick, a pull and a block, and where a wake ends.
#[test]
fn each_processor_reads_its_own_clock(rt: HostRuntime) {
    let outcome = run_script(&rt, rt.alloc(), Point::Nowhere, &ROUNDS_WITH_PULLS);
    are_read(&rt, &outcome, 16_000);
}
