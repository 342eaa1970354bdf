//! A history that a core goes through again, event by event.
use bq_bpf::{Board, CounterCall, Plain};
use bq_core::Core;
use bq_disc::RunQueue;
use bq_disc::clock::LATEST;
use bq_hooks::Hook;
use bq_parts::{Cpu, Event, Refusal, Reply};
use bq_recording::Closed;
use bq_shared::copy_event;
use bq_trace::processor_line::write_processor;
use std::alloc::Global;
use std::process::Abort;

/// A board that answers what a record tells.
#[derive(Drop)]
struct Recorded<'a> {
    calls: &'a [CounterCall],
    made: usize,
    is_same: bool,
}

impl Recorded<'_> {
    /// The answer that is recorded for this call, if the call is the one recorded next.
    fn answer(&mut self, made: CounterCall) -> u64 {
        let Some(done) = self.calls.get(self.made) else {
            self.is_same = false;
            return 0;
        };
        self.made = self.made.saturating_add(1);
        let answer = done.answer();
        let made = match made {
            CounterCall::Add {
                counter,
                amount,
                ..
            } => CounterCall::Add {
                counter,
                amount,
                answer,
            },
            CounterCall::Read { counter, .. } => CounterCall::Read { counter, answer },
        };
        if made != *done {
            self.is_same = false;
        }
        answer
    }

    /// Returns whether just the recorded calls were made.
    fn was_followed(&self) -> bool {
        self.is_same && self.made == self.calls.len()
    }
}

impl Board for Recorded<'_> {
    ghost leads = { λ _ _ _. Unit {0} };

    fn add(&mut self, counter: u8, amount: u64) -> u64 {
        self.answer(CounterCall::Add {
            counter,
            amount,
            answer: 0,
        })
    }

    fn read(&mut self, counter: u8) -> u64 {
        self.answer(CounterCall::Read { counter, answer: 0 })
    }
}

/// Returns whether a core from the start answers each event of the history as the machine did, where the counters answer it as they
/// did, and ends as the machine did, and the counters are the sums of the adds.
pub fn is_replayed<Q: RunQueue + Drop>(
    rt: &impl Abort,
    alloc: Global,
    mut closed: Closed<Q, 64>,
) -> bool {
    let mut core = Core::<Q, 64>::new(alloc).expect(rt, "memory");
    is_followed(rt, alloc, &mut core, &closed)
        && is_same_world(rt, alloc, &mut core, &mut closed.core)
}

/// Returns whether a core answers each event of the history so, and the counters are the sums of the adds.
fn is_followed<Q: RunQueue + Drop>(
    rt: &impl Abort,
    alloc: Global,
    core: &mut Core<Q, 64>,
    closed: &Closed<Q, 64>,
) -> bool {
    let mut sums = [0u64; 64];
    for place in 0..closed.len() {
        let Some((event, reply, calls)) = closed.logged(place) else {
            return false;
        };
        let event = copy_event(event).expect(rt, "memory");
        if !is_answered_so(alloc, core, event, &reply, calls) {
            return false;
        }
        add_all(&mut sums, calls);
    }
    sums.as_slice() == closed.counters.as_slice()
}

/// Returns whether a core answers an event so, with exactly these calls of counters.
fn is_answered_so<Q: RunQueue + Drop>(
    alloc: Global,
    core: &mut Core<Q, 64>,
    event: Event,
    reply: &Result<Reply, Refusal>,
    calls: &[CounterCall],
) -> bool {
    let mut board = Recorded {
        calls,
        made: 0,
        is_same: true,
    };
    let answer = core.step(alloc, event, &mut board);
    answer == *reply && board.was_followed()
}

/// Adds what the calls add, modulo 2^64.
fn add_all(sums: &mut [u64; 64], calls: &[CounterCall]) {
    for call in calls {
        if let CounterCall::Add {
            counter,
            amount,
            ..
        } = call
        {
            if let Some(sum) = sums.get_mut(usize::from(*counter)) {
                *sum = sum.wrapping_add(*amount);
            }
        }
    }
}

/// Returns whether two cores are shown the same, and answer the last events alike, and are shown the same then.
fn is_same_world<Q: RunQueue + Drop>(
    rt: &impl Abort,
    alloc: Global,
    core: &mut Core<Q, 64>,
    other: &mut Core<Q, 64>,
) -> bool {
    is_shown_the_same(rt, alloc, core, other)
        && is_answered_the_same(alloc, core, other)
        && is_shown_the_same(rt, alloc, core, other)
}

/// How many last events there are.
const LAST_EVENTS: u16 = 64 + 1 + 3 * 1024;

/// The last events, by their numbers: a drain of each inbox, a new number, and an admission and a wake of each task.
fn last_event(number: u16) -> Event {
    if number < 64 {
        return Event::Drain {
            processor: number as u8,
            now: LATEST,
        };
    }
    if number == 64 {
        return Event::Draw;
    }
    let number = number - 65;
    let task = number / 3;
    match number % 3 {
        0 => Event::Admit {
            task,
            nice: 0,
            mask: u64::MAX,
            slice: 3_000_000,
        },
        1 => Event::BeginWake { processor: 0, task },
        _ => Event::EndWake {
            processor: 0,
            now: LATEST,
        },
    }
}

/// Returns whether two cores answer the last events alike.
fn is_answered_the_same<Q: RunQueue + Drop>(
    alloc: Global,
    core: &mut Core<Q, 64>,
    other: &mut Core<Q, 64>,
) -> bool {
    for number in 0..LAST_EVENTS {
        let answer = core.step(alloc, last_event(number), &mut Plain::new());
        let other_answer = other.step(alloc, last_event(number), &mut Plain::new());
        if answer != other_answer {
            return false;
        }
    }
    true
}

/// Returns whether the processors of two cores are shown the same, and have policies of the same numbers.
fn is_shown_the_same<Q: RunQueue + Drop>(
    rt: &impl Abort,
    alloc: Global,
    core: &Core<Q, 64>,
    other: &Core<Q, 64>,
) -> bool {
    shown(rt, alloc, core) == shown(rt, alloc, other)
}

/// The lines that show the processors of a core, each behind the numbers of its policies.
fn shown<Q: RunQueue + Drop>(rt: &impl Abort, alloc: Global, core: &Core<Q, 64>) -> String {
    let mut text = String::new(alloc);
    for number in 0..core.processors() {
        let number = number as u8;
        show(rt, &mut text, number, core.cpu(number));
    }
    text
}

fn show<Q: RunQueue>(rt: &impl Abort, text: &mut String, number: u8, cpu: &Cpu<Q>) {
    let place = cpu.generation(Hook::Place);
    let preempt = cpu.generation(Hook::Preempt);
    let pull = cpu.generation(Hook::Pull);
    write!(text, "{place} {preempt} {pull} ").expect(rt, "memory");
    write_processor(text, number, cpu).expect(rt, "memory");
}
