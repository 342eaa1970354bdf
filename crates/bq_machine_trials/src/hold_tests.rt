//! A call is held in its clock reading, or where it calls its queue, until another seat has its answers.

use crate::admit;
use crate::asserting::is_true;
use crate::gate::Point;
use crate::images::{ALWAYS, SUMS, ZERO};
use crate::play::{Play, Script, Step};
use crate::requests::Request;
use crate::script::{AllPlayed, run_script};
use bq_machine::Admission;
use std::alloc::Global;
use std::process::Abort;
use std::sync::Wait;
use std::thread::Threads;

/// Tasks 0 and 8 come to processor 0, and task 7 sleeps.
const THREE_TASKS: [Request; 7] = [
    admit!(0, 3),
    Request::Wake {
        processor: 0,
        task: 0,
    },
    Request::Drain { processor: 0 },
    admit!(8, 1),
    Request::Wake {
        processor: 0,
        task: 8,
    },
    Request::Drain { processor: 0 },
    admit!(7, 1),
];

/// There are three tasks; then the gate is armed, and this call is made, which comes to it.
macro_rules! held {
    ($call:expr) => {
        &[
            Step::Calls(1, &THREE_TASKS),
            Step::Arm,
            Step::Calls(1, &[$call]),
        ]
    };
}

const TICK: Play = held!(Request::Tick { processor: 0 });

const NEXT_TICK: Play = held!(Request::Tick { processor: 1 });

const DRAIN: Play = held!(Request::Drain { processor: 0 });

const BLOCK: Play = held!(Request::Block { processor: 0 });

/// The task that sleeps is woken.
const WAKE: Play = held!(Request::Wake {
    processor: 0,
    task: 7,
});

/// Processor 0 pulls from processor 1, which has no task.
const PULL: Play = held!(Request::Pull {
    processor: 0,
    from: 1,
});

/// Processor 1 pulls from processor 0, which has a task too many.
const GIVE: Play = held!(Request::Pull {
    processor: 1,
    from: 0,
});

/// Task 9 is admitted, woken at processor 2, drained, ticked and blocked there; processor 3 pulls from 2; the task retires.
const LIFE: Step = Step::Calls(
    1,
    &[
        admit!(9, 12),
        Request::Wake {
            processor: 2,
            task: 9,
        },
        Request::Drain { processor: 2 },
        Request::Tick { processor: 2 },
        Request::Block { processor: 2 },
        Request::Pull {
            processor: 3,
            from: 2,
        },
        Request::Retire { task: 9 },
    ],
);

/// Another seat calls that while a call is held.
const BESIDE: Play = &[Step::Await, LIFE, Step::Open];

/// And then task 10 is admitted and woken at processor 2, and goes to processor 0's inbox.
const BESIDE_INBOX: Play = &[
    Step::Await,
    LIFE,
    Step::Calls(
        1,
        &[
            admit!(10, 1),
            Request::Wake {
                processor: 2,
                task: 10,
            },
        ],
    ),
    Step::Open,
];

/// And then processors 0 and 1 tick.
const BESIDE_TICKS: Play = &[
    Step::Await,
    LIFE,
    Step::Calls(
        1,
        &[
            Request::Tick { processor: 0 },
            Request::Tick { processor: 1 },
        ],
    ),
    Step::Open,
];

/// Processor 2 drains and ticks, and processor 3 pulls from it: none of these calls takes the lobby, nor processors 0 and 1.
const BESIDE_QUEUES: Play = &[
    Step::Await,
    Step::Calls(
        1,
        &[
            Request::Drain { processor: 2 },
            Request::Tick { processor: 2 },
            Request::Pull {
                processor: 3,
                from: 2,
            },
        ],
    ),
    Step::Open,
];

/// A policy that wants each task to give way is at each processor.
const LOADED: Play = &[Step::Load(&ALWAYS)];

const NOTHING: Play = &[];

/// A call that is held, where, and what another seat is answered meanwhile.
///
/// A reading is held under the lock of processor 0 only, and that of a pull under none. A call of the queue is held under the
/// locks that its event needs; the journal's is not among them, before a policy has run and after (the queue gives the task that
/// comes to run once the policy has answered). A block has the lobby, too.
static HOLDS: [(Play, Point, Play); 19] = [
    (TICK, Point::Clock(0), BESIDE_INBOX),
    (DRAIN, Point::Clock(0), BESIDE_INBOX),
    (BLOCK, Point::Clock(0), BESIDE_INBOX),
    (WAKE, Point::Clock(0), BESIDE_INBOX),
    (PULL, Point::Clock(0), BESIDE_TICKS),
    (TICK, Point::Mark, BESIDE_INBOX),
    (DRAIN, Point::Mark, BESIDE),
    (BLOCK, Point::Mark, BESIDE_QUEUES),
    (WAKE, Point::Mark, BESIDE_INBOX),
    (PULL, Point::Mark, BESIDE),
    (TICK, Point::Preempt, BESIDE_INBOX),
    (DRAIN, Point::Preempt, BESIDE),
    (TICK, Point::Choice, BESIDE_INBOX),
    (DRAIN, Point::Choice, BESIDE),
    (BLOCK, Point::Choice, BESIDE_QUEUES),
    (TICK, Point::Take, BESIDE_INBOX),
    (DRAIN, Point::Take, BESIDE),
    (BLOCK, Point::Take, BESIDE_QUEUES),
    (GIVE, Point::Take, BESIDE),
];

/// Each receipt stands in the history, and so does no other event; and a call was held until another seat opened the gate.
fn was_held(rt: &impl Abort, outcome: &AllPlayed) {
    is_true(rt, outcome.opened && outcome.is_confirmed());
}

/// Another seat has its answers while this call is held.
fn is_answered_while_held<R: Abort + Threads + Wait + Sync>(
    rt: &R,
    alloc: Global,
    hold: &(Play, Point, Play),
) {
    let (held, at, beside) = *hold;
    let script = Script {
        before: LOADED,
        at_once: &[held, beside],
        after: NOTHING,
    };
    was_held(rt, &run_script(rt, alloc, at, &script));
}

/// Calls that need none of the locks that a held call has are answered while it is held.
#[test]
fn calls_go_on_beside_a_call_that_is_held(rt: HostRuntime) {
    for hold in &HOLDS {
        is_answered_while_held(&rt, rt.alloc(), hold);
    }
}

/// Three ticks of processor 1 and the second drain of processor 0 have asked the policy before the call is held, and then the
/// tick that was held does.
static COUNTED: Script<'static> = Script {
    before: &[
        Step::Load(&SUMS),
        Step::Calls(
            1,
            &[
                admit!(1, 2),
                Request::Wake {
                    processor: 1,
                    task: 1,
                },
                Request::Drain { processor: 1 },
            ],
        ),
        Step::Calls(3, &[Request::Tick { processor: 1 }]),
    ],
    at_once: &[TICK, &[Step::Await, Step::Read, Step::Open]],
    after: NOTHING,
};

/// The policy adds 11, 5 and 7: four times before the call is held, and five times in the end.
fn are_counted(rt: &impl Abort, outcome: &AllPlayed) {
    is_true(rt, outcome.opened);
    is_true(rt, outcome.read == Some([44, 20, 28]));
    let closed = &outcome.closed.counters;
    is_true(rt, [closed[0], closed[3], closed[63]] == [55, 25, 35]);
}

/// A read of counters takes no lock.
#[test]
fn counters_are_read_while_a_call_is_held(rt: HostRuntime) {
    are_counted(&rt, &run_script(&rt, rt.alloc(), Point::Clock(0), &COUNTED));
}

/// The first load has five events, and the seat whose call is held has nine before it, so that the history has fourteen then. A load draws
/// its number before it waits for the processor whose lock is held: one event of another seat.
static DRAWN: Script<'static> = Script {
    before: LOADED,
    at_once: &[
        TICK,
        &[Step::Await, Step::Load(&ZERO)],
        &[
            Step::Await,
            Step::Watch {
                processor: 3,
                events: 14,
                others: 1,
            },
            Step::Open,
        ],
    ],
    after: NOTHING,
};

/// A load draws its number while a processor's lock is held.
#[test]
fn a_number_is_drawn_while_a_processor_is_held(rt: HostRuntime) {
    let outcome = run_script(&rt, rt.alloc(), Point::Mark, &DRAWN);
    is_true(&rt, outcome.opened);
}

/// While processor 1's lock is held a load draws its number, installs at processor 0, and waits without the lock of processor 0, which
/// ticks after that install: two events of another seat.
static INSTALLED: Script<'static> = Script {
    before: LOADED,
    at_once: &[
        NEXT_TICK,
        &[Step::Await, Step::Load(&ZERO)],
        &[
            Step::Await,
            Step::Watch {
                processor: 0,
                events: 14,
                others: 2,
            },
            Step::Open,
        ],
    ],
    after: NOTHING,
};

/// A load holds one processor at a time.
#[test]
fn a_processor_ticks_while_a_load_waits_for_the_next(rt: HostRuntime) {
    was_held(
        &rt,
        &run_script(&rt, rt.alloc(), Point::Clock(1), &INSTALLED),
    );
}
