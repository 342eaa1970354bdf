//! Runs of a core over worked events, on a board of its own: the answers, in order, under both disciplines. The lines are
//! worked on paper from the rules of both disciplines and from the programs of the policies.

ghost use Rattle.std.specs.Prelude.{◌≤◌};

use crate::asserting::{is_number, is_text};
use bq_bpf::{Board, Plain};
use bq_cfs::CfsQueue;
use bq_core::Core;
use bq_disc::RunQueue;
use bq_disc::limits::PROCESSORS;
use bq_eevdf::EevdfQueue;
use bq_hooks::{By, Hook};
use bq_installed::Policy;
use bq_load::load;
use bq_parts::{Event, Refusal, Reply};
use bq_trace::texts::write_answer;
use std::alloc::Global;
use std::process::Abort;

/// Preempt, one map of 8 bytes and 1 entry: answers the old value of its entry and adds one to it, or answers 2.
const COUNTING: [u8; 136] = [
    0x42, 0x51, 0x50, 0x49, 1, 1, 1, 0, 8, 0, 1, 0, 15, 0, 0, 0, // one map, 15 slots
    0x62, 0x0a, 0xfc, 0xff, 0, 0, 0, 0, // stw [r10-4], 0
    0x18, 0x51, 0, 0, 0, 0, 0, 0, 0, 0, 0, 0, 0, 0, 0, 0, // ldmap r1, 0
    0xbf, 0xa2, 0, 0, 0, 0, 0, 0, // mov64 r2, r10
    7, 2, 0, 0, 0xfc, 0xff, 0xff, 0xff, // add64 r2, -4
    0x85, 0, 0, 0, 1, 0, 0, 0, // call 1
    0x55, 0, 2, 0, 0, 0, 0, 0, // jne64 r0, 0, +2
    0xb7, 0, 0, 0, 2, 0, 0, 0, // mov64 r0, 2
    0x95, 0, 0, 0, 0, 0, 0, 0, // exit
    0x79, 3, 0, 0, 0, 0, 0, 0, // ldxdw r3, [r0+0]
    0xbf, 0x34, 0, 0, 0, 0, 0, 0, // mov64 r4, r3
    7, 4, 0, 0, 1, 0, 0, 0, // add64 r4, 1
    0x7b, 0x40, 0, 0, 0, 0, 0, 0, // stxdw [r0+0], r4
    0xbf, 0x30, 0, 0, 0, 0, 0, 0, // mov64 r0, r3
    0x95, 0, 0, 0, 0, 0, 0, 0, // exit
];

/// Preempt: adds 5 to counter 3, and answers 0.
const ADDING: [u8; 52] = [
    0x42, 0x51, 0x50, 0x49, 1, 1, 0, 0, 5, 0, 0, 0, // no map, 5 slots
    0xb7, 1, 0, 0, 3, 0, 0, 0, // mov64 r1, 3
    0xb7, 2, 0, 0, 5, 0, 0, 0, // mov64 r2, 5
    0x85, 0, 0, 0, 100, 0, 0, 0, // call 100
    0xb7, 0, 0, 0, 0, 0, 0, 0, // mov64 r0, 0
    0x95, 0, 0, 0, 0, 0, 0, 0, // exit
];

/// Place: answers processor 0.
const FIRST_PROCESSOR: [u8; 28] = [
    0x42, 0x51, 0x50, 0x49, 1, 0, 0, 0, 2, 0, 0, 0, // no map, 2 slots
    0xb7, 0, 0, 0, 0, 0, 0, 0, // mov64 r0, 0
    0x95, 0, 0, 0, 0, 0, 0, 0, // exit
];

/// Pull: asks for task 1, and for task 2.
const FIRST_TASK: [u8; 28] = [
    0x42, 0x51, 0x50, 0x49, 1, 2, 0, 0, 2, 0, 0, 0, // no map, 2 slots
    0xb7, 0, 0, 0, 1, 0, 0, 0, // mov64 r0, 1
    0x95, 0, 0, 0, 0, 0, 0, 0, // exit
];

const SECOND_TASK: [u8; 28] = [
    0x42, 0x51, 0x50, 0x49, 1, 2, 0, 0, 2, 0, 0, 0, // no map, 2 slots
    0xb7, 0, 0, 0, 2, 0, 0, 0, // mov64 r0, 2
    0x95, 0, 0, 0, 0, 0, 0, 0, // exit
];

/// An event as a row has it, whose policy is an image, so that rows own nothing. Admitted tasks are of nice 0.
#[derive(Clone, Copy)]
enum EventRow {
    /// A task, its mask and its slice.
    Admit(u16, u64, u64),
    Draw,
    /// At a processor's hook, as a generation: the policy of this image, or none.
    Install(u8, Hook, u64, Option<&'static [u8]>),
    /// A task comes into the hand of processor 0.
    BeginWake(u16),
    /// And it is placed, at this time.
    EndWake(u64),
    /// At processor 0, as are the next two.
    Drain(u64),
    Tick(u64),
    Block(u64),
    /// Processor 1 pulls from this one, at time 0.
    Pull(u8),
}

/// What a core answers an event.
type Answer = Result<Reply, Refusal>;

/// The policy of an image.
fn policy(rt: &impl Abort, alloc: Global, image: &[u8]) -> Policy {
    let program = load(alloc, image).expect(rt, "an image");
    Policy::new(alloc, program).expect(rt, "memory")
}

/// The policy of an image, if there is an image.
fn policy_of(rt: &impl Abort, alloc: Global, image: Option<&[u8]>) -> Option<Policy> {
    Some(policy(rt, alloc, image?))
}

/// The event that a row tells.
fn event(rt: &impl Abort, alloc: Global, row: EventRow) -> Event {
    let processor = 0;
    match row {
        EventRow::Admit(task, mask, slice) => Event::Admit {
            task,
            nice: 0,
            mask,
            slice,
        },
        EventRow::Draw => Event::Draw,
        EventRow::Install(processor, hook, generation, image) => Event::Install {
            processor,
            hook,
            generation,
            policy: policy_of(rt, alloc, image),
        },
        EventRow::BeginWake(task) => Event::BeginWake { processor, task },
        EventRow::EndWake(now) => Event::EndWake { processor, now },
        EventRow::Drain(now) => Event::Drain { processor, now },
        EventRow::Tick(now) => Event::Tick { processor, now },
        EventRow::Block(now) => Event::Block { processor, now },
        EventRow::Pull(from) => Event::Pull {
            processor: 1,
            from,
            now: 0,
        },
    }
}

/// The events that some rows tell, in their order.
fn events(rt: &impl Abort, alloc: Global, rows: &[EventRow]) -> Vec<Event> {
    let mut events = Vec::new(alloc);
    for row in rows {
        events.push(event(rt, alloc, *row)).expect(rt, "memory");
    }
    events
}

/// What a core answers some events.
fn answers<Q: RunQueue + Drop, const P: usize>(
    rt: &impl Abort,
    alloc: Global,
    events: Vec<Event>,
    board: &mut Plain,
) -> Vec<Answer>
    requires { P ≤ PROCESSORS }
{
    let mut core = Core::<Q, P>::new(alloc).expect(rt, "memory");
    core.run(alloc, events, board).expect(rt, "memory")
}

/// The lines of some answers.
fn lines(rt: &impl Abort, alloc: Global, answers: &[Answer]) -> String {
    let mut text = String::new(alloc);
    for answer in answers {
        write_answer(&mut text, answer).expect(rt, "memory");
    }
    text
}

/// A core answers the events of some rows by these lines.
fn is_answered<Q: RunQueue + Drop, const P: usize>(
    rt: &impl Abort,
    alloc: Global,
    rows: &[EventRow],
    board: &mut Plain,
    expected: &str,
)
    requires { P ≤ PROCESSORS }
{
    let answers = answers::<Q, P>(rt, alloc, events(rt, alloc, rows), board);
    is_text(rt, lines(rt, alloc, answers.as_slice()).as_str(), expected);
}

/// A policy that counts in its map stands at a hook for three ticks.
static MAP_ROWS: [EventRow; 13] = [
    EventRow::Admit(1, 1, 3_000_000),
    EventRow::Admit(2, 1, 3_000_000),
    EventRow::Draw,
    EventRow::Install(0, Hook::Preempt, 1, Some(&COUNTING)),
    EventRow::BeginWake(1),
    EventRow::EndWake(0),
    EventRow::BeginWake(2),
    EventRow::EndWake(0),
    EventRow::Drain(0),
    EventRow::Tick(0),
    EventRow::Tick(0),
    EventRow::Tick(0),
    EventRow::Install(0, Hook::Preempt, 1, None),
];

static MAP_LINES: &str = "\
admit ok\nadmit ok\ndraw 1\ninstall ok\nbegin 1 loads 0 0\nend 1 to 0 by rule steps 0\nbegin 2 loads 1 0\n\
end 2 to 0 by rule steps 0\ndrain 2 run 1 by rule steps 0\ntick run 1 by policy steps 12\n\
tick run 2 by policy steps 12\ntick run 2 by rule steps 12\nrefused C12 Older 1\n";

/// A policy counts in its map: it answers 0, 1 and then 2, which is not permitted.
#[test]
fn a_map_is_written_and_read_back(rt: HostRuntime) {
    is_answered::<CfsQueue, 2>(&rt, rt.alloc(), &MAP_ROWS, &mut Plain::new(), MAP_LINES);
}

/// The task of the earliest deadline has had more than its share.
static DEADLINE_ROWS: [EventRow; 12] = [
    EventRow::Admit(1, 1, 3_000_000),
    EventRow::Admit(2, 1, 100_000),
    EventRow::BeginWake(1),
    EventRow::EndWake(0),
    EventRow::BeginWake(2),
    EventRow::EndWake(0),
    EventRow::Drain(0),
    EventRow::Tick(100_000),
    EventRow::Block(100_000),
    EventRow::Tick(200_000),
    EventRow::BeginWake(1),
    EventRow::EndWake(200_000),
];

static DEADLINE_LINES: &str = "\
admit ok\nadmit ok\nbegin 1 loads 0\nend 1 to 0 by rule steps 0\nbegin 2 loads 1\nend 2 to 0 by rule steps 0\n\
drain 2 run 2 by rule steps 0\ntick run 1 by rule steps 0\nblock 1 run 2\ntick run 2 by rule steps 0\n\
begin 1 loads 1\nend 1 to 0 by rule steps 0\n";

/// A task that has had more than its share does not run, though its deadline is the earliest.
#[test]
fn the_earliest_deadline_is_not_eligible(rt: HostRuntime) {
    is_answered::<EevdfQueue, 1>(
        &rt,
        rt.alloc(),
        &DEADLINE_ROWS,
        &mut Plain::new(),
        DEADLINE_LINES,
    );
}

/// Processor 1 pulls, by the rule and by policies.
static PULL_ROWS: [EventRow; 21] = [
    EventRow::Admit(1, 1, 3_000_000),
    EventRow::Admit(2, 3, 3_000_000),
    EventRow::Admit(3, 3, 3_000_000),
    EventRow::Draw,
    EventRow::Install(0, Hook::Place, 1, Some(&FIRST_PROCESSOR)),
    EventRow::BeginWake(1),
    EventRow::EndWake(0),
    EventRow::BeginWake(2),
    EventRow::EndWake(0),
    EventRow::BeginWake(3),
    EventRow::EndWake(0),
    EventRow::Drain(0),
    EventRow::Pull(0),
    EventRow::Pull(0),
    EventRow::Draw,
    EventRow::Install(1, Hook::Pull, 2, Some(&FIRST_TASK)),
    EventRow::Pull(0),
    EventRow::Draw,
    EventRow::Install(1, Hook::Pull, 3, Some(&SECOND_TASK)),
    EventRow::Pull(0),
    EventRow::Pull(1),
];

static PULL_LINES: &str = "\
admit ok\nadmit ok\nadmit ok\ndraw 1\ninstall ok\nbegin 1 loads 0 0\nend 1 to 0 by policy steps 2\n\
begin 2 loads 1 0\nend 2 to 0 by policy steps 2\nbegin 3 loads 2 0\nend 3 to 0 by policy steps 2\n\
drain 3 run 1 by rule steps 0\npull 3 run 3 by rule steps 0\npull none run 3 by rule steps 0\ndraw 2\ninstall ok\n\
pull none run 3 by rule steps 2\ndraw 3\ninstall ok\npull 2 run 3 by policy steps 2\nrefused C9 SameProcessor\n";

/// A pull takes what the rule or a policy chooses, and nothing that may not move.
#[test]
fn an_emptier_processor_pulls(rt: HostRuntime) {
    is_answered::<CfsQueue, 2>(&rt, rt.alloc(), &PULL_ROWS, &mut Plain::new(), PULL_LINES);
}

/// A policy adds to a counter at each tick.
static BOARD_ROWS: [EventRow; 8] = [
    EventRow::Admit(1, 1, 3_000_000),
    EventRow::Draw,
    EventRow::Install(0, Hook::Preempt, 1, Some(&ADDING)),
    EventRow::BeginWake(1),
    EventRow::EndWake(0),
    EventRow::Drain(0),
    EventRow::Tick(0),
    EventRow::Tick(0),
];

static BOARD_LINES: &str = "\
admit ok\ndraw 1\ninstall ok\nbegin 1 loads 0\nend 1 to 0 by rule steps 0\ndrain 1 run 1 by rule steps 0\n\
tick run 1 by policy steps 5\ntick run 1 by policy steps 5\n";

/// Two ticks at which a policy adds 5 leave 10 on the counter.
#[test]
fn what_policies_add_stands_on_the_board(rt: HostRuntime) {
    let mut board = Plain::new();
    is_answered::<EevdfQueue, 1>(&rt, rt.alloc(), &BOARD_ROWS, &mut board, BOARD_LINES);
    is_number(&rt, board.read(3), 10);
}

/// How many ticks a long run of 20,000 events has, behind the four by which a task comes to the processor.
const TICKS: u64 = 19_996;

/// A task comes to a processor, which then ticks.
fn long_events(rt: &impl Abort, alloc: Global) -> Vec<Event> {
    let first = [
        EventRow::Admit(1, 1, 3_000_000),
        EventRow::BeginWake(1),
        EventRow::EndWake(0),
        EventRow::Drain(0),
    ];
    let mut events = events(rt, alloc, &first);
    for _ in 0..TICKS {
        events
            .push(event(rt, alloc, EventRow::Tick(0)))
            .expect(rt, "memory");
    }
    events
}

/// How many of the answers are those to ticks by which task 1 runs, by the rule.
fn ticks(answers: &[Answer]) -> u64 {
    let mut count = 0u64;
    for answer in answers {
        if let Ok(
            Reply::Ticked {
                run: Some(1),
                by: By::Discipline,
                steps: 0,
            },
        ) = answer
        {
            count = count.wrapping_add(1);
        }
    }
    count
}

/// A list of 20,000 events has as many answers.
#[test]
fn a_long_run_is_answered_to_its_end(rt: HostRuntime) {
    let events = long_events(&rt, rt.alloc());
    let answers = answers::<CfsQueue, 1>(&rt, rt.alloc(), events, &mut Plain::new());
    is_number(&rt, answers.len() as u64, 20_000);
    is_number(&rt, ticks(answers.as_slice()), TICKS);
}
