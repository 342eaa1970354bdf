//! One program, one verdict. Each drawn program is loaded by `load_all` of the locked machine, which must answer what `verify` itself answers: that
//! it is accepted, or the same cause at the same slot. `tests/one_verdict.py` draws the same programs, and compares the four other ways by which a
//! program comes to the verifier: `check` of its hex, `check` and `run` of its file, and a trace's install.

ghost use Rattle.std.specs.Prelude.{◌≡◌};
ghost use Rattle.bq_history.specs.Tables.{table_of};
ghost use Rattle.bq_shared.specs.Prepared.{ArePrepared};

use crate::asserting::is_text;
use bq_cfs::CfsQueue;
use bq_history::Naming;
use bq_hooks::Hook;
use bq_machine::{Clock, LoadRefused, Machine};
use bq_policy_file::{Head, PolicySource, read_policy};
use bq_recording::{MachineSeat, Prepared, prepare};
use bq_shared::{Counting, UnnamedCounters};
use bq_verify::{Refused, verify};
use std::alloc::Global;
use std::marker::Brand;
use std::process::Abort;
use std::sync::Wait;

/// How many programs are drawn.
const PROGRAMS: u32 = 400;

/// Where the drawing begins.
const SEED: u64 = 0x9e37_79b9_7f4a_7c15;

/// The instructions of which programs are drawn.
static LINES: [&str; 48] = [
    "mov64 r0, 0",
    "mov64 r0, 1",
    "mov64 r2, 8",
    "mov64 r3, -1",
    "mov64 r6, r1",
    "mov64 r2, r10",
    "mov64 r0, r10",
    "mov64 r10, 0",
    "mov64 r0, r3",
    "mov32 r0, 7",
    "add64 r2, -8",
    "add64 r2, 4",
    "add64 r0, 1",
    "add64 r0, r2",
    "sub64 r0, r3",
    "mul64 r1, 2",
    "xor64 r0, 1",
    "and64 r3, 7",
    "lsh64 r0, 3",
    "rsh32 r0, 1",
    "neg64 r0",
    "be16 r0",
    "ldxw r3, [r1+0]",
    "ldxdw r3, [r1+8]",
    "ldxdw r0, [r1+48]",
    "ldxdw r0, [r1+64]",
    "ldxdw r0, [r10-8]",
    "ldxdw r0, [r2+0]",
    "ldxb r0, [r6+1]",
    "stw [r10-4], 0",
    "stdw [r10-8], 1",
    "stxdw [r10-8], r1",
    "stxdw [r10-16], r0",
    "stxw [r10-4], r1",
    "stw [r1+0], 0",
    "stdw [r0+0], 5",
    "jeq64 r0, 0, +1",
    "jne64 r0, 0, +2",
    "jgt64 r3, 7, +1",
    "jeq64 r2, r3, +1",
    "ja +1",
    "ja -1",
    "ldmap r1, 0",
    "ldmap r1, 1",
    "call 1",
    "call 5",
    "call 100",
    "call 3",
];

/// How a program is refused: the number of the cause, and the slot.
#[derive(Clone, Copy)]
struct Refusal {
    cause: u8,
    slot: usize,
}

/// A drawn program.
#[derive(Drop)]
struct Sample {
    /// The policy's image.
    image: Vec<u8>,
    /// How `verify` refuses it; none where it is accepted.
    refusal: Option<Refusal>,
}

/// The next of the numbers that look drawn (xorshift).
fn next(number: u64) -> u64 {
    let mut x = number;
    x ^= x << 13;
    x ^= x >> 7;
    x ^= x << 17;
    x
}

/// Adds text to a text.
fn add(rt: &impl Abort, text: &mut String, more: &str) {
    text.push_str(more).expect(rt, "memory");
}

/// The text of a policy with a map of one entry, of 1 to 8 drawn lines and an exit.
fn text(rt: &impl Abort, alloc: Global, number: &mut u64) -> String {
    let mut text = String::new(alloc);
    add(rt, &mut text, ";@ hook preempt\n;@ maps 8:1\n");
    *number = next(*number);
    let drawn = (*number >> 20) % 8 + 1;
    for _ in 0..drawn {
        *number = next(*number);
        add(rt, &mut text, LINES[((*number >> 20) % 48) as usize]);
        add(rt, &mut text, "\n");
    }
    add(rt, &mut text, "exit\n");
    text
}

/// How `verify` refuses the program of a policy.
fn judged(rt: &impl Abort, alloc: Global, policy: &PolicySource) -> Option<Refusal> {
    let program = policy.program(alloc).expect(rt, "memory");
    match verify(alloc, program) {
        Ok(_) => None,
        Err(Refused::At { slot, cause }) => {
            let cause = cause.number();
            Some(Refusal { cause, slot })
        }
        Err(Refused::OutOfMemory) => panic!(rt; "memory"),
    }
}

/// The program of a text.
fn sample_of(rt: &impl Abort, alloc: Global, text: &str) -> Sample {
    let policy = read_policy(alloc, text.as_bytes(), &Head::nothing()).expect(rt, "a policy");
    Sample {
        image: policy.image(alloc).expect(rt, "memory"),
        refusal: judged(rt, alloc, &policy),
    }
}

/// The text of the machine's answer is the one that refuses the program with its cause and slot, or that it is loaded.
fn agrees(rt: &impl Abort, alloc: Global, answer: Option<LoadRefused>, refusal: Option<Refusal>) {
    let found = match answer {
        None => String::from_str(alloc, "loaded"),
        Some(refused) => format!(in alloc; "refused {refused}"),
    };
    let wanted = match refusal {
        None => String::from_str(alloc, "loaded"),
        Some(Refusal { cause, slot }) => format!(in alloc; "refused L8 V{cause} {slot}"),
    };
    is_text(
        rt,
        found.expect(rt, "memory").as_str(),
        wanted.expect(rt, "memory").as_str(),
    );
}

/// A clock that stands still.
#[derive(Drop)]
struct Steady;

impl Clock for Steady {
    ghost gives = { λ _ reading. reading ≡ 5 };

    fn now(&self, _processor: u8) -> u64 {
        5
    }
}

/// A machine of one processor under CFS, by one thread.
type Single<N> = Machine<CfsQueue, Steady, N, 1>;

/// The machine answers to a load of the text's image what `verify` does.
fn is_loaded<N: Naming + Counting, R: Abort + Wait>(
    rt: &R,
    alloc: Global,
    machine: &Single<N>,
    seat: &mut MachineSeat<N>,
    text: &str,
) {
    let Sample { image, refusal } = sample_of(rt, alloc, text);
    let answer = machine.load_all(rt, alloc, seat, Hook::Preempt, Some(image.as_slice()));
    agrees(rt, alloc, answer.err(), refusal);
}

/// Each program as a load of the locked machine.
fn are_loaded<N: Naming + Counting, R: Abort + Wait>(
    rt: &R,
    alloc: Global,
    prepared: Prepared<CfsQueue>,
    unnamed: UnnamedCounters,
)
    requires name { table_of prepared ≡ N.table }
    requires counters { table_of unnamed ≡ N.counters }
    requires counts { ArePrepared 1 1 prepared unnamed }
{
    let (machine, mut seats) = Single::<N>::new(alloc, Steady, prepared, unnamed, 1).expect(
        rt, "memory",
    );
    let mut seat = seats.pop().expect(rt, "a seat");
    let mut number = SEED;
    for _ in 0..PROGRAMS {
        let text = text(rt, alloc, &mut number);
        is_loaded(rt, alloc, &machine, &mut seat, text.as_str());
    }
}

/// The locked machine accepts what `verify` accepts, and refuses for the same cause at the same slot what it refuses.
#[test]
fn the_machine_agrees(rt: HostRuntime) {
    let alloc = rt.alloc();
    let Ok((prepared, unnamed)) = prepare::<CfsQueue>(alloc, 1, 1) else {
        panic!(&rt; "memory")
    };
    are_loaded::<Brand, _>(&rt, alloc, prepared, unnamed);
}
