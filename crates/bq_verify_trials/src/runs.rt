//! Programs run on two stacks of different bytes: what register 0 is at the EXIT, and how many instructions it took.
//! The values are worked on paper from RFC 9669.

use crate::asserting::{is_number, is_true};
use crate::judging::shape;
use crate::verdicts::repeated;
use bq_asm::assemble;
use bq_bpf::{CounterCall, Env, Plain};
use bq_hooks::{Hook, Version, context_length};
use bq_interp::runs::{Ran, run};
use bq_interp::stack::Stack;
use bq_maps::Maps;
use bq_verify::{PolicyForm, Program, Verified, verify};
use std::alloc::Global;
use std::process::Abort;

/// The program for the hook preempt, which is accepted beside a map of two entries of 8 bytes.
fn accepted(rt: &impl Abort, alloc: Global, text: &str) -> Verified {
    let program = Program {
        insns: assemble(alloc, text).expect(rt, "a program"),
        form: PolicyForm {
            hook: Hook::Preempt,
            version: Version::First,
            shapes: vec![in alloc; shape(rt, 8, 2)].expect(rt, "memory"),
        },
    };
    verify(alloc, program).expect(rt, "not accepted")
}

/// A context of 56 bytes, whose last word is 0xa1b2c3d4.
static CONTEXT: [u8; 56] = [
    0xfe, 0xff, 0, 0, 0, 0, 0, 0, 0, 0, 0, 0, 0, 0, 0, 0, 0, 0, 0, 0, 0, 0, 0, 0, 0, 0, 0, 0, //
    0, 0, 0, 0, 0, 0, 0, 0, 0, 0, 0, 0, 0, 0, 0, 0, 0, 0, 0, 0, 0, 0, 0, 0, 0xd4, 0xc3, 0xb2, 0xa1,
];

/// Runs the program on fresh maps and that stack.
fn run_on(
    rt: &impl Abort,
    alloc: Global,
    verified: &Verified,
    board: &mut Plain,
    stack: &mut Stack,
) -> Ran {
    assert!(rt; CONTEXT.len() == context_length(verified.hook(), verified.version()));
    let mut maps = Maps::new(alloc, verified.shapes()).expect(rt, "memory");
    let env = Env {
        now: 0x1_2345_6789,
        processor: 7,
    };
    run(verified, &CONTEXT, &mut maps, stack, env, board)
}

/// The program gives that answer, a value and the number of steps, on a stack of that byte.
fn answers_on(
    rt: &impl Abort,
    alloc: Global,
    verified: &Verified,
    byte: u8,
    answer: (u64, u32),
    text: &str,
) {
    let mut stack = Stack::from_bytes([byte; 512]);
    let ran = run_on(rt, alloc, verified, &mut Plain::new(), &mut stack);
    has_answered(rt, &ran, answer, text);
}

fn has_answered(rt: &impl Abort, ran: &Ran, answer: (u64, u32), text: &str) {
    assert!(rt; (ran.r0, ran.steps) == answer, "{text}");
}

/// The program gives that answer on two stacks of different bytes.
fn answers_so(rt: &impl Abort, alloc: Global, verified: &Verified, answer: (u64, u32), text: &str) {
    answers_on(rt, alloc, verified, 0x00, answer, text);
    answers_on(rt, alloc, verified, 0xa5, answer, text);
}

/// The program gives that answer: a value and the number of steps.
fn expect(rt: &impl Abort, alloc: Global, text: &str, answer: (u64, u32)) {
    let verified = accepted(rt, alloc, text);
    answers_so(rt, alloc, &verified, answer, text);
}

/// A program without its exit, what it answers, and in how many steps.
type Row = (&'static str, u64, u32);

static ARITHMETIC: [Row; 12] = [
    ("mov64 r0, 7\nmov64 r2, 0\ndiv64 r0, r2", 0, 4),
    (
        "lddw r0, 0xffffffff00000007\nmov64 r2, 0\nmod32 r0, r2",
        7,
        4,
    ),
    ("mov64 r0, 5\ndiv64 r0, -1", 0, 3),
    ("lddw r0, 0x80000000\narsh32 r0, 33", 0xc000_0000, 3),
    ("lddw r0, 0x1122334455667788\nbe32 r0", 0x8877_6655, 3),
    (
        "lddw r0, 0x8000000000000000\nsdiv64 r0, -1",
        0x8000_0000_0000_0000,
        3,
    ),
    ("lddw r0, 0x8000000000000000\nsmod64 r0, -1", 0, 3),
    ("mov64 r0, -13\nsmod64 r0, 3", 0xffff_ffff_ffff_ffff, 3),
    ("mov64 r0, 9\nlsh64 r0, 64", 9, 3),
    ("mov64 r2, 0x80\nmovsx32_8 r0, r2", 0xffff_ff80, 3),
    ("lddw r0, 0x1234567890abcdef\nswap16 r0", 0xefcd, 3),
    ("mov64 r0, 1\nneg32 r0", 0xffff_ffff, 3),
];

/// Of loads and stores, jumps, and helpers.
static OTHERS: [Row; 9] = [
    (
        "stdw [r10-8], -1\nstb [r10-5], 0\nldxdw r0, [r10-8]",
        0xffff_ffff_00ff_ffff,
        4,
    ),
    ("ldxw r0, [r1+52]", 0xa1b2_c3d4, 2),
    ("ldxsh r0, [r1+0]", 0xffff_ffff_ffff_fffe, 2),
    (
        "mov64 r2, -2\nstxh [r10-2], r2\nldxh r0, [r10-2]",
        0xfffe,
        4,
    ),
    ("mov64 r0, 0\njeq64 r0, 0, +1\nmov64 r0, 1", 0, 3),
    ("mov64 r0, 3\nja32 +0\nja +0", 3, 4),
    (
        "mov64 r0, 5\nlddw r2, 0xffffffff\njslt32 r2, 0, +1\nmov64 r0, 6",
        5,
        4,
    ),
    ("call 5", 0x1_2345_6789, 2),
    ("call 8", 7, 2),
];

/// The program of a row, with its exit, answers so.
fn is_answered(rt: &impl Abort, alloc: Global, row: &Row) {
    let (text, r0, steps) = *row;
    let text = repeated(alloc, text, 1, "\n", "exit\n").expect(rt, "memory");
    expect(rt, alloc, text.as_str(), (r0, steps));
}

/// Operations answer what RFC 9669 says.
#[test]
fn arithmetic(rt: HostRuntime) {
    for row in &ARITHMETIC {
        is_answered(&rt, rt.alloc(), row);
    }
}

/// So do loads, stores and jumps; helpers answer the time and the processor.
#[test]
fn other_instructions(rt: HostRuntime) {
    for row in &OTHERS {
        is_answered(&rt, rt.alloc(), row);
    }
}

/// A value is written into entry 1 of a map, and read there by its address.
const ENTRIES: &str = "stw [r10-4], 1
stdw [r10-16], 77
ldmap r1, 0
mov64 r2, r10
add64 r2, -4
mov64 r3, r10
add64 r3, -16
mov64 r4, 0
call 2
ldmap r1, 0
mov64 r2, r10
add64 r2, -4
call 1
jne64 r0, 0, +2
mov64 r0, 0
exit
ldxdw r0, [r0+0]
exit
";

/// A program reads what it wrote into a map.
#[test]
fn entries(rt: HostRuntime) {
    expect(&rt, rt.alloc(), ENTRIES, (77, 16));
}

/// The program may take this number of instructions.
fn has_budget(rt: &impl Abort, verified: &Verified, budget: u32) {
    is_number(rt, u64::from(verified.budget()), u64::from(budget));
}

/// A program of many paths: 2,047 branches that are all taken.
#[test]
fn branches_taken(rt: HostRuntime) {
    let pair = "jeq64 r0, 0, +1\nadd64 r0, 1\n";
    let text = repeated(rt.alloc(), "mov64 r0, 0\n", 2047, pair, "exit\n").expect(&rt, "memory");
    takes_branches(&rt, rt.alloc(), text.as_str());
}

fn takes_branches(rt: &impl Abort, alloc: Global, text: &str) {
    let verified = accepted(rt, alloc, text);
    has_budget(rt, &verified, 4096);
    answers_so(rt, alloc, &verified, (0, 2049), "many branches");
}

/// Whether these are adds of 5 to counter 3, from 0 on.
fn adds_in_turn(calls: &[CounterCall]) -> bool {
    let mut before = 0u64;
    for made in calls {
        let add = CounterCall::Add {
            counter: 3,
            amount: 5,
            answer: before,
        };
        if *made != add {
            return false;
        }
        before = before.wrapping_add(5);
    }
    true
}

/// The run took fifty steps and sixteen adds.
fn is_sixteen_adds(rt: &impl Abort, done: &Ran) {
    is_number(rt, u64::from(done.steps), 50);
    is_number(rt, done.calls.len() as u64, 16);
    is_true(rt, adds_in_turn(done.calls.as_slice()));
}

/// Adds sixteen times five onto counter 3.
fn adds(rt: &impl Abort, alloc: Global, board: &mut Plain, stack: &mut Stack) {
    let add = "mov64 r1, 3\nmov64 r2, 5\ncall 100\n";
    let text = repeated(alloc, "", 16, add, "mov64 r0, 0\nexit\n").expect(rt, "memory");
    let verified = accepted(rt, alloc, text.as_str());
    has_budget(rt, &verified, 50);
    is_sixteen_adds(rt, &run_on(rt, alloc, &verified, board, stack));
}

/// Counter 3 is read to be 80, in three steps.
fn is_read(rt: &impl Abort, alloc: Global, board: &mut Plain, stack: &mut Stack) {
    let verified = accepted(rt, alloc, "mov64 r1, 3\ncall 101\nexit\n");
    has_answered(
        rt,
        &run_on(rt, alloc, &verified, board, stack),
        (80, 3),
        "the counter",
    );
}

/// Sixteen times five onto counter 3, which is read then.
#[test]
fn counters(rt: HostRuntime) {
    let mut board = Plain::new();
    let mut stack = Stack::new();
    adds(&rt, rt.alloc(), &mut board, &mut stack);
    is_read(&rt, rt.alloc(), &mut board, &mut stack);
}
