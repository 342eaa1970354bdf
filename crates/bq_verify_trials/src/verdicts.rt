//! Programs that are accepted, with their budgets, and programs that are refused, with slot and cause.

use crate::judging::{Terms, expect, is_answered, preempt, shape};
use bq_hooks::{Hook, Version};
use std::alloc::{AllocError, Global};
use std::process::Abort;

/// Each cause is found at its slot, and what is nearest to it is accepted.
#[test]
fn refusals(rt: HostRuntime) {
    expect(&rt, rt.alloc(), &[], REFUSALS, "");
    expect(&rt, rt.alloc(), &[], JOINS, "");
    expect(&rt, rt.alloc(), &[], CONTEXT, CONTEXT_END);
}

/// Programs that are refused, and some that are not.
const REFUSALS: &str = "\
Answer 0
exit

Answer 1
mov64 r0, r1
exit

Unset 0
mov64 r0, r3
exit

Unset 1
call 5
mov64 r0, r1
exit

Access 0
ldxdw r0, [r10-8]
exit

Access 0
stw [r1+0], 0
mov64 r0, 0
exit

PointerUse 0
mul64 r1, 2
mov64 r0, 0
exit

PointerUse 1
mov64 r0, 0
stxw [r10-4], r1
exit

Argument 0
ldmap r1, 0
mov64 r0, 0
exit

Helper 0
call 3
exit

Unreached 1
ja +1
mov64 r0, 0
mov64 r0, 1
exit

4
stxdw [r10-8], r1
ldxdw r2, [r10-8]
ldxw r0, [r2+0]
exit

4
mov64 r0, 0
jeq64 r0, 0, +1
mov64 r0, 1
exit

Frame 0
mov64 r10, 0
mov64 r0, 0
exit

3
mov64 r0, 1
lsh64 r0, 64
exit";

/// Programs whose ways meet, and jumps that lead nowhere.
const JOINS: &str = "\
Unset 5
; r2 is the frame's end on one way, and 0 on the other
ldxw r3, [r1+0]
jeq64 r3, 0, +2
mov64 r2, r10
ja +1
mov64 r2, 0
ldxdw r0, [r2-8]
exit

6
ldxw r3, [r1+0]
jeq64 r3, 0, +2
mov64 r2, r10
ja +1
mov64 r2, 0
mov64 r0, 0
exit

Jump 0
ja +1
lddw r1, 0
mov64 r0, 0
exit

Jump 0
ja -1
exit

NoExit 0
mov64 r0, 0";

/// A load of the context at a number of it, where a branch says what the number may be.
const CONTEXT: &str = "\
5
ldxw r2, [r1+0]
jgt64 r2, 55, +3

Access 3
ldxw r2, [r1+0]
jgt64 r2, 56, +3

Access 3
ldxw r2, [r1+0]
jle64 r2, 55, +3";

/// What follows such a branch.
const CONTEXT_END: &str = "add64 r1, r2\nldxb r0, [r1+0]\nexit\nmov64 r0, 0\nexit\n";

/// A program and its answer: a beginning, a text and how often it stands, and an end.
type Repeated = (&'static str, u32, &'static str, &'static str, &'static str);

/// Programs of 4,096 slots: straight, and with a branch at every second slot.
static LONGEST: [Repeated; 2] = [
    ("", 4095, "mov64 r0, 0\n", "exit\n", "4096"),
    (
        "mov64 r0, 0\n",
        2047,
        "jeq64 r0, 0, +1\nadd64 r0, 1\n",
        "exit\n",
        "4096",
    ),
];

/// Calls of counters: one, one of a counter that is not there, and the most and one more on a path.
static COUNTERS: [Repeated; 5] = [
    (
        "",
        1,
        "mov64 r1, 3\nmov64 r2, 5\ncall 100\n",
        "mov64 r0, 0\nexit\n",
        "5",
    ),
    (
        "",
        1,
        "mov64 r1, 63\nmov64 r2, 5\ncall 100\n",
        "mov64 r0, 0\nexit\n",
        "5",
    ),
    (
        "",
        1,
        "mov64 r1, 64\nmov64 r2, 5\ncall 100\n",
        "mov64 r0, 0\nexit\n",
        "Argument 2",
    ),
    (
        "",
        16,
        "mov64 r1, 3\nmov64 r2, 5\ncall 100\n",
        "mov64 r0, 0\nexit\n",
        "50",
    ),
    (
        "",
        17,
        "mov64 r1, 3\nmov64 r2, 5\ncall 100\n",
        "mov64 r0, 0\nexit\n",
        "Counters 50",
    ),
];

/// A beginning, a text and how often it stands, and an end.
pub fn repeated(
    alloc: Global,
    begin: &str,
    times: u32,
    text: &str,
    end: &str,
) -> Result<String, AllocError> {
    let mut all = String::from_str(alloc, begin)?;
    for _ in 0..times {
        all.push_str(text)?;
    }
    all.push_str(end)?;
    Ok(all)
}

fn is_repeated(rt: &impl Abort, alloc: Global, row: &Repeated) {
    let (begin, times, text, end, answer) = *row;
    let text = repeated(alloc, begin, times, text, end).expect(rt, "memory");
    is_answered(rt, alloc, text.as_str(), &preempt(&[]), answer);
}

/// Programs of the greatest length are accepted, and each slot counts once.
#[test]
fn longest(rt: HostRuntime) {
    for row in &LONGEST {
        is_repeated(&rt, rt.alloc(), row);
    }
}

/// Counters are 0 to 63, and a path may call them sixteen times.
#[test]
fn counters(rt: HostRuntime) {
    for row in &COUNTERS {
        is_repeated(&rt, rt.alloc(), row);
    }
}

/// Loads, and how many bytes each takes.
static LOADS: [(&str, u64); 4] = [("ldxb", 1), ("ldxh", 2), ("ldxw", 4), ("ldxdw", 8)];

/// A load of the context at a number that is at most the bound.
fn is_bounded(rt: &impl Abort, alloc: Global, bound: u64, load: &str, answer: &str) {
    let program = format!(in alloc;
        "ldxw r2, [r1+0]\njgt64 r2, {bound}, +3\nadd64 r1, r2\n{load} r0, [r1+0]\nexit\nmov64 r0, 0\nexit\n"
    ).expect(rt, "memory");
    is_answered(rt, alloc, program.as_str(), &preempt(&[]), answer);
}

/// Each load, with a bound, is accepted exactly where it stays inside the 56 bytes of the context.
fn are_bounded(rt: &impl Abort, alloc: Global, bound: u64) {
    for (load, bytes) in &LOADS {
        let is_inside = bound.saturating_add(*bytes) <= 56;
        is_bounded(
            rt,
            alloc,
            bound,
            load,
            if is_inside { "5" } else { "Access 3" },
        );
    }
}

/// A load of 56 bytes of context at up to each bound is accepted exactly where it stays inside.
#[test]
fn sweep_of_bounds(rt: HostRuntime) {
    for bound in 0..256 {
        are_bounded(&rt, rt.alloc(), bound);
    }
}

/// Entry 0 of map 0, of 16 bytes, is looked up and loaded from at a number of the context, which one operation makes small.
fn is_narrowed(
    rt: &impl Abort,
    alloc: Global,
    operation: &str,
    amount: u64,
    load: &str,
    is_inside: bool,
) {
    let program = format!(in alloc;
        "ldxw r6, [r1+4]
stw [r10-4], 0
ldmap r1, 0
mov64 r2, r10
add64 r2, -4
call 1
jne64 r0, 0, +2
mov64 r0, 0
exit
{operation} r6, {amount}
add64 r0, r6
{load} r0, [r0+0]
exit
"
    )
    .expect(rt, "memory");
    let answer = if is_inside { "11" } else { "Access 12" };
    is_answered(
        rt,
        alloc,
        program.as_str(),
        &preempt(&[shape(rt, 16, 1)]),
        answer,
    );
}

/// A load of an entry of 16 bytes at up to each mask is accepted exactly where it stays inside.
#[test]
fn sweep_of_masks(rt: HostRuntime) {
    for mask in 0..16 {
        for (load, bytes) in &LOADS {
            is_narrowed(&rt, rt.alloc(), "and64", mask, load, mask + *bytes <= 16);
        }
    }
}

/// 32 bits shifted right leave a number of at most 7 exactly from 29 on.
#[test]
fn sweep_of_shifts(rt: HostRuntime) {
    for shift in 0..64 {
        is_narrowed(&rt, rt.alloc(), "rsh64", shift, "ldxdw", shift >= 29);
    }
}

/// Loads of the context of the hook place, in each version: its last bytes, and beyond.
static VERSIONS: [(&str, Version, &str); 5] = [
    ("ldxw r0, [r1+100]\nexit\n", Version::First, "2"),
    ("ldxw r0, [r1+104]\nexit\n", Version::First, "Access 0"),
    ("ldxw r0, [r1+104]\nexit\n", Version::Second, "2"),
    ("ldxw r0, [r1+292]\nexit\n", Version::Second, "2"),
    ("ldxw r0, [r1+293]\nexit\n", Version::Second, "Access 0"),
];

/// A program of the hook place has that answer.
fn is_placed(rt: &impl Abort, alloc: Global, text: &str, version: Version, answer: &str) {
    let terms = Terms {
        shapes: &[],
        hook: Hook::Place,
        version,
    };
    is_answered(rt, alloc, text, &terms, answer);
}

/// The context of the hook place is longer in the second version.
#[test]
fn versions(rt: HostRuntime) {
    for (text, version, answer) in &VERSIONS {
        is_placed(&rt, rt.alloc(), text, *version, answer);
    }
}

/// What follows a look-up of entry 0 of map 0, of 8 bytes, how many entries it has, and the answer.
static MAPS: [(&str, u16, &str); 4] = [
    ("ldxdw r0, [r0+0]\nexit\n", 1, "Access 6"),
    (
        "jne64 r0, 0, +2\nmov64 r0, 0\nexit\nldxdw r0, [r0+4]\nexit\n",
        2,
        "Access 9",
    ),
    (
        "jne64 r0, 0, +2\nmov64 r0, 2\nexit\nldxdw r3, [r0+0]\nmov64 r4, r3\nadd64 r4, 1\nstxdw [r0+0], r4\n\
mov64 r0, r3\nexit\n",
        1,
        "12",
    ),
    // the answer beside a register that is 0
    (
        "mov64 r6, 0\njeq64 r0, r6, +0\nmov64 r0, 0\nexit\n",
        1,
        "PointerUse 7",
    ),
];

/// What follows a look-up in a map with this number of entries has its answer.
fn is_looked_up(rt: &impl Abort, alloc: Global, end: &str, entries: u16, answer: &str) {
    let program = format!(in alloc;
        "stw [r10-4], 0\nldmap r1, 0\nmov64 r2, r10\nadd64 r2, -4\ncall 1\n{end}"
    ).expect(rt, "memory");
    is_answered(
        rt,
        alloc,
        program.as_str(),
        &preempt(&[shape(rt, 8, entries)]),
        answer,
    );
}

/// An entry may be read once its look-up was tested, and only inside its 8 bytes.
#[test]
fn maps(rt: HostRuntime) {
    for (end, entries, answer) in &MAPS {
        is_looked_up(&rt, rt.alloc(), end, *entries, answer);
    }
}
