//! Programs by what the verifier knows of maps of one shape: each may stand for another.

use crate::judging::{OUT, expect, shape};
use std::alloc::Global;
use std::process::Abort;

/// Maps 0 and 1 have one shape. Map 2 has another number of entries, and map 3 values of another size.
fn follows_maps(rt: &impl Abort, alloc: Global) {
    let one = shape(rt, 16, 1);
    let more_entries = shape(rt, 16, 2);
    let longer_values = shape(rt, 24, 1);
    let shapes = [one, one, more_entries, longer_values];
    for trials in &[REFERENCES, ENTRIES, UNTESTED] {
        expect(rt, alloc, &shapes, trials, OUT);
    }
}

/// References and entries of maps of one shape may stand for one another, and those of other maps may not.
#[test]
fn like_maps(rt: HostRuntime) {
    follows_maps(&rt, rt.alloc());
}

/// One look-up by the reference of either map.
const REFERENCES: &str = "\
11
; map 0 on one way, map 1 on the other: the answer is an entry of 16 bytes
stw [r10-4], 0
ldxw r7, [r1+0]
mov64 r2, r10
add64 r2, -4
ldmap r1, 0
jeq64 r7, 0, both
ldmap r1, 1
both:
call 1
jeq64 r0, 0, out
ldxdw r0, [r0+8]
exit

Access 11
; behind it is none
stw [r10-4], 0
ldxw r7, [r1+0]
mov64 r2, r10
add64 r2, -4
ldmap r1, 0
jeq64 r7, 0, both
ldmap r1, 1
both:
call 1
jeq64 r0, 0, out
ldxdw r0, [r0+16]
exit

Argument 9
; a map of more entries
stw [r10-4], 0
ldxw r7, [r1+0]
mov64 r2, r10
add64 r2, -4
ldmap r1, 0
jeq64 r7, 0, both
ldmap r1, 2
both:
call 1
jeq64 r0, 0, out
ldxdw r0, [r0+8]
exit

Argument 9
; a map of longer values
stw [r10-4], 0
ldxw r7, [r1+0]
mov64 r2, r10
add64 r2, -4
ldmap r1, 0
jeq64 r7, 0, both
ldmap r1, 3
both:
call 1
jeq64 r0, 0, out
ldxdw r0, [r0+8]
exit

16
; an update by either: r3 points to the 16 bytes of a value
stdw [r10-16], 1
stdw [r10-24], 2
stw [r10-4], 0
ldxw r7, [r1+0]
mov64 r2, r10
add64 r2, -4
mov64 r3, r10
add64 r3, -24
mov64 r4, 0
ldmap r1, 1
jeq64 r7, 0, both
ldmap r1, 0
both:
call 2
jeq64 r0, 0, out
exit";

/// Entries of two maps that were tested on each way.
const ENTRIES: &str = "\
11
; an entry of the one map meets an entry of the other
stw [r10-4], 0
ldxw r7, [r1+0]
mov64 r2, r10
add64 r2, -4
jeq64 r7, 0, other
ldmap r1, 0
call 1
jeq64 r0, 0, out
ja both
other:
ldmap r1, 1
call 1
jeq64 r0, 0, out
both:
ldxdw r0, [r0+8]
exit

Unset 14
; an entry of a map of more entries
stw [r10-4], 0
ldxw r7, [r1+0]
mov64 r2, r10
add64 r2, -4
jeq64 r7, 0, other
ldmap r1, 0
call 1
jeq64 r0, 0, out
ja both
other:
ldmap r1, 2
call 1
jeq64 r0, 0, out
both:
ldxdw r0, [r0+8]
exit

Unset 14
; of longer values
stw [r10-4], 0
ldxw r7, [r1+0]
mov64 r2, r10
add64 r2, -4
jeq64 r7, 0, other
ldmap r1, 0
call 1
jeq64 r0, 0, out
ja both
other:
ldmap r1, 3
call 1
jeq64 r0, 0, out
both:
ldxdw r0, [r0+8]
exit";

/// Of which one at least is not tested where they meet.
const UNTESTED: &str = "\
11
; the answers of both look-ups meet, and are tested there
stw [r10-4], 0
ldxw r7, [r1+0]
mov64 r2, r10
add64 r2, -4
jeq64 r7, 0, other
ldmap r1, 0
call 1
ja both
other:
ldmap r1, 1
call 1
both:
jeq64 r0, 0, out
ldxdw r0, [r0+8]
exit

Access 12
; it has no test
stw [r10-4], 0
ldxw r7, [r1+0]
mov64 r2, r10
add64 r2, -4
jeq64 r7, 0, other
ldmap r1, 0
call 1
ja both
other:
ldmap r1, 1
call 1
both:
ldxdw r0, [r0+8]
jeq64 r0, 0, out
exit

Unset 12
; the answer of a look-up in a map of more entries
stw [r10-4], 0
ldxw r7, [r1+0]
mov64 r2, r10
add64 r2, -4
jeq64 r7, 0, other
ldmap r1, 0
call 1
ja both
other:
ldmap r1, 2
call 1
both:
jeq64 r0, 0, out
ldxdw r0, [r0+8]
exit

15
; an entry of the one map meets an answer of the other
stw [r10-4], 0
ldmap r1, 0
mov64 r2, r10
add64 r2, -4
call 1
mov64 r6, r0
jne64 r6, 0, both
ldmap r1, 1
mov64 r2, r10
add64 r2, -4
call 1
mov64 r6, r0
both:
jeq64 r6, 0, out
ldxdw r0, [r6+8]
exit";
