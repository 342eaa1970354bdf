//! Programs by what the verifier knows of two numbers: that the one is a sum with the other, or how they compare.

use crate::judging::{BYTE_OF_CONTEXT, follows};

static TEXTS: [(&str, &str); 3] = [
    (SUMS, BYTE_OF_CONTEXT),
    (SHORT_SUMS, BYTE_OF_CONTEXT),
    (COMPARED, BYTE_OF_CONTEXT),
];

/// What a test shows of one number bounds a number that is its sum with a constant, or was compared with it.
#[test]
fn relations(rt: HostRuntime) {
    follows(&rt, rt.alloc(), &TEXTS);
}

/// A number, and its sum with a constant.
const SUMS: &str = "\
7
; the sum is 1 to 56, so that r2 is 0 to 55
ldxw r2, [r1+0]
mov64 r3, r2
add64 r3, 1
jgt64 r3, 56, out

Access 5
; up to 57, so that r2 may be 56
ldxw r2, [r1+0]
mov64 r3, r2
add64 r3, 1
jgt64 r3, 57, out

7
; what is told of the number is told of its sum: r2 is 1 to 55
ldxw r3, [r1+0]
mov64 r2, r3
add64 r2, 1
jgt64 r3, 54, out

Access 5
; it may be 56
ldxw r3, [r1+0]
mov64 r2, r3
add64 r2, 1
jgt64 r3, 55, out

Access 6
; the sum of another number is tested
ldxw r2, [r1+0]
ldxw r4, [r1+4]
mov64 r3, r4
add64 r3, 1
jgt64 r3, 56, out

Access 5
; on this side of the test the sum is above 56
ldxw r2, [r1+0]
mov64 r3, r2
add64 r3, 1
jle64 r3, 56, out

Access 7
; r2 was loaded anew and copied, and is not the summand
ldxw r2, [r1+0]
mov64 r3, r2
add64 r3, 1
ldxw r2, [r1+4]
mov64 r4, r2
jgt64 r3, 56, out

Access 6
; so was the sum
ldxw r2, [r1+0]
mov64 r3, r2
add64 r3, 1
ldxw r3, [r1+4]
jgt64 r3, 56, out

9
; where ways meet, what both know of the two is kept
ldxw r2, [r1+0]
mov64 r3, r2
add64 r3, 1
jeq64 r3, 7, both
mov64 r4, 0
both:
jgt64 r3, 56, out

Access 9
; the one way has another sum
ldxw r2, [r1+0]
ldxw r4, [r1+4]
mov64 r3, r2
add64 r3, 1
jeq64 r4, 7, both
mov64 r3, r2
add64 r3, 2
both:
jgt64 r3, 56, out";

/// Sums in 32 bits.
const SHORT_SUMS: &str = "\
7
; a number of 16 bits and 1 have no sum of more than 32 bits
ldxh r2, [r1+0]
mov64 r3, r2
add32 r3, 1
jgt64 r3, 56, out

Access 5
ldxh r2, [r1+0]
mov64 r3, r2
add32 r3, 1
jgt64 r3, 57, out

Access 5
; the greatest of 32 bits and 1 have: r3 then is 0
ldxw r2, [r1+0]
mov64 r3, r2
add32 r3, 1
jgt64 r3, 56, out";

/// Two numbers that were compared.
const COMPARED: &str = "\
7
; r2 is at most r3, and r3 at most 55
ldxw r2, [r1+0]
ldxw r3, [r1+4]
jgt64 r2, r3, out
jgt64 r3, 55, out

Access 5
; at most 56
ldxw r2, [r1+0]
ldxw r3, [r1+4]
jgt64 r2, r3, out
jgt64 r3, 56, out

Access 5
; r2 is at least r3: that bounds it by nothing
ldxw r2, [r1+0]
ldxw r3, [r1+4]
jgt64 r3, r2, out
jgt64 r3, 55, out

7
; r2 is r3
ldxw r2, [r1+0]
ldxw r3, [r1+4]
jne64 r2, r3, out
jgt64 r3, 55, out

Access 5
; it is another number
ldxw r2, [r1+0]
ldxw r3, [r1+4]
jeq64 r2, r3, out
jgt64 r3, 55, out

8
; by a copy of r3
ldxw r2, [r1+0]
ldxw r3, [r1+4]
mov64 r4, r3
jgt64 r2, r3, out
jgt64 r4, 55, out

Access 6
; r3 was loaded anew
ldxw r2, [r1+0]
ldxw r3, [r1+4]
jgt64 r2, r3, out
ldxw r3, [r1+8]
jgt64 r3, 55, out";
