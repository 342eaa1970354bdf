//! Programs of the hook preempt, whose context has 56 bytes, with their budgets, or with the cause and the slot of the
//! refusal. Most read a byte of the context at a place in `r2`, which has to be 0 to 55.

use crate::judging::{BYTE_OF_CONTEXT, OUT, follows};

static TEXTS: [(&str, &str); 3] = [
    (NUMBERS, BYTE_OF_CONTEXT),
    (BITS_AND_SIGNS, BYTE_OF_CONTEXT),
    (POINTERS, OUT),
];

/// What tests and operations leave of numbers and pointers, each beside a program that goes one step too far.
#[test]
fn numbers_and_pointers(rt: HostRuntime) {
    follows(&rt, rt.alloc(), &TEXTS);
}

/// Tests of numbers.
const NUMBERS: &str = "\
6
; of all words 0 to 55 are left
ldxdw r2, [r1+0]
jslt64 r2, 0, out
jsgt64 r2, 55, out

Access 4
ldxdw r2, [r1+0]
jslt64 r2, 0, out
jsgt64 r2, 56, out

Access 3
; words below zero are left
ldxdw r2, [r1+0]
jsgt64 r2, 55, out

6
; in 32 bits, where the upper half is 0
ldxw r2, [r1+0]
jslt32 r2, 0, out
jsgt32 r2, 55, out

Access 4
ldxdw r2, [r1+0]
jslt32 r2, 0, out
jsgt32 r2, 55, out

6
; against a word with an upper half
ldxw r2, [r1+0]
lddw r3, 0x700000037
jgt32 r2, r3, out

Access 5
ldxw r2, [r1+0]
lddw r3, 0x700000038
jgt32 r2, r3, out

5
; no bit from 32 up
ldxw r2, [r1+0]
jset64 r2, -32, out

Access 3
ldxw r2, [r1+0]
jset64 r2, -64, out";

/// What operations leave of bits and signs.
const BITS_AND_SIGNS: &str = "\
9
; no bit above those of both
ldxb r2, [r1+0]
jeq64 r2, 0, out
and64 r2, 31
ldxb r3, [r1+1]
and64 r3, 31
xor64 r2, r3

Access 7
ldxb r2, [r1+0]
jeq64 r2, 0, out
and64 r2, 63
ldxb r3, [r1+1]
and64 r3, 31
xor64 r2, r3

9
ldxb r2, [r1+0]
jeq64 r2, 0, out
and64 r2, 31
ldxb r3, [r1+1]
and64 r3, 31
or64 r2, r3

8
; a union is no less than each
ldxb r2, [r1+0]
jeq64 r2, 0, out
and64 r2, 31
or64 r2, 32
sub64 r2, 32

7
; of 0 to 55 the mask leaves 0 to 48
ldxw r2, [r1+0]
jgt64 r2, 55, out
and64 r2, 56
add64 r2, 7

Access 5
ldxw r2, [r1+0]
jgt64 r2, 55, out
and64 r2, 56
add64 r2, 8

6
; 0 to 31
ldxdw r2, [r1+0]
jslt64 r2, 0, out
arsh64 r2, 58

Access 4
ldxdw r2, [r1+0]
jslt64 r2, 0, out
arsh64 r2, 57

7
; -5 to -1, and 1 to 5
ldxdw r2, [r1+0]
jsgt64 r2, -1, out
jslt64 r2, -5, out
neg64 r2

Access 5
ldxdw r2, [r1+0]
jsgt64 r2, -1, out
jslt64 r2, -56, out
neg64 r2";

/// Pointers, and answers of look-ups.
const POINTERS: &str = "\
5
; a number to which a pointer is added
ldxw r2, [r1+0]
jgt64 r2, 55, out
add64 r2, r1
ldxb r0, [r2+0]
exit

Access 3
ldxw r2, [r1+0]
jgt64 r2, 56, out
add64 r2, r1
ldxb r0, [r2+0]
exit

15
; an entry meets the answer of a second look-up in its map
stw [r10-4], 0
ldmap r1, 0
mov64 r2, r10
add64 r2, -4
call 1
mov64 r6, r0
jne64 r6, 0, both
ldmap r1, 0
mov64 r2, r10
add64 r2, -4
call 1
mov64 r6, r0
both:
jeq64 r6, 0, out
ldxdw r0, [r6+8]
exit

12
; the number 0 meets the answer of a look-up
stw [r10-4], 0
ldxw r7, [r1+0]
mov64 r6, 0
jeq64 r7, 0, both
ldmap r1, 0
mov64 r2, r10
add64 r2, -4
call 1
mov64 r6, r0
both:
jeq64 r6, 0, out
ldxdw r0, [r6+8]
exit

Unset 10
; another number
stw [r10-4], 0
ldxw r7, [r1+0]
mov64 r6, 1
jeq64 r7, 0, both
ldmap r1, 0
mov64 r2, r10
add64 r2, -4
call 1
mov64 r6, r0
both:
jeq64 r6, 0, out
ldxdw r0, [r6+8]
exit

Unset 14
; in a map of another shape
stw [r10-4], 0
ldmap r1, 0
mov64 r2, r10
add64 r2, -4
call 1
mov64 r6, r0
jne64 r6, 0, both
ldmap r1, 1
mov64 r2, r10
add64 r2, -4
call 1
mov64 r6, r0
both:
jeq64 r6, 0, out
ldxdw r0, [r6+8]
exit";
