//! Programs by what the verifier knows of copies: registers and slots of the stack that hold one word.

use crate::judging::{BYTE_OF_CONTEXT, OUT, follows};

static TEXTS: [(&str, &str); 4] = [
    (REGISTERS, BYTE_OF_CONTEXT),
    (ANSWERS, OUT),
    (SLOTS, BYTE_OF_CONTEXT),
    (FOUND_ANSWERS, OUT),
];

/// What a test shows of a word holds for its copies, and for nothing else.
#[test]
fn copies(rt: HostRuntime) {
    follows(&rt, rt.alloc(), &TEXTS);
}

/// Copies of registers.
const REGISTERS: &str = "\
6
; what is told of a register is told of its copy
ldxw r3, [r1+0]
mov64 r2, r3
jgt64 r3, 55, out

Access 4
ldxw r3, [r1+0]
mov64 r2, r3
jgt64 r3, 56, out

6
; and of what it is a copy of; the copy of the low half of a word below 2^32 is a copy of the word
ldxw r2, [r1+0]
mov32 r3, r2
jgt32 r3, 55, out

Access 4
; of a longer word it is not
ldxdw r2, [r1+0]
mov32 r3, r2
jgt32 r3, 55, out

8
; the least of a number and 7
ldxw r3, [r1+0]
mov32 r2, r3
jlt32 r3, 7, least
mov32 r2, 7
least:
jeq64 r2, 9, out

Access 5
; a copy that is written is none
ldxw r3, [r1+0]
mov64 r2, r3
lsh64 r2, 1
jgt64 r3, 55, out

Access 5
; nor is one of a register that is written
ldxw r3, [r1+0]
mov64 r2, r3
mov64 r3, 0
jgt64 r3, 55, out

6
; the right operand of a comparison
ldxw r2, [r1+0]
mov64 r3, 55
jlt64 r3, r2, out

Access 4
ldxw r2, [r1+0]
mov64 r3, 56
jlt64 r3, r2, out

7
; and its copies
ldxw r4, [r1+0]
mov64 r2, r4
mov64 r3, 55
jlt64 r3, r4, out";

/// Copies of a look-up's answer.
const ANSWERS: &str = "\
9
; the test of a look-up's answer is one of its copy
stw [r10-4], 0
ldmap r1, 0
mov64 r2, r10
add64 r2, -4
call 1
mov64 r6, r0
jeq64 r0, 0, out
ldxdw r0, [r6+8]
exit

Access 13
; of another answer it is not
stw [r10-4], 0
ldmap r1, 0
mov64 r2, r10
add64 r2, -4
call 1
mov64 r6, r0
ldmap r1, 0
mov64 r2, r10
add64 r2, -4
call 1
jeq64 r0, 0, out
ldxdw r0, [r6+8]
exit";

/// Copies in slots of the stack.
const SLOTS: &str = "\
7
; the slot holds what r2 holds, and the test of r2 tells of it
ldxw r2, [r1+0]
stxdw [r10-8], r2
jgt64 r2, 55, out
ldxdw r2, [r10-8]

Access 5
ldxw r2, [r1+0]
stxdw [r10-8], r2
jgt64 r2, 56, out
ldxdw r2, [r10-8]

8
; so does the test of what was loaded from the slot
ldxw r3, [r1+0]
stxdw [r10-8], r3
ldxdw r4, [r10-8]
jgt64 r4, 55, out
ldxdw r2, [r10-8]

Access 6
; a byte of the slot was written
ldxw r3, [r1+0]
stxdw [r10-8], r3
stb [r10-1], 0
jgt64 r3, 55, out
ldxdw r2, [r10-8]

Access 7
; another word was stored there
ldxw r3, [r1+0]
ldxw r4, [r1+4]
stxdw [r10-8], r3
stxdw [r10-8], r4
jgt64 r3, 55, out
ldxdw r2, [r10-8]

7
; a number below 2^32 is its own low half, so that r2 stays a copy of it
ldxw r3, [r1+0]
mov64 r2, r3
mov32 r3, r3
jgt64 r3, 55, out

Access 5
; the low half of a word of 64 bits is another number
ldxdw r3, [r1+0]
mov64 r2, r3
mov32 r3, r3
jgt64 r3, 55, out";

/// That were found, and are tested again.
const FOUND_ANSWERS: &str = "\
10
; the answer was found, and is tested once more: as a copy, and itself
stw [r10-4], 0
ldmap r1, 0
mov64 r2, r10
add64 r2, -4
call 1
mov64 r6, r0
jeq64 r0, 0, out
jeq64 r6, 0, out
ldxdw r0, [r6+8]
exit

10
stw [r10-4], 0
ldmap r1, 0
mov64 r2, r10
add64 r2, -4
call 1
jeq64 r0, 0, out
jne64 r0, 0, +1
ja out
ldxdw r0, [r0+8]
exit

10
; an answer that was stored before its test
stw [r10-4], 0
ldmap r1, 0
mov64 r2, r10
add64 r2, -4
call 1
stxdw [r10-16], r0
jeq64 r0, 0, out
ldxdw r6, [r10-16]
ldxdw r0, [r6+8]
exit

PointerUse 9
; no answer of a look-up: it was moved
stw [r10-4], 0
ldmap r1, 0
mov64 r2, r10
add64 r2, -4
call 1
mov64 r6, r0
jeq64 r0, 0, out
add64 r6, 8
jeq64 r6, 0, out
ldxdw r0, [r6+0]
exit

PointerUse 7
; another condition, 32 bits, another number, and a register
stw [r10-4], 0
ldmap r1, 0
mov64 r2, r10
add64 r2, -4
call 1
jeq64 r0, 0, out
jle64 r0, 0, out
ldxdw r0, [r0+8]
exit

PointerUse 7
stw [r10-4], 0
ldmap r1, 0
mov64 r2, r10
add64 r2, -4
call 1
jeq64 r0, 0, out
jeq32 r0, 0, out
ldxdw r0, [r0+8]
exit

PointerUse 7
stw [r10-4], 0
ldmap r1, 0
mov64 r2, r10
add64 r2, -4
call 1
jeq64 r0, 0, out
jeq64 r0, 1, out
ldxdw r0, [r0+8]
exit

PointerUse 8
stw [r10-4], 0
ldmap r1, 0
mov64 r2, r10
add64 r2, -4
call 1
jeq64 r0, 0, out
mov64 r7, 0
jeq64 r0, r7, out
ldxdw r0, [r0+8]
exit";
