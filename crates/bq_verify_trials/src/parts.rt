//! Programs by what the verifier knows of numbers that are stored in a few bytes of the stack.

use crate::judging::{BYTE_OF_CONTEXT, follows};

static TEXTS: [(&str, &str); 2] = [(PARTS, BYTE_OF_CONTEXT), (WRITTEN_PARTS, BYTE_OF_CONTEXT)];

/// A number that is stored is known until something else is written there.
#[test]
fn parts(rt: HostRuntime) {
    follows(&rt, rt.alloc(), &TEXTS);
}

/// Numbers that are loaded once they are stored.
const PARTS: &str = "\
7
; what is loaded as it was stored has the range that was stored
ldxw r3, [r1+0]
jgt64 r3, 55, out
stxb [r10-1], r3
ldxb r2, [r10-1]

Access 5
ldxw r3, [r1+0]
jgt64 r3, 56, out
stxb [r10-1], r3
ldxb r2, [r10-1]

7
; at any place, by any size
ldxw r3, [r1+0]
jgt64 r3, 55, out
stxh [r10-3], r3
ldxh r2, [r10-3]

7
ldxw r3, [r1+0]
jgt64 r3, 55, out
stxdw [r10-12], r3
ldxdw r2, [r10-12]

7
; by a signed load too, below the sign
ldxw r3, [r1+0]
jgt64 r3, 55, out
stxb [r10-1], r3
ldxsb r2, [r10-1]

7
; a number from the instruction
ldxw r3, [r1+0]
jeq64 r3, 0, out
stw [r10-4], 55
ldxw r2, [r10-4]

Access 5
; of 300 a byte is not one that is at most 300, but any
ldxw r3, [r1+0]
jgt64 r3, 300, out
stxb [r10-1], r3
ldxb r2, [r10-1]

Access 5
; loaded by another size
ldxw r3, [r1+0]
jgt64 r3, 55, out
stxw [r10-4], r3
ldxb r2, [r10-4]";

/// Numbers of which something is written before they are loaded.
const WRITTEN_PARTS: &str = "\
Access 6
; the first byte was written, and the last
ldxw r3, [r1+0]
jgt64 r3, 55, out
stxw [r10-4], r3
stb [r10-4], 0
ldxw r2, [r10-4]

Access 6
ldxw r3, [r1+0]
jgt64 r3, 55, out
stxw [r10-4], r3
stb [r10-1], 0
ldxw r2, [r10-4]

8
; the byte before them
ldxw r3, [r1+0]
jgt64 r3, 55, out
stxw [r10-4], r3
stb [r10-5], 0
ldxw r2, [r10-4]

Access 7
; a whole word over them
ldxw r3, [r1+0]
jgt64 r3, 55, out
stxw [r10-4], r3
ldxw r4, [r1+4]
stxdw [r10-8], r4
ldxw r2, [r10-4]

Access 6
; a number 16 bytes below is kept in their place
ldxw r3, [r1+0]
jgt64 r3, 55, out
stxw [r10-4], r3
stw [r10-20], 0
ldxw r2, [r10-4]

9
; where ways meet, either number
ldxw r3, [r1+0]
jgt64 r3, 40, out
stxw [r10-4], r3
jeq64 r3, 7, both
stw [r10-4], 55
both:
ldxw r2, [r10-4]

Access 7
ldxw r3, [r1+0]
jgt64 r3, 40, out
stxw [r10-4], r3
jeq64 r3, 7, both
stw [r10-4], 56
both:
ldxw r2, [r10-4]

Access 9
; and nothing of bytes that were stored otherwise on one of them
ldxw r3, [r1+0]
jgt64 r3, 55, out
stw [r10-4], 0
jeq64 r3, 7, other
stxw [r10-4], r3
ja both
other:
stxb [r10-4], r3
both:
ldxw r2, [r10-4]";
