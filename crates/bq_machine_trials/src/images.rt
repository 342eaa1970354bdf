//! Images of small policies. The bytes are worked on paper from docs/IMAGE.md and docs/INSTRUCTIONS.md.

/// Preempt: answers 0.
pub const ZERO: [u8; 28] = [
    0x42, 0x51, 0x50, 0x49, 1, 1, 0, 0, 2, 0, 0, 0, //
    0xb7, 0, 0, 0, 0, 0, 0, 0, // mov64 r0, 0
    0x95, 0, 0, 0, 0, 0, 0, 0, // exit
];

/// Preempt: answers 1.
pub const ALWAYS: [u8; 28] = [
    0x42, 0x51, 0x50, 0x49, 1, 1, 0, 0, 2, 0, 0, 0, //
    0xb7, 0, 0, 0, 1, 0, 0, 0, // mov64 r0, 1
    0x95, 0, 0, 0, 0, 0, 0, 0, // exit
];

/// Preempt: adds 11 to counter 0, 5 to counter 3 and 7 to counter 63, and answers 0.
pub const SUMS: [u8; 100] = [
    0x42, 0x51, 0x50, 0x49, 1, 1, 0, 0, 11, 0, 0, 0, //
    0xb7, 1, 0, 0, 0, 0, 0, 0, // mov64 r1, 0
    0xb7, 2, 0, 0, 11, 0, 0, 0, // mov64 r2, 11
    0x85, 0, 0, 0, 100, 0, 0, 0, // call 100
    0xb7, 1, 0, 0, 3, 0, 0, 0, // mov64 r1, 3
    0xb7, 2, 0, 0, 5, 0, 0, 0, // mov64 r2, 5
    0x85, 0, 0, 0, 100, 0, 0, 0, // call 100
    0xb7, 1, 0, 0, 63, 0, 0, 0, // mov64 r1, 63
    0xb7, 2, 0, 0, 7, 0, 0, 0, // mov64 r2, 7
    0x85, 0, 0, 0, 100, 0, 0, 0, // call 100
    0xb7, 0, 0, 0, 0, 0, 0, 0, // mov64 r0, 0
    0x95, 0, 0, 0, 0, 0, 0, 0, // exit
];

/// Preempt: adds 5 to counter 3, and answers 0.
pub const ADDS: [u8; 52] = [
    0x42, 0x51, 0x50, 0x49, 1, 1, 0, 0, 5, 0, 0, 0, //
    0xb7, 1, 0, 0, 3, 0, 0, 0, // mov64 r1, 3
    0xb7, 2, 0, 0, 5, 0, 0, 0, // mov64 r2, 5
    0x85, 0, 0, 0, 100, 0, 0, 0, // call 100
    0xb7, 0, 0, 0, 0, 0, 0, 0, // mov64 r0, 0
    0x95, 0, 0, 0, 0, 0, 0, 0, // exit
];

/// Preempt: reads counter 3, and answers 0.
pub const READS: [u8; 44] = [
    0x42, 0x51, 0x50, 0x49, 1, 1, 0, 0, 4, 0, 0, 0, //
    0xb7, 1, 0, 0, 3, 0, 0, 0, // mov64 r1, 3
    0x85, 0, 0, 0, 101, 0, 0, 0, // call 101
    0xb7, 0, 0, 0, 0, 0, 0, 0, // mov64 r0, 0
    0x95, 0, 0, 0, 0, 0, 0, 0, // exit
];

/// Preempt, one map of 8 bytes and 1 entry: answers the old value of its entry and adds one to it, or answers 2.
pub const COUNTING: [u8; 136] = [
    0x42, 0x51, 0x50, 0x49, 1, 1, 1, 0, 8, 0, 1, 0, 15, 0, 0, 0, //
    0x62, 0x0a, 0xfc, 0xff, 0, 0, 0, 0, // stw [r10-4], 0
    0x18, 0x51, 0, 0, 0, 0, 0, 0, // ldmap r1, 0
    0, 0, 0, 0, 0, 0, 0, 0, //
    0xbf, 0xa2, 0, 0, 0, 0, 0, 0, // mov64 r2, r10
    0x07, 0x02, 0, 0, 0xfc, 0xff, 0xff, 0xff, // add64 r2, -4
    0x85, 0, 0, 0, 1, 0, 0, 0, // call 1
    0x55, 0, 2, 0, 0, 0, 0, 0, // jne64 r0, 0, +2
    0xb7, 0, 0, 0, 2, 0, 0, 0, // mov64 r0, 2
    0x95, 0, 0, 0, 0, 0, 0, 0, // exit
    0x79, 0x03, 0, 0, 0, 0, 0, 0, // ldxdw r3, [r0+0]
    0xbf, 0x34, 0, 0, 0, 0, 0, 0, // mov64 r4, r3
    0x07, 0x04, 0, 0, 1, 0, 0, 0, // add64 r4, 1
    0x7b, 0x40, 0, 0, 0, 0, 0, 0, // stxdw [r0+0], r4
    0xbf, 0x30, 0, 0, 0, 0, 0, 0, // mov64 r0, r3
    0x95, 0, 0, 0, 0, 0, 0, 0, // exit
];

/// Place: adds 1 to counter 7, and answers what that was, modulo 64.
pub const IN_TURN: [u8; 52] = [
    0x42, 0x51, 0x50, 0x49, 1, 0, 0, 0, 5, 0, 0, 0, //
    0xb7, 1, 0, 0, 7, 0, 0, 0, // mov64 r1, 7
    0xb7, 2, 0, 0, 1, 0, 0, 0, // mov64 r2, 1
    0x85, 0, 0, 0, 100, 0, 0, 0, // call 100
    0x57, 0, 0, 0, 63, 0, 0, 0, // and64 r0, 63
    0x95, 0, 0, 0, 0, 0, 0, 0, // exit
];

/// Pull: answers the discipline's own choice.
pub const OWN_PULL: [u8; 28] = [
    0x42, 0x51, 0x50, 0x49, 1, 2, 0, 0, 2, 0, 0, 0, //
    0x61, 0x10, 0x18, 0, 0, 0, 0, 0, // ldxw r0, [r1+24]
    0x95, 0, 0, 0, 0, 0, 0, 0, // exit
];
