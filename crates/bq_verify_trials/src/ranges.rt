//! Worked intervals: sums, products, shifts, and what branches leave.

use crate::asserting::is_true_in_row;
use bq_insn::Condition::{
    AnyBit, Equal, Greater, GreaterEqual, Less, LessEqual, NotEqual, SignedGreater,
    SignedGreaterEqual, SignedLess,
};
use bq_insn::Operation::{Add, And, Arsh, Div, Lsh, Mul, Or, Rem, Rsh, Sdiv, Srem, Sub, Xor};
use bq_insn::Width::{W32, W64};
use bq_insn::{Bits, Condition, Operation, Order, Width};
use bq_ranges::arithmetic::alu;
use bq_ranges::moves::{extend, neg, reorder};
use bq_ranges::narrowing::narrow;
use bq_ranges::range::Range;
use std::process::Abort;

/// The least and the greatest word of a range.
type Ends = (u64, u64);

fn range(ends: Ends) -> Range {
    let (lo, hi) = ends;
    if lo <= hi {
        Range { lo, hi }
    } else {
        Range::single(lo)
    }
}

fn ends(range: Option<Range>) -> Option<Ends> {
    let Range { lo, hi } = range?;
    Some((lo, hi))
}

/// A row of a table has that range, or none.
fn is_range(rt: &impl Abort, found: Option<Range>, expected: Option<Ends>, row: usize) {
    is_true_in_row(rt, ends(found) == expected, row);
}

/// The last word, which is -1 with signs.
const LAST: u64 = u64::MAX;

/// An operation on two ranges, and its result.
type Row = (Operation, Ends, Ends, Ends);

static RESULTS: [Row; 15] = [
    (Add, (1, 2), (3, 4), (4, 6)),
    (Mul, (2, 3), (4, 5), (8, 15)),
    (Rsh, (16, 255), (4, 4), (1, 15)),
    // the amount of a shift is taken modulo the width
    (Rsh, (16, 255), (68, 68), (1, 15)),
    (And, (0, LAST), (8, 8), (0, 8)),
    // of 0 to 12 the mask leaves multiples of 8
    (And, (0, 12), (0xff8, 0xff8), (0, 8)),
    (Or, (4, 5), (0, 2), (4, 7)),
    // no more than the sum, and no more than seven ones
    (Or, (64, 100), (3, 60), (64, 127)),
    (Xor, (64, 64), (0, 1), (0, 65)),
    (Xor, (0, 5), (0, 6), (0, 7)),
    (Arsh, (16, 255), (4, 4), (1, 15)),
    // -16 to -1 by two
    (Arsh, (LAST - 15, LAST), (2, 2), (LAST - 3, LAST)),
    (Sub, (5, 9), (1, 2), (3, 8)),
    // where all sums or all differences wrap, they are as near one another as before
    (Add, (LAST - 1, LAST), (2, 3), (0, 2)),
    (Sub, (0, 1), (2, 3), (LAST - 2, LAST)),
];

// In 32 bits only the low halves of the operands count, and the upper half of the result is 0.
static HALVES: [Row; 3] = [
    (Add, (0x7_0000_0001, 0x7_0000_0002), (3, 4), (4, 6)),
    (Mul, (0x7_0000_0002, 0x7_0000_0003), (4, 5), (8, 15)),
    (Rsh, (0x7_0000_0010, 0x7_0000_00ff), (36, 36), (1, 15)),
];

fn are_results(rt: &impl Abort, width: Width, rows: &[Row]) {
    for (number, (op, a, b, result)) in rows.iter().enumerate() {
        let found = alu(width, *op, range(*a), range(*b));
        is_range(rt, Some(found), Some(*result), number);
    }
}

/// Operations on ranges leave the ranges of the rows.
#[test]
fn results(rt: HostRuntime) {
    are_results(&rt, W64, &RESULTS);
    are_results(&rt, W32, &HALVES);
}

// One word each: the rules of RFC 9669 section 4.1 for zero, for the least number over -1 and for great amounts.
static SINGLE_WORDS: [(Width, Operation, u64, u64, u64); 8] = [
    (W64, Div, 7, 0, 0),
    (W64, Div, 5, LAST, 0),
    (W32, Rem, 0xffff_ffff_0000_0007, 0, 7),
    (W64, Sdiv, 1 << 63, LAST, 1 << 63),
    (W64, Srem, 1 << 63, LAST, 0),
    // -13 over 3 leaves -1
    (W64, Srem, LAST - 12, 3, LAST),
    (W64, Lsh, 7, 64, 7),
    (W32, Arsh, 0x8000_0000, 33, 0xc000_0000),
];

/// Of single words an operation leaves the one word that the RFC says.
#[test]
fn single_words(rt: HostRuntime) {
    for (number, (width, op, a, b, result)) in SINGLE_WORDS.iter().enumerate() {
        let found = alu(*width, *op, Range::single(*a), Range::single(*b));
        is_range(&rt, Some(found), Some((*result, *result)), number);
    }
}

/// A test of two ranges in 64 bits, whether it is taken, and what is left of the first then.
type Branch = (Condition, Ends, Ends, bool, Option<Ends>);

// What is left of 0 to 10 by a test against 4, taken and not taken.
static BRANCHES: [Branch; 12] = [
    (Equal, (0, 10), (4, 4), true, Some((4, 4))),
    (Equal, (0, 10), (4, 4), false, Some((0, 10))),
    (NotEqual, (0, 10), (4, 4), true, Some((0, 10))),
    (NotEqual, (0, 10), (4, 4), false, Some((4, 4))),
    (Greater, (0, 10), (4, 4), true, Some((5, 10))),
    (Greater, (0, 10), (4, 4), false, Some((0, 4))),
    (GreaterEqual, (0, 10), (4, 4), true, Some((4, 10))),
    (GreaterEqual, (0, 10), (4, 4), false, Some((0, 3))),
    (Less, (0, 10), (4, 4), true, Some((0, 3))),
    (Less, (0, 10), (4, 4), false, Some((4, 10))),
    (LessEqual, (0, 10), (4, 4), true, Some((0, 4))),
    (LessEqual, (0, 10), (4, 4), false, Some((5, 10))),
];

static BRANCHES_AT_THE_ENDS: [Branch; 8] = [
    (Less, (5, 9), (5, 5), true, None),
    (Equal, (4, 10), (4, 4), false, Some((5, 10))),
    (Equal, (0, 4), (4, 4), false, Some((0, 3))),
    (Equal, (4, 4), (4, 4), false, None),
    (Equal, (5, 10), (4, 4), true, None),
    (LessEqual, (0, 4), (4, 4), false, None),
    // no word is above the last one, which is -1 with signs, below 0 to 10
    (Greater, (0, 10), (LAST, LAST), true, None),
    (SignedGreater, (0, 10), (LAST, LAST), true, Some((0, 10))),
];

/// The greatest word that is not negative.
const MOST: u64 = u64::MAX / 2;

// Signed tests: what is left is one interval, or the least that has both parts.
static SIGNED_BRANCHES: [Branch; 8] = [
    (SignedGreaterEqual, (0, LAST), (0, 0), true, Some((0, MOST))),
    (
        SignedGreaterEqual,
        (0, LAST),
        (0, 0),
        false,
        Some((MOST + 1, LAST)),
    ),
    (SignedLess, (0, 10), (4, 4), true, Some((0, 3))),
    // 0 to 3 and the negative words are no interval
    (SignedLess, (0, LAST), (4, 4), true, Some((0, LAST))),
    (SignedGreater, (0, LAST), (4, 4), true, Some((5, MOST))),
    // at least -2 is left of all words but the negative ones below it
    (
        SignedGreater,
        (9, LAST - 2),
        (LAST - 2, LAST - 2),
        true,
        Some((9, MOST)),
    ),
    (SignedLess, (MOST + 1, LAST), (0, 0), false, None),
    (AnyBit, (0, LAST), (LAST - 7, LAST - 7), false, Some((0, 7))),
];

// In 32 bits the sign is bit 31, where the word has no upper half.
static SIGNED_HALVES: [Branch; 2] = [
    (
        SignedLess,
        (0, 0xffff_ffff),
        (0, 0),
        false,
        Some((0, 0x7fff_ffff)),
    ),
    (SignedLess, (0, LAST), (0, 0), false, Some((0, LAST))),
];

fn are_left(rt: &impl Abort, width: Width, rows: &[Branch]) {
    for (number, (cond, x, y, taken, left)) in rows.iter().enumerate() {
        let found = narrow(*cond, width, range(*x), range(*y), *taken);
        is_range(rt, found, *left, number);
    }
}

/// Tests leave what the rows say of the first range, taken and not taken.
#[test]
fn branches(rt: HostRuntime) {
    are_left(&rt, W64, &BRANCHES);
    are_left(&rt, W64, &BRANCHES_AT_THE_ENDS);
    are_left(&rt, W64, &SIGNED_BRANCHES);
    are_left(&rt, W32, &SIGNED_HALVES);
}

/// What makes a word of another one.
enum Move {
    Extend(Width, Bits),
    Reorder(Order, Bits),
    Negate(Width),
}

// Rows of the instruction table: 0x80 extended to 32 bits, and byte orders on a little-endian host.
static MOVES: [(Move, Ends, Ends); 5] = [
    (
        Move::Extend(W32, Bits::B8),
        (0x80, 0x80),
        (0xffff_ff80, 0xffff_ff80),
    ),
    (Move::Extend(W64, Bits::B8), (0, 0x7f), (0, 0x7f)),
    (
        Move::Reorder(Order::Swapped, Bits::B16),
        (0x1234_5678_90ab_cdef, 0x1234_5678_90ab_cdef),
        (0xefcd, 0xefcd),
    ),
    (
        Move::Reorder(Order::Big, Bits::B32),
        (0x1122_3344_5566_7788, 0x1122_3344_5566_7788),
        (0x8877_6655, 0x8877_6655),
    ),
    (Move::Negate(W64), (1, 1), (LAST, LAST)),
];

fn moved(by: &Move, range: Range) -> Range {
    match by {
        Move::Extend(width, bits) => extend(*width, *bits, range),
        Move::Reorder(order, bits) => reorder(*order, *bits, range),
        Move::Negate(width) => neg(*width, range),
    }
}

/// Extensions, byte orders and negation leave the ranges of the rows.
#[test]
fn moves(rt: HostRuntime) {
    for (number, (by, before, after)) in MOVES.iter().enumerate() {
        is_range(&rt, Some(moved(by, range(*before))), Some(*after), number);
    }
}
