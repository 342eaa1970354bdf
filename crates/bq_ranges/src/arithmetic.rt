//! Each arithmetic instruction on ranges.
ghost use Rattle.std.specs.Prelude.{◌≡◌, ◌+◌, ◌-◌, ◌*◌, ◌/◌, ◌%◌, ◌^◌, ◌<◌, ◌≤◌, ℕ, bit_and, bit_or, bit_xor};
ghost use Rattle.bq_bpf.specs.Meaning.{alu_result, modulus, bit_count, operate};
ghost use Rattle.bq_ranges.specs.Within.{Within};
ghost use Rattle.bq_ranges.specs.Tight.{IsTight, IsTightAt, IsTightWithin, greatest_by, least_by};

use crate::bits::{multiple_within, ones};
use crate::range::{Range, greatest, sign};
use bq_bpf::words;
use bq_insn::{Operation, Width};

/// Returns a range that has all results of an arithmetic instruction (RFC 9669 section 4.1) on members of the two
/// ranges.
///
/// Single words give a single word, and AND goes no higher than its lesser operand. The answer is the least such range
/// for sums, differences and products that cannot wrap, shifts to the right by one amount, and copies.
pub fn alu(width: Width, op: Operation, a: Range, b: Range) -> Range
    ensures holds { (x y : ℕ) → Within a x → Within b y → Within result (alu_result width op x y) }
    ensures single_low { a.lo ≡ a.hi → b.lo ≡ b.hi → result.lo ≡ alu_result width op a.lo b.lo }
    ensures single_high { a.lo ≡ a.hi → b.lo ≡ b.hi → result.hi ≡ alu_result width op a.lo b.lo }
    ensures and_left { op ≡ Operation.And → result.hi ≤ a.hi }
    ensures and_right { op ≡ Operation.And → result.hi ≤ b.hi }
    ensures tight { IsTightAt width op a b → IsTight width op a b result }
{
    if a.is_single() && b.is_single() {
        return Range::single(words::alu(width, op, a.lo, b.lo));
    }
    outcomes(width, op, a.low(width), b.low(width))
}

/// Returns a range that has all results of an arithmetic instruction on members of two ranges that fit the width.
fn outcomes(width: Width, op: Operation, a: Range, b: Range) -> Range
    requires left { a.hi < modulus width }
    requires right { b.hi < modulus width }
    ensures holds { (x y : ℕ) → Within a x → Within b y → Within result (operate width op x y % modulus width) }
    ensures and_left { op ≡ Operation.And → result.hi ≤ a.hi }
    ensures and_right { op ≡ Operation.And → result.hi ≤ b.hi }
    ensures tight_low { IsTightWithin width op a b → result.lo ≡ operate width op a.lo (least_by op b) % modulus width }
    ensures tight_high { IsTightWithin width op a b → result.hi ≡ operate width op a.hi (greatest_by op b) % modulus width }
{
    match op {
        Operation::Add => add(width, a, b),
        Operation::Sub => sub(width, a, b),
        Operation::Mul => mul(width, a, b),
        Operation::Div => div(a, b),
        Operation::Or => or(width, a, b),
        Operation::And => and(a, b),
        Operation::Xor => xor(width, a, b),
        Operation::Lsh => lsh(width, a, b),
        Operation::Rsh => rsh(width, a, b),
        Operation::Rem => rem(a, b),
        Operation::Mov => b,
        Operation::Sdiv | Operation::Srem => Range::full(width),
        Operation::Arsh => arsh(width, a, b),
    }
}

/// Returns a range that has all wrapping sums of members; the least such range if no sum wraps.
pub fn add(width: Width, a: Range, b: Range) -> Range
    requires left { a.hi < modulus width }
    requires right { b.hi < modulus width }
    ensures holds { (x y : ℕ) → Within a x → Within b y → Within result ((x + y) % modulus width) }
    ensures tight_low { a.hi + b.hi < modulus width → result.lo ≡ a.lo + b.lo }
    ensures tight_high { a.hi + b.hi < modulus width → result.hi ≡ a.hi + b.hi }
{
    let most = greatest(width);
    if a.hi <= most - b.hi {
        return Range {
            lo: a.lo + b.lo,
            hi: a.hi + b.hi,
        };
    }
    if a.lo <= most - b.lo {
        return Range::full(width);
    }
    Range {
        lo: a.lo - (most - b.lo) - 1,
        hi: a.hi - (most - b.hi) - 1,
    }
}

/// Returns a range that has all wrapping differences of members; the least such range if no difference wraps.
pub fn sub(width: Width, a: Range, b: Range) -> Range
    requires left { a.hi < modulus width }
    requires right { b.hi < modulus width }
    ensures holds { (x y : ℕ) → Within a x → Within b y → Within result ((x + (modulus width - y)) % modulus width) }
    ensures tight_low { b.hi ≤ a.lo → result.lo ≡ a.lo - b.hi }
    ensures tight_high { b.hi ≤ a.lo → result.hi ≡ a.hi - b.lo }
{
    if b.hi <= a.lo {
        return Range {
            lo: a.lo - b.hi,
            hi: a.hi - b.lo,
        };
    }
    if b.lo <= a.hi {
        return Range::full(width);
    }
    let most = greatest(width);
    Range {
        lo: most - (b.hi - a.lo) + 1,
        hi: most - (b.lo - a.hi) + 1,
    }
}

/// Returns a range that has all wrapping products of members; the least such range if no product wraps.
fn mul(width: Width, a: Range, b: Range) -> Range
    requires left { a.hi < modulus width }
    requires right { b.hi < modulus width }
    ensures holds { (x y : ℕ) → Within a x → Within b y → Within result ((x * y) % modulus width) }
    ensures tight_low { a.hi * b.hi < modulus width → result.lo ≡ a.lo * b.lo }
    ensures tight_high { a.hi * b.hi < modulus width → result.hi ≡ a.hi * b.hi }
{
    if let Some(hi) = a.hi.checked_mul(b.hi) {
        if hi <= greatest(width) {
            return Range {
                lo: a.lo * b.lo,
                hi,
            };
        }
    }
    Range::full(width)
}

/// Returns a range that has all quotients of members; a quotient by zero is 0.
fn div(a: Range, b: Range) -> Range
    ensures zero { (x : ℕ) → Within a x → Within b 0 → Within result 0 }
    ensures holds { (x y : ℕ) → Within a x → Within b y → 0 < y → Within result (x / y) }
    ensures below { result.hi ≤ a.hi }
{
    if b.lo == 0 {
        return Range { lo: 0, hi: a.hi };
    }
    Range {
        lo: a.lo / b.hi,
        hi: a.hi / b.lo,
    }
}

/// Returns a range that has all results of OR on members.
fn or(width: Width, a: Range, b: Range) -> Range
    requires left { a.hi < modulus width }
    requires right { b.hi < modulus width }
    ensures { (x y : ℕ) → Within a x → Within b y → Within result (bit_or x y) }
{
    Range {
        lo: a.lo.max(b.lo),
        hi: highest(width, a, b),
    }
}

/// Returns a range that has all results of XOR on members.
fn xor(width: Width, a: Range, b: Range) -> Range
    requires left { a.hi < modulus width }
    requires right { b.hi < modulus width }
    ensures { (x y : ℕ) → Within a x → Within b y → Within result (bit_xor x y) }
{
    Range {
        lo: 0,
        hi: highest(width, a, b),
    }
}

/// Bounds the union of the bits of two members, one of each range.
///
/// The union is not above the sum of the words, and has no bit above the highest bit of both.
fn highest(width: Width, a: Range, b: Range) -> u64
    requires left { a.hi < modulus width }
    requires right { b.hi < modulus width }
    ensures left { a.hi ≤ result }
    ensures right { b.hi ≤ result }
    ensures least { (z : ℕ) → z ≤ a.hi + b.hi → z < modulus width → ((k : ℕ) → a.hi < 2 ^ k → b.hi < 2 ^ k → z < 2 ^ k) → z ≤ result }
{
    let most = ones(a.hi.max(b.hi)).min(greatest(width));
    a.hi.saturating_add(b.hi).min(most)
}

/// Returns a range that has all results of AND on members and goes no higher than either operand.
fn and(a: Range, b: Range) -> Range
    ensures holds { (x y : ℕ) → Within a x → Within b y → Within result (bit_and x y) }
    ensures left { result.hi ≤ a.hi }
    ensures right { result.hi ≤ b.hi }
{
    let hi = multiple_within(a.hi.min(b.hi), a);
    Range {
        lo: 0,
        hi: multiple_within(hi, b),
    }
}

/// Returns a range that has all wrapping shifts to the left of members of `a` by members of `b`.
fn lsh(width: Width, a: Range, b: Range) -> Range
    requires left { a.hi < modulus width }
    ensures { (x y : ℕ) → Within a x → Within b y → Within result ((x * 2 ^ (y % bit_count width)) % modulus width) }
{
    let amount = b.lo % bits(width);
    if b.is_single() && a.hi <= greatest(width) >> amount {
        return Range {
            lo: a.lo << amount,
            hi: a.hi << amount,
        };
    }
    Range::full(width)
}

/// Returns a range that has all shifts to the right of members of `a` by members of `b`; the least such range if `b` has one word.
fn rsh(width: Width, a: Range, b: Range) -> Range
    ensures holds { (x y : ℕ) → Within a x → Within b y → Within result (x / 2 ^ (y % bit_count width)) }
    ensures below { result.hi ≤ a.hi }
    ensures tight_low { b.lo ≡ b.hi → result.lo ≡ a.lo / 2 ^ (b.lo % bit_count width) }
    ensures tight_high { b.lo ≡ b.hi → result.hi ≡ a.hi / 2 ^ (b.hi % bit_count width) }
{
    if b.is_single() {
        let amount = b.lo % bits(width);
        return Range {
            lo: a.lo >> amount,
            hi: a.hi >> amount,
        };
    }
    Range { lo: 0, hi: a.hi }
}

/// Returns a range that has all results of arithmetic shifts to the right of members of `a` by members of `b`.
///
/// Words without the sign bit shift like numbers. Words with the sign bit shift like numbers that count down from the
/// greatest word.
fn arsh(width: Width, a: Range, b: Range) -> Range
    requires left { a.hi < modulus width }
    ensures { (x y : ℕ) → Within a x → Within b y → Within result (operate width Operation.Arsh x y % modulus width) }
{
    let half = sign(width);
    if a.hi < half {
        return rsh(width, a, b);
    }
    if a.lo < half || !b.is_single() {
        return Range::full(width);
    }
    let most = greatest(width);
    let amount = b.lo % bits(width);
    Range {
        lo: most - ((most - a.lo) >> amount),
        hi: most - ((most - a.hi) >> amount),
    }
}

/// Returns the number of bits of a width.
fn bits(width: Width) -> u64
    ensures { result ≡ bit_count width }
{
    match width {
        Width::W32 => 32,
        Width::W64 => 64,
    }
}

/// Returns a range that has all remainders of members; a remainder by zero is the dividend.
fn rem(a: Range, b: Range) -> Range
    ensures zero { (x : ℕ) → Within a x → Within b 0 → Within result x }
    ensures holds { (x y : ℕ) → Within a x → Within b y → 0 < y → Within result (x % y) }
    ensures below { result.hi ≤ a.hi }
{
    if b.lo == 0 {
        return Range { lo: 0, hi: a.hi };
    }
    Range {
        lo: 0,
        hi: a.hi.min(b.hi - 1),
    }
}
