//! What a branch says about its operands.
ghost use Rattle.std.specs.Prelude.{◌≡◌, ◌≤◌, ◌<◌, ◌≢◌, ◌↔◌, ◌⊎◌, ℕ, IsTrue};
ghost use Rattle.bq_bpf.specs.Meaning.{compares, modulus, taken};
ghost use Rattle.bq_ranges.specs.Within.{Within, NarrowsTo, EndsAre};
ghost use Rattle.bq_insn.specs.declared.Width.{Width as WidthValue};
ghost use Rattle.bq_ranges.specs.Tight.{EndsTestAs, IsByOrder, IsSigned};

use crate::range::{Range, greatest};
use crate::signed::narrow_signed;
use bq_insn::{Condition, Width};

/// Narrows `x` to a range that has each member for which the test against some member of `y` comes out as `goes` says;
/// returns `None` only if there is no such member.
///
/// For tests by order or equality in 64 bits against a single word, signed or not, the answer is the least such range.
pub fn narrow(cond: Condition, width: Width, x: Range, y: Range, goes: bool) -> Option<Range>
    ensures holds { (a b : ℕ) → Within x a → Within y b → taken width cond a b ≡ goes → NarrowsTo result a }
    ensures least { width ≡ Width.W64 → IsByOrder cond ⊎ IsSigned cond → y.lo ≡ y.hi → EndsTestAs cond x y.lo goes result }
{
    if x.hi > greatest(width) {
        return Some(x);
    }
    let y = y.low(width);
    if is_signed(cond) {
        return narrow_signed(cond, width, x, y, goes);
    }
    match cond {
        Condition::AnyBit => narrow_bits(width, x, y, goes),
        _ => narrow_words(cond, x, y, goes),
    }
}

/// Narrows `y` to a range that has each member for which the test of some member of `x` against it comes out as `goes`
/// says; returns all of `y` if `narrow` finds none.
pub fn narrow_right(cond: Condition, width: Width, x: Range, y: Range, goes: bool) -> Range
    ensures { (a b : ℕ) → Within x a → Within y b → taken width cond a b ≡ goes → Within result b }
{
    match narrow(turned(cond), width, y, x, goes) {
        Some(left) => left,
        None => y,
    }
}

/// Returns the test that answers the same with its operands exchanged.
fn turned(cond: Condition) -> Condition
    ensures { (width : WidthValue) (a b : ℕ) → taken width cond a b ≡ taken width result b a }
{
    match cond {
        Condition::Greater => Condition::Less,
        Condition::GreaterEqual => Condition::LessEqual,
        Condition::Less => Condition::Greater,
        Condition::LessEqual => Condition::GreaterEqual,
        Condition::SignedGreater => Condition::SignedLess,
        Condition::SignedGreaterEqual => Condition::SignedLessEqual,
        Condition::SignedLess => Condition::SignedGreater,
        Condition::SignedLessEqual => Condition::SignedGreaterEqual,
        Condition::Equal => Condition::Equal,
        Condition::NotEqual => Condition::NotEqual,
        Condition::AnyBit => Condition::AnyBit,
    }
}

/// Narrows `x` by the test whether it has a bit in common with a member of `y`.
///
/// If two words have no bit in common, their sum is at most the greatest word of the width.
fn narrow_bits(width: Width, x: Range, y: Range, goes: bool) -> Option<Range>
    requires left { x.hi < modulus width }
    requires right { y.hi < modulus width }
    ensures { (a b : ℕ) → Within x a → Within y b → compares width Condition.AnyBit a b ≡ goes → NarrowsTo result a }
{
    if goes {
        return Some(x);
    }
    at_most(x, greatest(width) - y.lo)
}

/// Tells whether the test compares signed numbers.
fn is_signed(cond: Condition) -> bool
    ensures { IsTrue result ↔ IsSigned cond }
{
    match cond {
        Condition::SignedGreater => true,
        Condition::SignedGreaterEqual => true,
        Condition::SignedLess => true,
        Condition::SignedLessEqual => true,
        _ => false,
    }
}

/// Narrows `x` by a test for equality or unsigned order against a member of `y`; keeps all of `x` for any other test.
fn narrow_words(cond: Condition, x: Range, y: Range, goes: bool) -> Option<Range>
    ensures holds { (a b : ℕ) → Within x a → Within y b → taken Width.W64 cond a b ≡ goes → NarrowsTo result a }
    ensures least { IsByOrder cond → y.lo ≡ y.hi → EndsTestAs cond x y.lo goes result }
{
    match (cond, goes) {
        (Condition::Equal, true) => common(x, y),
        (Condition::Equal, false) => apart(x, y),
        (Condition::NotEqual, true) => apart(x, y),
        (Condition::NotEqual, false) => common(x, y),
        (Condition::Greater, true) => above(x, y.lo),
        (Condition::Greater, false) => at_most(x, y.hi),
        (Condition::GreaterEqual, true) => at_least(x, y.lo),
        (Condition::GreaterEqual, false) => below(x, y.hi),
        (Condition::Less, true) => below(x, y.hi),
        (Condition::Less, false) => at_least(x, y.lo),
        (Condition::LessEqual, true) => at_most(x, y.hi),
        (Condition::LessEqual, false) => above(x, y.lo),
        _ => Some(x),
    }
}

/// Returns the words that both ranges have, or `None` if there are none.
pub(crate) fn common(x: Range, y: Range) -> Option<Range>
    ensures holds { (a : ℕ) → Within x a → Within y a → NarrowsTo result a }
    ensures ends { EndsAre (λ a. Within x a × Within y a) result }
{
    let lo = x.lo.max(y.lo);
    let hi = x.hi.min(y.hi);
    if hi < lo {
        return None;
    }
    Some(Range { lo, hi })
}

/// Narrows `x` to the members that differ from some member of `y`, or returns `None` if there are none.
///
/// Only a single word narrows it, and then only if the word is one of its ends.
fn apart(x: Range, y: Range) -> Option<Range>
    ensures holds { (a b : ℕ) → Within x a → Within y b → a ≢ b → NarrowsTo result a }
    ensures ends { y.lo ≡ y.hi → EndsAre (λ a. Within x a × (a ≢ y.lo)) result }
{
    if !y.is_single() {
        return Some(x);
    }
    let lo = if x.lo == y.lo {
        x.lo.saturating_add(1)
    } else {
        x.lo
    };
    let hi = if x.hi == y.lo {
        x.hi.saturating_sub(1)
    } else {
        x.hi
    };
    if x.lo == x.hi && x.lo == y.lo {
        return None;
    }
    Some(Range { lo, hi })
}

/// Narrows `x` to the members that are at most the bound, or returns `None` if there are none.
fn at_most(x: Range, bound: u64) -> Option<Range>
    ensures holds { (a : ℕ) → Within x a → a ≤ bound → NarrowsTo result a }
    ensures ends { EndsAre (λ a. Within x a × (a ≤ bound)) result }
{
    if bound < x.lo {
        return None;
    }
    Some(Range {
        lo: x.lo,
        hi: x.hi.min(bound),
    })
}

/// Narrows `x` to the members that are below the bound, or returns `None` if there are none.
fn below(x: Range, bound: u64) -> Option<Range>
    ensures holds { (a : ℕ) → Within x a → a < bound → NarrowsTo result a }
    ensures ends { EndsAre (λ a. Within x a × (a < bound)) result }
{
    if bound == 0 {
        return None;
    }
    at_most(x, bound - 1)
}

/// Narrows `x` to the members that are at least the bound, or returns `None` if there are none.
fn at_least(x: Range, bound: u64) -> Option<Range>
    ensures holds { (a : ℕ) → Within x a → bound ≤ a → NarrowsTo result a }
    ensures ends { EndsAre (λ a. Within x a × (bound ≤ a)) result }
{
    if x.hi < bound {
        return None;
    }
    Some(Range {
        lo: x.lo.max(bound),
        hi: x.hi,
    })
}

/// Narrows `x` to the members that are above the bound, or returns `None` if there are none.
fn above(x: Range, bound: u64) -> Option<Range>
    ensures holds { (a : ℕ) → Within x a → bound < a → NarrowsTo result a }
    ensures ends { EndsAre (λ a. Within x a × (bound < a)) result }
{
    if bound == u64::MAX {
        return None;
    }
    at_least(x, bound + 1)
}
