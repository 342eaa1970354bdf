//! What a signed comparison says about its operands. Words with the sign bit are below all others.
ghost use Rattle.std.specs.Prelude.{◌≡◌, ◌≤◌, ◌<◌, ◌⊎◌, ℕ};
ghost use Rattle.bq_bpf.specs.Meaning.{compares, modulus};
ghost use Rattle.bq_ranges.specs.Within.{EndsAre, NarrowsTo, Within};
ghost use Rattle.bq_ranges.specs.Signed.{EndsMeet, IsSignedAtMost, IsSignedBelow};
ghost use Rattle.bq_ranges.specs.Tight.{IsSigned};

use crate::narrowing::common;
use crate::range::{Range, sign};
use bq_insn::{Condition, Width};

/// Narrows `x` to a range that has each member for which the test against some member of `y` comes out as `goes` says,
/// if both ranges fit the width; returns `None` only if there is no such member.
///
/// Against a single word the answer is the least such range.
pub fn narrow_signed(cond: Condition, width: Width, x: Range, y: Range, goes: bool) -> Option<Range>
    requires left { x.hi < modulus width }
    requires right { y.hi < modulus width }
    ensures holds { (a b : ℕ) → Within x a → Within y b → compares width cond a b ≡ goes → NarrowsTo result a }
    ensures least { IsSigned cond → y.lo ≡ y.hi → EndsMeet width cond x y.lo goes result }
{
    let half = sign(width);
    match (cond, goes) {
        (Condition::SignedGreater, true) => above(x, lowest(y, half), half),
        (Condition::SignedGreater, false) => at_most(x, highest(y, half), half),
        (Condition::SignedGreaterEqual, true) => at_least(x, lowest(y, half), half),
        (Condition::SignedGreaterEqual, false) => below(x, highest(y, half), half),
        (Condition::SignedLess, true) => below(x, highest(y, half), half),
        (Condition::SignedLess, false) => at_least(x, lowest(y, half), half),
        (Condition::SignedLessEqual, true) => at_most(x, highest(y, half), half),
        (Condition::SignedLessEqual, false) => above(x, lowest(y, half), half),
        _ => Some(x),
    }
}

/// Returns the member that is greatest as a signed number; `half` is the word with only the sign bit.
fn highest(y: Range, half: u64) -> u64
    requires { 0 < half }
    ensures above { (b : ℕ) → Within y b → IsSignedAtMost half b result }
    ensures within { Within y result }
{
    if y.lo < half {
        return y.hi.min(half - 1);
    }
    y.hi
}

/// Returns the member that is least as a signed number; `half` is the word with only the sign bit.
fn lowest(y: Range, half: u64) -> u64
    ensures below { (b : ℕ) → Within y b → IsSignedAtMost half result b }
    ensures within { Within y result }
{
    if half <= y.hi {
        return y.lo.max(half);
    }
    y.lo
}

/// Narrows `x` to the members that are at most the bound as signed numbers, or returns `None` if there are none.
fn at_most(x: Range, bound: u64, half: u64) -> Option<Range>
    requires { 0 < half }
    ensures holds { (a : ℕ) → Within x a → IsSignedAtMost half a bound → NarrowsTo result a }
    ensures ends { EndsAre (λ a. Within x a × IsSignedAtMost half a bound) result }
{
    if bound < half {
        return outside(x, bound + 1, half);
    }
    common(
        x,
        Range {
            lo: half,
            hi: bound,
        },
    )
}

/// Narrows `x` to the members that are below the bound as signed numbers, or returns `None` if there are none.
fn below(x: Range, bound: u64, half: u64) -> Option<Range>
    requires { 0 < half }
    ensures holds { (a : ℕ) → Within x a → IsSignedBelow half a bound → NarrowsTo result a }
    ensures ends { EndsAre (λ a. Within x a × IsSignedBelow half a bound) result }
{
    if bound < half {
        return outside(x, bound, half);
    }
    if bound == half {
        return None;
    }
    common(
        x,
        Range {
            lo: half,
            hi: bound - 1,
        },
    )
}

/// Narrows `x` to the members that are at least the bound as signed numbers, or returns `None` if there are none.
fn at_least(x: Range, bound: u64, half: u64) -> Option<Range>
    requires { 0 < half }
    ensures holds { (a : ℕ) → Within x a → IsSignedAtMost half bound a → NarrowsTo result a }
    ensures ends { EndsAre (λ a. Within x a × IsSignedAtMost half bound a) result }
{
    if half <= bound {
        return outside(x, half, bound);
    }
    common(
        x,
        Range {
            lo: bound,
            hi: half - 1,
        },
    )
}

/// Narrows `x` to the members that are above the bound as signed numbers, or returns `None` if there are none.
fn above(x: Range, bound: u64, half: u64) -> Option<Range>
    requires { 0 < half }
    ensures holds { (a : ℕ) → Within x a → IsSignedBelow half bound a → NarrowsTo result a }
    ensures ends { EndsAre (λ a. Within x a × IsSignedBelow half bound a) result }
{
    if bound == u64::MAX {
        return common(
            x,
            Range {
                lo: 0,
                hi: half - 1,
            },
        );
    }
    if half <= bound {
        return outside(x, half, bound + 1);
    }
    if bound + 1 == half {
        return None;
    }
    common(
        x,
        Range {
            lo: bound + 1,
            hi: half - 1,
        },
    )
}

/// Narrows `x` to a range that has the members below `from` and the members from `to` on, or returns `None` if there are none.
fn outside(x: Range, from: u64, to: u64) -> Option<Range>
    ensures holds { (a : ℕ) → Within x a → (a < from) ⊎ (to ≤ a) → NarrowsTo result a }
    ensures ends { EndsAre (λ a. Within x a × ((a < from) ⊎ (to ≤ a))) result }
{
    let lo = if from <= x.lo { x.lo.max(to) } else { x.lo };
    if x.hi < lo {
        return None;
    }
    if x.hi < from || to <= x.hi {
        return Some(Range { lo, hi: x.hi });
    }
    if from <= lo {
        return None;
    }
    Some(Range { lo, hi: from - 1 })
}
