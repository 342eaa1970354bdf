//! NEG, sign extension and byte order on ranges.
ghost use Rattle.std.specs.Prelude.{◌≡◌, ℕ};
ghost use Rattle.bq_bpf.specs.Meaning.{negated, extended, reordered};
ghost use Rattle.bq_ranges.specs.Within.{Within};

use crate::arithmetic::sub;
use crate::range::{Range, greatest};
use bq_bpf::words;
use bq_insn::{Bits, Order, Width};

/// Returns a range that has the negations of all words of the range (RFC 9669 section 4.1, NEG).
pub fn neg(width: Width, a: Range) -> Range
    ensures holds { (x : ℕ) → Within a x → Within result (negated width x) }
    ensures single_low { a.lo ≡ a.hi → result.lo ≡ negated width a.lo }
    ensures single_high { a.lo ≡ a.hi → result.hi ≡ negated width a.lo }
{
    if a.is_single() {
        return Range::single(words::negated(width, a.lo));
    }
    sub(width, Range::single(0), a.low(width))
}

/// Returns a range that has the low bits of all words of the range, with their sign extended over the width (RFC 9669
/// section 4.1, MOVSX).
pub fn extend(width: Width, bits: Bits, a: Range) -> Range
    ensures holds { (x : ℕ) → Within a x → Within result (extended width bits x) }
    ensures single_low { a.lo ≡ a.hi → result.lo ≡ extended width bits a.lo }
    ensures single_high { a.lo ≡ a.hi → result.hi ≡ extended width bits a.lo }
{
    if a.is_single() {
        return Range::single(words::extended(width, bits, a.lo));
    }
    if a.hi <= Range::of_bits(bits).hi / 2 && a.hi <= greatest(width) {
        return a;
    }
    Range::full(width)
}

/// Returns a range that has the low bits of all words of the range, in that byte order (RFC 9669 section 4.2).
pub fn reorder(order: Order, bits: Bits, a: Range) -> Range
    ensures holds { (x : ℕ) → Within a x → Within result (reordered order bits x) }
    ensures single_low { a.lo ≡ a.hi → result.lo ≡ reordered order bits a.lo }
    ensures single_high { a.lo ≡ a.hi → result.hi ≡ reordered order bits a.lo }
{
    if a.is_single() {
        return Range::single(words::reordered(order, bits, a.lo));
    }
    let all = Range::of_bits(bits);
    if order == Order::Little && a.hi <= all.hi {
        return a;
    }
    all
}
