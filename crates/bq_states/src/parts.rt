//! Numbers that are stored in a few bytes of the stack.

ghost use Rattle.std.specs.Prelude.{◌≡◌, ◌+◌, ◌^◌, ◌<◌, ℕ, Some, None, Option, length, slice_index_or};
ghost use Rattle.bq_insn.specs.Slots.{byte_count};
ghost use Rattle.bq_bpf.specs.Steps.{low_bytes};
ghost use Rattle.bq_bpf.specs.Memory.{number_of};
ghost use Rattle.bq_ranges.specs.Within.{Within};
ghost use Rattle.bq_states.specs.Parts.{AllowsPart, HasLowBytes, HaveParts, Outlives, ReadsWithin};

use crate::abstract_state::StackPart;
use bq_bpf::addresses::STACK_SIZE;
use bq_insn::Size;
use bq_ranges::Range;

/// Records a store: a number in `word` was written from byte `first` on, cut to `size` bytes.
fn keep_part(parts: &mut [Option<StackPart>], first: u16, size: Size, word: Range)
    requires { length parts.old ≡ 4 }
    ensures { (stack : ℕ → Option ℕ) (v : ℕ) → Within word v → HasLowBytes stack first size v → HaveParts stack parts.old → HaveParts stack parts.new }
{
    let range = low_of(size, word);
    parts[place_of(first)] = Some(StackPart { first, size, range });
}

/// Records a store of a number in `word` at an offset in `at`, if `at` is a single offset.
pub fn store_part(parts: &mut [Option<StackPart>], at: Range, size: Size, word: Range)
    requires room { length parts.old ≡ 4 }
    requires small { at.hi < 2 ^ 16 }
    ensures { (stack : ℕ → Option ℕ) (o v : ℕ) → Within at o → Within word v → HasLowBytes stack o size v → HaveParts stack parts.old → HaveParts stack parts.new }
{
    if at.is_single() {
        keep_part(parts, at.lo as u16, size, word);
    }
}

/// A range that has the numbers which a read of this size gives at an offset of the range.
pub fn numbers_at(parts: &[Option<StackPart>], at: Range, size: Size) -> Range
    requires { length parts.now ≡ 4 }
    ensures { ReadsWithin parts.now at (byte_count size) result }
{
    if !at.is_single() || at.lo >= STACK_SIZE {
        return numbers(size);
    }
    let first = at.lo as u16;
    let Some(part) = parts[place_of(first)] else {
        return numbers(size);
    };
    if part.first != first || part.size != size {
        return numbers(size);
    }
    part.range
}

/// Forgets the parts that have one of these bytes.
pub fn forget_parts(parts: &mut [Option<StackPart>], from: usize, to: usize)
    ensures { (j : ℕ) → Outlives from to (slice_index_or parts.old j None) (slice_index_or parts.new j None) }
{
    for j in 0..parts.len() {
        parts[j] = apart(parts[j], from, to);
    }
}

/// The part, if it has none of these bytes.
fn apart(part: Option<StackPart>, from: usize, to: usize) -> Option<StackPart>
    ensures { Outlives from to part result }
{
    let Some(part) = part else {
        return None;
    };
    let first = usize::from(part.first);
    if first < to && from < first + part.size.bytes() {
        return None;
    }
    Some(part)
}

/// Joins each part with the other one at the same place.
pub fn join_parts(into: &mut [Option<StackPart>], other: &[Option<StackPart>])
    requires { length into.old ≡ length other.now }
    ensures left { (k : ℕ) → AllowsPart (slice_index_or into.old k None) (slice_index_or into.new k None) }
    ensures right { (k : ℕ) → AllowsPart (slice_index_or other.now k None) (slice_index_or into.new k None) }
{
    for i in 0..into.len() {
        into[i] = join_part(into[i], other[i]);
    }
}

/// The join of two parts: its range covers both ranges. `None` if they are of different bytes.
fn join_part(a: Option<StackPart>, b: Option<StackPart>) -> Option<StackPart>
    ensures left { AllowsPart a result }
    ensures right { AllowsPart b result }
{
    let (Some(a), Some(b)) = (a, b) else {
        return None;
    };
    if a.first != b.first || a.size != b.size {
        return None;
    }
    Some(StackPart {
        first: a.first,
        size: a.size,
        range: a.range.hull(b.range),
    })
}

/// The place in the list at which a part is kept.
fn place_of(first: u16) -> usize
    ensures { result < 4 }
{
    usize::from(first / 4 % 4)
}

/// A range that has the numbers which the low bytes of words of the range spell.
fn low_of(size: Size, word: Range) -> Range
    ensures { (v : ℕ) → Within word v → Within result (number_of (low_bytes size v)) }
{
    let all = numbers(size);
    if word.hi <= all.hi { word } else { all }
}

/// The range of all numbers of this size.
pub fn numbers(size: Size) -> Range
    ensures all { (x : ℕ) → x < 256 ^ byte_count size → Within result x }
    ensures below { result.hi < 256 ^ byte_count size }
{
    match size {
        Size::Byte => Range { lo: 0, hi: 0xff },
        Size::Half => Range { lo: 0, hi: 0xffff },
        Size::Word => Range {
            lo: 0,
            hi: 0xffff_ffff,
        },
        Size::Double => Range {
            lo: 0,
            hi: u64::MAX,
        },
    }
}
